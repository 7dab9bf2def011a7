//! Ascending numbers.
ghost use Rattle.std.specs.Prelude.{◌≡◌, ◌<◌, ◌≤◌, not, nat_lt, length};
ghost use Rattle.guid_handles.specs.Sorting.{Ascending, place};

/// How many of some ascending numbers are not above one.
pub(crate) fn count_up_to(numbers: &[u64], last: u64) -> usize
    requires { Ascending (λ a b. a < b) numbers.now }
    ensures place { result ≡ place (λ n. not (nat_lt last n)) numbers.now }
    ensures bound { result ≤ length numbers.now }
{
    numbers.partition_point(
        |n: &u64| -> bool
            ensures { result ≡ not (nat_lt last n.now) }
        { *n <= last },
    )
}
