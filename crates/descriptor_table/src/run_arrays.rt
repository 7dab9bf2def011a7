//! Runs in an array of fixed capacity.
ghost use Rattle.std.specs.Prelude.{◌≡◌, ◌+◌, ◌-◌, ◌≤◌, ◌++◌, length, take, drop};
ghost use Rattle.arrayvec.specs.ArrayVec.{array_vec_len};

use arrayvec::ArrayVec;
use page_ranges::Run;

/// Replaces some runs by others, where they fit.
pub(crate) fn replace_runs<const N: usize>(
    runs: &mut ArrayVec<Run, N>,
    low: usize,
    high: usize,
    parts: &[Run],
)
    requires order { low ≤ high }
    requires bound { high ≤ array_vec_len runs.old }
    requires fits { array_vec_len runs.old + length parts.now ≤ N + (high - low) }
    ensures { runs.new.items ≡ take low runs.old.items ++ (parts.now ++ drop high runs.old.items) }
{
    let end = low + parts.len();
    if end == high {
        runs.as_mut_slice()[low..high].copy_from_slice(parts);
        return;
    }
    let count = runs.len();
    if end < high {
        let all = runs.as_mut_slice();
        all.copy_within(high..count, end);
        all[low..end].copy_from_slice(parts);
        runs.truncate(count + end - high);
        return;
    }
    if high == count {
        let (front, back) = parts.split_at(high - low);
        runs.as_mut_slice()[low..].copy_from_slice(front);
        let _grown = runs.try_extend_from_slice(back);
        return;
    }
    let _grown = runs.try_extend_from_slice(&parts[..end - high]);
    let longer = runs.as_mut_slice();
    longer.copy_within(high..count, end);
    longer[low..end].copy_from_slice(parts);
}
