//! Finding a place among sorted runs.
ghost use Rattle.std.specs.Prelude.{◌≡◌, ◌↔◌, ℕ, ◌+◌, ◌<◌, ◌≤◌, length, nat_lt, nat_le, IsTrue, IfSome, Some};
ghost use Rattle.std.specs.List.{AllWithin};
ghost use Rattle.std.specs.Option.{option_map};
ghost use Rattle.page_ranges.specs.Runs.{page_in, AreRuns};
ghost use Rattle.descriptor_table.specs.LeafWalks.{EndsFrom};
ghost use Rattle.descriptor_table.specs.PageTests.{Passes};
ghost use Rattle.descriptor_table.specs.Tables.{IsHolder, ShowsPage};

use page_ranges::{MemoryType, Owner, Run};

/// How many runs end below a page; they come first. Of the runs that begin below it only the last may
/// end at it or above it. The run that holds the page is likely at an index, if one is given.
pub(crate) fn count_ending_below(runs: &[Run], page: u64, likely: Option<usize>) -> usize
    requires { AreRuns runs.now }
    ensures bound { result ≤ length runs.now }
    ensures below { AllWithin (λ r. r.range.first + r.range.pages < page) runs.now 0 result }
    ensures above { AllWithin (EndsFrom page) runs.now result (length runs.now) }
{
    let count = count_beginning_below(runs, page, likely);
    if count == 0 {
        return 0;
    }
    let last = &runs[count - 1];
    if last.range.pages < page - last.range.first {
        count
    } else {
        count - 1
    }
}

/// How many runs begin below a page, where the run at an index holds it.
#[inline(always)]
fn likely_run_count(runs: &[Run], page: u64, likely: usize) -> Option<usize>
    requires { AreRuns runs.now }
    ensures bound { IfSome result (λ count. count ≤ length runs.now) }
    ensures below { IfSome result
        (λ count. AllWithin (λ r. r.range.first < page) runs.now 0 count) }
    ensures above { IfSome result
        (λ count. AllWithin (λ r. page ≤ r.range.first) runs.now count (length runs.now)) }
{
    if likely >= runs.len() {
        return None;
    }
    let run = &runs[likely];
    if page == run.range.first {
        return Some(likely);
    }
    if run.range.first < page && page - run.range.first <= run.range.pages {
        return Some(likely + 1);
    }
    None
}

/// How many runs begin below a page, found by halving; they come first.
fn halved_run_count(runs: &[Run], page: u64) -> usize
    requires { AreRuns runs.now }
    ensures bound { result ≤ length runs.now }
    ensures below { AllWithin (λ r. r.range.first < page) runs.now 0 result }
    ensures above { AllWithin (λ r. page ≤ r.range.first) runs.now result (length runs.now) }
{
    runs.partition_point(
        |run: &Run| -> bool
            ensures { result ≡ nat_lt run.now.range.first page }
        { run.range.first < page },
    )
}

/// How many runs begin below a page; they come first. The run that holds it is likely at an index, if one
/// is given.
#[inline(always)]
fn count_beginning_below(runs: &[Run], page: u64, likely: Option<usize>) -> usize
    requires { AreRuns runs.now }
    ensures bound { result ≤ length runs.now }
    ensures below { AllWithin (λ r. r.range.first < page) runs.now 0 result }
    ensures above { AllWithin (λ r. page ≤ r.range.first) runs.now result (length runs.now) }
{
    if let Some(index) = likely
        && let Some(count) = likely_run_count(runs, page, index)
    {
        return count;
    }
    halved_run_count(runs, page)
}

/// How many runs begin at a page or below it; they come first.
pub(crate) fn count_beginning_by(runs: &[Run], page: u64) -> usize
    requires { AreRuns runs.now }
    ensures bound { result ≤ length runs.now }
    ensures by { AllWithin (λ r. r.range.first ≤ page) runs.now 0 result }
    ensures above { AllWithin (λ r. page < r.range.first) runs.now result (length runs.now) }
{
    runs.partition_point(
        |run: &Run| -> bool
            ensures { result ≡ nat_le run.now.range.first page }
        { run.range.first <= page },
    )
}

/// The same count, found by steps from an index on, before which all runs begin so.
pub(crate) fn count_beginning_by_from(runs: &[Run], page: u64, start: usize) -> usize
    requires runs { AreRuns runs.now }
    requires bound { start ≤ length runs.now }
    requires before { AllWithin (λ r. r.range.first ≤ page) runs.now 0 start }
    ensures bound { result ≤ length runs.now }
    ensures by { AllWithin (λ r. r.range.first ≤ page) runs.now 0 result }
    ensures above { AllWithin (λ r. page < r.range.first) runs.now result (length runs.now) }
{
    for index in start..runs.len() {
        if page < runs[index].range.first {
            return index;
        }
    }
    runs.len()
}

/// The run that holds a page.
#[inline(always)]
pub(crate) fn run_holding(runs: &[Run], page: u64) -> Option<&Run>
    requires { AreRuns runs.now }
    ensures page { ShowsPage runs.now page (option_map (λ r. r.now) result) }
    ensures member { IsHolder runs.now page (option_map (λ r. r.now) result) }
{
    let count = count_beginning_by(runs, page);
    if count == 0 {
        return None;
    }
    let run = &runs[count - 1];
    if page - run.range.first < run.range.pages {
        Some(run)
    } else {
        None
    }
}

/// What may be asked of a page.
#[derive(Clone, Copy)]
pub(crate) enum PageTest {
    Conventional,
    OwnedBy(Owner),
}

impl PageTest {
    /// Whether the pages of a run pass.
    pub(crate) fn passes(self, run: &Run) -> bool
        ensures { (page : ℕ) → IsTrue result ↔ Passes self (Some (page_in page run.now)) }
    {
        match self {
            PageTest::Conventional => run.mtype == MemoryType::conventional(),
            PageTest::OwnedBy(owner) => run.owner == owner,
        }
    }
}
