//! Finding a leaf by a page or by an index.
ghost use Rattle.std.specs.Prelude.{◌≡◌, ◌↔◌, ◌+◌, ◌<◌, ◌≤◌, length, nat_le, Contains, IfSome, IsTrue, slice_get};
ghost use Rattle.std.specs.List.{AllWithin};
ghost use Rattle.std.specs.Option.{option_map};
ghost use Rattle.page_ranges.specs.MemoryTypes.{page_count};
ghost use Rattle.page_ranges.specs.Memory.{AllInRange};
ghost use Rattle.page_ranges.specs.Runs.{pages_of, AreRuns};
ghost use Rattle.descriptor_table.specs.Leaves.{first_page, runs_in, AreLeaves};
ghost use Rattle.descriptor_table.specs.PageTests.{Passes};
ghost use Rattle.descriptor_table.specs.Tables.{EndBy, IsHolder, ShowsPage};

use crate::leaves::Leaf;
use crate::searches::{PageTest, count_beginning_by, run_holding};
use page_ranges::{PageRange, Run};
use std::alloc::Allocator;

/// How many leaves begin at a page or below it; they come first.
#[inline(never)]
pub(crate) fn count_leaves_by<A: Allocator + Copy>(leaves: &[Leaf<A>], page: u64) -> usize
    requires leaves { AreLeaves leaves.now }
    requires runs { AreRuns (runs_in leaves.now) }
    ensures bound { result ≤ length leaves.now }
    ensures by { AllWithin (λ l. first_page l ≤ page) leaves.now 0 result }
    ensures above { AllWithin (λ l. page < first_page l) leaves.now result (length leaves.now) }
{
    if leaves.len() == 1 {
        return if page < leaves[0].first() { 0 } else { 1 };
    }
    leaves.partition_point(
        |leaf: &Leaf<A>| -> bool
            ensures { result ≡ nat_le (first_page leaf.now) page }
        { leaf.first() <= page },
    )
}

/// The run that holds a page.
pub(crate) fn run_in_leaves<A: Allocator + Copy>(leaves: &[Leaf<A>], page: u64) -> Option<&Run>
    requires leaves { AreLeaves leaves.now }
    requires runs { AreRuns (runs_in leaves.now) }
    ensures page { ShowsPage (runs_in leaves.now) page (option_map (λ r. r.now) result) }
    ensures member { IsHolder (runs_in leaves.now) page (option_map (λ r. r.now) result) }
{
    let count = count_leaves_by(leaves, page);
    if count == 0 {
        return None;
    }
    run_holding(leaves[count - 1].runs(), page)
}

/// Where the run that holds a page is, if one does: the index of its leaf, and its own among the leaf's runs.
pub(crate) fn place_of<A: Allocator + Copy>(leaves: &[Leaf<A>], page: u64) -> (usize, usize)
    requires leaves { AreLeaves leaves.now }
    requires runs { AreRuns (runs_in leaves.now) }
{
    let count = count_leaves_by(leaves, page);
    if count == 0 {
        return (0, 0);
    }
    let index = count_beginning_by(leaves[count - 1].runs(), page);
    (count - 1, index.saturating_sub(1))
}

/// The run at a place.
#[inline(always)]
fn run_at_place<A: Allocator + Copy>(leaves: &[Leaf<A>], place: (usize, usize)) -> Option<&Run>
    ensures { IfSome result (λ r. Contains (runs_in leaves.now) r.now) }
{
    if place.0 >= leaves.len() {
        return None;
    }
    let runs = leaves[place.0].runs();
    if place.1 < runs.len() {
        Some(&runs[place.1])
    } else {
        None
    }
}

/// Whether the run at a place holds all pages of a range, and passes a test.
pub(crate) fn holds_all<A: Allocator + Copy>(
    leaves: &[Leaf<A>],
    place: (usize, usize),
    range: PageRange,
    test: PageTest,
) -> bool
    requires { AreRuns (runs_in leaves.now) }
    ensures { IsTrue result → AllInRange (pages_of (runs_in leaves.now)) range (Passes test) }
{
    let Some(run) = run_at_place(leaves, place) else {
        return false;
    };
    if range.first < run.range.first {
        return false;
    }
    let before = range.first - run.range.first;
    if run.range.pages <= before {
        return false;
    }
    if run.range.pages - before < range.pages {
        return false;
    }
    test.passes(run)
}

/// Whether each page of a range is present and passes a test.
pub(crate) fn all_in_range<A: Allocator + Copy>(
    leaves: &[Leaf<A>],
    range: PageRange,
    test: PageTest,
) -> bool
    requires leaves { AreLeaves leaves.now }
    requires runs { AreRuns (runs_in leaves.now) }
    requires ends { EndBy page_count (runs_in leaves.now) }
    ensures { IsTrue result ↔ AllInRange (pages_of (runs_in leaves.now)) range (Passes test) }
{
    if range.pages == 0 {
        return true;
    }
    // All pages of the range below this one pass.
    let mut next = range.first;
    loop {
        let Some(run) = run_in_leaves(leaves, next) else {
            return false;
        };
        if !test.passes(run) {
            return false;
        }
        next = run.range.first + run.range.pages;
        if next - range.first >= range.pages {
            return true;
        }
    }
}

/// The run at an index.
pub(crate) fn run_at_index<A: Allocator + Copy>(leaves: &[Leaf<A>], index: usize) -> Option<Run>
    ensures { result ≡ slice_get (runs_in leaves.now) index }
{
    let mut left = index;
    for leaf in leaves {
        let runs = leaf.runs();
        if left < runs.len() {
            return Some(runs[left]);
        }
        left -= runs.len();
    }
    None
}
