//! A cursor over a table of runs.
ghost use Rattle.std.specs.Prelude.{◌≡◌, ◌+◌, ◌<◌, ◌≤◌, length, nat_le, Contains, IfSome, IsTrue};
ghost use Rattle.std.specs.List.{AllWithin};
ghost use Rattle.std.specs.Option.{option_map};
ghost use Rattle.page_ranges.specs.declared.ranges.Run.{Run};
ghost use Rattle.page_ranges.specs.MemoryTypes.{page_count};
ghost use Rattle.page_ranges.specs.Memory.{page_at, IsProperMemory};
ghost use Rattle.page_ranges.specs.Cursors.{IsBlockAt};
ghost use Rattle.page_ranges.specs.Runs.{page_in, pages_of, runs_of, AreRuns, AreMaximalRuns, IsInRun};
ghost use Rattle.descriptor_table.specs.Leaves.{first_page, runs_in, AreLeaves};
ghost use Rattle.descriptor_table.specs.LeafWalks.{EndsAbove};
ghost use Rattle.descriptor_table.specs.Tables.{entry_of, EndBy, HoldsPage};

use crate::leaf_searches::count_leaves_by;
use crate::leaves::Leaf;
use page_ranges::{Descriptor, PageCursor, Run};
use std::alloc::{Allocator, Global};
use std::marker::Model;

/// How many runs are looked at one after the other before the rest is searched by halving.
const STEPS: usize = 64;

/// How many leaves are looked at one after the other before the rest is searched by halving.
const LEAF_STEPS: usize = 8;

/// How many runs end at a page or below it; they come first.
#[inline(never)]
fn count_ending_by(runs: &[Run], page: u64) -> usize
    requires runs { AreRuns runs.now }
    requires ends { EndBy page_count runs.now }
    ensures bound { result ≤ length runs.now }
    ensures by { AllWithin (λ r. r.range.first + r.range.pages ≤ page) runs.now 0 result }
    ensures above { AllWithin (EndsAbove page) runs.now result (length runs.now) }
{
    runs.partition_point(
        |run: &Run| -> bool
            ensures { result ≡ nat_le (run.now.range.first + run.now.range.pages) page }
        { run.range.first <= page && run.range.pages <= page - run.range.first },
    )
}

/// Whether the runs before an index end at a page or below it.
#[inline(always)]
fn all_end_by(runs: &[Run], page: u64, index: usize) -> bool
    requires runs { AreRuns runs.now }
    requires ends { EndBy page_count runs.now }
    requires bound { index ≤ length runs.now }
    ensures { IsTrue result
        → AllWithin (λ r. r.range.first + r.range.pages ≤ page) runs.now 0 index }
{
    if index == 0 {
        return true;
    }
    let last = &runs[index - 1];
    last.range.first + last.range.pages <= page
}

/// The same count, found by steps from an index on where that is not far below.
#[inline(always)]
fn count_ending_by_from(runs: &[Run], page: u64, start: usize) -> usize
    requires runs { AreRuns runs.now }
    requires ends { EndBy page_count runs.now }
    requires start { start ≤ length runs.now }
    ensures bound { result ≤ length runs.now }
    ensures by { AllWithin (λ r. r.range.first + r.range.pages ≤ page) runs.now 0 result }
    ensures above { AllWithin (EndsAbove page) runs.now result (length runs.now) }
{
    if all_end_by(runs, page, start) {
        for index in start..start + STEPS.min(runs.len() - start) {
            let run = &runs[index];
            if page < run.range.first + run.range.pages {
                return index;
            }
        }
    }
    count_ending_by(runs, page)
}

/// The run that holds a page, if it is the one at an index: the first that ends above the page.
#[inline(always)]
fn run_from(runs: &[Run], page: u64, index: usize) -> Option<Run>
    requires runs { AreRuns runs.now }
    requires bound { index ≤ length runs.now }
    requires by { AllWithin (λ r. r.range.first + r.range.pages ≤ page) runs.now 0 index }
    requires above { AllWithin (EndsAbove page) runs.now index (length runs.now) }
    ensures page { page_at (pages_of runs.now) page ≡ option_map (page_in page) result }
    ensures member { IfSome result (λ r. Contains runs.now r × IsInRun r page) }
{
    if index == runs.len() {
        return None;
    }
    let run = runs[index];
    if run.range.first <= page {
        Some(run)
    } else {
        None
    }
}

/// How many leaves begin at a page or below it, found by steps from a leaf on where that is not far
/// below.
#[inline(always)]
pub(crate) fn count_leaves_by_from<A: Allocator + Copy>(
    leaves: &[Leaf<A>],
    page: u64,
    start: usize,
) -> usize
    requires leaves { AreLeaves leaves.now }
    requires runs { AreRuns (runs_in leaves.now) }
    ensures bound { result ≤ length leaves.now }
    ensures by { AllWithin (λ l. first_page l ≤ page) leaves.now 0 result }
    ensures above { AllWithin (λ l. page < first_page l) leaves.now result (length leaves.now) }
{
    if start < leaves.len() && leaves[start].first() <= page {
        for index in start + 1..start + LEAF_STEPS.min(leaves.len() - start) {
            if page < leaves[index].first() {
                return index;
            }
        }
    }
    count_leaves_by(leaves, page)
}

/// Finds runs by the pages that they hold, soonest where each page is at the last one or a little above.
#[derive(Drop)]
pub struct RunCursor<'a, A: Allocator = Global> {
    leaves: &'a [Leaf<A>],
    // The leaf that is looked at first, and the run that is looked at first there.
    leaf: usize,
    index: usize,
}

impl<'a, A: Allocator> Model for RunCursor<'a, A> {
    ghost use Rattle.std.specs.Prelude.{List};
    ghost use Rattle.page_ranges.specs.Memory.{Page, IsProperMemory};
    ghost use Rattle.page_ranges.specs.Runs.{pages_of, AreMaximalRuns};
    ghost use Rattle.descriptor_table.specs.Leaves.{runs_in};
    ghost use Rattle.descriptor_table.specs.LeafWalks.{AreProperLeaves};

    ghost Value = { List Page };

    ghost view = { λ c. pages_of (runs_in c.leaves.now) };

    ghost invariant = { λ c. AreProperLeaves c.leaves.now };
}

impl<'a, A: Allocator + Copy> RunCursor<'a, A> {
    pub(crate) fn new(leaves: &'a [Leaf<A>]) -> RunCursor<'a, A>
        requires leaves { AreLeaves leaves.now }
        requires maximal { AreMaximalRuns (runs_in leaves.now) }
        requires proper { IsProperMemory (pages_of (runs_in leaves.now)) }
        ensures { result ≡ pages_of (runs_in leaves.now) }
    {
        RunCursor {
            leaves,
            leaf: 0,
            index: 0,
        }
    }

    /// The run that holds a page.
    #[inline(always)]
    pub fn run_at(&mut self, page: u64) -> Option<Run>
        ensures stays { self.new ≡ self.old }
        ensures page { page_at self.old page ≡ option_map (page_in page) result }
        ensures maximal { HoldsPage self.old page result }
    {
        let leaves = self.leaves;
        let count = count_leaves_by_from(leaves, page, self.leaf);
        if count == 0 {
            return None;
        }
        let runs = leaves[count - 1].runs();
        let index = count_ending_by_from(runs, page, self.index.min(runs.len()));
        self.leaf = count - 1;
        self.index = index;
        run_from(runs, page, index)
    }
}

impl<'a, A: Allocator + Copy> PageCursor for RunCursor<'a, A> {
    ghost memory = { λ c. c };

    #[inline(always)]
    fn block_at(&mut self, page: u64) -> Option<Descriptor>
        ensures stays { self.new ≡ self.old }
        ensures block { IsBlockAt self.old page result }
        ensures run { IfSome result
            (λ b. (r : Run) × Contains (runs_of self.old) r × (b ≡ entry_of r)) }
    {
        let _ = &self.leaves;
        let run = self.run_at(page)?;
        Some(Descriptor {
            mtype: run.mtype,
            first: run.range.first,
            pages: run.range.pages,
            attributes: run.attributes,
        })
    }
}
