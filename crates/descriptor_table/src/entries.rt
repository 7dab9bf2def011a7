//! The memory map of runs: owners do not split its entries.
ghost use Rattle.std.specs.Prelude.{◌≡◌, ◌+◌, ◌-◌, ◌<◌, ◌≤◌, ◌^◌, ◌∷◌, length, take, drop, false, None, Some, IfSome, option_map};
ghost use Rattle.std.specs.Iterator.{YieldsFirst, item_count};
ghost use Rattle.page_ranges.specs.MemoryTypes.{page_count};
ghost use Rattle.page_ranges.specs.MemoryMap.{memory_map, should_be_one};
ghost use Rattle.page_ranges.specs.Runs.{pages_of, AreRuns};
ghost use Rattle.descriptor_table.specs.Leaves.{runs_in, runs_with_first, entry_count, AreLeaves};
ghost use Rattle.descriptor_table.specs.LeafWalks.{entry_up_to, map_from, map_of_runs};
ghost use Rattle.descriptor_table.specs.Tables.{entry_of, EndBy};

use crate::leaves::Leaf;
use crate::walks::Walk;
use page_ranges::{Descriptor, Run};
use std::alloc::{Allocator, Global};
use std::marker::Model;

/// A run as a block, its owner left out.
#[inline(always)]
pub fn block_of(run: &Run) -> Descriptor
    ensures { result ≡ entry_of run.now }
{
    Descriptor {
        mtype: run.mtype,
        first: run.range.first,
        pages: run.range.pages,
        attributes: run.attributes,
    }
}

/// The second run goes on in the first one's entry of the map.
#[inline(always)]
pub(crate) fn goes_on(run: &Run, next: &Run) -> bool
    requires { run.now.range.first + run.now.range.pages < 2 ^ 64 }
    ensures { result ≡ should_be_one (entry_of run.now) (entry_of next.now) }
{
    run.range.first + run.range.pages == next.range.first
        && run.mtype == next.mtype
        && run.attributes == next.attributes
}

/// How many entries the map of runs has.
pub(crate) fn count_entries(runs: &[Run]) -> usize
    requires runs { AreRuns runs.now }
    requires ends { EndBy page_count runs.now }
    ensures count { result ≡ length (memory_map (pages_of runs.now)) }
    ensures bound { result ≤ length runs.now }
{
    // Each run begins an entry, except those that continue the entry of the run before.
    let mut entries = runs.len();
    let mut rest = runs;
    while let [first, second, ..] = rest {
        if goes_on(first, second) {
            entries -= 1;
        }
        rest = &rest[1..];
    }
    entries
}

/// The entries of a memory map, by ascending page.
#[derive(Drop)]
pub struct MapEntries<'a, A: Allocator = Global> {
    // The first run of the next entry, and a walk that passed it.
    first: Option<&'a Run>,
    walk: Walk<'a, A>,
}

impl<'a, A: Allocator> Model for MapEntries<'a, A> {
    ghost use Rattle.std.specs.Prelude.{List, option_map};
    ghost use Rattle.page_ranges.specs.declared.ranges.Descriptor.{Descriptor};
    ghost use Rattle.descriptor_table.specs.Leaves.{runs_with_first};
    ghost use Rattle.descriptor_table.specs.LeafWalks.{map_from, AreRunsOfPages};

    ghost Value = { List Descriptor };

    ghost view = { λ e. map_from (option_map (λ r. r.now) e.first) e.walk };

    ghost invariant = { λ e. AreRunsOfPages
        (runs_with_first (option_map (λ r. r.now) e.first) e.walk) };
}

impl<'a, A: Allocator + Copy> MapEntries<'a, A> {
    pub(crate) fn new(leaves: &'a [Leaf<A>]) -> MapEntries<'a, A>
        requires leaves { AreLeaves leaves.now }
        requires runs { AreRuns (runs_in leaves.now) }
        requires ends { EndBy page_count (runs_in leaves.now) }
        ensures { result ≡ memory_map (pages_of (runs_in leaves.now)) }
    {
        let mut walk = Walk::new(leaves);
        let first = walk.next();
        MapEntries { first, walk }
    }
}

/// Passes the runs that go on in a run's entry, and the one after them. Answers the page after the
/// entry, and that run.
#[inline(always)]
fn end_of_entry<'a, A: Allocator + Copy>(
    first: &'a Run,
    walk: &mut Walk<'a, A>,
) -> (u64, Option<&'a Run>)
    requires runs { AreRuns (first.now ∷ walk.old) }
    requires ends { EndBy page_count (first.now ∷ walk.old) }
    ensures low { first.now.range.first ≤ result.0 }
    ensures runs { AreRuns (runs_with_first (option_map (λ r. r.now) result.1) walk.new) }
    ensures ends { EndBy page_count
        (runs_with_first (option_map (λ r. r.now) result.1) walk.new) }
    ensures entry { map_of_runs (first.now ∷ walk.old)
        ≡ entry_up_to first.now result.0
        ∷ map_from (option_map (λ r. r.now) result.1) walk.new }
{
    let mut last = first;
    while let Some(run) = walk.next() {
        if !goes_on(last, run) {
            return (last.range.first + last.range.pages, Some(run));
        }
        last = run;
    }
    (last.range.first + last.range.pages, None)
}

/// Passes the next run of a leaf where it begins another entry than that of the run before it.
#[inline(always)]
fn next_apart<'a, A: Allocator + Copy>(run: &Run, walk: &mut Walk<'a, A>) -> Option<&'a Run>
    requires { run.now.range.first + run.now.range.pages < 2 ^ 64 }
    ensures passed { IfSome result (λ next. walk.old ≡ next.now ∷ walk.new) }
    ensures apart { IfSome result
        (λ r. should_be_one (entry_of run.now) (entry_of r.now) ≡ false) }
    ensures none { result ≡ None → walk.new ≡ walk.old }
{
    let (next, passed) = walk.next_in_leaf()?;
    if goes_on(run, next) {
        return None;
    }
    *walk = passed;
    Some(next)
}

impl<'a, A: Allocator + Copy> Iterator for MapEntries<'a, A> {
    type Item = Descriptor;

    ghost next_gives = { YieldsFirst (λ e. e) };

    ghost remaining = { item_count (λ e. e) };

    fn next(&mut self) -> Option<Descriptor> {
        let first = self.first?;
        if let Some(run) = next_apart(first, &mut self.walk) {
            self.first = Some(run);
            return Some(block_of(first));
        }
        let (end, next) = end_of_entry(first, &mut self.walk);
        self.first = next;
        Some(Descriptor {
            mtype: first.mtype,
            first: first.range.first,
            pages: end - first.range.first,
            attributes: first.attributes,
        })
    }
}
