//! A conventional entry of a memory map as the run that it is.
ghost use Rattle.std.specs.Prelude.{◌≡◌, ◌+◌, ◌<◌, ◌≤◌, ◌↔◌, Some, length, slice_get, IsTrue};
ghost use Rattle.std.specs.Option.{option_map};
ghost use Rattle.page_ranges.specs.MemoryTypes.{page_count};
ghost use Rattle.descriptor_table.specs.Leaves.{leaf_at, AreLeaves};
ghost use Rattle.descriptor_table.specs.LeafWalks.{IsAboveRun, IsBelowRun, run_above, run_below};
ghost use Rattle.descriptor_table.specs.Tables.{entry_of};
ghost use Rattle.descriptor_table.specs.Wanting.{IsBlockBefore, IsBlockBehind, IsFreeBehind};

use crate::leaves::Leaf;
use page_ranges::{MemoryType, Run};
use std::alloc::{Allocator, Global};
use std::marker::Model;

/// The runs of the leaf at an index; none where there is no such leaf.
#[inline(always)]
fn runs_of<A: Allocator + Copy>(leaves: &[Leaf<A>], leaf: usize) -> &[Run]
    ensures { result.now ≡ leaf_at leaves.now leaf }
{
    if leaf >= leaves.len() {
        return &[];
    }
    leaves[leaf].runs()
}

/// One of some runs.
#[inline(always)]
fn run_at(runs: &[Run], index: usize) -> Option<&Run>
    ensures { option_map (λ r. r.now) result ≡ slice_get runs.now index }
{
    runs.get(index)
}

/// The run below the one at an index of a leaf.
#[inline(always)]
fn run_below<A: Allocator + Copy>(leaves: &[Leaf<A>], leaf: usize, index: usize) -> Option<&Run>
    requires leaves { AreLeaves leaves.now }
    requires leaf { leaf < length leaves.now }
    requires index { index < length (leaf_at leaves.now leaf) }
    ensures { option_map (λ r. r.now) result ≡ run_below leaves.now leaf index }
{
    if index > 0 {
        return run_at(runs_of(leaves, leaf), index - 1);
    }
    if leaf == 0 {
        return None;
    }
    let runs = runs_of(leaves, leaf - 1);
    run_at(runs, runs.len() - 1)
}

/// The run above it.
#[inline(always)]
fn run_above<A: Allocator + Copy>(leaves: &[Leaf<A>], leaf: usize, index: usize) -> Option<&Run>
    requires leaves { AreLeaves leaves.now }
    requires leaf { leaf < length leaves.now }
    requires index { index < length (leaf_at leaves.now leaf) }
    ensures { option_map (λ r. r.now) result ≡ run_above leaves.now leaf index }
{
    let runs = runs_of(leaves, leaf);
    if index + 1 < runs.len() {
        return run_at(runs, index + 1);
    }
    run_at(runs_of(leaves, leaf + 1), 0)
}

/// The run below another one, if they touch.
#[inline(always)]
fn touching_below<'a>(below: &'a Run, run: &Run) -> Option<&'a Run>
    requires { below.now.range.first + below.now.range.pages ≤ page_count }
    ensures { IsBelowRun (Some below.now) run.now (option_map (λ r. entry_of r.now) result) }
{
    if below.range.first + below.range.pages == run.range.first {
        Some(below)
    } else {
        None
    }
}

/// The run above another one, if they touch.
#[inline(always)]
fn touching_above<'a>(run: &Run, above: &'a Run) -> Option<&'a Run>
    requires { run.now.range.first + run.now.range.pages ≤ page_count }
    ensures { IsAboveRun run.now (Some above.now) (option_map (λ r. entry_of r.now) result) }
{
    if run.range.first + run.range.pages == above.range.first {
        Some(above)
    } else {
        None
    }
}

/// A conventional entry of the memory map: a free run, in its leaf.
#[derive(Drop)]
pub struct FreeRun<'a, A: Allocator = Global> {
    pub(crate) leaves: &'a [Leaf<A>],
    pub(crate) leaf: usize,
    // The runs of that leaf, with a bit for each free one, and this one with its index there.
    pub(crate) runs: &'a [Run],
    pub(crate) marks: u64,
    pub(crate) index: usize,
    pub(crate) run: &'a Run,
}

impl<'a, A: Allocator> Model for FreeRun<'a, A> {
    ghost use Rattle.page_ranges.specs.Runs.{pages_of};
    ghost use Rattle.descriptor_table.specs.Leaves.{runs_in};
    ghost use Rattle.descriptor_table.specs.LeafWalks.{IsFreeRunOfLeaf};
    ghost use Rattle.descriptor_table.specs.Tables.{entry_of};
    ghost use Rattle.descriptor_table.specs.Wanting.{EntryOfMap};

    ghost Value = { EntryOfMap };

    ghost view = { λ f.
        record {
          memory = pages_of (runs_in f.leaves.now);
          entry = entry_of f.run.now;
        } };

    ghost invariant = { λ f. IsFreeRunOfLeaf f.leaves.now f.leaf f.runs.now f.marks f.index
        f.run.now };
}

impl<'a, A: Allocator + Copy> FreeRun<'a, A> {
    /// The run.
    #[inline(always)]
    pub fn run(&self) -> &'a Run
        ensures { entry_of result.now ≡ self.now.entry }
    {
        self.run
    }

    /// Whether a free run begins where it ends.
    #[inline(always)]
    pub fn goes_on(&self) -> bool
        ensures { IsTrue result ↔ IsFreeBehind self.now }
    {
        let next = self.index + 1;
        if next < self.runs.len() && self.marks >> next & 1 == 0 {
            return false;
        }
        match self.above() {
            Some(above) => above.mtype == MemoryType::conventional(),
            None => false,
        }
    }

    /// The run that ends where it begins.
    #[inline(always)]
    pub fn below(&self) -> Option<&'a Run>
        ensures { IsBlockBefore self.now (option_map (λ r. entry_of r.now) result) }
    {
        let below = if self.index > 0 {
            &self.runs[self.index - 1]
        } else {
            run_below(self.leaves, self.leaf, self.index)?
        };
        touching_below(below, self.run)
    }

    /// The run that begins where it ends.
    #[inline(always)]
    pub fn above(&self) -> Option<&'a Run>
        ensures { IsBlockBehind self.now (option_map (λ r. entry_of r.now) result) }
    {
        let above = if self.index + 1 < self.runs.len() {
            &self.runs[self.index + 1]
        } else {
            run_above(self.leaves, self.leaf, self.index)?
        };
        touching_above(self.run, above)
    }
}
