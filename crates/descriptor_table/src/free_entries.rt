//! The conventional entries of a memory map by ascending page.
ghost use Rattle.std.specs.Prelude.{◌≡◌, ◌<◌, ◌≤◌, [], IfSome, IfNone, length};
ghost use Rattle.page_ranges.specs.Memory.{IsProperMemory};
ghost use Rattle.page_ranges.specs.Runs.{pages_of, AreMaximalRuns};
ghost use Rattle.descriptor_table.specs.Leaves.{runs_in, AreLeaves};
ghost use Rattle.descriptor_table.specs.LeafWalks.{free_in};
ghost use Rattle.descriptor_table.specs.Wanting.{entries_from, HaveSameEntries, YieldsFirst, YieldsFirstLeaf};

use crate::free_marks::first_mark;
use crate::free_runs::FreeRun;
use crate::leaves::Leaf;
use page_ranges::{MemoryType, Run};
use std::alloc::{Allocator, Global};
use std::marker::Model;

/// The first leaf from an index on that has a mark; `None` where none has.
#[inline(always)]
fn marked_leaf<A: Allocator + Copy>(leaves: &[Leaf<A>], from: usize) -> Option<usize>
    ensures bound { IfSome result (λ j. (from ≤ j) × (j < length leaves.now)) }
    ensures some { IfSome result (λ j. HaveSameEntries leaves.now from j) }
    ensures none { IfNone result (entries_from leaves.now from ≡ []) }
{
    for leaf in from..leaves.len() {
        if leaves[leaf].marks() != 0 {
            return Some(leaf);
        }
    }
    None
}

/// The conventional entries of a memory map by ascending page, as the free runs of one leaf after the other.
#[derive(Drop)]
pub struct FreeEntries<'a, A: Allocator = Global> {
    leaves: &'a [Leaf<A>],
    // The leaves from this one on are still to come.
    leaf: usize,
}

impl<'a, A: Allocator> Model for FreeEntries<'a, A> {
    ghost use Rattle.std.specs.Prelude.{◌-◌, length};
    ghost use Rattle.page_ranges.specs.Runs.{pages_of};
    ghost use Rattle.descriptor_table.specs.Leaves.{runs_in};
    ghost use Rattle.descriptor_table.specs.LeafWalks.{AreProperLeaves};
    ghost use Rattle.descriptor_table.specs.Wanting.{EntriesLeft, entries_from};

    ghost Value = { EntriesLeft };

    ghost view = { λ e.
        record {
          memory = pages_of (runs_in e.leaves.now);
          entries = entries_from e.leaves.now e.leaf;
          leaves = length e.leaves.now - e.leaf;
        } };

    ghost invariant = { λ e. AreProperLeaves e.leaves.now };
}

impl<'a, A: Allocator + Copy> FreeEntries<'a, A> {
    pub(crate) fn new(leaves: &'a [Leaf<A>]) -> FreeEntries<'a, A>
        requires leaves { AreLeaves leaves.now }
        requires maximal { AreMaximalRuns (runs_in leaves.now) }
        requires proper { IsProperMemory (pages_of (runs_in leaves.now)) }
        ensures memory { result.memory ≡ pages_of (runs_in leaves.now) }
        ensures entries { result.entries ≡ free_in (runs_in leaves.now) }
    {
        FreeEntries { leaves, leaf: 0 }
    }

    /// The entries of the next leaf with a marked run; `None` where no entry is left.
    #[inline(always)]
    pub fn next_leaf(&mut self) -> Option<LeafUp<'a, A>>
        ensures stays { self.new.memory ≡ self.old.memory }
        ensures next { YieldsFirstLeaf self.old result self.new }
    {
        let leaf = marked_leaf(self.leaves, self.leaf)?;
        self.leaf = leaf + 1;
        Some(LeafUp {
            leaves: self.leaves,
            leaf,
            runs: self.leaves[leaf].runs(),
            marks: self.leaves[leaf].marks(),
            index: 0,
        })
    }
}

/// The conventional entries of a leaf by ascending page.
#[derive(Drop)]
pub struct LeafUp<'a, A: Allocator = Global> {
    leaves: &'a [Leaf<A>],
    leaf: usize,
    // The runs of that leaf, with a bit for each free one. Those from an index on are still to come.
    runs: &'a [Run],
    marks: u64,
    index: usize,
}

impl<'a, A: Allocator> Model for LeafUp<'a, A> {
    ghost use Rattle.std.specs.Prelude.{drop};
    ghost use Rattle.page_ranges.specs.Runs.{pages_of};
    ghost use Rattle.descriptor_table.specs.FreeLists.{FreeList};
    ghost use Rattle.descriptor_table.specs.Leaves.{runs_in};
    ghost use Rattle.descriptor_table.specs.LeafWalks.{AreRunsOfLeaf};
    ghost use Rattle.descriptor_table.specs.Wanting.{entries_of};

    ghost Value = { FreeList };

    ghost view = { λ l.
        record {
          memory = pages_of (runs_in l.leaves.now);
          entries = entries_of (drop l.index l.runs.now);
        } };

    ghost invariant = { λ l. AreRunsOfLeaf l.leaves.now l.leaf l.runs.now l.marks l.index };
}

impl<'a, A: Allocator + Copy> LeafUp<'a, A> {
    /// The next entry; `None` after the last one.
    #[inline(always)]
    pub fn next_entry(&mut self) -> Option<FreeRun<'a, A>>
        ensures stays { self.new.memory ≡ self.old.memory }
        ensures next { YieldsFirst self.old result self.new }
    {
        while let Some(index) = first_mark(self.marks, self.index, self.runs.len()) {
            self.index = index + 1;
            let run = &self.runs[index];
            if run.mtype == MemoryType::conventional() {
                return Some(FreeRun {
                    leaves: self.leaves,
                    leaf: self.leaf,
                    runs: self.runs,
                    marks: self.marks,
                    index,
                    run,
                });
            }
        }
        None
    }
}
