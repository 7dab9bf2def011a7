//! The conventional entries of a memory map from the highest down.
ghost use Rattle.std.specs.Prelude.{◌≡◌, ◌<◌, ◌≤◌, length, false};
ghost use Rattle.page_ranges.specs.Memory.{IsProperMemory};
ghost use Rattle.page_ranges.specs.Runs.{pages_of, AreMaximalRuns};
ghost use Rattle.descriptor_table.specs.Leaves.{leaf_at, runs_in, AreLeaves};
ghost use Rattle.descriptor_table.specs.LeafWalks.{free_in};
ghost use Rattle.descriptor_table.specs.Summaries.{BeginsFree, IsLeafOfNoUse};
ghost use Rattle.descriptor_table.specs.Wanting.{YieldsLast, YieldsLeaf, YieldsLeafEntries};

use crate::free_marks::last_mark;
use crate::free_runs::FreeRun;
use crate::leaves::Leaf;
use crate::wanted::Wanted;
use page_ranges::{MemoryType, Run};
use std::alloc::{Allocator, Global};
use std::marker::Model;

/// No placement gains more.
const MAX_GAIN: u64 = 3;

/// Whether the leaf at an index begins with a free run.
#[inline(always)]
pub(crate) fn begins_free<A: Allocator + Copy>(leaves: &[Leaf<A>], leaf: usize) -> bool
    ensures { BeginsFree result (leaf_at leaves.now leaf) }
{
    leaf < leaves.len() && leaves[leaf].begins_free()
}

/// Whether a leaf may be of use. `goes_on` says whether a free run follows it.
#[inline(always)]
fn may_hold<A: Allocator + Copy>(
    leaves: &[Leaf<A>],
    leaf: usize,
    wanted: &Wanted,
    goes_on: bool,
) -> bool
    requires { leaf < length leaves.now }
    ensures { result ≡ false → IsLeafOfNoUse wanted.now goes_on (leaf_at leaves.now leaf) }
{
    leaves[leaf].may_hold(wanted, goes_on)
}

/// The highest leaf before an index that may be of use; `None` where none is.
#[inline(always)]
fn leaf_of_use<A: Allocator + Copy>(
    leaves: &[Leaf<A>],
    high: usize,
    wanted: &Wanted,
) -> Option<usize>
    requires leaves { AreLeaves leaves.now }
    requires maximal { AreMaximalRuns (runs_in leaves.now) }
    requires proper { IsProperMemory (pages_of (runs_in leaves.now)) }
    requires high { high ≤ length leaves.now }
    requires gain { wanted.now.gain ≤ 3 }
    ensures { YieldsLeaf wanted.now leaves.now high result }
{
    let mut goes_on = begins_free(leaves, high);
    for leaf in (0..high).rev() {
        if may_hold(leaves, leaf, wanted, goes_on) {
            return Some(leaf);
        }
        goes_on = leaves[leaf].begins_free();
    }
    None
}

/// The conventional entries of a memory map from the highest down, as the free runs of one leaf after the other.
#[derive(Drop)]
pub struct EntriesDown<'a, A: Allocator = Global> {
    leaves: &'a [Leaf<A>],
    // The leaves before this one are still to come.
    leaf: usize,
}

impl<'a, A: Allocator> Model for EntriesDown<'a, A> {
    ghost use Rattle.std.specs.Prelude.{take};
    ghost use Rattle.page_ranges.specs.Runs.{pages_of};
    ghost use Rattle.descriptor_table.specs.Leaves.{runs_in};
    ghost use Rattle.descriptor_table.specs.LeafWalks.{AreLeavesDownFrom};
    ghost use Rattle.descriptor_table.specs.Wanting.{EntriesLeft, entries_of};

    ghost Value = { EntriesLeft };

    ghost view = { λ e.
        record {
          memory = pages_of (runs_in e.leaves.now);
          entries = entries_of (runs_in (take e.leaf e.leaves.now));
          leaves = e.leaf;
        } };

    ghost invariant = { λ e. AreLeavesDownFrom e.leaves.now e.leaf };
}

impl<'a, A: Allocator + Copy> EntriesDown<'a, A> {
    pub(crate) fn new(leaves: &'a [Leaf<A>]) -> EntriesDown<'a, A>
        requires leaves { AreLeaves leaves.now }
        requires maximal { AreMaximalRuns (runs_in leaves.now) }
        requires proper { IsProperMemory (pages_of (runs_in leaves.now)) }
        ensures memory { result.memory ≡ pages_of (runs_in leaves.now) }
        ensures entries { result.entries ≡ free_in (runs_in leaves.now) }
    {
        EntriesDown {
            leaves,
            leaf: leaves.len(),
        }
    }

    /// The entries of the next leaf that may be of use; `None` where none that is left is of use.
    #[inline(always)]
    pub fn next_leaf(&mut self, wanted: &Wanted) -> Option<LeafDown<'a, A>>
        ensures stays { self.new.memory ≡ self.old.memory }
        ensures next { YieldsLeafEntries wanted.now self.old result self.new }
    {
        if wanted.gain > MAX_GAIN {
            return None;
        }
        let leaf = leaf_of_use(self.leaves, self.leaf, wanted)?;
        self.leaf = leaf;
        let runs = self.leaves[leaf].runs();
        Some(LeafDown {
            leaves: self.leaves,
            leaf,
            runs,
            marks: self.leaves[leaf].marks(),
            count: runs.len(),
        })
    }
}

/// The conventional entries of a leaf from the highest down.
#[derive(Drop)]
pub struct LeafDown<'a, A: Allocator = Global> {
    leaves: &'a [Leaf<A>],
    leaf: usize,
    // The runs of that leaf, with a bit for each free one. The first ones are still to come.
    runs: &'a [Run],
    marks: u64,
    count: usize,
}

impl<'a, A: Allocator> Model for LeafDown<'a, A> {
    ghost use Rattle.std.specs.Prelude.{take};
    ghost use Rattle.page_ranges.specs.Runs.{pages_of};
    ghost use Rattle.descriptor_table.specs.FreeLists.{FreeList};
    ghost use Rattle.descriptor_table.specs.Leaves.{runs_in};
    ghost use Rattle.descriptor_table.specs.LeafWalks.{AreRunsOfLeaf};
    ghost use Rattle.descriptor_table.specs.Wanting.{entries_of};

    ghost Value = { FreeList };

    ghost view = { λ l.
        record {
          memory = pages_of (runs_in l.leaves.now);
          entries = entries_of (take l.count l.runs.now);
        } };

    ghost invariant = { λ l. AreRunsOfLeaf l.leaves.now l.leaf l.runs.now l.marks l.count };
}

impl<'a, A: Allocator + Copy> LeafDown<'a, A> {
    /// The next entry; `None` after the lowest one.
    #[inline(always)]
    pub fn next_entry(&mut self) -> Option<FreeRun<'a, A>>
        ensures stays { self.new.memory ≡ self.old.memory }
        ensures next { YieldsLast self.old result self.new }
    {
        while let Some(index) = last_mark(self.marks, self.count) {
            self.count = index;
            let run = &self.runs[index];
            if run.mtype == MemoryType::conventional() {
                return Some(FreeRun {
                    leaves: self.leaves,
                    leaf: self.leaf,
                    runs: self.runs,
                    marks: self.marks,
                    index,
                    run,
                });
            }
        }
        None
    }
}
