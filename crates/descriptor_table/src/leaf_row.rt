//! A row of leaves, and spare leaves.
ghost use Rattle.std.specs.Prelude.{◌≡◌, ℕ, ◌+◌, ◌-◌, ◌*◌, ◌<◌, ◌≤◌, ◌^◌, false, IsTrue, length, set, take, drop, vec_capacity, IfOk, OnOk, OnErr};
ghost use Rattle.page_ranges.specs.MemoryTypes.{page_count};
ghost use Rattle.page_ranges.specs.Runs.{pages_of, AreMaximalRuns, AreRuns};
ghost use Rattle.descriptor_table.specs.Leaves.{entry_count, leaf_at, runs_in, AreLeaves};
ghost use Rattle.descriptor_table.specs.LeafBorders.{AreApart};
ghost use Rattle.descriptor_table.specs.LeafChanges.{Retypes};
ghost use Rattle.descriptor_table.specs.LeafRows.{entries_in_three, entries_in_two, excess_at_border, excess_of, merged_at, runs_at_border, runs_from, runs_up_to, AreFew, AreMaximalFrom, BeginFrom, JoinsBorder, KeepsPages, Takes};
ghost use Rattle.descriptor_table.specs.Reserves.{cut_count};
ghost use Rattle.descriptor_table.specs.Tables.{EndBy};

use crate::cursors::count_leaves_by_from;
use crate::cuts::should_be_one;
use crate::entries::{count_entries, goes_on};
use crate::leaves::{LEAF_SIZE, Leaf};
use crate::replacing::insert_with_room;
use crate::retyping::{Retyping, most_joins, window_of};
use page_ranges::{MemoryType, Run};
use std::alloc::{AllocError, Allocator, Global};
use std::marker::Model;

/// The runs of a new leaf, and those that a leaf keeps when it is split.
const HALF: usize = 16;

/// How many more runs fit, at least, after a full leaf is split into a spare one.
const GAIN: usize = LEAF_SIZE - 1 - HALF;

/// A change adds up to two runs: a leaf with this many is split first.
const FULL: usize = LEAF_SIZE - 1;

/// Neighbours are merged if they have this many runs together, or fewer.
const MERGED: usize = 24;

/// How many runs a leaf has above 16.
#[inline(always)]
fn excess_in<A: Allocator + Copy>(leaves: &[Leaf<A>], at: usize) -> usize
    requires { at < length leaves.now }
    ensures value { result ≡ length (leaf_at leaves.now at) - 16 }
    ensures few { result ≤ 16 }
{
    leaves[at].len().saturating_sub(HALF)
}

/// The excess of a leaf and of the one before it.
#[inline(always)]
fn excess_beside<A: Allocator + Copy>(leaves: &[Leaf<A>], at: usize) -> usize
    requires { (0 < at) × (at < length leaves.now) }
    ensures { result ≡ excess_at_border at leaves.now }
{
    excess_in(leaves, at - 1) + excess_in(leaves, at)
}

/// Whether a leaf and the one before it have few enough runs to be merged.
#[inline(always)]
fn are_few<A: Allocator + Copy>(leaves: &[Leaf<A>], at: usize) -> bool
    requires { (0 < at) × (at < length leaves.now) }
    ensures few { IsTrue result → AreFew (leaf_at leaves.now (at - 1)) (leaf_at leaves.now at) }
    ensures many { result ≡ false → 0 < length (leaf_at leaves.now at) }
{
    let count = leaves[at].len();
    count == 0 || leaves[at - 1].len() + count <= MERGED
}

/// Counts the map entry that spans the border before a leaf: 1 or 0.
#[inline(always)]
fn continued<A: Allocator + Copy>(leaves: &[Leaf<A>], at: usize) -> usize
    requires leaves { AreLeaves leaves.now }
    requires runs { AreRuns (runs_in leaves.now) }
    requires ends { EndBy page_count (runs_in leaves.now) }
    requires bound { at ≤ length leaves.now }
    ensures few { result ≤ 1 }
    ensures entries { entry_count (runs_in leaves.now) + result ≡ entries_in_two at leaves.now }
{
    if at == 0 || at >= leaves.len() {
        return 0;
    }
    let below = leaves[at - 1].runs();
    let above = leaves[at].runs();
    usize::from(goes_on(&below[below.len() - 1], &above[0]))
}

/// Counts the map entries that span the two borders of a leaf; 0 if not asked.
#[inline(always)]
fn continued_beside<A: Allocator + Copy>(leaves: &[Leaf<A>], at: usize, asked: bool) -> usize
    requires leaves { AreLeaves leaves.now }
    requires runs { AreRuns (runs_in leaves.now) }
    requires ends { EndBy page_count (runs_in leaves.now) }
    requires bound { at < length leaves.now }
    ensures few { result ≤ 2 }
    ensures none { asked ≡ false → result ≡ 0 }
    ensures entries { IsTrue asked
        → entry_count (runs_in leaves.now) + result ≡ entries_in_three at leaves.now }
{
    if !asked {
        return 0;
    }
    continued(leaves, at) + continued(leaves, at + 1)
}

/// Whether a window includes the first run or the last one.
#[inline(always)]
fn meets_border(window: (usize, usize), count: usize) -> bool
    ensures { result ≡ false → (0 < window.0) × (window.1 < count) }
{
    window.0 == 0 || window.1 >= count
}

/// Whether the two runs at the border before a leaf should be one, or the two leaves be merged.
#[inline(always)]
fn is_open<A: Allocator + Copy>(leaves: &[Leaf<A>], at: usize) -> bool
    requires leaves { AreLeaves leaves.now }
    requires ends { EndBy page_count (runs_in leaves.now) }
    requires bound { (0 < at) × (at < length leaves.now) }
    ensures { result ≡ false → AreApart (runs_up_to at leaves.now) (runs_from at leaves.now) }
{
    let below = leaves[at - 1].runs();
    let above = leaves[at].runs();
    should_be_one(&below[below.len() - 1], &above[0]) || are_few(leaves, at)
}

/// Joins the two runs at the border before a leaf if they should be one.
fn join_at<A: Allocator + Copy>(leaves: &mut Vec<Leaf<A>, A>, at: usize, joins: u8)
    requires leaves { AreLeaves leaves.old.items }
    requires runs { AreRuns (runs_in leaves.old.items) }
    requires ends { EndBy page_count (runs_in leaves.old.items) }
    requires bound { (0 < at) × (at < length leaves.old.items) }
    requires below { AreMaximalRuns (runs_up_to at leaves.old.items) }
    ensures joined { JoinsBorder at leaves.old.items leaves.new.items }
    ensures capacity { vec_capacity leaves.new ≡ vec_capacity leaves.old }
{
    let (below, above) = leaves.as_mut_slice().split_at_mut(at);
    below[at - 1].join(&mut above[0], joins);
}

/// Merges a leaf into the one before it, and puts it among the spare leaves.
fn merge_at<A: Allocator + Copy>(
    leaves: &mut Vec<Leaf<A>, A>,
    spare: &mut Vec<Leaf<A>, A>,
    at: usize,
)
    requires bound { (0 < at) × (at < length leaves.old.items) }
    requires fits { runs_at_border at leaves.old.items ≤ 32 }
    requires room { length spare.old.items < vec_capacity spare.old }
    ensures leaves { leaves.new.items ≡ merged_at at leaves.old.items }
    ensures spare { length spare.new.items ≡ length spare.old.items + 1 }
    ensures capacity { vec_capacity leaves.new ≡ vec_capacity leaves.old }
    ensures spare_capacity { vec_capacity spare.new ≡ vec_capacity spare.old }
{
    let leaf = leaves.remove(at);
    leaves[at - 1].append(leaf.runs());
    spare.push_reserved(leaf);
}

/// A row of leaves, and spare leaves, whose contents are unused.
#[derive(Drop)]
pub(crate) struct LeafRow<A: Allocator = Global> {
    leaves: Vec<Leaf<A>, A>,
    spare: Vec<Leaf<A>, A>,
    // The number of memory map entries.
    entries: usize,
    // The sum over the leaves of the runs that each has above 16.
    excess: usize,
    // A buffer with capacity for the runs of a leaf.
    parts: Vec<Run, A>,
}

impl<A: Allocator> Model for LeafRow<A> {
    ghost use Rattle.std.specs.Prelude.{length};
    ghost use Rattle.descriptor_table.specs.LeafRows.{IsRow, Row};

    ghost Value = { Row };

    ghost view = { λ r. record { leaves = r.leaves.items; spare = length r.spare.items } };

    ghost invariant = { λ r. IsRow r.leaves r.spare r.entries r.excess r.parts };
}

impl<A: Allocator + Copy> LeafRow<A> {
    /// Runs in leaves of at most 16.
    pub(crate) fn from_runs(alloc: A, runs: &[Run]) -> Result<LeafRow<A>, AllocError>
        requires runs { AreRuns runs.now }
        requires ends { EndBy page_count runs.now }
        ensures runs { IfOk result (λ r. runs_in r.leaves ≡ runs.now) }
        ensures excess { IfOk result (λ r. excess_of r.leaves ≡ 0) }
    {
        let entries = count_entries(runs);
        let parts = Vec::with_capacity(alloc, LEAF_SIZE)?;
        let mut leaves = Vec::new(alloc);
        let mut rest = runs;
        while !rest.is_empty() {
            let count = rest.len().min(HALF);
            leaves.reserve(1)?;
            leaves.push_reserved(Leaf::from_slice(alloc, &rest[..count])?);
            rest = &rest[count..];
        }
        let spare = Vec::with_capacity(alloc, leaves.len())?;
        Ok(LeafRow {
            leaves,
            spare,
            entries,
            excess: 0,
            parts,
        })
    }

    /// The leaves.
    #[inline(always)]
    pub(crate) fn leaves(&self) -> &[Leaf<A>]
        ensures value { result.now ≡ self.now.leaves }
        ensures leaves { AreLeaves result.now }
        ensures runs { AreRuns (runs_in result.now) }
        ensures ends { EndBy page_count (runs_in result.now) }
    {
        self.leaves.as_slice()
    }

    /// The allocator that the row takes its memory from.
    pub(crate) fn allocator(&self) -> A {
        *self.leaves.allocator()
    }

    /// How many entries the memory map has.
    pub(crate) fn entries(&self) -> usize
        ensures { result ≡ entry_count (runs_in self.now.leaves) }
    {
        self.entries
    }

    /// Allocates a spare leaf. On an `Err` the vectors may have grown.
    fn add_spare(&mut self) -> Result<(), AllocError>
        ensures leaves { self.new.leaves ≡ self.old.leaves }
        ensures ok { OnOk result (self.new.spare ≡ self.old.spare + 1) }
        ensures err { OnErr result (self.new.spare ≡ self.old.spare) }
    {
        let (used, spare) = (self.leaves.len(), self.spare.len());
        self.leaves.reserve(spare + 1)?;
        self.spare.reserve(used + 1)?;
        let leaf = Leaf::from_slice(*self.leaves.allocator(), &[])?;
        self.spare.push_reserved(leaf);
        Ok(())
    }

    /// Allocates spare leaves until they have capacity for the excess and a number of runs.
    pub(crate) fn reserve(&mut self, runs: usize) -> Result<(), AllocError>
        requires few { runs ≤ 2 ^ 42 }
        ensures leaves { self.new.leaves ≡ self.old.leaves }
        ensures more { self.old.spare ≤ self.new.spare }
        ensures ok { OnOk result (excess_of self.new.leaves + runs ≤ 15 * self.new.spare) }
    {
        let count = (self.excess + runs).div_ceil(GAIN);
        while self.spare.len() < count {
            self.add_spare()?;
        }
        Ok(())
    }

    /// Splits a full leaf. The first half has 16 runs.
    fn split(&mut self, at: usize)
        requires bound { at < length self.old.leaves }
        requires full { 31 ≤ length (leaf_at self.old.leaves at) }
        requires spare { 0 < self.old.spare }
        ensures before { take at self.new.leaves ≡ take at self.old.leaves }
        ensures bound { at < length self.new.leaves }
        ensures runs { runs_from at self.new.leaves ≡ runs_from at self.old.leaves }
        ensures fits { length (leaf_at self.new.leaves at) ≤ 16 }
        ensures takes { Takes 0 self.old self.new }
    {
        let Some(mut leaf) = self.spare.pop() else {
            unreachable!();
        };
        let runs = self.leaves[at].runs();
        let count = runs.len();
        leaf.fill(&runs[HALF..]);
        self.leaves[at].truncate(HALF);
        insert_with_room(&mut self.leaves, at + 1, leaf);
        self.excess -= count - HALF;
    }

    /// Splits a leaf if a change may add more runs than fit.
    fn make_room(&mut self, at: usize)
        requires bound { at < length self.old.leaves }
        requires spare { 31 ≤ length (leaf_at self.old.leaves at) → 0 < self.old.spare }
        ensures before { take at self.new.leaves ≡ take at self.old.leaves }
        ensures bound { at < length self.new.leaves }
        ensures runs { runs_from at self.new.leaves ≡ runs_from at self.old.leaves }
        ensures leaves { AreLeaves self.new.leaves }
        ensures fits { length (leaf_at self.new.leaves at) ≤ 30 }
        ensures takes { Takes 0 self.old self.new }
    {
        if self.leaves()[at].len() >= FULL {
            self.split(at);
        }
        // Only for its contract.
        let _leaves = self.leaves();
    }

    /// Gives the pages of a range a type and an owner within a leaf. `hint` is the index of the run to try first.
    fn retype(&mut self, at: usize, retyping: &Retyping, hint: usize)
        requires bound { at < length self.old.leaves }
        requires order { AreMaximalRuns (leaf_at self.old.leaves at) }
        requires fits { length (leaf_at self.old.leaves at) ≤ 30 }
        requires within { retyping.now.range.first + retyping.now.range.pages ≤ page_count }
        ensures leaves { self.new.leaves
            ≡ set self.old.leaves at (leaf_at self.new.leaves at) }
        ensures pages { Retypes retyping.now (leaf_at self.old.leaves at)
            (leaf_at self.new.leaves at) }
        ensures order { AreMaximalRuns (leaf_at self.new.leaves at) }
        ensures room { Takes (cut_count retyping.now.range (leaf_at self.old.leaves at))
            self.old self.new }
    {
        let joins = most_joins(self.leaves.len(), retyping.mtype);
        let leaf = &self.leaves[at];
        let window = window_of(leaf.runs(), retyping.range, Some(hint));
        let meets = meets_border(window, leaf.len());
        let before = continued_beside(self.leaves.as_slice(), at, meets);
        let less_excess = excess_in(self.leaves.as_slice(), at);
        let (less, more) = self.leaves[at].retype(&mut self.parts, window, retyping, joins);
        let more_excess = excess_in(self.leaves.as_slice(), at);
        let after = continued_beside(self.leaves.as_slice(), at, meets);
        self.entries = self.entries + before + more - less - after;
        self.excess = self.excess - less_excess + more_excess;
    }

    /// Joins the two runs at the border before a leaf if they should be one, and merges the two leaves if they have few
    /// runs. Returns the index of the next leaf.
    fn settle(&mut self, at: usize) -> usize
        requires bound { at ≤ length self.old.leaves + 1 }
        requires below { AreMaximalRuns (runs_up_to at self.old.leaves) }
        requires order { AreMaximalRuns (leaf_at self.old.leaves at) }
        ensures bound { at < length self.old.leaves → result ≤ length self.new.leaves }
        ensures next { at ≤ length self.old.leaves → result ≤ length self.new.leaves + 1 }
        ensures passed { AreMaximalRuns (runs_up_to result self.new.leaves) }
        ensures order { AreMaximalFrom at self.old.leaves
            → AreMaximalRuns (runs_in self.new.leaves) }
        ensures pages { KeepsPages (at + 1) self.old.leaves result self.new.leaves }
        ensures rest { drop result self.new.leaves ≡ drop (at + 1) self.old.leaves }
        ensures takes { Takes 0 self.old self.new }
    {
        if at == 0 || at >= self.leaves.len() {
            return at + 1;
        }
        if !is_open(self.leaves.as_slice(), at) {
            return at + 1;
        }
        let joins = most_joins(self.leaves.len(), MemoryType::conventional());
        let before = excess_beside(self.leaves.as_slice(), at);
        join_at(&mut self.leaves, at, joins);
        if !are_few(self.leaves.as_slice(), at) {
            self.excess = self.excess - before + excess_beside(self.leaves.as_slice(), at);
            return at + 1;
        }
        merge_at(&mut self.leaves, &mut self.spare, at);
        self.excess = self.excess - before + excess_in(self.leaves.as_slice(), at - 1);
        at
    }

    /// Merges a leaf and the one before it if they have few runs.
    #[inline(always)]
    fn settle_few(&mut self, at: usize)
        requires bound { at ≤ length self.old.leaves + 1 }
        requires order { AreMaximalRuns (runs_in self.old.leaves) }
        ensures order { AreMaximalRuns (runs_in self.new.leaves) }
        ensures pages { pages_of (runs_in self.new.leaves) ≡ pages_of (runs_in self.old.leaves) }
        ensures takes { Takes 0 self.old self.new }
    {
        let leaves = self.leaves();
        if at > 0 && at < leaves.len() && are_few(leaves, at) {
            let _next = self.settle(at);
        }
    }

    /// Whether there is a leaf at an index and it begins below a page.
    #[inline(always)]
    fn begins_below(&self, at: usize, page: u64) -> bool
        ensures some { IsTrue result → at < length self.now.leaves }
        ensures none { result ≡ false → BeginFrom page (runs_from at self.now.leaves) }
    {
        let leaves = self.leaves();
        at < leaves.len() && leaves[at].first() < page
    }

    /// Gives the pages of a range a type and an owner. `hint` has the indices of the leaf and of its run to try first.
    pub(crate) fn change(&mut self, retyping: &Retyping, hint: (usize, usize))
        requires order { AreMaximalRuns (runs_in self.old.leaves) }
        requires within { retyping.now.range.first + retyping.now.range.pages ≤ page_count }
        requires room { excess_of self.old.leaves + 2 ≤ 15 * self.old.spare }
        ensures pages { Retypes retyping.now (runs_in self.old.leaves) (runs_in self.new.leaves) }
        ensures order { AreMaximalRuns (runs_in self.new.leaves) }
        ensures takes { Takes 2 self.old self.new }
    {
        let range = retyping.range;
        let end = range.first + range.pages;
        let count = count_leaves_by_from(self.leaves(), range.first, hint.0);
        let mut at = count.saturating_sub(1);
        while self.begins_below(at, end) {
            self.make_room(at);
            self.retype(at, retyping, hint.1);
            at = self.settle(at);
        }
        let next = self.settle(at);
        // The leaf at `next` may have lost its first run.
        self.settle_few(next);
    }
}
