//! Runs in leaves.
ghost use Rattle.std.specs.Prelude.{◌≡◌, ℕ, ◌+◌, ◌*◌, ◌-◌, ◌<◌, ◌≤◌, ◌++◌, [], length, map, take, drop, true, false, vec_capacity, IfOk, IsTrue, slice_get};
ghost use Rattle.page_ranges.specs.MemoryTypes.{page_count};
ghost use Rattle.page_ranges.specs.Runs.{pages_of, AreMaximalRuns, AreRuns};
ghost use Rattle.descriptor_table.specs.LeafChanges.{Retypes};
ghost use Rattle.descriptor_table.specs.LeafBorders.{HasEndsOf, JoinsRuns};
ghost use Rattle.descriptor_table.specs.Leaves.{entry_count, first_page, runs_in, AreLeaves};
ghost use Rattle.descriptor_table.specs.LeafSummaries.{MarksFree};
ghost use Rattle.descriptor_table.specs.Reserves.{cut_count};
ghost use Rattle.descriptor_table.specs.Summaries.{Allows, AllowsAll, BeginsFree, EndsFree, IsFreeRun, IsLeafOfNoUse};
ghost use Rattle.descriptor_table.specs.Tables.{EndBy, IsWindow};

use crate::cuts::{push_behind, should_be_one};
use crate::entries::count_entries;
use crate::free_marks::{marks_changed, marks_of};
use crate::retyping::Retyping;
use crate::run_arrays::replace_runs;
use crate::summaries::{Summary, begins_free, ends_free, summary_changed, summary_of};
use crate::wanted::Wanted;
use arrayvec::ArrayVec;
use page_ranges::{PageRange, Run};
use std::alloc::{AllocError, Allocator, Global};
use std::marker::Model;

/// The most runs of a leaf.
pub(crate) const LEAF_SIZE: usize = 32;

/// Some runs that lie next to each other in a table.
#[derive(Drop)]
pub struct Leaf<A: Allocator = Global> {
    // The first page of the first run.
    first: u64,
    summary: Summary,
    // A bit for each run: that of a free one is set.
    marks: u64,
    // Whether the first run is free, and whether the last one is.
    begins_free: bool,
    ends_free: bool,
    // How often the summary was joined with that of changed runs since it was made.
    changes: u8,
    // How many runs there are. The array has that too, but after them, in another line of the cache.
    count: u8,
    runs: Box<ArrayVec<Run, LEAF_SIZE>, A>,
}

impl<A: Allocator> Model for Leaf<A> {
    ghost use Rattle.std.specs.Prelude.{◌≡◌, List};
    ghost use Rattle.page_ranges.specs.declared.ranges.Run.{Run};
    ghost use Rattle.descriptor_table.specs.LeafSummaries.{IsKeptOf};

    ghost Value = { List Run };

    ghost view = { λ l. l.runs.value.items };

    ghost invariant = { λ l.
        IsKeptOf l.runs.value.items l.first l.begins_free l.ends_free l.summary l.count l.marks };
}

impl<A: Allocator + Copy> Leaf<A> {
    /// A leaf with some runs.
    pub(crate) fn from_slice(alloc: A, runs: &[Run]) -> Result<Leaf<A>, AllocError>
        requires { length runs.now ≤ 32 }
        ensures { IfOk result (λ leaf. leaf ≡ runs.now) }
    {
        let mut leaf = Leaf {
            first: 0,
            summary: Summary::none(),
            marks: 0,
            begins_free: false,
            ends_free: false,
            changes: 0,
            count: 0,
            runs: Box::new(alloc, ArrayVec::new())?,
        };
        leaf.splice(0, 0, runs);
        Ok(leaf)
    }

    /// The first page of the first run.
    #[inline(always)]
    pub(crate) fn first(&self) -> u64
        ensures { result ≡ first_page self.now }
    {
        self.first
    }

    /// The runs.
    #[inline(always)]
    pub fn runs(&self) -> &[Run]
        ensures { result.now ≡ self.now }
    {
        &self.runs.as_slice()[..usize::from(self.count)]
    }

    /// How many runs there are.
    #[inline(always)]
    pub(crate) fn len(&self) -> usize
        ensures value { result ≡ length self.now }
        ensures few { result ≤ 32 }
    {
        // Only for its contract.
        let _runs = self.runs.as_slice();
        usize::from(self.count)
    }

    /// Replaces some of the leaf's runs by others, and does not leave it empty. Its summary is joined with that
    /// of the changed runs, and recomputed after `most_joins` joins; none is kept for `ALLOWS_ALL`.
    pub(crate) fn replace(&mut self, low: usize, high: usize, parts: &[Run], most_joins: u8)
        requires order { low ≤ high }
        requires bound { high ≤ length self.old }
        requires some { high < length self.old + low + length parts.now }
        requires fits { length self.old + length parts.now ≤ 32 + (high - low) }
        ensures { self.new ≡ take low self.old ++ (parts.now ++ drop high self.old) }
    {
        // Only for its contract: there are at most 32 runs.
        let _runs = self.runs.as_slice();
        self.marks = marks_changed(self.marks, low, high, parts);
        replace_runs(&mut self.runs, low, high, parts);
        self.first = self.runs[0].range.first;
        let runs = self.runs.as_slice();
        self.count = runs.len() as u8;
        self.begins_free = begins_free(runs);
        self.ends_free = ends_free(runs);
        let changed = (low, low + parts.len());
        (self.summary, self.changes) = summary_changed(
            self.summary,
            self.changes,
            runs,
            changed,
            most_joins,
        );
    }

    /// Replaces some of the leaf's runs by others, perhaps all by none, and recomputes what is kept of them.
    fn splice(&mut self, low: usize, high: usize, parts: &[Run])
        requires order { low ≤ high }
        requires bound { high ≤ length self.old }
        requires fits { length self.old + length parts.now ≤ 32 + (high - low) }
        ensures { self.new ≡ take low self.old ++ (parts.now ++ drop high self.old) }
    {
        replace_runs(&mut self.runs, low, high, parts);
        let runs = self.runs.as_slice();
        self.first = match runs.first() {
            Some(run) => run.range.first,
            None => 0,
        };
        self.summary = summary_of(runs);
        self.marks = marks_of(runs);
        self.begins_free = begins_free(runs);
        self.ends_free = ends_free(runs);
        self.changes = 0;
        self.count = runs.len() as u8;
    }

    /// Gives the pages of a range a type and an owner, and returns how many map entries the runs near the range
    /// had and have, which are those of a window. `parts` is a buffer; its contents are lost.
    pub(crate) fn retype(
        &mut self,
        parts: &mut Vec<Run, A>,
        window: (usize, usize),
        retyping: &Retyping,
        joins: u8,
    ) -> (usize, usize)
        requires window { IsWindow self.old retyping.now.range window.0 window.1 }
        requires some { 0 < length self.old }
        requires order { AreMaximalRuns self.old }
        requires ends { EndBy page_count self.old }
        requires within { retyping.now.range.first + retyping.now.range.pages ≤ page_count }
        requires fits { length self.old + cut_count retyping.now.range self.old ≤ 32 }
        requires room { 32 ≤ vec_capacity parts.old }
        ensures pages { Retypes retyping.now self.old self.new }
        ensures order { AreMaximalRuns self.new }
        ensures few { length self.new ≤ length self.old + cut_count retyping.now.range self.old }
        ensures entries { entry_count self.new + result.0 ≡ entry_count self.old + result.1 }
        ensures few_entries { result.1 ≤ 32 }
        ensures ends { 0 < window.0 → window.1 < length self.old → HasEndsOf self.old self.new }
        ensures room { 32 ≤ vec_capacity parts.new }
    {
        let Retyping {
            range,
            mtype,
            owner,
        } = *retyping;
        let runs = self.runs();
        let (low, high) = window;
        let gone = &runs[low..high];
        let less = count_entries(gone);
        parts.clear();
        let Ok(()) = push_behind(parts, gone, range, mtype, owner) else {
            unreachable!();
        };
        let more = count_entries(parts.as_slice());
        self.replace(low, high, parts.as_slice(), joins);
        (less, more)
    }

    /// Replaces all of the leaf's runs.
    pub(crate) fn fill(&mut self, runs: &[Run])
        requires { length runs.now ≤ 32 }
        ensures { self.new ≡ runs.now }
    {
        let count = self.runs().len();
        self.splice(0, count, runs);
    }

    /// Keeps the first runs alone.
    pub(crate) fn truncate(&mut self, keep: usize)
        requires { keep ≤ length self.old }
        ensures { self.new ≡ take keep self.old }
    {
        let count = self.runs.as_slice().len();
        self.splice(keep, count, &[]);
    }

    /// Adds runs after those of the leaf.
    pub(crate) fn append(&mut self, runs: &[Run])
        requires { length self.old + length runs.now ≤ 32 }
        ensures { self.new ≡ self.old ++ runs.now }
    {
        let count = self.runs().len();
        self.splice(count, count, runs);
    }

    /// Merges the first run of the next leaf into the last run of this one if they should be one. The next leaf may
    /// then be empty.
    pub(crate) fn join(&mut self, next: &mut Leaf<A>, joins: u8)
        requires some { (0 < length self.old) × (0 < length next.old) }
        requires sizes { (length self.old ≤ 32) × (length next.old ≤ 32) }
        requires runs { AreRuns (self.old ++ next.old) }
        requires ends { EndBy page_count (self.old ++ next.old) }
        ensures pages { pages_of (self.new ++ next.new) ≡ pages_of (self.old ++ next.old) }
        ensures order { JoinsRuns self.old next.old (self.new ++ next.new) }
        ensures ends { (n : ℕ) → EndBy n (self.old ++ next.old)
            → EndBy n (self.new ++ next.new) }
        ensures count { length self.new ≡ length self.old }
        ensures fewer { length next.new ≤ length next.old }
    {
        let Some(last) = self.runs().last() else {
            return;
        };
        let Some(first) = next.runs().first() else {
            return;
        };
        if !should_be_one(last, first) {
            return;
        }
        let range = PageRange {
            first: last.range.first,
            pages: last.range.pages + first.range.pages,
        };
        let run = Run { range, ..*last };
        let count = self.runs().len();
        self.replace(count - 1, count, &[run], joins);
        next.splice(0, 1, &[]);
    }

    /// Whether the first run is free.
    #[inline(always)]
    pub(crate) fn begins_free(&self) -> bool
        ensures { BeginsFree result self.now }
    {
        self.begins_free
    }

    /// Whether the last run is free.
    #[inline(always)]
    pub(crate) fn ends_free(&self) -> bool
        ensures { EndsFree result self.now }
    {
        self.ends_free
    }

    /// A bit for each run: that of a free one is set.
    #[inline(always)]
    pub(crate) fn marks(&self) -> u64
        ensures { MarksFree result self.now }
    {
        self.marks
    }

    /// What the free runs may be; all that may be, if the last run is free and a free run follows the leaf.
    #[inline(always)]
    pub(crate) fn summary(&self, goes_on: bool) -> Summary
        ensures runs { Allows result self.now }
        ensures joins { goes_on ≡ true → (i : ℕ) → i + 1 ≡ length self.now
            → IsFreeRun (slice_get self.now i) → AllowsAll result }
    {
        if goes_on && self.ends_free {
            return self.summary.joined(Summary::all());
        }
        self.summary
    }

    /// Whether a free run may be of use. `goes_on` says whether a free run follows the leaf.
    #[inline(always)]
    pub(crate) fn may_hold(&self, wanted: &Wanted, goes_on: bool) -> bool
        ensures { result ≡ false → IsLeafOfNoUse wanted.now goes_on self.now }
    {
        self.first < wanted.limit && (self.summary.may_hold(wanted) || (goes_on && self.ends_free))
    }
}
