//! The table of runs.
ghost use Rattle.std.specs.Prelude.{◌≡◌, ◌≢◌, ◌↔◌, ◌+◌, ◌<◌, ◌≤◌, ◌^◌, ◌-◌, ◌==◌, [], filter, length, IsTrue, IfOk, OnOk, OnErr, slice_get};
ghost use Rattle.std.specs.Option.{option_map};
ghost use Rattle.page_ranges.specs.declared.ranges.Owner.TheVariants.{Given};
ghost use Rattle.page_ranges.specs.MemoryTypes.{conventional, page_count};
ghost use Rattle.page_ranges.specs.Memory.{page_at, page_below, IsProperMemory, IsPresent, IsConventional, IsOwnedBy, AllInRange, retyped};
ghost use Rattle.page_ranges.specs.MemoryMap.{memory_map};
ghost use Rattle.page_ranges.specs.Runs.{page_in, pages_of, runs_of, AreRuns};
ghost use Rattle.descriptor_table.specs.Leaves.{runs_in, AreLeaves};
ghost use Rattle.descriptor_table.specs.Reserves.{reserving};
ghost use Rattle.descriptor_table.specs.Tables.{EndBy, HoldsPage};

use crate::cursors::RunCursor;
use crate::cuts::push_joined;
use crate::entries::MapEntries;
use crate::entries_down::EntriesDown;
use crate::free_entries::FreeEntries;
use crate::leaf_row::LeafRow;
use crate::leaf_searches::{all_in_range, holds_all, place_of, run_at_index, run_in_leaves};
use crate::leaves::Leaf;
use crate::retyping::Retyping;
use crate::searches::PageTest;
use page_ranges::{Descriptor, MemoryType, Owner, PageRange, Run};
use std::alloc::{AllocError, Allocator, Global};
use std::marker::Model;

/// The most changes for which memory is reserved.
const MOST_RESERVED: usize = 1 << 40;

/// The memory of a machine: its maximal runs of equal type, attributes and owner, by ascending page,
/// in leaves.
#[derive(Drop)]
pub struct RunTable<A: Allocator = Global> {
    row: LeafRow<A>,
    // For how many changes leaves for later have room.
    reserved: usize,
    // Where a range began that was asked for last: the index of a leaf, and that of a run in it.
    hint: (usize, usize),
}

impl<A: Allocator> Model for RunTable<A> {
    ghost use Rattle.page_ranges.specs.Runs.{pages_of};
    ghost use Rattle.descriptor_table.specs.Leaves.{runs_in};
    ghost use Rattle.descriptor_table.specs.Reserves.{IsReservedTable, Table};

    ghost Value = { Table };

    ghost view = { λ t.
        record { pages = pages_of (runs_in t.row.leaves); reserved = t.reserved } };

    ghost invariant = { λ t. IsReservedTable t.row t.reserved };
}

impl<A: Allocator + Copy> RunTable<A> {
    /// The memory that runs represent. Touching runs that are alike become one.
    pub fn from_runs(alloc: A, runs: &[Run]) -> Result<RunTable<A>, AllocError>
        requires runs { AreRuns runs.now }
        requires proper { IsProperMemory (pages_of runs.now) }
        ensures { IfOk result (λ t. t ≡ record { pages = pages_of runs.now; reserved = 0 }) }
    {
        let mut joined = Vec::new(alloc);
        for run in runs {
            push_joined(&mut joined, *run)?;
        }
        let row = LeafRow::from_runs(alloc, joined.as_slice())?;
        Ok(RunTable {
            row,
            reserved: 0,
            hint: (0, 0),
        })
    }

    /// The allocator that the table takes its memory from.
    pub fn allocator(&self) -> A {
        self.row.allocator()
    }

    /// Reserves memory for a number of changes besides those for which it is reserved already. An `Err` means that
    /// memory ran out, or that it would be reserved for more than 2^40 changes; the table is then as it was.
    pub fn reserve(&mut self, changes: usize) -> Result<(), AllocError>
        ensures ok { OnOk result (self.new ≡ reserving (self.old.reserved + changes) self.old) }
        ensures err { OnErr result (self.new ≡ self.old) }
    {
        if changes > MOST_RESERVED - self.reserved {
            return Err(AllocError);
        }
        let reserved = self.reserved + changes;
        self.row.reserve(2 * reserved)?;
        self.reserved = reserved;
        Ok(())
    }

    /// Gives the pages of a range a type and an owner, and the attributes that go with the type. It takes the
    /// memory that is reserved for one change, and no other.
    pub fn change(&mut self, range: PageRange, mtype: MemoryType, owner: Owner)
        requires present { AllInRange self.old.pages range IsPresent }
        requires owner { mtype ≡ conventional → owner ≡ Given }
        requires reserved { 0 < self.old.reserved }
        ensures pages { self.new.pages ≡ retyped range mtype owner self.old.pages }
        ensures reserved { self.new.reserved + 1 ≡ self.old.reserved }
    {
        if range.pages > 0 {
            let retyping = Retyping {
                range,
                mtype,
                owner,
            };
            self.row.change(&retyping, self.hint);
        }
        self.reserved -= 1;
    }

    /// Gives the pages of a range a type and an owner, and the attributes that go with the type, for which
    /// memory is reserved first. On an `Err` the table is as it was.
    pub fn retype(
        &mut self,
        range: PageRange,
        mtype: MemoryType,
        owner: Owner,
    ) -> Result<(), AllocError>
        requires present { AllInRange self.old.pages range IsPresent }
        requires owner { mtype ≡ conventional → owner ≡ Given }
        ensures ok { OnOk result (self.new ≡ record {
          pages = retyped range mtype owner self.old.pages;
          reserved = self.old.reserved;
        }) }
        ensures err { OnErr result (self.new ≡ self.old) }
    {
        self.reserve(1)?;
        self.change(range, mtype, owner);
        Ok(())
    }

    /// For how many changes memory is reserved.
    pub fn reserved(&self) -> usize
        ensures value { result ≡ self.now.reserved }
        ensures few { result ≤ 2 ^ 40 }
    {
        self.reserved
    }

    /// How many runs there are.
    pub fn len(&self) -> usize
        ensures len { result ≡ length (runs_of self.now.pages) }
        ensures proper { IsProperMemory self.now.pages }
    {
        let mut count = 0;
        for leaf in self.row.leaves() {
            count += leaf.runs().len();
        }
        count
    }

    /// Whether no page is present.
    pub fn is_empty(&self) -> bool
        ensures { IsTrue result ↔ (self.now.pages ≡ []) }
    {
        self.row.leaves().is_empty()
    }

    /// The run at an index, by ascending page.
    pub fn run(&self, index: usize) -> Option<Run>
        ensures { result ≡ slice_get (runs_of self.now.pages) index }
    {
        run_at_index(self.row.leaves(), index)
    }

    /// The run that holds a page.
    pub fn run_at(&self, page: u64) -> Option<Run>
        ensures page { page_at self.now.pages page ≡ option_map (page_in page) result }
        ensures maximal { HoldsPage self.now.pages page result }
    {
        run_in_leaves(self.row.leaves(), page).copied()
    }

    /// The runs that hold the page below a page number and the page itself.
    pub fn edge(&self, page: u64) -> (Option<Run>, Option<Run>)
        ensures below { page_below self.now.pages page ≡ option_map (page_in (page - 1)) result.0 }
        ensures below_maximal { page ≢ 0 → HoldsPage self.now.pages (page - 1) result.0 }
        ensures above { page_at self.now.pages page ≡ option_map (page_in page) result.1 }
        ensures above_maximal { HoldsPage self.now.pages page result.1 }
    {
        let below = if page == 0 {
            None
        } else {
            self.run_at(page - 1)
        };
        (below, self.run_at(page))
    }

    /// A cursor over the pages, for looking up many of them in ascending order.
    pub fn cursor(&self) -> RunCursor<'_, A>
        ensures { result ≡ self.now.pages }
    {
        RunCursor::new(self.row.leaves())
    }

    /// Whether all pages of a range are conventional.
    pub fn all_conventional(&self, range: PageRange) -> bool
        ensures { IsTrue result ↔ AllInRange self.now.pages range IsConventional }
    {
        all_in_range(self.row.leaves(), range, PageTest::Conventional)
    }

    /// Whether all pages of a range have an owner.
    pub fn all_owned(&self, range: PageRange, owner: Owner) -> bool
        ensures { IsTrue result ↔ AllInRange self.now.pages range (IsOwnedBy owner) }
    {
        all_in_range(self.row.leaves(), range, PageTest::OwnedBy(owner))
    }

    /// The same. Where the range begins is kept, so that a change of it does not look for that again.
    pub fn find_owned(&mut self, range: PageRange, owner: Owner) -> bool
        ensures owned { IsTrue result ↔ AllInRange self.old.pages range (IsOwnedBy owner) }
        ensures table { self.new ≡ self.old }
    {
        self.hint = place_of(self.row.leaves(), range.first);
        let test = PageTest::OwnedBy(owner);
        holds_all(self.row.leaves(), self.hint, range, test) || self.all_owned(range, owner)
    }

    /// How many entries the memory map has.
    pub fn descriptors(&self) -> usize
        ensures count { result ≡ length (memory_map self.now.pages) }
        ensures proper { IsProperMemory self.now.pages }
    {
        self.row.entries()
    }

    /// The runs in leaves, by ascending page.
    pub fn leaves(&self) -> &[Leaf<A>]
        ensures memory { pages_of (runs_in result.now) ≡ self.now.pages }
        ensures leaves { AreLeaves result.now }
        ensures runs { AreRuns (runs_in result.now) }
        ensures ends { EndBy page_count (runs_in result.now) }
    {
        self.row.leaves()
    }

    /// The entry of the memory map at an index.
    pub fn descriptor(&self, index: usize) -> Option<Descriptor>
        ensures { result ≡ slice_get (memory_map self.now.pages) index }
    {
        self.map_entries().nth(index)
    }

    /// The entries of the memory map.
    pub fn map_entries(&self) -> MapEntries<'_, A>
        ensures { result ≡ memory_map self.now.pages }
    {
        MapEntries::new(self.row.leaves())
    }

    /// The conventional entries of the memory map by ascending page.
    pub fn free_entries(&self) -> FreeEntries<'_, A>
        ensures memory { result.memory ≡ self.now.pages }
        ensures entries { result.entries ≡ filter (λ e. e.mtype == conventional)
            (memory_map self.now.pages) }
    {
        FreeEntries::new(self.row.leaves())
    }

    /// The conventional entries of the memory map from the highest down.
    pub fn entries_down(&self) -> EntriesDown<'_, A>
        ensures memory { result.memory ≡ self.now.pages }
        ensures entries { result.entries ≡ filter (λ e. e.mtype == conventional)
            (memory_map self.now.pages) }
    {
        EntriesDown::new(self.row.leaves())
    }
}
