//! A group of extents, with what a search asks of each.
ghost use Rattle.std.specs.Prelude.{◌≡◌, ◌<◌, ◌≤◌, ◌+◌, ◌++◌, [], drop, length, map, take, vec_capacity, vec_len, IfOk, OnErr, OnOk};
ghost use Rattle.std.specs.List.{find};
ghost use Rattle.raw_pool.specs.Blocks.{cells_for};
ghost use Rattle.pool_services.specs.Extents.{AreExtents, IsExtent, max_size, with_extent};
ghost use Rattle.pool_services.specs.Listed.{blocks_of, is_from};
ghost use Rattle.pool_services.specs.Rooms.{room_of};
ghost use Rattle.pool_services.specs.Searches.{IsFirstWithRoom, IsFreedAt, IsHolder, IsPageHolder, IsTakenAt, IsWrittenAt};

use crate::extents::{Freed, PoolExtent, cells_for};
use crate::listed::PoolBlock;
use crate::room::insert_with_room;
use crate::rooms::Rooms;
use crate::searches::count_up_to;
use page_ranges::{MemoryType, PAGE_SIZE};
use std::alloc::{AllocError, Allocator};

/// Extents in the order of their addresses.
#[derive(Drop)]
pub(crate) struct ExtentGroup<A: Allocator> {
    pub(crate) extents: Vec<PoolExtent<A>, A>,
    pub(crate) rooms: Rooms<A>,
    ghost alike: { rooms.rooms.items ≡ map room_of extents.items },
}

impl<A: Allocator + Copy> ExtentGroup<A> {
    ghost use Rattle.pool_services.specs.Groups.{HasPlace, first_page, without_extent};

    /// No extents. This takes no memory.
    pub(crate) fn new(alloc: A) -> ExtentGroup<A>
        ensures { result.extents.items ≡ [] }
    {
        ExtentGroup {
            extents: Vec::new(alloc),
            rooms: Rooms::new(alloc),
        }
    }

    /// The page at which the first extent begins, 0 where there is none.
    pub(crate) fn first_page(&self) -> u64
        ensures { result ≡ first_page self.now.extents.items }
    {
        match self.rooms.rooms.first() {
            Some(room) => room.first,
            None => 0,
        }
    }

    /// The first extent of a type that has room for a block of a size.
    pub(crate) fn first(&mut self, mtype: MemoryType, size: usize) -> Option<usize>
        requires { size ≤ max_size }
        ensures first { IsFirstWithRoom mtype (cells_for size) self.old.extents.items result }
        ensures extents { self.new.extents ≡ self.old.extents }
    {
        self.rooms.first(mtype, cells_for(size))
    }

    /// Takes a block in an extent, if it has room, and returns the block's address.
    pub(crate) fn take(&mut self, at: usize, size: usize) -> Option<u64>
        requires order { AreExtents self.old.extents.items }
        requires size { size ≤ max_size }
        requires index { at < length self.old.extents.items }
        ensures { IsTakenAt at size self.old.extents.items result self.new.extents.items }
    {
        let extent = &mut self.extents[at];
        let cell = extent.take(size)?;
        let address = extent.address_of(cell);
        self.rooms.set_longest(at, extent.longest());
        Some(address)
    }

    /// Gives back the block that has an address in an extent, unless it is the only one there.
    #[inline(always)]
    pub(crate) fn give(&mut self, at: usize, address: u64) -> Freed
        requires order { AreExtents self.old.extents.items }
        requires holder { IsHolder self.old.extents.items address (Some at) }
        ensures { IsFreedAt at address self.old.extents.items result self.new.extents.items }
    {
        let extent = &mut self.extents[at];
        let given = extent.give(address);
        self.rooms.set_longest(at, extent.longest());
        given
    }

    /// Writes bytes in the extent that holds their address. False, with nothing changed, if they do not
    /// lie in one block.
    pub(crate) fn write(&mut self, at: usize, address: u64, bytes: &[u8]) -> bool
        requires order { AreExtents self.old.extents.items }
        requires holder { IsHolder self.old.extents.items address (Some at) }
        ensures { IsWrittenAt at address bytes.now self.old.extents.items result
            self.new.extents.items }
    {
        self.extents[at].write(address, bytes)
    }

    /// The extent in which a page lies, if there is one.
    #[inline(always)]
    pub(crate) fn holder(&self, page: u64) -> Option<usize>
        requires { AreExtents self.now.extents.items }
        ensures { IsPageHolder self.now.extents.items page result }
    {
        let count = count_up_to(self.rooms.rooms.as_slice(), page);
        if count == 0 {
            return None;
        }
        let range = self.extents[count - 1].range();
        if page < range.first + range.pages {
            Some(count - 1)
        } else {
            None
        }
    }

    /// The live block with the lowest address at or above one.
    pub(crate) fn block_from(&self, address: u64) -> Option<PoolBlock>
        requires { AreExtents self.now.extents.items }
        ensures { result ≡ find (is_from address) (blocks_of self.now.extents.items) }
    {
        let count = count_up_to(self.rooms.rooms.as_slice(), address / PAGE_SIZE);
        // Each extent has a block, so these are two at most.
        for at in count.saturating_sub(1)..self.extents.len() {
            let block = self.extents[at].block_from(address);
            if block.is_some() {
                return block;
            }
        }
        None
    }

    /// Takes memory for one extent more.
    pub(crate) fn reserve_one(&mut self) -> Result<(), AllocError>
        ensures extents { self.new.extents.items ≡ self.old.extents.items }
        ensures place { OnOk result (HasPlace self.new) }
    {
        self.rooms.reserve_one()?;
        self.extents.reserve(1)
    }

    /// Puts an extent into its place, for which there is memory.
    pub(crate) fn add(&mut self, extent: PoolExtent<A>)
        requires order { AreExtents self.old.extents.items }
        requires place { HasPlace self.old }
        requires extent { IsExtent extent }
        ensures { self.new.extents.items ≡ with_extent extent self.old.extents.items }
    {
        let at = count_up_to(self.rooms.rooms.as_slice(), extent.range().first);
        self.rooms.insert(at, extent.room());
        insert_with_room(&mut self.extents, at, extent);
    }

    /// Takes an extent out.
    pub(crate) fn remove(&mut self, at: usize) -> PoolExtent<A>
        requires { at < length self.old.extents.items }
        ensures { self.new.extents.items ≡ without_extent at self.old.extents.items }
    {
        self.rooms.remove(at);
        self.extents.remove(at)
    }

    /// Takes the extents from an index on out, as a group. On an `Err` they stay.
    pub(crate) fn split_off(&mut self, at: usize) -> Result<ExtentGroup<A>, AllocError>
        requires { at ≤ length self.old.extents.items }
        ensures upper { IfOk result (λ g. g.extents.items ≡ drop at self.old.extents.items) }
        ensures lower { OnOk result (self.new.extents.items ≡ take at self.old.extents.items) }
        ensures err { OnErr result (self.new.extents.items ≡ self.old.extents.items) }
    {
        let rooms = self.rooms.copy_from(at)?;
        let extents = self.extents.split_off(at)?;
        self.rooms.truncate(at);
        Ok(ExtentGroup { extents, rooms })
    }
}
