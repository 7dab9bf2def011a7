//! The extents of a pool, in groups, so that one that comes or goes moves few others.
ghost use Rattle.std.specs.Prelude.{◌≡◌, ◌<◌, ◌≤◌, ◌+◌, ◌++◌, [], drop, length, map, nat_le, option_map, slice_index_or, take, IfOk, OnErr, OnOk};
ghost use Rattle.std.specs.List.{find};
ghost use Rattle.raw_pool.specs.Blocks.{cells_for};
ghost use Rattle.pool_services.specs.Extents.{AreExtents, IsExtent, max_size, tail_at, with_extent};
ghost use Rattle.pool_services.specs.Groups.{AreApart, HasPlaceAt, IsGroupOf, first_page, rows_of, without_extent};
ghost use Rattle.pool_services.specs.Listed.{blocks_of, is_from};
ghost use Rattle.pool_services.specs.Spots.{IsFirstIn, IsFreedFrom, IsHolderIn, IsSpot, extents_of, index_of};
ghost use Rattle.pool_services.specs.Searches.{IsAt, IsTakenLive, IsWrittenIn};

use crate::extent_group::ExtentGroup;
use crate::extents::{Freed, HEADER_SIZE, PoolExtent};
use crate::listed::PoolBlock;
use crate::room::insert_with_room;
use page_ranges::{MemoryType, PAGE_SIZE};
use std::alloc::{AllocError, Allocator};
use std::marker::Model;

/// The extents that a group may have before it is split.
const GROUP_SIZE: usize = 128;

/// Where an extent is: its group, and its index there.
#[derive(Clone, Copy)]
pub(crate) struct Spot {
    pub(crate) group: usize,
    pub(crate) at: usize,
}

/// Extents in the order of their addresses, none over another. They are in groups, each of which but the
/// first has an extent.
#[derive(Drop)]
pub(crate) struct ExtentGroups<A: Allocator> {
    groups: Vec<ExtentGroup<A>, A>,
}

impl<A: Allocator> Model for ExtentGroups<A> {
    ghost use Rattle.std.specs.Prelude.{List};
    ghost use Rattle.pool_services.specs.declared.extent_group.ExtentGroup.{ExtentGroup};
    ghost use Rattle.pool_services.specs.Groups.{AreApart};

    ghost Value = { List (ExtentGroup A) };

    ghost view = { λ s. s.groups.items };

    ghost invariant = { λ s. AreApart s.groups.items };
}

/// The last group whose first extent begins at or below a page, the first group if there is none.
fn group_up_to<A: Allocator + Copy>(groups: &[ExtentGroup<A>], page: u64) -> usize
    requires { AreApart groups.now }
    ensures { IsGroupOf page (rows_of groups.now) result }
{
    if groups.len() <= 1 {
        return 0;
    }
    let count = groups.partition_point(
        |group: &ExtentGroup<A>| -> bool
            ensures { result ≡ nat_le (first_page group.now.extents.items) page }
        { group.first_page() <= page },
    );
    count.saturating_sub(1)
}

/// The first extent of a type that has room for a block of a size.
fn first_with_room<A: Allocator + Copy>(
    groups: &mut Vec<ExtentGroup<A>, A>,
    mtype: MemoryType,
    size: usize,
) -> Option<Spot>
    requires { size ≤ max_size }
    ensures first { IsFirstIn mtype (cells_for size) (rows_of groups.old.items) result }
    ensures same { rows_of groups.new.items ≡ rows_of groups.old.items }
{
    for group in 0..groups.len() {
        if let Some(at) = groups[group].first(mtype, size) {
            return Some(Spot { group, at });
        }
    }
    None
}

/// Moves the upper half of a group into a new one behind it. On an `Err` the groups stay.
fn split<A: Allocator + Copy>(
    groups: &mut Vec<ExtentGroup<A>, A>,
    at: usize,
) -> Result<(), AllocError>
    requires index { at < length groups.old.items }
    requires many { 2 ≤ length (slice_index_or (rows_of groups.old.items) at []) }
    requires apart { AreApart groups.old.items }
    ensures extents { extents_of groups.new.items ≡ extents_of groups.old.items }
    ensures apart { AreApart groups.new.items }
    ensures some { 0 < length groups.new.items }
{
    groups.reserve(1)?;
    let half = groups[at].extents.len() / 2;
    let upper = groups[at].split_off(half)?;
    insert_with_room(groups, at + 1, upper);
    Ok(())
}

/// Makes a first group, where there is none.
fn begin<A: Allocator + Copy>(groups: &mut Vec<ExtentGroup<A>, A>) -> Result<(), AllocError>
    requires { AreApart groups.old.items }
    ensures extents { extents_of groups.new.items ≡ extents_of groups.old.items }
    ensures apart { AreApart groups.new.items }
    ensures some { OnOk result (0 < length groups.new.items) }
{
    if !groups.is_empty() {
        return Ok(());
    }
    groups.push(ExtentGroup::new(*groups.allocator()))?;
    Ok(())
}

/// The group of a page, which is split first where it is full. On an `Err` the extents stay.
fn roomy_group<A: Allocator + Copy>(
    groups: &mut Vec<ExtentGroup<A>, A>,
    page: u64,
) -> Result<usize, AllocError>
    requires apart { AreApart groups.old.items }
    requires some { 0 < length groups.old.items }
    ensures extents { extents_of groups.new.items ≡ extents_of groups.old.items }
    ensures apart { AreApart groups.new.items }
    ensures group { IfOk result (λ at. IsGroupOf page (rows_of groups.new.items) at) }
    ensures some { 0 < length groups.new.items }
{
    let at = group_up_to(groups.as_slice(), page);
    if groups[at].extents.len() < GROUP_SIZE {
        return Ok(at);
    }
    split(groups, at)?;
    Ok(group_up_to(groups.as_slice(), page))
}

impl<A: Allocator + Copy> ExtentGroups<A> {
    /// No extents. This takes no memory.
    pub(crate) fn new(alloc: A) -> ExtentGroups<A>
        ensures { extents_of result ≡ [] }
    {
        ExtentGroups {
            groups: Vec::new(alloc),
        }
    }

    /// The extent in which a block with an address lies, if there is one.
    #[inline(always)]
    pub(crate) fn holder(&self, address: u64) -> Option<Spot>
        ensures holder { IsHolderIn address (rows_of self.now) result }
        ensures apart { AreApart self.now }
    {
        let groups = &self.groups;
        if address < HEADER_SIZE {
            return None;
        }
        let page = (address - HEADER_SIZE) / PAGE_SIZE;
        let group = group_up_to(groups.as_slice(), page);
        if group >= groups.len() {
            return None;
        }
        let at = groups[group].holder(page)?;
        Some(Spot { group, at })
    }

    /// The extents are apart.
    pub(crate) fn apart_law(&self)
        ensures { AreExtents (extents_of self.now) }
    {
        // The invariant is known where a field is named.
        let _ = &self.groups;
    }

    /// An extent.
    pub(crate) fn extent(&self, spot: Spot) -> &PoolExtent<A>
        requires { IsSpot (rows_of self.now) spot }
        ensures { IsAt (extents_of self.now) (index_of (rows_of self.now) spot)
            result.now }
    {
        &self.groups[spot.group].extents[spot.at]
    }

    /// Takes a block in the first extent of a type that has room, and returns its address.
    pub(crate) fn take(&mut self, mtype: MemoryType, size: usize) -> Option<u64>
        requires { size ≤ max_size }
        ensures { IsTakenLive mtype size (extents_of self.old) result (extents_of self.new) }
    {
        let spot = first_with_room(&mut self.groups, mtype, size)?;
        self.groups[spot.group].take(spot.at, size)
    }

    /// Gives back the block that has an address in an extent, unless it is the only one there.
    #[inline(always)]
    pub(crate) fn give(&mut self, spot: Spot, address: u64) -> Freed
        requires { IsHolderIn address (rows_of self.old) (Some spot) }
        ensures { IsFreedFrom spot address (rows_of self.old) result (rows_of self.new) }
    {
        self.groups[spot.group].give(spot.at, address)
    }

    /// Takes an extent out.
    pub(crate) fn remove(&mut self, spot: Spot) -> PoolExtent<A>
        requires { IsSpot (rows_of self.old) spot }
        ensures { extents_of self.new
            ≡ without_extent (index_of (rows_of self.old) spot) (extents_of self.old) }
    {
        let extent = self.groups[spot.group].remove(spot.at);
        if spot.group > 0 && self.groups[spot.group].extents.is_empty() {
            self.groups.remove(spot.group);
        }
        extent
    }

    /// Writes bytes from an address on. False, with nothing changed, if they do not lie in one block.
    pub(crate) fn write(&mut self, address: u64, bytes: &[u8]) -> bool
        ensures { IsWrittenIn address bytes.now (extents_of self.old) result (extents_of self.new) }
    {
        match self.holder(address) {
            Some(spot) => self.groups[spot.group].write(spot.at, address, bytes),
            None => false,
        }
    }

    /// The bytes from an address on to the end of the block that it belongs to.
    pub(crate) fn tail(&self, address: u64) -> Option<&[u8]>
        ensures bytes { option_map (λ s. s.now) result ≡ tail_at address (extents_of self.now) }
        ensures apart { AreExtents (extents_of self.now) }
    {
        let spot = self.holder(address)?;
        self.extent(spot).tail(address)
    }

    /// The live block with the lowest address at or above one.
    pub(crate) fn block_from(&self, address: u64) -> Option<PoolBlock>
        ensures { result ≡ find (is_from address) (blocks_of (extents_of self.now)) }
    {
        // Each group but the first has a block, so these are two at most.
        for at in group_up_to(self.groups.as_slice(), address / PAGE_SIZE)..self.groups.len() {
            let block = self.groups[at].block_from(address);
            if block.is_some() {
                return block;
            }
        }
        None
    }

    /// Takes memory for one extent more, which begins at a page, and returns its group. The extents stay.
    pub(crate) fn reserve(&mut self, page: u64) -> Result<usize, AllocError>
        ensures extents { extents_of self.new ≡ extents_of self.old }
        ensures group { IfOk result (λ at. IsGroupOf page (rows_of self.new) at) }
        ensures place { IfOk result (HasPlaceAt self.new) }
        ensures apart { AreExtents (extents_of self.new) }
    {
        begin(&mut self.groups)?;
        let at = roomy_group(&mut self.groups, page)?;
        self.groups[at].reserve_one()?;
        Ok(at)
    }

    /// Puts an extent into its group, where there is memory for it.
    pub(crate) fn add(&mut self, at: usize, extent: PoolExtent<A>)
        requires group { IsGroupOf extent.first (rows_of self.old) at }
        requires place { HasPlaceAt self.old at }
        requires extent { IsExtent extent }
        requires apart { AreExtents (with_extent extent (extents_of self.old)) }
        ensures { extents_of self.new ≡ with_extent extent (extents_of self.old) }
    {
        self.groups[at].add(extent);
    }
}
