//! The pool of a machine.
ghost use Rattle.std.specs.Prelude.{◌≡◌, ◌+◌, ◌<◌, ◌≤◌, ◌^◌, false, [], length, option_and_then, option_map, IfSome, None, Some};
ghost use Rattle.std.specs.List.{find};
ghost use Rattle.page_ranges.specs.MemoryTypes.{is_bad_type};
ghost use Rattle.page_services.specs.PageRules.{IsBestChoice, if_counted};
ghost use Rattle.pool_services.specs.Extents.{first_fit, max_size, tail_at};
ghost use Rattle.pool_services.specs.Listed.{blocks_of, is_from};
ghost use Rattle.pool_services.specs.PoolRules.{AllocatesPool, FillsPool, FreesPool, KeepsEnds, OwnsExtents, ReadsPool, WritesPool, extent_request, pool_in};

use crate::extent_groups::ExtentGroups;
use crate::extents::{Freed, HEADER_SIZE, PoolExtent, extent_pages, pages_for};
use crate::listed::PoolBlock;
use crate::regions::Regions;
use page_ranges::{MemoryType, PAGE_SIZE, Status, type_for_alloc};
use page_services::{PageBook, pool_request};
use placement_certificate::{Certificate, Request};
use raw_pool::PoolMemory;
use std::alloc::{Allocator, Global};
use std::marker::Model;

/// The most bytes of a block.
const MAX_SIZE: u64 = 0x1_0000_0000;

/// The request on a machine with a granule for the pages of a new extent of the type `mtype` for a block
/// of a number of bytes. `None` where no block may have that many, and where the pages that fill granules
/// are more than a number of 64 bits holds, which those of a granule of 1 or 16 pages never are.
pub fn extent_request(granule: u64, mtype: MemoryType, size: u64) -> Option<Request>
    ensures { result ≡ option_and_then if_counted (extent_request granule mtype size) }
{
    if size > MAX_SIZE {
        return None;
    }
    pool_request(granule, mtype, pages_for(size as usize) as u64)
}

/// The pool of a machine: its extents, in the order of their addresses, and the blocks in them.
///
/// Calls that take the machine's book require that the pages of the pool in it are those of these
/// extents, and keep it so. Where the book has memory reserved for the end of each, they keep that too.
#[derive(Drop)]
pub struct Pools<A: Allocator = Global> {
    alloc: A,
    extents: ExtentGroups<A>,
    regions: Regions<A>,
}

impl<A: Allocator> Model for Pools<A> {
    ghost use Rattle.pool_services.specs.PoolRules.{PoolValue, pool_in};
    ghost use Rattle.pool_services.specs.Spots.{extents_of};

    ghost Value = { PoolValue };

    ghost view = { λ p. pool_in p.regions (extents_of p.extents) };
}

impl<A: Allocator + Copy> Pools<A> {
    /// A pool without extents. This takes no memory.
    pub fn new(alloc: A) -> Pools<A>
        ensures { result ≡ pool_in None [] }
    {
        Pools {
            alloc,
            extents: ExtentGroups::new(alloc),
            regions: Regions::of_heap(),
        }
    }

    /// The same, whose extents lie in memory that the machine's pages are: the bytes of a block are those at
    /// its address. Other pages are refused with OUT_OF_RESOURCES.
    pub fn over(alloc: A, memory: PoolMemory) -> Pools<A>
        ensures { result ≡ pool_in (Some memory) [] }
    {
        Pools {
            alloc,
            extents: ExtentGroups::new(alloc),
            regions: Regions::over(memory),
        }
    }

    /// AllocatePool: a block of a number of bytes, all 0, of the type `mtype`. Of the extents of the type it goes into
    /// the lowest that has room, at the lowest place there. If none has, new pages are placed for it, which fill
    /// granules of the type on the book's machine, and the result has the certificate of their place beside the block's
    /// address, where the book returns certificates.
    ///
    /// INVALID_PARAMETER: a type that no request may name. OUT_OF_RESOURCES: more than 2^32 bytes; or
    /// new pages are needed, and no place is permitted or memory ran out. On an `Err` all is as it was.
    pub fn allocate(
        &mut self,
        book: &mut PageBook<A>,
        mtype: u32,
        size: u64,
    ) -> Result<(u64, Option<Certificate<A>>), Status>
        requires key { book.old.key < 2 ^ 62 }
        requires owns { OwnsExtents book.old.memory self.old.extents }
        ensures allocates { AllocatesPool IsBestChoice book.old self.old.extents mtype size result
            book.new self.new.extents }
        ensures owns { OwnsExtents book.new.memory self.new.extents }
        ensures reserved { KeepsEnds book.old self.old book.new self.new }
        ensures memory { self.new.memory ≡ self.old.memory }
    {
        let mtype = type_for_alloc(mtype)?;
        if size > MAX_SIZE {
            return Err(Status::OutOfResources);
        }
        let size = size as usize;
        match self.extents.take(mtype, size) {
            Some(address) => Ok((address, None)),
            None => self.take_new(book, mtype, size),
        }
    }

    /// AllocatePool for a block as long as some bytes, which it then holds. It goes where `allocate` puts a block of a
    /// number of bytes, and the result has the same parts.
    ///
    /// INVALID_PARAMETER, OUT_OF_RESOURCES: as `allocate` returns. On an `Err` all is as it was.
    pub fn allocate_filled(
        &mut self,
        book: &mut PageBook<A>,
        mtype: u32,
        bytes: &[u8],
    ) -> Result<(u64, Option<Certificate<A>>), Status>
        requires key { book.old.key < 2 ^ 62 }
        requires owns { OwnsExtents book.old.memory self.old.extents }
        ensures fills { FillsPool IsBestChoice book.old self.old.extents mtype bytes.now result
            book.new self.new.extents }
        ensures owns { OwnsExtents book.new.memory self.new.extents }
        ensures reserved { KeepsEnds book.old self.old book.new self.new }
        ensures memory { self.new.memory ≡ self.old.memory }
    {
        self.extents.apart_law();
        let answer = self.allocate(book, mtype, bytes.len() as u64)?;
        self.extents.apart_law();
        let Ok(()) = self.write(answer.0, bytes) else {
            unreachable!();
        };
        Ok(answer)
    }

    // Takes a block in a new extent. All memory is taken before the pages.
    fn take_new(
        &mut self,
        book: &mut PageBook<A>,
        mtype: MemoryType,
        size: usize,
    ) -> Result<(u64, Option<Certificate<A>>), Status>
        requires key { book.old.key < 2 ^ 62 }
        requires owns { OwnsExtents book.old.memory self.old.extents }
        requires good { is_bad_type mtype ≡ false }
        requires size { size ≤ max_size }
        requires none { first_fit mtype size self.old.extents ≡ None }
        ensures allocates { AllocatesPool IsBestChoice book.old self.old.extents mtype size result
            book.new self.new.extents }
        ensures owns { OwnsExtents book.new.memory self.new.extents }
        ensures reserved { KeepsEnds book.old self.old book.new self.new }
        ensures memory { self.new.memory ≡ self.old.memory }
    {
        let pages = extent_pages(book.granule(), mtype, size);
        let Some(chosen) = book.choose_for_pool(mtype, pages_for(size) as u64) else {
            return Err(Status::OutOfResources);
        };
        let page = chosen.first;
        let Ok(group) = self.extents.reserve(page) else {
            return Err(Status::OutOfResources);
        };
        let Some(region) = self.regions.region(self.alloc, page, pages) else {
            return Err(Status::OutOfResources);
        };
        // That the book's memory is proper is known of the count of its map's entries.
        let _ = book.table().descriptors();
        let Ok(placed) = book.place_for_pool(chosen) else {
            return Err(Status::OutOfResources);
        };
        let first = placed.address / PAGE_SIZE;
        let extent = PoolExtent::with_block(first, mtype, region, pages as u64, size);
        self.extents.add(group, extent);
        Ok((placed.address + HEADER_SIZE, placed.certificate))
    }

    /// FreePool: gives the block at an address back. An extent that has no other block ends, and its
    /// pages are conventional again.
    ///
    /// INVALID_PARAMETER: no block has the address. OUT_OF_RESOURCES: memory ran out for the end of an extent, for
    /// which the book has none reserved. On an `Err` all is as it was.
    pub fn free(&mut self, book: &mut PageBook<A>, address: u64) -> Result<(), Status>
        requires key { book.old.key < 2 ^ 62 }
        requires owns { OwnsExtents book.old.memory self.old.extents }
        ensures frees { FreesPool book.old self.old.extents address result book.new
            self.new.extents }
        ensures owns { OwnsExtents book.new.memory self.new.extents }
        ensures reserved { KeepsEnds book.old self.old book.new self.new }
        ensures memory { self.new.memory ≡ self.old.memory }
    {
        let Some(spot) = self.extents.holder(address) else {
            return Err(Status::InvalidParameter);
        };
        match self.extents.give(spot, address) {
            Freed::NoBlock => Err(Status::InvalidParameter),
            Freed::Back => Ok(()),
            Freed::Last(cell) => {
                let range = self.extents.extent(spot).range();
                book.give_from_pool(range)?;
                let extent = self.extents.remove(spot);
                self.regions.keep(extent.into_region(cell));
                Ok(())
            }
        }
    }

    /// Reads the bytes from an address on into a buffer, all of which one block must have.
    ///
    /// INVALID_PARAMETER: they do not lie in one block. The buffer is then as it was.
    pub fn read(&self, address: u64, buffer: &mut [u8]) -> Result<(), Status>
        ensures { ReadsPool self.now.extents address buffer.old result buffer.new }
    {
        match self.tail(address) {
            Some(bytes) if buffer.len() <= bytes.len() => {
                buffer.copy_from_slice(&bytes[..buffer.len()]);
                Ok(())
            }
            _ => Err(Status::InvalidParameter),
        }
    }

    /// Writes bytes from an address on, all of which must lie in one block.
    ///
    /// INVALID_PARAMETER: they do not. All is then as it was.
    pub fn write(&mut self, address: u64, bytes: &[u8]) -> Result<(), Status>
        ensures writes { WritesPool self.old.extents address bytes.now result self.new.extents }
        ensures memory { self.new.memory ≡ self.old.memory }
    {
        if self.extents.write(address, bytes) {
            Ok(())
        } else {
            Err(Status::InvalidParameter)
        }
    }

    /// The bytes from an address on to the end of the block that it belongs to. An address belongs to a
    /// block from its first byte on up to the end behind its last byte.
    pub fn tail(&self, address: u64) -> Option<&[u8]>
        ensures bytes { option_map (λ s. s.now) result ≡ tail_at address self.now.extents }
        ensures within { IfSome result (λ s. address + length s.now ≤ 2 ^ 64) }
    {
        self.extents.tail(address)
    }

    /// The live block with the lowest address at or above one.
    pub fn block_from(&self, address: u64) -> Option<PoolBlock>
        ensures { result ≡ find (is_from address) (blocks_of self.now.extents) }
    {
        self.extents.block_from(address)
    }
}
