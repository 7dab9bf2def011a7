//! The units of a heap that are free, and its blocks. No other file but `heap.rt` names a pointer.
ghost use Rattle.std.specs.Prelude.{◌≡◌, ◌<◌, ◌≤◌, ◌+◌, ◌-◌, ◌*◌, ◌^◌, ℕ, List, [], length, replicate, IfOk};
ghost use types.Logic.{sem};
ghost use Rattle.linked_list_allocator.specs.Ownership.{bytes_at};
ghost use Rattle.region_heap.specs.Marks.{AreFree, marked};
ghost use Rattle.region_heap.specs.Ownership.{block_owned, free_from};
ghost use Rattle.region_heap.specs.Places.{IsBlock, IsStart, Place};

use raw_pool::RawBytes;
use std::alloc::{AllocError, Allocator};
use std::marker::Model;

/// The size of a unit, and the alignment of each.
pub(crate) const UNIT: usize = 16;

/// Memory for a heap: units of 16 bytes, aligned to 16, that are its owner's alone.
#[repr(C)]
#[derive(Drop)]
pub struct Region {
    start: *mut u8,
    pub units: usize,
    ghost few: { 16 * units < 2 ^ 63 },
}

impl Model for Region {
    ghost also_owns = { λ r. bytes_at r.start (16 * r.units) };
}

/// The free units of a heap.
#[derive(Drop)]
pub(crate) struct Free {
    start: *mut u8,
    pub(crate) ghost place: { Place },
    pub(crate) ghost marks: { List ℕ },
    ghost placed: { IsStart place start × (length marks ≡ place.units) },
}

impl Model for Free {
    ghost also_owns = { λ f. free_from f.place.object f.place.start f.marks };
}

/// Units that are not free, and behind them one that holds the number of the first.
pub(crate) struct Block {
    pub(crate) ptr: *mut u8,
    pub(crate) ghost place: { Place },
    pub(crate) ghost at: { ℕ },
    pub(crate) ghost units: { ℕ },
    ghost placed: { IsBlock place ptr at units },
}

impl Model for Block {
    ghost also_owns = { λ b. block_owned b.place b.at b.units };
}

impl Region {
    /// The memory of a number of units from an address on, which is aligned to 16. The caller gives it up.
    pub unsafe fn from_raw_parts(start: *mut u8, units: usize) -> Region
        requires few { 16 * units < 2 ^ 63 }
        requires* memory { sem 𝓛 (bytes_at start (16 * units)) }
        ensures { result.units ≡ units }
    {
        Region { start, units }
    }

    /// Memory that another allocator gives, and never gets back.
    pub fn within<A: Allocator>(alloc: &A, units: usize) -> Result<Region, AllocError>
        requires { 16 * units < 2 ^ 63 }
        ensures { IfOk result (λ r. r.units ≡ units) }
    {
        match alloc.allocate(UNIT * units, UNIT) {
            Ok(start) => Ok(Region { start, units }),
            Err(refused) => Err(refused),
        }
    }

    /// How many units there are, and the memory again.
    pub(crate) fn with_units(self) -> (usize, Region)
        ensures { (result.0 ≡ self.units) × (result.1.units ≡ self.units)
            × (16 * self.units < 2 ^ 63) }
    {
        let Region { start, units } = self;
        (units, Region { start, units })
    }

    /// The memory in two parts, with the given numbers of units.
    pub(crate) fn cut(self, front: usize, rest: usize) -> (Region, Region)
        requires { front + rest ≡ self.units }
        ensures { (result.0.units ≡ front) × (result.1.units ≡ rest) }
    {
        let Region { start, units: _ } = self;
        let behind = unsafe { start.add(UNIT * front) };
        (
            Region {
                start,
                units: front,
            },
            Region {
                start: behind,
                units: rest,
            },
        )
    }

    /// The memory in two parts: a number of units for blocks, all of them free, and room for their marks.
    pub(crate) fn split(self, blocks: usize) -> (Free, RawBytes)
        requires { blocks ≤ self.units }
        ensures free { (result.0.place.units ≡ blocks) × (result.0.marks ≡ replicate blocks 0) }
        ensures marks { (result.1.set ≡ []) × (result.1.room ≡ 16 * (self.units - blocks)) }
    {
        let Region { start, units: _ } = self;
        let ptr = unsafe { start.add(UNIT * blocks) };
        (Free { start }, RawBytes { ptr, len: 0 })
    }
}

impl Free {
    /// Takes a number of free units from one on for a block, and the one behind them.
    pub(crate) fn cut(self, at: usize, units: usize) -> (Free, Block)
        requires inside { at + units < self.place.units }
        requires free { AreFree self.marks at (units + 1) }
        ensures free { (result.0.place ≡ self.place)
            × (result.0.marks ≡ marked self.marks at (units + 1) 1) }
        ensures block { (result.1.place ≡ self.place) × (result.1.at ≡ at)
            × (result.1.units ≡ units) }
    {
        let Free { start } = self;
        unsafe {
            let ptr = start.add(UNIT * at);
            let behind = ptr.add(UNIT * units) as *mut usize;
            behind.write(at);
            (Free { start }, Block { ptr })
        }
    }

    /// Makes a block's units free again, and the one behind them. Answers which is the first.
    pub(crate) fn put(self, block: Block, units: usize) -> (Free, usize)
        requires { (block.place ≡ self.place) × (block.units ≡ units) }
        ensures free { (result.0.place ≡ self.place)
            × (result.0.marks ≡ marked self.marks block.at (units + 1) 0) }
        ensures first { (result.1 ≡ block.at) × (block.at + units < self.place.units) }
    {
        let Free { start } = self;
        let Block { ptr } = block;
        unsafe {
            let behind = ptr.add(UNIT * units) as *mut usize;
            let at = behind.read();
            (Free { start }, at)
        }
    }
}
