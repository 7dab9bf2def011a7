//! The heap as an allocator.
ghost use Rattle.std.specs.Prelude.{◌≡◌, ◌^◌, ◌<◌, ◌≤◌, IfSome};
ghost use Rattle.region_heap.specs.Places.{units_for};
ghost use Rattle.region_heap.specs.Ownership.{block_token};

use crate::cells::Cells;
use crate::memory::{Block, Region, UNIT};
use crate::slot::Slot;
use std::alloc::{AllocError, Allocator};
use std::mem::ManuallyDrop;

/// The units in front of a heap that hold the heap itself.
const HEAD: usize = 4;

/// A heap in a region of memory. A `&` to it is the allocator of one thread's collections.
pub struct RegionHeap {
    slot: Slot,
}

impl RegionHeap {
    /// A heap in a region, with no blocks. One unit in 17 holds the marks of the others.
    pub fn new(region: Region) -> RegionHeap {
        let (units, region) = region.with_units();
        let blocks = UNIT * units / (UNIT + 1);
        let (free, mut marks) = region.split(blocks);
        marks.clear(0, blocks);
        RegionHeap {
            slot: Slot::new(Cells::new(free, marks, blocks)),
        }
    }

    /// A heap that lies in its own region, for good. None where the region has no room for it.
    pub fn lasting(region: Region) -> Option<&'static RegionHeap> {
        let (units, region) = region.with_units();
        if units < HEAD {
            return None;
        }
        let (front, rest) = region.cut(HEAD, units - HEAD);
        let heap = Box::new(RegionHeap::new(front), RegionHeap::new(rest)).ok()?;
        Some(Box::leak(heap))
    }

    // The slot is empty only while one of these two runs, and neither calls what could come back here.
    fn take(&self, size: usize, align: usize) -> Option<Block>
        ensures { IfSome result (λ b. (b.place ≡ self.now.slot) × (b.units ≡ units_for size)
            × (size < 2 ^ 63) × (align ≤ 16)) }
    {
        if align > UNIT || size > isize::MAX as usize {
            return None;
        }
        let (cells, block) = self.slot.replace(None)?.take(units_for(size));
        drop(self.slot.replace(Some(cells)));
        block
    }

    fn give(&self, block: Block, units: usize)
        requires { (block.place ≡ self.now.slot) × (block.units ≡ units) }
    {
        match self.slot.replace(None) {
            Some(cells) => {
                drop(self.slot.replace(Some(cells.give(block, units))));
            }
            None => {
                let _lost = unsafe { ManuallyDrop::new_unchecked(block) };
            }
        }
    }
}

// The region is its maker's, and is never freed here.
impl Drop for RegionHeap {
    fn drop(self) {
        let _ended = unsafe { ManuallyDrop::new_unchecked(self) };
    }
}

/// The units that hold a number of bytes.
fn units_for(size: usize) -> usize
    requires { size < 2 ^ 63 }
    ensures { result ≡ units_for size }
{
    (size + (UNIT - 1)) / UNIT
}

unsafe impl Allocator for RegionHeap {
    ghost dealloc_token = { λ heap. block_token heap.slot };

    fn allocate(&self, size: usize, align: usize) -> Result<*mut u8, AllocError> {
        match self.take(size, align) {
            Some(Block { ptr }) => Ok(ptr),
            None => Err(AllocError),
        }
    }

    unsafe fn deallocate(&self, ptr: *mut u8, size: usize, _align: usize) {
        let units = units_for(size);
        self.give(Block { ptr }, units);
    }
}
