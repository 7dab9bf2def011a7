//! The units of a heap with their marks.
ghost use Rattle.std.specs.Prelude.{◌≡◌, ◌≤◌, ◌<◌, ◌+◌, ℕ, length, replicate, IfSome, MatchOption};
ghost use Rattle.region_heap.specs.Marks.{AreFree, marked};
ghost use Rattle.region_heap.specs.Places.{Place};

use crate::memory::{Block, Free};
use raw_pool::RawBytes;
use std::mem::ManuallyDrop;

/// The free units of a heap, and a mark for each unit.
pub(crate) struct Cells {
    free: Free,
    marks: RawBytes,
    ghost agree: { free.marks ≡ marks.set },
}

impl Cells {
    ghost use Rattle.region_heap.specs.Heaps.{TakesUnits};

    /// Cells all of whose units are free.
    pub(crate) fn new(free: Free, marks: RawBytes, units: usize) -> Cells
        requires { (free.marks ≡ replicate units 0) × (marks.set ≡ replicate units 0) }
        ensures { result.free.place ≡ free.place }
    {
        Cells { free, marks }
    }

    /// Takes units in a row that are free, a number for a block and one behind them.
    pub(crate) fn take(self, units: usize) -> (Cells, Option<Block>)
        ensures place { result.0.free.place ≡ self.free.place }
        ensures block { TakesUnits self units result.0 result.1 }
        ensures same { result.1 ≡ None → result.0 ≡ self }
    {
        match first_free(self.marks.bytes(), units) {
            None => (self, None),
            Some(at) => {
                let Cells { free, mut marks } = self;
                let (free, block) = free.cut(at, units);
                mark(&mut marks, at, units + 1, 1);
                (Cells { free, marks }, Some(block))
            }
        }
    }

    /// Gives a block's units back, and the one behind them.
    pub(crate) fn give(self, block: Block, units: usize) -> Cells
        requires { (block.place ≡ self.free.place) × (block.units ≡ units) }
        ensures place { result.free.place ≡ self.free.place }
        ensures marks { result.marks.set ≡ marked self.marks.set block.at (units + 1) 0 }
    {
        let Cells { free, mut marks } = self;
        let (free, at) = free.put(block, units);
        mark(&mut marks, at, units + 1, 0);
        Cells { free, marks }
    }
}

// The memory is its maker's, and is never freed here.
impl Drop for Cells {
    fn drop(self) {
        let _ended = unsafe { ManuallyDrop::new_unchecked(self) };
    }
}

/// Gives a number of units from one on a mark.
fn mark(marks: &mut RawBytes, at: usize, count: usize, mark: u8)
    requires { at + count ≤ length marks.old.set }
    ensures { marks.new.set ≡ marked marks.old.set at count mark }
{
    marks.bytes_mut()[at..at + count].fill(mark);
}

/// The first of a number of units in a row that are free, and one more.
fn first_free(marks: &[u8], units: usize) -> Option<usize>
    ensures { MatchOption result ((at : ℕ) → ¬ AreFree marks.now at (units + 1))
        (λ at. AreFree marks.now at (units + 1)) }
{
    let mut free = 0;
    for (at, mark) in marks.iter().enumerate() {
        if *mark != 0 {
            free = 0;
        } else if free == units {
            return Some(at - units);
        } else {
            free += 1;
        }
    }
    None
}
