//! A short list of numbers.
ghost use Rattle.std.specs.Prelude.{◌≡◌, ◌<◌, ◌≤◌, ◌==◌, ◌++◌, [], ◌∷◌, not, take, IsTrue, IfOk, OnOk, OnErr};
ghost use Rattle.std.specs.List.{filter};
ghost use Rattle.std.specs.Mem.{FitsInMemory};
ghost use Rattle.guid_handles.specs.Sorting.{Ascending};

use crate::places::ascending_index;
use smallvec::SmallVec;
use std::alloc::{AllocError, Allocator};
use std::marker::Model;
use std::mem;

/// How many numbers lie in place.
const INLINE_NUMBERS: usize = 4;

/// That the type of a small vector with an allocator fits in memory. Each call of such a vector
/// asks for it, and of an allocator that is a type parameter no size is known.
pub(crate) trait HoldsLists: Allocator {
    ghost use Rattle.guid_handles.specs.ListRoom.{ShortListFits};

    ghost ListsFit: { Type 0 };

    ghost meaning: { ListsFit → ShortListFits Self.row Self.Allocator };
}

impl<A: Allocator> HoldsLists for A {
    ghost use Rattle.guid_handles.specs.ListRoom.{ShortListFits};

    ghost ListsFit = { ShortListFits A.row A.Allocator };

    ghost meaning = { λ fit. fit };
}

/// Whether a type fits in memory, of which no value is at hand. The answer is known when the crate
/// is built.
fn fits_in_memory<T>(none: &Option<T>) -> bool
    ensures { IsTrue result → FitsInMemory T.row }
{
    mem::size_of_val(none) <= isize::MAX as usize
}

/// A list of numbers, of which four lie in place.
#[derive(Drop)]
pub(crate) struct ShortList<A: Allocator + HoldsLists> {
    numbers: SmallVec<usize, INLINE_NUMBERS, A>,
}

impl<A: Allocator + HoldsLists> Model for ShortList<A> {
    ghost use Rattle.std.specs.Prelude.{List, ℕ};

    ghost Value = { List ℕ };

    ghost view = { λ l. l.numbers.items };

    ghost invariant = { λ _. A.ListsFit };
}

impl<A: Allocator + Copy> ShortList<A> {
    /// An empty list. This takes no memory, and refuses an allocator whose type is larger than memory.
    pub(crate) fn new(alloc: A) -> Result<ShortList<A>, AllocError>
        ensures { IfOk result (λ list. list ≡ []) }
    {
        if !fits_in_memory(&None::<SmallVec<usize, INLINE_NUMBERS, A>>) {
            return Err(AllocError);
        }
        Ok(ShortList {
            numbers: SmallVec::new(alloc),
        })
    }

    /// The first `count` numbers of a buffer, which take no memory.
    #[inline(always)]
    pub(crate) fn few(&self, buffer: [usize; INLINE_NUMBERS], count: usize) -> ShortList<A>
        requires { count ≤ 4 }
        ensures { result ≡ take count buffer }
    {
        let numbers = SmallVec::from_buf_and_len(*self.numbers.allocator(), buffer, count);
        ShortList { numbers }
    }

    /// The same numbers, in memory of their own.
    #[inline(never)]
    pub(crate) fn try_copy(&self) -> Result<ShortList<A>, AllocError>
        ensures { IfOk result (λ copy. copy ≡ self.now) }
    {
        let numbers = SmallVec::from_slice(*self.numbers.allocator(), self.numbers.as_slice())?;
        Ok(ShortList { numbers })
    }

    /// The numbers.
    #[inline]
    pub(crate) fn as_slice(&self) -> &[usize]
        ensures { result.now ≡ self.now }
    {
        self.numbers.as_slice()
    }

    /// Appends a number. On an `Err` the list is as it was.
    pub(crate) fn push(&mut self, number: usize) -> Result<(), AllocError>
        ensures ok { OnOk result (self.new ≡ self.old ++ number ∷ []) }
        ensures err { OnErr result (self.new ≡ self.old) }
    {
        self.numbers.push(number)?;
        Ok(())
    }

    /// Removes a number, wherever it is.
    pub(crate) fn remove(&mut self, number: usize)
        ensures { self.new ≡ filter (λ n. not (n == number)) self.old }
    {
        self.numbers.retain(
            |n: &mut usize| -> bool
                ensures answer { result ≡ not (n.old == number) }
                ensures same { n.new ≡ n.old }
            { *n != number },
        );
    }

    /// Removes a number from an ascending list.
    #[tactic(auto, using(crate::proofs::PlaceLists::there_below))]
    pub(crate) fn remove_ascending(&mut self, number: usize)
        requires { Ascending (λ a b. a < b) self.old }
        ensures { self.new ≡ filter (λ n. not (n == number)) self.old }
    {
        if let Some(at) = ascending_index(self.numbers.as_slice(), number) {
            self.numbers.remove(at);
        }
    }
}

impl<A: Allocator + Copy> Clone for ShortList<A> {
    ghost is_clone = { λ m n. n ≡ m };

    // Few numbers are copied one by one, which is faster than a slice of any length.
    #[inline(always)]
    fn clone(&self) -> Result<ShortList<A>, AllocError> {
        match self.as_slice() {
            [a] => Ok(self.few([*a, 0, 0, 0], 1)),
            [a, b] => Ok(self.few([*a, *b, 0, 0], 2)),
            [a, b, c] => Ok(self.few([*a, *b, *c, 0], 3)),
            [a, b, c, d] => Ok(self.few([*a, *b, *c, *d], 4)),
            _ => self.try_copy(),
        }
    }
}
