//! Sources of bytes.
ghost use Rattle.std.specs.Prelude.{ℕ, Bool, true, false, IsTrue, List, Option, None, Some, IfOk, OnErr};
ghost use Rattle.std.specs.Io.Buffered.{reader_remaining};
ghost use Rattle.text_lines.specs.Lines.{TakesByte};

use crate::lines::next_byte;
use std::alloc::Allocator;
use std::io::{BufReader, Read, Result};

/// A source of bytes, which are taken one at a time.
pub trait ByteSource {
    // The bytes that are left, where they are known.
    ghost left: { Self → Option (List ℕ) } = { λ _. None };

    // Whether taking a byte may fail.
    ghost can_fail: { Bool } = { true };

    /// The next byte, None at the end.
    fn take_byte(&mut self) -> Result<Option<u8>>
        ensures next { IfOk result (λ next. TakesByte (left self.old) next (left self.new)) }
        ensures fails { OnErr result (IsTrue can_fail) };
}

impl<R: Read, A: Allocator> ByteSource for BufReader<R, A> {
    ghost left = { reader_remaining R.remaining };

    fn take_byte(&mut self) -> Result<Option<u8>> {
        next_byte(self)
    }
}

/// Bytes in memory, which never fail.
impl ByteSource for &[u8] {
    ghost left = { λ bytes. Some bytes.now };

    ghost can_fail = { false };

    fn take_byte(&mut self) -> Result<Option<u8>> {
        match *self {
            [] => Ok(None),
            [byte, rest @ ..] => {
                *self = rest;
                Ok(Some(*byte))
            }
        }
    }
}
