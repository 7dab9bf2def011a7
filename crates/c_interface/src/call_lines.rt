//! The line of a trace that asks for a call.
ghost use Rattle.c_interface.specs.CallLines.{HasLine, ReturnsLine};

use crate::call_fields::{CallFields, call_in};
use crate::efi_core::{EfiCore, LastBlock};
use boot_core::Call;
use call_texts::line_for;
use std::alloc::Allocator;

impl<A: Allocator + Copy> EfiCore<A> {
    /// The line of a trace that asks for a call, with its line feed. It is put in the front of a buffer, and the
    /// number of its bytes into a variable. The call is not made.
    ///
    /// INVALID_PARAMETER: no service has the number. NOT_FOUND: no line can ask for the call. OUT_OF_RESOURCES: memory
    /// ran out, for a call that a line may ask for. BUFFER_TOO_SMALL: the variable receives the number of bytes
    /// needed.
    pub fn trace_line(&self, fields: &CallFields<'_>, buffer: &mut [u8], size: &mut u64) -> u64
        ensures { ReturnsLine self.now fields.now buffer.old size.old result buffer.new size.new }
    {
        match call_in(self.alloc, fields) {
            Ok(call) => line_of(self.alloc, &call).returned(buffer, size),
            Err(status) => status.number(),
        }
    }
}

/// The line of a call.
fn line_of<A: Allocator + Copy>(alloc: A, call: &Call<A>) -> LastBlock<A>
    ensures { HasLine call.now result }
{
    match line_for(alloc, call) {
        Ok(Some(line)) => LastBlock::Text(line.into_bytes()),
        Ok(None) => LastBlock::Nothing,
        Err(_) => LastBlock::OutOfMemory,
    }
}
