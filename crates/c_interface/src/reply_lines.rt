//! What `bootcore` prints of the last call.
ghost use Rattle.c_interface.specs.ReplyLines.{Joins, PrintsLast, PrintsReply, ReturnsReply};

use crate::efi_core::{EfiCore, LastBlock};
use crate::last_call::LastCall;
use boot_core::{Call, Reply};
use reply_texts::print_call;
use std::alloc::Allocator;

impl<A: Allocator + Copy> EfiCore<A> {
    /// What `bootcore` prints of the last call where its line has this number: the lines of its reply, and the
    /// block of its certificate. It is put in the front of a buffer, and the number of its bytes into a variable.
    ///
    /// NOT_FOUND: the last call left no reply, as none does where replies are not kept. OUT_OF_RESOURCES: memory ran out. BUFFER_TOO_SMALL: the variable
    /// receives the number of bytes needed.
    pub fn reply_line(&self, number: u64, buffer: &mut [u8], size: &mut u64) -> u64
        ensures { ReturnsReply self.now number buffer.old size.old result buffer.new size.new }
    {
        let printed = self.printed(number);
        printed.returned(buffer, size)
    }

    // What is printed of the last call.
    fn printed(&self, number: u64) -> LastBlock<A>
        ensures { PrintsLast number self.now.last.reply self.now.block result }
    {
        match &self.last {
            LastCall::Reply(reply) => print_last(self.alloc, number, reply, &self.block),
            LastCall::Events(_) | LastCall::Nothing => LastBlock::Nothing,
        }
    }
}

/// What is printed of a call with this reply, which left this block.
pub(crate) fn print_last<A: Allocator + Copy>(
    alloc: A,
    number: u64,
    reply: &Reply<A>,
    block: &LastBlock<A>,
) -> LastBlock<A>
    ensures { PrintsReply number reply.now block.now result }
{
    let mut text = String::new(alloc);
    // The block is kept as text: with no map of before the call nothing but the reply is looked at.
    let call = Call::FreePool { address: 0 };
    match print_call(alloc, &mut text, number, 0, &None, &call, reply) {
        Ok(()) => joined(text.into_bytes(), block),
        Err(_) => LastBlock::OutOfMemory,
    }
}

/// The lines of a reply, and the block behind them.
fn joined<A: Allocator + Copy>(mut lines: Vec<u8, A>, block: &LastBlock<A>) -> LastBlock<A>
    ensures { Joins lines.items block.now result }
{
    match block {
        LastBlock::Nothing => LastBlock::Text(lines),
        LastBlock::Text(bytes) => match lines.extend_from_slice(bytes.as_slice()) {
            Ok(()) => LastBlock::Text(lines),
            Err(_) => LastBlock::OutOfMemory,
        },
        LastBlock::OutOfMemory => LastBlock::OutOfMemory,
    }
}
