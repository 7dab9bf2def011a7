//! The laws of what is printed of a call, each the contract of a function that does nothing.
ghost use Rattle.c_interface.specs.BufferLaws.{PrintedMapLaw, PrintedReadLaw};
ghost use Rattle.c_interface.specs.ReplyLines.{PrintedReplyLaw};

use std::alloc::Allocator;

/// What is printed of a call that was served is what a run of a trace prints of its line.
pub fn printed_reply_law<A: Allocator>()
    ensures { PrintedReplyLaw A }
{}

/// What is printed of a GetMemoryMap, of what the caller got, is what a run of a trace prints of its line.
pub fn printed_map_law<A: Allocator>()
    ensures { PrintedMapLaw A }
{}

/// What is printed of a read of the pool, of what the caller got, is what a run of a trace prints of its line.
pub fn printed_read_law<A: Allocator>()
    ensures { PrintedReadLaw A }
{}
