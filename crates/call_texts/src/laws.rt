//! The laws of printed calls, each the contract of a function that does nothing.
ghost use Rattle.call_texts.specs.Laws.{PrintedCallLaw, PrintedLinesLaw};

use std::alloc::Allocator;

/// The line of a call, read, is that call.
pub fn printed_call_law<A: Allocator>()
    ensures { PrintedCallLaw A }
{}

/// The lines of a text of calls, printed one after the other, are the lines of these calls.
pub fn printed_lines_law<A: Allocator>()
    ensures { PrintedLinesLaw A }
{}
