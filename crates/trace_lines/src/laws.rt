//! The laws of trace lines, each the contract of a function that does nothing.
ghost use Rattle.trace_lines.specs.Laws.{CallNumbersLaw, NamedTypesLaw};

use std::alloc::Allocator;

/// A call that a line asks for names no type of more than 32 bits.
pub fn named_types_law<A: Allocator>()
    ensures { NamedTypesLaw A }
{}

/// The numbers of a call that a line asks for are of the 32 or 64 bits that its service takes, its
/// bytes are bytes, and its GUIDs have 16 of them.
pub fn call_numbers_law<A: Allocator>()
    ensures { CallNumbersLaw A }
{}
