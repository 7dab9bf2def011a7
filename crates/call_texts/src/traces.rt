//! The lines of the calls that are made, kept while they are made.
ghost use Rattle.std.specs.Prelude.{◌≡◌};
ghost use Rattle.call_texts.specs.CallTraces.{AddsLine, HoldsLine};

use crate::lines::line_for;
use boot_calls::Call;
use std::alloc::{Allocator, Global};

/// The lines of some calls.
#[derive(Drop)]
pub enum CallTrace<A: Allocator = Global> {
    /// There are no calls.
    Nothing,
    Lines(String<A>),
    /// No line can ask for one of the calls.
    NoLine,
    OutOfMemory,
}

impl<A: Allocator + Copy> CallTrace<A> {
    /// The lines with that of a further call.
    pub fn with_line(self, alloc: A, call: &Call<A>) -> CallTrace<A>
        ensures { AddsLine self call.now result }
    {
        match self {
            CallTrace::Nothing => first_line(alloc, call),
            CallTrace::Lines(lines) => add_line(alloc, lines, call),
            other => other,
        }
    }
}

/// The line of the first call.
fn first_line<A: Allocator + Copy>(alloc: A, call: &Call<A>) -> CallTrace<A>
    ensures { HoldsLine call.now result }
{
    match line_for(alloc, call) {
        Ok(Some(line)) => CallTrace::Lines(line),
        Ok(None) => CallTrace::NoLine,
        Err(_) => CallTrace::OutOfMemory,
    }
}

/// The lines with that of a further call.
fn add_line<A: Allocator + Copy>(alloc: A, mut lines: String<A>, call: &Call<A>) -> CallTrace<A>
    ensures { AddsLine (CallTrace.Lines lines) call.now result }
{
    match line_for(alloc, call) {
        Ok(Some(line)) => match lines.push_str(line.as_str()) {
            Ok(()) => CallTrace::Lines(lines),
            Err(_) => CallTrace::OutOfMemory,
        },
        Ok(None) => CallTrace::NoLine,
        Err(_) => CallTrace::OutOfMemory,
    }
}
