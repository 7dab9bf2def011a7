//! Lines of a trace, run on a core.
ghost use Rattle.std.specs.Prelude.{◌≡◌};
ghost use Rattle.c_interface.specs.EfiCores.{with_block};
ghost use Rattle.c_interface.specs.Lines.{RunsLine, StatusOfFault};

use crate::efi_core::{ABORTED, EfiCore, LastBlock};
use boot_trace::{RunFault, run_line};
use page_ranges::Status;
use std::alloc::Allocator;

impl<A: Allocator + Copy> EfiCore<A> {
    /// From now on lines, and what calls leave to be asked for, are allocated by another allocator than the core.
    pub fn leave_in(&mut self, alloc: A)
        ensures { self.new ≡ self.old }
    {
        self.alloc = alloc;
    }

    /// Makes the call that a trace line asks for, if it asks for one. What `bootcore` prints of it is left
    /// as the block of the last call.
    ///
    /// INVALID_PARAMETER: the line is none of a trace; what is left is the text of its fault. ABORTED: no
    /// calls are left. OUT_OF_RESOURCES: memory ran out, perhaps after the call was made.
    pub fn run_line(&mut self, number: u64, line: &[u8]) -> u64
        ensures { RunsLine number line.now self.old result self.new }
    {
        self.forget();
        let mut text = String::new(self.alloc);
        match run_line(
            self.alloc,
            &mut self.core,
            number,
            line,
            self.certifies,
            &mut text,
        ) {
            Ok(()) => {
                self.block = LastBlock::Text(text.into_bytes());
                Status::Success.number()
            }
            Err(fault) => self.refuse_line(fault),
        }
    }

    // Leaves the text of a line's fault, and returns its status.
    fn refuse_line(&mut self, fault: RunFault) -> u64
        requires { self.old.block ≡ LastBlock.Nothing }
        ensures status { StatusOfFault fault result self.new.block }
        ensures kept { self.new ≡ with_block self.old self.new.block }
    {
        if let RunFault::NoCallsLeft = fault {
            return ABORTED;
        }
        let RunFault::Line { .. } = fault else {
            return Status::OutOfResources.number();
        };
        let mut text = String::new(self.alloc);
        self.block = match write!(text, "{fault}") {
            Ok(()) => LastBlock::Text(text.into_bytes()),
            Err(_) => LastBlock::OutOfMemory,
        };
        Status::InvalidParameter.number()
    }
}
