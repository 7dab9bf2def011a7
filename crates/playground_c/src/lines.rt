//! Lines of a trace.
ghost use Rattle.std.specs.Prelude.{◌≡◌};
ghost use Rattle.c_interface.specs.Lines.{RunsLine};
ghost use Rattle.c_interface.specs.Served.{ReturnsBlock};

use region_cores::Rafkudin;

/// Makes the call that a line of a trace asks for, if it asks for one. What `bootcore run` prints of the line,
/// whose number is `number`, is what PlaygroundText returns next; of a line that is none of a trace it is the fault.
///
/// INVALID_PARAMETER: the line is none of a trace. ABORTED: no calls are left. OUT_OF_RESOURCES: a region has no room
/// left, perhaps since the call was made.
#[unsafe(no_mangle)]
pub extern "C" fn PlaygroundRunLine(core: &mut Rafkudin, number: u64, line: &[u8]) -> u64
    ensures { RunsLine number line.now core.old.core result core.new.core }
{
    core.held().run_line(number, line)
}

/// What the last line printed, in the front of `text`; the variable `length` receives its number of
/// bytes.
///
/// NOT_FOUND: there is nothing. BUFFER_TOO_SMALL: the variable receives the number of bytes needed.
/// OUT_OF_RESOURCES: memory ran out for it.
#[unsafe(no_mangle)]
pub extern "C" fn PlaygroundText(core: &mut Rafkudin, text: &mut [u8], length: &mut u64) -> u64
    ensures returned { ReturnsBlock core.old.core.block text.old length.old result text.new
        length.new }
    ensures kept { core.new.core ≡ core.old.core }
{
    core.held().block(text, length)
}
