//! The program, from its arguments to its exit status.
ghost use Rattle.std.specs.Prelude.{◌≡◌, ◌≤◌, IfOk, map};
ghost use Rattle.std.specs.IoError.{error_kind};
ghost use Rattle.program_runs.specs.Programs.{Effects, RunsPaths, Does, IsLostStatus, ServesArguments, ServesTexts, texts_as_bytes};

use crate::files::OpenFiles;
use crate::serve::{
    Fault, run_files, serve_check, serve_end, serve_fault, serve_usage, serve_version,
};
use command_line::{Command, CommandFault, command_of};
use std::alloc::Global;
use std::env::Args;
use std::io::{self, Error, ErrorKind, Read, Write};

/// What is printed about arguments that are not UTF-8.
const NOT_UTF8: &str = "error: arguments that are not UTF-8\n";

/// Does what the arguments ask for, if they could be read, and returns the exit status.
pub fn serve_arguments<O: OpenFiles, I: Read + Drop, W: Write, E: Write>(
    alloc: Global,
    arguments: io::Result<Args>,
    files: &mut O,
    input: I,
    out: &mut W,
    err: &mut E,
) -> u8
    ensures bound { result ≤ 3 }
    ensures does { Effects (ServesArguments (O.bytes_at files.old) (I.remaining input) arguments)
        O.openings files.old files.new W.contents out.old out.new result }
{
    let arguments = match arguments {
        Ok(arguments) => arguments,
        Err(error) => return serve_lost_arguments(err, &error),
    };
    let Ok(texts) = arguments.collect::<Vec<String>>(alloc) else {
        return serve_fault(err, &Fault::OutOfMemory);
    };
    serve_texts(alloc, texts.as_slice(), files, input, out, err)
}

/// Prints why the arguments could not be read, and returns the exit status.
fn serve_lost_arguments<E: Write>(err: &mut E, error: &Error) -> u8
    ensures { IsLostStatus (error_kind error.now) result }
{
    if error.kind() == ErrorKind::OutOfMemory {
        return serve_fault(err, &Fault::OutOfMemory);
    }
    serve_usage(err, NOT_UTF8)
}

/// Does what the words ask for, the first of which is the program's name.
pub fn serve_texts<O: OpenFiles, I: Read + Drop, W: Write, E: Write>(
    alloc: Global,
    texts: &[String],
    files: &mut O,
    input: I,
    out: &mut W,
    err: &mut E,
) -> u8
    ensures bound { result ≤ 3 }
    ensures does { Effects
        (ServesTexts texts.now (O.bytes_at files.old) (I.remaining input))
        O.openings files.old files.new W.contents out.old out.new result }
{
    let Ok(words) = words_of(alloc, texts) else {
        return serve_fault(err, &Fault::OutOfMemory);
    };
    match command_of(alloc, words.as_slice()) {
        Ok(command) => serve_command(alloc, &command, files, input, out, err),
        Err(CommandFault::Usage(text)) => serve_usage(err, text.as_str()),
        Err(CommandFault::OutOfMemory) => serve_fault(err, &Fault::OutOfMemory),
    }
}

/// The texts as words, in their order.
fn words_of(alloc: Global, texts: &[String]) -> Result<Vec<&str>, Fault>
    ensures { IfOk result (λ words. map (λ word. word.now) words.items ≡ texts_as_bytes texts.now) }
{
    let mut words = Vec::new(alloc);
    for text in texts {
        words.push(text.as_str())?;
    }
    Ok(words)
}

/// Does what the command says, and returns the exit status.
fn serve_command<O: OpenFiles, I: Read + Drop, W: Write, E: Write>(
    alloc: Global,
    command: &Command,
    files: &mut O,
    input: I,
    out: &mut W,
    err: &mut E,
) -> u8
    ensures bound { result ≤ 3 }
    ensures does { Effects (Does (O.bytes_at files.old) (I.remaining input) command.now)
        O.openings files.old files.new W.contents out.old out.new result }
{
    match *command {
        Command::Run {
            machine,
            trace,
            certify,
        } => serve_end(err, &run_paths(alloc, files, machine, trace, out, certify)),
        Command::Check => serve_check(alloc, input, out, err),
        Command::Version => serve_version(alloc, out, err),
    }
}

/// Opens the machine file and then the trace, and runs it.
fn run_paths<O: OpenFiles, W: Write>(
    alloc: Global,
    files: &mut O,
    machine: &str,
    trace: &str,
    out: &mut W,
    certify: bool,
) -> Result<(), Fault>
    ensures { Effects (RunsPaths (O.bytes_at files.old) certify machine.now trace.now)
        O.openings files.old files.new W.contents out.old out.new result }
{
    let Ok(machine) = files.open(machine) else {
        return Err(Fault::CannotReadMachine);
    };
    let Ok(trace) = files.open(trace) else {
        return Err(Fault::CannotReadTrace);
    };
    run_files(alloc, machine, trace, out, certify)
}
