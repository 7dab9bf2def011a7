//! A run of the program, over any readers and writers.
ghost use Rattle.std.specs.Prelude.{◌≡◌, ◌⊎◌, IfOk, IfErr, IfSome};
ghost use Rattle.program_runs.specs.Serving.{ChecksBlock, IsRead, PrintsVersion, RunsFiles, ServesFiles, fault_status, status_of, usage_status};
ghost use Rattle.text_lines.specs.Printed.{WritesFront};

use boot_core::{Core, PREPARED_PLACEMENTS, Services};
use boot_trace::{MachineFault, RunFault, read_machine};
use certificate_blocks::{BlockFault, check_block};
use command_line::VERSION;
use machine_files::MAX_FILE_LENGTH;
use std::alloc::{AllocError, AllocFailed, Global};
use std::io::{Read, Write};
use text_lines::write_text;
use thiserror::Error;

/// The status of a run that reached the end of its trace.
pub const SUCCESS: u8 = 0;

/// The status of a fault of input or output.
pub const FAULT: u8 = 1;

/// The status of a command line that is refused.
pub const USAGE: u8 = 2;

/// The status of a block that is refused.
pub const REFUSED: u8 = 3;

/// How many bytes are asked of the machine file at a time.
const PIECE: usize = 8192;

/// Why the program stopped.
#[derive(Debug, Drop, Error)]
pub enum Fault {
    #[error("cannot read machine")]
    CannotReadMachine,
    #[error("cannot read trace")]
    CannotReadTrace,
    #[error("out of memory")]
    OutOfMemory,
    #[error(transparent)]
    Machine(#[from] MachineFault),
    #[error(transparent)]
    Run(#[from] RunFault),
    #[error(transparent)]
    Block(#[from] BlockFault),
}

impl From<AllocError> for Fault {
    ghost use Rattle.std.specs.Prelude.{◌≡◌};
    ghost use Rattle.program_runs.specs.declared.serve.Fault.TheVariants.{OutOfMemory};

    ghost from_gives = { λ _ e. e ≡ OutOfMemory };

    fn from(_error: AllocError) -> Fault {
        Fault::OutOfMemory
    }
}

impl<T: Drop> From<AllocFailed<T>> for Fault {
    ghost use Rattle.std.specs.Prelude.{◌≡◌};
    ghost use Rattle.program_runs.specs.declared.serve.Fault.TheVariants.{OutOfMemory};

    ghost from_gives = { λ _ e. e ≡ OutOfMemory };

    fn from(_error: AllocFailed<T>) -> Fault {
        Fault::OutOfMemory
    }
}

/// Runs the trace on the machine, writes the replies to `out` and a fault's line to `err`, and
/// returns the exit status.
pub fn serve_run<M: Read + Drop, T: Read + Drop, W: Write, E: Write>(
    alloc: Global,
    machine: M,
    trace: T,
    out: &mut W,
    err: &mut E,
    certify: bool,
) -> u8
    ensures status { (result ≡ SUCCESS) ⊎ (result ≡ FAULT) }
    ensures run { IfSome (M.remaining machine)
        (λ file. ServesFiles certify file (T.remaining trace) (W.contents out.old)
        (W.contents out.new) result) }
{
    serve_end(err, &run_files(alloc, machine, trace, out, certify))
}

/// Writes the line of a run's fault, if it ended with one, and returns the exit status.
pub fn serve_end<E: Write>(err: &mut E, end: &Result<(), Fault>) -> u8
    ensures { result ≡ status_of end.now }
{
    match end {
        Ok(()) => SUCCESS,
        Err(fault) => serve_fault(err, fault),
    }
}

/// Judges the block, writes `accepted` or `refused` to `out` or a fault's line to `err`, and returns
/// the exit status.
pub fn serve_check<R: Read + Drop, W: Write, E: Write>(
    alloc: Global,
    input: R,
    out: &mut W,
    err: &mut E,
) -> u8
    ensures status { (result ≡ SUCCESS) ⊎ ((result ≡ REFUSED) ⊎ (result ≡ FAULT)) }
    ensures check { ChecksBlock (R.remaining input) (W.contents out.old)
        (W.contents out.new) result }
{
    match check_block(alloc, input, out) {
        Ok(true) => SUCCESS,
        Ok(false) => REFUSED,
        Err(fault) => serve_fault(err, &Fault::Block(fault)),
    }
}

/// Writes the program's name and version to `out`, or a fault's line to `err`, and returns the exit
/// status.
pub fn serve_version<W: Write, E: Write>(alloc: Global, out: &mut W, err: &mut E) -> u8
    ensures { PrintsVersion (W.contents out.old) (W.contents out.new) result }
{
    let Ok(line) = format!(in alloc; "bootcore {VERSION}\n") else {
        return serve_fault(err, &Fault::OutOfMemory);
    };
    let Ok(()) = write_text(out, line.as_bytes()) else {
        return serve_fault(err, &Fault::Run(RunFault::Write));
    };
    SUCCESS
}

/// Writes the line of a fault, and returns its status. That the line could not be written changes
/// nothing.
pub fn serve_fault<E: Write>(err: &mut E, fault: &Fault) -> u8
    ensures { result ≡ fault_status }
{
    let _ = writeln!(err, "bootcore: {fault}");
    FAULT
}

/// Writes the text that says how the program is used, and returns the status.
pub fn serve_usage<E: Write>(err: &mut E, text: &str) -> u8
    ensures status { result ≡ usage_status }
    ensures text { WritesFront (E.contents err.old) text.now (E.contents err.new) }
{
    let _ = write_text(err, text.as_bytes());
    USAGE
}

/// Judges the machine file, and then runs the trace.
pub fn run_files<M: Read + Drop, T: Read + Drop, W: Write>(
    alloc: Global,
    machine: M,
    trace: T,
    out: &mut W,
    certify: bool,
) -> Result<(), Fault>
    ensures { IfSome (M.remaining machine)
        (λ file. RunsFiles certify file (T.remaining trace) (W.contents out.old)
        (W.contents out.new) result) }
{
    let bytes = match read_whole(alloc, machine) {
        Ok(bytes) => bytes,
        Err(fault) => return Err(fault),
    };
    let file = match read_machine(alloc, bytes.as_slice()) {
        Ok(file) => file,
        Err(fault) => return Err(Fault::Machine(fault)),
    };
    let Ok(mut services) = Services::new(alloc, file.machine, file.drivers) else {
        return Err(Fault::OutOfMemory);
    };
    services.certify(certify);
    let Ok(()) = services.prepare(PREPARED_PLACEMENTS) else {
        return Err(Fault::OutOfMemory);
    };
    let mut core = Core { services };
    match boot_trace::run(alloc, &mut core, trace, out, certify) {
        Ok(()) => Ok(()),
        Err(fault) => Err(Fault::Run(fault)),
    }
}

/// The bytes of a machine file. Of one that is too long, reading stops past the most that it may have.
fn read_whole<M: Read + Drop>(alloc: Global, mut machine: M) -> Result<Vec<u8>, Fault>
    ensures ok { IfOk result
        (λ bytes. IfSome (M.remaining machine) (λ file. IsRead file bytes.items)) }
    ensures err { IfErr result (λ fault. (fault ≡ Fault.CannotReadMachine)
        ⊎ (fault ≡ Fault.OutOfMemory)) }
{
    let mut bytes = Vec::new(alloc);
    let mut piece = [0u8; PIECE];
    while bytes.len() <= MAX_FILE_LENGTH {
        match machine.read(&mut piece) {
            Ok(0) => return Ok(bytes),
            Ok(taken) => {
                if bytes.extend_from_slice(&piece[..taken]).is_err() {
                    return Err(Fault::OutOfMemory);
                }
            }
            Err(_) => return Err(Fault::CannotReadMachine),
        }
    }
    Ok(bytes)
}
