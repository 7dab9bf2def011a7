//! Commands, by the words of a command line.
ghost use Rattle.std.specs.Prelude.{◌≡◌, ◌≢◌, false, IfErr, IfOk, codes, map, string_bytes};
ghost use Rattle.clap.specs.Words.{app_of, found_of, kind_of, rows_of, rule_of, subcommand_rows_of};
ghost use Rattle.clap.specs.declared.builder.command.Command.TheViews.{out-Command as fields_of};
ghost use Rattle.command_line.specs.Words.{file_option, flag, machine_words, file_words, run_words, program_words, HasReason, IsNamed, IsNone, IsFoundCommand, IsCommandOf, IsRefusedBy};

use clap::error::ErrorKind;
use clap::{Arg, ArgAction, ArgMatches};
use std::alloc::{AllocError, Global};
use thiserror::Error;

/// The version of the program, and of the library.
pub const VERSION: &str = "0.1.0";

/// What the program is to do.
#[derive(Clone, Copy, Debug, PartialEq, Eq)]
pub enum Command<'a> {
    /// To run a trace on a machine. Both files by their paths.
    Run {
        machine: &'a str,
        trace: &'a str,
        certify: bool,
    },
    /// To check the certificate block on standard input.
    Check,
    /// To print the program's version.
    Version,
}

/// Why the words are no command.
#[derive(Debug, Drop, Error)]
pub enum CommandFault {
    /// What is wrong with the words, or the help that they ask for, as text of several lines.
    #[error("{0}")]
    Usage(String),
    #[error("out of memory")]
    OutOfMemory,
}

impl From<AllocError> for CommandFault {
    ghost use Rattle.std.specs.Prelude.{◌≡◌};
    ghost use Rattle.command_line.specs.declared.commands.CommandFault.TheVariants.{OutOfMemory};

    ghost from_gives = { λ _ e. e ≡ OutOfMemory };

    fn from(_error: AllocError) -> CommandFault {
        CommandFault::OutOfMemory
    }
}

/// The command of the words, the first of which is the program's name.
pub fn command_of<'a>(alloc: Global, words: &'a [&'a str]) -> Result<Command<'a>, CommandFault>
    ensures ok { IfOk result (IsCommandOf (map (λ word. word.now) words.entry.now)) }
    ensures err { IfErr result (IsRefusedBy (map (λ word. word.now) words.entry.now)) }
{
    let program = program(alloc)?;
    match program.try_get_matches_from(words) {
        Ok(matches) => command_in(alloc, &matches),
        Err(error) => command_for(alloc, &error),
    }
}

/// The command that was found in the words.
fn command_in<'a>(alloc: Global, matches: &ArgMatches<'a>) -> Result<Command<'a>, CommandFault>
    ensures ok { IfOk result (IsFoundCommand (subcommand_rows_of matches.now)) }
    ensures err { IfErr result
        (HasReason (IsNone (IsFoundCommand (subcommand_rows_of matches.now)))) }
{
    if let Some(options) = matches.subcommand_matches("run") {
        return run_in(alloc, options);
    }
    match matches.subcommand_matches("check") {
        Some(_) => Ok(Command::Check),
        None => Err(usage(alloc, "no command")),
    }
}

/// A trace's run, by its options.
fn run_in<'a>(alloc: Global, options: &ArgMatches<'a>) -> Result<Command<'a>, CommandFault>
    ensures ok { IfOk result (IsNamed (codes "run") (rows_of (found_of options.now))) }
    ensures err { IfErr result
        (HasReason (IsNone (IsNamed (codes "run") (rows_of (found_of options.now))))) }
{
    let certify = options.get_one::<bool>("certify").unwrap_or(false);
    match (options.get_str("machine"), options.get_str("trace")) {
        (Some(machine), Some(trace)) => Ok(Command::Run {
            machine,
            trace,
            certify,
        }),
        _ => Err(usage(alloc, "a file is missing")),
    }
}

/// The words that the program understands.
fn program<'a>(alloc: Global) -> Result<clap::Command<'a>, AllocError>
    ensures { IfOk result (λ program. app_of program ≡ program_words) }
{
    let run = run_words(alloc)?;
    let check = clap::Command::new(alloc, "check").about(
        "Judges the certificate block on standard input",
    );
    clap::Command::new(alloc, "bootcore")
        .version(VERSION)
        .about("The memory and protocol services that firmware boots by")
        .subcommand_required(true)
        .subcommand(run)?
        .subcommand(check)
}

/// The words of `run`.
fn run_words<'a>(alloc: Global) -> Result<clap::Command<'a>, AllocError>
    ensures words { IfOk result (λ run. app_of run ≡ run_words) }
    ensures local { IfOk result (λ run. (fields_of run).has_globals ≡ false) }
{
    let files = file_words(alloc)?;
    files.arg(certify_flag(alloc))
}

/// The words of `run` up to its files.
fn file_words<'a>(alloc: Global) -> Result<clap::Command<'a>, AllocError>
    ensures words { IfOk result (λ run. app_of run ≡ file_words) }
    ensures local { IfOk result (λ run. (fields_of run).has_globals ≡ false) }
{
    let machine = machine_words(alloc)?;
    machine.arg(file_option(alloc, "trace", "The calls, one a line"))
}

/// The words of `run` up to its machine file.
fn machine_words<'a>(alloc: Global) -> Result<clap::Command<'a>, AllocError>
    ensures words { IfOk result (λ run. app_of run ≡ machine_words) }
    ensures local { IfOk result (λ run. (fields_of run).has_globals ≡ false) }
{
    let run = clap::Command::new(alloc, "run").about(
        "Runs a trace on a machine, and prints the replies",
    );
    run.arg(file_option(alloc, "machine", "The machine's memory, as JSON"))
}

/// The option that asks for certificates.
fn certify_flag<'a>(alloc: Global) -> Arg<'a>
    ensures rule { rule_of result ≡ flag (codes "certify") }
    ensures local { result.global ≡ false }
{
    Arg::new(alloc, "certify")
        .long("certify")
        .help("Print the certificate of each placement")
        .action(ArgAction::SetTrue)
}

/// An option that must be given, with a file.
fn file_option<'a>(alloc: Global, name: &'a str, help: &'a str) -> Arg<'a>
    ensures rule { rule_of result ≡ file_option name.entry.now }
    ensures local { result.global ≡ false }
{
    Arg::new(alloc, name)
        .long(name)
        .value_name("FILE")
        .help(help)
        .required(true)
        .action(ArgAction::Set)
}

/// The command that an error of `clap` asks for, or else its fault.
fn command_for<'a>(alloc: Global, error: &clap::Error) -> Result<Command<'a>, CommandFault>
    ensures ok { IfOk result
        (λ command. (kind_of error.now ≡ ErrorKind.DisplayVersion) × (command ≡ Command.Version)) }
    ensures err { IfErr result (λ fault. (kind_of error.now ≢ ErrorKind.DisplayVersion)
        × HasReason (kind_of error.now ≢ ErrorKind.OutOfMemory) fault) }
{
    if error.kind() == ErrorKind::DisplayVersion {
        return Ok(Command::Version);
    }
    Err(fault_of(alloc, error))
}

/// The fault of an error of `clap`.
fn fault_of(alloc: Global, error: &clap::Error) -> CommandFault
    ensures { HasReason (kind_of error.now ≢ ErrorKind.OutOfMemory) result }
{
    if error.kind() == ErrorKind::OutOfMemory {
        return CommandFault::OutOfMemory;
    }
    match error.to_string(alloc) {
        Ok(text) => CommandFault::Usage(text),
        Err(_) => CommandFault::OutOfMemory,
    }
}

/// A fault of the words with this text.
fn usage(alloc: Global, text: &str) -> CommandFault
    ensures { (said : _) → result ≡ CommandFault.Usage said → string_bytes said ≡ text.now }
{
    match String::from_str(alloc, text) {
        Ok(text) => CommandFault::Usage(text),
        Err(_) => CommandFault::OutOfMemory,
    }
}
