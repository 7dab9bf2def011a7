//! The lines of calls.
ghost use Rattle.std.specs.Prelude.{◌≡◌, ◌∷◌, ◌++◌, OnOk};
ghost use Rattle.std.specs.Fmt.{decimal};
ghost use Rattle.text_lines.specs.Printed.{Gains};
ghost use Rattle.trace_verbs.specs.Verbs.{verb_name};
ghost use Rattle.trace_verbs.specs.declared.verbs.Verb.TheVariants as verb;
ghost use Rattle.call_texts.specs.CallText.{call_line, call_text, pair_words, spaced};

use crate::words::{Word, print_bytes, print_numbers, print_pairs, print_start};
use boot_calls::Call;
use std::alloc::{AllocError, Allocator};
use trace_verbs::Verb;
use uuid::Uuid;

/// Appends the line of a call, with its line feed.
pub fn print_call<A: Allocator + Copy>(
    alloc: A,
    text: &mut String<A>,
    call: &Call<A>,
) -> Result<(), AllocError>
    ensures { OnOk result (Gains text.old text.new (call_text call.now)) }
{
    print_line(alloc, text, call)?;
    writeln!(text)
}

/// Appends the line of a call, without its line feed.
fn print_line<A: Allocator + Copy>(
    alloc: A,
    text: &mut String<A>,
    call: &Call<A>,
) -> Result<(), AllocError>
    ensures { OnOk result (Gains text.old text.new (call_line call.now)) }
{
    use Word::{Address, Flag, Guid, Number};

    match call {
        Call::AllocatePages {
            kind,
            mtype,
            pages,
            memory,
        } => {
            let words = [
                Number(u64::from(*kind)),
                Number(u64::from(*mtype)),
                Number(*pages),
                Address(*memory),
            ];
            print_start(text, Verb::Pages, &words)
        }
        Call::FreePages { memory, pages } => {
            print_start(text, Verb::FreePages, &[Address(*memory), Number(*pages)])
        }
        Call::GetMemoryMap { size } => print_start(text, Verb::Map, &[Number(*size)]),
        Call::AllocatePool { mtype, size } => {
            let words = [Number(u64::from(*mtype)), Number(*size)];
            print_start(text, Verb::Pool, &words)
        }
        Call::FreePool { address } => print_start(text, Verb::FreePool, &[Address(*address)]),
        Call::PoolRead { address, size } => {
            print_start(text, Verb::Read, &[Address(*address), Number(*size)])
        }
        Call::PoolWrite { address, bytes } => {
            print_start(text, Verb::Write, &[Address(*address)])?;
            print_bytes(alloc, text, bytes.as_slice())
        }
        Call::InstallProtocolInterface {
            handle,
            guid,
            kind,
            value,
        } => {
            let words = [
                Number(*handle),
                Guid(*guid),
                Number(u64::from(*kind)),
                Address(*value),
            ];
            print_start(text, Verb::Install, &words)
        }
        Call::InstallMultipleProtocolInterfaces { handle, pairs } => {
            print_install_many(text, *handle, pairs.as_slice())
        }
        Call::UninstallProtocolInterface {
            handle,
            guid,
            value,
        } => {
            let words = [Number(*handle), Guid(*guid), Address(*value)];
            print_start(text, Verb::Uninstall, &words)
        }
        Call::ReinstallProtocolInterface {
            handle,
            guid,
            old_value,
            new_value,
        } => {
            let words = [
                Number(*handle),
                Guid(*guid),
                Address(*old_value),
                Address(*new_value),
            ];
            print_start(text, Verb::Reinstall, &words)
        }
        Call::RegisterProtocolNotify { guid, event } => {
            print_start(text, Verb::Notify, &[Guid(*guid), Number(*event)])
        }
        Call::LocateHandle {
            search,
            guid,
            key,
            size,
        } => {
            let words = [
                Number(u64::from(*search)),
                Guid(*guid),
                Number(*key),
                Number(*size),
            ];
            print_start(text, Verb::Locate, &words)
        }
        Call::LocateHandleBuffer { search, guid, key } => {
            let words = [Number(u64::from(*search)), Guid(*guid), Number(*key)];
            print_start(text, Verb::LocateBuffer, &words)
        }
        Call::LocateProtocol { guid, key } => {
            print_start(text, Verb::LocateProtocol, &[Guid(*guid), Number(*key)])
        }
        Call::ProtocolsPerHandle { handle } => {
            print_start(text, Verb::Protocols, &[Number(*handle)])
        }
        Call::OpenProtocol {
            handle,
            guid,
            agent,
            controller,
            attributes,
        } => {
            let words = [
                Number(*handle),
                Guid(*guid),
                Number(*agent),
                Number(*controller),
                Number(u64::from(*attributes)),
            ];
            print_start(text, Verb::Open, &words)
        }
        Call::CloseProtocol {
            handle,
            guid,
            agent,
            controller,
        } => {
            let words = [
                Number(*handle),
                Guid(*guid),
                Number(*agent),
                Number(*controller),
            ];
            print_start(text, Verb::Close, &words)
        }
        Call::OpenProtocolInformation { handle, guid } => {
            print_start(text, Verb::Information, &[Number(*handle), Guid(*guid)])
        }
        Call::HandleProtocol { handle, guid } => {
            print_start(text, Verb::HandleProtocol, &[Number(*handle), Guid(*guid)])
        }
        Call::ConnectController {
            handle,
            drivers,
            recursive,
        } => {
            print_start(text, Verb::Connect, &[Number(*handle), Flag(*recursive)])?;
            print_numbers(text, drivers.as_slice())
        }
        Call::DisconnectController { handle, driver } => {
            print_start(text, Verb::Disconnect, &[Number(*handle), Number(*driver)])
        }
        Call::LocateDevicePath { guid, address } => {
            print_start(text, Verb::Path, &[Guid(*guid), Address(*address)])
        }
        Call::ExitBootServices { key } => print_start(text, Verb::Exit, &[Number(*key)]),
    }
}

/// Appends the line of a call that installs several interfaces, without its line feed.
fn print_install_many<A: Allocator>(
    text: &mut String<A>,
    handle: u64,
    pairs: &[(Uuid, u64)],
) -> Result<(), AllocError>
    ensures { OnOk result (Gains text.old text.new
        (verb_name verb.InstallMany ++ spaced (decimal handle ∷ pair_words pairs.now))) }
{
    print_start(text, Verb::InstallMany, &[Word::Number(handle)])?;
    print_pairs(text, pairs)
}
