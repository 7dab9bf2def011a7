//! What a line asks for.
ghost use Rattle.std.specs.Prelude.{◌≡◌, [], ◌∷◌, map};
ghost use Rattle.trace_lines.specs.Parameters.{ReadsAs};
ghost use Rattle.trace_lines.specs.TraceLine.{call_of, call_of_words, line_of};

use crate::faults::TraceFault;
use crate::parameters::{read_bytes, read_u32, read_u64, read_u64_up_to};
use crate::protocols;
use boot_calls::Call;
use std::alloc::{Allocator, Global};
use text_lines::{MAX_LINE_LENGTH, without_carriage_return, words_of};
use trace_verbs::{Verb, verb_named};

/// The most bytes of a buffer for the memory map.
pub const MAX_BUFFER_SIZE: u64 = 16_777_216;

/// The most bytes of the pool that one line reads.
pub const MAX_READ_SIZE: u64 = 65_536;

/// What a trace line asks for.
#[derive(Drop)]
pub enum TraceCall<A: Allocator = Global> {
    /// To print the memory map, which is no call.
    List,
    Service(Call<A>),
}

/// What a line asks for, without its line feed: None for a line that is skipped.
pub fn read_call<A: Allocator + Copy>(
    alloc: A,
    line: &[u8],
) -> Result<Option<TraceCall<A>>, TraceFault>
    ensures { ReadsAs result (line_of line.now) }
{
    if line.len() > MAX_LINE_LENGTH {
        return Err(TraceFault::Long);
    }
    let words = words_of(alloc, without_carriage_return(line))?;
    read_words(alloc, words.as_slice())
}

/// What the words of a line ask for.
fn read_words<A: Allocator + Copy>(
    alloc: A,
    words: &[&[u8]],
) -> Result<Option<TraceCall<A>>, TraceFault>
    ensures { ReadsAs result (call_of_words (map (λ word. word.now) words.now)) }
{
    let [name, parameters @ ..] = words else {
        return Ok(None);
    };
    if name.starts_with(b"#") {
        return Ok(None);
    }
    let verb = verb_named(name).ok_or(TraceFault::Verb)?;
    Ok(Some(read_verb(alloc, verb, parameters)?))
}

/// What a verb asks for with its parameters.
fn read_verb<A: Allocator + Copy>(
    alloc: A,
    verb: Verb,
    parameters: &[&[u8]],
) -> Result<TraceCall<A>, TraceFault>
    ensures { ReadsAs result (call_of verb (map (λ word. word.now) parameters.now)) }
{
    match verb {
        Verb::Pages => read_pages(parameters),
        Verb::FreePages => read_free_pages(parameters),
        Verb::Map => read_map(parameters),
        Verb::Pool => read_pool(parameters),
        Verb::FreePool => read_free_pool(parameters),
        Verb::Read => read_pool_read(parameters),
        Verb::Write => read_pool_write(alloc, parameters),
        Verb::Install => protocols::read_install(parameters),
        Verb::InstallMany => protocols::read_install_many(alloc, parameters),
        Verb::Uninstall => protocols::read_uninstall(parameters),
        Verb::Reinstall => protocols::read_reinstall(parameters),
        Verb::Open => protocols::read_open(parameters),
        Verb::Close => protocols::read_close(parameters),
        Verb::Information => protocols::read_information(parameters),
        Verb::HandleProtocol => protocols::read_handle_protocol(parameters),
        Verb::Notify => protocols::read_notify(parameters),
        Verb::Locate => protocols::read_locate(parameters),
        Verb::LocateBuffer => protocols::read_locate_buffer(parameters),
        Verb::LocateProtocol => protocols::read_locate_protocol(parameters),
        Verb::Protocols => protocols::read_protocols(parameters),
        Verb::Connect => protocols::read_connect(alloc, parameters),
        Verb::Disconnect => protocols::read_disconnect(parameters),
        Verb::Path => protocols::read_path(parameters),
        Verb::Exit => read_exit(parameters),
        Verb::List => read_list(parameters),
    }
}

/// What `pages` asks for.
fn read_pages<A: Allocator>(parameters: &[&[u8]]) -> Result<TraceCall<A>, TraceFault>
    ensures { result ≡ call_of Verb.Pages (map (λ word. word.now) parameters.now) }
{
    let [kind, mtype, pages, memory] = parameters else {
        return Err(TraceFault::Words);
    };
    Ok(TraceCall::Service(Call::AllocatePages {
        kind: read_u32(kind)?,
        mtype: read_u32(mtype)?,
        pages: read_u64(pages)?,
        memory: read_u64(memory)?,
    }))
}

/// What `free-pages` asks for.
fn read_free_pages<A: Allocator>(parameters: &[&[u8]]) -> Result<TraceCall<A>, TraceFault>
    ensures { result ≡ call_of Verb.FreePages (map (λ word. word.now) parameters.now) }
{
    let [memory, pages] = parameters else {
        return Err(TraceFault::Words);
    };
    Ok(TraceCall::Service(Call::FreePages {
        memory: read_u64(memory)?,
        pages: read_u64(pages)?,
    }))
}

/// What `map` asks for.
fn read_map<A: Allocator>(parameters: &[&[u8]]) -> Result<TraceCall<A>, TraceFault>
    ensures { result ≡ call_of Verb.Map (map (λ word. word.now) parameters.now) }
{
    let [size] = parameters else {
        return Err(TraceFault::Words);
    };
    Ok(TraceCall::Service(Call::GetMemoryMap {
        size: read_u64_up_to(MAX_BUFFER_SIZE, size)?,
    }))
}

/// What `pool` asks for.
fn read_pool<A: Allocator>(parameters: &[&[u8]]) -> Result<TraceCall<A>, TraceFault>
    ensures { result ≡ call_of Verb.Pool (map (λ word. word.now) parameters.now) }
{
    let [mtype, size] = parameters else {
        return Err(TraceFault::Words);
    };
    Ok(TraceCall::Service(Call::AllocatePool {
        mtype: read_u32(mtype)?,
        size: read_u64(size)?,
    }))
}

/// What `free-pool` asks for.
fn read_free_pool<A: Allocator>(parameters: &[&[u8]]) -> Result<TraceCall<A>, TraceFault>
    ensures { result ≡ call_of Verb.FreePool (map (λ word. word.now) parameters.now) }
{
    let [address] = parameters else {
        return Err(TraceFault::Words);
    };
    Ok(TraceCall::Service(Call::FreePool {
        address: read_u64(address)?,
    }))
}

/// What `read` asks for.
fn read_pool_read<A: Allocator>(parameters: &[&[u8]]) -> Result<TraceCall<A>, TraceFault>
    ensures { result ≡ call_of Verb.Read (map (λ word. word.now) parameters.now) }
{
    let [address, count] = parameters else {
        return Err(TraceFault::Words);
    };
    Ok(TraceCall::Service(Call::PoolRead {
        address: read_u64(address)?,
        size: read_u64_up_to(MAX_READ_SIZE, count)?,
    }))
}

/// What `write` asks for.
fn read_pool_write<A: Allocator>(alloc: A, parameters: &[&[u8]]) -> Result<TraceCall<A>, TraceFault>
    ensures { ReadsAs result (call_of Verb.Write (map (λ word. word.now) parameters.now)) }
{
    let [address, bytes] = parameters else {
        return Err(TraceFault::Words);
    };
    Ok(TraceCall::Service(Call::PoolWrite {
        address: read_u64(address)?,
        bytes: read_bytes(alloc, bytes)?,
    }))
}

/// What `exit` asks for.
fn read_exit<A: Allocator>(parameters: &[&[u8]]) -> Result<TraceCall<A>, TraceFault>
    ensures { result ≡ call_of Verb.Exit (map (λ word. word.now) parameters.now) }
{
    let [key] = parameters else {
        return Err(TraceFault::Words);
    };
    Ok(TraceCall::Service(Call::ExitBootServices {
        key: read_u64(key)?,
    }))
}

/// What `list` asks for.
fn read_list<A: Allocator>(parameters: &[&[u8]]) -> Result<TraceCall<A>, TraceFault>
    ensures { result ≡ call_of Verb.List (map (λ word. word.now) parameters.now) }
{
    if parameters.is_empty() {
        Ok(TraceCall::List)
    } else {
        Err(TraceFault::Words)
    }
}
