//! What the verbs of the protocol services ask for.
ghost use Rattle.std.specs.Prelude.{◌≡◌, [], ◌∷◌, map};
ghost use Rattle.trace_lines.specs.Parameters.{ReadsAs};
ghost use Rattle.trace_lines.specs.TraceLine.{call_of};

use crate::faults::TraceFault;
use crate::lines::TraceCall;
use crate::parameters::{read_flag, read_guid, read_handles, read_pairs, read_u32, read_u64};
use boot_calls::Call;
use std::alloc::Allocator;
use trace_verbs::Verb;

/// What `install` asks for.
pub fn read_install<A: Allocator>(parameters: &[&[u8]]) -> Result<TraceCall<A>, TraceFault>
    ensures { result ≡ call_of Verb.Install (map (λ word. word.now) parameters.now) }
{
    let [handle, guid, kind, value] = parameters else {
        return Err(TraceFault::Words);
    };
    Ok(TraceCall::Service(Call::InstallProtocolInterface {
        handle: read_u64(handle)?,
        guid: read_guid(guid)?,
        kind: read_u32(kind)?,
        value: read_u64(value)?,
    }))
}

/// What `install-many` asks for: pairs of a GUID and a value, one at least.
pub fn read_install_many<A: Allocator + Copy>(
    alloc: A,
    parameters: &[&[u8]],
) -> Result<TraceCall<A>, TraceFault>
    ensures { ReadsAs result (call_of Verb.InstallMany (map (λ word. word.now) parameters.now)) }
{
    let [handle, words @ ..] = parameters else {
        return Err(TraceFault::Words);
    };
    if words.is_empty() || words.len() % 2 != 0 {
        return Err(TraceFault::Words);
    }
    Ok(TraceCall::Service(Call::InstallMultipleProtocolInterfaces {
        handle: read_u64(handle)?,
        pairs: read_pairs(alloc, words)?,
    }))
}

/// What `uninstall` asks for.
pub fn read_uninstall<A: Allocator>(parameters: &[&[u8]]) -> Result<TraceCall<A>, TraceFault>
    ensures { result ≡ call_of Verb.Uninstall (map (λ word. word.now) parameters.now) }
{
    let [handle, guid, value] = parameters else {
        return Err(TraceFault::Words);
    };
    Ok(TraceCall::Service(Call::UninstallProtocolInterface {
        handle: read_u64(handle)?,
        guid: read_guid(guid)?,
        value: read_u64(value)?,
    }))
}

/// What `reinstall` asks for.
pub fn read_reinstall<A: Allocator>(parameters: &[&[u8]]) -> Result<TraceCall<A>, TraceFault>
    ensures { result ≡ call_of Verb.Reinstall (map (λ word. word.now) parameters.now) }
{
    let [handle, guid, old_value, new_value] = parameters else {
        return Err(TraceFault::Words);
    };
    Ok(TraceCall::Service(Call::ReinstallProtocolInterface {
        handle: read_u64(handle)?,
        guid: read_guid(guid)?,
        old_value: read_u64(old_value)?,
        new_value: read_u64(new_value)?,
    }))
}

/// What `open` asks for.
pub fn read_open<A: Allocator>(parameters: &[&[u8]]) -> Result<TraceCall<A>, TraceFault>
    ensures { result ≡ call_of Verb.Open (map (λ word. word.now) parameters.now) }
{
    let [handle, guid, agent, controller, attributes] = parameters else {
        return Err(TraceFault::Words);
    };
    Ok(TraceCall::Service(Call::OpenProtocol {
        handle: read_u64(handle)?,
        guid: read_guid(guid)?,
        agent: read_u64(agent)?,
        controller: read_u64(controller)?,
        attributes: read_u32(attributes)?,
    }))
}

/// What `close` asks for.
pub fn read_close<A: Allocator>(parameters: &[&[u8]]) -> Result<TraceCall<A>, TraceFault>
    ensures { result ≡ call_of Verb.Close (map (λ word. word.now) parameters.now) }
{
    let [handle, guid, agent, controller] = parameters else {
        return Err(TraceFault::Words);
    };
    Ok(TraceCall::Service(Call::CloseProtocol {
        handle: read_u64(handle)?,
        guid: read_guid(guid)?,
        agent: read_u64(agent)?,
        controller: read_u64(controller)?,
    }))
}

/// What `information` asks for.
pub fn read_information<A: Allocator>(parameters: &[&[u8]]) -> Result<TraceCall<A>, TraceFault>
    ensures { result ≡ call_of Verb.Information (map (λ word. word.now) parameters.now) }
{
    let [handle, guid] = parameters else {
        return Err(TraceFault::Words);
    };
    Ok(TraceCall::Service(Call::OpenProtocolInformation {
        handle: read_u64(handle)?,
        guid: read_guid(guid)?,
    }))
}

/// What `handle-protocol` asks for.
pub fn read_handle_protocol<A: Allocator>(parameters: &[&[u8]]) -> Result<TraceCall<A>, TraceFault>
    ensures { result ≡ call_of Verb.HandleProtocol (map (λ word. word.now) parameters.now) }
{
    let [handle, guid] = parameters else {
        return Err(TraceFault::Words);
    };
    Ok(TraceCall::Service(Call::HandleProtocol {
        handle: read_u64(handle)?,
        guid: read_guid(guid)?,
    }))
}

/// What `notify` asks for.
pub fn read_notify<A: Allocator>(parameters: &[&[u8]]) -> Result<TraceCall<A>, TraceFault>
    ensures { result ≡ call_of Verb.Notify (map (λ word. word.now) parameters.now) }
{
    let [guid, event] = parameters else {
        return Err(TraceFault::Words);
    };
    Ok(TraceCall::Service(Call::RegisterProtocolNotify {
        guid: read_guid(guid)?,
        event: read_u64(event)?,
    }))
}

/// What `locate` asks for.
pub fn read_locate<A: Allocator>(parameters: &[&[u8]]) -> Result<TraceCall<A>, TraceFault>
    ensures { result ≡ call_of Verb.Locate (map (λ word. word.now) parameters.now) }
{
    let [search, guid, key, size] = parameters else {
        return Err(TraceFault::Words);
    };
    Ok(TraceCall::Service(Call::LocateHandle {
        search: read_u32(search)?,
        guid: read_guid(guid)?,
        key: read_u64(key)?,
        size: read_u64(size)?,
    }))
}

/// What `locate-buffer` asks for.
pub fn read_locate_buffer<A: Allocator>(parameters: &[&[u8]]) -> Result<TraceCall<A>, TraceFault>
    ensures { result ≡ call_of Verb.LocateBuffer (map (λ word. word.now) parameters.now) }
{
    let [search, guid, key] = parameters else {
        return Err(TraceFault::Words);
    };
    Ok(TraceCall::Service(Call::LocateHandleBuffer {
        search: read_u32(search)?,
        guid: read_guid(guid)?,
        key: read_u64(key)?,
    }))
}

/// What `locate-protocol` asks for.
pub fn read_locate_protocol<A: Allocator>(parameters: &[&[u8]]) -> Result<TraceCall<A>, TraceFault>
    ensures { result ≡ call_of Verb.LocateProtocol (map (λ word. word.now) parameters.now) }
{
    let [guid, key] = parameters else {
        return Err(TraceFault::Words);
    };
    Ok(TraceCall::Service(Call::LocateProtocol {
        guid: read_guid(guid)?,
        key: read_u64(key)?,
    }))
}

/// What `protocols` asks for.
pub fn read_protocols<A: Allocator>(parameters: &[&[u8]]) -> Result<TraceCall<A>, TraceFault>
    ensures { result ≡ call_of Verb.Protocols (map (λ word. word.now) parameters.now) }
{
    let [handle] = parameters else {
        return Err(TraceFault::Words);
    };
    Ok(TraceCall::Service(Call::ProtocolsPerHandle {
        handle: read_u64(handle)?,
    }))
}

/// What `connect` asks for: the drivers of the caller, any number of them, in their order.
pub fn read_connect<A: Allocator + Copy>(
    alloc: A,
    parameters: &[&[u8]],
) -> Result<TraceCall<A>, TraceFault>
    ensures { ReadsAs result (call_of Verb.Connect (map (λ word. word.now) parameters.now)) }
{
    let [handle, recursive, drivers @ ..] = parameters else {
        return Err(TraceFault::Words);
    };
    Ok(TraceCall::Service(Call::ConnectController {
        handle: read_u64(handle)?,
        recursive: read_flag(recursive)?,
        drivers: read_handles(alloc, drivers)?,
    }))
}

/// What `disconnect` asks for.
pub fn read_disconnect<A: Allocator>(parameters: &[&[u8]]) -> Result<TraceCall<A>, TraceFault>
    ensures { result ≡ call_of Verb.Disconnect (map (λ word. word.now) parameters.now) }
{
    let [handle, driver] = parameters else {
        return Err(TraceFault::Words);
    };
    Ok(TraceCall::Service(Call::DisconnectController {
        handle: read_u64(handle)?,
        driver: read_u64(driver)?,
    }))
}

/// What `path` asks for.
pub fn read_path<A: Allocator>(parameters: &[&[u8]]) -> Result<TraceCall<A>, TraceFault>
    ensures { result ≡ call_of Verb.Path (map (λ word. word.now) parameters.now) }
{
    let [guid, address] = parameters else {
        return Err(TraceFault::Words);
    };
    Ok(TraceCall::Service(Call::LocateDevicePath {
        guid: read_guid(guid)?,
        address: read_u64(address)?,
    }))
}
