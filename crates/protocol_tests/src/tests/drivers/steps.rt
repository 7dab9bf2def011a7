//! Calls on lists, and what is asserted of them, as tables.
use super::guid;
use driver_connect::{Driver, connect, disconnect};
use guid_handles::{Handles, Pair};
use open_agents::Opens;
use page_ranges::Status;
use protocol_notify::Notify;
use std::alloc::Global;
use std::process::Abort;

/// A call, or a look at the lists. GUIDs are written as bytes.
pub enum Step {
    /// A handle or 0, interfaces as pairs of GUID and value, and the handle that carries them then.
    Install(u64, &'static [(u8, u64)], u64),
    /// A handle, a GUID, an agent and a controller: the first open item, of a driver.
    Open(u64, u8, u64, u64),
    /// A handle, the drivers named, whether the handles that are made are connected too, and the
    /// status. No event is signaled.
    Connect(u64, &'static [u64], bool, Status),
    /// A handle, a driver or 0, and the status.
    Disconnect(u64, u64, Status),
    /// A handle, and what manages it.
    Managers(u64, &'static [Pair]),
}

/// The lists that drivers are tried on.
#[derive(Drop)]
struct Lists {
    handles: Handles,
    opens: Opens,
    notify: Notify,
}

/// Installs interfaces on a handle, and returns it.
fn install(rt: &impl Abort, handles: &mut Handles, handle: u64, pairs: &[(u8, u64)]) -> u64 {
    let mut number = handle;
    for (byte, value) in pairs {
        number = install_one(rt, handles, number, *byte, *value);
    }
    number
}

fn install_one(rt: &impl Abort, handles: &mut Handles, handle: u64, byte: u8, value: u64) -> u64 {
    if handles.last_number() >= 5000 || handles.last_stamp() >= 50_000 {
        panic!(rt; "more handles than the tests have");
    }
    match handles.install(handle, guid(byte), 0, value) {
        Ok(number) => number,
        Err(_) => panic!(rt; "an interface is refused"),
    }
}

/// Connects a handle, and returns the status.
fn connect_one<D: Driver>(
    rt: &impl Abort,
    alloc: Global,
    lists: &mut Lists,
    drivers: &[D],
    handle: u64,
    named: &[u64],
    recursive: bool,
) -> Status {
    if lists.handles.last_number() >= 5000 || lists.handles.last_stamp() >= 50_000 {
        panic!(rt; "more handles than the tests have");
    }
    match connect(
        alloc,
        &mut lists.handles,
        &mut lists.opens,
        &lists.notify,
        drivers,
        handle,
        named,
        recursive,
    ) {
        Ok(events) if events.is_empty() => Status::Success,
        Ok(_) => panic!(rt; "an event"),
        Err(status) => status,
    }
}

fn disconnect_one<D: Driver>(
    alloc: Global,
    lists: &mut Lists,
    drivers: &[D],
    handle: u64,
    driver: u64,
) -> Status {
    match disconnect(
        alloc,
        &mut lists.handles,
        &mut lists.opens,
        drivers,
        handle,
        driver,
    ) {
        Ok(()) => Status::Success,
        Err(status) => status,
    }
}

/// Whether a handle has these managers.
fn are_managers(opens: &Opens, handle: u64, wanted: &[Pair]) -> bool {
    match opens.managers(handle) {
        Ok(managers) => managers.as_slice() == wanted,
        Err(_) => false,
    }
}

/// Makes a call, or looks at the lists, and returns whether it is as the step says.
fn is_as_said<D: Driver>(
    rt: &impl Abort,
    alloc: Global,
    lists: &mut Lists,
    drivers: &[D],
    step: &Step,
) -> bool {
    match step {
        Step::Install(handle, pairs, number) => {
            install(rt, &mut lists.handles, *handle, pairs) == *number
        }
        Step::Open(handle, byte, agent, controller) => {
            let opens = &mut lists.opens;
            opens
                .add(*handle, guid(*byte), *agent, *controller, 0x10)
                .is_ok()
        }
        Step::Connect(handle, named, recursive, status) => {
            connect_one(rt, alloc, lists, drivers, *handle, named, *recursive) == *status
        }
        Step::Disconnect(handle, driver, status) => {
            disconnect_one(alloc, lists, drivers, *handle, *driver) == *status
        }
        Step::Managers(handle, wanted) => are_managers(&lists.opens, *handle, wanted),
    }
}

/// Makes calls on lists that are empty at first.
pub fn assert_steps<D: Driver>(rt: &(impl AllocGlobal + Abort), drivers: &[D], steps: &[Step]) {
    let alloc = rt.alloc();
    let mut lists = Lists {
        handles: Handles::new(alloc),
        opens: Opens::new(alloc),
        notify: Notify::new(alloc),
    };
    for step in steps {
        assert!(rt; is_as_said(rt, alloc, &mut lists, drivers, step));
    }
}
