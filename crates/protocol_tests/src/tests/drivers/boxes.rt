//! Drivers in boxes.
use super::steps::{Step, assert_steps};
use super::{BINDING, guid, opening};
use arrayvec::ArrayVec;
use driver_connect::{Driver, TableDriver};
use guid_handles::Pair;
use page_ranges::Status;
use std::process::Abort;
use uuid::Uuid;

/// A driver that needs a GUID, opens it, and may be stopped.
fn table(needed: Uuid) -> TableDriver {
    let mut needs = ArrayVec::new();
    needs.push(needed);
    TableDriver {
        version: 1,
        needs,
        plan: opening(1),
        stops: true,
    }
}

#[test]
fn boxed_drivers(rt: HostRuntime) {
    let alloc = rt.alloc();
    let mut drivers: Vec<Box<dyn Driver>> = Vec::new(alloc);
    let boxed = Box::new(alloc, table(guid(1))).expect(&rt, "memory");
    drivers.push(boxed).expect(&rt, "memory");
    assert_steps(&rt, drivers.as_slice(), BOXED);
}

const BOXED: &[Step] = &[
    Step::Install(0, &[(1, 0)], 1),
    Step::Install(0, &[(BINDING, 0)], 2),
    Step::Connect(1, &[2], true, Status::Success),
    Step::Managers(
        1,
        &[Pair {
            controller: 1,
            agent: 2,
        }],
    ),
    Step::Disconnect(1, 0, Status::Success),
    Step::Managers(1, &[]),
];
