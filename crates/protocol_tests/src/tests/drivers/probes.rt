//! Drivers that look at what they are shown.
ghost use Rattle.std.specs.Prelude.{◌≡◌};
ghost use Rattle.protocol_tests.specs.Probes as spec;

use super::steps::{Step, assert_steps};
use super::{BINDING, guid, opening};
use driver_connect::{Driver, ProtocolView, StartPlan, View};
use guid_handles::Pair;
use page_ranges::Status;
use uuid::Uuid;

/// A driver that is supported where a GUID is held, or where it is not, and that may be stopped on
/// all controllers but one, while no other GUID is held.
#[derive(Drop)]
struct Probe {
    version: u32,
    asks: Uuid,
    held: bool,
    plan: StartPlan,
    stays_on: u64,
    stays_while_held: Uuid,
}

/// Whether a GUID is there, and held or not.
fn has(protocols: &[ProtocolView], guid: Uuid, held: bool) -> bool
    ensures { result ≡ spec.has protocols.now guid held }
{
    protocols
        .iter()
        .any(|p| p.guid == guid && if held { p.held } else { !p.held })
}

impl Driver for Probe {
    ghost use Rattle.std.specs.Prelude.{◌==◌, ◌&&◌, not, true};
    ghost use Rattle.protocol_tests.specs.Probes as spec;

    ghost meaning = { λ d. record { version = d.version; supports = λ s. spec.has s.protocols d.asks d.held; plan = λ s. d.plan; may_stop = λ s. not (s.controller == d.stays_on) && not (spec.has s.protocols d.stays_while_held true) } };

    fn version(&self) -> u32 {
        self.version
    }

    fn supported(&self, v: &View) -> bool {
        has(v.protocols, self.asks, self.held)
    }

    fn plan(&self, _v: &View) -> StartPlan {
        self.plan.copied()
    }

    fn may_stop(&self, v: &View) -> bool {
        v.controller != self.stays_on && !has(v.protocols, self.stays_while_held, true)
    }
}

/// A driver that asks for a GUID, held or not, and opens another.
fn asking(version: u32, asks: u8, held: bool, opens: u8) -> Probe {
    Probe {
        version,
        asks: guid(asks),
        held,
        plan: opening(opens),
        stays_on: 0,
        stays_while_held: guid(0),
    }
}

/// The first is asked first, and is supported once the second has opened its GUID.
#[test]
fn second_pass(rt: HostRuntime) {
    let drivers = [asking(2, 2, true, 1), asking(1, 2, false, 2)];
    assert_steps(&rt, &drivers, SECOND_PASS);
}

const SECOND_PASS: &[Step] = &[
    Step::Install(0, &[(1, 1), (2, 2)], 1),
    Step::Install(0, &[(BINDING, 0)], 2),
    Step::Install(0, &[(BINDING, 1)], 3),
    Step::Connect(1, &[], false, Status::Success),
    Step::Managers(
        1,
        &[
            Pair {
                controller: 1,
                agent: 3,
            },
            Pair {
                controller: 1,
                agent: 2,
            },
        ],
    ),
];

/// The plan opens a GUID that is not there.
#[test]
fn starts_that_are_not_carried_out(rt: HostRuntime) {
    assert_steps(&rt, &[asking(1, 1, false, 2)], NOT_CARRIED_OUT);
}

const NOT_CARRIED_OUT: &[Step] = &[
    Step::Install(0, &[(1, 1)], 1),
    Step::Install(0, &[(BINDING, 0)], 2),
    Step::Connect(1, &[], true, Status::NotFound),
    Step::Managers(1, &[]),
];

/// The first stays on handle 4, and on others while the second has its GUID open.
#[test]
fn drivers_that_stay(rt: HostRuntime) {
    let mut stays = asking(2, 1, false, 1);
    stays.stays_while_held = guid(2);
    stays.stays_on = 4;
    assert_steps(&rt, &[stays, asking(1, 2, false, 2)], STAYS);
}

const STAYS: &[Step] = &[
    Step::Install(0, &[(1, 1), (2, 2)], 1),
    Step::Install(0, &[(BINDING, 0)], 2),
    Step::Install(0, &[(BINDING, 1)], 3),
    Step::Install(0, &[(1, 1)], 4),
    Step::Connect(1, &[], false, Status::Success),
    Step::Connect(4, &[], false, Status::Success),
    Step::Disconnect(1, 2, Status::DeviceError),
    Step::Disconnect(4, 2, Status::DeviceError),
    Step::Disconnect(1, 3, Status::Success),
    Step::Disconnect(1, 2, Status::Success),
    Step::Managers(
        4,
        &[Pair {
            controller: 4,
            agent: 2,
        }],
    ),
];
