//! What drivers are shown, compared whole.
ghost use Rattle.std.specs.Prelude.{◌≡◌};
ghost use Rattle.protocol_tests.specs.Probes as spec;

use super::steps::{Step, assert_steps};
use super::{BINDING, guid, opening};
use driver_connect::{Driver, ProtocolView, StartPlan, View};
use page_ranges::Status;
use std::process::Abort;

/// A driver that is supported where it is shown just this.
#[derive(Drop)]
struct Watcher {
    agent: u64,
    controller: u64,
    protocols: Vec<ProtocolView>,
    plan: StartPlan,
}

fn is_same(a: &ProtocolView, b: &ProtocolView) -> bool
    ensures { result ≡ spec.is_same a.now b.now }
{
    a.guid == b.guid && a.value == b.value && if b.held { a.held } else { !a.held }
}

/// Whether the same protocols are shown, in the same order.
fn are_same(shown: &[ProtocolView], wanted: &[ProtocolView]) -> bool
    ensures { result ≡ spec.are_same shown.now wanted.now }
{
    if shown.len() != wanted.len() {
        return false;
    }
    for k in 0..shown.len() {
        if !is_same(&shown[k], &wanted[k]) {
            return false;
        }
    }
    true
}

impl Driver for Watcher {
    ghost use Rattle.std.specs.Prelude.{◌==◌, ◌&&◌, true};
    ghost use Rattle.protocol_tests.specs.Probes as spec;

    ghost meaning = { λ d. record { version = 1; supports = λ s. (s.agent == d.agent) && ((s.controller == d.controller) && spec.are_same s.protocols d.protocols.items); plan = λ s. d.plan; may_stop = λ s. true } };

    fn version(&self) -> u32 {
        1
    }

    fn supported(&self, v: &View) -> bool {
        v.agent == self.agent
            && v.controller == self.controller
            && are_same(v.protocols, self.protocols.as_slice())
    }

    fn plan(&self, _v: &View) -> StartPlan {
        self.plan.copied()
    }

    fn may_stop(&self, _v: &View) -> bool {
        true
    }
}

/// A driver that waits for a view, and opens the first GUID.
fn watching(
    rt: &(impl AllocGlobal + Abort),
    agent: u64,
    controller: u64,
    shown: &[(u8, u64, bool)],
) -> Watcher {
    let mut protocols = Vec::new(rt.alloc());
    for (byte, value, held) in shown {
        let protocol = ProtocolView {
            guid: guid(*byte),
            value: *value,
            held: *held,
        };
        protocols.push(protocol).expect(rt, "memory");
    }
    Watcher {
        agent,
        controller,
        protocols,
        plan: opening(1),
    }
}

/// What the driver is shown of a handle with three interfaces, of which a driver holds the second.
const VIEW: &[(u8, u64, bool)] = &[(1, 5, false), (2, 6, true), (3, 7, false)];

/// An agent, a controller and protocols that the driver is not shown.
const OTHERS: [(u64, u64, &[(u8, u64, bool)]); 7] = [
    (1, 1, VIEW),
    (2, 2, VIEW),
    (2, 1, &[(1, 5, false), (2, 6, true)]),
    (2, 1, &[(1, 5, false), (3, 7, false), (2, 6, true)]),
    (2, 1, &[(1, 5, false), (2, 8, true), (3, 7, false)]),
    (2, 1, &[(1, 5, false), (2, 6, false), (3, 7, false)]),
    (2, 1, &[(1, 5, false), (2, 6, true), (3, 7, true)]),
];

#[test]
fn views(rt: HostRuntime) {
    assert_steps(&rt, &[watching(&rt, 2, 1, VIEW)], SHOWN);
    for (agent, controller, shown) in &OTHERS {
        assert_steps(&rt, &[watching(&rt, *agent, *controller, shown)], NOT_SHOWN);
    }
}

const SHOWN: &[Step] = &[
    Step::Install(0, &[(1, 5), (2, 6), (3, 7)], 1),
    Step::Install(0, &[(BINDING, 0)], 2),
    Step::Open(1, 2, 2, 1),
    Step::Connect(1, &[], false, Status::Success),
];

const NOT_SHOWN: &[Step] = &[
    Step::Install(0, &[(1, 5), (2, 6), (3, 7)], 1),
    Step::Install(0, &[(BINDING, 0)], 2),
    Step::Open(1, 2, 2, 1),
    Step::Connect(1, &[], false, Status::NotFound),
];
