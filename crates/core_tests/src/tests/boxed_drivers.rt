//! A core with drivers in boxes, which are of several kinds.
use super::machine_of;
use arrayvec::ArrayVec;
use boot_core::{Core, Reply};
use driver_connect::{Driver, StartPlan, TableDriver, View, driver_binding};
use std::process::Abort;
use uuid::Uuid;

/// A driver that supports just the handle 1, makes no children, and is never stopped.
#[derive(Drop)]
struct FirstHandleDriver {
    opens: Uuid,
}

impl Driver for FirstHandleDriver {
    ghost use Rattle.std.specs.Prelude.{◌==◌, false, [], ◌∷◌};

    ghost meaning = { λ d. record { version = 7; supports = λ s. s.controller == 1; plan = λ s. record { opens = d.opens ∷ []; children = [] }; may_stop = λ s. false } };

    fn version(&self) -> u32 {
        7
    }

    fn supported(&self, v: &View) -> bool {
        v.controller == 1
    }

    fn plan(&self, _v: &View) -> StartPlan {
        let mut opens = ArrayVec::new();
        opens.push(self.opens);
        StartPlan {
            opens,
            children: ArrayVec::new(),
        }
    }

    fn may_stop(&self, _v: &View) -> bool {
        false
    }
}

/// A driver that supports all that carries a GUID, opens it, and may be stopped.
fn table(needed: Uuid) -> TableDriver {
    let mut needs = ArrayVec::new();
    needs.push(needed);
    let mut opens = ArrayVec::new();
    opens.push(needed);
    TableDriver {
        version: 1,
        needs,
        plan: StartPlan {
            opens,
            children: ArrayVec::new(),
        },
        stops: true,
    }
}

/// A call on a core with drivers.
enum Step {
    /// Installs an interface of a GUID on a new handle: of the driver binding protocol, or of the drivers' own.
    Install(bool, u64),
    Connect(u64),
    Disconnect(u64),
}

/// The reply to a call, if one may still be made.
fn reply_to<D: Driver>(rt: &impl Abort, core: &mut Core<D>, step: &Step, one: Uuid) -> Reply {
    if core.calls_left() == 0 {
        panic!(rt; "no calls left");
    }
    match step {
        Step::Install(true, value) => {
            core.install_protocol_interface(0, driver_binding(), 0, *value)
        }
        Step::Install(false, value) => core.install_protocol_interface(0, one, 0, *value),
        Step::Connect(handle) => core.connect_controller(*handle, &[], false),
        Step::Disconnect(handle) => core.disconnect_controller(*handle, 0),
    }
}

/// Whether a reply is that of a call that succeeded.
fn is_success(rt: &impl Abort, reply: &Reply) -> bool {
    match reply {
        Reply::InstallProtocolInterface(answer) => answer.is_ok(),
        Reply::ConnectController(answer) => answer.is_ok(),
        Reply::DisconnectController(answer) => answer.is_ok(),
        _ => panic!(rt; "the reply to another call"),
    }
}

/// Whether a call succeeds.
fn is_served<D: Driver>(rt: &impl Abort, core: &mut Core<D>, step: &Step, one: Uuid) -> bool {
    let reply = reply_to(rt, core, step, one);
    is_success(rt, &reply)
}

/// Calls that connect handles of a core with two drivers of different kinds and stop one of them, and whether each
/// succeeds.
const STEPS: [(Step, bool); 10] = [
    (Step::Install(false, 0), true),
    (Step::Install(false, 0), true),
    (Step::Install(true, 0), true),
    (Step::Install(true, 1), true),
    (Step::Connect(1), true),
    (Step::Connect(2), true),
    (Step::Connect(2), false),
    (Step::Disconnect(1), false),
    (Step::Disconnect(2), true),
    (Step::Connect(2), true),
];

fn assert_steps<D: Driver>(rt: &impl Abort, core: &mut Core<D>, one: Uuid) {
    for (step, is_good) in &STEPS {
        assert!(rt; is_served(rt, core, step, one) == *is_good);
    }
}

/// A driver of either kind, in boxes.
fn boxed(rt: &(impl AllocGlobal + Abort), one: Uuid) -> Vec<Box<dyn Driver>> {
    let mut drivers: Vec<Box<dyn Driver>> = Vec::new(rt.alloc());
    let first = Box::new(rt.alloc(), table(one)).expect(rt, "memory");
    drivers.push(first).expect(rt, "memory");
    let second = Box::new(rt.alloc(), FirstHandleDriver { opens: one }).expect(rt, "memory");
    drivers.push(second).expect(rt, "memory");
    drivers
}

#[test]
fn drivers_of_two_kinds(rt: HostRuntime) {
    let one = Uuid::from_bytes([1; 16]);
    let machine = machine_of(&rt, &[(16, 512)]);
    let mut core = Core::new(rt.alloc(), machine, boxed(&rt, one)).expect(&rt, "memory");
    assert_steps(&rt, &mut core, one);
}
