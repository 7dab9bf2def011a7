//! What a driver is shown of a handle, and what it answers to be done.
ghost use Rattle.std.specs.Prelude.{◌≡◌};
ghost use Rattle.driver_connect.specs.Drivers.{IsShortPlan, no_plan};

use arrayvec::ArrayVec;
use std::marker::Model;
use uuid::Uuid;

/// The most GUIDs that a driver of a table needs, and the most that its start opens.
pub const MAX_GUIDS: usize = 8;

/// The most children that a start makes.
pub const MAX_CHILDREN: usize = 8;

/// The most interfaces of such a child.
pub const MAX_PAIRS: usize = 4;

/// A protocol on a handle.
#[derive(Clone, Copy, Debug, PartialEq, Eq)]
pub struct ProtocolView {
    pub guid: Uuid,
    pub value: u64,
    /// Whether it is open for a driver or exclusively.
    pub held: bool,
}

/// A controller as a driver is shown it.
#[derive(Drop)]
pub struct View<'a> {
    /// The handle of the driver.
    pub agent: u64,
    pub controller: u64,
    /// The protocols on the controller, in order of installation.
    pub protocols: &'a [ProtocolView],
}

impl<'a> Model for View<'a> {
    ghost use Rattle.driver_connect.specs.Drivers.{ViewValue};

    ghost Value = { ViewValue };

    ghost view = { λ v.
        record { agent = v.agent; controller = v.controller; protocols = v.protocols.now } };
}

/// What the start of a driver does.
#[derive(Drop)]
pub struct StartPlan {
    /// The GUIDs of the controller that are opened.
    pub opens: ArrayVec<Uuid, MAX_GUIDS>,
    /// The children that are made, each with its interfaces as pairs of GUID and value.
    pub children: ArrayVec<ArrayVec<(Uuid, u64), MAX_PAIRS>, MAX_CHILDREN>,
}

impl Model for StartPlan {
    ghost use Rattle.std.specs.Prelude.{map};
    ghost use Rattle.driver_connect.specs.Drivers.{Plan};

    ghost Value = { Plan };

    ghost view = { λ p.
        record { opens = p.opens.items; children = map (λ c. c.items) p.children.items } };
}

impl StartPlan {
    /// A plan that does nothing.
    pub fn none() -> StartPlan
        ensures { result ≡ no_plan }
    {
        StartPlan {
            opens: ArrayVec::new(),
            children: ArrayVec::new(),
        }
    }

    /// Each child has at most four interfaces.
    pub(crate) fn short_law(&self)
        ensures { IsShortPlan self.now }
    {
        let children = self.children.as_slice();
        for child in children {
            let _pairs = child.as_slice();
        }
    }
}
