//! Drivers that are tables.
ghost use Rattle.std.specs.Prelude.{◌≡◌};
ghost use Rattle.driver_connect.specs.Drivers.{is_free};

use crate::driver::Driver;
use crate::view::{MAX_CHILDREN, MAX_GUIDS, MAX_PAIRS, ProtocolView, StartPlan, View};
use arrayvec::ArrayVec;
use uuid::Uuid;

/// A driver that supports each controller with the protocols that it needs, none of them held, and
/// always has the same plan.
#[derive(Drop)]
pub struct TableDriver {
    pub version: u32,
    pub needs: ArrayVec<Uuid, MAX_GUIDS>,
    pub plan: StartPlan,
    /// Whether the driver lets itself be stopped.
    pub stops: bool,
}

/// Whether a GUID is among some protocols and is not held.
pub(crate) fn is_free(protocols: &[ProtocolView], guid: Uuid) -> bool
    ensures { result ≡ is_free protocols.now guid }
{
    protocols.iter().any(|p| p.guid == guid && !p.held)
}

/// The same interfaces.
fn copied_child(pairs: &ArrayVec<(Uuid, u64), MAX_PAIRS>) -> ArrayVec<(Uuid, u64), MAX_PAIRS>
    ensures { result.items ≡ pairs.now.items }
{
    let mut copy = ArrayVec::new();
    for pair in pairs.as_slice() {
        copy.push(*pair);
    }
    copy
}

impl StartPlan {
    /// The same plan.
    pub fn copied(&self) -> StartPlan
        ensures { result ≡ self.now }
    {
        let mut copy = StartPlan::none();
        for guid in self.opens.as_slice() {
            copy.opens.push(*guid);
        }
        for child in self.children.as_slice() {
            copy.children.push(copied_child(child));
        }
        copy
    }
}

impl Driver for TableDriver {
    ghost use Rattle.driver_connect.specs.Drivers.{fixed_meaning};

    ghost meaning = { λ d. fixed_meaning d.version d.needs.items d.plan d.stops };

    fn version(&self) -> u32 {
        self.version
    }

    fn supported(&self, v: &View) -> bool {
        self.needs.iter().all(|guid| is_free(v.protocols, *guid))
    }

    fn plan(&self, _v: &View) -> StartPlan {
        self.plan.copied()
    }

    fn may_stop(&self, _v: &View) -> bool {
        self.stops
    }
}
