//! Tests of items, and the last item that passes one.
ghost use Rattle.std.specs.Prelude.{◌≡◌, ◌+◌, ◌≤◌, ◌||◌, ◌==◌, Bool, drop, false, length, IfSome, IfNone};
ghost use Rattle.std.specs.List.{list_any};
ghost use Rattle.open_agents.specs.OpenItems as spec;
ghost use Rattle.open_agents.specs.OpenItems.{is_closed_by};
ghost use Rattle.open_agents.specs.Blocks.{FindsLast, HoldsAt, NoneFrom, is_beside, items_in};

use crate::items::{OpenRecord, is_of_pair, is_open_on};
use crate::near::{Found, Near, item_at};
use uuid::Uuid;

/// A test of items.
pub(crate) trait ItemTest {
    ghost use Rattle.open_agents.specs.declared.items.OpenRecord.{OpenRecord};

    ghost meaning: { Self → OpenRecord → Bool };

    /// Whether an item passes.
    fn passes(&self, o: &OpenRecord) -> bool
        ensures { result ≡ meaning self.now o.now };
}

/// Being of an agent and a controller, on an interface.
#[derive(Clone, Copy)]
pub(crate) struct Closed {
    pub(crate) handle: u64,
    pub(crate) guid: Uuid,
    pub(crate) agent: u64,
    pub(crate) controller: u64,
}

impl ItemTest for Closed {
    ghost meaning = { λ t. is_closed_by t.handle t.guid t.agent t.controller };

    fn passes(&self, o: &OpenRecord) -> bool {
        is_of_pair(o, self.controller, self.agent) && is_open_on(o, self.handle, self.guid)
    }
}

/// Being of a controller and an agent.
#[derive(Clone, Copy)]
pub(crate) struct OfPair {
    pub(crate) controller: u64,
    pub(crate) agent: u64,
}

impl ItemTest for OfPair {
    ghost meaning = { λ t. spec.is_of_pair t.controller t.agent };

    fn passes(&self, o: &OpenRecord) -> bool {
        is_of_pair(o, self.controller, self.agent)
    }
}

/// Naming a handle.
#[derive(Clone, Copy)]
pub(crate) struct Names {
    pub(crate) handle: u64,
}

impl ItemTest for Names {
    ghost meaning = { λ t. spec.names t.handle };

    fn passes(&self, o: &OpenRecord) -> bool {
        o.handle == self.handle || o.agent == self.handle || o.controller == self.handle
    }
}

/// Having a handle as the handle or the controller.
#[derive(Clone, Copy)]
pub(crate) struct Beside {
    pub(crate) handle: u64,
}

impl ItemTest for Beside {
    ghost meaning = { λ t. is_beside t.handle };

    fn passes(&self, o: &OpenRecord) -> bool {
        o.handle == self.handle || o.controller == self.handle
    }
}

/// Being on an interface.
#[derive(Clone, Copy)]
pub(crate) struct OpenOn {
    pub(crate) handle: u64,
    pub(crate) guid: Uuid,
}

impl ItemTest for OpenOn {
    ghost meaning = { λ t. spec.is_open_on t.handle t.guid };

    fn passes(&self, o: &OpenRecord) -> bool {
        is_open_on(o, self.handle, self.guid)
    }
}

/// The last item that passes a test, where none does from the index `end` on.
pub(crate) fn find_last_passing<T: ItemTest>(near: Near<'_>, end: usize, test: &T) -> Option<Found>
    requires bound { end ≤ length near.places.now }
    requires after { NoneFrom (T.meaning test.now) near.slots.now near.places.now end }
    ensures { FindsLast (T.meaning test.now) near.entry.slots.now near.entry.places.now result }
{
    for index in (0..end).rev() {
        let place = near.places[index];
        if let Some(o) = item_at(near.slots, place) {
            if test.passes(o) {
                return Some(Found { index, place });
            }
        }
    }
    None
}

/// The place of the last item that passes a test, where none does at a place from `end` on.
pub(crate) fn find_last_of<T: ItemTest>(
    slots: &[Option<OpenRecord>],
    end: usize,
    test: &T,
) -> Option<usize>
    requires bound { end ≤ length slots.now }
    requires after { list_any (T.meaning test.now) (items_in (drop end slots.now)) ≡ false }
    ensures there { IfSome result (HoldsAt (T.meaning test.now) slots.now) }
    ensures last { IfSome result
        (λ k. list_any (T.meaning test.now) (items_in (drop (k + 1) slots.now)) ≡ false) }
    ensures none { IfNone result (list_any (T.meaning test.now) (items_in slots.now) ≡ false) }
{
    for at in (0..end).rev() {
        if let Some(o) = &slots[at] {
            if test.passes(o) {
                return Some(at);
            }
        }
    }
    None
}
