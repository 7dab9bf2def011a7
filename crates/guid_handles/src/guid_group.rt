//! The interfaces of one GUID.
ghost use Rattle.std.specs.Prelude.{◌≡◌, ◌+◌, ◌<◌, ◌≤◌, [], length, nat_lt, cond, is_some, true, None, Option, Some, IfOk, OnOk, OnErr};
ghost use Rattle.guid_handles.specs.Sorting.{Ascending};
ghost use Rattle.guid_handles.specs.Indexes.{IsNext, SetsStampIn, least_after, sooner, stamp_in};

use crate::room::{insert_with_room, make_short_room};
use crate::searches::{count_less_than_new, index_of};
use std::alloc::{AllocError, Allocator};
use std::marker::Model;
use uuid::Uuid;

/// The handles that carry a GUID, ascending, and beside each the stamp of its interface.
#[derive(Drop)]
pub(crate) struct GuidGroup<A: Allocator> {
    guid: Uuid,
    holders: Vec<u64, A>,
    stamps: Vec<u64, A>,
}

impl<A: Allocator> Model for GuidGroup<A> {
    ghost use Rattle.guid_handles.specs.Indexes.{Group, AreBeside};

    ghost Value = { Group };

    ghost view = { λ g. record {
      guid = g.guid;
      holders = g.holders.items;
      stamps = g.stamps.items;
    } };

    ghost invariant = { λ g. AreBeside g.holders.items g.stamps.items };
}

/// The earlier one of a handle with a stamp, if that is above a mark, and another if there is one.
fn sooner_if(best: Option<(u64, u64)>, mark: u64, handle: u64, stamp: u64) -> Option<(u64, u64)>
    ensures { result ≡ cond (nat_lt mark stamp) (sooner handle stamp best) best }
{
    if stamp <= mark {
        return best;
    }
    match best {
        Some((holder, least)) => {
            if least < stamp {
                Some((holder, least))
            } else {
                Some((handle, stamp))
            }
        }
        None => Some((handle, stamp)),
    }
}

/// The handle with the least stamp above a mark, and this stamp.
fn next_after(holders: &[u64], stamps: &[u64], mark: u64) -> Option<(u64, u64)>
    requires { length holders.now ≡ length stamps.now }
    ensures { result ≡ least_after mark holders.now stamps.now }
{
    let mut best = None;
    for at in (0..holders.len()).rev() {
        best = sooner_if(best, mark, holders[at], stamps[at]);
    }
    best
}

impl<A: Allocator + Copy> GuidGroup<A> {
    /// A group without holders. This takes no memory.
    pub(crate) fn new(alloc: A, guid: Uuid) -> GuidGroup<A>
        ensures { result ≡ record { guid = guid; holders = []; stamps = [] } }
    {
        GuidGroup {
            guid,
            holders: Vec::new(alloc),
            stamps: Vec::new(alloc),
        }
    }

    /// The same group, in memory of its own.
    pub(crate) fn try_copy(&self) -> Result<GuidGroup<A>, AllocError>
        ensures { IfOk result (λ copy. copy ≡ self.now) }
    {
        let alloc = *self.holders.allocator();
        let holders = Vec::from_slice(alloc, self.holders.as_slice())?;
        let stamps = Vec::from_slice(alloc, self.stamps.as_slice())?;
        Ok(GuidGroup {
            guid: self.guid,
            holders,
            stamps,
        })
    }

    /// The GUID.
    pub(crate) fn guid(&self) -> Uuid
        ensures { result ≡ self.now.guid }
    {
        self.guid
    }

    /// The handles.
    pub(crate) fn holders(&self) -> &[u64]
        ensures holders { result.now ≡ self.now.holders }
        ensures ascending { Ascending (λ a b. a < b) result.now }
        ensures even { length self.now.holders ≡ length self.now.stamps }
    {
        self.holders.as_slice()
    }

    /// The handle whose interface has the least stamp above a mark, and this stamp.
    pub(crate) fn after(&self, mark: u64) -> Option<(u64, u64)>
        ensures { IsNext mark (stamp_in self.now) result }
    {
        next_after(self.holders.as_slice(), self.stamps.as_slice(), mark)
    }

    /// Adds a handle that is not a holder, and its stamp. On an `Err` the group is as it was.
    pub(crate) fn add(&mut self, handle: u64, stamp: u64) -> Result<(), AllocError>
        requires { stamp_in self.old handle ≡ None }
        ensures guid { self.new.guid ≡ self.old.guid }
        ensures ok { OnOk result (SetsStampIn handle (Some stamp) self.old self.new) }
        ensures err { OnErr result (self.new ≡ self.old) }
    {
        let at = count_less_than_new(self.holders.as_slice(), handle);
        make_short_room(&mut self.stamps)?;
        make_short_room(&mut self.holders)?;
        insert_with_room(&mut self.holders, at, handle);
        insert_with_room(&mut self.stamps, at, stamp);
        Ok(())
    }

    /// Removes a handle.
    pub(crate) fn remove(&mut self, handle: u64)
        ensures guid { self.new.guid ≡ self.old.guid }
        ensures stamps { SetsStampIn handle None self.old self.new }
        ensures fewer { length self.old.holders ≤ length self.new.holders + 1 }
    {
        if let Some(at) = index_of(self.holders.as_slice(), handle) {
            self.holders.remove(at);
            self.stamps.remove(at);
        }
    }

    /// Gives the interface of a holder another stamp.
    pub(crate) fn restamp(&mut self, handle: u64, stamp: u64)
        requires { is_some (stamp_in self.old handle) ≡ true }
        ensures guid { self.new.guid ≡ self.old.guid }
        ensures stamps { SetsStampIn handle (Some stamp) self.old self.new }
    {
        if let Some(at) = index_of(self.holders.as_slice(), handle) {
            self.stamps[at] = stamp;
        }
    }
}
