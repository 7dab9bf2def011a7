//! The interfaces by GUID.
ghost use Rattle.std.specs.Prelude.{◌≡◌, ◌<◌, ◌≤◌, ◌==◌, ℕ, true, [], None, Some, length, is_some, option_map, slice_get, IfOk, OnOk, OnErr, IfSome, IfNone};
ghost use Rattle.std.specs.List.{find, list_any};
ghost use Rattle.guid_handles.specs.Sorting.{Ascending, place, kept_if};
ghost use Rattle.guid_handles.specs.Indexes.{AscendByGuid, IsNext, IsPlaceOf, SetsStamp, is_before, is_group_of, stamp_at};

use crate::guid_group::GuidGroup;
use crate::guids::{is_lower_guid, is_same_guid};
use std::alloc::{AllocError, Allocator};
use std::marker::Model;
use uuid::Uuid;

/// Groups by ascending GUID, each with a holder.
#[derive(Drop)]
pub(crate) struct Groups<A: Allocator> {
    groups: Vec<GuidGroup<A>, A>,
}

impl<A: Allocator> Model for Groups<A> {
    ghost use Rattle.std.specs.Prelude.{List};
    ghost use Rattle.guid_handles.specs.Indexes.{Group, AreGroups};

    ghost Value = { List Group };

    ghost view = { λ g. g.groups.items };

    ghost invariant = { λ g. AreGroups g.groups.items };
}

/// How many groups have lower GUIDs.
fn count_before<A: Allocator + Copy>(groups: &[GuidGroup<A>], guid: Uuid) -> usize
    requires { AscendByGuid groups.now }
    ensures place { result ≡ place (is_before guid) groups.now }
    ensures bound { result ≤ length groups.now }
{
    groups.partition_point(
        |g: &GuidGroup<A>| -> bool
            ensures { result ≡ is_before guid g.now }
        { is_lower_guid(&g.guid(), &guid) },
    )
}

/// The group at a place, if it is of a GUID.
fn group_if<A: Allocator + Copy>(
    groups: &[GuidGroup<A>],
    at: usize,
    guid: Uuid,
) -> Option<&GuidGroup<A>>
    ensures { option_map (λ g. g.now) result
        ≡ kept_if (is_group_of guid) (slice_get groups.now at) }
{
    let group = groups.get(at)?;
    if is_same_guid(&group.guid(), &guid) {
        Some(group)
    } else {
        None
    }
}

/// The group of a GUID.
fn group_of<A: Allocator + Copy>(groups: &[GuidGroup<A>], guid: Uuid) -> Option<&GuidGroup<A>>
    requires { AscendByGuid groups.now }
    ensures { option_map (λ g. g.now) result ≡ find (is_group_of guid) groups.now }
{
    group_if(groups, count_before(groups, guid), guid)
}

/// The place of the group of a GUID.
fn place_of<A: Allocator + Copy>(groups: &[GuidGroup<A>], guid: Uuid) -> Option<usize>
    requires { AscendByGuid groups.now }
    ensures there { IfSome result (IsPlaceOf guid groups.now) }
    ensures none { IfNone result (find (is_group_of guid) groups.now ≡ None) }
{
    let at = count_before(groups, guid);
    if group_if(groups, at, guid).is_some() {
        Some(at)
    } else {
        None
    }
}

impl<A: Allocator + Copy> Groups<A> {
    /// No groups. This takes no memory.
    pub(crate) fn new(alloc: A) -> Groups<A>
        ensures { result ≡ [] }
    {
        Groups {
            groups: Vec::new(alloc),
        }
    }

    /// The same groups, in memory of their own.
    pub(crate) fn try_copy(&self) -> Result<Groups<A>, AllocError>
        ensures { IfOk result (λ copy. copy ≡ self.now) }
    {
        let mut groups = Vec::new(*self.groups.allocator());
        groups.reserve(self.groups.len())?;
        for group in self.groups.iter() {
            groups.push(group.try_copy()?)?;
        }
        Ok(Groups { groups })
    }

    /// The handle whose interface of a GUID has the least stamp above a mark, and this stamp.
    pub(crate) fn after(&self, guid: Uuid, mark: u64) -> Option<(u64, u64)>
        ensures { IsNext mark (stamp_at self.now guid) result }
    {
        match group_of(self.groups.as_slice(), guid) {
            Some(group) => group.after(mark),
            None => None,
        }
    }

    /// The handles that carry a GUID, ascending.
    pub(crate) fn holders(&self, guid: Uuid) -> &[u64]
        ensures ascending { Ascending (λ a b. a < b) result.now }
        ensures those { (n : ℕ)
            → list_any (λ h. h == n) result.now ≡ is_some (stamp_at self.now guid n) }
    {
        match group_of(self.groups.as_slice(), guid) {
            Some(group) => group.holders(),
            None => &[],
        }
    }

    /// Makes a group of a GUID that has none at its place, with one holder. On an `Err` the groups
    /// are as they were.
    fn make_at(&mut self, at: usize, guid: Uuid, handle: u64, stamp: u64) -> Result<(), AllocError>
        requires none { find (is_group_of guid) self.old ≡ None }
        requires place { at ≡ place (is_before guid) self.old }
        requires bound { at ≤ length self.old }
        ensures ok { OnOk result (SetsStamp guid handle (Some stamp) self.old self.new) }
        ensures err { OnErr result (self.new ≡ self.old) }
    {
        let mut group = GuidGroup::new(*self.groups.allocator(), guid);
        group.add(handle, stamp)?;
        self.groups.insert(at, group)?;
        Ok(())
    }

    /// Adds a holder that is not there to the group at a place. On an `Err` the groups are as they
    /// were.
    fn add_at(&mut self, at: usize, guid: Uuid, handle: u64, stamp: u64) -> Result<(), AllocError>
        requires place { IsPlaceOf guid self.old at }
        requires absent { stamp_at self.old guid handle ≡ None }
        ensures ok { OnOk result (SetsStamp guid handle (Some stamp) self.old self.new) }
        ensures err { OnErr result (self.new ≡ self.old) }
    {
        self.groups[at].add(handle, stamp)?;
        Ok(())
    }

    /// Adds the stamp of an interface that is not there. On an `Err` the groups are as they were.
    pub(crate) fn add(&mut self, guid: Uuid, handle: u64, stamp: u64) -> Result<(), AllocError>
        requires { stamp_at self.old guid handle ≡ None }
        ensures ok { OnOk result (SetsStamp guid handle (Some stamp) self.old self.new) }
        ensures err { OnErr result (self.new ≡ self.old) }
    {
        let at = count_before(self.groups.as_slice(), guid);
        if group_if(self.groups.as_slice(), at, guid).is_some() {
            return self.add_at(at, guid, handle, stamp);
        }
        self.make_at(at, guid, handle, stamp)
    }

    /// Removes a handle from the group at a place, and with its last holder the group.
    fn remove_at(&mut self, at: usize, guid: Uuid, handle: u64)
        requires place { IsPlaceOf guid self.old at }
        requires there { is_some (stamp_at self.old guid handle) ≡ true }
        ensures { SetsStamp guid handle None self.old self.new }
    {
        let group = &mut self.groups[at];
        if group.holders().len() == 1 {
            self.groups.remove(at);
        } else {
            group.remove(handle);
        }
    }

    /// Removes the stamp of the interface of a GUID on a handle.
    pub(crate) fn remove(&mut self, guid: Uuid, handle: u64)
        requires { is_some (stamp_at self.old guid handle) ≡ true }
        ensures { SetsStamp guid handle None self.old self.new }
    {
        if let Some(at) = place_of(self.groups.as_slice(), guid) {
            self.remove_at(at, guid, handle);
        }
    }

    /// Gives the interface of a holder in the group at a place another stamp.
    fn restamp_at(&mut self, at: usize, guid: Uuid, handle: u64, stamp: u64)
        requires place { IsPlaceOf guid self.old at }
        requires there { is_some (stamp_at self.old guid handle) ≡ true }
        ensures { SetsStamp guid handle (Some stamp) self.old self.new }
    {
        self.groups[at].restamp(handle, stamp);
    }

    /// Gives the interface of a GUID on a handle another stamp.
    pub(crate) fn restamp(&mut self, guid: Uuid, handle: u64, stamp: u64)
        requires { is_some (stamp_at self.old guid handle) ≡ true }
        ensures { SetsStamp guid handle (Some stamp) self.old self.new }
    {
        if let Some(at) = place_of(self.groups.as_slice(), guid) {
            self.restamp_at(at, guid, handle, stamp);
        }
    }
}
