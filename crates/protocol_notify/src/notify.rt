//! The registrations.
ghost use Rattle.std.specs.Prelude.{◌≡◌, ◌+◌, ◌<◌, ◌^◌, [], map, length, slice_get, IfOk, IsOk, IsSome, IfErr};
ghost use Rattle.std.specs.Option.{option_map};
ghost use Rattle.protocol_notify.specs.Registrations as spec;
ghost use Rattle.page_ranges.specs.declared.statuses.Status.TheVariants.{OutOfResources};
ghost use Rattle.protocol_notify.specs.Registrations.{AreKeyedFrom, registration_of, events_for, with_registration, marked_at, next_for, next_handle, taken};

use guid_handles::{Handles, is_same_guid};
use page_ranges::Status;
use std::alloc::{AllocError, Allocator, Global};
use std::marker::Model;
use uuid::Uuid;

/// A registration for the interfaces of a GUID.
#[derive(Clone, Copy)]
pub struct Registration {
    pub key: u64,
    pub guid: Uuid,
    /// The number of the event that is signaled when such an interface is installed.
    pub event: u64,
    /// The stamp up to which interfaces were taken.
    pub mark: u64,
}

/// The registrations, with the keys from 1 on.
#[derive(Drop)]
pub struct Notify<A: Allocator = Global> {
    registrations: Vec<Registration, A>,
}

impl<A: Allocator> Model for Notify<A> {
    ghost use Rattle.std.specs.Prelude.{List};
    ghost use Rattle.protocol_notify.specs.declared.notify.Registration.{Registration};
    ghost use Rattle.protocol_notify.specs.Registrations.{AreKeyedFrom};

    ghost Value = { List Registration };

    ghost view = { λ n. n.registrations.items };

    ghost invariant = { λ n. AreKeyedFrom 1 n.registrations.items };
}

impl<A: Allocator + Copy> Notify<A> {
    /// No registrations. This takes no memory.
    pub fn new(alloc: A) -> Notify<A>
        ensures { result ≡ [] }
    {
        Notify {
            registrations: Vec::new(alloc),
        }
    }

    /// Registers an event for the interfaces of a GUID that are installed from now on, and returns
    /// its key. On an `Err`, which means out of memory, the registrations are as they were.
    pub fn register(&mut self, handles: &Handles<A>, guid: Uuid, event: u64) -> Result<u64, Status>
        requires { length self.old < 2 ^ 62 }
        ensures ok { IfOk result
            (λ key. (key ≡ length self.old + 1)
            × (self.new ≡ with_registration handles.now guid event self.old)) }
        ensures err { IfErr result (λ status. (status ≡ OutOfResources) × (self.new ≡ self.old)) }
    {
        let key = self.registrations.len() as u64 + 1;
        let registration = Registration {
            key,
            guid,
            event,
            mark: handles.last_stamp(),
        };
        match self.registrations.push(registration) {
            Ok(()) => Ok(key),
            Err(_) => Err(Status::OutOfResources),
        }
    }

    /// The registration of a key.
    fn find(&self, key: u64) -> Option<Registration>
        ensures found { result ≡ registration_of self.now key }
        ensures keyed { AreKeyedFrom 1 self.now }
    {
        find_registration(self.registrations.as_slice(), key)
    }

    /// The GUID that a key was given for; none for a key of no registration.
    pub fn guid_of(&self, key: u64) -> Option<Uuid>
        ensures { result ≡ option_map (λ r. r.guid) (registration_of self.now key) }
    {
        self.find(key).map(|r| r.guid)
    }

    /// The events of the registrations for a GUID, by ascending key; an event that was registered
    /// twice comes twice. If there are none, this takes no memory.
    pub fn signaled(&self, guid: Uuid) -> Result<Vec<u64, A>, AllocError>
        ensures events { IfOk result (λ events. events.items ≡ events_for self.now guid) }
        ensures none { events_for self.now guid ≡ [] → IsOk result }
    {
        events_among(
            *self.registrations.allocator(),
            self.registrations.as_slice(),
            guid,
        )
    }

    /// The handle that is next for a key, and the stamp of its interface.
    pub fn next_turn(&self, handles: &Handles<A>, key: u64) -> Option<(u64, u64)>
        ensures turn { result ≡ next_for handles.now self.now key }
        ensures keyed { AreKeyedFrom 1 self.now }
    {
        let registration = self.find(key)?;
        handles.after_stamp(registration.guid, registration.mark)
    }

    /// The handle that is next for a key.
    pub fn next(&self, handles: &Handles<A>, key: u64) -> Option<u64>
        ensures { result ≡ next_handle handles.now self.now key }
    {
        let (handle, _) = self.next_turn(handles, key)?;
        Some(handle)
    }

    /// Marks the registration of a key with a stamp.
    pub fn mark(&mut self, key: u64, stamp: u64)
        ensures { self.new ≡ map (marked_at key stamp) self.old }
    {
        mark_among(&mut self.registrations, key, stamp);
    }

    /// Takes the handle that is next for a key, after which the one behind it is next.
    pub fn take(&mut self, handles: &Handles<A>, key: u64)
        requires { IsSome (next_handle handles.now self.old key) }
        ensures { self.new ≡ map (taken handles.now key) self.old }
    {
        match self.next_turn(handles, key) {
            Some((_, stamp)) => self.mark(key, stamp),
            None => unreachable!(),
        }
    }
}

/// The registration of a key, among some.
fn find_registration(registrations: &[Registration], key: u64) -> Option<Registration>
    requires { AreKeyedFrom 1 registrations.now }
    ensures { result ≡ registration_of registrations.now key }
{
    if key == 0 {
        return None;
    }
    registration_at(registrations, key as usize - 1)
}

/// The registration at a place.
fn registration_at(registrations: &[Registration], at: usize) -> Option<Registration>
    ensures { result ≡ slice_get registrations.now at }
{
    match registrations.get(at) {
        Some(r) => Some(*r),
        None => None,
    }
}

/// Whether a registration is for a GUID.
fn is_for(r: &Registration, guid: Uuid) -> bool
    ensures { result ≡ spec.is_for guid r.now }
{
    is_same_guid(&r.guid, &guid)
}

/// The events of registrations for a GUID, among some.
fn events_among<A: Allocator>(
    alloc: A,
    registrations: &[Registration],
    guid: Uuid,
) -> Result<Vec<u64, A>, AllocError>
    ensures events { IfOk result (λ events. events.items ≡ events_for registrations.now guid) }
    ensures none { events_for registrations.now guid ≡ [] → IsOk result }
{
    let mut events = Vec::new(alloc);
    for r in registrations {
        if is_for(r, guid) {
            events.push(r.event)?;
        }
    }
    Ok(events)
}

/// Marks the registration of a key with a stamp, among some.
fn mark_among<A: Allocator>(registrations: &mut Vec<Registration, A>, key: u64, stamp: u64)
    requires { AreKeyedFrom 1 registrations.old.items }
    ensures { registrations.new.items ≡ map (marked_at key stamp) registrations.old.items }
{
    if key == 0 || key as usize > registrations.len() {
        return;
    }
    let at = key as usize - 1;
    let marked = Registration {
        mark: stamp,
        ..registrations[at]
    };
    registrations[at] = marked;
}
