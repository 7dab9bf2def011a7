//! Connecting a handle, and the handles that are made.
ghost use Rattle.std.specs.Prelude.{◌≡◌, ◌+◌, ◌<◌, ◌≤◌, ◌^◌, ◌++◌, true, false, [], length, IfOk, OnOk, OnErr};
ghost use Rattle.driver_connect.specs.Connecting as spec;
ghost use Rattle.driver_connect.specs.Connecting.{ConnectsBelow, ConnectsBy};
ghost use Rattle.driver_connect.specs.Pending.{ConnectsLevels, ConnectsOne, GrowsWith, first_last};
ghost use Rattle.guid_handles.specs.HandleChanges.{IsHandleTable, max_handles};
ghost use Rattle.driver_connect.specs.GoingOn.{GoesOn};
ghost use Rattle.driver_connect.specs.Room.{HasRoom, Grows};
ghost use Rattle.driver_connect.specs.Sites.{begun, site_at};
ghost use Rattle.driver_connect.specs.Starting.{starts_on, is_any_carried_out as any};

use crate::driver::Driver;
use crate::numbers::count_up_to;
use crate::starting::{Connecting, Starter, is_any_carried_out};
use guid_handles::Handles;
use open_agents::Opens;
use page_ranges::Status;
use protocol_notify::Notify;
use std::alloc::{AllocError, Allocator};

/// How many drivers may be named.
pub const MAX_NAMED: usize = 16;

/// How many levels of handles are connected below the one that is named.
const LEVELS_BELOW: u8 = 7;

/// The handles that were made after a number was given, ascending.
fn made_after<A: Allocator + Copy>(
    alloc: A,
    handles: &Handles<A>,
    last: u64,
) -> Result<Vec<u64, A>, AllocError>
    ensures { IfOk result (λ v. v.items ≡ spec.made_after last handles.now) }
{
    let numbers = handles.all();
    Vec::from_slice(alloc, &numbers[count_up_to(numbers, last)..])
}

/// A handle that is still to be connected, and how many levels of handles below it.
#[derive(Clone, Copy)]
struct Pending {
    handle: u64,
    levels: u8,
}

/// Notes that each of some handles is still to be connected, the first of them next. On an `Err` some
/// may be missing.
fn note_pending<A: Allocator + Copy>(
    pending: &mut Vec<Pending, A>,
    mut made: Vec<u64, A>,
    levels: u8,
) -> Result<(), AllocError>
    ensures { OnOk result
        (pending.new.items ≡ pending.old.items ++ first_last levels made.items) }
{
    while let Some(handle) = made.pop() {
        pending.push(Pending { handle, levels })?;
    }
    Ok(())
}

impl<'a, D: Driver, A: Allocator + Copy> Starter<'a, D, A> {
    /// Starts drivers on a handle, and notes that the handles which this makes are still to be
    /// connected, if there are levels below it. It returns whether a start on the handle was carried
    /// out.
    fn connect_one(
        &self,
        connecting: &mut Connecting<A>,
        next: Pending,
        named: &[u64],
        pending: &mut Vec<Pending, A>,
    ) -> Result<bool, AllocError>
        requires { HasRoom connecting.old.handles }
        ensures carried_out { IfOk result (λ b. b
            ≡ any (starts_on (site_at D.meaning self.now next.handle) named.now
            connecting.old).starts) }
        ensures progress { OnOk result (ConnectsOne D.meaning self.now next named.now
            pending.old connecting.old pending.new connecting.new) }
        ensures fewer { OnOk result
            (GrowsWith pending.old connecting.old pending.new connecting.new) }
        ensures limit { OnOk result (length connecting.new.handles.handles ≤ max_handles) }
        ensures grows { OnOk result (Grows connecting.old.handles connecting.new.handles) }
        ensures goes_on { GoesOn connecting.old connecting.new }
    {
        // The contract of this look-up says that the handles are in order.
        let _before = connecting.handles.all();
        let last = connecting.handles.last_number();
        let starts = self.run_passes(connecting, next.handle, named)?;
        if next.levels > 0 {
            let made = made_after(self.alloc, &connecting.handles, last)?;
            note_pending(pending, made, next.levels - 1)?;
        }
        let _after = connecting.handles.all();
        Ok(is_any_carried_out(starts.as_slice()))
    }

    /// Connects a handle, and a number of levels of the handles that are made below it. It returns
    /// whether a start on the handle was carried out. A list of what is still to be connected keeps
    /// the stack as small as for one level.
    fn connect_levels(
        &self,
        connecting: &mut Connecting<A>,
        first: Pending,
        named: &[u64],
    ) -> Result<bool, AllocError>
        requires { HasRoom connecting.old.handles }
        ensures whole { IfOk result (λ b. ConnectsLevels D.meaning self.now first named.now
            connecting.old b connecting.new) }
        ensures grows { OnOk result (Grows connecting.old.handles connecting.new.handles) }
        ensures goes_on { GoesOn connecting.old connecting.new }
    {
        let mut pending = Vec::new(self.alloc);
        let is_carried_out = self.connect_one(connecting, first, named, &mut pending)?;
        while let Some(next) = pending.pop() {
            self.connect_one(connecting, next, &[], &mut pending)?;
        }
        Ok(is_carried_out)
    }

    /// Connects a handle, and a number of levels of the handles that are made below it. It returns
    /// whether a start on the handle was carried out, and the events given, then those of the
    /// connect. On an `Err` nothing changes: what was done is taken back.
    fn connect_in_place(
        &self,
        handles: &mut Handles<A>,
        opens: &mut Opens<A>,
        first: Pending,
        named: &[u64],
        given: Vec<u64, A>,
    ) -> Result<(bool, Vec<u64, A>), AllocError>
        requires numbers { handles.old.last_number < 2 ^ 61 }
        requires stamps { handles.old.last_stamp < 2 ^ 61 }
        ensures whole { IfOk result (λ r. ConnectsLevels D.meaning self.now first named.now
            (begun handles.old opens.old given) r.0 (begun handles.new opens.new r.1)) }
        ensures err { OnErr result ((handles.new ≡ handles.old) × (opens.new ≡ opens.old)) }
        ensures numbers { handles.new.last_number ≤ handles.old.last_number + 4096 }
        ensures stamps { handles.new.last_stamp ≤ handles.old.last_stamp + 16384 }
        ensures proper { IsHandleTable handles.old }
    {
        // The contract of this look-up says that the handles are in order.
        let _numbers = handles.all();
        let number = handles.last_number();
        let stamp = handles.last_stamp();
        let items = opens.len();
        let mut connecting = Connecting::take(self.alloc, handles, opens, given);
        let connected = self.connect_levels(&mut connecting, first, named);
        let events = connecting.put_in_place(handles, opens);
        match connected {
            Ok(is_carried_out) => Ok((is_carried_out, events)),
            Err(error) => {
                handles.take_back_to(number, stamp);
                opens.truncate(items);
                Err(error)
            }
        }
    }
}

/// Whether a call of ConnectController names a handle that is not live, or too many drivers.
pub(crate) fn is_refused<A: Allocator + Copy>(
    handles: &Handles<A>,
    handle: u64,
    named: &[u64],
) -> bool
    ensures { result ≡ spec.connect_refused handles.now handle named.now }
{
    !handles.is_live(handle) || named.len() > MAX_NAMED
}

/// Starts drivers on a handle, those first that are named, and where `recursive` is set on the
/// handles that this makes, eight levels deep. It returns the events that are signaled. On an `Err`
/// nothing changes.
pub fn connect<D: Driver, A: Allocator + Copy>(
    alloc: A,
    handles: &mut Handles<A>,
    opens: &mut Opens<A>,
    notify: &Notify<A>,
    drivers: &[D],
    handle: u64,
    named: &[u64],
    recursive: bool,
) -> Result<Vec<u64, A>, Status>
    requires numbers { handles.old.last_number < 2 ^ 61 }
    requires stamps { handles.old.last_stamp < 2 ^ 61 }
    ensures connects { ConnectsBy D.meaning drivers.now notify.now handle named.now recursive
        handles.old opens.old result handles.new opens.new }
    ensures numbers { handles.new.last_number ≤ handles.old.last_number + 4096 }
    ensures stamps { handles.new.last_stamp ≤ handles.old.last_stamp + 16384 }
{
    if is_refused(handles, handle, named) {
        return Err(Status::InvalidParameter);
    }
    let starter = Starter {
        alloc,
        drivers,
        notify,
    };
    let levels = if recursive { LEVELS_BELOW } else { 0 };
    let first = Pending { handle, levels };
    match starter.connect_in_place(handles, opens, first, named, Vec::new(alloc)) {
        Ok((true, events)) => Ok(events),
        Ok((false, _)) => Err(Status::NotFound),
        Err(_) => Err(Status::OutOfResources),
    }
}

impl<'a, D: Driver, A: Allocator + Copy> Starter<'a, D, A> {
    /// Connects a handle and all that is made below it, with no driver named. It returns the events
    /// given, then those of the connect. On an `Err` nothing changes.
    pub(crate) fn connect_below(
        &self,
        handles: &mut Handles<A>,
        opens: &mut Opens<A>,
        handle: u64,
        given: Vec<u64, A>,
    ) -> Result<Vec<u64, A>, AllocError>
        requires numbers { handles.old.last_number < 2 ^ 61 }
        requires stamps { handles.old.last_stamp < 2 ^ 61 }
        ensures ok { IfOk result (λ e. ConnectsBelow (site_at D.meaning self.now handle)
            handles.old opens.old given.items e.items handles.new opens.new) }
        ensures err { OnErr result ((handles.new ≡ handles.old) × (opens.new ≡ opens.old)) }
        ensures numbers { handles.new.last_number ≤ handles.old.last_number + 4096 }
        ensures stamps { handles.new.last_stamp ≤ handles.old.last_stamp + 16384 }
    {
        let first = Pending {
            handle,
            levels: LEVELS_BELOW,
        };
        let (_, events) = self.connect_in_place(handles, opens, first, &[], given)?;
        Ok(events)
    }
}
