//! The handle table.
ghost use Rattle.std.specs.Prelude.{◌≡◌, ◌≢◌, ◌+◌, ◌-◌, ◌<◌, ◌≤◌, ◌^◌, ◌==◌, ◌&&◌, ℕ, cond, not, is_some, IsSome, IfSome, IfNone, OnOk, true, false, [], ◌∷◌, ◌++◌, map, length, option_map, slice_get, None, Some, IfOk, OnErr};
ghost use Rattle.std.specs.List.{find, list_any, AllByRecursion};
ghost use Rattle.guid_handles.specs.HandleTables.{HandleTable, numbers, same_guid, is_live, is_on, maker_of, interface_at, value_at, carries, holders_of, interfaces_on, guids_on, written_over, next_after};
ghost use Rattle.guid_handles.specs.HandleChanges.{IsHandleTable, max_handles, max_installed, no_handles, has_guid_twice, is_dead, is_taken, past_limit, refusal, with_interfaces, install_refusal, install_many_refusal, Installs, without_handle, without_interface, with_value};
ghost use Rattle.guid_handles.specs.Indexes.{AddsStamp, AreAbsent, ChangesKeys, HaveSameStamps, is_row_of, stamp_at};
ghost use Rattle.guid_handles.specs.Slots.{record_at, with_stamp};
ghost use Rattle.guid_handles.specs.Sorting.{Ascending};
ghost use Rattle.guid_handles.specs.MadeOn.{made_on};
ghost use Rattle.guid_handles.specs.TableSteps.{AreOthersLower, AreOthersOlder, InstallsMany, InstallsOne, MakesHandle, MakesHandleWith, AreOlder, rewritten, taken_back, taken_back_to, taken_out, without_above, without_last_handle};
ghost use Rattle.guid_handles.specs.Stores.{IsTable, Replaced, key_at};

use crate::groups::Groups;
use crate::guids::is_same_guid;
use crate::records::{Interface, LiveHandle, Pair, Record};
use crate::room::make_slot;
use crate::rows::Rows;
use crate::searches::{find_key, interface_at, nth_key, write_guids};
use page_ranges::Status;
use slab::Slab;
use std::alloc::{AllocError, Allocator, Global};
use std::marker::Model;
use uuid::Uuid;

/// The most handles that may be live.
pub const MAX_HANDLES: usize = 4096;

/// The most interfaces that one call may install.
pub const MAX_INSTALLED: usize = 16;

/// The handle table: the live handles and the protocol interfaces on them. Each interface is kept
/// once, under a key that stays. The row of its handle has its key, and the group of its GUID its
/// stamp.
#[derive(Drop)]
pub struct Handles<A: Allocator = Global> {
    rows: Rows<A>,
    records: Slab<Record, A>,
    groups: Groups<A>,
    last_number: u64,
    last_stamp: u64,
    // The number of the last installation. No step takes it back.
    last_order: u64,
}

impl<A: Allocator> Model for Handles<A> {
    ghost use Rattle.guid_handles.specs.HandleTables.{HandleTable};
    ghost use Rattle.guid_handles.specs.Stores.{IsStore, table_of};

    ghost Value = { HandleTable };

    ghost view = { λ h. table_of h.rows h.records.slots h.last_number h.last_stamp h.last_order };

    ghost invariant = { λ h.
        IsStore h.rows h.records.slots h.groups h.last_number h.last_stamp h.last_order };
}

/// Puts the key of an interface on a live handle into its row, and its stamp into the group of its
/// GUID. On an `Err` the rows are as they were, and the groups have the same stamps.
fn file_key<A: Allocator + Copy>(
    rows: &mut Rows<A>,
    groups: &mut Groups<A>,
    own: &Interface,
    key: usize,
) -> Result<(), AllocError>
    requires live { is_some (find (is_row_of own.now.handle) rows.old) ≡ true }
    requires absent { stamp_at groups.old own.now.guid own.now.handle ≡ None }
    ensures rows { OnOk result
        (ChangesKeys own.now.handle (λ ks. ks ++ key ∷ []) rows.old rows.new) }
    ensures groups { OnOk result (AddsStamp own.now groups.old groups.new) }
    ensures rows_stay { OnErr result (rows.new ≡ rows.old) }
    ensures groups_stay { OnErr result (HaveSameStamps groups.old groups.new) }
{
    groups.add(own.guid, own.handle, own.stamp)?;
    if let Err(error) = rows.push_key(own.handle, key) {
        groups.remove(own.guid, own.handle);
        return Err(error);
    }
    Ok(())
}

/// The key of the interface of a GUID on a handle.
fn key_of<A: Allocator + Copy>(
    rows: &Rows<A>,
    records: &Slab<Record, A>,
    handle: u64,
    guid: Uuid,
) -> Option<usize>
    ensures { result ≡ key_at records.now.slots rows.now guid handle }
{
    find_key(records, rows.keys(handle), guid)
}

/// Gives the interface at a key a value and a stamp.
fn restamp<A: Allocator>(records: &mut Slab<Record, A>, key: usize, value: u64, stamp: u64)
    requires there { is_some (record_at records.old.slots key) ≡ true }
    ensures changed { record_at records.new.slots key
        ≡ option_map (with_stamp value stamp) (record_at records.old.slots key) }
    ensures others { (j : ℕ) → j ≢ key
        → record_at records.new.slots j ≡ record_at records.old.slots j }
{
    match records.get_mut(key) {
        Some(record) => {
            record.interface.value = value;
            record.interface.stamp = stamp;
        }
        None => unreachable!(),
    }
}

/// Removes the interface at a key.
fn drop_record<A: Allocator>(records: &mut Slab<Record, A>, key: usize)
    requires there { is_some (record_at records.old.slots key) ≡ true }
    ensures gone { record_at records.new.slots key ≡ None }
    ensures others { (j : ℕ) → j ≢ key
        → record_at records.new.slots j ≡ record_at records.old.slots j }
{
    let _removed = records.remove(key);
}

/// The last of some numbers, if it is above one.
fn last_above(numbers: &[u64], number: u64) -> Option<u64>
    requires { Ascending (λ a b. a < b) numbers.now }
    ensures there { IfSome result
        (λ n. (number < n) × (list_any (λ m. m == n) numbers.now ≡ true)) }
    ensures none { IfNone result (AllByRecursion (λ n. n ≤ number) numbers.now) }
{
    let last = *numbers.last()?;
    if last > number { Some(last) } else { None }
}

impl<A: Allocator + Copy> Handles<A> {
    /// No handles. This takes no memory.
    pub fn new(alloc: A) -> Handles<A>
        ensures { result ≡ no_handles }
    {
        Handles {
            rows: Rows::new(alloc),
            records: Slab::new(alloc),
            groups: Groups::new(alloc),
            last_number: 0,
            last_stamp: 0,
            last_order: 0,
        }
    }

    /// The same table, in memory of its own.
    pub fn try_copy(&self) -> Result<Handles<A>, AllocError>
        ensures { IfOk result (λ copy. copy ≡ self.now) }
    {
        let groups = self.groups.try_copy()?;
        let records = self.records.clone()?;
        // A drop of the copy goes through its rows, which are still in the cache if copied last.
        let rows = self.rows.try_copy()?;
        Ok(Handles {
            rows,
            records,
            groups,
            last_number: self.last_number,
            last_stamp: self.last_stamp,
            last_order: self.last_order,
        })
    }

    /// The numbers of the live handles, ascending.
    pub fn all(&self) -> &[u64]
        ensures numbers { result.now ≡ numbers self.now }
        ensures count { length result.now ≡ length self.now.handles }
        ensures proper { IsHandleTable self.now }
    {
        self.rows.numbers()
    }

    /// Whether a handle is live.
    pub fn is_live(&self, handle: u64) -> bool
        ensures { result ≡ is_live self.now handle }
    {
        self.rows.find(handle).is_some()
    }

    /// The maker of a handle, if it is live and has one.
    pub fn maker_of(&self, handle: u64) -> Option<Pair>
        ensures { result ≡ maker_of self.now handle }
    {
        self.rows.find(handle).and_then(|h| h.maker)
    }

    /// The controller and the agent of the maker of a handle, if it is live and has one.
    pub fn maker(&self, handle: u64) -> Option<(u64, u64)>
        ensures { result ≡ option_map (λ m. (m.controller, m.agent)) (maker_of self.now handle) }
    {
        self.maker_of(handle).map(|m| (m.controller, m.agent))
    }

    /// The numbers of the handles that drivers made on a controller, ascending.
    pub fn made_on(&self, controller: u64) -> &[usize]
        ensures { result.now ≡ made_on self.now controller }
    {
        self.rows.made_on(controller)
    }

    /// The interface of a GUID on a handle.
    fn find(&self, handle: u64, guid: Uuid) -> Option<Interface>
        ensures { result ≡ interface_at self.now handle guid }
    {
        match key_of(&self.rows, &self.records, handle, guid) {
            Some(key) => interface_at(&self.records, key),
            None => None,
        }
    }

    /// The value of the interface of a GUID on a handle.
    pub fn interface(&self, handle: u64, guid: Uuid) -> Option<u64>
        ensures value { result ≡ value_at self.now handle guid }
        ensures there { is_some result ≡ carries self.now guid handle }
    {
        self.find(handle, guid).map(|i| i.value)
    }

    /// The handles that carry a GUID, ascending.
    pub fn by_protocol(&self, guid: Uuid) -> &[u64]
        ensures { result.now ≡ holders_of self.now guid }
    {
        self.groups.holders(guid)
    }

    /// How many interfaces are on a handle.
    pub fn interface_count(&self, handle: u64) -> usize
        ensures { result ≡ length (interfaces_on self.now handle) }
    {
        self.rows.keys(handle).len()
    }

    /// The interface at a place among those on a handle, in order of installation.
    pub fn nth_interface(&self, handle: u64, at: usize) -> Option<Interface>
        ensures { result ≡ slice_get (interfaces_on self.now handle) at }
    {
        match nth_key(self.rows.keys(handle), at) {
            Some(key) => interface_at(&self.records, key),
            None => None,
        }
    }

    /// Whether a handle carries an interface.
    fn has_any(&self, handle: u64) -> bool
        ensures any { result ≡ list_any (is_on handle) self.now.interfaces }
        ensures live { result ≡ true → is_live self.now handle ≡ true }
    {
        // The contract of this look-up says that interfaces are on live handles.
        let _numbers = self.all();
        self.interface_count(handle) != 0
    }

    /// Writes the GUIDs on a handle in order of installation, as many as fit, and returns how many
    /// there are.
    fn write_all(&self, handle: u64, guids: &mut [Uuid]) -> usize
        ensures count { result ≡ length (guids_on self.now handle) }
        ensures written { guids.new ≡ written_over (guids_on self.now handle) guids.old }
    {
        write_guids(&self.records, self.rows.keys(handle), guids)
    }

    /// Writes the GUIDs on a live handle in order of installation, as many as fit, and returns how
    /// many there are.
    pub fn protocols_of(&self, handle: u64, guids: &mut [Uuid]) -> Option<usize>
        ensures count { result
            ≡ cond (is_live self.now handle) (Some (length (guids_on self.now handle))) None }
        ensures written { IsSome result
            → guids.new ≡ written_over (guids_on self.now handle) guids.old }
        ensures none { IfNone result (guids.new ≡ guids.old) }
    {
        if self.is_live(handle) {
            Some(self.write_all(handle, guids))
        } else {
            None
        }
    }

    /// The last number that was given, 0 at first.
    pub fn last_number(&self) -> u64
        ensures { result ≡ self.now.last_number }
    {
        self.last_number
    }

    /// The last stamp that was given, 0 at first. No interface has a later one.
    pub fn last_stamp(&self) -> u64
        ensures stamp { result ≡ self.now.last_stamp }
        ensures latest { AllByRecursion (λ i. i.stamp ≤ result) self.now.interfaces }
    {
        self.last_stamp
    }

    /// The handle and the stamp of the interface of a GUID with the least stamp above a mark.
    pub fn after_stamp(&self, guid: Uuid, mark: u64) -> Option<(u64, u64)>
        ensures { result ≡ next_after self.now guid mark }
    {
        if mark >= self.last_stamp {
            return None;
        }
        self.groups.after(guid, mark)
    }

    /// Whether a handle is neither 0 nor live.
    fn is_dead(&self, handle: u64) -> bool
        ensures { result ≡ is_dead self.now handle }
    {
        handle != 0 && !self.is_live(handle)
    }

    /// Whether a GUID is on a handle that is not 0.
    fn is_taken(&self, handle: u64, guid: Uuid) -> bool
        ensures { result ≡ is_taken self.now handle guid }
    {
        handle != 0 && self.find(handle, guid).is_some()
    }

    /// Whether one of some GUIDs is on a handle that is not 0.
    fn is_any_taken(&self, handle: u64, pairs: &[(Uuid, u64)]) -> bool
        ensures { result ≡ list_any (λ p. is_taken self.now handle p.0) pairs.now }
    {
        pairs.iter().any(|pair| self.is_taken(handle, pair.0))
    }

    /// Whether a new handle would be one too many.
    fn is_past_limit(&self, handle: u64) -> bool
        ensures { result ≡ past_limit self.now handle }
    {
        handle == 0 && self.rows.numbers().len() >= MAX_HANDLES
    }

    /// Why a valid installation is refused, if it is.
    fn limit_refusal(&self, handle: u64) -> Option<Status>
        ensures { result ≡ refusal false (past_limit self.now handle) }
    {
        if self.is_past_limit(handle) {
            Some(Status::OutOfResources)
        } else {
            None
        }
    }

    /// Why `install` would refuse, memory aside: INVALID_PARAMETER for a kind other than 0, a
    /// handle that is neither 0 nor live, or a GUID that is on the handle; OUT_OF_RESOURCES where a
    /// new handle would be one too many.
    pub fn install_refusal(&self, handle: u64, guid: Uuid, kind: u32) -> Option<Status>
        ensures { result ≡ install_refusal self.now handle guid kind }
    {
        if kind != 0 || self.is_dead(handle) || self.is_taken(handle, guid) {
            return Some(Status::InvalidParameter);
        }
        self.limit_refusal(handle)
    }

    /// Why `install_many` would refuse, memory aside: INVALID_PARAMETER for no pair or more than
    /// `MAX_INSTALLED`, a handle that is neither 0 nor live, a GUID that is there twice, or one
    /// that is on the handle; OUT_OF_RESOURCES where a new handle would be one too many.
    pub fn install_many_refusal(&self, handle: u64, pairs: &[(Uuid, u64)]) -> Option<Status>
        ensures { result ≡ install_many_refusal self.now handle pairs.now }
    {
        if pairs.is_empty()
            || pairs.len() > MAX_INSTALLED
            || self.is_dead(handle)
            || has_guid_twice(pairs)
            || self.is_any_taken(handle, pairs)
        {
            return Some(Status::InvalidParameter);
        }
        self.limit_refusal(handle)
    }

    /// Installs an interface on a live handle that does not carry its GUID.
    fn install_one(&mut self, handle: u64, guid: Uuid, value: u64) -> Result<(), AllocError>
        requires live { is_live self.old handle ≡ true }
        requires absent { interface_at self.old handle guid ≡ None }
        requires stamps { self.old.last_stamp + 1 < 2 ^ 64 }
        ensures ok { OnOk result (self.new ≡ with_interfaces handle ((guid, value) ∷ []) self.old) }
        ensures below { AllByRecursion (λ i. i.stamp ≤ self.old.last_stamp) self.old.interfaces }
        ensures err { OnErr result (self.new ≡ self.old) }
    {
        if self.last_order == u64::MAX {
            return Err(AllocError);
        }
        make_slot(&mut self.records)?;
        let key = self.records.vacant_key();
        let stamp = self.last_stamp + 1;
        let order = self.last_order + 1;
        let interface = Interface {
            handle,
            guid,
            value,
            stamp,
        };
        file_key(&mut self.rows, &mut self.groups, &interface, key)?;
        self.records.insert_reserved(Record {
            interface,
            installed: order,
        });
        self.last_stamp = stamp;
        self.last_order = order;
        Ok(())
    }

    /// Takes back the interface of a GUID on a handle, which was installed last, and its stamp.
    fn take_back(&mut self, handle: u64, guid: Uuid)
        requires newest { AreOthersOlder handle guid self.old }
        requires some { 0 < self.old.last_stamp }
        ensures { self.new ≡ taken_back handle guid self.old }
    {
        self.take_out(handle, guid);
        self.last_stamp -= 1;
    }

    /// Installs interfaces on a live handle that carries none of their GUIDs.
    fn install_on(&mut self, handle: u64, pairs: &[(Uuid, u64)]) -> Result<(), AllocError>
        requires live { is_live self.old handle ≡ true }
        requires absent { AreAbsent handle pairs.now self.old.interfaces }
        requires once { has_guid_twice pairs.now ≡ false }
        requires stamps { self.old.last_stamp + length pairs.now < 2 ^ 64 }
        ensures ok { OnOk result (self.new ≡ with_interfaces handle pairs.now self.old) }
        ensures err { OnErr result (self.new ≡ self.old) }
    {
        let Some((pair, others)) = pairs.split_first() else {
            return Ok(());
        };
        let (guid, value) = *pair;
        self.install_one(handle, guid, value)?;
        if let Err(error) = self.install_on(handle, others) {
            self.take_back(handle, guid);
            return Err(error);
        }
        Ok(())
    }

    /// Makes a handle without interfaces, and returns its number.
    fn make_bare(&mut self, maker: Option<Pair>) -> Result<u64, AllocError>
        requires room { length self.old.handles < max_handles }
        requires numbers { self.old.last_number < 2 ^ 62 }
        ensures ok { IfOk result (λ n. MakesHandle maker self.old n self.new) }
        ensures proper { IsHandleTable self.old }
        ensures err { OnErr result (self.new ≡ self.old) }
    {
        let number = self.last_number + 1;
        self.rows.push(LiveHandle { number, maker })?;
        self.last_number = number;
        Ok(number)
    }

    /// Takes back the handle that was made last, which has no interfaces, and its number.
    fn unmake(&mut self)
        requires bare { list_any (is_on self.old.last_number) self.old.interfaces ≡ false }
        requires lower { AreOthersLower self.old }
        requires some { 0 < self.old.last_number }
        ensures { self.new ≡ without_last_handle self.old }
    {
        self.remove_bare(self.last_number);
        self.last_number -= 1;
    }

    /// Installs interfaces on a new handle.
    fn install_on_new(
        &mut self,
        maker: Option<Pair>,
        pairs: &[(Uuid, u64)],
    ) -> Result<u64, AllocError>
        requires room { length self.old.handles < max_handles }
        requires once { has_guid_twice pairs.now ≡ false }
        requires numbers { self.old.last_number < 2 ^ 62 }
        requires stamps { self.old.last_stamp < 2 ^ 62 }
        ensures ok { IfOk result (λ n. MakesHandleWith maker pairs.now self.old n self.new) }
        ensures err { OnErr result (self.new ≡ self.old) }
    {
        let number = self.make_bare(maker)?;
        if let Err(error) = self.install_on(number, pairs) {
            self.unmake();
            return Err(error);
        }
        Ok(number)
    }

    /// Installs interfaces on a handle, or on a new one for handle 0, where the call is valid.
    fn install_valid(&mut self, handle: u64, pairs: &[(Uuid, u64)]) -> Result<u64, Status>
        requires live { is_dead self.old handle ≡ false }
        requires absent { list_any (λ p. is_taken self.old handle p.0) pairs.now ≡ false }
        requires once { has_guid_twice pairs.now ≡ false }
        requires room { past_limit self.old handle ≡ false }
        requires numbers { self.old.last_number < 2 ^ 62 }
        requires stamps { self.old.last_stamp < 2 ^ 62 }
        ensures installs { Installs self.old handle pairs.now None result self.new }
        ensures numbers { self.new.last_number ≤ self.old.last_number + 1 }
        ensures stamps { self.new.last_stamp ≤ self.old.last_stamp + length pairs.now }
    {
        if handle != 0 {
            match self.install_on(handle, pairs) {
                Ok(()) => Ok(handle),
                Err(_) => Err(Status::OutOfResources),
            }
        } else {
            match self.install_on_new(None, pairs) {
                Ok(number) => Ok(number),
                Err(_) => Err(Status::OutOfResources),
            }
        }
    }

    /// Installs an interface on a handle, on a new one for handle 0, and returns the handle. The
    /// kind of interface must be 0 (EFI_NATIVE_INTERFACE). On an `Err` the table is as it was.
    pub fn install(&mut self, handle: u64, guid: Uuid, kind: u32, value: u64) -> Result<u64, Status>
        requires numbers { self.old.last_number < 2 ^ 62 }
        requires stamps { self.old.last_stamp < 2 ^ 62 }
        ensures installs { InstallsOne self.old handle guid kind value result self.new }
        ensures numbers { self.new.last_number ≤ self.old.last_number + 1 }
        ensures stamps { self.new.last_stamp ≤ self.old.last_stamp + 1 }
    {
        if let Some(status) = self.install_refusal(handle, guid, kind) {
            return Err(status);
        }
        self.install_valid(handle, &[(guid, value)])
    }

    /// Installs all of some interfaces, pairs of GUID and value, on a handle, on a new one for
    /// handle 0, and returns the handle. On an `Err` the table is as it was.
    pub fn install_many(&mut self, handle: u64, pairs: &[(Uuid, u64)]) -> Result<u64, Status>
        requires numbers { self.old.last_number < 2 ^ 62 }
        requires stamps { self.old.last_stamp < 2 ^ 62 }
        ensures installs { InstallsMany self.old handle pairs.now result self.new }
        ensures numbers { self.new.last_number ≤ self.old.last_number + 1 }
        ensures stamps { self.new.last_stamp ≤ self.old.last_stamp + max_installed }
    {
        if let Some(status) = self.install_many_refusal(handle, pairs) {
            return Err(status);
        }
        self.install_valid(handle, pairs)
    }

    /// Makes a handle for a controller and an agent, with interfaces, pairs of GUID and value, on
    /// it. On an `Err` the table is as it was.
    pub fn make_child(
        &mut self,
        controller: u64,
        agent: u64,
        pairs: &[(Uuid, u64)],
    ) -> Result<u64, AllocError>
        requires room { length self.old.handles < max_handles }
        requires some { 0 < length pairs.now }
        requires once { has_guid_twice pairs.now ≡ false }
        requires numbers { self.old.last_number < 2 ^ 62 }
        requires stamps { self.old.last_stamp < 2 ^ 62 }
        ensures ok { IfOk result (λ n.
            MakesHandleWith (Some (record { controller = controller; agent = agent })) pairs.now
            self.old n self.new) }
        ensures err { OnErr result (self.new ≡ self.old) }
    {
        self.install_on_new(Some(Pair { controller, agent }), pairs)
    }

    /// Removes an interface, and leaves its handle.
    fn take_out(&mut self, handle: u64, guid: Uuid)
        ensures { self.new ≡ taken_out handle guid self.old }
    {
        if let Some(key) = key_of(&self.rows, &self.records, handle, guid) {
            drop_record(&mut self.records, key);
            self.groups.remove(guid, handle);
            self.rows.remove_key(handle, key);
        }
    }

    /// Removes the interface of a GUID on a handle. A handle that is left without interfaces goes.
    /// Returns whether it went.
    pub fn remove(&mut self, handle: u64, guid: Uuid) -> bool
        requires { carries self.old guid handle ≡ true }
        ensures table { self.new ≡ without_interface handle guid self.old }
        ensures gone { result ≡ not (is_live self.new handle) }
    {
        let Some(key) = self.rows.only_key(handle) else {
            self.take_out(handle, guid);
            return false;
        };
        drop_record(&mut self.records, key);
        self.groups.remove(guid, handle);
        self.rows.remove(handle);
        true
    }

    /// Removes a handle without interfaces.
    fn remove_bare(&mut self, handle: u64)
        requires { list_any (is_on handle) self.old.interfaces ≡ false }
        ensures { self.new ≡ without_handle handle self.old }
    {
        self.rows.remove(handle);
    }

    /// Removes the interface on a handle that was installed first, if there is one.
    fn take_first(&mut self, handle: u64)
        ensures others { without_handle handle self.new ≡ without_handle handle self.old }
        ensures fewer { length (interfaces_on self.new handle)
            ≤ length (interfaces_on self.old handle) - 1 }
    {
        if let Some(interface) = self.nth_interface(handle, 0) {
            self.take_out(handle, interface.guid);
        }
    }

    /// Removes a handle with its interfaces.
    pub fn remove_handle(&mut self, handle: u64)
        ensures { self.new ≡ without_handle handle self.old }
    {
        while self.has_any(handle) {
            self.take_first(handle);
        }
        self.remove_bare(handle);
    }

    /// Removes the handles above a number, with the interfaces on them.
    fn remove_above(&mut self, number: u64)
        ensures { self.new ≡ without_above number self.old }
    {
        // The contract of this look-up says that the numbers ascend.
        while let Some(last) = last_above(self.all(), number) {
            self.remove_handle(last);
        }
    }

    /// Takes back what was made since a number and a stamp were the last that were given: the handles
    /// above the number go, with the interfaces on them. This takes no memory.
    pub fn take_back_to(&mut self, last_number: u64, last_stamp: u64)
        requires { AreOlder last_number last_stamp self.old }
        ensures { self.new ≡ taken_back_to last_number last_stamp self.old }
    {
        self.remove_above(last_number);
        self.last_number = last_number;
        self.last_stamp = last_stamp;
    }

    /// Gives the interface of a GUID on a handle a value and a stamp, and makes a stamp the last that was
    /// given.
    fn rewrite(&mut self, handle: u64, guid: Uuid, value: u64, stamp: u64, last: u64)
        requires there { carries self.old guid handle ≡ true }
        requires table { IsTable (rewritten handle guid value stamp last self.old) }
        ensures { self.new ≡ rewritten handle guid value stamp last self.old }
    {
        if let Some(key) = key_of(&self.rows, &self.records, handle, guid) {
            restamp(&mut self.records, key, value, stamp);
            self.groups.restamp(guid, handle, stamp);
            self.last_stamp = last;
        }
    }

    /// Gives the interface of a GUID on a handle a value and a new stamp. It keeps its place in the
    /// order of installation. This takes no memory.
    pub fn replace(&mut self, handle: u64, guid: Uuid, value: u64)
        requires there { carries self.old guid handle ≡ true }
        requires stamps { self.old.last_stamp < 2 ^ 62 }
        ensures { self.new ≡ with_value handle guid value self.old }
    {
        let stamp = self.last_stamp + 1;
        self.rewrite(handle, guid, value, stamp, stamp);
    }

    /// Undoes `replace`: puts back the interface as it was, and the last stamp. This takes no memory.
    pub fn restore(&mut self, handle: u64, guid: Uuid, own: Interface, last_stamp: u64)
        requires { (before : HandleTable)
            × Replaced handle guid own last_stamp before self.old }
        ensures { (before : HandleTable)
            → Replaced handle guid own last_stamp before self.old → self.new ≡ before }
    {
        self.rewrite(handle, guid, own.value, own.stamp, last_stamp);
    }

    /// The interface of a GUID on a handle, if there is one.
    pub fn installed(&self, handle: u64, guid: Uuid) -> Option<Interface>
        ensures interface { result ≡ interface_at self.now handle guid }
        ensures table { IsTable self.now }
    {
        // Each interface is one of its kind, and none has a stamp above the last.
        let _last = self.last_stamp;
        self.find(handle, guid)
    }
}

/// Whether a GUID is in a list twice.
pub fn has_guid_twice(pairs: &[(Uuid, u64)]) -> bool
    ensures { result ≡ has_guid_twice pairs.now }
{
    for (k, pair) in pairs.iter().enumerate() {
        if has_guid(&pairs[k + 1..], pair.0) {
            return true;
        }
    }
    false
}

/// Whether a GUID is in a list.
fn has_guid(pairs: &[(Uuid, u64)], guid: Uuid) -> bool
    ensures { result ≡ list_any (λ p. same_guid guid p.0) pairs.now }
{
    pairs.iter().any(|pair| is_same_guid(&guid, &pair.0))
}
