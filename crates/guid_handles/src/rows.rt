//! The live handles.
ghost use Rattle.std.specs.Prelude.{◌≡◌, ◌≢◌, ◌<◌, ◌==◌, ◌++◌, ℕ, [], ◌∷◌, not, length, is_some, true, false, None, Some, IfSome, IfNone, IfOk, OnOk, OnErr, option_map};
ghost use Rattle.std.specs.List.{find, filter, AllByRecursion};
ghost use Rattle.guid_handles.specs.HandleTables.{has_number};
ghost use Rattle.guid_handles.specs.Sorting.{Ascending};
ghost use Rattle.guid_handles.specs.Indexes.{AreBeside, lives, row_numbers, keys_on, is_row_of, number_beside, row_at, ChangesKeys, ChangesRow};
ghost use Rattle.guid_handles.specs.NumberLists.{list_of, with_last, without};
ghost use Rattle.guid_handles.specs.MadeOn.{ChangesMade, numbers_made_on};

use crate::handle_row::HandleRow;
use crate::number_lists::NumberLists;
use crate::records::LiveHandle;
use crate::room::{make_room, make_slot};
use crate::searches::index_of;
use slab::Slab;
use std::alloc::{AllocError, Allocator};
use std::marker::Model;

/// The live handles: their numbers, ascending, beside each the place of its row in a slab, and those
/// that drivers made.
#[derive(Drop)]
pub(crate) struct Rows<A: Allocator> {
    numbers: Vec<u64, A>,
    places: Vec<usize, A>,
    rows: Slab<HandleRow<A>, A>,
    // Those that drivers made, by the controllers of these.
    made: NumberLists<A>,
}

impl<A: Allocator> Model for Rows<A> {
    ghost use Rattle.std.specs.Prelude.{List};
    ghost use Rattle.guid_handles.specs.Indexes.{Row, rows_at};
    ghost use Rattle.guid_handles.specs.MadeOn.{AreRows};

    ghost Value = { List Row };

    ghost view = { λ r. rows_at r.rows.slots r.places.items };

    ghost invariant = { λ r. AreRows r.numbers.items r.places.items r.rows.slots r.made };
}

/// The place beside a number.
fn place_of(numbers: &[u64], places: &[usize], number: u64) -> Option<usize>
    requires { AreBeside numbers.now places.now }
    ensures { result ≡ number_beside numbers.now places.now number }
{
    match index_of(numbers, number) {
        Some(at) => Some(places[at]),
        None => None,
    }
}

/// Notes a handle by the controller of its maker, if it has one. On an `Err` nothing changes.
fn note_made<A: Allocator + Copy>(
    made: &mut NumberLists<A>,
    live: LiveHandle,
) -> Result<(), AllocError>
    ensures ok { OnOk result (ChangesMade live.maker (with_last live.number) made.old made.new) }
    ensures err { OnErr result (made.new ≡ made.old) }
{
    match live.maker {
        Some(maker) => made.push(maker.controller, live.number as usize),
        None => Ok(()),
    }
}

/// Removes a handle from those by the controllers of their makers, which ascend in each list.
fn forget_made<A: Allocator + Copy>(made: &mut NumberLists<A>, live: LiveHandle)
    requires { (c : ℕ) → Ascending (λ a b. a < b) (list_of made.old c) }
    ensures { ChangesMade live.maker (without live.number) made.old made.new }
{
    if let Some(maker) = live.maker {
        made.remove_ascending(maker.controller, live.number as usize);
    }
}

/// Removes the row at a place, and returns its handle.
fn take_row<A: Allocator + Copy>(rows: &mut Slab<HandleRow<A>, A>, place: usize) -> LiveHandle
    requires { is_some (row_at rows.old.slots place) ≡ true }
    ensures live { option_map (λ r. r.live) (row_at rows.old.slots place) ≡ Some result }
    ensures others { (p : ℕ) → p ≢ place
        → row_at rows.new.slots p ≡ row_at rows.old.slots p }
{
    let row = rows.remove(place);
    row.live()
}

/// Adds a key after the others in the row at a place. On an `Err` each row is as it was.
fn push_key_at<A: Allocator + Copy>(
    rows: &mut Slab<HandleRow<A>, A>,
    place: usize,
    key: usize,
) -> Result<(), AllocError>
    requires { is_some (row_at rows.old.slots place) ≡ true }
    ensures ok { OnOk result
        (ChangesRow place (λ ks. ks ++ key ∷ []) rows.old.slots rows.new.slots) }
    ensures err { OnErr result
        ((p : ℕ) → row_at rows.new.slots p ≡ row_at rows.old.slots p) }
{
    match rows.get_mut(place) {
        Some(row) => row.push_key(key),
        None => unreachable!(),
    }
}

/// Removes a key of the row at a place.
fn remove_key_at<A: Allocator + Copy>(rows: &mut Slab<HandleRow<A>, A>, place: usize, key: usize)
    requires { is_some (row_at rows.old.slots place) ≡ true }
    ensures { ChangesRow place (filter (λ k. not (k == key))) rows.old.slots rows.new.slots }
{
    match rows.get_mut(place) {
        Some(row) => row.remove_key(key),
        None => unreachable!(),
    }
}

impl<A: Allocator + Copy> Rows<A> {
    /// No handles. This takes no memory.
    pub(crate) fn new(alloc: A) -> Rows<A>
        ensures { result ≡ [] }
    {
        Rows {
            numbers: Vec::new(alloc),
            places: Vec::new(alloc),
            rows: Slab::new(alloc),
            made: NumberLists::new(alloc),
        }
    }

    /// The same handles and keys, in memory of their own.
    pub(crate) fn try_copy(&self) -> Result<Rows<A>, AllocError>
        ensures { IfOk result (λ copy. copy ≡ self.now) }
    {
        let alloc = *self.numbers.allocator();
        let numbers = Vec::from_slice(alloc, self.numbers.as_slice())?;
        let places = Vec::from_slice(alloc, self.places.as_slice())?;
        let made = self.made.try_copy()?;
        let rows = self.rows.clone()?;
        Ok(Rows {
            numbers,
            places,
            rows,
            made,
        })
    }

    /// The numbers, ascending.
    pub(crate) fn numbers(&self) -> &[u64]
        ensures { result.now ≡ row_numbers self.now }
    {
        self.numbers.as_slice()
    }

    /// The numbers of the handles that drivers made on a controller, ascending.
    pub(crate) fn made_on(&self, controller: u64) -> &[usize]
        ensures { result.now ≡ numbers_made_on controller (lives self.now) }
    {
        self.made.of(controller)
    }

    /// The row of a handle.
    fn row(&self, number: u64) -> Option<&HandleRow<A>>
        ensures { option_map (λ r. r.now) result ≡ find (is_row_of number) self.now }
    {
        match place_of(self.numbers.as_slice(), self.places.as_slice(), number) {
            Some(place) => self.rows.get(place),
            None => None,
        }
    }

    /// The handle of a number.
    pub(crate) fn find(&self, number: u64) -> Option<LiveHandle>
        ensures { result ≡ find (has_number number) (lives self.now) }
    {
        match self.row(number) {
            Some(row) => Some(row.live()),
            None => None,
        }
    }

    /// The keys of the interfaces on a handle, in order of installation.
    pub(crate) fn keys(&self, number: u64) -> &[usize]
        ensures { result.now ≡ keys_on self.now number }
    {
        match self.row(number) {
            Some(row) => row.keys(),
            None => &[],
        }
    }

    /// The key on a handle that has just one.
    pub(crate) fn only_key(&self, number: u64) -> Option<usize>
        ensures there { IfSome result (λ key. keys_on self.now number ≡ key ∷ []) }
        ensures none { IfNone result (length (keys_on self.now number) ≢ 1) }
    {
        match self.keys(number) {
            [key] => Some(*key),
            _ => None,
        }
    }

    /// Adds a handle with a number above all others, and without interfaces. On an `Err` the rows
    /// are as they were.
    pub(crate) fn push(&mut self, live: LiveHandle) -> Result<(), AllocError>
        requires { AllByRecursion (λ n. n < live.number) (row_numbers self.old) }
        ensures ok { OnOk result (self.new ≡ self.old ++ record { live = live; keys = [] } ∷ []) }
        ensures err { OnErr result (self.new ≡ self.old) }
    {
        make_room(&mut self.numbers)?;
        make_room(&mut self.places)?;
        make_slot(&mut self.rows)?;
        let row = HandleRow::new(*self.numbers.allocator(), live)?;
        note_made(&mut self.made, live)?;
        let place = self.rows.insert_reserved(row);
        self.places.push_reserved(place);
        self.numbers.push_reserved(live.number);
        Ok(())
    }

    /// Removes a handle with its keys.
    pub(crate) fn remove(&mut self, number: u64)
        ensures { self.new ≡ filter (λ r. not (is_row_of number r)) self.old }
    {
        if let Some(at) = index_of(self.numbers.as_slice(), number) {
            self.numbers.remove(at);
            let place = self.places.remove(at);
            let live = take_row(&mut self.rows, place);
            forget_made(&mut self.made, live);
        }
    }

    /// Adds a key after the others of a handle. On an `Err` the rows are as they were.
    pub(crate) fn push_key(&mut self, number: u64, key: usize) -> Result<(), AllocError>
        requires { is_some (find (is_row_of number) self.old) ≡ true }
        ensures ok { OnOk result (ChangesKeys number (λ ks. ks ++ key ∷ []) self.old self.new) }
        ensures err { OnErr result (self.new ≡ self.old) }
    {
        match place_of(self.numbers.as_slice(), self.places.as_slice(), number) {
            Some(place) => push_key_at(&mut self.rows, place, key),
            None => unreachable!(),
        }
    }

    /// Removes a key of a handle.
    pub(crate) fn remove_key(&mut self, number: u64, key: usize)
        ensures { ChangesKeys number (filter (λ k. not (k == key))) self.old self.new }
    {
        if let Some(place) = place_of(self.numbers.as_slice(), self.places.as_slice(), number) {
            remove_key_at(&mut self.rows, place, key);
        }
    }
}
