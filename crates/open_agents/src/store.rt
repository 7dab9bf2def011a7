//! The open items at their places, and where those on each handle and of each controller are.
ghost use Rattle.std.specs.Prelude.{◌≡◌, ◌-◌, ◌<◌, ◌≤◌, ◌^◌, ◌==◌, ◌++◌, ◌∷◌, ℕ, [], None, true, false, drop, length, map, take, is_some, slice_get, slice_set, IfOk, OnOk, OnErr};
ghost use Rattle.std.specs.List.{filter, list_any, AllByRecursion};
ghost use Rattle.open_agents.specs.OpenItems as spec;
ghost use Rattle.open_agents.specs.OpenItems.{counted, without_items};
ghost use Rattle.open_agents.specs.OpenRequests.{asks_for};
ghost use Rattle.open_agents.specs.Blocks as other;
ghost use Rattle.open_agents.specs.Blocks.{FindsLast, HoldsAt, NoneFrom, are_equal, is_near, item_at as there, items_in, items_near, places_from};
ghost use Rattle.open_agents.specs.Listed.{items_of};

use crate::item_tests::{ItemTest, find_last_of, find_last_passing};
use crate::items::{OpenRecord, OpenRequest, once_more};
use crate::near::{Found, Near};
use crate::questions::find_last;
use guid_handles::{NumberLists, add_place, has_place, remove_place};
use std::alloc::{AllocError, Allocator};
use std::marker::Model;

/// The open items, each once. An item that is closed leaves its place empty.
#[derive(Drop)]
pub(crate) struct ItemStore<A: Allocator> {
    // In the order in which they were made.
    slots: Vec<Option<OpenRecord>, A>,
    // How many of these are not empty.
    count: usize,
    // The places of the items on each handle and of each controller.
    near: NumberLists<A>,
    // The agents of items, ascending, and others that were one.
    agents: Vec<usize, A>,
}

impl<A: Allocator> Model for ItemStore<A> {
    ghost use Rattle.std.specs.Prelude.{◌≡◌, List, Option, length};
    ghost use Rattle.open_agents.specs.declared.items.OpenRecord.{OpenRecord};
    ghost use Rattle.open_agents.specs.Blocks.{IsOpenStore, items_in};

    ghost Value = { List (Option OpenRecord) };

    ghost view = { λ s. s.slots.items };

    ghost invariant = { λ s. IsOpenStore s.slots.items s.near s.agents.items
        × (s.count ≡ length (items_in s.slots.items)) };
}

impl<A: Allocator + Copy> ItemStore<A> {
    /// No items. This takes no memory.
    pub(crate) fn new(alloc: A) -> ItemStore<A>
        ensures { result ≡ [] }
    {
        ItemStore {
            slots: Vec::new(alloc),
            count: 0,
            near: NumberLists::new(alloc),
            agents: Vec::new(alloc),
        }
    }

    /// The same items, in memory of their own.
    pub(crate) fn try_copy(&self) -> Result<ItemStore<A>, AllocError>
        ensures { IfOk result (λ copy. copy ≡ self.now) }
    {
        let slots = Vec::from_slice(*self.slots.allocator(), self.slots.as_slice())?;
        let near = self.near.try_copy()?;
        let agents = Vec::from_slice(*self.agents.allocator(), self.agents.as_slice())?;
        Ok(ItemStore {
            slots,
            count: self.count,
            near,
            agents,
        })
    }

    /// The allocator.
    pub(crate) fn allocator(&self) -> A {
        *self.slots.allocator()
    }

    /// All places.
    pub(crate) fn slots(&self) -> &[Option<OpenRecord>]
        ensures places { result.now ≡ self.now }
        ensures agents { AllByRecursion (λ o. (o.agent == 0) ≡ false) (items_in self.now) }
    {
        self.slots.as_slice()
    }

    /// How many items there are.
    pub(crate) fn len(&self) -> usize
        ensures count { result ≡ length (items_in self.now) }
        ensures bound { result < 2 ^ 63 }
    {
        self.count
    }

    /// The items near a handle.
    pub(crate) fn near(&self, handle: u64) -> Near<'_>
        ensures slots { result.slots.now ≡ self.now }
        ensures places { result.places.now ≡ places_from 0 (is_near handle) self.now }
        ensures items { items_near result ≡ filter (is_near handle) (items_in self.now) }
    {
        Near {
            slots: self.slots.as_slice(),
            places: self.near.of(handle),
        }
    }

    /// Whether a handle may be the agent of an item.
    pub(crate) fn may_be_agent(&self, handle: u64) -> bool
        ensures { result ≡ false
            → AllByRecursion (λ o. (o.agent == handle) ≡ false) (items_in self.now) }
    {
        has_place(self.agents.as_slice(), handle as usize)
    }

    /// Forgets that a handle was the agent of items.
    pub(crate) fn forget_agent(&mut self, handle: u64)
        requires { AllByRecursion (λ o. (o.agent == handle) ≡ false) (items_in self.old) }
        ensures { self.new ≡ self.old }
    {
        remove_place(&mut self.agents, handle as usize);
    }

    /// The item at an index among those of an agent, in the order in which they were made.
    pub(crate) fn nth_of(&self, agent: u64, index: usize) -> Option<OpenRecord>
        ensures { result ≡ slice_get (items_of (items_in self.now) agent) index }
    {
        nth_of_agent(self.slots.as_slice(), agent, index)
    }

    /// Counts the item at a place once more, which is equal to what a call asks for.
    pub(crate) fn count_at(&mut self, place: usize, request: &OpenRequest)
        requires { HoldsAt (asks_for request.now) self.old place }
        ensures { items_in self.new ≡ map (counted (asks_for request.now)) (items_in self.old) }
    {
        if let Some(item) = self.slots[place] {
            let mut counted = item;
            counted.count = once_more(item.count);
            self.slots[place] = Some(counted);
        }
    }

    /// Removes the item at a place.
    pub(crate) fn remove(&mut self, place: usize)
        requires { is_some (there self.old place) ≡ true }
        ensures { self.new ≡ slice_set self.old place None }
    {
        if let Some(item) = self.slots[place] {
            self.slots[place] = None;
            self.count -= 1;
            let second = second_block(&item);
            self.near
                .remove_ascending_from_both(item.handle, second, place);
        }
    }

    /// The last item near a handle that passes a test, where none does from the index `end` on.
    fn last_below<T: ItemTest>(&self, handle: u64, end: usize, test: &T) -> Option<Found>
        requires bound { end ≤ length (places_from 0 (is_near handle) self.now) }
        requires after { NoneFrom (T.meaning test.now)
            self.now (places_from 0 (is_near handle) self.now) end }
        ensures { FindsLast (T.meaning test.now)
            self.now (places_from 0 (is_near handle) self.now) result }
    {
        if end == 0 {
            return None;
        }
        find_last_passing(self.near(handle), end, test)
    }

    /// Removes all items that pass a test, each of which is near a handle, and returns whether there
    /// were any. This looks at each place near the handle once, from the last one down.
    pub(crate) fn drop_passing<T: ItemTest>(&mut self, handle: u64, test: &T) -> bool
        requires { (o : _) → T.meaning test.now o ≡ true → is_near handle o ≡ true }
        ensures found { result ≡ list_any (T.meaning test.now) (items_in self.old) }
        ensures remaining { items_in self.new
            ≡ without_items (T.meaning test.now) (items_in self.old) }
    {
        let near = self.near(handle);
        let mut found = find_last_passing(near, near.places.len(), test);
        let any = found.is_some();
        while let Some(last) = found {
            self.remove(last.place);
            found = self.last_below(handle, last.index, test);
        }
        any
    }

    /// Removes all items that pass a test, looked for among all.
    pub(crate) fn drop_anywhere<T: ItemTest>(&mut self, test: &T)
        ensures { items_in self.new ≡ without_items (T.meaning test.now) (items_in self.old) }
    {
        let mut end = self.slots().len();
        while let Some(place) = find_last_of(self.slots(), end, test) {
            self.remove(place);
            end = place;
        }
    }

    /// Removes the last item, if there is one, where none is at a place from `end` on. Returns a place from
    /// which on none is then.
    fn drop_last(&mut self, end: usize) -> usize
        requires bound { end ≤ length self.old }
        requires after { items_in (drop end self.old) ≡ [] }
        ensures items { items_in self.new
            ≡ take (length (items_in self.old) - 1) (items_in self.old) }
        ensures bound { result ≤ length self.new }
        ensures after { items_in (drop result self.new) ≡ [] }
    {
        match find_last(self.slots.as_slice(), end) {
            Some(place) => {
                self.remove(place);
                place
            }
            None => 0,
        }
    }

    /// Removes the items that were made last, and leaves a number of those made first.
    pub(crate) fn truncate(&mut self, count: usize)
        ensures { items_in self.new ≡ take count (items_in self.old) }
    {
        let mut left = self.count;
        let mut end = self.slots.len();
        while left > count {
            end = self.drop_last(end);
            left -= 1;
        }
    }

    /// Appends an item at a place of its own. On an `Err` the items are as they were.
    fn append(&mut self, item: &OpenRecord) -> Result<(), AllocError>
        requires new { list_any (are_equal item.now) (items_in self.old) ≡ false }
        requires agent { (item.now.agent == 0) ≡ false }
        ensures ok { OnOk result (items_in self.new ≡ items_in self.old ++ item.now ∷ []) }
        ensures err { OnErr result (self.new ≡ self.old) }
    {
        self.slots.reserve(1)?;
        let place = self.slots.as_slice().len();
        add_place(&mut self.agents, item.agent as usize)?;
        self.near
            .push_in_both(item.handle, second_block(item), place)?;
        self.slots.push_reserved(Some(*item));
        self.count += 1;
        Ok(())
    }

    /// The same items at places with none empty between them, in memory of their own.
    fn compacted(&self) -> Result<ItemStore<A>, AllocError>
        ensures { IfOk result (λ fresh. items_in fresh ≡ items_in self.now) }
    {
        let mut fresh = ItemStore::new(self.allocator());
        let slots = self.slots.as_slice();
        for slot in slots {
            if let Some(item) = slot {
                fresh.append(item)?;
            }
        }
        Ok(fresh)
    }

    /// Gives up the empty places where these are half of all or more, if there is memory for that.
    fn tidy(&mut self)
        ensures { items_in self.new ≡ items_in self.old }
    {
        if self.count <= self.slots.len() / 2 {
            if let Ok(fresh) = self.compacted() {
                *self = fresh;
            }
        }
    }

    /// Appends an item of an agent that is equal to none. On an `Err` the items are as they were.
    pub(crate) fn push(&mut self, item: &OpenRecord) -> Result<(), AllocError>
        requires new { list_any (are_equal item.now) (items_in self.old) ≡ false }
        requires agent { (item.now.agent == 0) ≡ false }
        ensures ok { OnOk result (items_in self.new ≡ items_in self.old ++ item.now ∷ []) }
        ensures err { OnErr result (items_in self.new ≡ items_in self.old) }
    {
        if self.slots.len() == self.slots.capacity() {
            self.tidy();
        }
        self.append(item)
    }
}

/// The controller of an item, or its handle where it has none.
fn second_block(item: &OpenRecord) -> u64
    ensures { result ≡ other.second_block item.now }
{
    if item.controller == 0 {
        item.handle
    } else {
        item.controller
    }
}

/// The item at an index among those of an agent.
fn nth_of_agent(slots: &[Option<OpenRecord>], agent: u64, index: usize) -> Option<OpenRecord>
    ensures { result ≡ slice_get (items_of (items_in slots.now) agent) index }
{
    let mut left = index;
    for slot in slots {
        if let Some(item) = slot {
            if item.agent == agent {
                if left == 0 {
                    return Some(*item);
                }
                left -= 1;
            }
        }
    }
    None
}
