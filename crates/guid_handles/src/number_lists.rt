//! Lists of numbers, each found by a number.
ghost use Rattle.std.specs.Prelude.{◌≡◌, ◌<◌, ◌==◌, ℕ, [], None, false, length, nat_eq, IfOk, IfSome, OnOk, OnErr};
ghost use Rattle.std.specs.Map.{lookup};
ghost use Rattle.guid_handles.specs.Sorting.{Ascending};
ghost use Rattle.guid_handles.specs.NumberLists.{ChangesList, ChangesLists, HaveMembers, IsFree, entries_in, list_of, with_last, without};

use crate::short_list::ShortList;
use std::alloc::{AllocError, Allocator};
use std::collections::HashMap;
use std::hash::{BuildHasherDefault, FoldHasher};
use std::marker::Model;

/// The lists that are not empty.
type ListMap<A> = HashMap<u64, ShortList<A>, BuildHasherDefault<FoldHasher>, A>;

/// A list of numbers for each number.
#[derive(Drop)]
pub struct NumberLists<A: Allocator> {
    // One map, or none before the first list. A map itself takes four times as much of the stack.
    maps: Vec<ListMap<A>, A>,
}

impl<A: Allocator> Model for NumberLists<A> {
    ghost use Rattle.std.specs.Prelude.{List, ℕ};
    ghost use Rattle.guid_handles.specs.NumberLists.{HaveMembers, entries_in};

    ghost Value = { List (ℕ × List ℕ) };

    ghost view = { λ l. entries_in l.maps.items };

    ghost invariant = { λ l. HaveMembers (entries_in l.maps.items) };
}

/// The list of a number.
fn list_in<A: Allocator + Copy>(map: &ListMap<A>, number: u64) -> &[usize]
    ensures { result.now ≡ list_of map.now.entries number }
{
    match map.get(&number) {
        Some(list) => list.as_slice(),
        None => &[],
    }
}

/// Makes a list of one member. On an `Err` the lists are as they were.
fn make_list<A: Allocator + Copy>(
    map: &mut ListMap<A>,
    alloc: A,
    number: u64,
    member: usize,
) -> Result<(), AllocError>
    requires none { lookup (nat_eq number) map.old.entries ≡ None }
    requires members { HaveMembers map.old.entries }
    ensures ok { OnOk result
        (ChangesList number (with_last member) map.old.entries map.new.entries) }
    ensures members { HaveMembers map.new.entries }
    ensures err { OnErr result (map.new.entries ≡ map.old.entries) }
{
    let mut list = ShortList::new(alloc)?;
    list.push(member)?;
    match map.insert(number, list) {
        Ok(_) => Ok(()),
        Err(_) => Err(AllocError),
    }
}

/// Appends a member to the list of a number. On an `Err` the lists are as they were.
#[tactic(auto, using(std::proofs::lemmas::Map::Steps::set_value_same))]
fn push_in<A: Allocator + Copy>(
    map: &mut ListMap<A>,
    alloc: A,
    number: u64,
    member: usize,
) -> Result<(), AllocError>
    requires { HaveMembers map.old.entries }
    ensures ok { OnOk result
        (ChangesList number (with_last member) map.old.entries map.new.entries) }
    ensures members { HaveMembers map.new.entries }
    ensures err { OnErr result (map.new.entries ≡ map.old.entries) }
{
    match map.get_mut(&number) {
        Some(list) => list.push(member),
        None => make_list(map, alloc, number, member),
    }
}

/// Removes the list of a number if it is empty.
fn drop_list<A: Allocator + Copy>(map: &mut ListMap<A>, number: u64)
    requires { (m : ℕ) → (number == m) ≡ false
        → IfSome (lookup (nat_eq m) map.old.entries) (λ xs. (length xs == 0) ≡ false) }
    ensures same { (m : ℕ) → list_of map.new.entries m ≡ list_of map.old.entries m }
    ensures members { HaveMembers map.new.entries }
{
    if list_in(map, number).is_empty() {
        map.remove(&number);
    }
}

/// Removes a member from the list of a number.
fn remove_in<A: Allocator + Copy>(map: &mut ListMap<A>, number: u64, member: usize)
    requires { HaveMembers map.old.entries }
    ensures members { HaveMembers map.new.entries }
    ensures list { ChangesList number (without member) map.old.entries map.new.entries }
{
    if let Some(list) = map.get_mut(&number) {
        list.remove(member);
        drop_list(map, number);
    }
}

/// Removes a member from the list of a number, which ascends.
fn remove_ascending_in<A: Allocator + Copy>(map: &mut ListMap<A>, number: u64, member: usize)
    requires order { Ascending (λ a b. a < b) (list_of map.old.entries number) }
    requires members { HaveMembers map.old.entries }
    ensures members { HaveMembers map.new.entries }
    ensures list { ChangesList number (without member) map.old.entries map.new.entries }
{
    if let Some(list) = map.get_mut(&number) {
        list.remove_ascending(member);
        drop_list(map, number);
    }
}

/// The same lists, in memory of their own.
#[tactic(auto, using(std::proofs::lemmas::Map::Entries::entries_from_clone))]
fn copied_map<A: Allocator + Copy>(map: &ListMap<A>) -> Result<ListMap<A>, AllocError>
    ensures { IfOk result (λ copy. copy.entries ≡ map.now.entries) }
{
    map.clone()
}

/// Makes the map, if there is none.
fn make_map<A: Allocator + Copy>(maps: &mut Vec<ListMap<A>, A>) -> Result<(), AllocError>
    ensures same { entries_in maps.new.items ≡ entries_in maps.old.items }
    ensures made { OnOk result (0 < length maps.new.items) }
{
    if maps.is_empty() {
        let map = HashMap::new(*maps.allocator());
        maps.reserve_exact(1)?;
        maps.push_reserved(map);
    }
    Ok(())
}

impl<A: Allocator + Copy> NumberLists<A> {
    /// Empty lists. This takes no memory.
    pub fn new(alloc: A) -> NumberLists<A>
        ensures { result ≡ [] }
    {
        NumberLists {
            maps: Vec::new(alloc),
        }
    }

    /// The same lists, in memory of their own.
    pub fn try_copy(&self) -> Result<NumberLists<A>, AllocError>
        ensures { IfOk result (λ copy. copy ≡ self.now) }
    {
        match self.maps.first() {
            Some(map) => NumberLists::of_map(*self.maps.allocator(), copied_map(map)?),
            None => Ok(NumberLists::new(*self.maps.allocator())),
        }
    }

    /// The lists of a map.
    fn of_map(alloc: A, map: ListMap<A>) -> Result<NumberLists<A>, AllocError>
        requires { HaveMembers map.entries }
        ensures { IfOk result (λ lists. lists ≡ map.entries) }
    {
        let mut maps = Vec::with_capacity(alloc, 1)?;
        maps.push_reserved(map);
        Ok(NumberLists { maps })
    }

    /// The list of a number.
    pub fn of(&self, number: u64) -> &[usize]
        ensures { result.now ≡ list_of self.now number }
    {
        match self.maps.first() {
            Some(map) => list_in(map, number),
            None => &[],
        }
    }

    /// Appends a member to the list of a number. On an `Err` the lists are as they were.
    pub fn push(&mut self, number: u64, member: usize) -> Result<(), AllocError>
        ensures ok { OnOk result (ChangesList number (with_last member) self.old self.new) }
        ensures err { OnErr result (self.new ≡ self.old) }
    {
        let alloc = *self.maps.allocator();
        make_map(&mut self.maps)?;
        push_in(&mut self.maps[0], alloc, number, member)
    }

    /// Removes a member from the list of a number.
    pub fn remove(&mut self, number: u64, member: usize)
        ensures { ChangesList number (without member) self.old self.new }
    {
        if !self.maps.is_empty() {
            remove_in(&mut self.maps[0], number, member);
        }
    }

    /// Removes a member from the list of a number, which ascends.
    pub fn remove_ascending(&mut self, number: u64, member: usize)
        requires { Ascending (λ a b. a < b) (list_of self.old number) }
        ensures { ChangesList number (without member) self.old self.new }
    {
        if !self.maps.is_empty() {
            remove_ascending_in(&mut self.maps[0], number, member);
        }
    }

    /// Appends a member to the lists of two numbers, which may be one. On an `Err` each list is as
    /// it was.
    pub fn push_in_both(&mut self, first: u64, second: u64, member: usize) -> Result<(), AllocError>
        requires { IsFree member self.old }
        ensures ok { OnOk result (ChangesLists first second (with_last member) self.old self.new) }
        ensures err { OnErr result ((m : ℕ) → list_of self.new m ≡ list_of self.old m) }
    {
        self.push(first, member)?;
        if second == first {
            return Ok(());
        }
        if let Err(fault) = self.push(second, member) {
            self.remove(first, member);
            return Err(fault);
        }
        Ok(())
    }

    /// Removes a member from the lists of two numbers, which may be one, where each list ascends.
    pub fn remove_ascending_from_both(&mut self, first: u64, second: u64, member: usize)
        requires { (m : ℕ) → Ascending (λ a b. a < b) (list_of self.old m) }
        ensures { ChangesLists first second (without member) self.old self.new }
    {
        self.remove_ascending(first, member);
        if second != first {
            self.remove_ascending(second, member);
        }
    }
}
