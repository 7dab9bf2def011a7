//! What a search asks of each extent of a group, kept in a row so that it looks at few of the extents themselves.
ghost use Rattle.std.specs.Prelude.{◌≡◌, ◌<◌, ◌≤◌, [], set, take, drop, ◌++◌, length, map, slice_index, vec_len, vec_capacity, IfOk, OnOk};
ghost use Rattle.std.specs.List.{insert};
ghost use Rattle.pool_services.specs.Rooms.{AreBounded, BoundsClass, HasLongestAt, IsFirstServing, IsRaised, class_of, serves, without_room};

use crate::room::insert_with_room;
use page_ranges::MemoryType;
use std::alloc::{AllocError, Allocator};

/// How many classes of types there are, each with a bound.
const CLASSES: usize = 16;

/// The first page of an extent, its type, and how many cells its longest run of free cells has.
#[derive(Clone, Copy)]
pub(crate) struct Room {
    pub(crate) first: u64,
    pub(crate) mtype: MemoryType,
    pub(crate) longest: u32,
}

/// The class of a type.
fn class_of(mtype: MemoryType) -> usize
    ensures class { result ≡ class_of mtype }
    ensures bound { result < 16 }
{
    mtype.number() as usize % CLASSES
}

/// Whether a room is of a type and has a number of cells.
fn serves(room: &Room, mtype: MemoryType, cells: usize) -> bool
    ensures { result ≡ serves mtype cells room.now }
{
    (room.mtype == mtype) & (cells <= room.longest as usize)
}

/// The first room that serves.
fn first_serving(rooms: &[Room], mtype: MemoryType, cells: usize) -> Option<usize>
    ensures { IsFirstServing mtype cells rooms.now result }
{
    for at in 0..rooms.len() {
        if serves(&rooms[at], mtype, cells) {
            return Some(at);
        }
    }
    None
}

/// The cells of a room that is of a class, else 0.
fn cells_in_class(room: &Room, class: usize) -> u32
    ensures { class_of room.now.mtype ≡ class → result ≡ room.now.longest }
{
    if class_of(room.mtype) == class {
        room.longest
    } else {
        0
    }
}

/// The most cells that a room of a class has.
fn most_in_class(rooms: &[Room], class: usize) -> u32
    ensures { BoundsClass rooms.now class result }
{
    let mut most = 0;
    for at in 0..rooms.len() {
        most = most.max(cells_in_class(&rooms[at], class));
    }
    most
}

/// Raises the bound of a room's class, where it is too low for the room.
fn raise(bounds: &mut [u32; CLASSES], room: &Room)
    ensures { IsRaised room.now bounds.old bounds.new }
{
    let class = class_of(room.mtype);
    bounds[class] = bounds[class].max(room.longest);
}

/// The rooms of the extents of a group, in their order. Each class of types has a bound, by which a search passes over
/// the group where no room of the class is large enough.
#[derive(Drop)]
pub(crate) struct Rooms<A: Allocator> {
    pub(crate) rooms: Vec<Room, A>,
    pub(crate) bounds: [u32; CLASSES],
    ghost bounded: { AreBounded rooms.items bounds },
}

impl<A: Allocator + Copy> Rooms<A> {
    /// No rooms. This takes no memory.
    pub(crate) fn new(alloc: A) -> Rooms<A>
        ensures { result.rooms.items ≡ [] }
    {
        Rooms {
            rooms: Vec::new(alloc),
            bounds: [0; CLASSES],
        }
    }

    /// The first room of a type that has a number of cells. A bound by which a search found nothing becomes as low as it
    /// can be.
    pub(crate) fn first(&mut self, mtype: MemoryType, cells: usize) -> Option<usize>
        ensures first { IsFirstServing mtype cells self.old.rooms.items result }
        ensures rooms { self.new.rooms ≡ self.old.rooms }
    {
        let class = class_of(mtype);
        if (self.bounds[class] as usize) < cells {
            return None;
        }
        let found = first_serving(self.rooms.as_slice(), mtype, cells);
        if found.is_none() {
            self.bounds[class] = most_in_class(self.rooms.as_slice(), class);
        }
        found
    }

    /// Sets how many cells the longest run of a room has. Most often that stays as it is.
    pub(crate) fn set_longest(&mut self, at: usize, longest: u32)
        requires { at < length self.old.rooms.items }
        ensures { HasLongestAt at longest self.old.rooms.items self.new.rooms.items }
    {
        let Room {
            first,
            mtype,
            longest: kept,
        } = self.rooms[at];
        if kept == longest {
            return;
        }
        let room = Room {
            first,
            mtype,
            longest,
        };
        self.rooms[at] = room;
        raise(&mut self.bounds, &room);
    }

    /// Takes memory for one room more.
    pub(crate) fn reserve_one(&mut self) -> Result<(), AllocError>
        ensures rooms { self.new.rooms.items ≡ self.old.rooms.items }
        ensures place { OnOk result (vec_len self.new.rooms < vec_capacity self.new.rooms) }
    {
        self.rooms.reserve(1)
    }

    /// Inserts a room, for which there is memory.
    pub(crate) fn insert(&mut self, at: usize, room: Room)
        requires index { at ≤ length self.old.rooms.items }
        requires place { vec_len self.old.rooms < vec_capacity self.old.rooms }
        ensures { self.new.rooms.items ≡ insert self.old.rooms.items at room }
    {
        raise(&mut self.bounds, &room);
        insert_with_room(&mut self.rooms, at, room);
    }

    /// Takes a room away.
    pub(crate) fn remove(&mut self, at: usize)
        requires { at < length self.old.rooms.items }
        ensures { self.new.rooms.items ≡ without_room at self.old.rooms.items }
    {
        self.rooms.remove(at);
    }

    /// The rooms from an index on, in memory of their own.
    pub(crate) fn copy_from(&self, at: usize) -> Result<Rooms<A>, AllocError>
        requires { at ≤ length self.now.rooms.items }
        ensures { IfOk result (λ upper. upper.rooms.items ≡ drop at self.now.rooms.items) }
    {
        let mut rooms = Vec::new(*self.rooms.allocator());
        rooms.extend_from_slice(&self.rooms.as_slice()[at..])?;
        Ok(Rooms {
            rooms,
            bounds: self.bounds,
        })
    }

    /// Takes the rooms from an index on away.
    pub(crate) fn truncate(&mut self, at: usize)
        ensures { self.new.rooms.items ≡ take at self.old.rooms.items }
    {
        self.rooms.truncate(at);
    }
}
