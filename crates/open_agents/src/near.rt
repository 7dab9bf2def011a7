//! Some items at their places among all.
ghost use Rattle.std.specs.Prelude.{◌≡◌, List, option_map};
ghost use Rattle.std.specs.Iterator.{YieldsFirstRef, item_count};
ghost use Rattle.std.specs.Iterator.Runs.{YieldsRefsInOrder};
ghost use Rattle.open_agents.specs.declared.items.OpenRecord.{OpenRecord};
ghost use Rattle.open_agents.specs.Blocks.{item_at, items_near};

use crate::items::OpenRecord;
use std::marker::Model;

/// The items near a handle: all items, and the places of these.
#[derive(Clone, Copy)]
pub struct Near<'a> {
    pub slots: &'a [Option<OpenRecord>],
    pub places: &'a [usize],
}

impl<'a> Near<'a> {
    /// The items, one after the other.
    #[inline(always)]
    pub fn items(self) -> Items<'a>
        ensures items { result ≡ items_near self.entry }
        ensures runs { YieldsRefsInOrder {S = List OpenRecord} (YieldsFirstRef (λ left. left))
            (λ left. left) }
    {
        Items {
            slots: self.slots,
            places: self.places,
        }
    }
}

/// Items that are left of those at some places.
#[derive(Drop)]
pub struct Items<'a> {
    slots: &'a [Option<OpenRecord>],
    places: &'a [usize],
}

impl<'a> Model for Items<'a> {
    ghost use Rattle.std.specs.Prelude.{List};
    ghost use Rattle.open_agents.specs.declared.items.OpenRecord.{OpenRecord};
    ghost use Rattle.open_agents.specs.Blocks.{items_at};

    ghost Value = { List OpenRecord };

    ghost view = { λ i. items_at i.slots.now i.places.now };
}

impl<'a> Iterator for Items<'a> {
    type Item = &'a OpenRecord;

    ghost next_gives = { YieldsFirstRef (λ left. left) };

    ghost remaining = { item_count (λ left. left) };

    #[inline(always)]
    fn next(&mut self) -> Option<&'a OpenRecord> {
        while let Some((place, others)) = self.places.split_first() {
            self.places = others;
            if let Some(Some(item)) = self.slots.get(*place) {
                return Some(item);
            }
        }
        None
    }
}

/// A place among some, and its index there.
#[derive(Clone, Copy)]
pub(crate) struct Found {
    pub(crate) index: usize,
    pub(crate) place: usize,
}

/// The item at a place, if there is one.
pub fn item_at(slots: &[Option<OpenRecord>], place: usize) -> Option<&OpenRecord>
    ensures { option_map (λ o. o.now) result ≡ item_at slots.now place }
{
    match slots.get(place) {
        Some(Some(item)) => Some(item),
        _ => None,
    }
}
