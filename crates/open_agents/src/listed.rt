//! Open items, one after the other.
ghost use Rattle.std.specs.Prelude.{◌≡◌, length, slice_get, slice_set};
ghost use Rattle.guid_handles.specs.HandleTables.{written_over};
ghost use Rattle.open_agents.specs.Blocks.{items_near};
ghost use Rattle.open_agents.specs.OpenItems.{items_on};

use crate::items::{OpenItem, is_open_on, item_of};
use crate::near::Near;
use crate::opens::Opens;
use std::alloc::Allocator;
use uuid::Uuid;

impl<A: Allocator + Copy> Opens<A> {
    /// The item at an index among those of an interface, in the order in which they were made.
    pub fn nth_on(&self, handle: u64, guid: Uuid, index: usize) -> Option<OpenItem>
        ensures { result ≡ slice_get (items_on self.now handle guid) index }
    {
        nth_near(self.near(handle), handle, guid, index)
    }

    /// Writes the items of an interface, in the order in which they were made, as many as fit, and returns
    /// how many there are.
    pub fn write_on(&self, handle: u64, guid: Uuid, out: &mut [OpenItem]) -> usize
        ensures count { result ≡ length (items_on self.now handle guid) }
        ensures written { out.new ≡ written_over (items_on self.now handle guid) out.old }
    {
        write_near(self.near(handle), handle, guid, out)
    }
}

/// The item at an index among those of an interface that are near it.
fn nth_near(near: Near<'_>, handle: u64, guid: Uuid, index: usize) -> Option<OpenItem>
    ensures { result ≡ slice_get (items_on (items_near near.entry) handle guid) index }
{
    let mut left = index;
    for o in near.items() {
        if is_open_on(o, handle, guid) {
            if left == 0 {
                return Some(item_of(o));
            }
            left -= 1;
        }
    }
    None
}

/// Writes the items of an interface that are near it, as many as fit, and returns how many there are.
fn write_near(near: Near<'_>, handle: u64, guid: Uuid, out: &mut [OpenItem]) -> usize
    ensures count { result ≡ length (items_on (items_near near.entry) handle guid) }
    ensures written { out.new
        ≡ written_over (items_on (items_near near.entry) handle guid) out.old }
{
    let mut count = 0;
    for o in near.items() {
        if is_open_on(o, handle, guid) {
            put_item(out, count, item_of(o));
            count += 1;
        }
    }
    count
}

/// Writes an item at a place, if there is such a place.
fn put_item(out: &mut [OpenItem], at: usize, item: OpenItem)
    ensures { out.new ≡ slice_set out.old at item }
{
    if at < out.len() {
        out[at] = item;
    }
}
