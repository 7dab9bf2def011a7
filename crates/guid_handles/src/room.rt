//! Room in vectors and in a slab.
ghost use Rattle.std.specs.Prelude.{◌≡◌, ◌<◌, ◌≤◌, vec_len, vec_capacity, OnOk, ◌+◌, ◌/◌};
ghost use Rattle.std.specs.List.{insert};
ghost use Rattle.slab.specs.Slab.{HasRoomFor};

use slab::Slab;
use std::alloc::{AllocError, Allocator};

/// How many items more a full row gets room for: half as many as it has, and 16.
fn items_added(len: usize) -> usize
    ensures { result ≡ len / 2 + 16 }
{
    len / 2 + 16
}

/// Makes room for one more item, if there is none.
pub(crate) fn make_room<T: Drop, A: Allocator>(items: &mut Vec<T, A>) -> Result<(), AllocError>
    ensures items { items.new.items ≡ items.old.items }
    ensures room { OnOk result (vec_len items.new < vec_capacity items.new) }
{
    if items.len() < items.capacity() {
        return Ok(());
    }
    items.reserve_exact(items_added(items.len()))
}

/// How many numbers more a full short list gets room for at least: four at first, so that many short
/// lists take little, then 12.
fn numbers_added(len: usize) -> usize
    ensures { 0 < result }
{
    if len == 0 { 4 } else { 12 }
}

/// Makes room for one more number in a list that is mostly short, if there is none.
pub(crate) fn make_short_room<A: Allocator>(numbers: &mut Vec<u64, A>) -> Result<(), AllocError>
    ensures items { numbers.new.items ≡ numbers.old.items }
    ensures room { OnOk result (vec_len numbers.new < vec_capacity numbers.new) }
{
    if numbers.len() < numbers.capacity() {
        return Ok(());
    }
    numbers.reserve(numbers_added(numbers.len()))
}

/// Makes room for one more value, if there is none.
pub(crate) fn make_slot<T: Drop, A: Allocator>(slab: &mut Slab<T, A>) -> Result<(), AllocError>
    ensures room { OnOk result (HasRoomFor slab.new 1) }
    ensures rest_kept { slab.new ≡ record slab.old { capacity = slab.new.capacity } }
{
    if slab.len() < slab.capacity() {
        return Ok(());
    }
    slab.reserve_exact(items_added(slab.len()))
}

/// Inserts an item, for which there is room.
pub(crate) fn insert_with_room<T: Drop, A: Allocator>(items: &mut Vec<T, A>, at: usize, item: T)
    requires place { at ≤ vec_len items.old }
    requires room { vec_len items.old < vec_capacity items.old }
    ensures { items.new.items ≡ insert items.old.items at item }
{
    if items.insert(at, item).is_err() {
        unreachable!();
    }
}
