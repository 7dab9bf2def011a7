//! Items that come into a vector.
ghost use Rattle.std.specs.Prelude.{◌≡◌, ◌<◌, ◌≤◌, length, vec_capacity};
ghost use Rattle.std.specs.List.{insert};

use std::alloc::Allocator;

/// Inserts an item, for which there is room.
pub(crate) fn insert_with_room<T: Drop, A: Allocator>(items: &mut Vec<T, A>, at: usize, item: T)
    requires place { at ≤ length items.old.items }
    requires room { length items.old.items < vec_capacity items.old }
    ensures items { items.new.items ≡ insert items.old.items at item }
    ensures capacity { vec_capacity items.new ≡ vec_capacity items.old }
{
    if items.insert(at, item).is_err() {
        unreachable!();
    }
}
