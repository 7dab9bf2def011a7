//! Finding numbers and interfaces.
ghost use Rattle.std.specs.Prelude.{◌≡◌, ◌<◌, ◌≤◌, ◌==◌, true, false, is_some, length, nat_lt, map, Some, IfSome, IfNone, slice_get, slice_set};
ghost use Rattle.std.specs.List.{find, AllByRecursion};
ghost use Rattle.guid_handles.specs.HandleTables.{written_over};
ghost use Rattle.guid_handles.specs.Places.{has_place};
ghost use Rattle.guid_handles.specs.Sorting.{Ascending, place, kept_if};
ghost use Rattle.guid_handles.specs.Slots.{at_key, at_keys, is_key_of};

use crate::guids::is_same_guid;
use crate::records::{Interface, Record};
use slab::Slab;
use std::alloc::Allocator;
use uuid::Uuid;

/// How many of some ascending numbers are less than one.
fn count_less(numbers: &[u64], number: u64) -> usize
    requires { Ascending (λ a b. a < b) numbers.now }
    ensures place { result ≡ place (λ n. nat_lt n number) numbers.now }
    ensures bound { result ≤ length numbers.now }
{
    numbers.partition_point(
        |n: &u64| -> bool
            ensures { result ≡ nat_lt n.now number }
        { *n < number },
    )
}

/// Whether there are ascending numbers, and another one is above all of them.
fn is_above(numbers: &[u64], number: u64) -> bool
    requires { Ascending (λ a b. a < b) numbers.now }
    ensures { result ≡ true → AllByRecursion (λ n. n < number) numbers.now }
{
    match numbers.last() {
        Some(last) => *last < number,
        None => false,
    }
}

/// How many of some ascending numbers are less than one, which is likely above all of them.
pub(crate) fn count_less_than_new(numbers: &[u64], number: u64) -> usize
    requires { Ascending (λ a b. a < b) numbers.now }
    ensures place { result ≡ place (λ n. nat_lt n number) numbers.now }
    ensures bound { result ≤ length numbers.now }
{
    if is_above(numbers, number) {
        numbers.len()
    } else {
        count_less(numbers, number)
    }
}

/// Whether a number is at a place.
fn is_number_at(numbers: &[u64], at: usize, number: u64) -> bool
    ensures { result ≡ is_some (kept_if (λ n. n == number) (slice_get numbers.now at)) }
{
    match numbers.get(at) {
        Some(n) => *n == number,
        None => false,
    }
}

/// A hint at where a number is: its index, if none between it and the last one is missing.
fn index_hint(numbers: &[u64], number: u64) -> usize {
    match numbers.last() {
        Some(last) => {
            let after = last.wrapping_sub(number);
            (numbers.len() as u64).wrapping_sub(1).wrapping_sub(after) as usize
        }
        None => 0,
    }
}

/// Where a number is among ascending ones.
pub(crate) fn index_of(numbers: &[u64], number: u64) -> Option<usize>
    requires { Ascending (λ a b. a < b) numbers.now }
    ensures there { IfSome result (λ at. slice_get numbers.now at ≡ Some number) }
    ensures none { IfNone result (has_place numbers.now number ≡ false) }
{
    let hint = index_hint(numbers, number);
    if is_number_at(numbers, hint, number) {
        return Some(hint);
    }
    let at = count_less(numbers, number);
    if is_number_at(numbers, at, number) {
        Some(at)
    } else {
        None
    }
}

/// The key at a place, if there is one.
pub(crate) fn nth_key(keys: &[usize], at: usize) -> Option<usize>
    ensures { result ≡ slice_get keys.now at }
{
    keys.get(at).copied()
}

/// The interface at a key.
pub(crate) fn interface_at<A: Allocator>(records: &Slab<Record, A>, key: usize) -> Option<Interface>
    ensures { result ≡ at_key records.now.slots key }
{
    records.get(key).map(|r| r.interface)
}

/// Whether the interface at a key is of a GUID.
fn is_key_of<A: Allocator>(records: &Slab<Record, A>, key: usize, guid: Uuid) -> bool
    ensures { result ≡ is_key_of records.now.slots guid key }
{
    match records.get(key) {
        Some(record) => is_same_guid(&record.interface.guid, &guid),
        None => false,
    }
}

/// The first of some keys whose interface is of a GUID.
pub(crate) fn find_key<A: Allocator>(
    records: &Slab<Record, A>,
    keys: &[usize],
    guid: Uuid,
) -> Option<usize>
    ensures { result ≡ find (is_key_of records.now.slots guid) keys.now }
{
    for key in keys {
        if is_key_of(records, *key, guid) {
            return Some(*key);
        }
    }
    None
}

/// Writes a GUID at a place, if there is such a place.
fn put_guid(out: &mut [Uuid], at: usize, guid: Uuid)
    ensures { out.new ≡ slice_set out.old at guid }
{
    if at < out.len() {
        out[at] = guid;
    }
}

/// Writes the GUIDs at keys, as many as fit, and returns how many there are.
pub(crate) fn write_guids<A: Allocator>(
    records: &Slab<Record, A>,
    keys: &[usize],
    out: &mut [Uuid],
) -> usize
    ensures count { result ≡ length (map (λ i. i.guid) (at_keys records.now.slots keys.now)) }
    ensures written { out.new
        ≡ written_over (map (λ i. i.guid) (at_keys records.now.slots keys.now)) out.old }
{
    let mut count = 0;
    for at in 0..keys.len() {
        if let Some(i) = interface_at(records, keys[at]) {
            put_guid(out, count, i.guid);
            count += 1;
        }
    }
    count
}
