//! A cursor over a list of entries that is a map.
ghost use Rattle.std.specs.Prelude.{◌≡◌, ◌+◌, ◌<◌, ◌≤◌, length, nat_le, Contains, IfSome, IsTrue};
ghost use Rattle.std.specs.List.{AllWithin};
ghost use Rattle.page_ranges.specs.MemoryMap.{IsMap, memory_map, memory_of};
ghost use Rattle.page_ranges.specs.Cursors.{IsBlockAt};

use page_ranges::{Descriptor, PageCursor};
use std::marker::Model;

/// How many entries are looked at one after the other before all are searched by halving.
const STEPS: usize = 64;

// How many entries end at a page or below it; they come first.
#[inline(never)]
fn count_ending_by(map: &[Descriptor], page: u64) -> usize
    requires { IsMap map.now }
    ensures bound { result ≤ length map.now }
    ensures by { AllWithin (λ e. e.first + e.pages ≤ page) map.now 0 result }
    ensures above { AllWithin (λ e. page < e.first + e.pages) map.now result (length map.now) }
{
    map.partition_point(
        |entry: &Descriptor| -> bool
            ensures { result ≡ nat_le (entry.now.first + entry.now.pages) page }
        { entry.first <= page && entry.pages <= page - entry.first },
    )
}

// Whether the entries before an index end at a page or below it.
#[inline(always)]
fn all_end_by(map: &[Descriptor], page: u64, index: usize) -> bool
    requires map { IsMap map.now }
    requires bound { index ≤ length map.now }
    ensures { IsTrue result → AllWithin (λ e. e.first + e.pages ≤ page) map.now 0 index }
{
    if index == 0 {
        return true;
    }
    let last = map[index - 1];
    last.first + last.pages <= page
}

// The same count, found by steps from an index on where that is not far below.
#[inline(always)]
fn count_ending_by_from(map: &[Descriptor], page: u64, start: usize) -> usize
    requires map { IsMap map.now }
    requires start { start ≤ length map.now }
    ensures bound { result ≤ length map.now }
    ensures by { AllWithin (λ e. e.first + e.pages ≤ page) map.now 0 result }
    ensures above { AllWithin (λ e. page < e.first + e.pages) map.now result (length map.now) }
{
    if all_end_by(map, page, start) {
        for index in start..start + STEPS.min(map.len() - start) {
            let entry = map[index];
            if page < entry.first + entry.pages {
                return index;
            }
        }
    }
    count_ending_by(map, page)
}

// The entry that holds a page, if it is the one at an index: the first that ends above the page.
#[inline(always)]
fn entry_from(map: &[Descriptor], page: u64, index: usize) -> Option<Descriptor>
    requires map { IsMap map.now }
    requires bound { index ≤ length map.now }
    requires by { AllWithin (λ e. e.first + e.pages ≤ page) map.now 0 index }
    requires above { AllWithin (λ e. page < e.first + e.pages) map.now index (length map.now) }
    ensures block { IsBlockAt (memory_of map.now) page result }
    ensures member { IfSome result (λ e. Contains map.now e) }
{
    if index == map.len() {
        return None;
    }
    let entry = map[index];
    if entry.first <= page {
        Some(entry)
    } else {
        None
    }
}

/// Looks up pages in a list of entries that is a map.
#[derive(Drop)]
pub(crate) struct MapCursor<'a> {
    map: &'a [Descriptor],
    // The entry that is looked at first.
    index: usize,
}

impl<'a> Model for MapCursor<'a> {
    ghost use Rattle.std.specs.Prelude.{◌≤◌, List, length};
    ghost use Rattle.page_ranges.specs.Memory.{Page};
    ghost use Rattle.page_ranges.specs.MemoryMap.{IsMap, memory_of};

    ghost Value = { List Page };

    ghost view = { λ c. memory_of c.map.now };

    ghost invariant = { λ c. IsMap c.map.now × (c.index ≤ length c.map.now) };
}

impl<'a> MapCursor<'a> {
    pub(crate) fn new(map: &'a [Descriptor]) -> MapCursor<'a>
        requires { IsMap map.now }
        ensures { result ≡ memory_of map.now }
    {
        MapCursor { map, index: 0 }
    }
}

impl<'a> PageCursor for MapCursor<'a> {
    ghost memory = { λ c. c };

    #[inline(always)]
    fn block_at(&mut self, page: u64) -> Option<Descriptor>
        ensures stays { self.new ≡ self.old }
        ensures block { IsBlockAt self.old page result }
        ensures entry { IfSome result (λ e. Contains (memory_map self.old) e) }
    {
        let map = self.map;
        let index = count_ending_by_from(map, page, self.index);
        self.index = index;
        entry_from(map, page, index)
    }
}
