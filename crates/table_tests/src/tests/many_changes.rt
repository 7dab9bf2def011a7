//! A million drawn changes of a table of more than 20,000 runs, against a plain list of pages.
ghost use Rattle.std.specs.Prelude.{◌≡◌};
ghost use Rattle.page_ranges.specs.declared.ranges.Owner.TheVariants.{Given};
ghost use Rattle.page_ranges.specs.MemoryTypes.{conventional};

use super::page_lists::{
    are_present, assert_table, change_list, drawn_kind, goes_on, most_leaves, next_draw, run,
    table_of,
};
use descriptor_table::RunTable;
use page_ranges::{MemoryType, Owner, PageRange, Run};
use refusing_memory::Refusing;
use std::alloc::{Allocator, Global};
use std::process::Abort;

// How many pages the machine has, a power of two.
const MACHINE_PAGES: u64 = 65_536;

// All pages of the machine: the page of a number is at that index. How many runs and map entries they make, how many
// changes gave a page another type or owner, and how many were refused memory.
#[derive(Drop)]
struct Pages {
    list: Vec<Run>,
    runs: usize,
    entries: usize,
    changed: usize,
    refused: usize,
}

// Whether a run or an entry begins with the page at an index.
fn begins(list: &[Run], index: usize, is_split_by_owner: bool) -> bool {
    if index == 0 {
        return true;
    }
    match (list.get(index - 1), list.get(index)) {
        (Some(below), Some(page)) => !goes_on(below, page, is_split_by_owner),
        _ => false,
    }
}

// How many runs or entries begin in a range or with the page after it.
fn count_beginning(list: &[Run], range: PageRange, is_split_by_owner: bool) -> usize {
    let mut count = 0_usize;
    for page in range.first..range.first.saturating_add(range.pages).saturating_add(1) {
        if begins(list, page as usize, is_split_by_owner) {
            count = count.saturating_add(1);
        }
    }
    count
}

// Whether a page of a range has another type or owner than these.
fn has_others(list: &[Run], range: PageRange, number: u32, owner: Owner) -> bool {
    for page in range.first..range.first.saturating_add(range.pages) {
        match list.get(page as usize) {
            Some(run) if run.mtype.number() == number && run.owner == owner => {}
            _ => return true,
        }
    }
    false
}

// Gives the pages of a range a type and an owner, and counts what begins there before and after.
fn change_pages(pages: &mut Pages, range: PageRange, number: u32, owner: Owner) {
    let list = pages.list.as_mut_slice();
    let runs = count_beginning(list, range, true);
    let entries = count_beginning(list, range, false);
    let end = list
        .len()
        .min(range.first.saturating_add(range.pages) as usize);
    let first = end.min(range.first as usize);
    if has_others(list, range, number, owner) {
        pages.changed = pages.changed.saturating_add(1);
    }
    change_list(&mut list[first..end], range, number, owner);
    let new_runs = count_beginning(list, range, true);
    let new_entries = count_beginning(list, range, false);
    pages.runs = pages.runs.wrapping_sub(runs).wrapping_add(new_runs);
    pages.entries = pages
        .entries
        .wrapping_sub(entries)
        .wrapping_add(new_entries);
}

// The index of the first page of the run of the page at an index.
fn first_of_run(list: &[Run], index: usize) -> usize {
    for back in 0..index {
        if begins(list, index - back, true) {
            return index - back;
        }
    }
    0
}

// The run that holds a page, found by going down to its first page and then up.
fn run_around(list: &[Run], page: u64) -> Option<Run> {
    list.get(page as usize)?;
    let first = first_of_run(list, page as usize);
    let mut found = *list.get(first)?;
    for next in list.get(first.saturating_add(1)..)? {
        if !goes_on(&found, next, true) {
            return Some(found);
        }
        found.range.pages = found.range.pages.saturating_add(1);
    }
    Some(found)
}

// Asserts how many leaves and entries the table has, and which runs hold the pages below and at a number.
fn assert_edge<A: Allocator + Copy>(
    rt: &impl Abort,
    table: &RunTable<A>,
    pages: &Pages,
    page: u64,
) {
    let list = pages.list.as_slice();
    assert!(rt; table.leaves().len() <= most_leaves(pages.runs));
    assert!(rt; table.descriptors() == pages.entries);
    let (below, above) = table.edge(page);
    assert!(rt; above == run_around(list, page));
    if page > 0 {
        assert!(rt; below == run_around(list, page - 1));
    }
}

// A drawn range of one to three pages of the machine, now and then of many.
fn drawn_range(draw: u64) -> PageRange {
    let pages = match draw >> 20 & 1_023 {
        0 => 300,
        drawn => 1 + drawn % 3,
    };
    let first = draw >> 30 & (MACHINE_PAGES - 1);
    PageRange {
        first: first.min(MACHINE_PAGES - pages),
        pages,
    }
}

// Whether all pages of a range are free, and whether AllocatePages placed them all.
fn kinds_in(list: &[Run], range: PageRange) -> (bool, bool) {
    let mut are_free = true;
    let mut are_placed = true;
    for page in range.first..range.first.saturating_add(range.pages) {
        let Some(run) = list.get(page as usize) else {
            return (false, false);
        };
        are_free = are_free && run.mtype.number() == 7;
        are_placed = are_placed && run.owner == Owner::Pages;
    }
    (are_free, are_placed)
}

// Asserts that the table finds whether a range is free, and whether AllocatePages placed it. It then keeps where the range
// begins.
fn assert_found<A: Allocator + Copy>(
    rt: &impl Abort,
    table: &mut RunTable<A>,
    pages: &Pages,
    range: PageRange,
) {
    let (are_free, are_placed) = kinds_in(pages.list.as_slice(), range);
    assert!(rt; table.all_conventional(range) == are_free);
    assert!(rt; table.all_owned(range, Owner::Pages) == are_placed);
    let mut cursor = table.cursor();
    assert!(rt; cursor.run_at(range.first / 2) == table.run_at(range.first / 2));
    assert!(rt; cursor.run_at(range.first) == run_around(pages.list.as_slice(), range.first));
    assert!(rt; table.find_owned(range, Owner::Pages) == are_placed);
}

// Changes a range of the table, for whose allocations a number is refused. Returns whether this was so; the table is then
// as it was.
fn is_refused<A: Allocator + Copy>(
    rt: &impl Abort,
    heap: &Refusing<Global>,
    table: &mut RunTable<A>,
    range: PageRange,
    kind: (u32, Owner),
    number: u64,
) -> bool
    requires { kind.0 ≡ conventional → kind.1 ≡ Given }
{
    assert!(rt; are_present(table, range));
    heap.refuse(number);
    let answer = table.retype(range, MemoryType::new(kind.0), kind.1);
    heap.refuse(0);
    answer.is_err()
}

// Changes a drawn range of the table and of the list, where memory is refused once more without it. The table has most
// often been asked for the range, or for another one, since the last change.
fn change_drawn<A: Allocator + Copy>(
    rt: &impl Abort,
    heap: &Refusing<Global>,
    table: &mut RunTable<A>,
    pages: &mut Pages,
    draw: u64,
) {
    let range = drawn_range(draw);
    let kind = drawn_kind(draw >> 50);
    match draw >> 16 & 3 {
        0 => {}
        1 => assert_found(rt, table, pages, drawn_range(draw.rotate_left(23))),
        _ => assert_found(rt, table, pages, range),
    }
    if is_refused(rt, heap, table, range, kind, draw >> 40 & 3) {
        pages.refused = pages.refused.saturating_add(1);
        assert_edge(rt, table, pages, range.first);
        assert!(rt; !is_refused(rt, heap, table, range, kind, 0));
    }
    change_pages(pages, range, kind.0, kind.1);
    assert_edge(rt, table, pages, range.first);
    assert_edge(rt, table, pages, range.first.saturating_add(range.pages));
}

// The first of eleven parts brings the table to its many runs. Of the changes four in five change a page.
#[test]
fn a_million_changes_are_those_of_the_pages(rt: HostRuntime) {
    let heap = Refusing::new(rt.alloc());
    let (mut table, list) = table_of(&rt, &heap, &[run(0, MACHINE_PAGES, 7, 0xf)]);
    let mut pages = Pages {
        list,
        runs: 1,
        entries: 1,
        changed: 0,
        refused: 0,
    };
    let mut draw = 3;
    for _part in 0..11 {
        for _change in 0..125_000 {
            draw = next_draw(draw);
            change_drawn(&rt, &heap, &mut table, &mut pages, draw);
        }
        assert_table(&rt, &table, pages.list.as_slice());
        assert!(rt; table.len() == pages.runs && pages.runs > 20_000);
    }
    assert!(rt; pages.changed > 1_000_000 && pages.refused > 100);
}
