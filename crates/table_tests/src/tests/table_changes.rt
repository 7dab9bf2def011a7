//! Changes of tables, drawn ones and those at each place, against a plain list of pages.
ghost use Rattle.std.specs.Prelude.{◌≡◌};
ghost use Rattle.page_ranges.specs.declared.ranges.Owner.TheVariants.{Given};
ghost use Rattle.page_ranges.specs.MemoryTypes.{conventional};

use super::page_lists::{
    are_present, assert_table, change_both, drawn_kind, entry_of, is_in, joined, next_draw, run,
    table_of,
};
use super::shapes::{Shape, with_attributes, with_types};
use descriptor_table::RunTable;
use page_ranges::{Descriptor, Owner, PageCursor, PageRange, Run};
use std::process::Abort;

/// Page numbers that are asked about are below this.
const PAGES: u64 = 34;

// Free memory with two sets of attributes, two holes, and runtime code.
fn machine() -> [Run; 5] {
    [
        run(0, 9, 7, 0xf),
        run(9, 6, 7, 0x7),
        run(16, 3, 5, 0x8000_0000_0000_000f),
        run(19, 5, 4, 0xf),
        run(26, 6, 7, 0xf),
    ]
}

// How many pages of a range are in the list.
fn count_in(list: &[Run], range: PageRange) -> u64 {
    let mut count = 0_u64;
    for page in list {
        if is_in(range, page.range.first) {
            count = count.saturating_add(1);
        }
    }
    count
}

// The run that holds a page.
fn holding(runs: &[Run], page: u64) -> Option<Run> {
    for run in runs {
        if is_in(run.range, page) {
            return Some(*run);
        }
    }
    None
}

// Whether a page is free, and whether it is owned by Pages.
fn kind_at(list: &[Run], number: u64) -> (bool, bool) {
    for page in list {
        if page.range.first == number {
            return (page.mtype.number() == 7, page.owner == Owner::Pages);
        }
    }
    (false, false)
}

// The entry that holds a page.
fn block_at(entries: &[Run], page: u64) -> Option<Descriptor> {
    match holding(entries, page) {
        Some(entry) => Some(entry_of(&entry)),
        None => None,
    }
}

// Changes a range of the table and of the list, if all its pages are present.
fn change(rt: &impl Abort, table: &mut RunTable, list: &mut [Run], draw: u64) {
    let range = PageRange {
        first: draw >> 30 & 31,
        pages: (draw >> 40 & 15) % 11,
    };
    assert!(rt; (count_in(list, range) == range.pages) == are_present(table, range));
    change_both(rt, table, list, range, drawn_kind(draw >> 50));
}

// Asserts that the runs that hold pages are those of the list.
fn assert_pages(rt: &impl Abort, table: &RunTable, runs: &[Run]) {
    let mut below = None;
    for page in 0..PAGES {
        let found = holding(runs, page);
        assert!(rt; table.run_at(page) == found, "at {page}");
        assert!(rt; table.edge(page) == (below, found), "edge at {page}");
        below = found;
    }
}

// Asserts that one cursor finds the runs of the list, upward, downward and far away.
fn assert_cursor(rt: &impl Abort, table: &RunTable, runs: &[Run]) {
    let mut cursor = table.cursor();
    for page in 0..PAGES {
        let down = PAGES - 1 - page;
        assert!(rt; cursor.run_at(page) == holding(runs, page), "at {page}");
        assert!(rt;
            cursor.run_at(down) == holding(runs, down),
            "down at {down}"
        );
    }
    for page in 0..PAGES {
        assert!(rt;
            cursor.block_at(page) == block_at(runs, page),
            "block at {page}"
        );
    }
}

// Asserts what the table returns for ranges that begin at a page.
fn assert_ranges(rt: &impl Abort, table: &RunTable, list: &[Run], first: u64) {
    let mut are_free = true;
    let mut are_placed = true;
    for pages in 0..9 {
        let range = PageRange { first, pages };
        assert!(rt;
            table.all_conventional(range) == are_free,
            "{first} {pages}"
        );
        assert!(rt;
            table.all_owned(range, Owner::Pages) == are_placed,
            "{first} {pages}"
        );
        let (is_free, is_placed) = kind_at(list, first.saturating_add(pages));
        are_free = are_free && is_free;
        are_placed = are_placed && is_placed;
    }
}

fn assert_same(rt: &(impl AllocGlobal + Abort), table: &RunTable, list: &[Run]) {
    let runs = joined(rt, list, true);
    assert_pages(rt, table, runs.as_slice());
    assert_cursor(rt, table, runs.as_slice());
    assert_table(rt, table, list);
    for first in 0..PAGES {
        assert_ranges(rt, table, list, first);
    }
}

// Makes twenty changes of the machine's table, from a draw on, and returns the last draw.
fn change_small(rt: &(impl AllocGlobal + Abort), first: u64) -> u64 {
    let (mut table, mut list) = table_of(rt, rt.alloc(), &machine());
    let mut draw = first;
    for _change in 0..20 {
        draw = next_draw(draw);
        change(rt, &mut table, list.as_mut_slice(), draw);
        assert_same(rt, &table, list.as_slice());
    }
    draw
}

#[test]
fn changes_are_those_of_the_pages(rt: HostRuntime) {
    let mut draw = 1;
    for _table in 0..20 {
        draw = change_small(&rt, draw);
    }
}

#[test]
fn a_table_may_be_of_no_pages(rt: HostRuntime) {
    let (mut table, mut list) = with_types(0, 0, 0).made(&rt, rt.alloc());
    assert_table(&rt, &table, list.as_slice());
    let range = PageRange { first: 5, pages: 0 };
    change_both(&rt, &mut table, list.as_mut_slice(), range, drawn_kind(0));
    assert_table(&rt, &table, list.as_slice());
}

// Asserts what a change, if all its pages are present, makes of a table.
fn assert_change(
    rt: &(impl AllocGlobal + Abort),
    shape: Shape,
    range: PageRange,
    kind: (u32, Owner),
)
    requires { kind.0 ≡ conventional → kind.1 ≡ Given }
{
    let (mut table, mut list) = shape.made(rt, rt.alloc());
    change_both(rt, &mut table, list.as_mut_slice(), range, kind);
    assert_table(rt, &table, list.as_slice());
}

// Asserts what changes to data, to free memory and to runtime data make of a table at each place.
fn assert_places(rt: &(impl AllocGlobal + Abort), shape: Shape) {
    for first in 0..shape.end() {
        for pages in [1, 3, 66] {
            for draw in [0, 7, 18] {
                assert_change(rt, shape, PageRange { first, pages }, drawn_kind(draw));
            }
        }
    }
}

// Leaves of 16 runs or full ones, which touch or have a page missing between them. Changes join runs of them, or cut some.
#[test]
fn changes_at_the_borders_of_leaves(rt: HostRuntime) {
    for gap in [0, 1] {
        for (runs, extra) in [(1, 0), (48, 0), (32, 16)] {
            assert_places(&rt, with_types(runs, extra, gap));
        }
    }
}

// The same where runs that touch have other attributes, so that they are not joined.
#[test]
fn changes_of_leaves_that_are_unlike(rt: HostRuntime) {
    for (runs, extra) in [(48, 0), (32, 16)] {
        assert_places(&rt, with_attributes(runs, extra, 0));
    }
}
