//! The best start in tables of many leaves, as they change, beside a search over single pages.
ghost use Rattle.std.specs.Prelude.{◌≡◌, ◌<◌, ◌≤◌, IsTrue};
ghost use Rattle.page_ranges.specs.Memory.{AllInRange, IsPresent, IsProperMemory};
ghost use Rattle.page_ranges.specs.Runs.{pages_of, AreRuns};
ghost use Rattle.placement_certificate.specs.Placement.{IsProperRequest};

use super::choices::{drawn_machine, in_granules, next_draw};
use super::request;
use descriptor_table::RunTable;
use page_ranges::{MemoryType, Owner, PageRange, Run, is_specific_purpose};
use placement_certificate::Request;
use placement_chooser::best_start;
use std::process::Abort;

/// The type and the attributes of a page that is present.
pub type Page = Option<(u32, u64)>;

// The page of each number up to the last one of a machine.
pub fn pages_by_number(rt: &(impl AllocGlobal + Abort), runs: &[Run]) -> Vec<Page> {
    let mut list = Vec::new(rt.alloc());
    for run in runs {
        for _hole in list.len() as u64..run.range.first {
            list.push(None).expect(rt, "memory");
        }
        for _page in 0..run.range.pages {
            list.push(Some((run.mtype.number(), run.attributes)))
                .expect(rt, "memory");
        }
    }
    list
}

fn page_at(list: &[Page], number: u64) -> Page {
    *list.get(number as usize)?
}

// A page once a range has a type.
fn page_after(list: &[Page], number: u64, range: PageRange, mtype: MemoryType) -> Page {
    let (was, attributes) = page_at(list, number)?;
    if number.wrapping_sub(range.first) < range.pages {
        return Some((mtype.number(), mtype.attributes_as(attributes)));
    }
    Some((was, attributes))
}

// By how many entries the map grows, with as many pages added as the range has: there are no more entries in
// the range and behind it than that.
fn growth(list: &[Page], range: PageRange, mtype: MemoryType) -> u64 {
    let mut count = range.pages.wrapping_add(1);
    for number in range.first..range.first.saturating_add(range.pages).saturating_add(1) {
        let below = number.wrapping_sub(1);
        let page = page_at(list, number);
        if page.is_some() && page != page_at(list, below) {
            count = count.wrapping_sub(1);
        }
        let page = page_after(list, number, range, mtype);
        if page.is_some() && page != page_after(list, below, range, mtype) {
            count = count.wrapping_add(1);
        }
    }
    count
}

fn is_available(page: Page) -> bool {
    match page {
        Some((number, attributes)) => number == 7 && !is_specific_purpose(attributes),
        None => false,
    }
}

// The highest of the starts after which the map is shortest, by trying each from the highest down.
pub fn start_by_pages(list: &[Page], request: &Request) -> Option<u64> {
    let mut best = None;
    let mut room = 0_u64;
    for number in (0..list.len() as u64).rev() {
        let is_below = number < request.limit && is_available(page_at(list, number));
        room = if is_below { room.saturating_add(1) } else { 0 };
        if room >= request.pages && number & request.granule.wrapping_sub(1) == 0 {
            let range = PageRange {
                first: number,
                pages: request.pages,
            };
            let count = growth(list, range, request.mtype);
            best = match best {
                Some((least, start)) if least <= count => Some((least, start)),
                _ => Some((count, number)),
            };
        }
    }
    Some(best?.1)
}

// Whether all pages of a range of few pages are present.
fn are_present(table: &RunTable, range: PageRange) -> bool
    ensures { IsTrue result → AllInRange table.now.pages range IsPresent }
{
    if range.first > 100_000 || range.pages > 1_000 {
        return false;
    }
    for page in range.first..range.first + range.pages {
        if table.run_at(page).is_none() {
            return false;
        }
    }
    true
}

// Gives the pages of a range a type, if all are present.
fn change(
    rt: &impl Abort,
    table: &mut RunTable,
    list: &mut [Page],
    range: PageRange,
    mtype: MemoryType,
) {
    if !are_present(table, range) {
        return;
    }
    table
        .retype(range, mtype, Owner::Given)
        .expect(rt, "memory");
    for number in range.first..range.first.saturating_add(range.pages) {
        let page = page_after(list, number, range, mtype);
        if let Some(place) = list.get_mut(number as usize) {
            *place = page;
        }
    }
}

// A request of a kind of its number, below a limit that lies among twice as many pages as the machine has or
// for any place: for few pages or many, in granules of 16 or not, and for more pages than there are.
fn drawn_request(draw: u64, machine_pages: usize) -> Request
    ensures { IsProperRequest result }
{
    let limit = (draw >> 16) % (2 * (machine_pages as u64).min(100_000) + 1);
    let pages = (draw >> 40) % 24 + 1;
    match draw >> 56 & 15 {
        0 => in_granules(6, 16, limit),
        1 => in_granules(10, 32, u64::MAX),
        2 => in_granules(0, 16, u64::MAX),
        3 => in_granules(5, 48, limit),
        4 => request(4, pages, limit),
        5 => request(6, pages, u64::MAX),
        6 => request(5, pages % 3 + 1, u64::MAX),
        7 => request(0x8000_0004, pages % 8 + 1, u64::MAX),
        8 => request(10, pages % 8 + 1, limit),
        9 => request(2, pages + 60, u64::MAX),
        10 => request(0, pages % 4 + 1, u64::MAX),
        11 => request(1, pages + 100_000, u64::MAX),
        _ => request(4, pages % 6 + 1, u64::MAX),
    }
}

// A range of up to three pages, perhaps none, among as many as the machine has.
fn drawn_range(draw: u64, machine_pages: usize) -> PageRange {
    PageRange {
        first: (draw >> 20) % (machine_pages as u64).saturating_add(1),
        pages: draw >> 32 & 3,
    }
}

// The type that a drawn range is given: mostly free, and else one that only changes what is beside free pages.
fn drawn_type(draw: u64) -> MemoryType {
    match draw >> 60 & 3 {
        0 => MemoryType::new(6),
        1 => MemoryType::new(4),
        _ => MemoryType::new(7),
    }
}

// Places pages by drawn requests and changes drawn ranges, and asserts that each place is the best. Returns how
// many requests there is a place for.
pub fn assert_places(rt: &(impl AllocGlobal + Abort), runs: &[Run], seed: u64, calls: u64) -> u64
    requires runs { AreRuns runs.now }
    requires proper { IsProperMemory (pages_of runs.now) }
{
    let mut table = RunTable::from_runs(rt.alloc(), runs).expect(rt, "memory");
    let mut list = pages_by_number(rt, runs);
    let mut draw = seed;
    let mut placed = 0_u64;
    for _call in 0..calls {
        draw = next_draw(draw);
        if is_placed(rt, &mut table, list.as_mut_slice(), draw) {
            placed = placed.saturating_add(1);
        }
        let range = drawn_range(draw, list.len());
        change(rt, &mut table, list.as_mut_slice(), range, drawn_type(draw));
    }
    placed
}

// Asserts that the place of a drawn request is the best, and places its pages there. Returns whether there is one.
fn is_placed(rt: &impl Abort, table: &mut RunTable, list: &mut [Page], draw: u64) -> bool {
    let request = drawn_request(draw, list.len());
    let found = best_start(table, &request);
    assert!(rt; found == start_by_pages(list, &request), "at {draw}");
    let Some(first) = found else {
        return false;
    };
    let range = PageRange {
        first,
        pages: request.pages,
    };
    change(rt, table, list, range, request.mtype);
    true
}

// How many runs a machine of a seed has, up to how many pages each, and of how many kinds: one in eight is large.
fn size_of(seed: u64) -> (u64, u64, u64)
    ensures count { seed < 1000 → result.0 ≤ 2000 }
    ensures most { (0 < result.1) × (result.1 ≤ 75) }
    ensures kinds { 0 < result.2 }
{
    let kinds = match seed % 3 {
        0 => 6,
        1 => 12,
        _ => 24,
    };
    match seed % 8 {
        0 => (seed.saturating_mul(2), 11, kinds),
        1 => (seed / 8, 75, kinds),
        _ => (seed / 4, 11, kinds),
    }
}

/// Tables of up to 2,000 runs.
#[test]
fn places_as_pages_say(rt: HostRuntime) {
    let mut placed = 0_u64;
    for seed in 0..1_000 {
        let (count, most, kinds) = size_of(seed);
        let runs = drawn_machine(rt.alloc(), seed, count, most, kinds).expect(&rt, "memory");
        placed = placed.saturating_add(assert_places(&rt, runs.as_slice(), seed, 60));
    }
    assert!(rt; placed >= 30_000, "places for {placed}");
}
