//! A plain list of pages, what changes make of it, and whether a table is that of a list.
ghost use Rattle.std.specs.Prelude.{◌≡◌, ◌↔◌, IsTrue};
ghost use Rattle.page_ranges.specs.declared.ranges.Owner.TheVariants.{Given};
ghost use Rattle.page_ranges.specs.MemoryTypes.{conventional};
ghost use Rattle.page_ranges.specs.Memory.{page_at, IsPresent, AllInRange};

use boot_machines::Machine;
use descriptor_table::{FreeRun, LeafDown, LeafUp, RunTable, Wanted};
use page_ranges::{Descriptor, MemoryType, Owner, PageRange, Run};
use std::alloc::Allocator;
use std::process::Abort;

const RUNTIME: u64 = 0x8000_0000_0000_0000;

pub fn run(first: u64, pages: u64, number: u32, attributes: u64) -> Run {
    Run {
        range: PageRange { first, pages },
        mtype: MemoryType::new(number),
        attributes,
        owner: Owner::Given,
    }
}

// A table of a machine's runs, and its list.
pub fn table_of<A: Allocator + Copy>(
    rt: &(impl AllocGlobal + Abort),
    alloc: A,
    runs: &[Run],
) -> (RunTable<A>, Vec<Run>) {
    let copied = Vec::from_slice(rt.alloc(), runs).expect(rt, "memory");
    let machine = Machine::new(copied, 1).expect(rt, "a machine");
    let table = RunTable::from_runs(alloc, machine.runs()).expect(rt, "memory");
    (table, listed(rt, runs))
}

// The plain list: a run of one page for each page that is present.
pub fn listed(rt: &(impl AllocGlobal + Abort), runs: &[Run]) -> Vec<Run> {
    let mut list = Vec::new(rt.alloc());
    for run in runs {
        for first in run.range.first..run.range.first.saturating_add(run.range.pages) {
            let range = PageRange { first, pages: 1 };
            list.push(Run { range, ..*run }).expect(rt, "memory");
        }
    }
    list
}

pub fn is_in(range: PageRange, page: u64) -> bool {
    page >= range.first && page - range.first < range.pages
}

// Gives the pages of a range a type and an owner.
pub fn change_list(list: &mut [Run], range: PageRange, number: u32, owner: Owner) {
    for index in 0..list.len() {
        if is_in(range, list[index].range.first) {
            let kept = list[index].attributes & !RUNTIME;
            list[index].mtype = MemoryType::new(number);
            list[index].attributes = if number == 5 || number == 6 {
                kept | RUNTIME
            } else {
                kept
            };
            list[index].owner = owner;
        }
    }
}

pub fn goes_on(run: &Run, page: &Run, is_split_by_owner: bool) -> bool {
    run.range.first.saturating_add(run.range.pages) == page.range.first
        && run.mtype == page.mtype
        && run.attributes == page.attributes
        && (!is_split_by_owner || run.owner == page.owner)
}

// The runs of the list, by joining each page to those before it.
pub fn joined(rt: &(impl AllocGlobal + Abort), list: &[Run], is_split_by_owner: bool) -> Vec<Run> {
    let mut runs: Vec<Run> = Vec::new(rt.alloc());
    for page in list {
        match runs.last_mut() {
            Some(last) if goes_on(last, page, is_split_by_owner) => {
                last.range.pages = last.range.pages.saturating_add(1);
            }
            _ => runs.push(*page).expect(rt, "memory"),
        }
    }
    runs
}

pub fn entry_of(run: &Run) -> Descriptor {
    Descriptor {
        mtype: run.mtype,
        first: run.range.first,
        pages: run.range.pages,
        attributes: run.attributes,
    }
}

fn is_present<A: Allocator + Copy>(table: &RunTable<A>, page: u64) -> bool
    ensures { IsTrue result ↔ IsPresent (page_at table.now.pages page) }
{
    table.run_at(page).is_some()
}

// Whether all pages of a range are present.
pub fn are_present<A: Allocator + Copy>(table: &RunTable<A>, range: PageRange) -> bool
    ensures { IsTrue result → AllInRange table.now.pages range IsPresent }
{
    if range.first > 100_000 || range.pages > 5_000 {
        return false;
    }
    for page in range.first..range.first + range.pages {
        if !is_present(table, page) {
            return false;
        }
    }
    true
}

pub fn next_draw(draw: u64) -> u64 {
    draw.wrapping_mul(6_364_136_223_846_793_005)
        .wrapping_add(1_442_695_040_888_963_407)
}

// A drawn type and owner; free pages are the machine's own.
pub fn drawn_kind(draw: u64) -> (u32, Owner)
    ensures { result.0 ≡ conventional → result.1 ≡ Given }
{
    let owner = match draw >> 3 & 3 {
        0 => Owner::Given,
        1 => Owner::Pool,
        _ => Owner::Pages,
    };
    match draw & 7 {
        0 => (4, owner),
        1 => (5, owner),
        2 => (6, owner),
        3 => (0x7000_0000, owner),
        _ => (7, Owner::Given),
    }
}

// Gives a range of a table and of its list a type and an owner, if all its pages are present.
pub fn change_both<A: Allocator + Copy>(
    rt: &impl Abort,
    table: &mut RunTable<A>,
    list: &mut [Run],
    range: PageRange,
    kind: (u32, Owner),
)
    requires { kind.0 ≡ conventional → kind.1 ≡ Given }
{
    if are_present(table, range) {
        table
            .retype(range, MemoryType::new(kind.0), kind.1)
            .expect(rt, "memory");
        change_list(list, range, kind.0, kind.1);
    }
}

// Whether a run that the table has is one of a run's kind that holds a page; both may be none.
fn is_block_of(block: Option<&Run>, run: Option<Run>, page: u64) -> bool {
    match (block, run) {
        (Some(block), Some(run)) => {
            block.mtype == run.mtype
                && block.attributes == run.attributes
                && is_in(block.range, page)
        }
        (None, None) => true,
        _ => false,
    }
}

// Whether there is a run, a free one.
fn is_free(run: Option<Run>) -> bool {
    match run {
        Some(run) => run.mtype.number() == 7,
        None => false,
    }
}

// The next free entry of a leaf, if there is a leaf.
fn next_free<'a, A: Allocator + Copy>(leaf: &mut Option<LeafUp<'a, A>>) -> Option<FreeRun<'a, A>> {
    match leaf {
        Some(leaf) => leaf.next_entry(),
        None => None,
    }
}

// The entry at an index, if it holds a page.
fn holding_at(entries: &[Run], index: usize, page: u64) -> Option<Run> {
    match entries.get(index) {
        Some(entry) if is_in(entry.range, page) => Some(*entry),
        _ => None,
    }
}

// Asserts that a free entry is one of the plain list, and what the table says of the pages beside it.
fn assert_beside<A: Allocator + Copy>(
    rt: &impl Abort,
    free: &FreeRun<'_, A>,
    entries: &[Run],
    index: usize,
) {
    let entry = entries.get(index).expect(rt, "an entry");
    let before = entry.range.first.wrapping_sub(1);
    let after = entry.range.first.saturating_add(entry.range.pages);
    let (lower, upper) = (index.wrapping_sub(1), index.saturating_add(1));
    assert!(rt; entry_of(free.run()) == entry_of(entry));
    assert!(rt; is_block_of(free.below(), holding_at(entries, lower, before), before));
    assert!(rt; is_block_of(free.above(), holding_at(entries, upper, after), after));
    assert!(rt; free.goes_on() == is_free(holding_at(entries, upper, after)));
}

// Asserts that the free entries, leaf by leaf, are those of the plain list, and that each leaf given has some.
fn assert_free<A: Allocator + Copy>(rt: &impl Abort, table: &RunTable<A>, entries: &[Run]) {
    let mut left = table.free_entries();
    let mut leaf = left.next_leaf();
    for index in 0..entries.len() {
        if entries[index].mtype.number() == 7 {
            let mut free = next_free(&mut leaf);
            if free.is_none() {
                leaf = left.next_leaf();
                free = next_free(&mut leaf);
            }
            assert_beside(rt, &free.expect(rt, "a free entry"), entries, index);
        }
    }
    assert!(rt; next_free(&mut leaf).is_none());
    assert!(rt; left.next_leaf().is_none());
}

// Puts the first pages of a leaf's free entries of at least a number of pages after others.
fn push_down<A: Allocator + Copy>(
    rt: &impl Abort,
    leaf: &mut LeafDown<'_, A>,
    pages: u64,
    firsts: &mut Vec<u64>,
) {
    for _entry in 0..32 {
        let Some(free) = leaf.next_entry() else {
            return;
        };
        let range = free.run().range;
        if range.pages >= pages {
            firsts.push(range.first).expect(rt, "memory");
        }
    }
}

// Asserts that a search from the highest entry down, which passes over leaves of no use, finds the free entries of at
// least a number of pages.
fn assert_down<A: Allocator + Copy>(
    rt: &(impl AllocGlobal + Abort),
    table: &RunTable<A>,
    entries: &[Run],
    pages: u64,
) {
    let wanted = Wanted {
        mtype: MemoryType::new(4),
        pages,
        limit: 1 << 52,
        gain: 0,
    };
    let mut firsts = Vec::new(rt.alloc());
    let mut down = table.entries_down();
    for _leaf in 0..table.leaves().len() {
        if let Some(mut leaf) = down.next_leaf(&wanted) {
            push_down(rt, &mut leaf, pages, &mut firsts);
        }
    }
    for entry in entries {
        if entry.mtype.number() == 7 && entry.range.pages >= pages {
            assert!(rt; firsts.pop() == Some(entry.range.first));
        }
    }
    assert!(rt; firsts.is_empty());
}

// Asserts that the leaves have the runs of the plain list, and that they are not too empty: two neighbours have more than 24.
fn assert_runs<A: Allocator + Copy>(rt: &impl Abort, table: &RunTable<A>, runs: &[Run]) {
    let mut index = 0_usize;
    for leaf in table.leaves() {
        for run in leaf.runs() {
            assert!(rt; runs.get(index).copied() == Some(*run));
            index = index.saturating_add(1);
        }
    }
    assert!(rt; index == runs.len() && table.len() == index);
    assert!(rt; table.is_empty() == runs.is_empty());
    assert!(rt; table.leaves().len() <= most_leaves(index));
}

// How many leaves a table of a number of runs has at most, if no two neighbours are few enough to be one.
pub fn most_leaves(runs: usize) -> usize {
    (runs / 25).saturating_mul(2).saturating_add(2)
}

fn assert_entries<A: Allocator + Copy>(rt: &impl Abort, table: &RunTable<A>, entries: &[Run]) {
    assert!(rt; table.descriptors() == entries.len());
    let mut found = table.map_entries();
    for entry in entries {
        assert!(rt; found.next() == Some(entry_of(entry)));
    }
    assert!(rt; found.next().is_none());
}

// Asserts what the table returns for some indices, the first one and that after the last among them.
fn assert_indices<A: Allocator + Copy>(
    rt: &impl Abort,
    table: &RunTable<A>,
    runs: &[Run],
    entries: &[Run],
) {
    for tenth in 0..11_usize {
        let place = runs.len().saturating_mul(tenth) / 10;
        assert!(rt; table.run(place) == runs.get(place).copied());
        let index = entries.len().saturating_mul(tenth) / 10;
        assert!(rt; table.descriptor(index) == entry_at(entries, index));
    }
}

fn entry_at(entries: &[Run], index: usize) -> Option<Descriptor> {
    match entries.get(index) {
        Some(entry) => Some(entry_of(entry)),
        None => None,
    }
}

// Asserts that a table is that of a list, and what searches in it find.
pub fn assert_table<A: Allocator + Copy>(
    rt: &(impl AllocGlobal + Abort),
    table: &RunTable<A>,
    list: &[Run],
) {
    let runs = joined(rt, list, true);
    let entries = joined(rt, list, false);
    assert_runs(rt, table, runs.as_slice());
    assert_entries(rt, table, entries.as_slice());
    assert_indices(rt, table, runs.as_slice(), entries.as_slice());
    assert_free(rt, table, entries.as_slice());
    for pages in [1, 2, 100] {
        assert_down(rt, table, entries.as_slice(), pages);
    }
}
