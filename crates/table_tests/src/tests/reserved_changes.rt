//! Changes of a table for which memory is reserved, and memory that is refused.
ghost use Rattle.std.specs.Prelude.{◌≡◌};
ghost use Rattle.page_ranges.specs.declared.ranges.Owner.TheVariants.{Given};
ghost use Rattle.page_ranges.specs.MemoryTypes.{conventional};

use super::page_lists::{
    are_present, assert_table, change_list, drawn_kind, next_draw, run, table_of,
};
use super::shapes::{Shape, with_attributes, with_types};
use boot_machines::Machine;
use descriptor_table::RunTable;
use page_ranges::{MemoryType, Owner, PageRange, Run};
use refusing_memory::Refusing;
use std::alloc::{Allocator, Global};
use std::process::Abort;

// Makes one change, for which memory is reserved, of a table and of its list.
fn change_reserved<A: Allocator + Copy>(
    rt: &impl Abort,
    table: &mut RunTable<A>,
    list: &mut [Run],
    range: PageRange,
    kind: (u32, Owner),
)
    requires { kind.0 ≡ conventional → kind.1 ≡ Given }
{
    let reserved = table.reserved();
    assert!(rt; reserved > 0);
    assert!(rt; are_present(table, range));
    table.change(range, MemoryType::new(kind.0), kind.1);
    assert!(rt; table.reserved().saturating_add(1) == reserved);
    change_list(list, range, kind.0, kind.1);
}

// Makes one change with memory reserved for it alone and all memory refused.
fn change_one(rt: &(impl AllocGlobal + Abort), shape: Shape, range: PageRange) {
    let heap = Refusing::new(rt.alloc());
    let (mut table, mut list) = shape.made(rt, &heap);
    table.reserve(1).expect(rt, "memory");
    heap.refuse_from(1);
    change_reserved(
        rt,
        &mut table,
        list.as_mut_slice(),
        range,
        (6, Owner::Pages),
    );
    assert!(rt; !heap.has_refused());
    assert_table(rt, &table, list.as_slice());
}

// Makes a change of some pages at each place.
fn change_each(rt: &(impl AllocGlobal + Abort), shape: Shape, pages: u64) {
    for first in 0..shape.end().saturating_add(1).saturating_sub(pages) {
        change_one(rt, shape, PageRange { first, pages });
    }
}

// The only leaf, or the second one, has from one run to 32. The one before it has 16, or as many if there are more. A
// range lies in a run or in two that touch, or goes over nine or ten, of one leaf or of both.
#[test]
fn leaves_of_each_size_take_no_memory(rt: HostRuntime) {
    for count in 1..33_u64 {
        for before in [0, 16] {
            let runs = count.min(16).saturating_add(before);
            let shape = with_attributes(runs, count.saturating_sub(16), 0);
            for pages in [2, 35] {
                change_each(&rt, shape, pages);
            }
        }
    }
}

// Makes changes of a page of the last run, upward or downward, with memory reserved for these alone and all memory
// refused. Each brings two runs, the most that a change brings.
fn cut_last(rt: &(impl AllocGlobal + Abort), shape: Shape, cuts: u64, is_down: bool) {
    let heap = Refusing::new(rt.alloc());
    let (mut table, mut list) = shape.made(rt, &heap);
    let before = table.len() as u64;
    table.reserve(cuts as usize).expect(rt, "memory");
    heap.refuse_from(1);
    for cut in 0..cuts {
        let back = cut.saturating_mul(2).saturating_add(2);
        let first = if is_down {
            shape.end().saturating_sub(back)
        } else {
            shape.end().saturating_sub(404).saturating_add(back)
        };
        let page = PageRange { first, pages: 1 };
        change_reserved(rt, &mut table, list.as_mut_slice(), page, (6, Owner::Pages));
    }
    assert!(rt; !heap.has_refused());
    assert!(rt; table.len() as u64 == before.saturating_add(cuts.saturating_mul(2)));
    assert_table(rt, &table, list.as_slice());
}

// As many changes that the leaves for later have room for just the runs that they bring, for one more, and so on.
#[test]
fn changes_of_one_leaf_take_no_memory(rt: HostRuntime) {
    for count in 1..33_u64 {
        let shape = with_attributes(count.min(16), count.saturating_sub(16), 400);
        for cuts in [1, 2, 3, 5, 7, 8, 13, 14, 15, 16, 22, 23, 30, 180] {
            cut_last(&rt, shape, cuts, false);
            cut_last(&rt, shape, cuts, true);
        }
    }
}

// A range over all leaves, or between borders of leaves.
#[test]
fn changes_over_many_leaves_take_no_memory(rt: HostRuntime) {
    for extra in [0, 8, 15, 16] {
        for shape in [with_attributes(320, extra, 0), with_types(320, extra, 0)] {
            for first in [0, 1, 62, 63, 64, 65] {
                for pages in [127, 128, 129, 1_000, 1_214] {
                    change_one(&rt, shape, PageRange { first, pages });
                }
            }
        }
    }
}

// A range of up to as many pages, mostly one of few.
fn drawn_range(shape: Shape, pages: u64, draw: u64) -> PageRange {
    let pages = match draw >> 44 & 7 {
        0 => pages,
        1 => 0,
        drawn => 1 + drawn % 2,
    };
    PageRange {
        first: (draw >> 30 & 4_095).min(shape.end().saturating_sub(pages)),
        pages,
    }
}

// Makes as many drawn changes as memory is reserved for, with all memory refused.
fn change_all(
    rt: &(impl AllocGlobal + Abort),
    heap: &Refusing<Global>,
    table: &mut RunTable<&Refusing<Global>>,
    list: &mut [Run],
    shape: Shape,
    pages: u64,
) {
    heap.refuse_from(1);
    let mut draw = pages;
    for _change in 0..table.reserved() {
        draw = next_draw(draw);
        let range = drawn_range(shape, pages, draw);
        change_reserved(rt, table, list, range, drawn_kind(draw >> 50));
        assert_table(rt, table, list);
    }
    assert!(rt; table.reserved() == 0 && !heap.has_refused());
    heap.refuse(0);
}

// Makes drawn changes of a table, each time with memory reserved for these alone.
fn change_drawn(rt: &(impl AllocGlobal + Abort), shape: Shape) {
    for pages in [1, 150, 600] {
        let heap = Refusing::new(rt.alloc());
        let (mut table, mut list) = shape.made(rt, &heap);
        for changes in [1, 8, 40] {
            table.reserve(changes).expect(rt, "memory");
            change_all(rt, &heap, &mut table, list.as_mut_slice(), shape, pages);
        }
    }
}

// Tables of 32 leaves.
#[test]
fn drawn_changes_take_no_memory(rt: HostRuntime) {
    for extra in [0, 16] {
        change_drawn(&rt, with_types(512, extra, 0));
        change_drawn(&rt, with_attributes(512, extra, 0));
    }
}

// How many changes memory is reserved for before more is refused.
const KEPT: usize = 6;

// Reserves memory for more changes, with an allocation of a number refused. If it is, the table is as it was. The changes
// for which memory is reserved then are made with all memory refused. Returns whether it was refused.
fn reserve_refused(
    rt: &(impl AllocGlobal + Abort),
    shape: Shape,
    more: usize,
    number: u64,
) -> bool {
    let heap = Refusing::new(rt.alloc());
    let (mut table, mut list) = shape.made(rt, &heap);
    table.reserve(KEPT).expect(rt, "memory");
    heap.refuse(number);
    let answer = table.reserve(more);
    let was_refused = heap.has_refused();
    assert!(rt; answer.is_err() == was_refused);
    let kept = if was_refused { 0 } else { more };
    assert!(rt; table.reserved() == KEPT.saturating_add(kept));
    assert_table(rt, &table, list.as_slice());
    change_all(rt, &heap, &mut table, list.as_mut_slice(), shape, 100);
    was_refused
}

// Refuses the first allocation that it takes to reserve memory, then the second one and so on, until none is refused.
// Returns how many there are.
fn refuse_each(rt: &(impl AllocGlobal + Abort), shape: Shape, more: usize) -> u64 {
    for taken in 0..1_000 {
        if !reserve_refused(rt, shape, more, taken + 1) {
            return taken;
        }
    }
    panic!(rt; "memory is refused for ever");
}

#[test]
fn refused_memory_leaves_the_table(rt: HostRuntime) {
    let shape = with_types(48, 16, 0);
    for (more, most) in [(0, 0), (1, 1), (2, 1), (40, 8), (300, 45)] {
        let taken = refuse_each(&rt, shape, more);
        assert!(rt;
            taken >= most / 2 && taken <= most.saturating_mul(2),
            "{taken}"
        );
    }
}

// More changes than memory is ever reserved for.
#[test]
fn too_many_changes_are_refused(rt: HostRuntime) {
    let (mut table, _list) = with_types(1, 0, 0).made(&rt, rt.alloc());
    let most = 1 << 40;
    assert!(rt; table.reserve(most + 1).is_err());
    table.reserve(KEPT).expect(&rt, "memory");
    assert!(rt; table.reserve(most - KEPT + 1).is_err());
    assert!(rt; table.reserve(usize::MAX).is_err());
    assert!(rt; table.reserved() == KEPT);
}

// Changes a page with an allocation of a number refused. If it is, the table is as it was. Returns whether it was refused.
fn retype_refused<A: Allocator + Copy>(
    rt: &(impl AllocGlobal + Abort),
    heap: &Refusing<Global>,
    table: &mut RunTable<A>,
    list: &mut [Run],
    page: PageRange,
    number: u64,
) -> bool {
    assert!(rt; are_present(table, page));
    heap.refuse(number);
    let answer = table.retype(page, MemoryType::new(4), Owner::Pages);
    assert!(rt; answer.is_err() == heap.has_refused());
    if answer.is_ok() {
        change_list(list, page, 4, Owner::Pages);
    }
    assert_table(rt, table, list);
    answer.is_err()
}

// Changes of single pages of a run, each with the first allocation refused, then the second one and so on, until none is.
#[test]
fn refused_changes_leave_the_table(rt: HostRuntime) {
    let heap = Refusing::new(rt.alloc());
    let (mut table, mut list) = table_of(&rt, &heap, &[run(0, 600, 7, 0xf)]);
    let mut refused = 0_u64;
    for pair in 0..300_u64 {
        let page = PageRange {
            first: pair * 2,
            pages: 1,
        };
        for number in 1..5 {
            if !retype_refused(&rt, &heap, &mut table, list.as_mut_slice(), page, number) {
                break;
            }
            refused = refused.saturating_add(1);
        }
    }
    assert!(rt; refused > 35 && table.len() == 600, "{refused}");
}

// Makes the table of a machine with an allocation of a number refused. Returns whether it was refused.
fn is_refused(rt: &(impl AllocGlobal + Abort), machine: &Machine, number: u64) -> bool {
    let heap = Refusing::new(rt.alloc());
    heap.refuse(number);
    let made = RunTable::from_runs(&heap, machine.runs());
    assert!(rt; made.is_err() == heap.has_refused());
    made.is_err()
}

// A table of 63 leaves.
#[test]
fn each_allocation_of_a_table_may_be_refused(rt: HostRuntime) {
    let runs = with_attributes(1_000, 0, 0).machine_runs(&rt);
    let machine = Machine::new(runs, 1).expect(&rt, "a machine");
    let mut taken = 0_u64;
    for number in 1..1_000 {
        if is_refused(&rt, &machine, number) {
            taken = taken.saturating_add(1);
        }
    }
    assert!(rt; taken > 63 && taken < 200);
}
