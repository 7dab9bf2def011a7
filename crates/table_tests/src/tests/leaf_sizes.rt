//! Leaves whose runs are joined to those before them, one after the other.
ghost use Rattle.std.specs.Prelude.{◌≡◌};
ghost use Rattle.page_ranges.specs.declared.ranges.Owner.TheVariants.{Given};
ghost use Rattle.page_ranges.specs.MemoryTypes.{conventional};

use super::page_lists::{assert_table, change_both, run, table_of};
use descriptor_table::{Leaf, RunTable};
use page_ranges::{Owner, PageRange, Run};
use std::process::Abort;

// The leaves' first run of an index and on from there, and the last run of the leaf before it.
fn beside(rt: &impl Abort, leaves: &[Leaf], index: usize) -> (Run, Run) {
    let below = leaves.get(index.saturating_sub(1)).expect(rt, "a leaf");
    let above = leaves.get(index).expect(rt, "a leaf");
    let last = below.runs().last().expect(rt, "a run");
    let first = above.runs().first().expect(rt, "a run");
    (*last, *first)
}

// Gives the last run before a leaf the type of the leaf's first run, which is then joined to it, until few are left.
fn join_each(rt: &impl Abort, table: &mut RunTable, list: &mut [Run], index: usize) {
    for _run in 0..23 {
        if index < table.leaves().len() {
            let (last, first) = beside(rt, table.leaves(), index);
            let number = first.mtype.number();
            if number != 7 {
                change_both(rt, table, list, last.range, (number, first.owner));
            }
        }
    }
}

// A table of 20 leaves of 24 runs of different types. Of two neighbours that have few runs then, one takes those of both.
#[test]
fn leaves_of_few_runs_become_one(rt: HostRuntime) {
    let mut runs = Vec::new(rt.alloc());
    for index in 0..320_u32 {
        let first = u64::from(index).saturating_mul(4);
        runs.push(run(first, 4, index.saturating_add(0x7000_0000), 0xf))
            .expect(&rt, "memory");
    }
    let (mut table, mut list) = table_of(&rt, rt.alloc(), runs.as_slice());
    for cut in 0..80_u64 {
        let leaf = (cut / 4).saturating_mul(64);
        let place = (cut % 4).saturating_mul(4);
        let first = leaf.saturating_add(place).saturating_add(9);
        let range = PageRange { first, pages: 2 };
        change_both(
            &rt,
            &mut table,
            list.as_mut_slice(),
            range,
            (3, Owner::Pool),
        );
    }
    assert!(rt; table.leaves().len() == 20 && table.len() == 480);
    for back in 0..19 {
        let index = 19_usize.saturating_sub(back);
        join_each(&rt, &mut table, list.as_mut_slice(), index);
    }
    assert!(rt; table.len() < 60);
    assert_table(&rt, &table, list.as_slice());
}
