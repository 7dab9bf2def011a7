//! Tables whose leaves have a chosen number of runs.
use super::page_lists::{change_both, run, table_of};
use descriptor_table::RunTable;
use page_ranges::{Owner, PageRange, Run};
use std::alloc::Allocator;
use std::process::Abort;

// A table of runs of four pages, 16 in each leaf but the last. They are free, and in turn of another type or with other
// attributes.
#[derive(Clone, Copy)]
pub struct Shape {
    runs: u64,
    // How many more runs each leaf of 16 gets, at most 16.
    extra: u64,
    // How many pages are missing between leaves.
    gap: u64,
    // How many more pages the last run has.
    more: u64,
    // The type and the attributes of each second run.
    other: (u32, u64),
}

// Runs of two types.
pub fn with_types(runs: u64, extra: u64, gap: u64) -> Shape {
    Shape {
        runs,
        extra,
        gap,
        more: 0,
        other: (4, 0xf),
    }
}

// Runs whose neighbours have other attributes, so that none are joined.
pub fn with_attributes(runs: u64, extra: u64, more: u64) -> Shape {
    Shape {
        runs,
        extra,
        gap: 0,
        more,
        other: (7, 0x7),
    }
}

impl Shape {
    // The first page of the run of an index.
    pub fn place(self, index: u64) -> u64 {
        let gaps = (index / 16).saturating_mul(self.gap);
        index.saturating_mul(4).saturating_add(gaps)
    }

    // The page after the last one.
    pub fn end(self) -> u64 {
        self.place(self.runs).saturating_add(self.more)
    }

    pub fn machine_runs(self, rt: &(impl AllocGlobal + Abort)) -> Vec<Run> {
        let mut runs = Vec::new(rt.alloc());
        for index in 0..self.runs {
            let is_last = index.saturating_add(1) == self.runs;
            let pages = if is_last {
                self.more.saturating_add(4)
            } else {
                4
            };
            let (number, attributes) = if index % 2 == 0 { (7, 0xf) } else { self.other };
            runs.push(run(self.place(index), pages, number, attributes))
                .expect(rt, "memory");
        }
        runs
    }

    // Brings more runs into the leaf of an index: two in each of its first runs, and one in another if their number is odd.
    fn fill<A: Allocator + Copy>(
        self,
        rt: &impl Abort,
        table: &mut RunTable<A>,
        list: &mut [Run],
        leaf: u64,
    ) {
        let index = leaf.saturating_mul(16);
        for cut in 0..self.extra / 2 {
            let first = self.place(index.saturating_add(cut)).saturating_add(1);
            let range = PageRange { first, pages: 2 };
            change_both(rt, table, list, range, (3, Owner::Pool));
        }
        if self.extra % 2 == 1 {
            let first = self.place(index.saturating_add(8));
            let range = PageRange { first, pages: 1 };
            change_both(rt, table, list, range, (3, Owner::Pool));
        }
    }

    // The table, and its list.
    pub fn made<A: Allocator + Copy>(
        self,
        rt: &(impl AllocGlobal + Abort),
        alloc: A,
    ) -> (RunTable<A>, Vec<Run>) {
        let runs = self.machine_runs(rt);
        let (mut table, mut list) = table_of(rt, alloc, runs.as_slice());
        for leaf in 0..self.runs / 16 {
            self.fill(rt, &mut table, list.as_mut_slice(), leaf);
        }
        for leaf in 0..self.runs / 16 {
            let leaf = table.leaves().get(leaf as usize).expect(rt, "a leaf");
            assert!(rt; leaf.runs().len() as u64 == self.extra.saturating_add(16));
        }
        (table, list)
    }
}
