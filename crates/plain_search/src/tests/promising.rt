//! The best start in tables of which each leaf looks as if it could hold it.
ghost use Rattle.std.specs.Prelude.{◌≡◌, ◌<◌, ◌≤◌, IfOk, false};
ghost use Rattle.page_ranges.specs.MemoryTypes.{conventional, has_runtime};
ghost use Rattle.page_ranges.specs.Memory.{IsProperMemory};
ghost use Rattle.page_ranges.specs.Runs.{pages_of, AreRuns};
ghost use Rattle.placement_certificate.specs.Placement.{IsProperRequest};

use super::choices::push_run;
use super::request;
use super::wide_tables::{assert_places, pages_by_number, start_by_pages};
use descriptor_table::RunTable;
use page_ranges::Run;
use placement_certificate::Request;
use placement_chooser::best_start;
use std::alloc::{AllocError, Global};
use std::process::Abort;

// Of how many parts a promising machine is made, and how many pages each has.
const PARTS: u64 = 300;

const PART_PAGES: u64 = 74;

// The pages and the kind of the run of a number: each part has three free pages, and 67 between two of type 6,
// which share a bit with three. Only those three pages that the part `best` begins with are between two of type 6.
fn promising_run(number: u64, best: u64) -> (u64, (u32, u64))
    ensures pages { (0 < result.0) × (result.0 ≤ 67) }
    ensures kind { result.1.0 ≡ conventional → has_runtime result.1.1 ≡ false }
{
    let data = (1, (6, 0x8000_0000_0000_000f));
    let is_beside = number / 6 == best && number % 6 == 1;
    if is_beside || number / 6 + 1 == best && number % 6 == 5 {
        return data;
    }
    match number % 6 {
        0 => (3, (7, 0xf)),
        2 | 4 => data,
        3 => (67, (7, 0xf)),
        _ => (1, (5, 0x8000_0000_0000_000f)),
    }
}

// A machine on which each leaf looks as if three pages of type 6 could fill three pages between two of that type.
fn promising_machine(alloc: Global, best: u64) -> Result<Vec<Run>, AllocError>
    ensures runs { IfOk result (λ v. AreRuns v.items) }
    ensures proper { IfOk result (λ v. IsProperMemory (pages_of v.items)) }
{
    let mut runs = Vec::new(alloc);
    let mut end = 0;
    for number in 0..6 * PARTS {
        let (pages, kind) = promising_run(number, best);
        push_run(&mut runs, end, pages, kind)?;
        end += pages;
    }
    Ok(runs)
}

// The pages and the kind of the run of a number: each second one is a free page, and that of number `best` of these
// has two pages.
fn lone_run(number: u64, best: u64) -> (u64, (u32, u64))
    ensures pages { (0 < result.0) × (result.0 ≤ 2) }
    ensures kind { result.1.0 ≡ conventional → has_runtime result.1.1 ≡ false }
{
    match number % 2 {
        0 if number / 2 == best => (2, (7, 0xf)),
        0 => (1, (7, 0xf)),
        _ => (1, (5, 0x8000_0000_0000_000f)),
    }
}

// A machine on which two pages can lie at just one place.
fn lone_machine(alloc: Global, best: u64) -> Result<Vec<Run>, AllocError>
    ensures runs { IfOk result (λ v. AreRuns v.items) }
    ensures proper { IfOk result (λ v. IsProperMemory (pages_of v.items)) }
{
    let mut runs = Vec::new(alloc);
    let mut end = 0;
    for number in 0..2 * PARTS {
        let (pages, kind) = lone_run(number, best);
        push_run(&mut runs, end, pages, kind)?;
        end += pages;
    }
    Ok(runs)
}

// Asserts where the best start of a request is.
fn assert_start(rt: &(impl AllocGlobal + Abort), runs: &[Run], request: &Request, start: u64)
    requires runs { AreRuns runs.now }
    requires proper { IsProperMemory (pages_of runs.now) }
    requires good { IsProperRequest request.now }
{
    let table = RunTable::from_runs(rt.alloc(), runs).expect(rt, "memory");
    assert!(rt; best_start(&table, request) == Some(start), "at {start}");
}

/// One place, in whichever leaf of its group it lies.
#[test]
fn finds_the_one_place(rt: HostRuntime) {
    for best in 0..PARTS {
        let runs = lone_machine(rt.alloc(), best).expect(&rt, "memory");
        assert_start(&rt, runs.as_slice(), &request(4, 2, u64::MAX), 2 * best);
    }
}

/// A search that opens each leaf and finds nothing better there.
#[test]
fn finds_the_best_where_all_leaves_look_promising(rt: HostRuntime) {
    let runs = promising_machine(rt.alloc(), PARTS).expect(&rt, "memory");
    let list = pages_by_number(&rt, runs.as_slice());
    for pages in 1..5 {
        let request = request(6, pages, u64::MAX);
        let start = start_by_pages(list.as_slice(), &request).expect(&rt, "a start");
        assert_start(&rt, runs.as_slice(), &request, start);
    }
}

/// One that is right, wherever it is among its leaf and its group.
#[test]
fn finds_the_one_promise_that_holds(rt: HostRuntime) {
    for best in 1..PARTS {
        let runs = promising_machine(rt.alloc(), best).expect(&rt, "memory");
        assert_start(
            &rt,
            runs.as_slice(),
            &request(6, 3, u64::MAX),
            PART_PAGES * best,
        );
    }
}

/// Leaves that look promising as they change.
#[test]
fn places_where_all_leaves_look_promising(rt: HostRuntime) {
    let mut placed = 0_u64;
    for seed in 0..8 {
        let runs = promising_machine(rt.alloc(), 37 * seed).expect(&rt, "memory");
        placed = placed.saturating_add(assert_places(&rt, runs.as_slice(), seed, 400));
    }
    assert!(rt; placed >= 2_000, "places for {placed}");
}
