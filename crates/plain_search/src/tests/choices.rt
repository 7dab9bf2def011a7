//! Expected values worked out by hand, and small machines on which a plain search judges.
ghost use Rattle.std.specs.Prelude.{◌≡◌, ◌+◌, ◌%◌, ◌<◌, ◌≤◌, true, false, IsTrue, IfOk, OnOk};
ghost use Rattle.page_ranges.specs.declared.ranges.Owner.TheVariants.{Given};
ghost use Rattle.page_ranges.specs.MemoryTypes.{conventional, has_runtime, is_bad_type, page_count};
ghost use Rattle.page_ranges.specs.Granules.{is_granular};
ghost use Rattle.page_ranges.specs.Memory.{IsProperMemory};
ghost use Rattle.page_ranges.specs.Runs.{pages_of, AreRuns};
ghost use Rattle.placement_certificate.specs.Placement.{IsProperRequest};
ghost use Rattle.plain_search.specs.PlainAnswers.{IsPossibleRun};
ghost use Rattle.plain_search.specs.RunsBy.{AreRunsBy};

use super::{request, run};
use crate::plain_certificate;
use descriptor_table::RunTable;
use page_ranges::{MemoryType, PAGE_COUNT, Run, has_runtime};
use placement_certificate::{Bound, Certificate, Request};
use placement_chooser::{best_start, choose};
use std::alloc::{AllocError, Global};
use std::process::Abort;

/// A run of the machine's own: its first page, pages, type and attributes.
type Row = (u64, u64, u32, u64);

// Free memory with a hole, and runtime data in its upper part.
const MACHINE_A: &[Row] = &[
    (0, 160, 7, 0xf),
    (256, 768, 7, 0xf),
    (1024, 16, 6, 0x8000_0000_0000_000f),
    (1040, 1008, 7, 0xf),
];

// The same once ten pages at its end are placed.
const MACHINE_A_PLACED: &[Row] = &[
    (0, 160, 7, 0xf),
    (256, 768, 7, 0xf),
    (1024, 16, 6, 0x8000_0000_0000_000f),
    (1040, 998, 7, 0xf),
    (2038, 10, 4, 0xf),
];

// Free memory with two sets of attributes.
const MACHINE_B: &[Row] = &[(0, 8, 7, 0xf), (8, 8, 7, 0x7)];

// Ordinary free memory, and free memory of specific purpose above it.
const SPECIFIC_PURPOSE: &[Row] = &[(0, 8, 7, 0xf), (8, 8, 7, 0x4_000f)];

// The same with ordinary memory above that, and with data placed on memory of specific purpose.
const BETWEEN_ORDINARY: &[Row] = &[
    (0, 8, 7, 0xf),
    (8, 8, 7, 0x4_000f),
    (16, 8, 7, 0x7),
    (24, 2, 4, 0x4_000f),
];

// The last eight pages of all.
const LAST_PAGES: &[Row] = &[(PAGE_COUNT - 8, 8, 7, 0xf)];

// A machine may have the run.
fn may_stand(first: u64, pages: u64, kind: (u32, u64)) -> bool
    ensures { IsTrue result → IsPossibleRun first pages kind }
{
    let (number, attributes) = kind;
    pages > 0
        && first < PAGE_COUNT
        && pages <= PAGE_COUNT - first
        && !(number == 7 && has_runtime(attributes))
}

// The runs of rows, up to the first that is no run above those before it.
fn machine_of(alloc: Global, rows: &[Row]) -> Result<Vec<Run>, AllocError>
    ensures runs { IfOk result (λ v. AreRuns v.items) }
    ensures proper { IfOk result (λ v. IsProperMemory (pages_of v.items)) }
{
    let mut runs = Vec::new(alloc);
    let mut end = 0;
    for &(first, pages, number, attributes) in rows {
        let kind = (number, attributes);
        if first < end || !may_stand(first, pages, kind) {
            return Ok(runs);
        }
        push_run(&mut runs, first, pages, kind)?;
        end = first + pages;
    }
    Ok(runs)
}

fn chosen(rt: &(impl AllocGlobal + Abort), runs: &[Run], request: &Request) -> Option<Certificate>
    requires runs { AreRuns runs.now }
    requires proper { IsProperMemory (pages_of runs.now) }
    requires good { IsProperRequest request.now }
{
    let table = RunTable::from_runs(rt.alloc(), runs).expect(rt, "memory");
    choose(rt.alloc(), &table, request).expect(rt, "memory")
}

// A request on a machine with granules of 16 pages, of a type whose pages lie in whole granules.
pub fn in_granules(number: u32, pages: u64, limit: u64) -> Request
    ensures { 0 < pages → pages % 16 ≡ 0 → is_granular number ≡ true → IsProperRequest result }
{
    Request {
        mtype: MemoryType::new(number),
        pages,
        limit,
        granule: 16,
    }
}

/// What a certificate says of an entry: its first page and pages, and the entries of the map and the start.
type Least = (u64, u64, Option<(u64, u64)>);

// Whether bounds are those of rows.
fn are_bounds(bounds: &[Bound], rows: &[Least]) -> bool {
    if bounds.len() != rows.len() {
        return false;
    }
    for at in 0..rows.len() {
        let bound = &bounds[at];
        if (bound.first, bound.pages, bound.least) != rows[at] {
            return false;
        }
    }
    true
}

// Asserts the certificate of a request on a machine, or that there is none.
fn assert_certified(
    rt: &(impl AllocGlobal + Abort),
    rows: &[Row],
    request: &Request,
    bounds: &[Least],
    answer: Option<u64>,
)
    requires { IsProperRequest request.now }
{
    let runs = machine_of(rt.alloc(), rows).expect(rt, "memory");
    let found = chosen(rt, runs.as_slice(), request);
    match &found {
        Some(certificate) => {
            assert!(rt; answer == Some(certificate.answer));
            assert!(rt; are_bounds(certificate.bounds.as_slice(), bounds));
        }
        None => assert!(rt; answer.is_none()),
    }
}

// Whether a type is one of three that requests may name.
fn is_named(number: u32) -> bool
    ensures { IsTrue result → is_bad_type number ≡ false }
{
    number == 2 || number == 4 || number == 6
}

/// A machine, the type, the pages and the limit of a request there, and its certificate, if there is one.
type Choice = (
    &'static [Row],
    (u32, u64, u64),
    &'static [Least],
    Option<u64>,
);

fn assert_choices(rt: &(impl AllocGlobal + Abort), rows: &[Choice]) {
    for (machine, (number, pages, limit), bounds, answer) in rows {
        if *pages == 0 || !is_named(*number) {
            panic!(rt; "no request");
        }
        assert_certified(
            rt,
            machine,
            &request(*number, *pages, *limit),
            bounds,
            *answer,
        );
    }
}

#[test]
fn best_starts(rt: HostRuntime) {
    assert_choices(&rt, BEST_STARTS);
}

const BEST_STARTS: &[Choice] = &[
    // The best fit, and the highest.
    (
        MACHINE_A,
        (4, 10, PAGE_COUNT),
        &[
            (0, 160, Some((5, 150))),
            (256, 768, Some((5, 1014))),
            (1040, 1008, Some((5, 2038))),
        ],
        Some(2038),
    ),
    // Pages of the same type join.
    (
        MACHINE_A_PLACED,
        (4, 5, PAGE_COUNT),
        &[
            (0, 160, Some((6, 155))),
            (256, 768, Some((6, 1019))),
            (1040, 998, Some((5, 2033))),
        ],
        Some(2033),
    ),
    // Runtime data joins what lies below.
    (
        MACHINE_A,
        (6, 4, PAGE_COUNT),
        &[
            (0, 160, Some((5, 156))),
            (256, 768, Some((4, 1020))),
            (1040, 1008, Some((4, 1040))),
        ],
        Some(1040),
    ),
    // A whole entry.
    (
        MACHINE_A,
        (4, 160, PAGE_COUNT),
        &[
            (0, 160, Some((4, 0))),
            (256, 768, Some((5, 864))),
            (1040, 1008, Some((5, 1888))),
        ],
        Some(0),
    ),
    // Below a limit.
    (
        MACHINE_A,
        (4, 10, 80),
        &[(0, 160, Some((5, 0))), (256, 768, None), (1040, 1008, None)],
        Some(0),
    ),
];

#[test]
fn last_pages_of_all(rt: HostRuntime) {
    assert_choices(&rt, LAST_PAGES_OF_ALL);
}

const LAST: u64 = PAGE_COUNT - 8;

const LAST_PAGES_OF_ALL: &[Choice] = &[
    (
        LAST_PAGES,
        (4, 8, PAGE_COUNT),
        &[(LAST, 8, Some((1, LAST)))],
        Some(LAST),
    ),
    (
        LAST_PAGES,
        (4, 8, u64::MAX),
        &[(LAST, 8, Some((1, LAST)))],
        Some(LAST),
    ),
    (
        LAST_PAGES,
        (4, 1, PAGE_COUNT),
        &[(LAST, 8, Some((2, PAGE_COUNT - 1)))],
        Some(PAGE_COUNT - 1),
    ),
    (
        LAST_PAGES,
        (4, 1, PAGE_COUNT - 1),
        &[(LAST, 8, Some((2, LAST)))],
        Some(LAST),
    ),
    // No start is permitted.
    (LAST_PAGES, (4, 1, 0), &[], None),
    (LAST_PAGES, (4, 1, LAST), &[], None),
    (LAST_PAGES, (4, 8, PAGE_COUNT - 1), &[], None),
    (LAST_PAGES, (4, 9, PAGE_COUNT), &[], None),
    (LAST_PAGES, (4, PAGE_COUNT, PAGE_COUNT), &[], None),
    (LAST_PAGES, (4, u64::MAX, PAGE_COUNT), &[], None),
    (LAST_PAGES, (4, u64::MAX, u64::MAX), &[], None),
];

#[test]
fn attributes_count(rt: HostRuntime) {
    assert_choices(&rt, ATTRIBUTES);
}

const ATTRIBUTES: &[Choice] = &[
    // One of two attributes.
    (
        MACHINE_B,
        (2, 8, PAGE_COUNT),
        &[(0, 8, Some((2, 0))), (8, 8, Some((2, 8)))],
        Some(8),
    ),
    // Across attributes.
    (
        MACHINE_B,
        (2, 12, PAGE_COUNT),
        &[(0, 8, Some((3, 4))), (8, 8, None)],
        Some(4),
    ),
    // The limit is the last byte.
    (
        MACHINE_B,
        (2, 8, 8),
        &[(0, 8, Some((2, 0))), (8, 8, None)],
        Some(0),
    ),
    // Memory of specific purpose is left alone, also where it lies between ordinary memory.
    (
        SPECIFIC_PURPOSE,
        (4, 8, PAGE_COUNT),
        &[(0, 8, Some((2, 0))), (8, 8, None)],
        Some(0),
    ),
    (
        BETWEEN_ORDINARY,
        (4, 2, PAGE_COUNT),
        &[(0, 8, Some((5, 6))), (8, 8, None), (16, 8, Some((5, 22)))],
        Some(22),
    ),
    (BETWEEN_ORDINARY, (4, 9, PAGE_COUNT), &[], None),
];

// With a granule of 16: at 64 the pages end below others of their type, at 112 both ends lie inside an
// entry, between 146 and 158 is no multiple, and from 160 on two entries follow each other.
const IN_GRANULES: &[Row] = &[
    (0, 8, 4, 0xf),
    (8, 72, 7, 0xf),
    (80, 16, 6, 0x8000_0000_0000_000f),
    (100, 40, 7, 0xf),
    (146, 12, 7, 0xf),
    (160, 10, 7, 0xf),
    (170, 30, 7, 0x7),
];

#[test]
fn multiples_of_the_granule(rt: HostRuntime) {
    let sixteen = in_granules(6, 16, PAGE_COUNT);
    assert_certified(&rt, IN_GRANULES, &sixteen, FOR_SIXTEEN, Some(64));
    let more = in_granules(10, 32, PAGE_COUNT);
    assert_certified(&rt, IN_GRANULES, &more, FOR_MORE, Some(160));
    let below = in_granules(0, 16, 79);
    assert_certified(&rt, IN_GRANULES, &below, BELOW_A_LIMIT, Some(48));
}

const FOR_SIXTEEN: &[Least] = &[
    (8, 72, Some((7, 64))),
    (100, 40, Some((9, 112))),
    (146, 12, None),
    (160, 10, Some((8, 160))),
    (170, 30, Some((9, 176))),
];

const FOR_MORE: &[Least] = &[
    (8, 72, Some((8, 48))),
    (100, 40, None),
    (146, 12, None),
    (160, 10, Some((8, 160))),
    (170, 30, None),
];

const BELOW_A_LIMIT: &[Least] = &[
    (8, 72, Some((9, 48))),
    (100, 40, None),
    (146, 12, None),
    (160, 10, None),
    (170, 30, None),
];

// A type with attributes, drawn by a number below six, or below twelve for more that are free, or below 24 for
// more types beside them, of which the last two differ by a multiple of 64.
fn drawn_kind(draw: u64) -> (u32, u64)
    ensures { result.0 ≡ conventional → has_runtime result.1 ≡ false }
{
    match draw {
        0 | 12 | 13 => (6, 0x8000_0000_0000_000f),
        1 | 14 => (5, 0x8000_0000_0000_0007),
        2 | 6 | 7 => (7, 0x7),
        3 => (7, 0x4_000f),
        15 => (0, 0xf),
        16 | 17 => (2, 0xf),
        18 | 19 => (10, 0xf),
        20 | 21 => (4, 0xf),
        22 | 23 => (0x8000_0004, 0xf),
        _ => (7, 0xf),
    }
}

pub fn push_run(
    runs: &mut Vec<Run>,
    first: u64,
    pages: u64,
    kind: (u32, u64),
) -> Result<(), AllocError>
    requires runs { AreRunsBy first runs.old.items }
    requires proper { IsProperMemory (pages_of runs.old.items) }
    requires some { 0 < pages }
    requires within { first + pages ≤ page_count }
    requires kind { kind.0 ≡ conventional → has_runtime kind.1 ≡ false }
    ensures runs { OnOk result (AreRunsBy (first + pages) runs.new.items) }
    ensures proper { OnOk result (IsProperMemory (pages_of runs.new.items)) }
{
    let (number, attributes) = kind;
    runs.push(run(first, pages, number, attributes))?;
    Ok(())
}

pub fn next_draw(draw: u64) -> u64 {
    draw.wrapping_mul(6_364_136_223_846_793_005)
        .wrapping_add(1_442_695_040_888_963_407)
}

// A machine of some runs, each of up to the given number of pages and with a hole of a page below it or none, of
// the given number of kinds.
pub fn drawn_machine(
    alloc: Global,
    seed: u64,
    count: u64,
    most: u64,
    kinds: u64,
) -> Result<Vec<Run>, AllocError>
    requires count { count ≤ 2000 }
    requires most { (0 < most) × (most ≤ 75) }
    requires kinds { 0 < kinds }
    ensures runs { IfOk result (λ v. AreRuns v.items) }
    ensures proper { IfOk result (λ v. IsProperMemory (pages_of v.items)) }
{
    let mut runs = Vec::new(alloc);
    let mut draw = next_draw(seed);
    let mut end = 0;
    for _turn in 0..count {
        draw = next_draw(draw);
        let first = end + (draw >> 33) % 6 / 5;
        let pages = (draw >> 40) % most + 1;
        push_run(&mut runs, first, pages, drawn_kind((draw >> 48) % kinds))?;
        end = first + pages;
    }
    Ok(runs)
}

// A request for up to six pages below a limit up to 40, drawn by a number below 738.
fn drawn_request(draw: u64) -> Request
    ensures { IsProperRequest result }
{
    let number = match draw % 3 {
        0 => 4,
        1 => 5,
        _ => 6,
    };
    request(number, draw / 3 % 6 + 1, draw / 18)
}

// A request for up to 48 pages in granules of 16, below a limit up to 104, drawn by a number below 168.
fn drawn_in_granules(draw: u64) -> Request
    ensures { IsProperRequest result }
{
    let number = match draw % 4 {
        0 => 0,
        1 => 5,
        2 => 6,
        _ => 10,
    };
    in_granules(number, (draw / 4 % 3 + 1) * 16, draw / 12 * 8)
}

// Asserts that the choice is that of the plain search, with its certificate and alone.
fn assert_agrees(rt: &(impl AllocGlobal + Abort), runs: &[Run], request: &Request)
    requires runs { AreRuns runs.now }
    requires proper { IsProperMemory (pages_of runs.now) }
    requires good { IsProperRequest request.now }
{
    let table = RunTable::from_runs(rt.alloc(), runs).expect(rt, "memory");
    let alone = best_start(&table, request);
    let got = choose(rt.alloc(), &table, request).expect(rt, "memory");
    let wanted = plain_certificate(rt.alloc(), runs, request).expect(rt, "memory");
    match &wanted {
        Some(wanted) => assert!(rt; alone == Some(wanted.answer) && is_certificate(&got, wanted)),
        None => assert!(rt; alone.is_none() && got.is_none()),
    }
}

// Whether a certificate is this one.
fn is_certificate(got: &Option<Certificate>, wanted: &Certificate) -> bool {
    match got {
        Some(certificate) => {
            certificate.answer == wanted.answer
                && certificate.bounds.as_slice() == wanted.bounds.as_slice()
        }
        None => false,
    }
}

// Machines of at most forty pages.
#[test]
fn agrees_with_the_plain_search(rt: HostRuntime) {
    for seed in 0..200 {
        let runs = drawn_machine(rt.alloc(), seed, 8, 4, 6).expect(&rt, "memory");
        for draw in 0..738 {
            assert_agrees(&rt, runs.as_slice(), &drawn_request(draw));
        }
    }
}

// Machines of at most 96 pages.
#[test]
fn agrees_in_granules(rt: HostRuntime) {
    for seed in 0..200 {
        let runs = drawn_machine(rt.alloc(), seed, 8, 11, 12).expect(&rt, "memory");
        for draw in 0..168 {
            assert_agrees(&rt, runs.as_slice(), &drawn_in_granules(draw));
        }
    }
}
