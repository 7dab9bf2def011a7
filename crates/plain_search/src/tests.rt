//! Expected values worked out by hand.
ghost use Rattle.std.specs.Prelude.{◌≡◌, ◌<◌, false};
ghost use Rattle.page_ranges.specs.declared.ranges.Owner.TheVariants.{Given};
ghost use Rattle.page_ranges.specs.MemoryTypes.{is_bad_type, page_count};
ghost use Rattle.page_ranges.specs.Memory.{IsProperMemory};
ghost use Rattle.page_ranges.specs.Runs.{pages_of, AreRuns};
ghost use Rattle.placement_certificate.specs.Placement.{IsProperRequest};
ghost use Rattle.plain_search.specs.PlainAnswers.{given_run};
ghost use Rattle.plain_search.specs.RunsBy.{AreRunsBy};

mod choices;
mod promising;
mod wide_tables;

use super::*;
use page_ranges::{Descriptor, MemoryType, Owner, PAGE_COUNT, PageRange, Run};
use placement_certificate::{Bound, Request};
use std::process::Abort;

fn run(first: u64, pages: u64, number: u32, attributes: u64) -> Run
    ensures { result ≡ given_run first pages number attributes }
{
    Run {
        range: PageRange { first, pages },
        mtype: MemoryType::new(number),
        attributes,
        owner: Owner::Given,
    }
}

// Free memory with a hole, and runtime data in its upper part.
fn machine_a() -> [Run; 4]
    ensures by { AreRunsBy page_count result }
    ensures proper { IsProperMemory (pages_of result) }
{
    [
        run(0, 160, 7, 0xf),
        run(256, 768, 7, 0xf),
        run(1024, 16, 6, 0x8000_0000_0000_000f),
        run(1040, 1008, 7, 0xf),
    ]
}

// Free memory with two sets of attributes.
fn machine_b() -> [Run; 2]
    ensures by { AreRunsBy page_count result }
    ensures proper { IsProperMemory (pages_of result) }
{
    [run(0, 8, 7, 0xf), run(8, 8, 7, 0x7)]
}

// A request for pages that may begin at each page.
fn request(number: u32, pages: u64, limit: u64) -> Request
    ensures made { result ≡ record { mtype = number; pages = pages; limit = limit; granule = 1 } }
    ensures proper { 0 < pages → is_bad_type number ≡ false → IsProperRequest result }
{
    Request {
        mtype: MemoryType::new(number),
        pages,
        limit,
        granule: 1,
    }
}

#[test]
fn lists_the_map(rt: HostRuntime) {
    let entries = plain_map(rt.alloc(), &machine_a()).expect(&rt, "memory");
    let want = Descriptor {
        mtype: MemoryType::new(6),
        first: 1024,
        pages: 16,
        attributes: 0x8000_0000_0000_000f,
    };
    assert!(rt; entries.len() == 4);
    assert!(rt; entries.get(2) == Some(&want));
}

#[test]
fn prices_starts(rt: HostRuntime) {
    let request = request(2, 12, PAGE_COUNT);
    for (start, want) in [(0, 3), (2, 4), (4, 3)] {
        let price = plain_price(rt.alloc(), &machine_b(), &request, start).expect(&rt, "memory");
        assert!(rt; price == want, "at {start}");
    }
}

// Asserts the certificate that the plain search makes.
fn assert_certificate(
    rt: &(impl AllocGlobal + Abort),
    runs: &[Run],
    request: &Request,
    bounds: &[Bound],
    answer: u64,
)
    requires runs { AreRuns runs.now }
    requires proper { IsProperMemory (pages_of runs.now) }
    requires good { IsProperRequest request.now }
{
    let found = plain_certificate(rt.alloc(), runs, request).expect(rt, "memory");
    match &found {
        Some(certificate) => {
            assert!(rt; certificate.bounds.as_slice() == bounds);
            assert!(rt; certificate.answer == answer);
        }
        None => panic!(rt; "no certificate"),
    }
}

fn bound(first: u64, pages: u64, count: u64, top: u64) -> Bound {
    Bound {
        first,
        pages,
        least: Some((count, top)),
    }
}

#[test]
fn certifies_a_best_start(rt: HostRuntime) {
    let want = [
        bound(0, 160, 5, 150),
        bound(256, 768, 5, 1014),
        bound(1040, 1008, 5, 2038),
    ];
    assert_certificate(&rt, &machine_a(), &request(4, 10, PAGE_COUNT), &want, 2038);
}

#[test]
fn certifies_a_start_across_entries(rt: HostRuntime) {
    let none = Bound {
        first: 8,
        pages: 8,
        least: None,
    };
    let want = [bound(0, 8, 3, 4), none];
    assert_certificate(&rt, &machine_b(), &request(2, 12, PAGE_COUNT), &want, 4);
}
