//! Which certificates are accepted.
use page_ranges::{Descriptor, MemoryType};
use placement_certificate::{Bound, Certificate, Request, check};
use std::process::Abort;

const LIMIT: u64 = 0x10_0000_0000_0000;

const RUNTIME: u64 = 0x8000_0000_0000_000f;

/// An entry of a map: its first page, pages, type and attributes.
type Entry = (u64, u64, u32, u64);

const LOW: Entry = (0, 160, 7, 0xf);

const MIDDLE: Entry = (256, 768, 7, 0xf);

const DATA: Entry = (1024, 16, 6, RUNTIME);

const HIGH: Entry = (1040, 1008, 7, 0xf);

/// Free memory with a hole, and runtime data in its upper part.
const MAP_A: [Entry; 4] = [LOW, MIDDLE, DATA, HIGH];

const FIRST: Bound = Bound {
    first: 0,
    pages: 160,
    least: Some((5, 150)),
};

const SECOND: Bound = Bound {
    first: 256,
    pages: 768,
    least: Some((5, 1014)),
};

const THIRD: Bound = Bound {
    first: 1040,
    pages: 1008,
    least: Some((5, 2038)),
};

const LOW_COUNT: Bound = Bound {
    first: 256,
    pages: 768,
    least: Some((4, 1014)),
};

const LOW_TOP: Bound = Bound {
    first: 0,
    pages: 160,
    least: Some((5, 149)),
};

const EMPTY: Bound = Bound {
    first: 1040,
    pages: 1008,
    least: None,
};

const BOUNDS_A: &[Bound] = &[FIRST, SECOND, THIRD];

/// A request's type, pages and limit.
type Asked = (u32, u64, u64);

const TEN_PAGES: Asked = (4, 10, LIMIT);

fn map_of(rt: &(impl AllocGlobal + Abort), rows: &[Entry]) -> Vec<Descriptor> {
    let mut map = Vec::new(rt.alloc());
    for (first, pages, number, attributes) in rows {
        map.push(Descriptor {
            mtype: MemoryType::new(*number),
            first: *first,
            pages: *pages,
            attributes: *attributes,
        })
        .expect(rt, "memory");
    }
    map
}

/// Asserts whether a certificate of a request is accepted.
fn assert_judged(
    rt: &(impl AllocGlobal + Abort),
    rows: &[Entry],
    asked: Asked,
    bounds: &[Bound],
    answer: u64,
    is_accepted: bool,
) {
    let map = map_of(rt, rows);
    let request = Request {
        mtype: MemoryType::new(asked.0),
        pages: asked.1,
        limit: asked.2,
        granule: 1,
    };
    let certificate = Certificate {
        bounds: Vec::from_slice(rt.alloc(), bounds).expect(rt, "memory"),
        answer,
    };
    assert!(rt; check(map.as_slice(), &request, &certificate) == is_accepted);
}

/// Bounds, an answer, and whether these are accepted.
const JUDGED: &[(&[Bound], u64, bool)] = &[
    (BOUNDS_A, 2038, true),
    (BOUNDS_A, 150, false),
    (&[FIRST, SECOND], 1014, false),
    (&[FIRST, LOW_COUNT, THIRD], 1014, false),
    (&[LOW_TOP, SECOND, THIRD], 2038, false),
    (&[FIRST, SECOND, EMPTY], 1014, false),
    (&[SECOND, FIRST, THIRD], 2038, false),
    (&[FIRST, SECOND, THIRD, THIRD], 2038, false),
];

#[test]
fn judges_certificates(rt: HostRuntime) {
    for (bounds, answer, is_accepted) in JUDGED {
        assert_judged(&rt, &MAP_A, TEN_PAGES, bounds, *answer, *is_accepted);
    }
}

const NO_MAPS: [[Entry; 4]; 9] = [
    [(0, 100, 7, 0xf), (100, 60, 7, 0xf), DATA, HIGH],
    [(0, 300, 7, 0xf), MIDDLE, DATA, HIGH],
    [LOW, MIDDLE, DATA, (LIMIT - 1, 2, 7, 0xf)],
    [LOW, MIDDLE, DATA, (u64::MAX, u64::MAX, 7, 0xf)],
    [LOW, MIDDLE, DATA, (u64::MAX, 1, 7, 0xf)],
    [(0, 0, 7, 0xf), MIDDLE, DATA, HIGH],
    [(0, 160, 7, RUNTIME), MIDDLE, DATA, HIGH],
    [(0, 160, 16, 0xf), MIDDLE, DATA, HIGH],
    [MIDDLE, LOW, DATA, HIGH],
];

#[test]
fn refuses_lists_that_are_no_map(rt: HostRuntime) {
    for rows in &NO_MAPS {
        assert_judged(&rt, rows, TEN_PAGES, BOUNDS_A, 2038, false);
    }
}

/// What is said of a map of one entry.
const SMALL: Bound = Bound {
    first: 0,
    pages: 8,
    least: Some((2, 4)),
};

/// Requests for pages of that map.
const REQUESTS: [(Asked, bool); 6] = [
    ((4, 4, 8), true),
    ((4, 4, u64::MAX), true),
    ((4, 4, 7), false),
    ((7, 4, 8), false),
    ((4, 0, 8), false),
    ((4, u64::MAX, u64::MAX), false),
];

#[test]
fn judges_requests(rt: HostRuntime) {
    for (asked, is_accepted) in &REQUESTS {
        assert_judged(&rt, &[(0, 8, 7, 0xf)], *asked, &[SMALL], 4, *is_accepted);
    }
    assert_judged(&rt, &[], (4, 1, LIMIT), &[], 0, false);
}
