//! The best place on a machine, with all that its certificate says.
use boot_core::{Call, Core, Machine, Reply};
use driver_connect::TableDriver;
use page_ranges::{Descriptor, MemoryType, Owner, PageRange, Run};
use std::process::Abort;

/// An entry of a memory map: its type, its first page, its pages and its attributes.
type Entry = (u32, u64, u64, u64);

/// The memory map of the machine.
const MACHINE: [Entry; 4] = [
    (7, 0, 160, 0xf),
    (7, 256, 768, 0xf),
    (6, 1024, 16, 0x8000_0000_0000_000f),
    (7, 1040, 1008, 0xf),
];

/// The same once ten pages of type 4 are placed at page 2038.
const LISTED: [Entry; 5] = [
    (7, 0, 160, 0xf),
    (7, 256, 768, 0xf),
    (6, 1024, 16, 0x8000_0000_0000_000f),
    (7, 1040, 998, 0xf),
    (4, 2038, 10, 0xf),
];

/// What the certificate says of each free entry: its first page, its pages, and how few entries the map has after a
/// placement there, with the highest start at which it has them.
const BOUNDS: [(u64, u64, u64, u64); 3] = [
    (0, 160, 5, 150),
    (256, 768, 5, 1014),
    (1040, 1008, 5, 2038),
];

fn machine_of(rt: &(impl AllocGlobal + Abort)) -> Machine {
    let mut runs = Vec::new(rt.alloc());
    for (mtype, first, pages, attributes) in MACHINE {
        runs.push(Run {
            range: PageRange { first, pages },
            mtype: MemoryType::new(mtype),
            attributes,
            owner: Owner::Given,
        })
        .expect(rt, "memory");
    }
    Machine::new(runs, 1).expect(rt, "a machine")
}

/// Whether a reply places pages at page 2038, with all three bounds.
fn is_best(reply: &Reply) -> bool {
    let Reply::AllocatePages(Ok(placed)) = reply else {
        return false;
    };
    let Some(certificate) = &placed.certificate else {
        return false;
    };
    placed.address == 0x7f_6000
        && certificate.answer == 2038
        && certificate.bounds.len() == BOUNDS.len()
        && certificate.bounds.iter().zip(BOUNDS.iter()).all(|(bound, wanted)| {
            bound.first == wanted.0
                && bound.pages == wanted.1
                && bound.least == Some((wanted.2, wanted.3))
        })
}

/// Whether an entry is this one.
fn is_entry(found: Option<Descriptor>, wanted: &Entry) -> bool {
    match found {
        Some(entry) => {
            entry.mtype.number() == wanted.0
                && entry.first == wanted.1
                && entry.pages == wanted.2
                && entry.attributes == wanted.3
        }
        None => false,
    }
}

/// Asserts that the memory map of a core has just the entries that are listed.
fn assert_listed(rt: &impl Abort, core: &Core<TableDriver>) {
    assert!(rt; core.descriptors() == LISTED.len());
    for (index, wanted) in LISTED.iter().enumerate() {
        assert!(rt; is_entry(core.descriptor(index), wanted));
    }
}

#[test]
fn best_fit_high(rt: HostRuntime) {
    let drivers: Vec<TableDriver> = Vec::new(rt.alloc());
    let mut core = Core::new(rt.alloc(), machine_of(&rt), drivers).expect(&rt, "memory");
    assert!(rt; core.calls_left() > 0);
    let calls = [Call::AllocatePages {
        kind: 0,
        mtype: 4,
        pages: 10,
        memory: 0,
    }];
    let replies = core.run(&calls).expect(&rt, "memory");
    assert!(rt; matches!(replies.as_slice(), [reply] if is_best(reply)));
    assert_listed(&rt, &core);
}
