//! A plain search for the best start, which tries every start and builds the changed memory for
//! each: slow, and meant for tests of faster ones.
ghost use Rattle.std.specs.Prelude.{◌≡◌, ℕ, ◌+◌, ◌-◌, ◌<◌, ◌≤◌, ◌++◌, ◌↔◌, false, None, IsTrue, IfSome, IfOk, OnOk};
ghost use Rattle.page_ranges.specs.declared.ranges.Owner.TheVariants.{Pages};
ghost use Rattle.page_ranges.specs.MemoryTypes.{page_count, conventional, is_specific_purpose};
ghost use Rattle.page_ranges.specs.Memory.{row, page_at, retyped, IsProperMemory};
ghost use Rattle.page_ranges.specs.MemoryMap.{memory_map, should_be_one};
ghost use Rattle.page_ranges.specs.Runs.{page_in, pages_of, AreRuns};
ghost use Rattle.placement_certificate.specs.Placement.{IsProperRequest, IsPermittedStart, IsAvailable, price};
ghost use Rattle.placement_certificate.specs.Certificates.{IsTrueLeast, IsTrueCertificate};
ghost use Rattle.descriptor_table.specs.LeafChanges.{AppendsPart, RetypesRuns};
ghost use Rattle.plain_search.specs.PlainAnswers.{IsAvailableRun, IsTrueIfAny, PermitsNone};
ghost use Rattle.plain_search.specs.RunsBy.{AreRunsBy};

use page_ranges::{Descriptor, MemoryType, Owner, PageRange, Run, is_specific_purpose};
use placement_certificate::{Bound, Certificate, Request, better_of};
use std::alloc::{AllocError, Allocator};

/// The memory map of the memory that runs describe.
pub fn plain_map<A: Allocator + Copy>(
    alloc: A,
    runs: &[Run],
) -> Result<Vec<Descriptor, A>, AllocError>
    requires { AreRunsBy page_count runs.now }
    ensures { IfOk result (λ v. v.items ≡ memory_map (pages_of runs.now)) }
{
    let mut entries = Vec::new(alloc);
    for i in (0..runs.len()).rev() {
        let run = runs[i];
        let mut entry = Descriptor {
            mtype: run.mtype,
            first: run.range.first,
            pages: run.range.pages,
            attributes: run.attributes,
        };
        if !entries.is_empty() && goes_on(&entry, &entries[0]) {
            entry.pages += entries[0].pages;
            entries[0] = entry;
        } else {
            entries.insert(0, entry)?;
        }
    }
    Ok(entries)
}

// The second entry begins where the first ends, and has its type and attributes.
fn goes_on(entry: &Descriptor, above: &Descriptor) -> bool
    requires { entry.now.first + entry.now.pages ≤ page_count }
    ensures { result ≡ should_be_one entry.now above.now }
{
    entry.first + entry.pages == above.first
        && entry.mtype == above.mtype
        && entry.attributes == above.attributes
}

/// The price of a start: how many entries the memory map has after the placement.
pub fn plain_price<A: Allocator + Copy>(
    alloc: A,
    runs: &[Run],
    request: &Request,
    start: u64,
) -> Result<u64, AllocError>
    requires runs { AreRunsBy page_count runs.now }
    requires within { start + request.now.pages ≤ page_count }
    ensures { IfOk result (λ n. n ≡ price (pages_of runs.now) request.now start) }
{
    let range = PageRange {
        first: start,
        pages: request.pages,
    };
    let placed = placed_runs(alloc, runs, range, request.mtype)?;
    let entries = plain_map(alloc, placed.as_slice())?;
    Ok(entries.len() as u64)
}

// The runs once the pages of a range are placed.
fn placed_runs<A: Allocator + Copy>(
    alloc: A,
    runs: &[Run],
    range: PageRange,
    mtype: MemoryType,
) -> Result<Vec<Run, A>, AllocError>
    requires runs { AreRunsBy page_count runs.now }
    requires within { range.first + range.pages ≤ page_count }
    ensures pages { IfOk result (λ v. RetypesRuns range mtype Pages runs.now v.items) }
    ensures order { IfOk result (λ v. AreRunsBy page_count v.items) }
{
    let mut out = Vec::new(alloc);
    for run in runs {
        let first = run.range.first;
        let end = first + run.range.pages;
        let low = range.first.clamp(first, end);
        let high = (range.first + range.pages).clamp(low, end);
        let placed = Run {
            range: run.range,
            mtype,
            attributes: mtype.attributes_as(run.attributes),
            owner: Owner::Pages,
        };
        push_part(&mut out, run, first, low)?;
        push_part(&mut out, &placed, low, high)?;
        push_part(&mut out, run, high, end)?;
    }
    Ok(out)
}

// Adds the part of a run from a page up to another, if there is any.
fn push_part<A: Allocator>(
    out: &mut Vec<Run, A>,
    run: &Run,
    first: u64,
    end: u64,
) -> Result<(), AllocError>
    requires order { AreRunsBy first out.old.items }
    requires up { first ≤ end }
    ensures pages { OnOk result (AppendsPart first end run.now out.old.items out.new.items) }
    ensures order { OnOk result (AreRunsBy end out.new.items) }
{
    if first < end {
        let range = PageRange {
            first,
            pages: end - first,
        };
        out.push(Run {
            range,
            mtype: run.mtype,
            attributes: run.attributes,
            owner: run.owner,
        })?;
    }
    Ok(())
}

/// The true certificate of a request, `None` where no start is permitted. The request's granule is 1 or
/// 16; each page of a free entry is tried, and those that are no multiple of it are not permitted.
pub fn plain_certificate<A: Allocator + Copy>(
    alloc: A,
    runs: &[Run],
    request: &Request,
) -> Result<Option<Certificate<A>>, AllocError>
    requires runs { AreRuns runs.now }
    requires proper { IsProperMemory (pages_of runs.now) }
    requires good { IsProperRequest request.now }
    ensures certificate { IfOk result (IsTrueIfAny runs.now request.now) }
    ensures none { IfOk result (λ o. o ≡ None → PermitsNone runs.now request.now) }
{
    let entries = plain_map(alloc, runs)?;
    let mut bounds = Vec::new(alloc);
    let mut best = None;
    for entry in &entries {
        if entry.mtype.number() == 7 {
            let least = least_in(alloc, runs, request, entry)?;
            bounds.push(Bound {
                first: entry.first,
                pages: entry.pages,
                least,
            })?;
            best = better_of(best, least);
        }
    }
    match best {
        Some((_, answer)) => Ok(Some(Certificate { bounds, answer })),
        None => Ok(None),
    }
}

// The best start in an entry with its price, by trying each of the entry's pages.
fn least_in<A: Allocator + Copy>(
    alloc: A,
    runs: &[Run],
    request: &Request,
    entry: &Descriptor,
) -> Result<Option<(u64, u64)>, AllocError>
    requires runs { AreRuns runs.now }
    requires proper { IsProperMemory (pages_of runs.now) }
    requires good { IsProperRequest request.now }
    requires within { entry.now.first + entry.now.pages ≤ page_count }
    ensures { IfOk result (λ l. IsTrueLeast (pages_of runs.now) request.now entry.now l) }
{
    let mut found = None;
    for start in entry.first..entry.first + entry.pages {
        if is_permitted(runs, request, start) {
            let count = plain_price(alloc, runs, request, start)?;
            found = better_of(found, Some((count, start)));
        }
    }
    Ok(found)
}

fn is_permitted(runs: &[Run], request: &Request, start: u64) -> bool
    requires { 0 < request.now.granule }
    ensures { IsTrue result ↔ IsPermittedStart (pages_of runs.now) request.now start }
{
    if start % request.granule != 0 {
        return false;
    }
    if start > request.limit || request.pages > request.limit - start {
        return false;
    }
    for page in start..start + request.pages {
        if !is_available(runs, page) {
            return false;
        }
    }
    true
}

// Whether a request may be given a page without naming it.
fn is_available(runs: &[Run], page: u64) -> bool
    ensures { IsTrue result ↔ IsAvailable (page_at (pages_of runs.now) page) }
{
    for run in runs {
        if run.range.first <= page && page - run.range.first < run.range.pages {
            return is_available_run(run);
        }
    }
    false
}

fn is_available_run(run: &Run) -> bool
    ensures { IsTrue result ↔ IsAvailableRun run.now }
{
    run.mtype.number() == 7 && !is_specific_purpose(run.attributes)
}
