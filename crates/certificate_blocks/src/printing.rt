//! Certificate blocks as text.
ghost use Rattle.std.specs.Prelude.{OnOk, flat_map};
ghost use Rattle.text_lines.specs.Printed.{Gains};
ghost use Rattle.certificate_blocks.specs.BlockText.{entry_words, map_lines, request_words, bound_words, bound_lines, answer_lines, printed_line, block_text};

use page_ranges::Descriptor;
use placement_certificate::{Bound, Certificate, Request};
use std::alloc::{AllocError, Allocator};

/// Appends the block of a certificate: the map before the call, the request and the certificate.
pub fn print_block<A: Allocator, B: Allocator>(
    text: &mut String<A>,
    map: &[Descriptor],
    request: &Request,
    certificate: &Certificate<B>,
) -> Result<(), AllocError>
    ensures { OnOk result
        (Gains text.old text.new (block_text map.now request.now certificate.now)) }
{
    writeln!(text, "certificate")?;
    print_map(text, map)?;
    print_request(text, request)?;
    print_bounds(text, certificate.bounds.as_slice())?;
    print_answer(text, certificate.answer)
}

/// Appends the lines that say the map.
fn print_map<A: Allocator>(text: &mut String<A>, map: &[Descriptor]) -> Result<(), AllocError>
    ensures { OnOk result (Gains text.old text.new (flat_map printed_line (map_lines map.now))) }
{
    let count = map.len();
    writeln!(text, "map {count}")?;
    for entry in map {
        print_entry(text, entry)?;
    }
    Ok(())
}

/// Appends the line of a map entry.
fn print_entry<A: Allocator>(text: &mut String<A>, entry: &Descriptor) -> Result<(), AllocError>
    ensures { OnOk result (Gains text.old text.new (printed_line (entry_words entry.now))) }
{
    let mtype = entry.mtype.number();
    let first = entry.first;
    let pages = entry.pages;
    let attributes = entry.attributes;
    writeln!(text, "{mtype} {first} {pages} 0x{attributes:x}")
}

/// Appends the line of the request.
fn print_request<A: Allocator>(text: &mut String<A>, request: &Request) -> Result<(), AllocError>
    ensures { OnOk result (Gains text.old text.new (printed_line (request_words request.now))) }
{
    let mtype = request.mtype.number();
    let pages = request.pages;
    let limit = request.limit;
    match request.granule {
        1 => writeln!(text, "request {mtype} {pages} {limit}"),
        granule => writeln!(text, "request {mtype} {pages} {limit} {granule}"),
    }
}

/// Appends the lines that say the bounds.
fn print_bounds<A: Allocator>(text: &mut String<A>, bounds: &[Bound]) -> Result<(), AllocError>
    ensures { OnOk result
        (Gains text.old text.new (flat_map printed_line (bound_lines bounds.now))) }
{
    let count = bounds.len();
    writeln!(text, "bounds {count}")?;
    for bound in bounds {
        print_bound(text, bound)?;
    }
    Ok(())
}

/// Appends the line of a bound.
fn print_bound<A: Allocator>(text: &mut String<A>, bound: &Bound) -> Result<(), AllocError>
    ensures { OnOk result (Gains text.old text.new (printed_line (bound_words bound.now))) }
{
    let first = bound.first;
    let pages = bound.pages;
    match bound.least {
        Some((count, top)) => writeln!(text, "{first} {pages} {count} {top}"),
        None => writeln!(text, "{first} {pages} none"),
    }
}

/// Appends the lines that say the answer, and that end the block.
fn print_answer<A: Allocator>(text: &mut String<A>, answer: u64) -> Result<(), AllocError>
    ensures { OnOk result (Gains text.old text.new (flat_map printed_line (answer_lines answer))) }
{
    writeln!(text, "answer {answer}\nend")
}
