//! The lines of a listing of the memory map.
ghost use Rattle.std.specs.Prelude.{OnOk, flat_map};
ghost use Rattle.text_lines.specs.Printed.{Gains};
ghost use Rattle.boot_core.specs.Machines.{map_of};
ghost use Rattle.reply_texts.specs.PrintedText.{list_text, descriptor_line};

use boot_core::Services;
use driver_connect::Driver;
use reply_texts::print_descriptor;
use std::alloc::{AllocError, Allocator};
use trace_verbs::Verb;

/// Appends the lines of a listing: the memory map's length, and its entries.
pub(crate) fn print_list<D: Driver, A: Allocator + Copy>(
    text: &mut String<A>,
    number: u64,
    services: &Services<D, A>,
) -> Result<(), AllocError>
    ensures { OnOk result (Gains text.old text.new (list_text number (map_of services.now.state))) }
{
    let verb = Verb::List.name();
    let descriptors = services.descriptors();
    writeln!(text, "{number} {verb} descriptors={descriptors}")?;
    print_map_entries(text, services)
}

/// Appends the lines of the memory map's entries.
fn print_map_entries<D: Driver, A: Allocator + Copy>(
    text: &mut String<A>,
    services: &Services<D, A>,
) -> Result<(), AllocError>
    ensures { OnOk result
        (Gains text.old text.new (flat_map descriptor_line (map_of services.now.state))) }
{
    for entry in services.map_entries() {
        print_descriptor(text, &entry)?;
    }
    Ok(())
}
