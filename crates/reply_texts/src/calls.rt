//! The lines of calls, printed with the certificates of their replies.
ghost use Rattle.std.specs.Prelude.{OnOk, option_map};
ghost use Rattle.reply_texts.specs.CallText.{GainsCall};

use crate::replies::{carried_entries, print_reply};
use boot_calls::Call;
use boot_replies::{Reply, certified};
use certificate_blocks::print_block;
use page_ranges::Descriptor;
use std::alloc::{AllocError, Allocator};

/// Appends the lines of a reply and, where the memory map before the call was kept, the block of the
/// certificate that the reply carries. The machine has a granule of this many pages.
pub fn print_call<A: Allocator + Copy>(
    alloc: A,
    text: &mut String<A>,
    number: u64,
    granule: u64,
    before: &Option<Vec<Descriptor, A>>,
    call: &Call<A>,
    reply: &Reply<A>,
) -> Result<(), AllocError>
    ensures { OnOk result
        (GainsCall number granule
        (option_map (λ kept. kept.items) before.now) call.now reply.now text.old text.new) }
{
    let entries = carried_entries(alloc, reply)?;
    print_reply(alloc, text, number, entries.as_slice(), reply)?;
    match (before, certified(granule, call, reply)) {
        (Some(entries), Some((request, certificate))) => {
            print_block(text, entries.as_slice(), &request, certificate)
        }
        _ => Ok(()),
    }
}
