//! The best start of all, without a certificate.
ghost use Rattle.std.specs.Prelude.{◌≡◌, ◌+◌, ℕ, None, IfSome};
ghost use Rattle.placement_certificate.specs.Placement.{IsProperRequest, IsPermittedStart};
ghost use Rattle.placement_chooser.specs.Starts.{IsCertifiedStart};

use crate::offers::{NO_OFFER, offer_in};
use descriptor_table::{RunTable, Wanted};
use placement_certificate::{EntrySearch, Request};
use std::alloc::Allocator;

/// The best start of a request, which the true certificate answers; `None` where no start is permitted.
/// It takes no memory.
pub fn best_start<B: Allocator + Copy>(table: &RunTable<B>, request: &Request) -> Option<u64>
    requires { IsProperRequest request.now }
    ensures best { IfSome result (IsCertifiedStart table.now.pages request.now) }
    ensures none { result ≡ None → (p : ℕ) → ¬ IsPermittedStart table.now.pages request.now p }
{
    let entries = table.descriptors() as u64;
    let mut search = EntrySearch::new(table.cursor(), table.cursor());
    let mut best = NO_OFFER;
    let mut wanted = Wanted {
        mtype: request.mtype,
        pages: request.pages,
        limit: request.limit,
        gain: 0,
    };
    let mut left = table.entries_down();
    while let Some(mut leaf) = left.next_leaf(&wanted) {
        while let Some(free) = leaf.next_entry() {
            let offer = offer_in(&mut search, request, entries, &wanted, free);
            if best.saving < offer.saving {
                best = offer;
                wanted.gain = offer.saving - 1;
            }
        }
    }
    if best.saving == 0 {
        return None;
    }
    Some(best.start)
}
