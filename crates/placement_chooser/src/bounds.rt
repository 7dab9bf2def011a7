//! What a certificate says of one conventional entry.
ghost use Rattle.std.specs.Prelude.{◌≡◌, ℕ, ◌+◌, ◌^◌, ◌<◌, ◌≤◌, Option};
ghost use Rattle.placement_certificate.specs.Certificates.{IsTrueLeast};
ghost use Rattle.placement_certificate.specs.Search.{IsProperSearch};
ghost use Rattle.placement_chooser.specs.Starts.{IsOfferOf};

use crate::offers::{Offer, least_beside, offer_alone};
use descriptor_table::{FreeRun, RunCursor};
use page_ranges::is_specific_purpose;
use placement_certificate::{EntrySearch, PricedStart, Request};
use std::alloc::Allocator;

// The start of an offer with its price, given how many entries the map has.
#[inline(always)]
fn priced(entries: u64, offer: Offer) -> Option<PricedStart>
    requires entries { entries + 3 < 2 ^ 64 }
    requires saving { offer.saving ≤ entries + 3 }
    ensures { (least : Option (ℕ × ℕ)) → IsOfferOf entries least offer → result ≡ least }
{
    if offer.saving == 0 {
        return None;
    }
    Some((entries + 3 - offer.saving, offer.start))
}

/// The best start of a request in a conventional entry, with its price, given how many entries the map has.
#[inline(always)]
pub(crate) fn least_in<B: Allocator + Copy>(
    search: &mut EntrySearch<RunCursor<'_, B>>,
    request: &Request,
    entries: u64,
    free: FreeRun<'_, B>,
) -> Option<PricedStart>
    requires memory { search.old ≡ free.memory }
    requires search { IsProperSearch free.memory request.now entries free.entry }
    ensures stays { search.new ≡ search.old }
    ensures least { IsTrueLeast free.entry.memory request.now free.entry.entry result }
{
    if !free.goes_on() {
        let run = free.run();
        if run.range.pages < request.pages {
            return None;
        }
        if is_specific_purpose(run.attributes) {
            return None;
        }
        if request.granule == 1 {
            return priced(entries, offer_alone(request, &free));
        }
    }
    least_beside(search, request, entries, free)
}
