//! The best start of all, with its certificate.
ghost use Rattle.std.specs.Prelude.{◌≡◌, ℕ, None, IfSome, IfOk};
ghost use Rattle.placement_certificate.specs.Placement.{IsProperRequest, IsPermittedStart};
ghost use Rattle.placement_certificate.specs.Certificates.{IsTrueCertificate};

use crate::bounds::least_in;
use descriptor_table::RunTable;
use placement_certificate::{Bound, Certificate, EntrySearch, Request, better_of};
use std::alloc::{AllocError, Allocator};

/// The true certificate of a request, whose answer is the best start; `None` where no start is
/// permitted. An `Err` means no memory for the certificate.
pub fn choose<A: Allocator + Copy, B: Allocator + Copy>(
    alloc: A,
    table: &RunTable<B>,
    request: &Request,
) -> Result<Option<Certificate<A>>, AllocError>
    requires { IsProperRequest request.now }
    ensures certificate { IfOk result
        (λ o. IfSome o (λ c. IsTrueCertificate table.now.pages request.now c)) }
    ensures none { IfOk result
        (λ o. o ≡ None → (p : ℕ) → ¬ IsPermittedStart table.now.pages request.now p) }
{
    let entries = table.descriptors();
    // Room for a bound of each entry.
    let mut bounds = Vec::with_capacity(alloc, entries)?;
    let mut best = None;
    let mut search = EntrySearch::new(table.cursor(), table.cursor());
    let mut left = table.free_entries();
    while let Some(mut leaf) = left.next_leaf() {
        while let Some(free) = leaf.next_entry() {
            let count = entries as u64;
            let range = free.run().range;
            let least = least_in(&mut search, request, count, free);
            bounds.push_reserved(Bound {
                first: range.first,
                pages: range.pages,
                least,
            });
            best = better_of(best, least);
        }
    }
    match best {
        Some((_, answer)) => Ok(Some(Certificate { bounds, answer })),
        None => Ok(None),
    }
}
