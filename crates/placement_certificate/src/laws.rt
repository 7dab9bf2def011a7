//! The laws that the search for the best start rests on, each the contract of a function that does
//! nothing.
ghost use Rattle.placement_certificate.specs.Laws.{MapLengthLaw, InsideLaw, PriceLaw, FirstPageLaw, StretchLaw, EdgesLaw, BlockEndsLaw, FirstOrEndLaw, BestPriceLaw, CandidatesLaw, OneCertificateLaw, MapDecidesLaw, BestBoundLaw};
ghost use Rattle.placement_certificate.specs.Acceptance.{AcceptedLaw, TrueIsAcceptedLaw};

/// The memory map has one entry for each page with no equal page just below it.
pub fn map_length_law()
    ensures { MapLengthLaw }
{}

/// What it is for an edge to lie inside an entry.
pub fn inside_law()
    ensures { InsideLaw }
{}

/// The price of a start, by the pages at its two edges.
pub fn price_law()
    ensures { PriceLaw }
{}

/// An entry's first page, where the entry has a permitted start and the granule is 1.
pub fn first_page_law()
    ensures { FirstPageLaw }
{}

/// Which starts in a stretch of free pages are permitted.
pub fn stretch_law()
    ensures { StretchLaw }
{}

/// What a start costs, both edges of which lie inside entries.
pub fn edges_law()
    ensures { EdgesLaw }
{}

/// Where a best start lies in its entry.
pub fn block_ends_law()
    ensures { BlockEndsLaw }
{}

/// Where a best start lies in its entry, where the granule is 1.
pub fn first_or_end_law()
    ensures { FirstOrEndLaw }
{}

/// How much longer a best start makes the map at most.
pub fn best_price_law()
    ensures { BestPriceLaw }
{}

/// Which starts of an entry need to be tried.
pub fn candidates_law()
    ensures { CandidatesLaw }
{}

/// Two true certificates of one request are equal.
pub fn one_certificate_law()
    ensures { OneCertificateLaw }
{}

/// Memories with one memory map have the same true certificates.
pub fn map_decides_law()
    ensures { MapDecidesLaw }
{}

/// The best start of all is the best of the entries' best.
pub fn best_bound_law()
    ensures { BestBoundLaw }
{}

/// An accepted certificate is true in each memory with that map.
pub fn accepted_law()
    ensures { AcceptedLaw }
{}

/// Each true certificate is accepted with the memory's map.
pub fn true_is_accepted_law()
    ensures { TrueIsAcceptedLaw }
{}
