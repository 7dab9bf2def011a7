//! What the best place for pages is, certificates of it, and the laws that the search for it rests on.
#![tactic(auto)]

mod better;
mod certificates;
mod checking;
mod cursors;
mod entries;
mod laws;
mod multiples;
mod search;
mod starts;

pub use better::{PricedStart, better_of};
pub use certificates::{Bound, Certificate, Request};
pub use checking::check;
pub use laws::{
    accepted_law, best_bound_law, best_price_law, block_ends_law, candidates_law, edges_law,
    first_or_end_law, first_page_law, inside_law, map_decides_law, map_length_law,
    one_certificate_law, price_law, stretch_law, true_is_accepted_law,
};
pub use search::EntrySearch;
