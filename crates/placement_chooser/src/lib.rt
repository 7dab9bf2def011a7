//! The choice of the best start for a request, with its certificate or alone.
#![tactic(auto)]

mod bounds;
mod choosing;
mod offers;
mod starts;

pub use choosing::choose;
pub use starts::best_start;
