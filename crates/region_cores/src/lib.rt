//! Cores that lie in regions of memory with all that they allocate, as a caller in C holds them.
#![tactic(auto)]

mod handle;
mod lasting;
mod making;
mod place;

pub use handle::Rafkudin;
pub use making::{make_in, make_over};
pub use place::Place;
