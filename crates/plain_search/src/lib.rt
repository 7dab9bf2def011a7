//! A plain search for the best start, which tries every start, and tests in which it judges the search that
//! the services use. No other crate uses this one.
#![tactic(auto)]

mod plain;
#[cfg(test)]
mod tests;

pub use plain::{plain_certificate, plain_map, plain_price};
