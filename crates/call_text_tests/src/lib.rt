//! Tests of printed calls: of each verb a line that is written by hand.
#![tactic(auto)]

#[cfg(test)]
mod tests;
