//! Tests of drivers that are of the tests' own kinds: what they are shown, and what follows from their answers.
//! (Handles, open items and table drivers are tested in C, through the services: `tests/c`.)
#![tactic(auto)]

#[cfg(test)]
mod tests;
