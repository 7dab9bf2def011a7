//! Tests of raw pool memory: regions, and regions over given pages. (The pool's services and device paths are tested in
//! C and by stored runs: `tests/c`, `tests/runs`.)
#![tactic(auto)]

#[cfg(test)]
mod tests;
