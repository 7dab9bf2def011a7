//! Tests of the core that C cannot make: lists of calls, drivers of several kinds, and the ends of its numbers. (Calls
//! on the memory maps of real firmware, of the pool and on handles are tested in C: `tests/c`.)
#![tactic(auto)]

#[cfg(test)]
mod tests;
