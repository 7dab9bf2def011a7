//! Tests of what the core is built on: the table, certificates, pages of the pool and the bytes of a memory map.
#![tactic(auto)]

#[cfg(test)]
mod tests;
