//! Judging certificate blocks as a library for C by itself, with no core and no heap: what is allocated lies in a region
//! that the caller passes.
#![tactic(auto)]

mod checking;
