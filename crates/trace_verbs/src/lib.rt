//! The verbs of a trace.
#![tactic(auto)]

mod verbs;

pub use verbs::{Verb, verb_named};
