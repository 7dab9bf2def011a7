//! Registrations for protocols, and the notifications that wait for them.
#![tactic(auto)]

mod notify;

pub use notify::{Notify, Registration};
