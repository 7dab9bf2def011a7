//! The text of replies.
#![tactic(auto)]

mod calls;
mod list_texts;
mod protocol_replies;
mod replies;

pub use calls::print_call;
pub use replies::print_descriptor;
