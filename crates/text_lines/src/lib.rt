//! Lines of text, read one at a time: their words, and numbers as words. And text, written.
#![tactic(auto)]

mod lines;
mod numbers;
mod sources;
mod words;
mod writes;

pub use lines::{LineFault, MAX_LINE_LENGTH, next_byte, next_line, without_carriage_return};
pub use numbers::{hexadecimal_of, number_of};
pub use sources::ByteSource;
pub use words::words_of;
pub use writes::write_text;
