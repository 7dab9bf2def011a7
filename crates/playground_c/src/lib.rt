//! The module of the playground, a page in a browser: cores in regions of memory that run lines of traces, and the check of
//! certificate blocks. What is read of a line and printed of its call is what `bootcore` reads and prints.
#![tactic(auto)]

mod checking;
mod lines;
mod making;
mod maps;
