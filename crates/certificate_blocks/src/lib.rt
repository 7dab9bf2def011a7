//! Certificate blocks: a certificate as text, with the memory map and the request that it is for.
#![tactic(auto)]

mod checks;
mod faults;
mod laws;
mod line_words;
mod printing;
mod reader;

pub use checks::{check_block, judge_block};
pub use faults::BlockFault;
pub use laws::{accepted_block_law, block_read_back_law};
pub use printing::print_block;
