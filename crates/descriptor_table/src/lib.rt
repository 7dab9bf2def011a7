//! The memory of a machine as a sorted table of runs.
#![tactic(auto)]

mod cursors;
mod cuts;
mod entries;
mod entries_down;
mod free_entries;
mod free_marks;
mod free_runs;
mod leaf_row;
mod leaf_searches;
mod leaves;
mod replacing;
mod retyping;
mod run_arrays;
mod searches;
mod summaries;
mod table;
mod walks;
mod wanted;

pub use cursors::RunCursor;
pub use entries::{MapEntries, block_of};
pub use entries_down::{EntriesDown, LeafDown};
pub use free_entries::{FreeEntries, LeafUp};
pub use free_runs::FreeRun;
pub use leaves::Leaf;
pub use table::RunTable;
pub use wanted::Wanted;
