//! A range of a table that gets a type and an owner.
ghost use Rattle.std.specs.Prelude.{◌+◌, ◌≤◌};
ghost use Rattle.page_ranges.specs.MemoryTypes.{page_count};
ghost use Rattle.page_ranges.specs.Runs.{AreRuns};
ghost use Rattle.descriptor_table.specs.Tables.{IsWindow};

use crate::searches::{count_beginning_by_from, count_ending_below};
use crate::summaries::ALLOWS_ALL;
use page_ranges::{MemoryType, Owner, PageRange, Run};

/// A table with this many leaves, or fewer, keeps no summaries: a search goes over its runs sooner than changes
/// keep up what it may pass.
const BARE_LEAVES: usize = 6;

/// A range whose pages get a type and an owner.
#[derive(Clone, Copy)]
pub(crate) struct Retyping {
    pub(crate) range: PageRange,
    pub(crate) mtype: MemoryType,
    pub(crate) owner: Owner,
}

/// How often a leaf's summary is joined with that of changed runs before it is recomputed, by the number
/// of leaves and the type that pages get. A summary that is only joined allows more than the runs: with
/// few leaves a search opens most of them anyway, with many it opens some in vain. Pages that become
/// free leave little of the runs before them that is not allowed anyway.
pub(crate) fn most_joins(leaves: usize, mtype: MemoryType) -> u8 {
    if leaves <= BARE_LEAVES {
        return ALLOWS_ALL;
    }
    if leaves <= 8 || mtype == MemoryType::conventional() {
        return 8;
    }
    if leaves <= 64 { 2 } else { 0 }
}

/// The indices between which runs share a page with a range or touch it. The run that holds its first page
/// is likely at an index, if one is given.
pub(crate) fn window_of(runs: &[Run], range: PageRange, likely: Option<usize>) -> (usize, usize)
    requires runs { AreRuns runs.now }
    requires within { range.first + range.pages ≤ page_count }
    ensures { IsWindow runs.now range result.0 result.1 }
{
    let low = count_ending_below(runs, range.first, likely);
    let high = count_beginning_by_from(runs, range.first + range.pages, low);
    (low, high)
}
