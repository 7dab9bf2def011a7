//! Which runs of a leaf are free, by a bit for each.
ghost use Rattle.std.specs.Prelude.{◌≡◌, ◌+◌, ◌<◌, ◌≤◌, ℕ, length, IfSome, IfNone};
ghost use Rattle.std.specs.Int.{bit_at};
ghost use Rattle.descriptor_table.specs.LeafSummaries.{MarksFree, NoneMarked, StillMarks};

use page_ranges::{MemoryType, Run};

/// The bits below that of an index.
#[inline(always)]
fn bits_below(index: usize) -> u64
    requires { index < 64 }
    ensures below { (i : ℕ) → i < index → bit_at result i ≡ 1 }
    ensures above { (i : ℕ) → index ≤ i → bit_at result i ≡ 0 }
{
    (1 << index) - 1
}

/// The marks of some runs: the bit of each free one is set.
pub(crate) fn marks_of(runs: &[Run]) -> u64
    requires { length runs.now ≤ 32 }
    ensures { MarksFree result runs.now }
{
    let mut marks = 0;
    for index in 0..runs.len() {
        if runs[index].mtype == MemoryType::conventional() {
            marks |= 1 << index;
        }
    }
    marks
}

/// The marks of runs of which those between two indices gave way to others.
pub(crate) fn marks_changed(marks: u64, low: usize, high: usize, parts: &[Run]) -> u64
    requires order { low ≤ high }
    requires bound { high ≤ 32 }
    requires fits { low + length parts.now ≤ 32 }
    ensures { StillMarks marks (low, high) parts.now result }
{
    let below = marks & bits_below(low);
    let above = marks >> high << (low + parts.len());
    below | marks_of(parts) << low | above
}

/// The last mark of an index below another one.
#[inline(always)]
pub(crate) fn last_mark(marks: u64, end: usize) -> Option<usize>
    requires { end < 64 }
    ensures some { IfSome result (λ i. i < end) }
    ensures above { IfSome result (λ i. NoneMarked marks (i + 1) end) }
    ensures none { IfNone result (NoneMarked marks 0 end) }
{
    let left = marks & bits_below(end);
    if left == 0 {
        return None;
    }
    Some(63 - left.leading_zeros() as usize)
}

/// The first mark of an index from one on and below another.
#[inline(always)]
pub(crate) fn first_mark(marks: u64, from: usize, end: usize) -> Option<usize>
    requires { from < 64 }
    ensures some { IfSome result (λ i. (from ≤ i) × (i < end)) }
    ensures below { IfSome result (λ i. NoneMarked marks from i) }
    ensures none { IfNone result (NoneMarked marks from end) }
{
    let left = marks >> from;
    if left == 0 {
        return None;
    }
    let index = from + left.trailing_zeros() as usize;
    if index < end { Some(index) } else { None }
}
