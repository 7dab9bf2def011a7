//! What the free runs among some runs may be, in a few numbers.
ghost use Rattle.std.specs.Prelude.{◌≡◌, ◌↔◌, ℕ, ◌+◌, ◌%◌, ◌<◌, ◌≤◌, ◌^◌, length, false, IsTrue, slice_get};
ghost use Rattle.std.specs.Option.{option_map};
ghost use Rattle.page_ranges.specs.declared.ranges.Run.{Run};
ghost use Rattle.page_ranges.specs.MemoryTypes.{conventional};
ghost use Rattle.descriptor_table.specs.Leaves.{run_before};
ghost use Rattle.descriptor_table.specs.LeafSummaries.{AllowsNear};
ghost use Rattle.descriptor_table.specs.Summaries.{Allows, AllowsAll, AllowsBetween, AllowsRun, BeginsFree, EndsFree, IsFreeRun, bit_of, joined, may_be, may_hold, pair_of};

use crate::wanted::Wanted;
use page_ranges::{MemoryType, Run};

/// All bits of a number.
const ALL_BITS: u64 = u64::MAX;

/// Bounds of the free runs among some runs; each need only be high enough.
#[derive(Clone, Copy)]
pub(crate) struct Summary {
    // None has more pages.
    longest: u64,
    // Bit n % 64 is set if one has n pages.
    lengths: u64,
    // Bit t % 64 is set if one has a neighbour of the type t.
    beside: u64,
    // The bit of n pages and the type t is set if one has n pages and is between two of that type.
    between: u64,
}

/// A number with one bit, that of another number.
#[inline(always)]
fn with_bit(number: u64) -> u64
    ensures { result ≡ 2 ^ (number % 64) }
{
    1 << (number % 64)
}

/// The bit of a number.
#[inline(always)]
fn bit_of(bits: u64, number: u64) -> u64
    ensures value { result ≡ bit_of bits number }
    ensures bound { result < 2 }
{
    bits >> (number % 64) & 1
}

/// A number of a length and a type, by which few lengths and types share a bit.
#[inline(always)]
fn pair_of(pages: u64, mtype: MemoryType) -> u64
    ensures { result ≡ pair_of pages mtype }
{
    pages % 64 + 11 * u64::from(mtype.number())
}

/// The bit of a run's type; all bits where the run is not known.
#[inline(always)]
fn type_bits(run: Option<&Run>) -> u64
    ensures { (t : ℕ) → may_be t (option_map (λ r. r.now) run.entry) ≤ bit_of result t }
{
    match run {
        Some(run) => with_bit(u64::from(run.mtype.number())),
        None => ALL_BITS,
    }
}

/// The bit of a length and a run's type; all bits where the run is not known.
#[inline(always)]
fn pair_bits(pages: u64, run: Option<&Run>) -> u64
    ensures { (t : ℕ) → may_be t (option_map (λ r. r.now) run.entry)
        ≤ bit_of result (pair_of pages t) }
{
    match run {
        Some(run) => with_bit(pair_of(pages, run.mtype)),
        None => ALL_BITS,
    }
}

/// Whether a run is free.
#[inline(always)]
fn is_free(run: Option<&Run>) -> bool
    ensures { IsTrue result ↔ IsFreeRun (option_map (λ r. r.now) run.entry) }
{
    match run {
        Some(run) => run.mtype == MemoryType::conventional(),
        None => false,
    }
}

impl Summary {
    /// The summary of no free run.
    pub(crate) fn none() -> Summary {
        Summary {
            longest: 0,
            lengths: 0,
            beside: 0,
            between: 0,
        }
    }

    /// The summary of all that may be.
    pub(crate) fn all() -> Summary
        ensures { AllowsAll result }
    {
        Summary {
            longest: ALL_BITS,
            lengths: ALL_BITS,
            beside: ALL_BITS,
            between: ALL_BITS,
        }
    }

    /// The summary of a free run between two others, which may not be known. Where the one above is free
    /// too, a placement may go on there, and all may be.
    #[inline(always)]
    fn of_free(below: Option<&Run>, run: &Run, above: Option<&Run>) -> Summary
        ensures { AllowsRun result (option_map (λ r. r.now) below.entry) run.now
            (option_map (λ r. r.now) above.entry) }
    {
        let pages = run.range.pages;
        let all = if is_free(above) { ALL_BITS } else { 0 };
        Summary {
            longest: pages.max(all),
            lengths: with_bit(pages) | all,
            beside: type_bits(below) | type_bits(above) | all,
            between: (pair_bits(pages, below) & pair_bits(pages, above)) | all,
        }
    }

    /// The summary of what two allow.
    #[inline(always)]
    pub(crate) fn joined(self, other: Summary) -> Summary
        ensures { result ≡ joined self other }
    {
        Summary {
            longest: self.longest.max(other.longest),
            lengths: self.lengths | other.lengths,
            beside: self.beside | other.beside,
            between: self.between | other.between,
        }
    }

    /// Whether a free run may be of use.
    #[inline(always)]
    pub(crate) fn may_hold(&self, wanted: &Wanted) -> bool
        ensures may { result ≡ may_hold self.now wanted.now }
        ensures pages { wanted.now.pages < 2 ^ 64 }
    {
        if self.longest < wanted.pages {
            return false;
        }
        let beside = bit_of(self.beside, u64::from(wanted.mtype.number()));
        let most = if bit_of(self.lengths, wanted.pages) == 1 {
            1 + beside + bit_of(self.between, pair_of(wanted.pages, wanted.mtype))
        } else {
            beside
        };
        wanted.gain <= most
    }
}

/// The run below the one at an index.
#[inline(always)]
pub(crate) fn run_below(runs: &[Run], index: usize) -> Option<&Run>
    requires { index < length runs.now }
    ensures { option_map (λ r. r.now) result ≡ run_before runs.now index }
{
    if index == 0 {
        None
    } else {
        Some(&runs[index - 1])
    }
}

/// The run above it.
#[inline(always)]
pub(crate) fn run_above(runs: &[Run], index: usize) -> Option<&Run>
    requires { index < length runs.now }
    ensures { option_map (λ r. r.now) result ≡ slice_get runs.now (index + 1) }
{
    runs.get(index + 1)
}

/// Whether the first one of some runs is free.
#[inline(always)]
pub(crate) fn begins_free(runs: &[Run]) -> bool
    ensures { BeginsFree result runs.now }
{
    is_free(runs.first())
}

/// Whether the last one is.
#[inline(always)]
pub(crate) fn ends_free(runs: &[Run]) -> bool
    ensures { EndsFree result runs.now }
{
    is_free(runs.last())
}

/// The summary of the free runs between two indices.
fn summary_between(runs: &[Run], low: usize, high: usize) -> Summary
    requires { high ≤ length runs.now }
    ensures { AllowsBetween result runs.now low high }
{
    let mut summary = Summary::none();
    for index in low..high {
        let run = &runs[index];
        if run.mtype == MemoryType::conventional() {
            let free = Summary::of_free(run_below(runs, index), run, run_above(runs, index));
            summary = summary.joined(free);
        }
    }
    summary
}

/// The summary of the free runs of some runs.
pub(crate) fn summary_of(runs: &[Run]) -> Summary
    ensures { Allows result runs.now }
{
    summary_between(runs, 0, runs.len())
}

/// A summary joined with that of the runs between two indices and the one beside each of these.
fn joined_near(summary: Summary, runs: &[Run], low: usize, high: usize) -> Summary
    requires { high ≤ length runs.now }
    ensures { AllowsNear runs.now low high summary result }
{
    let end = runs.len().min(high + 1);
    summary.joined(summary_between(runs, low.saturating_sub(1), end))
}

/// In place of a number of joins: no summary is kept, and any free run is allowed.
pub(crate) const ALLOWS_ALL: u8 = u8::MAX;

/// The summary of runs once those between two indices have changed, and how often it was joined since it was
/// made: it is recomputed after a number of joins.
pub(crate) fn summary_changed(
    summary: Summary,
    joins: u8,
    runs: &[Run],
    changed: (usize, usize),
    most_joins: u8,
) -> (Summary, u8)
    requires { changed.1 ≤ length runs.now }
    ensures { AllowsNear runs.now changed.0 changed.1 summary result.0 }
{
    if most_joins == ALLOWS_ALL {
        return (Summary::all(), ALLOWS_ALL);
    }
    if joins >= most_joins {
        return (summary_of(runs), 0);
    }
    (joined_near(summary, runs, changed.0, changed.1), joins + 1)
}
