//! Cutting and joining runs.
ghost use Rattle.std.specs.Prelude.{◌≡◌, ◌+◌, ◌-◌, ◌<◌, ◌≤◌, ◌^◌, ◌++◌, ◌∷◌, [], List, length, false, vec_capacity, IsTrue, OnOk, OnErr};
ghost use Rattle.page_ranges.specs.declared.ranges.Run.{Run};
ghost use Rattle.page_ranges.specs.MemoryTypes.{page_count};
ghost use Rattle.page_ranges.specs.Memory.{retyped};
ghost use Rattle.page_ranges.specs.Runs.{page_in, pages_of, should_be_one_run, AreRuns, AreMaximalRuns};
ghost use Rattle.descriptor_table.specs.LeafChanges.{AppendsPart, AppendsRetyped, BeginBehind, EndsWith};
ghost use Rattle.descriptor_table.specs.Reserves.{cut_count};
ghost use Rattle.descriptor_table.specs.Tables.{EndBy, AreMaximalUpTo, PutsBehind};

use page_ranges::{MemoryType, Owner, PageRange, Run};
use std::alloc::{AllocError, Allocator};

/// The second run begins where the first ends, and is like it in all else.
#[inline(always)]
pub(crate) fn should_be_one(run: &Run, next: &Run) -> bool
    requires { run.now.range.first + run.now.range.pages < 2 ^ 64 }
    ensures { result ≡ should_be_one_run run.now next.now }
{
    run.range.first + run.range.pages == next.range.first
        && run.mtype == next.mtype
        && run.attributes == next.attributes
        && run.owner == next.owner
}

/// Makes the last of a row of runs longer by a run after it where the two should be one, and returns
/// whether they should.
#[inline(always)]
fn grow_last(runs: &mut [Run], run: &Run) -> bool
    requires order { AreMaximalUpTo run.now.range.first runs.old }
    requires some { 0 < run.now.range.pages }
    requires within { run.now.range.first + run.now.range.pages ≤ page_count }
    ensures len { length runs.new ≡ length runs.old }
    ensures grown { IsTrue result → PutsBehind runs.old run.now runs.new }
    ensures kept { result ≡ false → runs.new ≡ runs.old }
    ensures apart { result ≡ false → PutsBehind runs.old run.now (runs.old ++ run.now ∷ []) }
{
    let count = runs.len();
    if count > 0 && should_be_one(&runs[count - 1], run) {
        runs[count - 1].range.pages += run.range.pages;
        return true;
    }
    false
}

/// Puts a run after others that end at its first page or below it: as a part of the last one where the
/// two should be one.
#[inline(always)]
pub(crate) fn push_joined<A: Allocator>(runs: &mut Vec<Run, A>, run: Run) -> Result<(), AllocError>
    requires order { AreMaximalUpTo run.range.first runs.old.items }
    requires some { 0 < run.range.pages }
    requires within { run.range.first + run.range.pages ≤ page_count }
    ensures ok { OnOk result (PutsBehind runs.old.items run runs.new.items) }
    ensures few { length runs.new.items ≤ length runs.old.items + 1 }
    ensures capacity { vec_capacity runs.old ≤ vec_capacity runs.new }
    ensures full { OnErr result (vec_capacity runs.old ≤ length runs.old.items) }
{
    if grow_last(runs.as_mut_slice(), &run) {
        return Ok(());
    }
    runs.push(run)?;
    Ok(())
}

/// Puts the part of a run from one page up to another after others; an empty part leaves them.
#[inline(always)]
fn push_part<A: Allocator>(
    runs: &mut Vec<Run, A>,
    run: &Run,
    first: u64,
    end: u64,
) -> Result<(), AllocError>
    requires order { AreMaximalUpTo first runs.old.items }
    requires up { first ≤ end }
    requires within { end ≤ page_count }
    ensures pages { OnOk result
        (AppendsPart first end run.now runs.old.items runs.new.items) }
    ensures order { OnOk result (AreMaximalUpTo end runs.new.items) }
    ensures few { length runs.new.items ≤ length runs.old.items + 1 }
    ensures none { first ≡ end → runs.new ≡ runs.old }
    ensures capacity { vec_capacity runs.old ≤ vec_capacity runs.new }
    ensures full { OnErr result ((first < end) × (vec_capacity runs.old ≤ length runs.old.items)) }
{
    if first == end {
        return Ok(());
    }
    let range = PageRange {
        first,
        pages: end - first,
    };
    push_joined(runs, Run { range, ..*run })
}

/// Puts a run in which the pages of a range have a type and an owner after others, which end at its first page
/// or below it. The run begins below the range's end, and ends above the range's first page.
fn push_cut<A: Allocator>(
    parts: &mut Vec<Run, A>,
    run: &Run,
    range: PageRange,
    mtype: MemoryType,
    owner: Owner,
) -> Result<(), AllocError>
    requires order { AreMaximalUpTo run.now.range.first parts.old.items }
    requires above { range.first < run.now.range.first + run.now.range.pages }
    requires below { run.now.range.first < range.first + range.pages }
    requires ends { run.now.range.first + run.now.range.pages ≤ page_count }
    requires within { range.first + range.pages ≤ page_count }
    ensures pages { OnOk result
        (AppendsRetyped range mtype owner (run.now ∷ []) parts.old.items parts.new.items) }
    ensures order { OnOk result
        (AreMaximalUpTo (run.now.range.first + run.now.range.pages) parts.new.items) }
    ensures few { length parts.new.items
        ≤ length parts.old.items + (1 + cut_count range (run.now ∷ [])) }
    ensures capacity { vec_capacity parts.old ≤ vec_capacity parts.new }
    ensures full { OnErr result (vec_capacity parts.old
        < length parts.old.items + (1 + cut_count range (run.now ∷ []))) }
{
    let first = run.range.first;
    let end = first + run.range.pages;
    let low = first.max(range.first);
    let high = end.min(range.first + range.pages);
    let changed = Run {
        range: run.range,
        mtype,
        attributes: mtype.attributes_as(run.attributes),
        owner,
    };
    push_part(parts, run, first, low)?;
    push_part(parts, &changed, low, high)?;
    push_part(parts, run, high, end)
}

/// Puts the runs in which the pages of a range have a type and an owner after others, which end where
/// these begin or below. A run that shares no page with the range goes after them as it is.
pub(crate) fn push_behind<A: Allocator>(
    parts: &mut Vec<Run, A>,
    runs: &[Run],
    range: PageRange,
    mtype: MemoryType,
    owner: Owner,
) -> Result<(), AllocError>
    requires order { AreMaximalRuns parts.old.items }
    requires behind { BeginBehind parts.old.items runs.now }
    requires runs { AreRuns runs.now }
    requires ends { EndBy page_count runs.now }
    requires within { range.first + range.pages ≤ page_count }
    ensures pages { OnOk result
        (AppendsRetyped range mtype owner runs.now parts.old.items parts.new.items) }
    ensures order { OnOk result (AreMaximalRuns parts.new.items) }
    ensures ends { OnOk result (EndsWith runs.now parts.old.items parts.new.items) }
    ensures few { length parts.new.items
        ≤ length parts.old.items + (length runs.now + cut_count range runs.now) }
    ensures capacity { vec_capacity parts.old ≤ vec_capacity parts.new }
    ensures full { OnErr result (vec_capacity parts.old
        < length parts.old.items + (length runs.now + cut_count range runs.now)) }
{
    let end = range.first + range.pages;
    for run in runs {
        if run.range.first + run.range.pages <= range.first || end <= run.range.first {
            push_joined(parts, *run)?;
        } else {
            push_cut(parts, run, range, mtype, owner)?;
        }
    }
    Ok(())
}
