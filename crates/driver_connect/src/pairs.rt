//! Pairs of a controller and the agent that manages it, and the stop set of some.
ghost use Rattle.std.specs.Prelude.{◌≡◌, ◌≤◌, [], List, IfOk, OnOk, length, drop};
ghost use Rattle.guid_handles.specs.declared.records.Pair.{Pair};
ghost use Rattle.driver_connect.specs.Stopping as spec;

use crate::made::made_by;
use crate::protocols::Lists;
use guid_handles::{Handles, Pair};
use std::alloc::{AllocError, Allocator};

/// Whether a pair is among some.
pub(crate) fn has_pair(pairs: &[Pair], pair: Pair) -> bool
    ensures { result ≡ spec.has_pair pairs.now pair }
{
    pairs.iter().any(|p| pair.controller == p.controller && pair.agent == p.agent)
}

/// Adds a pair to a set, unless it is there.
fn add_pair<A: Allocator>(set: &mut Vec<Pair, A>, pair: Pair) -> Result<(), AllocError>
    ensures { OnOk result (set.new.items ≡ spec.with_pair set.old.items pair) }
{
    if !has_pair(set.as_slice(), pair) {
        set.push(pair)?;
    }
    Ok(())
}

/// Adds each of some pairs to a set, unless it is there.
fn add_pairs<A: Allocator>(set: &mut Vec<Pair, A>, more: &[Pair]) -> Result<(), AllocError>
    ensures { OnOk result (set.new.items ≡ spec.with_pairs set.old.items more.now) }
{
    for pair in more {
        add_pair(set, *pair)?;
    }
    Ok(())
}

/// Whether a live handle's maker is among some pairs.
pub(crate) fn is_made_by<A: Allocator + Copy>(
    handles: &Handles<A>,
    pairs: &[Pair],
    handle: u64,
) -> bool
    ensures { result ≡ spec.is_made_by handles.now pairs.now handle }
{
    match handles.maker_of(handle) {
        Some(maker) => has_pair(pairs, maker),
        None => false,
    }
}

/// The set of some pairs.
pub(crate) fn set_of_each<A: Allocator>(
    alloc: A,
    pairs: &[Pair],
) -> Result<Vec<Pair, A>, AllocError>
    ensures { IfOk result (λ set. set.items ≡ spec.with_pairs [] pairs.now) }
{
    let mut set = Vec::new(alloc);
    add_pairs(&mut set, pairs)?;
    Ok(set)
}

/// The set of some pairs. A single one stays in its memory.
pub(crate) fn set_of<A: Allocator>(
    alloc: A,
    pairs: Vec<Pair, A>,
) -> Result<Vec<Pair, A>, AllocError>
    ensures { IfOk result (λ set. set.items ≡ spec.with_pairs [] pairs.items) }
{
    if pairs.len() <= 1 {
        return Ok(pairs);
    }
    set_of_each(alloc, pairs.as_slice())
}

impl<'a, A: Allocator + Copy> Lists<'a, A> {
    /// The pairs that manage a handle that some pairs made, in the order of their items.
    fn managers_of_made(&self, pairs: &[Pair]) -> Result<Vec<Pair, A>, AllocError>
        ensures { IfOk result (λ v. v.items
            ≡ spec.managers_of_made self.now.handles.now self.now.opens.now pairs.now) }
    {
        let made = made_by(self.alloc, self.handles, pairs)?;
        self.opens.managers_of_any(made.as_slice())
    }

    /// Adds the managers of the handles that the pairs of a set from a place on made.
    fn add_managers(&self, set: &mut Vec<Pair, A>, at: usize) -> Result<(), AllocError>
        requires { at ≤ length set.old.items }
        ensures { OnOk result (set.new.items ≡ spec.with_pairs set.old.items
            (spec.managers_of_made self.now.handles.now self.now.opens.now
            (drop at set.old.items))) }
    {
        let managers = self.managers_of_made(&set.as_slice()[at..])?;
        add_pairs(set, managers.as_slice())
    }

    /// Makes a number of rounds, or as many as add something. Each asks only the pairs that the one
    /// before it added: the managers of what older pairs made are there.
    fn add_rounds(&self, set: &mut Vec<Pair, A>, count: usize) -> Result<(), AllocError>
        ensures { OnOk result (set.new.items
            ≡ spec.rounds count self.now.handles.now self.now.opens.now set.old.items) }
    {
        let mut asked = 0;
        for k in 0..count {
            let before = set.len();
            self.add_managers(set, asked)?;
            if set.len() == before {
                return Ok(());
            }
            asked = before;
        }
        Ok(())
    }

    /// The stop set of the pairs of a set.
    pub(crate) fn stop_set(&self, mut set: Vec<Pair, A>) -> Result<Vec<Pair, A>, AllocError>
        ensures { IfOk result (λ v. (ps : List Pair) → set.items ≡ spec.with_pairs [] ps
            → v.items ≡ spec.stop_set self.now.handles.now self.now.opens.now ps) }
    {
        // There are at most this many items, and further rounds add nothing.
        let most = self.handles.all().len() + self.opens.slots().len();
        self.add_rounds(&mut set, most)?;
        Ok(set)
    }
}
