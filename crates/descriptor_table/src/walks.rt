//! A walk along the runs of leaves.
ghost use Rattle.std.specs.Prelude.{◌≡◌, ◌∷◌, IfSome, option_map};
ghost use Rattle.descriptor_table.specs.Leaves.{runs_in, AreLeaves, PassesRun};

use crate::leaves::Leaf;
use page_ranges::Run;
use std::alloc::{Allocator, Global};
use std::marker::Model;

/// The runs that are still to come: some of a leaf, and then those of other leaves.
#[derive(Drop)]
pub(crate) struct Walk<'a, A: Allocator = Global> {
    runs: &'a [Run],
    leaves: &'a [Leaf<A>],
}

impl<'a, A: Allocator> Model for Walk<'a, A> {
    ghost use Rattle.std.specs.Prelude.{◌++◌, List};
    ghost use Rattle.page_ranges.specs.declared.ranges.Run.{Run};
    ghost use Rattle.descriptor_table.specs.Leaves.{runs_in, AreLeaves};

    ghost Value = { List Run };

    ghost view = { λ w. w.runs.now
        ++ runs_in w.leaves.now };

    ghost invariant = { λ w. AreLeaves w.leaves.now };
}

impl<'a, A: Allocator + Copy> Walk<'a, A> {
    /// A walk along all runs of some leaves.
    pub(crate) fn new(leaves: &'a [Leaf<A>]) -> Walk<'a, A>
        requires { AreLeaves leaves.now }
        ensures { result ≡ runs_in leaves.now }
    {
        Walk { runs: &[], leaves }
    }

    /// The next run, if it is of the same leaf as the one that was passed last, and the walk once it is
    /// passed.
    #[inline(always)]
    pub(crate) fn next_in_leaf(&self) -> Option<(&'a Run, Walk<'a, A>)>
        ensures { IfSome result (λ next. self.now ≡ next.0.now ∷ next.1) }
    {
        let (run, others) = self.runs.split_first()?;
        let passed = Walk {
            runs: others,
            leaves: self.leaves,
        };
        Some((run, passed))
    }

    /// Passes the next run.
    #[inline(always)]
    pub(crate) fn next(&mut self) -> Option<&'a Run>
        ensures { PassesRun self.old (option_map (λ r. r.now) result) self.new }
    {
        if let Some((run, others)) = self.runs.split_first() {
            self.runs = others;
            return Some(run);
        }
        let (leaf, behind) = self.leaves.split_first()?;
        let (run, others) = leaf.runs().split_first()?;
        self.runs = others;
        self.leaves = behind;
        Some(run)
    }
}
