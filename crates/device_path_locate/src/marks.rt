//! Boundaries of a long path's nodes, from which it is read.
ghost use Rattle.std.specs.Prelude.{◌≡◌, ◌≤◌, option_map};
ghost use Rattle.std.specs.List.{AllByRecursion};
ghost use Rattle.device_path_locate.specs.Boundaries.{IsFrontPathNode, IsWalk, last_within};
ghost use Rattle.device_path_locate.specs.Reading.{IsBoundary};

use crate::nodes::{front_node, is_inner};

/// How many boundaries of a path are marked.
pub(crate) const MARKS: usize = 128;

/// The node at the front of some bytes, if it may come before the end of the entire path.
fn inner_node(bytes: &[u8]) -> Option<&[u8]>
    ensures { IsFrontPathNode bytes.now (option_map (λ s. s.now) result) }
{
    let node = front_node(bytes)?;
    if is_inner(node) { Some(node) } else { None }
}

/// Goes over nodes from a boundary on, as many as the limit says, or all that there are. Returns the
/// boundary behind them, and how many they are.
fn walk(nodes: &[u8], from: usize, limit: usize) -> (usize, usize)
    requires { IsBoundary nodes.now from }
    ensures { IsWalk nodes.now from limit result }
{
    let mut at = from;
    let mut count = 0;
    while count < limit {
        let Some(node) = inner_node(&nodes[at..]) else {
            return (at, count);
        };
        at += node.len();
        count += 1;
    }
    (at, count)
}

/// Boundaries of some nodes, with as many nodes from each to the next.
pub(crate) fn marks_of(nodes: &[u8]) -> [usize; MARKS]
    ensures { AllByRecursion (IsBoundary nodes.now) result }
{
    let (_, count) = walk(nodes, 0, usize::MAX);
    let apart = count / MARKS + 1;
    let mut marks = [0; MARKS];
    let mut at = 0;
    for index in 0..MARKS {
        marks[index] = at;
        (at, _) = walk(nodes, at, apart);
    }
    marks
}

/// The last of some marks between two sizes, the lower one if there is none.
pub(crate) fn last_mark(marks: &[usize], from: usize, size: usize) -> usize
    requires { from ≤ size }
    ensures { result ≡ last_within marks.now from size }
{
    let mut last = from;
    for mark in marks {
        if last < *mark && *mark <= size {
            last = *mark;
        }
    }
    last
}
