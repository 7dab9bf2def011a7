//! How far two rows of bytes are the same.
ghost use Rattle.std.specs.Prelude.{IfSome};
ghost use Rattle.std.specs.List.{AllByRecursion};
ghost use Rattle.device_path_locate.specs.Reading.{IsBoundary, IsCommonFront, IsMatched};

use crate::marks::last_mark;
use crate::nodes::END_OF_PATH;
use crate::spans::read_path;

/// How many bytes are compared at once.
const BLOCK: usize = 64;

/// How many bytes two rows begin with that are the same.
fn common_front(a: &[u8], b: &[u8]) -> usize
    ensures { IsCommonFront a.now b.now result }
{
    let shorter = a.len().min(b.len());
    let mut size = 0;
    while shorter - size >= BLOCK && a[size..size + BLOCK] == b[size..size + BLOCK] {
        size += BLOCK;
    }
    while size < shorter && a[size] == b[size] {
        size += 1;
    }
    size
}

/// How many bytes of some nodes the path at the front of some bytes matches: all of its own. A match of fewer
/// bytes than `from`, where a node ends, may be passed over. Nodes end at the marks too.
///
/// A path that matches ends just where its bytes are no longer those of the nodes. So it is read only if it ends
/// there, and from the last mark before on alone.
pub(crate) fn matched_size(
    bytes: &[u8],
    nodes: &[u8],
    from: usize,
    marks: &[usize],
) -> Option<usize>
    requires boundary { IsBoundary nodes.now from }
    requires marked { AllByRecursion (IsBoundary nodes.now) marks.now }
    ensures found { IsMatched bytes.now nodes.now from result }
    ensures boundary { IfSome result (λ size. IsBoundary nodes.now size) }
{
    let size = common_front(bytes, nodes);
    if size < from || !bytes[size..].starts_with(END_OF_PATH) {
        return None;
    }
    let start = last_mark(marks, from, size);
    let span = read_path(&bytes[start..size + END_OF_PATH.len()])?;
    if span.whole == size - start {
        Some(size)
    } else {
        None
    }
}
