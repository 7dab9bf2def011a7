//! How far a device path reaches.
ghost use Rattle.std.specs.Prelude.{◌≡◌, option_map};
ghost use Rattle.device_path_locate.specs.DevicePaths.{path_in, span_of};

use crate::nodes::{END_OF_INSTANCE, END_OF_PATH, front_node, is_inner};

/// How many bytes of a device path's nodes there are, without the end of the entire path.
#[derive(Clone, Copy, Debug, PartialEq, Eq)]
pub struct PathSpan {
    /// The bytes of the nodes before the first end of an instance or of the path.
    pub first_instance: usize,
    /// The bytes of all nodes, ends of instances among them.
    pub whole: usize,
}

/// Reads the device path that some bytes begin with. `None` where the bytes run out before the end of
/// the entire path, a node has a length below 4, or one of the type of the ends is no end. The bytes
/// behind that end do not matter.
pub fn read_path(bytes: &[u8]) -> Option<PathSpan>
    ensures { result ≡ option_map span_of (path_in bytes.now) }
{
    let mut first_instance = None;
    let mut whole = 0;
    while whole < bytes.len() {
        let node = front_node(&bytes[whole..])?;
        if node == END_OF_PATH {
            return Some(PathSpan {
                first_instance: first_instance.unwrap_or(whole),
                whole,
            });
        }
        if !is_inner(node) {
            return None;
        }
        if node == END_OF_INSTANCE {
            first_instance = first_instance.or(Some(whole));
        }
        whole += node.len();
    }
    None
}
