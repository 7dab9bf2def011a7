//! The nodes of a device path.
ghost use Rattle.std.specs.Prelude.{◌≡◌, ◌≤◌, length, option_map};
ghost use Rattle.device_path_locate.specs.DevicePaths.{is_inner};
ghost use Rattle.device_path_locate.specs.Boundaries.{IsReturnedNode};
ghost use Rattle.device_path_locate.specs.Reading.{IsFrontNode};

use byteorder::{ByteOrder, LittleEndian};

/// The end of the entire path.
pub(crate) const END_OF_PATH: &[u8] = &[0x7f, 0xff, 4, 0];

/// The end of this instance, behind which the path goes on with another.
pub(crate) const END_OF_INSTANCE: &[u8] = &[0x7f, 0x01, 4, 0];

/// The type of the ends.
const END_TYPE: u8 = 0x7f;

/// The bytes of a type, a subtype and a length, with which each node begins.
const HEADER_SIZE: usize = 4;

/// A node's length, which counts its header too, is at least this.
const MIN_LENGTH: usize = HEADER_SIZE;

/// The node at the front of some bytes. `None` where they run out in it, or its length is too small.
pub(crate) fn front_node(bytes: &[u8]) -> Option<&[u8]>
    ensures path { IsFrontNode bytes.now (option_map (λ s. s.now) result) }
    ensures node { IsReturnedNode bytes.now (option_map (λ s. s.now) result) }
{
    if bytes.len() < HEADER_SIZE {
        return None;
    }
    let length = LittleEndian::read_u16(&bytes[2..]) as usize;
    if length < MIN_LENGTH || length > bytes.len() {
        return None;
    }
    Some(&bytes[..length])
}

/// Whether a node may come before the end of the entire path.
pub(crate) fn is_inner(node: &[u8]) -> bool
    requires { 4 ≤ length node.now }
    ensures { result ≡ is_inner node.now }
{
    node[0] != END_TYPE || node == END_OF_INSTANCE
}
