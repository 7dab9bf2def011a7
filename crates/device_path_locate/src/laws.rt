//! The laws of device paths, each the contract of a function that does nothing.
ghost use Rattle.device_path_locate.specs.Laws.{FrontBytesLaw, InstanceEndsLaw, PathBytesLaw};

/// A path is read of just the bytes that begin with its nodes and the end of the entire path.
pub fn path_bytes_law()
    ensures { PathBytesLaw }
{}

/// The nodes of one path are the first of another exactly where their bytes are.
pub fn front_bytes_law()
    ensures { FrontBytesLaw }
{}

/// A path that has the end of an instance matches nothing.
pub fn instance_ends_law()
    ensures { InstanceEndsLaw }
{}
