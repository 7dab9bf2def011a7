//! GUIDs as C has them.
ghost use Rattle.std.specs.Prelude.{◌≡◌};
ghost use Rattle.uuid.specs.Parts.{swap_fields};
ghost use Rattle.c_machines.specs.Guids.{standard_guid};

use uuid::Uuid;

/// A GUID (EFI_GUID) as the standard's sixteen bytes: its first three fields are little-endian.
#[repr(C)]
#[derive(Clone, Copy, Debug, PartialEq, Eq)]
pub struct Guid {
    pub bytes: [u8; 16],
}

/// An interface: a GUID, and the interface's value.
#[repr(C)]
#[derive(Clone, Copy, Debug, PartialEq, Eq)]
pub struct Interface {
    pub guid: Guid,
    pub value: u64,
}

impl Guid {
    /// The GUID as C has it.
    pub fn new(guid: &Uuid) -> Guid
        ensures { result ≡ standard_guid guid.now }
    {
        Guid {
            bytes: guid.to_bytes_le(),
        }
    }

    /// The GUID that C hands in.
    pub fn uuid(&self) -> Uuid
        ensures { result ≡ swap_fields self.now.bytes }
    {
        Uuid::from_bytes_le(self.bytes)
    }
}
