//! Memory types, and the attributes that go with them.
ghost use Rattle.std.specs.Prelude.{◌≡◌, Ok, Err, if◌then◌else◌};
ghost use Rattle.page_ranges.specs.MemoryTypes.{attributes_as, conventional, has_runtime, is_specific_purpose, is_bad_type, is_machine_type};

use crate::statuses::Status;
use std::marker::Model;

/// The attribute bit EFI_MEMORY_RUNTIME.
const RUNTIME: u64 = 0x8000_0000_0000_0000;

/// The attribute bit EFI_MEMORY_SP.
const SPECIFIC_PURPOSE: u64 = 0x4_0000;

/// A memory type (EFI_MEMORY_TYPE), any 32-bit number.
#[derive(Clone, Copy, Debug, Default, PartialEq, Eq)]
pub struct MemoryType {
    number: u32,
}

impl Model for MemoryType {
    ghost use Rattle.std.specs.Prelude.{ℕ};

    ghost Value = { ℕ };

    ghost view = { λ t. t.number };

    ghost inverse = { λ n. record { number = n } };
}

impl MemoryType {
    /// The type of a number.
    pub fn new(number: u32) -> MemoryType
        ensures { result ≡ number }
    {
        MemoryType { number }
    }

    /// EfiConventionalMemory, the type of free pages.
    pub fn conventional() -> MemoryType
        ensures { result ≡ conventional }
    {
        MemoryType { number: 7 }
    }

    /// The type's number.
    pub fn number(self) -> u32
        ensures { result ≡ self }
    {
        self.number
    }

    /// Whether a machine may have pages of the type: the standard's types 0 to 15, and those from
    /// 0x70000000 on, for OEMs and OS loaders.
    pub fn is_of_machines(self) -> bool
        ensures { result ≡ is_machine_type self }
    {
        self.number <= 15 || self.number >= 0x7000_0000
    }

    /// The attributes of a page that had `attributes` and gets this type: RUNTIME is set for the
    /// types of runtime services and off for all others, the other bits stay.
    pub fn attributes_as(self, attributes: u64) -> u64
        ensures { result ≡ attributes_as self attributes }
    {
        if self.number == 5 || self.number == 6 {
            attributes | RUNTIME
        } else {
            attributes & !RUNTIME
        }
    }
}

/// Whether attributes have RUNTIME set.
pub fn has_runtime(attributes: u64) -> bool
    ensures { result ≡ has_runtime attributes }
{
    attributes & RUNTIME != 0
}

/// Whether attributes have EFI_MEMORY_SP set: the memory is of specific purpose, and a firmware
/// leaves it to the operating system and its drivers.
pub fn is_specific_purpose(attributes: u64) -> bool
    ensures { result ≡ is_specific_purpose attributes }
{
    attributes & SPECIFIC_PURPOSE != 0
}

/// The type of a request for pages: INVALID_PARAMETER for a type that no request may name.
pub fn type_for_alloc(number: u32) -> Result<MemoryType, Status>
    ensures { result ≡ (if is_bad_type number then Err Status.InvalidParameter else Ok number) }
{
    let is_bad = number == 7
        || number == 14
        || number == 15
        || (number >= 16 && number < 0x7000_0000);
    if is_bad {
        Err(Status::InvalidParameter)
    } else {
        Ok(MemoryType { number })
    }
}
