//! What can be wrong with a machine file.
ghost use Rattle.std.specs.Prelude.{Some};
ghost use Rattle.machine_files.specs.FaultText.{field_name, driver_field_name};

use std::alloc::{AllocError, AllocFailed};
use std::fmt;
use thiserror::Error;

/// A field of a member of a machine file's memory list.
#[derive(Clone, Copy, Debug, PartialEq, Eq)]
pub enum MemberField {
    Type,
    Start,
    Pages,
    Attributes,
}

impl fmt::Display for MemberField {
    ghost output = { λ field. Some (field_name field) };

    fn fmt<W: fmt::Write>(&self, f: &mut fmt::Formatter<W>) -> fmt::Result {
        f.write_str(match self {
            MemberField::Type => "type",
            MemberField::Start => "start",
            MemberField::Pages => "pages",
            MemberField::Attributes => "attributes",
        })
    }
}

/// A field of a member of a machine file's driver list.
#[derive(Clone, Copy, Debug, PartialEq, Eq)]
pub enum DriverField {
    Version,
    Needs,
    Opens,
    Children,
    Stops,
}

impl fmt::Display for DriverField {
    ghost output = { λ field. Some (driver_field_name field) };

    fn fmt<W: fmt::Write>(&self, f: &mut fmt::Formatter<W>) -> fmt::Result {
        f.write_str(match self {
            DriverField::Version => "version",
            DriverField::Needs => "needs",
            DriverField::Opens => "opens",
            DriverField::Children => "children",
            DriverField::Stops => "stops",
        })
    }
}

/// Why a machine file is refused, the first cause in this order.
#[derive(Clone, Copy, Debug, PartialEq, Eq, Error)]
pub enum MachineFault {
    #[error("machine: too long")]
    TooLong,
    #[error("machine: not JSON")]
    NotJson,
    #[error("machine: no memory list")]
    NoMemoryList,
    #[error("machine: too many descriptors")]
    TooManyDescriptors,
    /// The member at an index of the memory list, from 0 on, and its first field that is missing, of
    /// another kind or out of its range.
    #[error("machine: descriptor {number}: {field}")]
    Descriptor { number: usize, field: MemberField },
    #[error("machine: no driver list")]
    NoDriverList,
    #[error("machine: too many drivers")]
    TooManyDrivers,
    /// The same of the driver list.
    #[error("machine: driver {number}: {field}")]
    Driver { number: usize, field: DriverField },
    #[error("machine: descriptors overlap")]
    Overlap,
    /// The granule is there and is neither the number 1 nor 16.
    #[error("machine: granule")]
    Granule,
    #[error("out of memory")]
    OutOfMemory,
}

impl From<AllocError> for MachineFault {
    ghost use Rattle.std.specs.Prelude.{◌≡◌};
    ghost use Rattle.machine_files.specs.declared.faults.MachineFault.TheVariants.{OutOfMemory};

    ghost from_gives = { λ _ e. e ≡ OutOfMemory };

    fn from(_error: AllocError) -> MachineFault {
        MachineFault::OutOfMemory
    }
}

impl<T: Drop> From<AllocFailed<T>> for MachineFault {
    ghost use Rattle.std.specs.Prelude.{◌≡◌};
    ghost use Rattle.machine_files.specs.declared.faults.MachineFault.TheVariants.{OutOfMemory};

    ghost from_gives = { λ _ e. e ≡ OutOfMemory };

    fn from(_error: AllocFailed<T>) -> MachineFault {
        MachineFault::OutOfMemory
    }
}
