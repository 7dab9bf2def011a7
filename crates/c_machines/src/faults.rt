//! What can be wrong with what a caller in C passes.
use std::alloc::{AllocError, AllocFailed};

/// Why what a caller in C passes describes no machine or no drivers.
#[derive(Clone, Copy, Debug, PartialEq, Eq)]
pub enum MachineFault {
    /// The records describe no machine, or a count in a table is above the length of its array.
    Invalid,
    OutOfMemory,
}

impl From<AllocError> for MachineFault {
    ghost use Rattle.std.specs.Prelude.{◌≡◌};
    ghost use Rattle.c_machines.specs.declared.faults.MachineFault.TheVariants.{OutOfMemory};

    ghost from_gives = { λ _ e. e ≡ OutOfMemory };

    fn from(_error: AllocError) -> MachineFault {
        MachineFault::OutOfMemory
    }
}

impl<T: Drop> From<AllocFailed<T>> for MachineFault {
    ghost use Rattle.std.specs.Prelude.{◌≡◌};
    ghost use Rattle.c_machines.specs.declared.faults.MachineFault.TheVariants.{OutOfMemory};

    ghost from_gives = { λ _ e. e ≡ OutOfMemory };

    fn from(_error: AllocFailed<T>) -> MachineFault {
        MachineFault::OutOfMemory
    }
}
