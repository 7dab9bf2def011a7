//! What can be wrong with a trace line.
use hex::FromHexError;
use std::alloc::{AllocError, AllocFailed};
use thiserror::Error;

/// Why a trace line is refused, the first cause in this order.
#[derive(Clone, Copy, Debug, PartialEq, Eq, Error)]
pub enum TraceFault {
    #[error("long")]
    Long,
    #[error("verb")]
    Verb,
    #[error("words")]
    Words,
    #[error("number")]
    Number,
    #[error("guid")]
    Guid,
    #[error("hex")]
    Hex,
    #[error("out of memory")]
    OutOfMemory,
}

impl From<AllocError> for TraceFault {
    ghost use Rattle.std.specs.Prelude.{◌≡◌};
    ghost use Rattle.trace_lines.specs.declared.faults.TraceFault.TheVariants.{OutOfMemory};

    ghost from_gives = { λ _ e. e ≡ OutOfMemory };

    fn from(_error: AllocError) -> TraceFault {
        TraceFault::OutOfMemory
    }
}

impl<T: Drop> From<AllocFailed<T>> for TraceFault {
    ghost use Rattle.std.specs.Prelude.{◌≡◌};
    ghost use Rattle.trace_lines.specs.declared.faults.TraceFault.TheVariants.{OutOfMemory};

    ghost from_gives = { λ _ e. e ≡ OutOfMemory };

    fn from(_error: AllocFailed<T>) -> TraceFault {
        TraceFault::OutOfMemory
    }
}

impl From<FromHexError> for TraceFault {
    ghost use Rattle.std.specs.Prelude.{◌≡◌};
    ghost use Rattle.trace_lines.specs.Parameters.{fault_of};

    ghost from_gives = { λ error e. e ≡ fault_of error };

    fn from(error: FromHexError) -> TraceFault {
        match error {
            FromHexError::OutOfMemory => TraceFault::OutOfMemory,
            _ => TraceFault::Hex,
        }
    }
}
