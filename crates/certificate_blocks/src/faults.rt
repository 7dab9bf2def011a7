//! What can be wrong with a certificate block.
use std::alloc::{AllocError, AllocFailed};
use thiserror::Error;

/// Why a certificate block was not judged.
#[derive(Clone, Copy, Debug, PartialEq, Eq, Error)]
pub enum BlockFault {
    #[error("cannot read block")]
    Read,
    #[error("cannot write")]
    Write,
    /// The first line, counted from 1, that is missing or not as a block has it.
    #[error("block: line {number}")]
    Line { number: u64 },
    #[error("out of memory")]
    OutOfMemory,
}

impl From<AllocError> for BlockFault {
    ghost use Rattle.std.specs.Prelude.{◌≡◌};
    ghost use Rattle.certificate_blocks.specs.declared.faults.BlockFault.TheVariants.{OutOfMemory};

    ghost from_gives = { λ _ e. e ≡ OutOfMemory };

    fn from(_error: AllocError) -> BlockFault {
        BlockFault::OutOfMemory
    }
}

impl<T: Drop> From<AllocFailed<T>> for BlockFault {
    ghost use Rattle.std.specs.Prelude.{◌≡◌};
    ghost use Rattle.certificate_blocks.specs.declared.faults.BlockFault.TheVariants.{OutOfMemory};

    ghost from_gives = { λ _ e. e ≡ OutOfMemory };

    fn from(_error: AllocFailed<T>) -> BlockFault {
        BlockFault::OutOfMemory
    }
}
