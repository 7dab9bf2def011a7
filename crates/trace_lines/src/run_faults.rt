//! What can end a run before its trace does.
use crate::faults::TraceFault;
use thiserror::Error;

/// Why a run stopped before the end of its trace.
#[derive(Clone, Copy, Debug, PartialEq, Eq, Error)]
pub enum RunFault {
    #[error("cannot read trace")]
    Read,
    #[error("cannot write")]
    Write,
    /// A line, counted from 1, and what is wrong with it.
    #[error("trace line {number}: {fault}")]
    Line { number: u64, fault: TraceFault },
    #[error("trace: too many lines")]
    TooManyLines,
    #[error("trace: no calls left")]
    NoCallsLeft,
    #[error("out of memory")]
    OutOfMemory,
}
