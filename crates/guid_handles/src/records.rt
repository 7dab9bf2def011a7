//! What the handle table lists.
use uuid::Uuid;

/// A controller and the agent of a driver on it: one that made a handle as a child, that manages the
/// controller, or that calls OpenProtocol.
#[repr(C)]
#[derive(Clone, Copy, Debug, PartialEq, Eq)]
pub struct Pair {
    pub controller: u64,
    /// The driver's own handle.
    pub agent: u64,
}

/// A live handle.
#[derive(Clone, Copy)]
pub struct LiveHandle {
    pub number: u64,
    pub maker: Option<Pair>,
}

/// A protocol interface on a handle.
#[derive(Clone, Copy)]
pub struct Interface {
    pub handle: u64,
    pub guid: Uuid,
    pub value: u64,
    /// Of two interfaces the one that was installed or reinstalled later has the higher stamp.
    pub stamp: u64,
}

/// An interface as it is kept.
#[derive(Clone, Copy)]
pub(crate) struct Record {
    pub(crate) interface: Interface,
    /// The number of its installation. Interfaces are in the order of these.
    pub(crate) installed: u64,
}
