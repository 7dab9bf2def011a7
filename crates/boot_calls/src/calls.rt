//! The calls of the boot services: a variant for each service.
ghost use Rattle.std.specs.Prelude.{◌≡◌};

use std::alloc::{Allocator, Global};
use std::marker::Model;
use uuid::Uuid;

/// Bytes that a call carries.
#[derive(Drop)]
pub struct CallBytes<A: Allocator = Global> {
    bytes: Vec<u8, A>,
}

impl<A: Allocator> Model for CallBytes<A> {
    ghost use Rattle.std.specs.Prelude.{ℕ, List};

    ghost Value = { List ℕ };

    ghost view = { λ c. c.bytes.items };
}

impl<A: Allocator> CallBytes<A> {
    /// The bytes of a vector.
    pub fn new(bytes: Vec<u8, A>) -> CallBytes<A>
        ensures { result ≡ bytes.items }
    {
        CallBytes { bytes }
    }

    /// The bytes.
    pub fn as_slice(&self) -> &[u8]
        ensures { result.now ≡ self.now }
    {
        self.bytes.as_slice()
    }
}

/// Interfaces that a call carries, as pairs of GUID and value.
#[derive(Drop)]
pub struct CallPairs<A: Allocator = Global> {
    pairs: Vec<(Uuid, u64), A>,
}

impl<A: Allocator> Model for CallPairs<A> {
    ghost use Rattle.std.specs.Prelude.{ℕ, List};

    ghost Value = { List (List ℕ × ℕ) };

    ghost view = { λ c. c.pairs.items };
}

impl<A: Allocator> CallPairs<A> {
    /// The pairs of a vector.
    pub fn new(pairs: Vec<(Uuid, u64), A>) -> CallPairs<A>
        ensures { result ≡ pairs.items }
    {
        CallPairs { pairs }
    }

    /// The pairs.
    pub fn as_slice(&self) -> &[(Uuid, u64)]
        ensures { result.now ≡ self.now }
    {
        self.pairs.as_slice()
    }
}

/// Handles that a call carries.
#[derive(Drop)]
pub struct CallHandles<A: Allocator = Global> {
    handles: Vec<u64, A>,
}

impl<A: Allocator> Model for CallHandles<A> {
    ghost use Rattle.std.specs.Prelude.{ℕ, List};

    ghost Value = { List ℕ };

    ghost view = { λ c. c.handles.items };
}

impl<A: Allocator> CallHandles<A> {
    /// The handles of a vector.
    pub fn new(handles: Vec<u64, A>) -> CallHandles<A>
        ensures { result ≡ handles.items }
    {
        CallHandles { handles }
    }

    /// The handles.
    pub fn as_slice(&self) -> &[u64]
        ensures { result.now ≡ self.now }
    {
        self.handles.as_slice()
    }
}

/// A call of a boot service, its numbers as the caller gave them; for a buffer of the caller's, its
/// size in bytes.
#[derive(Drop)]
pub enum Call<A: Allocator = Global> {
    AllocatePages {
        kind: u32,
        mtype: u32,
        pages: u64,
        memory: u64,
    },
    FreePages {
        memory: u64,
        pages: u64,
    },
    GetMemoryMap {
        size: u64,
    },
    AllocatePool {
        mtype: u32,
        size: u64,
    },
    FreePool {
        address: u64,
    },
    PoolRead {
        address: u64,
        size: u64,
    },
    PoolWrite {
        address: u64,
        bytes: CallBytes<A>,
    },
    InstallProtocolInterface {
        handle: u64,
        guid: Uuid,
        kind: u32,
        value: u64,
    },
    InstallMultipleProtocolInterfaces {
        handle: u64,
        pairs: CallPairs<A>,
    },
    UninstallProtocolInterface {
        handle: u64,
        guid: Uuid,
        value: u64,
    },
    ReinstallProtocolInterface {
        handle: u64,
        guid: Uuid,
        old_value: u64,
        new_value: u64,
    },
    RegisterProtocolNotify {
        guid: Uuid,
        event: u64,
    },
    LocateHandle {
        search: u32,
        guid: Uuid,
        key: u64,
        size: u64,
    },
    LocateHandleBuffer {
        search: u32,
        guid: Uuid,
        key: u64,
    },
    LocateProtocol {
        guid: Uuid,
        key: u64,
    },
    ProtocolsPerHandle {
        handle: u64,
    },
    OpenProtocol {
        handle: u64,
        guid: Uuid,
        agent: u64,
        controller: u64,
        attributes: u32,
    },
    CloseProtocol {
        handle: u64,
        guid: Uuid,
        agent: u64,
        controller: u64,
    },
    OpenProtocolInformation {
        handle: u64,
        guid: Uuid,
    },
    HandleProtocol {
        handle: u64,
        guid: Uuid,
    },
    ConnectController {
        handle: u64,
        drivers: CallHandles<A>,
        recursive: bool,
    },
    DisconnectController {
        handle: u64,
        driver: u64,
    },
    LocateDevicePath {
        guid: Uuid,
        address: u64,
    },
    ExitBootServices {
        key: u64,
    },
}
