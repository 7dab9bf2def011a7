//! The laws of the machine, each the contract of a function that does nothing.
ghost use Rattle.std.specs.Prelude.{List};
ghost use Rattle.driver_connect.specs.Drivers.{Meaning};
ghost use Rattle.boot_core.specs.Laws.{AcceptanceLaw, AnyRunLaw, AnyStepLaw, CertificateLaw, CountLaw, FreeMemoryLaw, KeyCountLaw, KeyLaw, LastBytesLaw, MapGrowthLaw, MapStepLaw, PoolBytesLaw, ProperListsLaw, ReadBytesLaw, ReadStepLaw, RecordEntriesLaw, RoomLaw, SoundLaw};
ghost use Rattle.boot_core.specs.PathSteps.{LocateStepLaw};
ghost use Rattle.boot_core.specs.Removals.{UninstallRunLaw};
ghost use Rattle.boot_core.specs.Steps.{any_starts, best_starts};

use std::alloc::Allocator;

/// A step in which each start is the best is one in which each start is a permitted one.
pub fn any_step_law<A: Allocator>()
    ensures { AnyStepLaw A }
{}

/// A run in which each start is the best is one in which each start is a permitted one.
pub fn any_run_law<A: Allocator>()
    ensures { AnyRunLaw A }
{}

/// GetMemoryMap with a buffer of the caller's is a step of the machine, whose bytes are the front of
/// the buffer; the rest of the buffer stays as it was.
pub fn map_step_law<A: Allocator>()
    ensures { MapStepLaw A }
{}

/// A read of the pool's bytes into a buffer of the caller's is a step of the machine, whose bytes are
/// the whole buffer where it succeeds.
pub fn read_step_law<A: Allocator>()
    ensures { ReadStepLaw A }
{}

/// LocateDevicePath with a path in the caller's memory is a step of the machine as if the path's bytes lay
/// in a block of the pool.
pub fn locate_step_law<A: Allocator>()
    ensures { LocateStepLaw A }
{}

/// Where UninstallMultipleProtocolInterfaces succeeds, it leaves the machine as UninstallProtocolInterface of each
/// interface does, one after the other, but for the number of calls left.
pub fn uninstall_run_law<A: Allocator>()
    ensures { UninstallRunLaw A }
{}

/// After calls on a valid machine the memory is proper, the pages of the pool are those of its extents, and
/// memory is reserved for the end of each, however permitted starts are chosen.
pub fn sound_law<A: Allocator>()
    ensures best { (ds : List Meaning) → SoundLaw (best_starts ds) A }
    ensures any { (ds : List Meaning) → SoundLaw (any_starts ds) A }
{}

/// After any calls each open item names live handles, each interface is held by one item at most, for
/// a driver or exclusively, and no GUID occurs twice on a handle, however starts are chosen and
/// whatever the drivers answer.
pub fn proper_lists_law<A: Allocator>()
    ensures best { (ds : List Meaning) → ProperListsLaw (best_starts ds) A }
    ensures any { (ds : List Meaning) → ProperListsLaw (any_starts ds) A }
{}

/// After calls no open item's count is above their number. So within the 2^31 calls of a machine no count comes to
/// its end, and each rises by exactly 1 where its item is opened again.
pub fn count_law<A: Allocator>()
    ensures best { (ds : List Meaning) → CountLaw (best_starts ds) A }
    ensures any { (ds : List Meaning) → CountLaw (any_starts ds) A }
{}

/// Within the 2^31 calls of a machine, numbers of handles and stamps of interfaces do not run out: no call returns
/// OUT_OF_RESOURCES for want of one. The drivers' plans are those that a `StartPlan` has room for.
pub fn room_law<A: Allocator>()
    ensures best { (ds : List Meaning) → RoomLaw (best_starts ds) A }
    ensures any { (ds : List Meaning) → RoomLaw (any_starts ds) A }
{}

/// While memory is reserved for a call of FreePages, FreePages does not return OUT_OF_RESOURCES. FreePool never does.
pub fn free_memory_law<A: Allocator>()
    ensures best { (ds : List Meaning) → FreeMemoryLaw (best_starts ds) A }
    ensures any { (ds : List Meaning) → FreeMemoryLaw (any_starts ds) A }
{}

/// A new block's bytes are 0, a write puts its bytes at its addresses, a block that is given back has no bytes, and no
/// call changes any other byte of the pool.
pub fn pool_bytes_law<A: Allocator>()
    ensures { PoolBytesLaw A }
{}

/// A read returns the bytes at its addresses.
pub fn read_bytes_law<A: Allocator>()
    ensures { ReadBytesLaw A }
{}

/// A read returns the bytes that were last put at its addresses: by a write, or as the zeros of a new block.
pub fn last_bytes_law<A: Allocator>()
    ensures { LastBytesLaw A }
{}

/// Before an exit, a key that GetMemoryMap returned, through a call or with a buffer of the caller's, is accepted
/// exactly while no call since has changed the type of a page, however permitted starts are chosen.
pub fn key_law<A: Allocator>()
    ensures best { (ds : List Meaning) → KeyLaw (best_starts ds) A }
    ensures any { (ds : List Meaning) → KeyLaw (any_starts ds) A }
{}

/// The map key rises by one for each call that changes the type of a page, and for no other call.
pub fn key_count_law<A: Allocator>()
    ensures best { (ds : List Meaning) → KeyCountLaw (best_starts ds) A }
    ensures any { (ds : List Meaning) → KeyCountLaw (any_starts ds) A }
{}

/// After calls on a valid machine each entry of the memory map fits a record, so what GetMemoryMap
/// writes is read back.
pub fn record_entries_law<A: Allocator>()
    ensures { RecordEntriesLaw A }
{}

/// After calls on a valid machine the memory map has no more entries than the machine has runs, and
/// two more for each call, however permitted starts are chosen.
pub fn map_growth_law<A: Allocator>()
    ensures best { (ds : List Meaning) → MapGrowthLaw (best_starts ds) A }
    ensures any { (ds : List Meaning) → MapGrowthLaw (any_starts ds) A }
{}

/// On a valid machine the checker accepts the certificate of each placement of a run, with the
/// memory map before the call.
pub fn acceptance_law<A: Allocator>()
    ensures { AcceptanceLaw A }
{}

/// On a valid machine a reply carries a certificate exactly where certificates are returned and its call
/// placed pages by choice: where AllocatePages that names no address succeeds, and where a block of
/// the pool is in a new extent.
pub fn certificate_law<A: Allocator>()
    ensures { CertificateLaw A }
{}
