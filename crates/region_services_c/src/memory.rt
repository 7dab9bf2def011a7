//! The memory services, and the exit (UEFI Specification 2.10, sections 7.2 and 7.4).
//!
//! Of each service: ABORTED, after 2^62 - 1 calls, UNSUPPORTED, once the boot services have exited, and
//! OUT_OF_RESOURCES, where memory runs out, are not named again. A refusal leaves the caller's variables.
ghost use Rattle.std.specs.Prelude.{◌≡◌};
ghost use Rattle.boot_calls.specs.declared.calls.Call.TheVariants as call;
ghost use Rattle.c_interface.specs.Served.{AnswersStatus, AnswersRead};
ghost use Rattle.c_interface.specs.Services.{AllocatesPages, AllocatesPool, Maps};

use crate::handle::Rafkudin;

/// AllocatePages, 7.2.1. The variable `memory` receives the address of the pages; before, it has the last byte that may
/// belong to them, or their address.
///
/// INVALID_PARAMETER: another kind, a memory type that no request may name, or no pages. NOT_FOUND: the pages at the
/// address are not free. OUT_OF_RESOURCES: there is no place.
#[unsafe(no_mangle)]
pub extern "C" fn RafkudinAllocatePages(
    core: &mut Rafkudin,
    kind: u32,
    mtype: u32,
    pages: u64,
    memory: &mut u64,
) -> u64
    ensures { AllocatesPages core.old.core kind mtype pages memory.old result memory.new
        core.new.core }
{
    core.held().allocate_pages(kind, mtype, pages, memory)
}

/// FreePages, 7.2.2.
///
/// INVALID_PARAMETER: the address lies within a page, there are no pages, or they go past the last one.
/// NOT_FOUND: AllocatePages did not place all of them.
#[unsafe(no_mangle)]
pub extern "C" fn RafkudinFreePages(core: &mut Rafkudin, memory: u64, pages: u64) -> u64
    ensures { AnswersStatus core.old.core (call.FreePages memory pages) result core.new.core }
{
    core.held().free_pages(memory, pages)
}

/// GetMemoryMap, 7.2.3, with a buffer and its room. The variables receive the bytes that the map takes, its key, and
/// the size and the version of its descriptors.
///
/// BUFFER_TOO_SMALL: the variables receive theirs too, but for the key.
#[unsafe(no_mangle)]
pub extern "C" fn RafkudinGetMemoryMapInto(
    core: &mut Rafkudin,
    map: &mut [u8],
    size: &mut u64,
    key: &mut u64,
    stride: &mut u64,
    version: &mut u32,
) -> u64
    ensures { Maps core.old.core map.old (size.old, key.old, stride.old, version.old) result map.new
        (size.new, key.new, stride.new, version.new) core.new.core }
{
    core.held().get_memory_map(map, size, key, stride, version)
}

/// AllocatePool, 7.2.4. The variable `buffer` receives the block's address.
///
/// INVALID_PARAMETER: a memory type that no request may name. OUT_OF_RESOURCES: the size is above 4
/// GiB, or there is no place.
#[unsafe(no_mangle)]
pub extern "C" fn RafkudinAllocatePool(
    core: &mut Rafkudin,
    mtype: u32,
    size: u64,
    buffer: &mut u64,
) -> u64
    ensures { AllocatesPool core.old.core mtype size buffer.old result buffer.new core.new.core }
{
    core.held().allocate_pool(mtype, size, buffer)
}

/// FreePool, 7.2.5.
///
/// INVALID_PARAMETER: no block has this address.
#[unsafe(no_mangle)]
pub extern "C" fn RafkudinFreePool(core: &mut Rafkudin, address: u64) -> u64
    ensures { AnswersStatus core.old.core (call.FreePool address) result core.new.core }
{
    core.held().free_pool(address)
}

/// Copies bytes of the pool, which a program of a firmware reaches by a pointer, from an address on.
///
/// INVALID_PARAMETER: they do not all belong to one block.
#[unsafe(no_mangle)]
pub extern "C" fn RafkudinPoolRead(core: &mut Rafkudin, address: u64, buffer: &mut [u8]) -> u64
    ensures { AnswersRead core.old.core address buffer.old result buffer.new core.new.core }
{
    core.held().pool_read(address, buffer)
}

/// Copies bytes into the pool, from an address on.
///
/// INVALID_PARAMETER: they do not all belong to one block.
#[unsafe(no_mangle)]
pub extern "C" fn RafkudinPoolWrite(core: &mut Rafkudin, address: u64, bytes: &[u8]) -> u64
    ensures { AnswersStatus core.old.core (call.PoolWrite address bytes.now) result core.new.core }
{
    core.held().pool_write(address, bytes)
}

/// ExitBootServices, 7.4.6. The image's handle is ignored.
///
/// INVALID_PARAMETER: the key is not that of the memory map.
#[unsafe(no_mangle)]
pub extern "C" fn RafkudinExitBootServices(core: &mut Rafkudin, _image: u64, key: u64) -> u64
    ensures { AnswersStatus core.old.core (call.ExitBootServices key) result core.new.core }
{
    core.held().exit_boot_services(key)
}
