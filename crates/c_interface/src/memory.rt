//! The memory services, and the exit.
ghost use Rattle.std.specs.Prelude.{◌≡◌};
ghost use Rattle.boot_calls.specs.declared.calls.Call.TheVariants as call;
ghost use Rattle.c_interface.specs.Served.{AnswersStatus, AnswersRead};
ghost use Rattle.c_interface.specs.Services.{AllocatesPages, AllocatesPool, Maps};

use crate::efi_core::{ABORTED, EfiCore};
use crate::replies::{return_block, return_pages, returned_status};
use boot_core::{Call, Reply};
use map_keys::{DESCRIPTOR_VERSION, RECORD_SIZE};
use page_ranges::Status;
use std::alloc::Allocator;

impl<A: Allocator + Copy> EfiCore<A> {
    /// AllocatePages. The variable `memory` has the last byte that may belong to the pages, or their address, and
    /// receives the address of the pages.
    pub fn allocate_pages(&mut self, kind: u32, mtype: u32, pages: u64, memory: &mut u64) -> u64
        ensures { AllocatesPages self.old kind mtype pages memory.old result memory.new self.new }
    {
        if self.certifies || self.keeps_replies {
            let call = Call::AllocatePages {
                kind,
                mtype,
                pages,
                memory: *memory,
            };
            return self.answer_number(&call, memory);
        }
        if !self.begin() {
            return ABORTED;
        }
        let placed = self.core.allocate_pages(kind, mtype, pages, *memory);
        return_pages(placed, memory)
    }

    /// FreePages.
    pub fn free_pages(&mut self, memory: u64, pages: u64) -> u64
        ensures { AnswersStatus self.old (call.FreePages memory pages) result self.new }
    {
        if self.keeps_replies {
            return self.answer_status(&Call::FreePages { memory, pages });
        }
        if !self.begin() {
            return ABORTED;
        }
        returned_status(&self.core.free_pages(memory, pages)).number()
    }

    /// GetMemoryMap. The variables receive the bytes that the map takes, its key, the bytes of a record and their
    /// version; where the buffer is too small all but the key.
    pub fn get_memory_map(
        &mut self,
        map: &mut [u8],
        size: &mut u64,
        key: &mut u64,
        stride: &mut u64,
        version: &mut u32,
    ) -> u64
        ensures { Maps self.old map.old (size.old, key.old, stride.old, version.old) result map.new
            (size.new, key.new, stride.new, version.new) self.new }
    {
        if !self.begin() {
            return ABORTED;
        }
        let returned = self.core.get_memory_map(map);
        match returned.status {
            Status::Success => {
                *size = returned.size;
                *key = returned.key;
                *stride = RECORD_SIZE as u64;
                *version = DESCRIPTOR_VERSION;
            }
            Status::BufferTooSmall => {
                *size = returned.size;
                *stride = RECORD_SIZE as u64;
                *version = DESCRIPTOR_VERSION;
            }
            _ => {}
        }
        returned.status.number()
    }

    /// Reads bytes of one pool block into a buffer, from an address on.
    pub fn pool_read(&mut self, address: u64, buffer: &mut [u8]) -> u64
        ensures { AnswersRead self.old address buffer.old result buffer.new self.new }
    {
        if !self.begin() {
            return ABORTED;
        }
        self.core.pool_read(address, buffer).number()
    }

    /// Writes bytes into one pool block, from an address on.
    pub fn pool_write(&mut self, address: u64, bytes: &[u8]) -> u64
        ensures { AnswersStatus self.old (call.PoolWrite address bytes.now) result self.new }
    {
        if !self.begin() {
            return ABORTED;
        }
        let written = self.core.pool_write(address, bytes);
        self.return_status(Reply::PoolWrite(written))
    }

    /// AllocatePool. The variable `buffer` receives the block's address.
    pub fn allocate_pool(&mut self, mtype: u32, size: u64, buffer: &mut u64) -> u64
        ensures { AllocatesPool self.old mtype size buffer.old result buffer.new self.new }
    {
        if self.certifies || self.keeps_replies {
            return self.answer_number(&Call::AllocatePool { mtype, size }, buffer);
        }
        if !self.begin() {
            return ABORTED;
        }
        let placed = self.core.allocate_pool(mtype, size);
        return_block(placed, buffer)
    }

    /// FreePool.
    pub fn free_pool(&mut self, address: u64) -> u64
        ensures { AnswersStatus self.old (call.FreePool address) result self.new }
    {
        if self.keeps_replies {
            return self.answer_status(&Call::FreePool { address });
        }
        if !self.begin() {
            return ABORTED;
        }
        returned_status(&self.core.free_pool(address)).number()
    }

    /// ExitBootServices.
    pub fn exit_boot_services(&mut self, key: u64) -> u64
        ensures { AnswersStatus self.old (call.ExitBootServices key) result self.new }
    {
        self.answer_status(&Call::ExitBootServices { key })
    }
}
