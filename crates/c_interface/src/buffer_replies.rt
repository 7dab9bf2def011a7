//! What `bootcore` prints of the services that fill a buffer of the caller's. The core keeps no reply of these: the
//! caller passes what it received.
ghost use Rattle.std.specs.Prelude.{◌≡◌, ◌==◌, find};
ghost use Rattle.c_interface.specs.BufferReplies.{PrintsMap, PrintsRead, ReturnsText, status_with};
ghost use Rattle.page_ranges.specs.Statuses.{status_number};

use crate::efi_core::{EfiCore, LastBlock};
use crate::reply_lines::print_last;
use boot_core::Reply;
use map_keys::MapReply;
use page_ranges::Status;
use std::alloc::Allocator;

/// What a GetMemoryMap returned: its status, what is in the caller's variables, and the bytes of the map; and the
/// number of its line.
#[repr(C)]
#[derive(Clone, Copy)]
pub struct MapFields<'a> {
    pub number: u64,
    pub status: u64,
    pub size: u64,
    pub key: u64,
    pub descriptor_size: u64,
    pub version: u32,
    pub bytes: &'a [u8],
}

/// What a read of the pool returned: its status and bytes; and the number of its line.
#[repr(C)]
#[derive(Clone, Copy)]
pub struct ReadFields<'a> {
    pub number: u64,
    pub status: u64,
    pub bytes: &'a [u8],
}

/// The statuses that services return.
const STATUSES: [Status; 9] = [
    Status::Success,
    Status::InvalidParameter,
    Status::Unsupported,
    Status::BufferTooSmall,
    Status::DeviceError,
    Status::OutOfResources,
    Status::NotFound,
    Status::AccessDenied,
    Status::AlreadyStarted,
];

impl<A: Allocator + Copy> EfiCore<A> {
    /// What `bootcore` prints of a GetMemoryMap that returned this. It is put in the front of a buffer, and the number
    /// of its bytes into a variable.
    ///
    /// INVALID_PARAMETER: no service returns the status. OUT_OF_RESOURCES: memory ran out. BUFFER_TOO_SMALL: the
    /// variable receives the number of bytes needed.
    pub fn map_reply_line(&self, fields: &MapFields<'_>, buffer: &mut [u8], size: &mut u64) -> u64
        ensures { PrintsMap self.now fields.now buffer.old size.old result buffer.new size.new }
    {
        let Some(status) = status_with(fields.status) else {
            return Status::InvalidParameter.number();
        };
        let Ok(bytes) = Vec::from_slice(self.alloc, fields.bytes) else {
            return Status::OutOfResources.number();
        };
        let reply = MapReply {
            status,
            size: fields.size,
            key: fields.key,
            descriptor_size: fields.descriptor_size,
            version: fields.version,
        };
        let reply = Reply::GetMemoryMap { reply, bytes };
        self.reply_text(fields.number, &reply, buffer, size)
    }

    /// The same of a read of the pool.
    pub fn read_reply_line(&self, fields: &ReadFields<'_>, buffer: &mut [u8], size: &mut u64) -> u64
        ensures { PrintsRead self.now fields.now buffer.old size.old result buffer.new size.new }
    {
        let Some(status) = status_with(fields.status) else {
            return Status::InvalidParameter.number();
        };
        let Ok(bytes) = Vec::from_slice(self.alloc, fields.bytes) else {
            return Status::OutOfResources.number();
        };
        let reply = Reply::PoolRead { status, bytes };
        self.reply_text(fields.number, &reply, buffer, size)
    }

    /// What is printed of a reply, in the front of a buffer.
    fn reply_text(&self, number: u64, reply: &Reply<A>, buffer: &mut [u8], size: &mut u64) -> u64
        ensures { ReturnsText number reply.now buffer.old size.old result buffer.new size.new }
    {
        print_last(self.alloc, number, reply, &LastBlock::Nothing).returned(buffer, size)
    }
}

/// The status with a number.
fn status_with(number: u64) -> Option<Status>
    ensures { result ≡ status_with number }
{
    status_among(&STATUSES, number)
}

/// The first of some statuses with a number.
fn status_among(among: &[Status], number: u64) -> Option<Status>
    ensures { result ≡ find (λ s. status_number s == number) among.now }
{
    among
        .iter()
        .copied()
        .find(|status| status.number() == number)
}
