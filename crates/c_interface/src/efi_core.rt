//! A core that a caller in C has.
ghost use Rattle.std.specs.Prelude.{◌≡◌, ◌<◌, false, length, IfNone, IfSome, OnErr, OnOk, true};
ghost use Rattle.c_interface.specs.EfiCores.{KeepsBlock, unused_core};
ghost use Rattle.page_ranges.specs.Statuses.{status_number};
ghost use Rattle.boot_replies.specs.Certified.{certified};
ghost use Rattle.c_interface.specs.Buffers.{front_filled};
ghost use Rattle.c_interface.specs.EfiCores.{certifying_core, forgotten, preparing_core, recording_core, with_reply};
ghost use Rattle.c_interface.specs.LastCalls.{nothing_left};
ghost use Rattle.c_interface.specs.Replies.{number_in, returned_or, status_in};
ghost use Rattle.c_interface.specs.Served.{AnswersStatus, AnswersNumber, AnswersNumbers, IsSpent, Makes, ReturnsBlock};

use crate::buffers::copy_to_front;
use crate::last_call::LastCall;
use crate::replies::{number_in, numbers_in, status_in};
use boot_core::{Call, Reply, Services, certified, map_before};
use certificate_blocks::print_block;
use driver_connect::TableDriver;
use page_ranges::{Descriptor, Status};
use std::alloc::{AllocError, Allocator, Global};
use std::marker::Model;

/// The status of a call after the last that a core serves (EFI_ABORTED).
pub const ABORTED: u64 = 0x8000_0000_0000_0015;

/// The block of the certificate of the last call.
#[derive(Drop)]
pub enum LastBlock<A: Allocator = Global> {
    /// The call placed nothing, or certificates are not kept.
    Nothing,
    Text(Vec<u8, A>),
    OutOfMemory,
}

impl<A: Allocator> LastBlock<A> {
    /// The block's text, put in the front of a buffer, and the number of its bytes into a variable.
    pub(crate) fn returned(&self, buffer: &mut [u8], size: &mut u64) -> u64
        ensures { ReturnsBlock self.now buffer.old size.old result buffer.new size.new }
    {
        let text = match self {
            LastBlock::Text(text) => text,
            LastBlock::Nothing => return Status::NotFound.number(),
            LastBlock::OutOfMemory => return Status::OutOfResources.number(),
        };
        *size = text.len() as u64;
        if buffer.len() < text.len() {
            return Status::BufferTooSmall.number();
        }
        copy_to_front(buffer, text.as_slice());
        Status::Success.number()
    }
}

/// A core, and what its last call left to be asked for.
#[derive(Drop)]
pub struct EfiCore<A: Allocator = Global> {
    pub(crate) alloc: A,
    pub(crate) core: Services<TableDriver, A>,
    pub(crate) certifies: bool,
    pub(crate) keeps_replies: bool,
    pub(crate) last: LastCall<A>,
    pub(crate) block: LastBlock<A>,
}

impl<A: Allocator> Model for EfiCore<A> {
    ghost use Rattle.c_interface.specs.EfiCores.{EfiCoreValue};
    ghost use Rattle.c_interface.specs.LastCalls.{left_in};

    ghost Value = { EfiCoreValue A };

    ghost view = { λ c. record {
      core = c.core;
      certifies = c.certifies;
      keeps_replies = c.keeps_replies;
      last = left_in c.last;
      block = c.block;
    } };
}

impl<A: Allocator + Copy> EfiCore<A> {
    /// A core before any call; it keeps neither replies nor certificates.
    pub fn new(alloc: A, core: Services<TableDriver, A>) -> EfiCore<A>
        ensures { result ≡ unused_core core }
    {
        EfiCore {
            alloc,
            core,
            certifies: false,
            keeps_replies: false,
            last: LastCall::Nothing,
            block: LastBlock::Nothing,
        }
    }

    /// Makes the certificates of placements from now on and keeps their blocks, for which the memory map
    /// is copied before each, or makes none.
    pub fn certify(&mut self, certifies: bool)
        ensures { self.new ≡ certifying_core certifies self.old }
    {
        self.core.certify(certifies);
        self.certifies = certifies;
    }

    /// Keeps the reply of each call from now on, for `reply_line`, or keeps none.
    pub fn record(&mut self, keeps: bool)
        ensures { self.new ≡ recording_core keeps self.old }
    {
        self.keeps_replies = keeps;
    }

    /// Reserves memory for a number of placements of pages and for the frees of what they place. On an `Err` none is
    /// reserved.
    pub fn prepare(&mut self, placements: usize) -> Result<(), AllocError>
        ensures ok { OnOk result (self.new ≡ preparing_core placements self.old) }
        ensures err { OnErr result (self.new ≡ self.old) }
    {
        self.core.prepare(placements)
    }

    /// Leaves nothing of the call before.
    pub(crate) fn forget(&mut self)
        ensures { self.new ≡ forgotten self.old }
    {
        // What is left is looked at before it is dropped, as mostly nothing is.
        if !matches!(self.last, LastCall::Nothing) {
            self.last = LastCall::Nothing;
        }
        if !matches!(self.block, LastBlock::Nothing) {
            self.block = LastBlock::Nothing;
        }
    }

    /// Leaves nothing of the call before, and returns whether a further one may be made.
    #[inline(always)]
    pub(crate) fn begin(&mut self) -> bool
        ensures core { self.new ≡ forgotten self.old }
        ensures left { result ≡ true → 0 < self.old.core.state.calls_left }
        ensures spent { result ≡ false → self.old.core.state.calls_left ≡ 0 }
    {
        self.forget();
        self.core.calls_left() > 0
    }

    /// Leaves what is to be asked for of a reply, and returns its status.
    #[inline(always)]
    pub(crate) fn return_status(&mut self, reply: Reply<A>) -> u64
        ensures status { result ≡ status_number (status_in reply) }
        ensures core { self.new ≡ with_reply self.old reply }
    {
        let status = status_in(&reply).number();
        self.last = LastCall::of(self.keeps_replies, reply);
        status
    }

    /// The same; where the reply has a number it is put in the caller's variable.
    #[inline(always)]
    pub(crate) fn return_number(&mut self, reply: Reply<A>, place: &mut u64) -> u64
        ensures status { result ≡ status_number (status_in reply) }
        ensures number { place.new ≡ returned_or place.old (number_in reply) }
        ensures core { self.new ≡ with_reply self.old reply }
    {
        if let Some(number) = number_in(&reply) {
            *place = number;
        }
        self.return_status(reply)
    }

    /// Makes a call, and returns its reply; `None` where no further call may be made. Only the block of its certificate
    /// is left.
    pub(crate) fn make_call(&mut self, call: &Call<A>) -> Option<Reply<A>>
        ensures made { IfSome result (λ reply. Makes self.old call.now reply self.new) }
        ensures spent { IfNone result (IsSpent self.old self.new) }
    {
        if !self.begin() {
            return None;
        }
        if self.certifies {
            return Some(self.make_certified(call));
        }
        Some(self.core.call(call))
    }

    // The same where blocks are kept, of which there is none of the call before.
    fn make_certified(&mut self, call: &Call<A>) -> Reply<A>
        requires certifies { self.old.certifies ≡ true }
        requires left { 0 < self.old.core.state.calls_left }
        requires nothing { self.old.last ≡ nothing_left }
        ensures { Makes self.old call.now result self.new }
    {
        let granule = self.core.granule();
        let before = map_before(self.alloc, &self.core, call, true);
        let reply = self.core.call(call);
        self.block = block_of(self.alloc, granule, &before, call, &reply);
        reply
    }

    /// Makes a call, and returns its status as a number of EFI_STATUS.
    pub(crate) fn answer_status(&mut self, call: &Call<A>) -> u64
        ensures { AnswersStatus self.old call.now result self.new }
    {
        match self.make_call(call) {
            Some(reply) => self.return_status(reply),
            None => ABORTED,
        }
    }

    /// The same of a call that returns a number: where it succeeds with one it is put in the caller's variable.
    pub(crate) fn answer_number(&mut self, call: &Call<A>, place: &mut u64) -> u64
        ensures { AnswersNumber self.old call.now place.old result place.new self.new }
    {
        match self.make_call(call) {
            Some(reply) => self.return_number(reply, place),
            None => ABORTED,
        }
    }

    /// The same of a call that returns two numbers.
    pub(crate) fn answer_numbers(
        &mut self,
        call: &Call<A>,
        first: &mut u64,
        second: &mut u64,
    ) -> u64
        ensures { AnswersNumbers self.old call.now (first.old, second.old) result
            (first.new, second.new) self.new }
    {
        let Some(reply) = self.make_call(call) else {
            return ABORTED;
        };
        if let Some(numbers) = numbers_in(&reply) {
            *first = numbers.0;
            *second = numbers.1;
        }
        self.return_status(reply)
    }

    /// How many events the last call signals; the first of them are copied into a buffer, as many as it has room for.
    pub fn events(&self, buffer: &mut [u64]) -> usize
        ensures count { result ≡ length (self.now.last.events) }
        ensures events { buffer.new ≡ front_filled (self.now.last.events) buffer.old }
    {
        let events = self.last.events();
        copy_to_front(buffer, events);
        events.len()
    }

    /// The block of the certificate of the last call, in the front of a buffer; their number is put into
    /// a variable.
    ///
    /// NOT_FOUND: the last call left no block. OUT_OF_RESOURCES: memory ran out for it. BUFFER_TOO_SMALL: the variable
    /// receives the number of bytes needed.
    pub fn block(&self, buffer: &mut [u8], size: &mut u64) -> u64
        ensures { ReturnsBlock self.now.block buffer.old size.old result buffer.new size.new }
    {
        self.block.returned(buffer, size)
    }

    /// How many calls may still be made: 2^62 - 1 at first, of a core that is made for a caller in C.
    pub fn calls_left(&self) -> u64
        ensures { result ≡ self.now.core.state.calls_left }
    {
        self.core.calls_left()
    }
}

/// The block of the certificate that a reply carries, with the memory map before the call.
fn block_of<A: Allocator + Copy>(
    alloc: A,
    granule: u64,
    before: &Result<Option<Vec<Descriptor, A>>, AllocError>,
    call: &Call<A>,
    reply: &Reply<A>,
) -> LastBlock<A>
    ensures { KeepsBlock before.now (certified granule call.now reply.now) result }
{
    let Ok(before) = before else {
        return LastBlock::OutOfMemory;
    };
    match (before, certified(granule, call, reply)) {
        (Some(entries), Some((request, certificate))) => {
            let mut text = String::new(alloc);
            match print_block(&mut text, entries.as_slice(), &request, certificate) {
                Ok(()) => LastBlock::Text(text.into_bytes()),
                Err(_) => LastBlock::OutOfMemory,
            }
        }
        _ => LastBlock::Nothing,
    }
}
