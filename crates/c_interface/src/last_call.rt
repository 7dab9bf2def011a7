//! What is kept of the last call.
ghost use Rattle.std.specs.Prelude.{◌≡◌};
ghost use Rattle.c_interface.specs.LastCalls.{left_in, left_of};

use crate::replies::events_in;
use boot_core::Reply;
use std::alloc::Allocator;

/// What is left of the last call: its reply, or where replies are not kept its events alone.
#[derive(Drop)]
pub(crate) enum LastCall<A: Allocator> {
    Nothing,
    Events(Vec<u64, A>),
    Reply(Reply<A>),
}

impl<A: Allocator> LastCall<A> {
    /// What is left of a call with this reply, where replies are kept or not.
    #[inline(always)]
    pub(crate) fn of(keeps: bool, reply: Reply<A>) -> LastCall<A>
        ensures { left_in result ≡ left_of keeps reply }
    {
        if keeps {
            return LastCall::Reply(reply);
        }
        match reply {
            Reply::InstallProtocolInterface(Ok(installed)) => LastCall::Events(installed.events),
            Reply::InstallMultipleProtocolInterfaces(Ok(installed)) => {
                LastCall::Events(installed.events)
            }
            Reply::ReinstallProtocolInterface(Ok(events)) => LastCall::Events(events),
            Reply::ConnectController(Ok(events)) => LastCall::Events(events),
            _ => LastCall::Nothing,
        }
    }

    /// The events that the call signals.
    pub(crate) fn events(&self) -> &[u64]
        ensures { result.now ≡ (left_in self.now).events }
    {
        match self {
            LastCall::Nothing => &[],
            LastCall::Events(events) => events.as_slice(),
            LastCall::Reply(reply) => events_in(reply),
        }
    }
}
