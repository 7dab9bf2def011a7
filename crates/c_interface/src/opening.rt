//! OpenProtocol and HandleProtocol as shipped programs rely on them.
ghost use Rattle.std.specs.Prelude.{◌≡◌};
ghost use Rattle.c_machines.specs.Guids.{guid_in};
ghost use Rattle.c_interface.specs.Opening.{GivesByNumber, HandlesGiving, OpensGiving};
ghost use Rattle.c_interface.specs.Replies.{returned_or};

use crate::efi_core::EfiCore;
use c_machines::Guid;
use open_agents::TEST_PROTOCOL;
use std::alloc::Allocator;

/// The statuses whose values are not those that the call returned, as numbers of EFI_STATUS.
const UNSUPPORTED: u64 = 0x8000_0000_0000_0003;

const ALREADY_STARTED: u64 = 0x8000_0000_0000_0014;

impl<A: Allocator + Copy> EfiCore<A> {
    /// OpenProtocol. The variable `value` receives the interface's value, also with ALREADY_STARTED, and 0 with
    /// UNSUPPORTED; TEST_PROTOCOL leaves it.
    #[tactic(auto, using(crate::proofs::Opened::tested, crate::proofs::Opened::opened_gives))]
    pub fn open_giving(
        &mut self,
        handle: u64,
        guid: &Guid,
        value: &mut u64,
        agent: u64,
        controller: u64,
        attributes: u32,
    ) -> u64
        ensures { OpensGiving self.old handle guid.now agent controller attributes value.old
            result value.new self.new }
    {
        let mut opened = *value;
        let status = self.open_protocol(handle, guid, &mut opened, agent, controller, attributes);
        if attributes == TEST_PROTOCOL {
            return status;
        }
        *value = self.given(status, handle, guid, opened);
        status
    }

    /// HandleProtocol. The variable `value` receives the interface's value, and 0 with UNSUPPORTED.
    #[tactic(auto, using(crate::proofs::Opened::opened_gives))]
    pub fn handle_giving(&mut self, handle: u64, guid: &Guid, value: &mut u64) -> u64
        ensures { HandlesGiving self.old handle guid.now value.old result value.new
            self.new }
    {
        let mut opened = *value;
        let status = self.handle_protocol(handle, guid, &mut opened);
        *value = self.given(status, handle, guid, opened);
        status
    }

    /// The value for the caller's variable by the number of the status of a call that opened an interface. `returned`
    /// is what the call returned, or what it left there.
    fn given(&self, status: u64, handle: u64, guid: &Guid, returned: u64) -> u64
        ensures { GivesByNumber self.now handle (guid_in guid.now) returned status result }
    {
        match status {
            ALREADY_STARTED => {
                let value = self.core.interface_value(handle, guid.uuid());
                value_or(value, returned)
            }
            UNSUPPORTED => 0,
            _ => returned,
        }
    }
}

/// A value, or another one where there is none.
fn value_or(value: Option<u64>, other: u64) -> u64
    ensures { result ≡ returned_or other value }
{
    match value {
        Some(value) => value,
        None => other,
    }
}
