//! UninstallMultipleProtocolInterfaces.
ghost use Rattle.c_interface.specs.Removals.{AnswersUninstalls, UninstallsAll};

use crate::efi_core::{ABORTED, EfiCore};
use crate::lists::first_pairs;
use c_machines::Interface;
use page_ranges::Status;
use std::alloc::Allocator;
use uuid::Uuid;

impl<A: Allocator + Copy> EfiCore<A> {
    /// UninstallMultipleProtocolInterfaces. Of a list that is too long only the first interfaces are looked at.
    pub fn uninstall_multiple(&mut self, handle: u64, interfaces: &[Interface]) -> u64
        ensures { UninstallsAll self.old handle interfaces.now result self.new }
    {
        let pairs = first_pairs(interfaces);
        self.uninstall_pairs(handle, pairs.as_slice())
    }

    // UninstallMultipleProtocolInterfaces of pairs of GUID and value.
    fn uninstall_pairs(&mut self, handle: u64, pairs: &[(Uuid, u64)]) -> u64
        ensures { AnswersUninstalls self.old handle pairs.now result self.new }
    {
        if !self.begin() {
            return ABORTED;
        }
        match self.core.uninstall_multiple(handle, pairs) {
            Ok(()) => Status::Success.number(),
            Err(status) => status.number(),
        }
    }
}
