//! A core as C holds it.
ghost use Rattle.std.specs.Prelude.{◌≡◌};
ghost use Rattle.std.specs.Borrow.{sem};
ghost use Rattle.boot_services_c.specs.Blocks.{block_of};
ghost use Rattle.boot_services_c.specs.Cores.{CoreRow, Core, core_code};

use crate::blocks::Block;
use c_interface::EfiCore;
use std::alloc::Global;
use std::marker::Model;

/// The boot services of one machine. Their core lies in a block of its own.
#[repr(C)]
pub struct Rafkudin {
    start: *mut u8,
    heap: Global,
    pub ghost core: { Core } by { core_code },
}

impl Model for Rafkudin {
    ghost also_owns = { λ r. block_of CoreRow r.heap r.start r.core };
}

impl Rafkudin {
    ghost use Rattle.boot_services_c.specs.Lending.{LendsCore};

    /// The handle of the core in a block.
    pub(crate) fn new(block: Block<EfiCore, Global>) -> Rafkudin
        ensures { result.core ≡ block.value }
    {
        let Block { start, heap } = block;
        Rafkudin {
            start: start as *mut u8,
            heap,
        }
    }

    /// The core, to be called.
    pub(crate) fn held(&mut self) -> &mut EfiCore
        ensures* lends { sem 𝓛 (LendsCore self.entry result) }
        ensures value { result.now ≡ self.old.core }
    {
        unsafe { &mut *(self.start as *mut EfiCore) }
    }

    /// The core's block.
    fn block(self) -> Block<EfiCore, Global>
        ensures { result.value ≡ self.core }
    {
        let Rafkudin { start, heap } = self;
        Block {
            start: start as *mut EfiCore,
            heap,
        }
    }
}

impl Drop for Rafkudin {
    fn drop(self) {
        drop(self.block().boxed());
    }
}
