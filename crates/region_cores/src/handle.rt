//! A core as C holds it.
ghost use Rattle.std.specs.Prelude.{◌≡◌};
ghost use Rattle.std.specs.Borrow.{sem};
ghost use Rattle.std.specs.Ptr.{points_to};
ghost use Rattle.region_cores.specs.Cores.{CoreRow, Core, core_code};

use crate::lasting::Lasting;
use c_interface::EfiCore;
use region_heap::RegionHeap;
use std::marker::Model;

/// The boot services of one machine. Their core lies in a region.
#[repr(C)]
#[derive(Drop)]
pub struct Rafkudin {
    start: *mut u8,
    pub ghost core: { Core } by { core_code },
}

impl Model for Rafkudin {
    ghost also_owns = { λ r. points_to CoreRow r.start r.core };
}

impl Rafkudin {
    ghost use Rattle.region_cores.specs.Lending.{LendsCore};

    /// The handle of a core.
    pub(crate) fn new(core: Lasting<EfiCore<&'static RegionHeap>>) -> Rafkudin
        ensures { result.core ≡ core.entry.value }
    {
        let Lasting { start } = core;
        Rafkudin {
            start: start as *mut u8,
        }
    }

    /// The core, to be called.
    pub fn held(&mut self) -> &mut EfiCore<&'static RegionHeap>
        ensures* lends { sem 𝓛 (LendsCore self.entry result) }
        ensures value { result.now ≡ self.old.core }
    {
        unsafe { &mut *(self.start as *mut EfiCore<&'static RegionHeap>) }
    }
}
