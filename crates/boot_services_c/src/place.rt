//! The caller's variable for the pointer to a core.
ghost use Rattle.std.specs.Prelude.{◌≡◌, Some};
ghost use Rattle.boot_services_c.specs.Places.{Held, held_code, held_at};

use crate::blocks::Block;
use crate::handle::Rafkudin;
use std::alloc::Global;
use std::marker::Model;

/// A `struct rafkudin *` of the caller's: the pointer to a core that it owns, or to none.
#[repr(C)]
#[derive(Drop)]
pub struct Place {
    start: *mut u8,
    heap: Global,
    pub ghost held: { Held } by { held_code },
}

impl Model for Place {
    ghost also_owns = { λ p. held_at p.heap p.start p.held };
}

impl Place {
    /// The variable with the pointer to the core in a block.
    pub(crate) fn new(block: Block<Rafkudin, Global>) -> Place
        ensures { result.held ≡ Some block.value }
    {
        let Block { start, heap } = block;
        Place {
            start: start as *mut u8,
            heap,
        }
    }
}
