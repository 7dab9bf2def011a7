//! The caller's variable for the pointer to a core.
ghost use Rattle.std.specs.Prelude.{◌≡◌, Some};
ghost use Rattle.region_cores.specs.Places.{Held, held_code, held_at};

use crate::handle::Rafkudin;
use crate::lasting::Lasting;
use std::marker::Model;

/// A `struct rafkudin *` of the caller's: the pointer to a core that it owns, or to none.
#[repr(C)]
#[derive(Drop)]
pub struct Place {
    start: *mut u8,
    pub ghost held: { Held } by { held_code },
}

impl Model for Place {
    ghost also_owns = { λ p. held_at p.start p.held };
}

impl Place {
    /// The variable with the pointer to a core.
    pub(crate) fn new(handle: Lasting<Rafkudin>) -> Place
        ensures { result.held ≡ Some handle.value }
    {
        let Lasting { start } = handle;
        Place {
            start: start as *mut u8,
        }
    }
}
