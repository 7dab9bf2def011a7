//! A cell that holds pages with their marks, or nothing while they are in use.
ghost use Rattle.std.specs.Prelude.{◌≡◌, IfSome};
ghost use base.Fml.{fex, fsep, ftrue};
ghost use Rattle.linked_list_allocator.specs.Ownership.{behind_a_ref};
ghost use Rattle.raw_pool.specs.PageCells.{cells_place};
ghost use Rattle.raw_pool.specs.PagePlaces.{Place};

use super::cells::Cells;
use std::marker::{Move, Owns};

pub(crate) struct Slot {
    cells: Option<Cells>,
}

impl Owns for Slot {
    ghost Value = { Place };

    ghost shr_at = { λ p. behind_a_ref Fields
        (λ i. fex (IfSome i.cells (λ c. cells_place c ≡ p)) (λ _. ftrue)) };
}

impl Move for Slot {
    ghost own_val = { λ p vs. fex Inside
        (λ i. fsep (Fields.own_val i vs)
        (fex (IfSome i.cells (λ c. cells_place c ≡ p)) (λ _. ftrue))) };
}

impl Slot {
    pub(crate) fn new(cells: Cells) -> Slot
        ensures { result ≡ cells_place cells }
    {
        Slot { cells: Some(cells) }
    }

    /// Puts cells in, or none, and returns what was there.
    pub(crate) fn replace(&self, cells: Option<Cells>) -> Option<Cells>
        requires { IfSome cells (λ c. cells_place c ≡ self.now) }
        ensures { IfSome result (λ c. cells_place c ≡ self.now) }
    {
        let place = &raw const self.cells as *mut Option<Cells>;
        unsafe {
            let old = place.read();
            place.write(cells);
            old
        }
    }
}
