//! Looking up the pages of a memory one after the other.
ghost use Rattle.std.specs.Prelude.{◌≡◌, List};
ghost use Rattle.page_ranges.specs.Memory.{Page};
ghost use Rattle.page_ranges.specs.Cursors.{IsBlockAt};

use crate::ranges::Descriptor;

/// Looks up pages of a memory, and remembers where it last looked: so a page that lies at the last one
/// or a little above it is found at once. Any page may be asked for.
pub trait PageCursor {
    ghost memory: { Self → List Page };

    /// The block of pages of one type and one set of attributes that a page lies in, which may be a
    /// part of its map entry; `None` where the page is absent.
    fn block_at(&mut self, page: u64) -> Option<Descriptor>
        ensures stays { memory self.new ≡ memory self.old }
        ensures block { IsBlockAt (memory self.old) page result };
}
