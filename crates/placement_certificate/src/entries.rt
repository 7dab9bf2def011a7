//! Lists of entries: whether a list is a map.
ghost use Rattle.std.specs.Prelude.{◌≡◌, ◌↔◌, ◌+◌, ◌≤◌, IsTrue, slice_get};
ghost use Rattle.page_ranges.specs.MemoryTypes.{page_count};
ghost use Rattle.page_ranges.specs.MemoryMap.{should_be_one, IsEntry, IsMap};
ghost use Rattle.placement_certificate.specs.Search.{MayStandBelow};

use page_ranges::{Descriptor, MemoryType, PAGE_COUNT, has_runtime};

// Whether a map can have an entry.
fn is_entry(entry: &Descriptor) -> bool
    ensures { IsTrue result ↔ IsEntry entry.now }
{
    let is_free = entry.mtype == MemoryType::conventional();
    entry.pages > 0
        && entry.pages <= PAGE_COUNT
        && entry.first <= PAGE_COUNT - entry.pages
        && entry.mtype.is_of_machines()
        && !(is_free && has_runtime(entry.attributes))
}

// The second entry begins where the first ends, and has its type and attributes.
fn goes_on(entry: &Descriptor, above: &Descriptor) -> bool
    requires { entry.now.first + entry.now.pages ≤ page_count }
    ensures { result ≡ should_be_one entry.now above.now }
{
    entry.first + entry.pages == above.first
        && entry.mtype == above.mtype
        && entry.attributes == above.attributes
}

// Whether the next entry of a map, if there is one, may be this.
fn may_stand_below(entry: &Descriptor, above: Option<Descriptor>) -> bool
    requires { IsEntry entry.now }
    ensures { IsTrue result ↔ MayStandBelow entry.now above }
{
    match above {
        Some(next) => entry.first + entry.pages <= next.first && !goes_on(entry, &next),
        None => true,
    }
}

/// The item of a list at an index.
pub(crate) fn item_at<T: Copy>(items: &[T], index: usize) -> Option<T>
    ensures { result ≡ slice_get items.now index }
{
    items.get(index).copied()
}

/// Whether a list is a map.
pub(crate) fn is_map(map: &[Descriptor]) -> bool
    ensures { IsTrue result ↔ IsMap map.now }
{
    for index in (0..map.len()).rev() {
        let entry = map[index];
        if !is_entry(&entry) {
            return false;
        }
        if !may_stand_below(&entry, item_at(map, index + 1)) {
            return false;
        }
    }
    true
}
