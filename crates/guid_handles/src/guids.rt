//! Comparing GUIDs.
ghost use Rattle.std.specs.Prelude.{◌≡◌, ◌<◌, ℕ, drop, length, slice_index};
ghost use Rattle.std.specs.Int.{w64, from_be_bytes, from_le_bytes};
ghost use Rattle.std.specs.Ordering.{nat_cmp, is_lt};
ghost use Rattle.std.specs.Cmp.Lexicographic.{slice_cmp};
ghost use Rattle.guid_handles.specs.HandleTables.{same_guid};

use uuid::Uuid;

/// Whether two GUIDs are the same.
pub fn is_same_guid(a: &Uuid, b: &Uuid) -> bool
    ensures { result ≡ same_guid a.now b.now }
{
    let (a, b) = (a.as_bytes(), b.as_bytes());
    first_word(a) == first_word(b) && last_word(a) == last_word(b)
}

/// The first eight bytes of a GUID as a number.
fn first_word(b: &[u8; 16]) -> u64
    ensures number { result ≡ from_le_bytes w64 b.now }
    ensures long { length b.now ≡ 16 }
    ensures bytes { (i : ℕ) → slice_index b.now i < 256 }
{
    u64::from_le_bytes([b[0], b[1], b[2], b[3], b[4], b[5], b[6], b[7]])
}

/// The last eight bytes of a GUID as a number.
fn last_word(b: &[u8; 16]) -> u64
    ensures { result ≡ from_le_bytes w64 (drop 8 b.now) }
{
    u64::from_le_bytes([b[8], b[9], b[10], b[11], b[12], b[13], b[14], b[15]])
}

/// Whether a GUID comes before another by its bytes.
pub(crate) fn is_lower_guid(a: &Uuid, b: &Uuid) -> bool
    ensures { result ≡ is_lt (slice_cmp nat_cmp a.now b.now) }
{
    let (a, b) = (a.as_bytes(), b.as_bytes());
    let (first, second) = (high_word(a), high_word(b));
    if first != second {
        return first < second;
    }
    low_word(a) < low_word(b)
}

/// The first eight bytes of a GUID as a number, the first of them as the highest.
fn high_word(b: &[u8; 16]) -> u64
    ensures number { result ≡ from_be_bytes w64 b.now }
    ensures long { length b.now ≡ 16 }
    ensures bytes { (i : ℕ) → slice_index b.now i < 256 }
{
    u64::from_be_bytes([b[0], b[1], b[2], b[3], b[4], b[5], b[6], b[7]])
}

/// The last eight bytes of a GUID as a number, the first of them as the highest.
fn low_word(b: &[u8; 16]) -> u64
    ensures { result ≡ from_be_bytes w64 (drop 8 b.now) }
{
    u64::from_be_bytes([b[8], b[9], b[10], b[11], b[12], b[13], b[14], b[15]])
}
