//! Counting extents by their rooms.
ghost use Rattle.std.specs.Prelude.{◌≡◌, ◌≤◌, nat_le, length};
ghost use Rattle.pool_services.specs.Searches.{IsCountUpTo, begun};

use crate::rooms::Room;

/// The most rooms that are counted one by one. A search by halves waits at each step for the one before.
const FEW: usize = 32;

/// How many rooms begin at or below a page.
fn count_each(rooms: &[Room], page: u64) -> usize
    ensures count { result ≡ begun page rooms.now }
    ensures bound { result ≤ length rooms.now }
{
    let mut count = 0;
    for at in 0..rooms.len() {
        count += usize::from(rooms[at].first <= page);
    }
    count
}

/// The same for rooms in order, of which one half is not looked at.
fn count_half(rooms: &[Room], page: u64) -> usize
    ensures place { IsCountUpTo page rooms.now result }
    ensures bound { result ≤ length rooms.now }
{
    if rooms.len() < 2 {
        return count_each(rooms, page);
    }
    let half = rooms.len() / 2;
    // A branch here would be mispredicted half of the time.
    let passed = half * usize::from(rooms[half].first <= page);
    passed + count_each(&rooms[passed..passed + (rooms.len() - half)], page)
}

/// How many of the extents that have these rooms begin at or below a page.
pub(crate) fn count_up_to(rooms: &[Room], page: u64) -> usize
    ensures place { IsCountUpTo page rooms.now result }
    ensures bound { result ≤ length rooms.now }
{
    if rooms.len() <= FEW {
        return count_half(rooms, page);
    }
    rooms.partition_point(
        |room: &Room| -> bool
            ensures { result ≡ nat_le room.now.first page }
        { room.first <= page },
    )
}
