//! The last numbers and stamps of handles.
use protocol_services::has_room_after;

/// The last number and the last stamp that were given, and whether a call may give more.
const LAST_GIVEN: [(u64, u64, bool); 8] = [
    (0, 0, true),
    (70_000, 3_000_000_000, true),
    (0x1fff_ffff_ffff_ffff, 0x1fff_ffff_ffff_fffe, true),
    (0x1fff_ffff_ffff_ffff, 0x1fff_ffff_ffff_ffff, false),
    (0x2000_0000_0000_0000, 0x1fff_ffff_ffff_fffe, false),
    (0x2000_0000_0000_0000, 0, false),
    (0, 0x1fff_ffff_ffff_ffff, false),
    (u64::MAX, u64::MAX, false),
];

/// Numbers end at 2^61, and stamps one before.
#[test]
fn last_numbers(rt: HostRuntime) {
    for (number, stamp, has_room) in LAST_GIVEN {
        assert!(rt; has_room_after(number, stamp) == has_room);
    }
}
