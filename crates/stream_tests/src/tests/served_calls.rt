//! Each service that takes memory succeeds where there is enough, in a worked run on a machine with a driver.
use super::heaps::core_on;
use boot_trace::run;
use refusing_memory::Refusing;
use std::process::Abort;

/// Asserts that lines on a core of the machine print a text.
fn assert_prints(rt: &(impl AllocGlobal + Abort), lines: &str, printed: &[u8]) {
    let heap = Refusing::new(rt.alloc());
    let mut core = core_on(rt, &heap);
    let mut out = Vec::new(rt.alloc());
    assert!(rt; run(&heap, &mut core, lines.as_bytes(), &mut out, false).is_ok());
    assert!(rt; out.as_slice() == printed);
}

/// Pages that are placed, and freed with one call: `pages` and `free-pages`.
#[test]
fn free_joins_again(rt: HostRuntime) {
    assert_prints(&rt, FREE_JOINS_AGAIN, FREE_JOINS_AGAIN_PRINTED);
}

const FREE_JOINS_AGAIN: &str = "pages 0 4 10 0
list
pages 0 4 5 0
list
free-pages 0x7f1000 15
list
";

const FREE_JOINS_AGAIN_PRINTED: &[u8] = b"1 pages SUCCESS address=0x7f6000
2 list descriptors=5
  7 0x0 160 0xf
  7 0x100000 768 0xf
  6 0x400000 16 0x800000000000000f
  7 0x410000 998 0xf
  4 0x7f6000 10 0xf
3 pages SUCCESS address=0x7f1000
4 list descriptors=5
  7 0x0 160 0xf
  7 0x100000 768 0xf
  6 0x400000 16 0x800000000000000f
  7 0x410000 993 0xf
  4 0x7f1000 15 0xf
5 free-pages SUCCESS
6 list descriptors=4
  7 0x0 160 0xf
  7 0x100000 768 0xf
  6 0x400000 16 0x800000000000000f
  7 0x410000 1008 0xf
";

/// `pool` and `free-pool`.
#[test]
fn pool_first_fit(rt: HostRuntime) {
    assert_prints(&rt, POOL_FIRST_FIT, POOL_FIRST_FIT_PRINTED);
}

const POOL_FIRST_FIT: &str = "pool 4 24
pool 4 25
free-pool 0x7ff008
pool 4 100
pool 4 1
pool 4 4088
free-pool 0x7ff00c
write 0x7ff008 5a
read 0x7ff008 1
read 0x7ff008 2
read 0x7ff068 3
list
free-pool 0x7fe008
list
free-pages 0x7ff000 1
";

const POOL_FIRST_FIT_PRINTED: &[u8] = b"1 pool SUCCESS address=0x7ff008
2 pool SUCCESS address=0x7ff028
3 free-pool SUCCESS
4 pool SUCCESS address=0x7ff068
5 pool SUCCESS address=0x7ff008
6 pool SUCCESS address=0x7fe008
7 free-pool INVALID_PARAMETER
8 write SUCCESS
9 read SUCCESS bytes=5a
10 read INVALID_PARAMETER
11 read SUCCESS bytes=000000
12 list descriptors=5
  7 0x0 160 0xf
  7 0x100000 768 0xf
  6 0x400000 16 0x800000000000000f
  7 0x410000 1006 0xf
  4 0x7fe000 2 0xf
13 free-pool SUCCESS
14 list descriptors=5
  7 0x0 160 0xf
  7 0x100000 768 0xf
  6 0x400000 16 0x800000000000000f
  7 0x410000 1007 0xf
  4 0x7ff000 1 0xf
15 free-pages NOT_FOUND
";

/// `install`, `open` and `information`.
#[test]
fn open_and_close(rt: HostRuntime) {
    assert_prints(&rt, OPEN_AND_CLOSE, OPEN_AND_CLOSE_PRINTED);
}

const OPEN_AND_CLOSE: &str = "install 0 11111111-1111-1111-1111-111111111111 0 0x10
install 0 22222222-2222-2222-2222-222222222222 0 0
install 0 22222222-2222-2222-2222-222222222222 0 0
open 1 11111111-1111-1111-1111-111111111111 2 1 0x10
open 1 11111111-1111-1111-1111-111111111111 2 1 0x10
open 1 11111111-1111-1111-1111-111111111111 3 1 0x10
open 1 11111111-1111-1111-1111-111111111111 3 0 2
open 1 11111111-1111-1111-1111-111111111111 3 0 2
information 1 11111111-1111-1111-1111-111111111111
close 1 11111111-1111-1111-1111-111111111111 3 0
close 1 11111111-1111-1111-1111-111111111111 3 0
open 1 22222222-2222-2222-2222-222222222222 2 1 0x10
open 1 11111111-1111-1111-1111-111111111111 2 1 3
handle-protocol 1 11111111-1111-1111-1111-111111111111
";

const OPEN_AND_CLOSE_PRINTED: &[u8] = b"1 install SUCCESS handle=1 events=-
2 install SUCCESS handle=2 events=-
3 install SUCCESS handle=3 events=-
4 open SUCCESS interface=0x10
5 open ALREADY_STARTED
6 open ACCESS_DENIED
7 open SUCCESS interface=0x10
8 open SUCCESS interface=0x10
9 information SUCCESS count=2 address=0x7ff008
10 close SUCCESS
11 close NOT_FOUND
12 open UNSUPPORTED
13 open INVALID_PARAMETER
14 handle-protocol SUCCESS interface=0x10
";

/// `connect` and `uninstall`.
#[test]
fn uninstall_stops_the_driver(rt: HostRuntime) {
    assert_prints(
        &rt,
        UNINSTALL_STOPS_THE_DRIVER,
        UNINSTALL_STOPS_THE_DRIVER_PRINTED,
    );
}

const UNINSTALL_STOPS_THE_DRIVER: &str = "install 0 11111111-1111-1111-1111-111111111111 0 0x10
install 0 18a031ab-b443-4d1a-a5c0-0c09261e9f71 0 0
install 0 33333333-3333-3333-3333-333333333333 0 0
connect 1 0
open 4 22222222-2222-2222-2222-222222222222 3 0 0x20
uninstall 1 11111111-1111-1111-1111-111111111111 0x10
locate 0 11111111-1111-1111-1111-111111111111 0 64
close 4 22222222-2222-2222-2222-222222222222 3 0
uninstall 1 11111111-1111-1111-1111-111111111111 0x10
locate 0 11111111-1111-1111-1111-111111111111 0 64
";

const UNINSTALL_STOPS_THE_DRIVER_PRINTED: &[u8] = b"1 install SUCCESS handle=1 events=-
2 install SUCCESS handle=2 events=-
3 install SUCCESS handle=3 events=-
4 connect SUCCESS events=-
5 open SUCCESS interface=0x21
6 uninstall ACCESS_DENIED
7 locate SUCCESS size=40 handles=1,2,3,4,5
8 close SUCCESS
9 uninstall SUCCESS
10 locate SUCCESS size=16 handles=2,3
";

/// `notify`, `reinstall`, `locate` and `locate-buffer`.
#[test]
fn reinstall_and_notifications(rt: HostRuntime) {
    assert_prints(
        &rt,
        REINSTALL_AND_NOTIFICATIONS,
        REINSTALL_AND_NOTIFICATIONS_PRINTED,
    );
}

const REINSTALL_AND_NOTIFICATIONS: &str = "install 0 11111111-1111-1111-1111-111111111111 0 0x10
install 0 18a031ab-b443-4d1a-a5c0-0c09261e9f71 0 0
connect 1 0
notify 11111111-1111-1111-1111-111111111111 7
notify 22222222-2222-2222-2222-222222222222 9
reinstall 1 11111111-1111-1111-1111-111111111111 0x10 0x11
locate 2 22222222-2222-2222-2222-222222222222 0 64
locate-buffer 1 11111111-1111-1111-1111-111111111111 1
locate 1 22222222-2222-2222-2222-222222222222 2 7
locate 1 22222222-2222-2222-2222-222222222222 2 8
locate 1 22222222-2222-2222-2222-222222222222 2 8
locate 1 22222222-2222-2222-2222-222222222222 2 8
";

const REINSTALL_AND_NOTIFICATIONS_PRINTED: &[u8] = b"1 install SUCCESS handle=1 events=-
2 install SUCCESS handle=2 events=-
3 connect SUCCESS events=-
4 notify SUCCESS registration=1
5 notify SUCCESS registration=2
6 reinstall SUCCESS events=7,9,9
7 locate SUCCESS size=16 handles=5,6
8 locate-buffer SUCCESS count=1 address=0x7ff008
9 locate BUFFER_TOO_SMALL size=8
10 locate SUCCESS size=8 handles=5
11 locate SUCCESS size=8 handles=6
12 locate NOT_FOUND
";

/// `disconnect`.
#[test]
fn exclusive_open_stops_the_driver(rt: HostRuntime) {
    assert_prints(
        &rt,
        EXCLUSIVE_OPEN_STOPS_THE_DRIVER,
        EXCLUSIVE_OPEN_STOPS_THE_DRIVER_PRINTED,
    );
}

const EXCLUSIVE_OPEN_STOPS_THE_DRIVER: &str = "install 0 11111111-1111-1111-1111-111111111111 0 0x10
install 0 18a031ab-b443-4d1a-a5c0-0c09261e9f71 0 0
install 0 33333333-3333-3333-3333-333333333333 0 0
connect 1 0
open 1 11111111-1111-1111-1111-111111111111 3 0 0x20
locate 2 22222222-2222-2222-2222-222222222222 0 64
connect 1 0
disconnect 1 0
close 1 11111111-1111-1111-1111-111111111111 3 0
connect 1 0
locate 2 22222222-2222-2222-2222-222222222222 0 64
";

const EXCLUSIVE_OPEN_STOPS_THE_DRIVER_PRINTED: &[u8] = b"1 install SUCCESS handle=1 events=-
2 install SUCCESS handle=2 events=-
3 install SUCCESS handle=3 events=-
4 connect SUCCESS events=-
5 open SUCCESS interface=0x10
6 locate NOT_FOUND
7 connect NOT_FOUND
8 disconnect SUCCESS
9 close SUCCESS
10 connect SUCCESS events=-
11 locate SUCCESS size=16 handles=6,7
";

/// `install-many` and `protocols`.
#[test]
fn install_many(rt: HostRuntime) {
    assert_prints(&rt, INSTALL_MANY, INSTALL_MANY_PRINTED);
}

const INSTALL_MANY: &str =
    "install-many 0 11111111-1111-1111-1111-111111111111 1 22222222-2222-2222-2222-222222222222 2
protocols 1
install-many 1 33333333-3333-3333-3333-333333333333 3 11111111-1111-1111-1111-111111111111 4
protocols 1
locate-protocol 22222222-2222-2222-2222-222222222222 0
pool 4 4
pool 4 4
write 0x7ff008 7fff0400
write 0x7ff028 7fff0400
install-many 0 09576e91-6d3f-11d2-8e39-00a0c969723b 0x7ff008
install-many 0 09576e91-6d3f-11d2-8e39-00a0c969723b 0x7ff028
";

const INSTALL_MANY_PRINTED: &[u8] = b"1 install-many SUCCESS handle=1 events=-
2 protocols SUCCESS guids=11111111-1111-1111-1111-111111111111,22222222-2222-2222-2222-222222222222
3 install-many INVALID_PARAMETER
4 protocols SUCCESS guids=11111111-1111-1111-1111-111111111111,22222222-2222-2222-2222-222222222222
5 locate-protocol SUCCESS interface=0x2
6 pool SUCCESS address=0x7ff008
7 pool SUCCESS address=0x7ff028
8 write SUCCESS
9 write SUCCESS
10 install-many SUCCESS handle=2 events=-
11 install-many ALREADY_STARTED
";
