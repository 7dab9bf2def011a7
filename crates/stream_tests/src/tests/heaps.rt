//! Cores on memory that can be refused, and what lines print on them.
use boot_core::{Core, Machine};
use boot_trace::{MachineFile, RunFault, read_machine, run};
use driver_connect::TableDriver;
use refusing_memory::Refusing;
use std::alloc::{AllocError, Global};
use std::io::{self, Write};
use std::process::Abort;

/// A machine of 1,952 free pages in three blocks, with a driver that opens a GUID and makes two children.
const DRIVER_MACHINE: &[u8] = b"{\"memory\":[
{\"type\":7,\"start\":\"0x0\",\"pages\":160,\"attributes\":\"0xf\"},
{\"type\":7,\"start\":\"0x100000\",\"pages\":768,\"attributes\":\"0xf\"},
{\"type\":6,\"start\":\"0x400000\",\"pages\":16,\"attributes\":\"0x800000000000000f\"},
{\"type\":7,\"start\":\"0x410000\",\"pages\":1008,\"attributes\":\"0xf\"}],
\"drivers\":[{\"version\":1,\"stops\":true,
\"needs\":[\"11111111-1111-1111-1111-111111111111\"],
\"opens\":[\"11111111-1111-1111-1111-111111111111\"],
\"children\":[[[\"22222222-2222-2222-2222-222222222222\",\"0x21\"]],
[[\"22222222-2222-2222-2222-222222222222\",\"0x22\"]]]}]}";

fn machine_file(rt: &(impl AllocGlobal + Abort)) -> MachineFile {
    match read_machine(rt.alloc(), DRIVER_MACHINE) {
        Ok(file) => file,
        Err(_) => panic!(rt; "no machine file"),
    }
}

/// The core of that machine on a heap that refuses an allocation of `Core::new` and all after it, or none for 0.
pub fn new_core<'a>(
    rt: &(impl AllocGlobal + Abort),
    heap: &'a Refusing<Global>,
    refused: u64,
) -> Result<Core<TableDriver, &'a Refusing<Global>>, AllocError> {
    let MachineFile { machine, drivers } = machine_file(rt);
    let runs = Vec::from_slice(heap, machine.runs()).expect(rt, "memory");
    let machine = Machine::new(runs, 1).expect(rt, "a machine");
    let mut moved = Vec::new(heap);
    for driver in drivers {
        moved.push(driver).expect(rt, "memory");
    }
    heap.refuse_from(refused);
    Core::new(heap, machine, moved)
}

/// The core of that machine.
pub fn core_on<'a>(
    rt: &(impl AllocGlobal + Abort),
    heap: &'a Refusing<Global>,
) -> Core<TableDriver, &'a Refusing<Global>> {
    new_core(rt, heap, 0).expect(rt, "memory")
}

/// A writer that keeps of the text that it takes a number alone: two texts have the same by a chance of 1 in 2^64.
#[derive(Clone, Copy)]
struct Digest {
    number: u64,
}

impl Write for Digest {
    fn write(&mut self, buf: &[u8]) -> io::Result<usize> {
        self.number = digest_of(self.number, buf);
        Ok(buf.len())
    }

    fn flush(&mut self) -> io::Result<()> {
        Ok(())
    }
}

/// The number of a text behind a text that has this number.
pub fn digest_of(before: u64, text: &[u8]) -> u64 {
    let mut number = before;
    for byte in text {
        number = (number ^ u64::from(*byte)).wrapping_mul(0x100_0000_01b3);
    }
    number
}

/// The number of no text.
pub const NO_TEXT: u64 = 0xcbf2_9ce4_8422_2325;

/// How a run of lines on a core ends, and what it prints, as a number. They are read and printed on a heap of their own.
pub fn run_on<'a>(
    lines_heap: &'a Refusing<Global>,
    core: &mut Core<TableDriver, &'a Refusing<Global>>,
    lines: &str,
) -> (Result<(), RunFault>, u64) {
    let mut out = Digest { number: NO_TEXT };
    let end = run(lines_heap, core, lines.as_bytes(), &mut out, false);
    (end, out.number)
}

/// What lines print on a core that serves them all, as a number.
pub fn printed<'a>(
    rt: &impl Abort,
    lines_heap: &'a Refusing<Global>,
    core: &mut Core<TableDriver, &'a Refusing<Global>>,
    lines: &str,
) -> u64 {
    let (end, number) = run_on(lines_heap, core, lines);
    assert!(rt; end.is_ok());
    number
}
