//! Lists as bytes in a buffer, their numbers little endian.
ghost use Rattle.std.specs.Prelude.{◌≡◌, length, IfOk};
ghost use Rattle.protocol_services.specs.ListBytes.{entry_of, handle_bytes, item_bytes};

use boot_calls::{ENTRY_SIZE, HANDLE_SIZE};
use byteorder::{ByteOrder, LittleEndian};
use open_agents::OpenItem;
use std::alloc::{AllocError, Allocator};

/// The bytes of handles, 8 each.
pub fn handle_bytes<A: Allocator>(alloc: A, handles: &[u64]) -> Result<Vec<u8, A>, AllocError>
    ensures { IfOk result (λ bytes. bytes.items ≡ handle_bytes handles.now) }
{
    let mut bytes = Vec::new(alloc);
    for handle in handles {
        let mut field = [0u8; HANDLE_SIZE];
        LittleEndian::write_u64(&mut field, *handle);
        bytes.extend_from_slice(&field)?;
    }
    Ok(bytes)
}

/// The entries of open items, 24 bytes each: agent, controller, attributes, open count.
pub fn item_bytes<A: Allocator>(alloc: A, items: &[OpenItem]) -> Result<Vec<u8, A>, AllocError>
    ensures { IfOk result (λ bytes. bytes.items ≡ item_bytes items.now) }
{
    let mut bytes = Vec::new(alloc);
    for item in items {
        let mut entry = [0u8; ENTRY_SIZE];
        write_entry(&mut entry, item);
        bytes.extend_from_slice(&entry)?;
    }
    Ok(bytes)
}

/// Writes the entry of an open item.
fn write_entry(entry: &mut [u8], item: &OpenItem)
    requires { length entry.old ≡ 24 }
    ensures { entry.new ≡ entry_of item.now }
{
    LittleEndian::write_u64(entry, item.agent);
    LittleEndian::write_u64(&mut entry[8..], item.controller);
    LittleEndian::write_u32(&mut entry[16..], item.attributes);
    LittleEndian::write_u32(&mut entry[20..], item.count);
}
