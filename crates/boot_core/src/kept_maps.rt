//! The memory map before a call, for the certificate that the reply may carry.
ghost use Rattle.std.specs.Prelude.{◌≡◌, IfOk};
ghost use Rattle.boot_core.specs.Machines.{KeepsMap, map_of};

use crate::services::Services;
use boot_calls::Call;
use boot_replies::may_be_certified;
use driver_connect::Driver;
use page_ranges::Descriptor;
use std::alloc::{AllocError, Allocator};

/// The memory map before a call, where certificates are asked for and the call's reply may carry one.
pub fn map_before<D: Driver, A: Allocator + Copy>(
    alloc: A,
    services: &Services<D, A>,
    call: &Call<A>,
    certify: bool,
) -> Result<Option<Vec<Descriptor, A>>, AllocError>
    ensures { IfOk result (λ kept. KeepsMap certify services.now.state call.now kept) }
{
    if certify && may_be_certified(services.granule(), call) {
        Ok(Some(entries_of(alloc, services)?))
    } else {
        Ok(None)
    }
}

/// The entries of the memory map.
fn entries_of<D: Driver, A: Allocator + Copy>(
    alloc: A,
    services: &Services<D, A>,
) -> Result<Vec<Descriptor, A>, AllocError>
    ensures { IfOk result (λ entries. entries.items ≡ map_of services.now.state) }
{
    let mut entries = Vec::new(alloc);
    for entry in services.map_entries() {
        entries.push(entry)?;
    }
    Ok(entries)
}
