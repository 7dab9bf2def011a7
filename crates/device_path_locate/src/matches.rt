//! The handles that device paths lead to.
ghost use Rattle.std.specs.Prelude.{◌≡◌, ◌&&◌, ◌≤◌, ◌<◌, IfOk, IfSome, length, option_map};
ghost use Rattle.std.specs.List.{AllByRecursion, concat};
ghost use Rattle.device_path_locate.specs.DevicePaths.{first_instance, path_in};
ghost use Rattle.device_path_locate.specs.Locating.{are_same, device_path_guid, has_path_installed, is_path_of_any, located, located_bytes, path_at, path_of, whole_bytes};
ghost use Rattle.device_path_locate.specs.Reading.{IsBestMatch, IsBoundary, IsMatch, longer_if, matched_bytes};

use crate::marks::{MARKS, marks_of};
use crate::prefixes::matched_size;
use crate::spans::read_path;
use guid_handles::Handles;
use page_ranges::Status;
use pool_services::Pools;
use std::alloc::Allocator;
use uuid::Uuid;

/// The most bytes whose nodes are left unmarked, since they are no more than the marks.
const UNMARKED: usize = 4 * MARKS;

/// The GUID of device paths (EFI_DEVICE_PATH_PROTOCOL_GUID), 09576e91-6d3f-11d2-8e39-00a0c969723b.
pub fn device_path_guid() -> Uuid
    ensures { result ≡ device_path_guid }
{
    Uuid::from_bytes([
        0x09, 0x57, 0x6e, 0x91, 0x6d, 0x3f, 0x11, 0xd2, 0x8e, 0x39, 0x00, 0xa0, 0xc9, 0x69, 0x72,
        0x3b,
    ])
}

/// The bytes of all nodes of the path at an address, if there is one.
fn whole_at<A: Allocator + Copy>(pools: &Pools<A>, address: u64) -> Option<&[u8]>
    ensures { option_map (λ s. s.now) result ≡ whole_bytes (path_at address pools.now.extents) }
{
    let bytes = pools.tail(address)?;
    let span = read_path(bytes)?;
    Some(&bytes[..span.whole])
}

/// The bytes of the first instance of the path that some bytes begin with, if they begin with one.
fn first_instance_in(bytes: &[u8]) -> Option<&[u8]>
    ensures nodes { option_map (λ s. s.now) result
        ≡ option_map (λ path. concat (first_instance path)) (path_in bytes.now) }
    ensures within { IfSome result (λ s. length s.now < length bytes.now) }
{
    let span = read_path(bytes)?;
    Some(&bytes[..span.first_instance])
}

/// The bytes of all nodes of a handle's path, if it has one.
fn whole_of<'a, A: Allocator + Copy>(
    handles: &Handles<A>,
    pools: &'a Pools<A>,
    handle: u64,
) -> Option<&'a [u8]>
    ensures { option_map (λ s. s.now) result
        ≡ whole_bytes (path_of handles.now pools.now.extents handle) }
{
    whole_at(pools, handles.interface(handle, device_path_guid())?)
}

/// A handle whose path matches the bytes of some nodes, with how many it matches: all of its own. One that
/// matches fewer bytes than `from`, where a node ends, may be passed over. Nodes end at the marks too.
fn match_of<A: Allocator + Copy>(
    handles: &Handles<A>,
    pools: &Pools<A>,
    handle: u64,
    nodes: &[u8],
    from: usize,
    marks: &[usize],
) -> Option<(u64, usize)>
    requires boundary { IsBoundary nodes.now from }
    requires marked { AllByRecursion (IsBoundary nodes.now) marks.now }
    ensures found { IsMatch handles.now pools.now.extents handle nodes.now from result }
    ensures boundary { IfSome result (λ m. IsBoundary nodes.now m.1) }
{
    let path = pools.tail(handles.interface(handle, device_path_guid())?)?;
    Some((handle, matched_size(path, nodes, from, marks)?))
}

/// How many bytes a match has, none if there is none.
fn bytes_of(best: Option<(u64, usize)>) -> usize
    ensures { result ≡ matched_bytes best }
{
    match best {
        Some((_, size)) => size,
        None => 0,
    }
}

/// The longer of two matches, the first where they are equally long.
fn longer(best: Option<(u64, usize)>, found: Option<(u64, usize)>) -> Option<(u64, usize)>
    ensures { result ≡ longer_if best found }
{
    match (best, found) {
        (Some(b), Some(f)) if b.1 < f.1 => found,
        (Some(_), _) => best,
        (None, _) => found,
    }
}

/// The longest match of the bytes of some nodes among the handles that carry a GUID, of equally long
/// ones that of the lowest handle. Nodes end at the marks.
fn best_from<A: Allocator + Copy>(
    handles: &Handles<A>,
    pools: &Pools<A>,
    guid: Uuid,
    nodes: &[u8],
    marks: &[usize],
) -> Option<(u64, usize)>
    requires { AllByRecursion (IsBoundary nodes.now) marks.now }
    ensures found { IsBestMatch handles.now pools.now.extents guid nodes.now result }
    ensures within { IfSome result (λ m. m.1 ≤ length nodes.now) }
{
    let holders = handles.by_protocol(guid);
    let mut best = None;
    for handle in holders {
        best = longer(
            best,
            match_of(handles, pools, *handle, nodes, bytes_of(best), marks),
        );
    }
    best
}

/// The same of many nodes. They are walked over beforehand, so that the paths which end in one of them
/// do not each cost a walk over all.
fn best_of_many<A: Allocator + Copy>(
    handles: &Handles<A>,
    pools: &Pools<A>,
    guid: Uuid,
    nodes: &[u8],
) -> Option<(u64, usize)>
    ensures found { IsBestMatch handles.now pools.now.extents guid nodes.now result }
    ensures within { IfSome result (λ m. m.1 ≤ length nodes.now) }
{
    best_from(handles, pools, guid, nodes, &marks_of(nodes))
}

/// The longest match of the bytes of some nodes among the handles that carry a GUID, of equally long
/// ones that of the lowest handle.
fn best_match<A: Allocator + Copy>(
    handles: &Handles<A>,
    pools: &Pools<A>,
    guid: Uuid,
    nodes: &[u8],
) -> Option<(u64, usize)>
    ensures found { IsBestMatch handles.now pools.now.extents guid nodes.now result }
    ensures within { IfSome result (λ m. m.1 ≤ length nodes.now) }
{
    if nodes.len() <= UNMARKED {
        best_from(handles, pools, guid, nodes, &[])
    } else {
        best_of_many(handles, pools, guid, nodes)
    }
}

/// The handle that carries a GUID and whose device path leads furthest along the path that some bytes
/// begin with, and how many bytes of that path it matches. The bytes may lie anywhere. All nodes of the
/// handle's path must be the first of those before the end of the path's first instance. Of equally
/// long ones the lowest handle is returned. The handles' paths are read as their bytes lie in the pool
/// now. This takes no memory.
///
/// INVALID_PARAMETER: the bytes begin with no path. NOT_FOUND: no handle's path matches.
pub fn locate_bytes<A: Allocator + Copy>(
    handles: &Handles<A>,
    pools: &Pools<A>,
    guid: Uuid,
    bytes: &[u8],
) -> Result<(u64, usize), Status>
    ensures found { result ≡ located_bytes handles.now pools.now.extents guid bytes.now }
    ensures within { IfOk result (λ m. m.1 < length bytes.now) }
{
    let Some(nodes) = first_instance_in(bytes) else {
        return Err(Status::InvalidParameter);
    };
    match best_match(handles, pools, guid, nodes) {
        Some(found) => Ok(found),
        None => Err(Status::NotFound),
    }
}

/// LocateDevicePath: the same of the path at an address, which is read as its bytes lie in the pool
/// now, with the address behind the nodes that match.
///
/// INVALID_PARAMETER: there is no path at the address. NOT_FOUND: no handle's path matches.
pub fn locate<A: Allocator + Copy>(
    handles: &Handles<A>,
    pools: &Pools<A>,
    guid: Uuid,
    address: u64,
) -> Result<(u64, u64), Status>
    ensures { result ≡ located handles.now pools.now.extents guid address }
{
    let bytes = pools.tail(address).ok_or(Status::InvalidParameter)?;
    let (handle, size) = locate_bytes(handles, pools, guid, bytes)?;
    Ok((handle, address + size as u64))
}

/// Whether the bytes of two paths, if both are there, are the same.
fn are_same(bytes: Option<&[u8]>, other: Option<&[u8]>) -> bool
    ensures { result ≡ are_same (option_map (λ s. s.now) bytes.entry)
        (option_map (λ s. s.now) other.entry) }
{
    match (bytes, other) {
        (Some(a), Some(b)) => a == b,
        _ => false,
    }
}

/// Whether the path at an address is the path of some live handle too.
fn is_path_of_any<A: Allocator + Copy>(handles: &Handles<A>, pools: &Pools<A>, address: u64) -> bool
    ensures { result ≡ is_path_of_any handles.now pools.now.extents address }
{
    let bytes = whole_at(pools, address);
    handles.by_protocol(device_path_guid()).iter().any(|handle| are_same(
        bytes,
        whole_of(handles, pools, *handle),
    ))
}

/// Whether one of some pairs of GUID and value is a device path that a live handle has already, with
/// the same bytes, ends of instances among them. A value at which there is no path is passed over.
/// This takes no memory.
pub fn has_path_installed<A: Allocator + Copy>(
    handles: &Handles<A>,
    pools: &Pools<A>,
    pairs: &[(Uuid, u64)],
) -> bool
    ensures { result ≡ has_path_installed handles.now pools.now.extents pairs.now }
{
    pairs.iter().any(|pair| pair.0 == device_path_guid() && is_path_of_any(handles, pools, pair.1))
}
