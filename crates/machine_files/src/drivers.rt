//! The members of a machine file's driver list.
ghost use Rattle.std.specs.Prelude.{◌≡◌, ◌≤◌, length, map};
ghost use Rattle.std.specs.Option.{option_map};
ghost use Rattle.serde_json.specs.View.{view, items_view};
ghost use Rattle.machine_files.specs.Fields.{each_of};
ghost use Rattle.machine_files.specs.DriverText.{version_of, guid_of, guids_of, pair_in, pair_of, child_of, children_of, member_driver, listed_result};

use crate::faults::DriverField;
use arrayvec::ArrayVec;
use driver_connect::{MAX_CHILDREN, MAX_GUIDS, MAX_PAIRS, StartPlan, TableDriver};
use serde_json::Value;
use text_lines::hexadecimal_of;
use uuid::Uuid;

/// The driver of a member, or its first field that is missing, of another kind or out of its range.
/// A member that is no object lacks them all.
#[tactic(auto, unfolding(crate::specs::DriverText::member_driver))]
pub fn member_driver(member: &Value) -> Result<TableDriver, DriverField>
    ensures { listed_result result ≡ member_driver (view member.now) }
{
    let version = version_of(member).ok_or(DriverField::Version)?;
    let needs = member.get("needs").and_then(guids_of);
    let needs = needs.ok_or(DriverField::Needs)?;
    let opens = member.get("opens").and_then(guids_of);
    let opens = opens.ok_or(DriverField::Opens)?;
    let children = member.get("children").and_then(children_of);
    let children = children.ok_or(DriverField::Children)?;
    let stops = member.get("stops").and_then(Value::as_bool);
    let stops = stops.ok_or(DriverField::Stops)?;
    Ok(TableDriver {
        version,
        needs,
        plan: StartPlan { opens, children },
        stops,
    })
}

/// A number of 32 bits.
fn version_of(member: &Value) -> Option<u32>
    ensures { result ≡ version_of (view member.now) }
{
    let number = member.get("version").and_then(Value::as_u64)?;
    u32::try_from(number).ok()
}

/// The GUID that a text is, of any form that `uuid` parses.
#[tactic(auto, unfolding(crate::specs::DriverText::guid_of))]
fn guid_of(value: &Value) -> Option<Uuid>
    ensures { result ≡ guid_of (view value.now) }
{
    let text = value.as_str()?;
    Uuid::try_parse(text).ok()
}

/// The GUIDs of a list of texts.
#[tactic(auto, using(crate::proofs::EachMember::count_of_items))]
fn guids_of(value: &Value) -> Option<ArrayVec<Uuid, MAX_GUIDS>>
    ensures { option_map (λ guids. guids.items) result ≡ guids_of (view value.now) }
{
    let list = value.as_array()?;
    if list.len() > MAX_GUIDS {
        return None;
    }
    guids_in(list.as_slice())
}

/// The GUIDs of the members.
fn guids_in(members: &[Value]) -> Option<ArrayVec<Uuid, MAX_GUIDS>>
    requires { length members.now ≤ MAX_GUIDS }
    ensures { option_map (λ guids. guids.items) result ≡ each_of guid_of (items_view members.now) }
{
    let mut guids = ArrayVec::new();
    for member in members {
        guids.push(guid_of(member)?);
    }
    Some(guids)
}

/// The GUID and the value of a list of two texts.
#[tactic(auto, unfolding(crate::specs::DriverText::pair_of))]
fn pair_of(value: &Value) -> Option<(Uuid, u64)>
    ensures { result ≡ pair_of (view value.now) }
{
    pair_in(value.as_array()?.as_slice())
}

/// The GUID and the value of two texts.
#[tactic(auto, using(crate::proofs::DriverMembers::few_members, crate::proofs::DriverMembers::many_members))]
fn pair_in(members: &[Value]) -> Option<(Uuid, u64)>
    ensures { result ≡ pair_in (items_view members.now) }
{
    let [guid, value] = members else {
        return None;
    };
    let guid = guid_of(guid)?;
    let value = hexadecimal_of(value.as_str()?.as_bytes())?;
    Some((guid, value))
}

/// The interfaces of a list of pairs.
#[tactic(auto, unfolding(crate::specs::DriverText::child_of), using(crate::proofs::EachMember::count_of_items))]
fn child_of(value: &Value) -> Option<ArrayVec<(Uuid, u64), MAX_PAIRS>>
    ensures { option_map (λ child. child.items) result ≡ child_of (view value.now) }
{
    let list = value.as_array()?;
    if list.len() > MAX_PAIRS {
        return None;
    }
    pairs_in(list.as_slice())
}

/// The pairs of the members.
fn pairs_in(members: &[Value]) -> Option<ArrayVec<(Uuid, u64), MAX_PAIRS>>
    requires { length members.now ≤ MAX_PAIRS }
    ensures { option_map (λ pairs. pairs.items) result ≡ each_of pair_of (items_view members.now) }
{
    let mut pairs = ArrayVec::new();
    for member in members {
        pairs.push(pair_of(member)?);
    }
    Some(pairs)
}

/// The children of a list of them.
#[tactic(auto, using(crate::proofs::EachMember::count_of_items))]
fn children_of(value: &Value) -> Option<ArrayVec<ArrayVec<(Uuid, u64), MAX_PAIRS>, MAX_CHILDREN>>
    ensures { option_map (λ children. map (λ child. child.items) children.items) result
        ≡ children_of (view value.now) }
{
    let list = value.as_array()?;
    if list.len() > MAX_CHILDREN {
        return None;
    }
    children_in(list.as_slice())
}

/// The children of the members.
fn children_in(
    members: &[Value],
) -> Option<ArrayVec<ArrayVec<(Uuid, u64), MAX_PAIRS>, MAX_CHILDREN>>
    requires { length members.now ≤ MAX_CHILDREN }
    ensures { option_map (λ children. map (λ child. child.items) children.items) result
        ≡ each_of child_of (items_view members.now) }
{
    let mut children = ArrayVec::new();
    for member in members {
        children.push(child_of(member)?);
    }
    Some(children)
}
