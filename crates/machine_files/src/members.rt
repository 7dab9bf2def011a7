//! The members of a machine file's memory list.
ghost use Rattle.std.specs.Prelude.{◌≡◌};
ghost use Rattle.serde_json.specs.View.{view};
ghost use Rattle.machine_files.specs.Fields.{hexadecimal_at};
ghost use Rattle.machine_files.specs.MachineText.{member_type, first_page_of, page_count_of, attributes_of, member_run};

use crate::faults::MemberField;
use page_ranges::{MemoryType, Owner, PAGE_COUNT, PAGE_SIZE, PageRange, Run, has_runtime};
use serde_json::Value;
use text_lines::hexadecimal_of;

/// The run of a member, or its first field that is missing, of another kind or out of its range. A
/// member that is no object lacks them all.
#[tactic(auto, unfolding(crate::specs::MachineText::member_run))]
pub fn member_run(member: &Value) -> Result<Run, MemberField>
    ensures { result ≡ member_run (view member.now) }
{
    let mtype = member_type(member).ok_or(MemberField::Type)?;
    let first = first_page_of(member).ok_or(MemberField::Start)?;
    let pages = page_count_of(member, first).ok_or(MemberField::Pages)?;
    let attributes = attributes_of(member, mtype).ok_or(MemberField::Attributes)?;
    Ok(Run {
        range: PageRange { first, pages },
        mtype,
        attributes,
        owner: Owner::Given,
    })
}

/// A type that a machine may have.
fn member_type(member: &Value) -> Option<MemoryType>
    ensures { result ≡ member_type (view member.now) }
{
    let number = member.get("type").and_then(Value::as_u64)?;
    let mtype = MemoryType::new(u32::try_from(number).ok()?);
    mtype.is_of_machines().then_some(mtype)
}

/// The page that begins at the start.
fn first_page_of(member: &Value) -> Option<u64>
    ensures { result ≡ first_page_of (view member.now) }
{
    let start = hexadecimal_at(member, "start")?;
    (start % PAGE_SIZE == 0).then_some(start / PAGE_SIZE)
}

/// A number of pages, not 0, of which the last exists.
fn page_count_of(member: &Value, first: u64) -> Option<u64>
    ensures { result ≡ page_count_of first (view member.now) }
{
    let pages = member.get("pages").and_then(Value::as_u64)?;
    let end = first.checked_add(pages)?;
    (pages != 0 && end <= PAGE_COUNT).then_some(pages)
}

/// Attributes, without RUNTIME where the type is conventional.
fn attributes_of(member: &Value, mtype: MemoryType) -> Option<u64>
    ensures { result ≡ attributes_of mtype (view member.now) }
{
    let attributes = hexadecimal_at(member, "attributes")?;
    let is_refused = mtype == MemoryType::conventional() && has_runtime(attributes);
    (!is_refused).then_some(attributes)
}

/// A text that is a number of the `0x` form.
fn hexadecimal_at(member: &Value, key: &str) -> Option<u64>
    ensures { result ≡ hexadecimal_at key.now (view member.now) }
{
    let text = member.get(key).and_then(Value::as_str)?;
    hexadecimal_of(text.as_bytes())
}
