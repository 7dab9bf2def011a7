//! The attributes of OpenProtocol.
ghost use Rattle.std.specs.Prelude.{◌≡◌};
ghost use Rattle.open_agents.specs.OpenItems as items;
ghost use Rattle.open_agents.specs.OpenRule as rule;

pub const BY_HANDLE_PROTOCOL: u32 = 0x1;

pub const GET_PROTOCOL: u32 = 0x2;

pub const TEST_PROTOCOL: u32 = 0x4;

pub const BY_CHILD_CONTROLLER: u32 = 0x8;

pub const BY_DRIVER: u32 = 0x10;

pub const EXCLUSIVE: u32 = 0x20;

/// BY_DRIVER together with EXCLUSIVE.
pub(crate) const EXCLUSIVE_BY_DRIVER: u32 = 0x30;

/// Whether OpenProtocol knows the attributes.
pub(crate) fn is_known(attributes: u32) -> bool
    ensures { result ≡ rule.is_known attributes }
{
    matches!(
        attributes,
        BY_HANDLE_PROTOCOL
            | GET_PROTOCOL
            | TEST_PROTOCOL
            | BY_CHILD_CONTROLLER
            | BY_DRIVER
            | EXCLUSIVE
            | EXCLUSIVE_BY_DRIVER
    )
}

/// Whether an open is for a driver.
pub fn is_for_driver(attributes: u32) -> bool
    ensures { result ≡ items.is_for_driver attributes }
{
    attributes == BY_DRIVER || attributes == EXCLUSIVE_BY_DRIVER
}

/// Whether an open excludes all other agents.
pub(crate) fn is_exclusive(attributes: u32) -> bool
    ensures { result ≡ items.is_exclusive attributes }
{
    attributes == EXCLUSIVE || attributes == EXCLUSIVE_BY_DRIVER
}

/// Whether an open is for a controller.
pub(crate) fn needs_controller(attributes: u32) -> bool
    ensures { result ≡ rule.needs_controller attributes }
{
    attributes == BY_CHILD_CONTROLLER || is_for_driver(attributes)
}

/// Whether an open is by an agent.
pub(crate) fn needs_agent(attributes: u32) -> bool
    ensures { result ≡ rule.needs_agent attributes }
{
    attributes == EXCLUSIVE || needs_controller(attributes)
}
