//! What comes next where a caller starts and stops drivers itself. None is a service, and none uses up a call.
ghost use Rattle.std.specs.Prelude.{◌≡◌};
ghost use Rattle.c_interface.specs.Stops.{ListsChildren, ListsManagers, ListsStops};
ghost use Rattle.c_interface.specs.Turns.{ReturnsDriver, ReturnsTurns};
ghost use Rattle.driver_connect.specs.DriverTurns.{EndsTurn, next_driver, pass_of};

use crate::handle::Rafkudin;
use c_interface::{Agent, DriverTurns, Pair, connect_next, connect_record};
use c_machines::Guid;

/// Begins the turns on a controller of the drivers on a list, which is put in the order in which they are tried: those
/// of the handles named, and then all others by version. Drivers that are on no live driver handle drop out. The
/// variable `turns` receives the turns.
///
/// INVALID_PARAMETER: the controller is not live, or more than 16 handles are named. OUT_OF_RESOURCES: memory ran
/// out. Either leaves the list.
#[unsafe(no_mangle)]
pub extern "C" fn RafkudinConnectBegin(
    core: &mut Rafkudin,
    controller: u64,
    named: &[u64],
    drivers: &mut [Agent],
    turns: &mut DriverTurns,
) -> u64
    ensures returned { ReturnsTurns core.old.core controller named.now
        (drivers.old, turns.old) result (drivers.new, turns.new) }
    ensures kept { core.new.core ≡ core.old.core }
{
    core.held().connect_begin(controller, named, drivers, turns)
}

/// The driver whose turn it is, in the variable `driver`.
///
/// NOT_FOUND: no driver is left to be tried.
#[unsafe(no_mangle)]
pub extern "C" fn RafkudinConnectNext(
    turns: &DriverTurns,
    drivers: &[Agent],
    driver: &mut Agent,
) -> u64
    ensures { ReturnsDriver
        (next_driver (pass_of turns.now drivers.now)) driver.old result driver.new }
{
    connect_next(turns, drivers, driver)
}

/// Records what came of the driver's turn: whether its start was called, whatever that returned.
#[unsafe(no_mangle)]
pub extern "C" fn RafkudinConnectRecord(
    turns: &mut DriverTurns,
    drivers: &mut [Agent],
    was_started: bool,
)
    ensures { EndsTurn was_started turns.old drivers.old turns.new drivers.new }
{
    connect_record(turns, drivers, was_started);
}

/// The drivers that are to be stopped, in order, before an interface can be opened exclusively, uninstalled or
/// reinstalled, in the front of a buffer. The variable `count` receives how many they are.
///
/// BUFFER_TOO_SMALL: the buffer has no room for all of them, and is left. OUT_OF_RESOURCES: memory ran out, and
/// the variable is left too.
#[unsafe(no_mangle)]
pub extern "C" fn RafkudinStopsOnInterface(
    core: &mut Rafkudin,
    handle: u64,
    guid: &Guid,
    stops: &mut [Pair],
    count: &mut u64,
) -> u64
    ensures returned { ListsStops
        core.old.core handle guid.now count.old stops.old result count.new stops.new }
    ensures kept { core.new.core ≡ core.old.core }
{
    core.held().stops_on_interface(handle, guid, stops, count)
}

/// The drivers that are to be stopped, in order, before a handle can be disconnected from all that manage it, or
/// from one of them if `driver` is not 0; in the same way.
#[unsafe(no_mangle)]
pub extern "C" fn RafkudinStopsOnController(
    core: &mut Rafkudin,
    controller: u64,
    driver: u64,
    stops: &mut [Pair],
    count: &mut u64,
) -> u64
    ensures returned { ListsManagers
        core.old.core controller driver count.old stops.old result count.new stops.new }
    ensures kept { core.new.core ≡ core.old.core }
{
    core.held()
        .stops_on_controller(controller, driver, stops, count)
}

/// The children of a driver on a controller: the handles that it made, ascending, and then those for which it has
/// the controller open as for a child; in the same way.
#[unsafe(no_mangle)]
pub extern "C" fn RafkudinChildren(
    core: &mut Rafkudin,
    controller: u64,
    agent: u64,
    children: &mut [u64],
    count: &mut u64,
) -> u64
    ensures returned { ListsChildren
        core.old.core controller agent count.old children.old result count.new children.new }
    ensures kept { core.new.core ≡ core.old.core }
{
    core.held().children(controller, agent, children, count)
}
