//! The laws of stopping and connecting, each the contract of a function that does nothing.
ghost use Rattle.driver_connect.specs.Drivers.{HasShortPlans, IsShortPlan, fixed_meaning};
ghost use Rattle.driver_connect.specs.DriverTurns.{OrderLaw, TurnsLaw};
ghost use Rattle.driver_connect.specs.Laws.{GoneLaw, MakersItemLaw, NothingCarriedOutLaw, RoundsLaw, StaysLaw, StopSetLaw, VersionsLaw};
ghost use Rattle.driver_connect.specs.StopOrder.{StopOrderLaw};
ghost use Rattle.driver_connect.specs.StartOrder.{StartOrderLaw};
ghost use Rattle.driver_connect.specs.Turns.{StartsLaw, TriedOnceLaw};

use crate::driver::Driver;
use crate::table::TableDriver;
use crate::view::View;

/// The stop set of some pairs holds them and the managers of all handles that its pairs made, and it
/// is the least set that does.
pub fn stop_set_law()
    ensures { StopSetLaw }
{}

/// As many rounds as there are handles and open items make the whole stop set.
pub fn rounds_law()
    ensures { RoundsLaw }
{}

/// What stopping leaves has no interface on a handle that went, and names none.
pub fn gone_law()
    ensures { GoneLaw }
{}

/// Stopping removes no handle outside the stop set, and no interface of such a handle.
pub fn stays_law()
    ensures { StaysLaw }
{}

/// Each child in a plan has at most four interfaces, whatever driver answers with it.
pub fn short_plan_law<D: Driver>(driver: &D, view: &View)
    ensures { IsShortPlan ((D.meaning driver.now).plan view.now) }
{
    driver.plan(view).short_law();
}

/// So has each child in the plan of a driver that is a table, whatever it is shown.
pub fn table_plans_law(driver: &TableDriver)
    ensures { HasShortPlans (fixed_meaning driver.now.version driver.now.needs.items
        driver.now.plan driver.now.stops) }
{
    driver.plan.short_law();
}

/// Drivers are tried by version downwards, and those of one version keep their order.
pub fn versions_law()
    ensures { VersionsLaw }
{}

/// No driver handle is tried twice on a handle.
pub fn tried_once_law()
    ensures { TriedOnceLaw }
{}

/// On a handle, drivers are started one after the other, each supported when its turn came, and none
/// that is left is supported at the end.
pub fn starts_law()
    ensures { StartsLaw }
{}

/// A connect that carries out no start on its handle changes nothing.
pub fn nothing_carried_out_law()
    ensures { NothingCarriedOutLaw }
{}

/// A connect removes no handle, and beside each that it makes is the item by which the driver that
/// made it has the controller open.
pub fn makers_item_law()
    ensures { MakersItemLaw }
{}

/// On a handle drivers are started in passes: the first over the list of drivers, each other over those
/// that the one before it left, in the order of the list. A driver is started exactly where it is
/// supported at its turn, and a pass follows only one that started a driver.
pub fn start_order_law()
    ensures { StartOrderLaw }
{}

/// Where a caller passes all driver handles of a core, ascending, they are tried in the order of
/// the rule.
pub fn order_law()
    ensures { OrderLaw }
{}

/// Turns of drivers that are answered as the drivers of a core answer make the starts of the rule, in
/// its order, and come to its end.
pub fn turns_law()
    ensures { TurnsLaw }
{}

/// A caller that stops the drivers of a stop itself receives its pairs, those on a child before the
/// pair that made it.
pub fn stop_order_law()
    ensures { StopOrderLaw }
{}
