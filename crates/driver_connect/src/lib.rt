//! Drivers: starting them on handles and stopping them, with the handles that they make.
#![tactic(auto)]

mod agents;
mod candidates;
mod connecting;
mod driver;
mod driver_order;
mod driver_turns;
mod laws;
mod made;
mod numbers;
mod pairs;
mod progress;
mod protocols;
mod reconnecting;
mod starting;
mod stop_order;
mod stopping;
mod table;
mod view;

pub use agents::{Agent, driver_binding};
pub use connecting::{MAX_NAMED, connect};
pub use driver::Driver;
pub use driver_turns::{DriverTurns, begin_turns};
pub use laws::{
    gone_law, makers_item_law, nothing_carried_out_law, order_law, rounds_law, short_plan_law,
    start_order_law, starts_law, stays_law, stop_order_law, stop_set_law, table_plans_law,
    tried_once_law, turns_law, versions_law,
};
pub use protocols::Lists;
pub use reconnecting::Replacement;
pub use starting::Starter;
pub use stopping::{StopPlan, disconnect, stop};
pub use table::TableDriver;
pub use view::{MAX_CHILDREN, MAX_GUIDS, MAX_PAIRS, ProtocolView, StartPlan, View};
