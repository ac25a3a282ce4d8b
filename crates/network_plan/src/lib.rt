//! The plan of a network: hosts, each with an EEPROM, a link, a configuration and sockets, and the wires between them.
//! The crate also defines why a plan is rejected, the events of a run, and the reply to each event.
#![tactic(auto)]

mod event;
mod plan;
mod plan_error;
mod reply;

pub use event::Event;
pub use plan::{HostPlan, MOST_ENDS, MOST_HOSTS, MOST_NAME_BYTES, MOST_SOCKETS, Plan};
pub use plan_error::PlanError;
pub use reply::{Answer, Reply, Stopped};
