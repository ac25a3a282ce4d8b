//! Reads a scenario for `nicbench run`, line by line: the plan of a network, and commands for its hosts.
//!
//! [`Scenario::read`] returns the plan and the commands, or a [`Refusal`]: the number and the fault of the first faulty
//! line, or that memory was refused.
#![tactic(auto)]

mod call;
mod command;
mod event_line;
mod host_change;
mod host_use;
mod law;
mod line;
mod line_kind;
mod refusal;
mod scenario;
mod setup_line;
mod spelling;
mod tick_word;

pub use call::Call;
pub use command::{Command, Scenario};
pub use law::texts_are_read_or_refused;
pub use refusal::{Fault, Refusal};
