//! The loop of `nicbench drive`, which sends the frames of a trace and receives frames, and its bus to an adapter in
//! another program.
//!
//! The bus writes requests of QEMU's qtest protocol, and reads their answers, one on each line. The program may be
//! QEMU, `nicbench serve`, or any other program that answers `readl`, `writel`, `read` and `write`.
#![tactic(auto)]

mod bus_fault;
mod counts;
mod drive_error;
mod driving;
mod exchange;
mod qtest_answers;
mod qtest_bus;
mod qtest_requests;
mod watched_bus;

pub use bus_fault::BusFault;
pub use counts::{DriveCounts, DriveLimits, DriveRings};
pub use drive_error::DriveError;
pub use driving::drive;
pub use qtest_bus::QtestBus;
pub use watched_bus::WatchedBus;
