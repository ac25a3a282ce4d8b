//! The jobs of the program `nicbench`, from their inputs to their outputs, and the fault of a job that failed.
#![tactic(auto)]

mod drive_job;
mod events_file;
mod explanation;
mod fault;
mod first_word;
mod output_names;
mod run;
mod run_files;
mod serve;
mod trace_jobs;

pub use drive_job::run_drive;
pub use fault::Fault;
pub use run::run_scenario;
pub use serve::run_serve;
pub use trace_jobs::{run_pass, run_show};
