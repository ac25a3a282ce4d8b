//! Why playing a scenario stopped.
ghost use Rattle.std.specs.Prelude.{◌≡◌};
ghost use Rattle.scenario_bench.specs.Statuses.{bench_status};
ghost use Rattle.scenario_bench.specs.declared.bench_error.BenchError.TheVariants as errors;

use pcap_trace::WriteError;
use std::alloc::AllocError;
use thiserror::Error;
use wire::{PlanError, Stopped};

/// Why playing a scenario stopped.
#[derive(Clone, Copy, Debug, PartialEq, Eq, Error)]
pub enum BenchError {
    /// No network could be made of the scenario's plan, for this reason. Nothing was written.
    #[error(transparent)]
    Plan(PlanError),
    /// Before an event, memory was refused for what is recorded of the event, or for the frames that a reset drops.
    /// Nothing was written. `done` is the number of events and drains that were done before this event; it saturates at
    /// the greatest `u64`.
    #[error(transparent)]
    Run(Stopped),
    /// Out of memory elsewhere than for E45, E47 and E65. Free some, or split IN
    ///
    /// Memory was refused for other data, such as the events of a `feed`, the frames of a drain, or the writer of the
    /// traces. Nothing was written.
    #[error("E57 Memory")]
    Memory,
    /// A sink failed. The sinks before this sink have their whole traces. This sink has a beginning of its own trace,
    /// and the sinks after it are unchanged. Sinks of wires come after those of sockets.
    #[error(transparent)]
    Write(WriteError),
}

impl BenchError {
    /// Returns the program's exit status for this error.
    pub fn status(&self) -> u8
        ensures { result ≡ bench_status self.now }
    {
        match self {
            BenchError::Plan(error) => error.status(),
            BenchError::Run(_) | BenchError::Memory => 4,
            BenchError::Write(error) => error.status(),
        }
    }
}

impl From<PlanError> for BenchError {
    ghost from_gives = { λ e f. f ≡ errors.Plan e };

    fn from(error: PlanError) -> BenchError {
        BenchError::Plan(error)
    }
}

impl From<AllocError> for BenchError {
    ghost from_gives = { λ _ f. f ≡ errors.Memory };

    fn from(_error: AllocError) -> BenchError {
        BenchError::Memory
    }
}

impl From<WriteError> for BenchError {
    ghost from_gives = { λ e f. f ≡ errors.Write e };

    fn from(error: WriteError) -> BenchError {
        BenchError::Write(error)
    }
}
