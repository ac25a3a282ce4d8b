//! The names of the files of a run.
ghost use Rattle.std.specs.Prelude.{◌≡◌, ◌≤◌, IfOk, length};
ghost use Rattle.scenario_bench.specs.FileNames.{sockets_in, wires_in};

use pcap_bench::{RunJob, socket_files, wire_files};
use std::alloc::{AllocError, Global};
use wire::HostPlan;

/// The names of the files that a run writes in OUTDIR.
#[derive(Drop)]
pub(crate) struct OutputNames {
    /// The file of each socket ([`socket_files`]).
    pub(crate) sockets: Vec<String>,
    /// The file of each wire ([`wire_files`]) if the job asks for these files, and no names otherwise.
    pub(crate) wires: Vec<String>,
}

/// Returns the names of the files that the run of a job writes for these hosts. Fails only if memory is refused.
pub(crate) fn output_names(
    alloc: Global,
    job: &RunJob<'_>,
    plans: &[HostPlan],
) -> Result<OutputNames, AllocError>
    ensures sockets { IfOk result (λ names. length names.sockets.items ≡ sockets_in plans.now) }
    ensures wires { IfOk result (λ names. length names.wires.items ≤ wires_in plans.now) }
{
    let wires = if job.wires {
        wire_files(alloc, plans)?
    } else {
        Vec::new(alloc)
    };
    let sockets = socket_files(alloc, plans)?;
    Ok(OutputNames { sockets, wires })
}
