//! The sockets of a scenario.
ghost use Rattle.std.specs.Prelude.{◌≡◌, ◌++◌, IfOk, OnOk};
ghost use Rattle.scenario.specs.SoFar.{hosts_of};
ghost use Rattle.scenario_bench.specs.Given.{sockets_from, sockets_of_host};

use std::alloc::{AllocError, Global};
use wire::HostPlan;

/// Appends a pair for each socket of a host: the host's number and the socket's number, in order. If memory is refused,
/// some of the pairs may have been appended.
fn push_sockets(
    host: usize,
    count: usize,
    sockets: &mut Vec<(usize, usize)>,
) -> Result<(), AllocError>
    ensures { OnOk result (sockets.new.items ≡ sockets.old.items ++ sockets_of_host host count) }
{
    for socket in 0..count {
        sockets.push((host, socket))?;
    }
    Ok(())
}

/// Returns the sockets of these hosts, each as the number of its host and the number of the socket. Hosts are in order,
/// and the sockets of each host are in order.
///
/// # Errors
///
/// Returns an error only if memory is refused.
pub(crate) fn sockets(alloc: Global, plans: &[HostPlan]) -> Result<Vec<(usize, usize)>, AllocError>
    ensures { IfOk result (λ sockets. sockets.items ≡ sockets_from 0 (hosts_of plans.now)) }
{
    let mut sockets = Vec::new(alloc);
    for (number, plan) in plans.iter().enumerate() {
        push_sockets(number, plan.sockets.len(), &mut sockets)?;
    }
    Ok(sockets)
}
