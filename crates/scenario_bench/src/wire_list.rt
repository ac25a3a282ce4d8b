//! The wires of a scenario.
ghost use Rattle.std.specs.Prelude.{◌≡◌, IfOk, length};
ghost use Rattle.scenario.specs.SoFar.{hosts_of};
ghost use Rattle.scenario_bench.specs.WireLists.{wire_names};
ghost use Rattle.run_record.specs.Puts.{names_in};

use std::alloc::{AllocError, Global};
use wire::HostPlan;

/// Returns the names of the wires of these hosts: each name once, in the order in which the names first occur in
/// `plans`. [`bench`](crate::bench) takes sinks for these wires.
///
/// # Errors
///
/// Returns an error only if memory is refused.
pub fn wires<'a>(alloc: Global, plans: &'a [HostPlan]) -> Result<Vec<&'a str>, AllocError>
    ensures names { IfOk result (λ wires. names_in wires.items ≡ wire_names (hosts_of plans.now)) }
    ensures count { IfOk result (λ wires. length wires.items ≡ length (wire_names (hosts_of plans.now))) }
{
    let mut wires = Vec::new(alloc);
    for plan in plans {
        let wire = plan.wire.as_str();
        if wires.as_slice().contains(&wire) {
            continue;
        }
        wires.push(wire)?;
    }
    Ok(wires)
}
