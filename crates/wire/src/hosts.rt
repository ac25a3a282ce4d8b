// Initialization of all hosts of a plan.

ghost use Rattle.std.specs.Prelude.{◌≡◌, ◌≢◌, ◌<◌, ◌+◌, IfErr, IfOk, OnOk, length};
ghost use Rattle.bring_up.specs.declared.init_error.InitError.TheVariants as InitError;
ghost use Rattle.network_plan.specs.Plans.{HasConfigs};
ghost use Rattle.network_plan.specs.declared.plan_error.PlanError.TheVariants as PlanError;
ghost use Rattle.wire.specs.HostsUp.{AreUp, IsRefusal, ShareWires};
ghost use Rattle.wire.specs.HostsUp as up;

use crate::host::bring_up_host;
use driver::InitError;
use host_calls::Network;
use network_plan::{HostPlan, Plan, PlanError};
use std::alloc::Global;

/// Initializes all hosts of a plan, in order, each with its own adapter and memory. Hosts whose plans name the same
/// wire are on the same wire. The number of a wire is the number of the first host whose plan names it. Each plan must
/// have a valid configuration, and a link that needs at least one PHY tick or is never up (`HasConfigs`).
///
/// # Errors
///
/// [`Memory`](PlanError::Memory) if memory can't be allocated. [`Init`](PlanError::Init) with the number of the first
/// host that can't be initialized: its EEPROM's checksum is wrong, or its link needs more than 2,000 PHY ticks or is
/// never up.
pub fn bring_up(alloc: Global, plan: &Plan) -> Result<Network, PlanError>
    requires { HasConfigs plan.now.hosts.items }
    ensures up { IfOk result (λ network. AreUp plan.now.hosts.items (length plan.now.hosts.items) network.hosts
        network.stations) }
    ensures wires { IfOk result (λ network. ShareWires plan.now.hosts.items network.stations) }
    ensures refuses { IfErr result (IsRefusal plan.now.hosts.items) }
{
    let plans = plan.hosts.as_slice();
    let mut network = Network::new(alloc);
    for number in 0..plans.len() {
        bring_up_one(&mut network, alloc, plans, number)?;
    }
    Ok(network)
}

/// Initializes host `number`, and connects the host to its wire. The network must contain exactly the hosts before this
/// one (`AreUp`). Each plan must have a valid configuration, and a link that needs at least one PHY tick or is never up
/// (`HasConfigs`).
///
/// # Errors
///
/// [`Memory`](PlanError::Memory) if memory can't be allocated. [`Init`](PlanError::Init) with the host's number, as the
/// first host that can't be initialized, because each host before this one was initialized.
fn bring_up_one(
    network: &mut Network,
    alloc: Global,
    plans: &[HostPlan],
    number: usize,
) -> Result<(), PlanError>
    requires there { number < length plans.now }
    requires configs { HasConfigs plans.now }
    requires earlier { AreUp plans.now number network.old.hosts network.old.stations }
    ensures up { OnOk result (AreUp plans.now (number + 1) network.new.hosts network.new.stations) }
    ensures refuses { IfErr result (IsRefusal plans.now) }
{
    let plan = &plans[number];
    let (host, machine) = match bring_up_host(alloc, plan) {
        Ok(made) => made,
        Err(error) => return Err(refusal(number, error)),
    };
    let wire = wire_number(plans, &plan.wire);
    let Ok(()) = network.connect(alloc, host, machine, wire) else {
        return Err(PlanError::Memory);
    };
    Ok(())
}

/// Returns the error of a plan if the initialization of host `number` failed with `error`. Only an error of the host
/// itself, not refused memory, contains the number.
fn refusal(number: usize, error: InitError) -> PlanError
    ensures memory { error ≡ InitError.Memory → result ≡ PlanError.Memory }
    ensures device { error ≢ InitError.Memory → result ≡ PlanError.Init number error }
{
    match error {
        InitError::Memory => PlanError::Memory,
        _ => PlanError::Init(number, error),
    }
}

/// Returns the number of a wire: the number of the first host whose plan names the wire. Returns the number of plans
/// if no plan names the wire.
fn wire_number(plans: &[HostPlan], wire: &String) -> usize
    ensures { result ≡ up.wire_number plans.now wire.now }
{
    plans
        .iter()
        .position(|plan| plan.wire == *wire)
        .unwrap_or(plans.len())
}
