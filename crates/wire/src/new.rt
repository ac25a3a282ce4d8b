// Networks that are made by a plan.

ghost use Rattle.wire.specs.NewNetworks.{IsLanAnswer};

use crate::Lan;
use crate::hosts::bring_up;
use network_plan::{Plan, PlanError};
use std::alloc::Global;

impl Lan {
    /// Makes a network by a plan: initializes its hosts in order, one at a time. Before each access of an
    /// initialization, the host's EEPROM and its PHY take a step. A host's memory has exactly the size of its rings and
    /// buffers. After this call only [`run`](Lan::run), the observer of a [`play`](Lan::play), and a reset allocate
    /// memory.
    ///
    /// # Errors
    ///
    /// Those of [`Plan::check`], before any memory is allocated. Otherwise [`Memory`](PlanError::Memory), or
    /// [`Init`](PlanError::Init) with the number of the first host that can't be initialized: its EEPROM's checksum is
    /// wrong, or its link needs more than 2,000 PHY ticks or is never up.
    pub fn new(alloc: Global, plan: &Plan) -> Result<Lan, PlanError>
        ensures { IsLanAnswer plan.now.hosts.items result }
    {
        plan.check()?;
        let network = bring_up(alloc, plan)?;
        Ok(Lan {
            alloc,
            network,
            given: [0; 1518],
        })
    }
}
