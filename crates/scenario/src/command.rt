// A scenario and its commands.

use crate::call::Call;
use crate::tick_word::host_named;
use network_plan::{HostPlan, Plan};
use stations::Tick;

/// A command of a scenario.
#[derive(Drop)]
pub enum Command {
    /// A call of a host.
    Call {
        /// The number of the host, from 0 in the order of the plan.
        host: usize,
        /// What the host is asked to do.
        call: Call,
        /// The ticks that are played during the call.
        ticks: Vec<Tick>,
    },
    /// A tick outside a call.
    Tick(Tick),
    /// For each frame of a trace, the events by which a host sends the frame, and the other hosts on its wire receive
    /// the frame.
    Feed {
        /// The number of the sending host, from 0 in the order of the plan.
        host: usize,
        /// The trace: the index of its name in [`trace_names`](Scenario::trace_names), from 0.
        trace: usize,
    },
    /// Events drawn at random.
    Auto {
        /// The number of events.
        count: u32,
        /// The seed of the random generator.
        start: u64,
    },
    /// A host is drained: its sockets return all frames that the host holds for them.
    Drain {
        /// The number of the host, from 0 in the order of the plan.
        host: usize,
    },
}

/// A scenario, read from its text.
#[derive(Drop)]
pub struct Scenario {
    /// The hosts and their wires.
    pub plan: Plan,
    /// The commands, in order.
    pub commands: Vec<Command>,
    /// The number of each command's line, from 1, in the order of the commands.
    pub(crate) lines: Vec<u64>,
    /// The names of the traces to feed, one for each `feed` line, in order.
    pub(crate) traces: Vec<String>,
}

impl Scenario {
    ghost use Rattle.std.specs.Prelude.{◌≡◌};
    ghost use Rattle.scenario.specs.SoFar.{host_place, so_far};

    /// Returns the hosts of the plan, in order.
    pub(crate) fn hosts(&self) -> &[HostPlan]
        ensures { result.now ≡ self.now.plan.hosts.items }
    {
        self.plan.hosts.as_slice()
    }

    /// Returns the number of the first host with this name; `None` if there is no such host.
    pub(crate) fn host_named(&self, name: &str) -> Option<usize>
        ensures { result ≡ host_place name.now (so_far self.now).hosts }
    {
        host_named(self.hosts(), name)
    }

    /// Returns the number of the line of each command, from 1, in order.
    pub fn command_lines(&self) -> &[u64]
        ensures { result.now ≡ self.now.lines.items }
    {
        self.lines.as_slice()
    }

    /// Returns the names of the traces to feed, one for each `feed` line, in order.
    pub fn trace_names(&self) -> &[String]
        ensures { result.now ≡ self.now.traces.items }
    {
        self.traces.as_slice()
    }
}
