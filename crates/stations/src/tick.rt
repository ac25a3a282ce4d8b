// The ticks of a schedule.

use adapter::StepKind;

/// A tick: one item of a schedule, which is played on the stations of a network.
#[derive(Clone, Copy, Debug, PartialEq, Eq)]
pub enum Tick {
    /// The next access of the call, if there is one, is made at this point. Outside a call, `Go` does nothing.
    Go,
    /// The adapter of this host takes a step.
    Step(usize, StepKind),
    /// The oldest frame that waits at this host's end of its wire, if there is one, is delivered to the host's adapter.
    Deliver(usize),
}
