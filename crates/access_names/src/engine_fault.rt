// Faults of engines.

/// An engine of the adapter.
#[derive(Clone, Copy, Debug, PartialEq, Eq)]
pub enum Engine {
    /// The transmit engine, whose step [`TxTake`](adapter::StepKind::TxTake) may be a fault.
    Transmit,
    /// The receive engine, whose step [`RxData`](adapter::StepKind::RxData) may be a fault.
    Receive,
}

/// Why a step is a fault.
#[derive(Clone, Copy, Debug, PartialEq, Eq)]
pub enum Reason {
    /// The ring has no descriptors, or head or tail isn't the index of a descriptor in the ring.
    Ring,
    /// The descriptor at the head isn't inside memory.
    Descriptor,
    /// DEXT is set in a transmit descriptor: the descriptor has an extended format.
    Dext,
    /// EOP is clear in a transmit descriptor: the packet continues in the next descriptor.
    Eop,
    /// The length in a transmit descriptor is 0 or above 1,518 bytes.
    Length,
    /// The frame to send, or the place of the received piece, isn't inside memory.
    Buffer,
    /// RCTL.BSEX is set: receive buffers have sizes that the adapter doesn't support.
    Bsex,
}

/// A fault of an engine.
#[derive(Clone, Copy, Debug, PartialEq, Eq)]
pub struct EngineFault {
    /// The engine whose step is the fault. This kind of step does nothing until a reset.
    pub engine: Engine,
    /// The head of the engine's ring. This is the index of the descriptor, unless the reason is `Ring`.
    pub index: u32,
    /// The first reason that applies, in the order that `specs/Faults` defines.
    pub reason: Reason,
}
