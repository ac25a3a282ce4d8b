// Outcomes of steps and deliveries.

use rx_engine::Fate;
use std::alloc::AllocError;

/// The outcome of a step of an adapter, or of a delivery to it.
///
/// `F` is the type of the frame in an outcome. It is `()` for a call that copies no frame, such as
/// [`step_unframed`](crate::Adapter::step_unframed). Contracts compare outcomes with the bytes of the frame
/// (`FrameOutcome`), which `framed` adds to an outcome without a frame.
#[derive(Debug, Drop, PartialEq, Eq)]
pub enum Outcome<F> {
    /// A frame was copied from memory into the transmit packet buffer, and TDH advanced.
    Took,
    /// This frame was put onto the wire.
    Put(F),
    /// The wire has no room for the oldest frame of the transmit packet buffer. Neither the adapter nor memory changed.
    WireFull,
    /// A piece of a received frame was written to memory, and more pieces of the frame follow. The piece's descriptor
    /// isn't written back yet.
    Part,
    /// The last piece of a received frame was written to memory. The piece's descriptor isn't written back yet.
    Moved,
    /// The adapter is done with a receive descriptor. The descriptor was written back, if it is inside memory.
    Done,
    /// This frame arrived at the adapter from the wire, and had this fate.
    Delivered(F, Fate),
    /// A tick ended a read of the EEPROM, or changed the PHY or MDIC.
    Ticked,
    /// The step or the delivery had nothing to do, and changed nothing.
    Nothing,
    /// `TxTake` or `RxData` can't use the ring, the descriptor, or the memory that the descriptor points to. For
    /// `RxData`, this is also the outcome if there is a piece to move while RCTL.BSEX is set. Memory and the registers
    /// of the rings are unchanged. Later steps of the same kind return `Nothing` until a write of CTRL with RST.
    Fault,
}

impl<F: Copy> Copy for Outcome<F> {}

impl<F: Copy> Clone for Outcome<F> {
    ghost use Rattle.std.specs.Prelude.{⊤, ◌≡◌};

    ghost is_clone = { λ outcome copy. copy ≡ outcome };

    ghost is_infallible = { λ _. ⊤ };

    /// Returns a copy of the outcome. The call never fails.
    fn clone(&self) -> Result<Outcome<F>, AllocError> {
        Ok(*self)
    }
}

impl<F> Outcome<F> {
    ghost use Rattle.std.specs.Prelude.{◌≡◌};
    ghost use Rattle.adapter_model.specs.Outcomes.{with_frame};

    /// Returns the same outcome, but with `frame` in place of the frame in `Put` and `Delivered`.
    pub fn with_frame<G>(self, frame: G) -> Outcome<G>
    where
        F: Drop,
        G: Drop,
        ensures { result ≡ with_frame frame self }
    {
        match self {
            Outcome::Took => Outcome::Took,
            Outcome::Put(_) => Outcome::Put(frame),
            Outcome::WireFull => Outcome::WireFull,
            Outcome::Part => Outcome::Part,
            Outcome::Moved => Outcome::Moved,
            Outcome::Done => Outcome::Done,
            Outcome::Delivered(_, fate) => Outcome::Delivered(frame, fate),
            Outcome::Ticked => Outcome::Ticked,
            Outcome::Nothing => Outcome::Nothing,
            Outcome::Fault => Outcome::Fault,
        }
    }
}
