// The kinds of steps of an adapter.

/// The kind of a step. Any number of steps of any kinds may happen between two accesses of a driver.
#[derive(Clone, Copy, Debug, PartialEq, Eq)]
pub enum StepKind {
    /// Copies the frame that the transmit descriptor at TDH points to into the transmit packet buffer, and advances
    /// TDH.
    TxTake,
    /// Puts the oldest frame of the transmit packet buffer onto the wire. Sets DD in the frame's descriptor if RS is
    /// set and the status byte is inside memory.
    TxPut,
    /// Writes the next piece of the oldest frame of the receive packet buffer to the buffer of the receive descriptor
    /// at RDH. A piece has at most the size of that buffer (RCTL.BSIZE).
    RxData,
    /// Writes back the descriptor of the piece in progress, which `RxData` wrote, if the descriptor is inside memory.
    RxDone,
    /// Ends a pending read of the EEPROM.
    EepromTick,
    /// Decreases the PHY's link countdown by 1 if it is running, and then ends a pending command of MDIC.
    PhyTick,
}
