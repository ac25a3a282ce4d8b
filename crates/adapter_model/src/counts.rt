// The statistics registers of an adapter, and the numbers of frames in its packet buffers.

use crate::Adapter;
use registers::Counter;

/// The values of an adapter's statistics registers. Each register counts since its last read or the last reset (13.7
/// "Statistics Registers").
#[derive(Clone, Copy)]
pub struct FrameCounts {
    /// MPC: frames that were missed because the receive packet buffer had no room.
    pub missed: u32,
    /// RNBC: frames that were stored or missed while RDH equaled RDT, so that no descriptor was offered.
    pub without_descriptor: u32,
    /// GPRC: frames that were received, each counted by the `RxDone` of its last piece.
    pub received: u32,
    /// GPTC: frames that were transmitted, each counted when it is put onto the wire.
    pub transmitted: u32,
}

/// The numbers of frames in the two packet buffers of an adapter.
#[derive(Clone, Copy)]
pub struct WaitingFrames {
    /// The number of frames in the receive packet buffer. A frame is counted until its last piece is written to
    /// memory.
    pub received: u16,
    /// The number of frames in the transmit packet buffer: these frames were taken from the ring, and aren't on the
    /// wire yet.
    pub transmit: u8,
}

impl Adapter {
    ghost use Rattle.std.specs.Prelude.{◌≡◌, length};
    ghost use Rattle.adapter_model.specs.State.{IsAdapter};

    /// Returns the values of the statistics registers. Unlike a driver's read, this call clears no register.
    pub fn counts(&self) -> FrameCounts
        ensures missed { result.missed ≡ self.now.missed_packets }
        ensures without_descriptor { result.without_descriptor ≡ self.now.no_receive_buffers }
        ensures received { result.received ≡ self.now.received_packets }
        ensures transmitted { result.transmitted ≡ self.now.transmitted_packets }
    {
        FrameCounts {
            missed: self.file.mpc.value(),
            without_descriptor: self.file.rnbc.value(),
            received: self.file.gprc.value(),
            transmitted: self.file.gptc.value(),
        }
    }

    /// Returns the numbers of frames in the two packet buffers.
    pub fn waiting(&self) -> WaitingFrames
        ensures received { result.received ≡ length self.now.receiver.buffer }
        ensures transmit { result.transmit ≡ length self.now.transmitter.buffer }
    {
        WaitingFrames {
            received: self.receiver.buffered(),
            transmit: self.transmitter.len(),
        }
    }

    /// Sets MPC to `count`, and changes nothing else. A test uses this call to set MPC close to 0xFFFF_FFFF, at which
    /// MPC saturates.
    pub fn set_missed(&mut self, count: u32)
        ensures state { self.new ≡ record self.old { missed_packets = count } }
        ensures adapter { IsAdapter self.new }
    {
        self.file.mpc = Counter::at(count);
    }
}
