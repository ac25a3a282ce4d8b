// How a driver sends frames.

ghost use Rattle.std.specs.Prelude.{◌≡◌, ◌↔◌, ◌+◌, ◌<◌, ◌≤◌, true, Err, length, slice_index};
ghost use Rattle.std.specs.Bool.{OnFalse, OnTrue};
ghost use Rattle.registers.specs.Bits.{is_set};
ghost use Rattle.dma_memory.specs.Layout.{descriptor_bytes, size_of};
ghost use Rattle.descriptors.specs.Frames.{longest_frame, shortest_sent};
ghost use Rattle.descriptors.specs.TxFields.{tx_dd};
ghost use Rattle.adapter.specs.Keeping.{Keeps};
ghost use Rattle.adapter.specs.Calls.{Ran, WhereUp, at, whole_descriptor};
ghost use Rattle.adapter.specs.DriverState.{transmit_slot, transmit_tail};
ghost use Rattle.driver.specs.ErrorTexts.{send_error_text};
ghost use Rattle.driver.specs.SendSteps.{FreesOldest, HasWrongLength, LooksBack, Transmits};
ghost use Rattle.driver.specs.SendSteps.{sent_now, sent_status_offset, with_transmit_slots};

use crate::Driver;
use adapter::Bus;
use adapter::offsets::TDT;
use bitflags::Flags;
use descriptors::{
    LONGEST_SENDABLE, SHORTEST_SENDABLE, TX_DESC_BYTES, TxCommand, TxDesc, TxStatus,
};
use dma_memory::{DESCRIPTOR_BYTES, Layout};
use thiserror::Error;

/// The reason why a frame isn't sent.
#[derive(Clone, Copy, Debug, PartialEq, Eq, Error)]
#[error("{}", self.text())]
pub enum SendError {
    /// The frame has fewer than 14 bytes.
    TooShort,
    /// The frame has more than 1,518 bytes.
    TooLong,
    /// All slots except one are outstanding, after the call has freed the oldest slots whose descriptors have DD. If
    /// the bus obeys the law, and the driver is ready with its transmit side set up, no outstanding slot is written
    /// back.
    RingFull,
}

impl SendError {
    /// Returns the code and the name of the error, which are also its message.
    pub fn text(self) -> &'static str
        ensures { result.now ≡ send_error_text self }
    {
        match self {
            SendError::TooShort => "E20 TooShort",
            SendError::TooLong => "E21 TooLong",
            SendError::RingFull => "E22 RingFull",
        }
    }
}

/// Returns the address of a transmit slot's descriptor. The ring must have this slot. Then the descriptor is inside the
/// layout (`below_size`).
fn descriptor_address(layout: Layout, slot: u16) -> u64
    requires { slot < layout.tx }
    ensures start { result ≡ transmit_slot layout slot }
    ensures below_size { result + descriptor_bytes ≤ size_of layout }
{
    layout.transmit_ring() + DESCRIPTOR_BYTES * u64::from(slot)
}

/// Returns whether a transmit descriptor has DD: the slot is written back.
fn shows_done(bytes: &[u8; TX_DESC_BYTES]) -> bool
    ensures { result ≡ is_set (slice_index bytes.now sent_status_offset) tx_dd }
{
    TxDesc::from_bytes(bytes).status.contains(TxStatus::DD)
}

/// Returns the transmit descriptor of a whole frame of `size` bytes, in one buffer at the address `buffer`. The
/// descriptor has EOP, IFCS (insert the frame check sequence) and RS (report status).
fn whole_descriptor(buffer: u64, size: u16) -> [u8; TX_DESC_BYTES]
    ensures { result ≡ whole_descriptor buffer size }
{
    TxDesc {
        address: buffer,
        length: size,
        cso: 0,
        command: TxCommand::EOP.union(TxCommand::IFCS).union(TxCommand::RS),
        status: TxStatus::empty(),
        css: 0,
        special: 0,
    }
    .to_bytes()
}

impl Driver {
    /// Loads the descriptor of the oldest outstanding transmit slot, and frees this slot if the descriptor has DD. If
    /// no transmit slot is outstanding, there is no access. Returns whether a slot was freed. For a ready driver over a
    /// bus that obeys the law, `false` means that no outstanding slot is written back.
    fn free_oldest<B: Bus>(&mut self, bus: &mut B) -> bool
        requires memory { size_of self.old.layout ≤ B.extent bus.old }
        ensures keeps { Keeps B.Bus bus.old bus.new }
        ensures freed { OnTrue result (FreesOldest self.old self.new) }
        ensures stays { OnFalse result (self.new ≡ self.old) }
        ensures looks { WhereUp B.Bus (at bus.old self.old) (at bus.new self.new) (LooksBack B.Bus result) }
    {
        if self.sending == 0 {
            return false;
        }
        let mut bytes = [0; TX_DESC_BYTES];
        bus.load(
            descriptor_address(self.layout, self.oldest_transmit),
            &mut bytes,
        );
        if !shows_done(&bytes) {
            return false;
        }
        self.oldest_transmit = (self.oldest_transmit + 1) % self.layout.tx();
        self.sending -= 1;
        true
    }

    /// Sends a frame of 14 to 1,518 bytes in the slot after the outstanding slots. Stores the frame's bytes into the
    /// slot's buffer, then the slot's descriptor, and then writes TDT. At least two transmit slots must be free: one
    /// for the frame, and one because the slots of a ring are never all outstanding.
    fn send<B: Bus>(&mut self, bus: &mut B, frame: &[u8])
        requires memory { size_of self.old.layout ≤ B.extent bus.old }
        requires room { self.old.sending + 1 < self.old.layout.tx }
        requires least { shortest_sent ≤ length frame.now }
        requires most { length frame.now ≤ longest_frame }
        ensures keeps { Keeps B.Bus bus.old bus.new }
        ensures others { self.new ≡ with_transmit_slots self.old self.old.oldest_transmit (self.old.sending + 1) }
        ensures sends { WhereUp B.Bus (at bus.old self.old) (at bus.new self.new)
            (Ran B.Bus true (sent_now self.old frame.now)) }
    {
        let layout = self.layout;
        let buffer = layout.transmit_buffer(self.next_transmit);
        // The length is at most 1,518 bytes, so it fits into `u16`.
        let descriptor = whole_descriptor(buffer, frame.len() as u16);
        bus.store(buffer, frame);
        bus.store(descriptor_address(layout, self.next_transmit), &descriptor);
        self.next_transmit = (self.next_transmit + 1) % layout.tx();
        self.sending += 1;
        bus.write(TDT, u32::from(self.next_transmit));
    }

    /// Sends a frame of 14 to 1,518 bytes.
    ///
    /// First the call frees the oldest transmit slots whose descriptors have DD, by one load each. If outstanding slots
    /// remain, the descriptor of the oldest remaining slot is loaded, too. Then the call stores the frame and its
    /// descriptor, and writes TDT. `bus` must have at least `layout().size()` bytes.
    ///
    /// # Errors
    ///
    /// E20 [`TooShort`](SendError::TooShort) if the frame has fewer than 14 bytes, E21 [`TooLong`](SendError::TooLong)
    /// if the frame has more than 1,518 bytes; both without an access. E22 [`RingFull`](SendError::RingFull) only if
    /// all slots of the transmit ring except one are still outstanding after the call has freed slots whose descriptors
    /// have DD. If the bus obeys the law and the driver is ready with its transmit side set up, a call that returns E22
    /// makes exactly one load, and the driver is unchanged.
    pub fn transmit<B: Bus>(&mut self, bus: &mut B, frame: &[u8]) -> Result<(), SendError>
        requires memory { size_of self.old.layout ≤ B.extent bus.old }
        ensures keeps { Keeps B.Bus bus.old bus.new }

        // Over any bus.
        ensures others { self.new ≡ with_transmit_slots self.old self.new.oldest_transmit self.new.sending }
        ensures too_short { (result ≡ Err SendError.TooShort) ↔ (length frame.now < shortest_sent) }
        ensures too_long { (result ≡ Err SendError.TooLong) ↔ (longest_frame < length frame.now) }
        ensures nothing { HasWrongLength result → (bus.new ≡ bus.old) × (self.new ≡ self.old) }
        ensures full { result ≡ Err SendError.RingFull → self.new.sending + 1 ≡ self.new.layout.tx }

        // Over a bus that obeys the law.
        ensures transmits { Transmits B.Bus frame.now result (at bus.old self.old) (at bus.new self.new) }
    {
        if frame.len() < SHORTEST_SENDABLE {
            return Err(SendError::TooShort);
        }
        if frame.len() > LONGEST_SENDABLE {
            return Err(SendError::TooLong);
        }
        while self.free_oldest(bus) {}
        if self.sending + 1 == self.layout.tx() {
            return Err(SendError::RingFull);
        }
        self.send(bus, frame);
        Ok(())
    }
}
