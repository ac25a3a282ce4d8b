// The bytes of flags in descriptors: the status of both kinds of descriptors, and the command of a transmit descriptor.
// These bytes come from memory, so bits that have no name here are kept, too. `registers/src/bits.rt` explains the
// parts of an `impl Flags`.

ghost use Rattle.std.specs.Prelude.{⊤, [], ◌∷◌, codes};

use bitflags::{Flag, Flags, bitflag_items};

/// The status byte of a receive descriptor (Intel's manual, "3.2.3.1 Receive Descriptor Status Field").
#[derive(Clone, Copy, PartialEq, Eq, Debug)]
pub struct RxStatus(u8);

bitflag_items! {
    impl RxStatus: u8 {
        /// Descriptor done: the adapter is done with the descriptor, and the bytes received are in its buffer.
        const DD = 1 << 0;
        /// End of packet: the buffer contains the end of its packet.
        const EOP = 1 << 1;
    }
}

impl Flags for RxStatus {
    type Bits = u8;

    ghost exact = { ⊤ };

    ghost table = { (codes "DD", 0x01) ∷ (codes "EOP", 0x02) ∷ [] };

    ghost set_of = { λ status. status.0 };

    /// Returns the bits that have names here, in the order of `bitflag_items!`.
    fn flags<'a>() -> &'a [Flag<RxStatus>] {
        RxStatus::FLAGS
    }

    /// Returns the byte as a number.
    fn bits(&self) -> u8 {
        self.0
    }

    /// Returns the byte with these bits, also with bits that have no name here.
    fn from_bits_retain(bits: u8) -> RxStatus {
        RxStatus(bits)
    }
}

/// The command byte of a transmit descriptor (Intel's manual, "3.3.3.1 Transmit Descriptor Command Field Format").
#[derive(Clone, Copy, PartialEq, Eq, Debug)]
pub struct TxCommand(u8);

bitflag_items! {
    impl TxCommand: u8 {
        /// End of packet: the buffer contains the end of its packet.
        const EOP = 1 << 0;
        /// Insert FCS: the adapter appends the check sequence.
        const IFCS = 1 << 1;
        /// Report status: the adapter sets DD in the descriptor's status after the packet is on the wire (the time is
        /// our choice).
        const RS = 1 << 3;
        /// Descriptor extension: the descriptor has one of the extended formats.
        const DEXT = 1 << 5;
    }
}

impl Flags for TxCommand {
    type Bits = u8;

    ghost exact = { ⊤ };

    ghost table = { (codes "EOP", 0x01) ∷ (codes "IFCS", 0x02) ∷ (codes "RS", 0x08) ∷ (codes "DEXT", 0x20) ∷ [] };

    ghost set_of = { λ command. command.0 };

    /// Returns the bits that have names here, in the order of `bitflag_items!`.
    fn flags<'a>() -> &'a [Flag<TxCommand>] {
        TxCommand::FLAGS
    }

    /// Returns the byte as a number.
    fn bits(&self) -> u8 {
        self.0
    }

    /// Returns the byte with these bits, also with bits that have no name here.
    fn from_bits_retain(bits: u8) -> TxCommand {
        TxCommand(bits)
    }
}

/// The status byte of a transmit descriptor. The low four bits of the byte are the status (Intel's manual, "3.3.3.2
/// Transmit Descriptor Status Field Format").
#[derive(Clone, Copy, PartialEq, Eq, Debug)]
pub struct TxStatus(u8);

bitflag_items! {
    impl TxStatus: u8 {
        /// Descriptor done: the adapter is done with the descriptor. Its packet is on the wire (the time is our
        /// choice).
        const DD = 1 << 0;
    }
}

impl Flags for TxStatus {
    type Bits = u8;

    ghost exact = { ⊤ };

    ghost table = { (codes "DD", 0x01) ∷ [] };

    ghost set_of = { λ status. status.0 };

    /// Returns the bits that have names here, in the order of `bitflag_items!`.
    fn flags<'a>() -> &'a [Flag<TxStatus>] {
        TxStatus::FLAGS
    }

    /// Returns the byte as a number.
    fn bits(&self) -> u8 {
        self.0
    }

    /// Returns the byte with these bits, also with bits that have no name here.
    fn from_bits_retain(bits: u8) -> TxStatus {
        TxStatus(bits)
    }
}
