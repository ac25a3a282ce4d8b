// Registers as sets of bits: CTRL, STATUS, RCTL, TCTL, and the causes of ICR, ICS, IMS and IMC. Each type has the names
// of its bits, what a write stores, and tests of one bit.
//
// `bitflag_items!` defines a constant of each name, and the list `FLAGS` of all names and constants. From an
// `impl Flags`, `bitflags` makes the operations on sets of bits, such as `contains` and `from_bits_truncate`. `flags`
// returns the list, and `table` states the same list for contracts. `bits` returns a set as a number, and `set_of` is
// this number in contracts. `from_bits_retain` makes a set of a number, and keeps the bits that have no name. With
// `exact = { ⊤ }`, the contracts of the operations apply to this type.

ghost use Rattle.std.specs.Prelude.{⊤, ◌≡◌, ◌↔◌, [], ◌∷◌, IsTrue, bit_and, codes};
ghost use Rattle.registers.specs.Bits.{HasBit};
ghost use Rattle.registers.specs.Kept.{causes_of, control_mask, receive_control_mask, transmit_control_mask};
ghost use Rattle.registers.specs.Kept.{written_control_mask};
ghost use Rattle.registers.specs.Places.{ctrl_rst, ctrl_slu, rctl_bam, rctl_bsex, rctl_en, rctl_mpe, rctl_upe};
ghost use Rattle.registers.specs.Places.{rctl_vfe, status_lu, tctl_en, tctl_psp};

use bitflags::{Flag, Flags, bitflag_items};

/// Bits of CTRL, the device control register (13.4.1). The field holds the register's 32 bits.
#[derive(Clone, Copy, PartialEq, Eq, Debug)]
pub struct Ctrl(pub u32);

bitflag_items! {
    impl Ctrl: u32 {
        /// Full duplex. The bit is stored, but has no effect.
        const FD = 1 << 0;
        /// Automatic speed detection. The bit is stored, but has no effect.
        const ASDE = 1 << 5;
        /// Set link up.
        const SLU = 1 << 6;
        /// Device reset. A write of 1 resets the adapter, and the bit reads 0.
        const RST = 1 << 26;
        /// VLAN mode. The bit is stored, but has no effect.
        const VME = 1 << 30;
    }
}

impl Flags for Ctrl {
    type Bits = u32;

    ghost exact = { ⊤ };

    ghost table = { (codes "FD", 0x1) ∷ (codes "ASDE", 0x20) ∷ (codes "SLU", 0x40) ∷ (codes "RST", 0x4000000)
        ∷ (codes "VME", 0x40000000) ∷ [] };

    ghost set_of = { λ p. p.0 };

    fn flags<'a>() -> &'a [Flag<Ctrl>] {
        Ctrl::FLAGS
    }

    fn bits(&self) -> u32 {
        self.0
    }

    fn from_bits_retain(bits: u32) -> Ctrl {
        Ctrl(bits)
    }
}

impl Ctrl {
    /// Returns the bits of a word written to CTRL that have a name, including RST, which [`Ctrl::kept`] drops.
    pub fn written(value: u32) -> Ctrl
        ensures { result.0 ≡ bit_and value written_control_mask }
    {
        Ctrl::from_bits_truncate(value)
    }

    /// Returns the value of CTRL after a write of this word, if RST is clear in the word. RST isn't stored: a write
    /// with RST set is a reset ([`Ctrl::resets`]).
    pub fn kept(value: u32) -> Ctrl
        ensures { result.0 ≡ bit_and value control_mask }
    {
        Ctrl::written(value).difference(Ctrl::RST)
    }

    /// Returns whether RST is set, so that a write of this word resets the adapter.
    pub fn resets(self) -> bool
        ensures { IsTrue result ↔ HasBit self.0 ctrl_rst }
    {
        self.contains(Ctrl::RST)
    }

    /// Returns whether SLU is set. While SLU is clear, STATUS shows no link.
    pub fn sets_link_up(self) -> bool
        ensures { IsTrue result ↔ HasBit self.0 ctrl_slu }
    {
        self.contains(Ctrl::SLU)
    }
}

/// Bits of STATUS, the device status register (13.4.2), which is read only. The field holds the register's 32 bits.
#[derive(Clone, Copy, PartialEq, Eq, Debug)]
pub struct Status(pub u32);

bitflag_items! {
    impl Status: u32 {
        /// Full duplex.
        const FD = 1 << 0;
        /// Link up.
        const LU = 1 << 1;
        /// Link speed, a field of two bits.
        const SPEED = 3 << 6;
    }
}

impl Flags for Status {
    type Bits = u32;

    ghost exact = { ⊤ };

    ghost table = { (codes "FD", 0x1) ∷ (codes "LU", 0x2) ∷ (codes "SPEED", 0xC0) ∷ [] };

    ghost set_of = { λ p. p.0 };

    fn flags<'a>() -> &'a [Flag<Status>] {
        Status::FLAGS
    }

    fn bits(&self) -> u32 {
        self.0
    }

    fn from_bits_retain(bits: u32) -> Status {
        Status(bits)
    }
}

impl Status {
    /// Returns whether LU is set.
    pub fn is_link_up(self) -> bool
        ensures { IsTrue result ↔ HasBit self.0 status_lu }
    {
        self.contains(Status::LU)
    }
}

/// Bits of RCTL, the receive control register (13.4.22). The field holds the register's 32 bits.
#[derive(Clone, Copy, PartialEq, Eq, Debug)]
pub struct Rctl(pub u32);

bitflag_items! {
    impl Rctl: u32 {
        /// Receiver enable.
        const EN = 1 << 1;
        /// Unicast promiscuous: accept every individual address.
        const UPE = 1 << 3;
        /// Multicast promiscuous: accept every group address.
        const MPE = 1 << 4;
        /// Long packet reception. The bit is stored, but has no effect.
        const LPE = 1 << 5;
        /// Receive descriptor minimum threshold, a field of two bits. Each value acts as 00, half the ring.
        const RDMTS = 3 << 8;
        /// Multicast offset, a field of two bits.
        const MO = 3 << 12;
        /// Broadcast accept mode.
        const BAM = 1 << 15;
        /// Receive buffer size, a field of two bits.
        const BSIZE = 3 << 16;
        /// VLAN filter enable.
        const VFE = 1 << 18;
        /// Buffer size extension.
        const BSEX = 1 << 25;
        /// Strip the check sequence. The bit is stored, but has no effect, because frames here have no check sequence.
        const SECRC = 1 << 26;
    }
}

impl Flags for Rctl {
    type Bits = u32;

    ghost exact = { ⊤ };

    ghost table = { (codes "EN", 0x2) ∷ (codes "UPE", 0x8) ∷ (codes "MPE", 0x10) ∷ (codes "LPE", 0x20)
        ∷ (codes "RDMTS", 0x300) ∷ (codes "MO", 0x3000) ∷ (codes "BAM", 0x8000) ∷ (codes "BSIZE", 0x30000)
        ∷ (codes "VFE", 0x40000) ∷ (codes "BSEX", 0x2000000) ∷ (codes "SECRC", 0x4000000) ∷ [] };

    ghost set_of = { λ p. p.0 };

    fn flags<'a>() -> &'a [Flag<Rctl>] {
        Rctl::FLAGS
    }

    fn bits(&self) -> u32 {
        self.0
    }

    fn from_bits_retain(bits: u32) -> Rctl {
        Rctl(bits)
    }
}

impl Rctl {
    /// Returns the value of RCTL after a write of this word: the kept bits of the word.
    pub fn kept(value: u32) -> Rctl
        ensures { result.0 ≡ bit_and value receive_control_mask }
    {
        Rctl::from_bits_truncate(value)
    }

    /// Returns whether EN is set: the receiver is enabled.
    pub fn is_enabled(self) -> bool
        ensures { IsTrue result ↔ HasBit self.0 rctl_en }
    {
        self.contains(Rctl::EN)
    }

    /// Returns whether UPE is set: every individual address is accepted.
    pub fn accepts_all_individuals(self) -> bool
        ensures { IsTrue result ↔ HasBit self.0 rctl_upe }
    {
        self.contains(Rctl::UPE)
    }

    /// Returns whether MPE is set: every group address is accepted, including the broadcast address.
    pub fn accepts_all_groups(self) -> bool
        ensures { IsTrue result ↔ HasBit self.0 rctl_mpe }
    {
        self.contains(Rctl::MPE)
    }

    /// Returns whether BAM is set: the broadcast address is accepted. If MPE is set, this address is accepted, too.
    pub fn accepts_broadcast(self) -> bool
        ensures { IsTrue result ↔ HasBit self.0 rctl_bam }
    {
        self.contains(Rctl::BAM)
    }

    /// Returns whether VFE is set: a tagged frame passes only if the VLAN table contains its VLAN number.
    pub fn filters_vlans(self) -> bool
        ensures { IsTrue result ↔ HasBit self.0 rctl_vfe }
    {
        self.contains(Rctl::VFE)
    }

    /// Returns whether BSEX is set. By the manual, BSIZE then selects larger buffers. In this model, RxData is then a
    /// fault.
    pub fn extends_buffer_size(self) -> bool
        ensures { IsTrue result ↔ HasBit self.0 rctl_bsex }
    {
        self.contains(Rctl::BSEX)
    }
}

/// Bits of TCTL, the transmit control register (13.4.33). The field holds the register's 32 bits.
#[derive(Clone, Copy, PartialEq, Eq, Debug)]
pub struct Tctl(pub u32);

bitflag_items! {
    impl Tctl: u32 {
        /// Transmitter enable.
        const EN = 1 << 1;
        /// Pad short packets to 60 bytes.
        const PSP = 1 << 3;
        /// Collision threshold, a field of eight bits. The field is stored, but has no effect.
        const CT = 0xFF << 4;
        /// Collision distance, a field of ten bits. The field is stored, but has no effect.
        const COLD = 0x3FF << 12;
    }
}

impl Flags for Tctl {
    type Bits = u32;

    ghost exact = { ⊤ };

    ghost table = { (codes "EN", 0x2) ∷ (codes "PSP", 0x8) ∷ (codes "CT", 0xFF0) ∷ (codes "COLD", 0x3FF000) ∷ [] };

    ghost set_of = { λ p. p.0 };

    fn flags<'a>() -> &'a [Flag<Tctl>] {
        Tctl::FLAGS
    }

    fn bits(&self) -> u32 {
        self.0
    }

    fn from_bits_retain(bits: u32) -> Tctl {
        Tctl(bits)
    }
}

impl Tctl {
    /// Returns the value of TCTL after a write of this word: the kept bits of the word.
    pub fn kept(value: u32) -> Tctl
        ensures { result.0 ≡ bit_and value transmit_control_mask }
    {
        Tctl::from_bits_truncate(value)
    }

    /// Returns whether EN is set. While EN is clear, no frame is taken from the transmit ring.
    pub fn is_enabled(self) -> bool
        ensures { IsTrue result ↔ HasBit self.0 tctl_en }
    {
        self.contains(Tctl::EN)
    }

    /// Returns whether PSP is set: frames of fewer than 60 bytes are padded.
    pub fn pads_short_packets(self) -> bool
        ensures { IsTrue result ↔ HasBit self.0 tctl_psp }
    {
        self.contains(Tctl::PSP)
    }
}

/// A set of interrupt causes. The bit of a cause has the same place in ICR, ICS, IMS and IMC (13.4.17). The field
/// contains 32 bits, as in these registers.
#[derive(Clone, Copy, PartialEq, Eq, Debug)]
pub struct Cause(pub u32);

bitflag_items! {
    impl Cause: u32 {
        /// Transmit descriptor written back.
        const TXDW = 1 << 0;
        /// Transmit queue empty.
        const TXQE = 1 << 1;
        /// Link status change.
        const LSC = 1 << 2;
        /// Receive descriptor minimum threshold reached.
        const RXDMT0 = 1 << 4;
        /// Receiver overrun.
        const RXO = 1 << 6;
        /// Receiver timer: the adapter is done with the last descriptor of a frame.
        const RXT0 = 1 << 7;
        /// MDI/O access complete.
        const MDAC = 1 << 9;
    }
}

impl Flags for Cause {
    type Bits = u32;

    ghost exact = { ⊤ };

    ghost table = { (codes "TXDW", 0x1) ∷ (codes "TXQE", 0x2) ∷ (codes "LSC", 0x4) ∷ (codes "RXDMT0", 0x10)
        ∷ (codes "RXO", 0x40) ∷ (codes "RXT0", 0x80) ∷ (codes "MDAC", 0x200) ∷ [] };

    ghost set_of = { λ p. p.0 };

    fn flags<'a>() -> &'a [Flag<Cause>] {
        Cause::FLAGS
    }

    fn bits(&self) -> u32 {
        self.0
    }

    fn from_bits_retain(bits: u32) -> Cause {
        Cause(bits)
    }
}

impl Cause {
    /// Returns the causes whose bits are 1 in a written word. The word's other bits are ignored.
    pub fn kept(value: u32) -> Cause
        ensures { result.0 ≡ causes_of value }
    {
        Cause::from_bits_truncate(value)
    }
}
