//! The offsets of the registers, in bytes (chapter 13, "Register Descriptions").
//!
//! In this table, "Kept" are the bits that a write stores and a read returns; the other bits read 0. "Reset" is the
//! value after power-on and, for every register except PBA, after a write of CTRL with RST.
//!
//! | Offset | Register | Kept bits, or rule | Reset |
//! |---|---|---|---|
//! | 0x0000 | CTRL | 0x40000061; RST, bit 26, resets and reads 0 | 0 |
//! | 0x0008 | STATUS | read only: 0x83 while the PHY's link is up and CTRL.SLU is set, else 0 | 0 |
//! | 0x0014 | EERD | reads a word of the EEPROM (crate `eeprom`) | 0 |
//! | 0x0020 | MDIC | reads and writes registers of the PHY (crate `mdic_phy`) | 0 |
//! | 0x0038 | VET | 0x0000FFFF | 0x8100 |
//! | 0x00C0 | ICR | causes 0x2D7; a read clears all causes, a write clears each cause whose bit is written as 1 | 0 |
//! | 0x00C8 | ICS | a write records causes; reads 0 | 0 |
//! | 0x00D0 | IMS | a write adds causes to the mask; reads the mask | 0 |
//! | 0x00D8 | IMC | a write removes causes from the mask; reads 0 | 0 |
//! | 0x0100 | RCTL | 0x0607B33A | 0 |
//! | 0x0400 | TCTL | 0x003FFFFA | 0 |
//! | 0x1000 | PBA | RXA (15:0), an even number from 2 to 48, else ignored; the upper half reads 64 - RXA | 0x00100030 |
//! | 0x2800, 0x3800 | RDBAL, TDBAL | 0xFFFFFFF0 | 0 |
//! | 0x2804, 0x3804 | RDBAH, TDBAH | 0xFFFFFFFF | 0 |
//! | 0x2808, 0x3808 | RDLEN, TDLEN | 0x000FFF80 | 0 |
//! | 0x2810, 0x3810 | RDH, TDH | 0x0000FFFF | 0 |
//! | 0x2818, 0x3818 | RDT, TDT | 0x0000FFFF | 0 |
//! | 0x4010 | MPC | counter: a read clears it, writes are ignored | 0 |
//! | 0x4074 | GPRC | counter | 0 |
//! | 0x4080 | GPTC | counter | 0 |
//! | 0x40A0 | RNBC | counter | 0 |
//! | 0x5200 to 0x53FC | MTA, 128 words | 0xFFFFFFFF | 0 |
//! | 0x5400 + 8n | RAL(n), n 0 to 15 | 0xFFFFFFFF | RAL(0) from words 0 and 1 of the EEPROM, the others 0 |
//! | 0x5404 + 8n | RAH(n), n 0 to 15 | 0x8000FFFF | RAH(0) from word 2 of the EEPROM with bit 31, AV; the others 0 |
//! | 0x5600 to 0x57FC | VFTA, 128 words | 0xFFFFFFFF | 0 |
//!
//! Every other offset, including those that aren't multiples of 4, reads 0 and ignores writes (our choice).

/// The number of bytes of a register.
pub const REGISTER_BYTES: u32 = 4;

/// CTRL, device control (13.4.1).
pub const CTRL: u32 = 0x0000;

/// STATUS, device status (13.4.2).
pub const STATUS: u32 = 0x0008;

/// EERD, EEPROM read (13.4.4).
pub const EERD: u32 = 0x0014;

/// MDIC, MDI control (13.4.7).
pub const MDIC: u32 = 0x0020;

/// VET, VLAN type (13.4.11).
pub const VET: u32 = 0x0038;

/// ICR, interrupt cause read (13.4.17).
pub const ICR: u32 = 0x00C0;

/// ICS, interrupt cause set (13.4.19).
pub const ICS: u32 = 0x00C8;

/// IMS, interrupt mask set and read (13.4.20).
pub const IMS: u32 = 0x00D0;

/// IMC, interrupt mask clear (13.4.21).
pub const IMC: u32 = 0x00D8;

/// RCTL, receive control (13.4.22).
pub const RCTL: u32 = 0x0100;

/// TCTL, transmit control (13.4.33).
pub const TCTL: u32 = 0x0400;

/// PBA, packet buffer allocation (13.4.16).
pub const PBA: u32 = 0x1000;

/// RDBAL, the low word of the receive descriptor base address (13.4.25).
pub const RDBAL: u32 = 0x2800;

/// RDBAH, the high word of the receive descriptor base address (13.4.26).
pub const RDBAH: u32 = 0x2804;

/// RDLEN, receive descriptor length: the ring's length in bytes (13.4.27).
pub const RDLEN: u32 = 0x2808;

/// RDH, receive descriptor head (13.4.28).
pub const RDH: u32 = 0x2810;

/// RDT, receive descriptor tail (13.4.29).
pub const RDT: u32 = 0x2818;

/// TDBAL, the low word of the transmit descriptor base address (13.4.36).
pub const TDBAL: u32 = 0x3800;

/// TDBAH, the high word of the transmit descriptor base address (13.4.37).
pub const TDBAH: u32 = 0x3804;

/// TDLEN, transmit descriptor length: the ring's length in bytes (13.4.38).
pub const TDLEN: u32 = 0x3808;

/// TDH, transmit descriptor head (13.4.39).
pub const TDH: u32 = 0x3810;

/// TDT, transmit descriptor tail (13.4.40).
pub const TDT: u32 = 0x3818;

/// MPC, missed packets count (13.7 "Statistics Registers").
pub const MPC: u32 = 0x4010;

/// GPRC, good packets received count (13.7 "Statistics Registers").
pub const GPRC: u32 = 0x4074;

/// GPTC, good packets transmitted count (13.7 "Statistics Registers").
pub const GPTC: u32 = 0x4080;

/// RNBC, receive no buffers count (13.7 "Statistics Registers").
pub const RNBC: u32 = 0x40A0;

/// MTA, the first of 128 words of the multicast table array (13.5.1).
pub const MTA: u32 = 0x5200;

/// The offset of the last word of MTA.
pub const MTA_LAST: u32 = 0x53FC;

/// RAL(0), receive address low, the first of 16 (13.5.2). RAH(n) is 4 bytes after RAL(n).
pub const RAL: u32 = 0x5400;

/// The offset of RAH(15), the last receive address high (13.5.3).
pub const RAH_LAST: u32 = 0x547C;

/// The number of bytes from one pair of RAL and RAH to the next.
pub const ADDRESS_PAIR_BYTES: u32 = 8;

/// VFTA, the first of 128 words of the VLAN filter table array (13.5.4).
pub const VFTA: u32 = 0x5600;

/// The offset of the last word of VFTA.
pub const VFTA_LAST: u32 = 0x57FC;
