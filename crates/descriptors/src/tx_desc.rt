ghost use Rattle.std.specs.Prelude.{◌≡◌};

use crate::{TxCommand, TxStatus};
use bitflags::Flags;
use byteorder::{ByteOrder, LittleEndian};

/// The number of bytes of a transmit descriptor.
pub const TX_DESC_BYTES: usize = 16;

/// A transmit descriptor of the legacy format (Intel's manual, "3.3.3 Legacy Transmit Descriptor Format"). The
/// descriptor contains the address and length of a frame to be sent (by the manual, also of a part of a frame). It also
/// contains the commands for the adapter, and whether the adapter is done with the descriptor.
#[derive(Clone, Copy, Debug, PartialEq, Eq)]
pub struct TxDesc {
    /// The address of the frame's bytes in the host's memory.
    pub address: u64,
    /// The number of bytes of the frame.
    pub length: u16,
    /// Checksum offset: the index of the byte at which a checksum would be inserted.
    pub cso: u8,
    /// The commands for the adapter.
    pub command: TxCommand,
    /// Whether the adapter is done with the descriptor.
    pub status: TxStatus,
    /// Checksum start: the index of the first byte that a checksum would cover.
    pub css: u8,
    /// VLAN tag information.
    pub special: u16,
}

impl TxDesc {
    ghost use Rattle.descriptors.specs.TxDesc.{tx_desc_bytes, tx_desc_of};

    /// Returns the sixteen bytes of the descriptor in memory: its fields in order, each little-endian.
    #[tactic(auto, unfolding(crate::specs::TxDesc::tx_desc_bytes))]
    pub fn to_bytes(&self) -> [u8; 16]
        ensures { result ≡ tx_desc_bytes self.now }
    {
        let mut bytes = [0; TX_DESC_BYTES];
        LittleEndian::write_u64(&mut bytes, self.address);
        LittleEndian::write_u16(&mut bytes[8..], self.length);
        bytes[10] = self.cso;
        bytes[11] = self.command.bits();
        bytes[12] = self.status.bits();
        bytes[13] = self.css;
        LittleEndian::write_u16(&mut bytes[14..], self.special);
        bytes
    }

    /// Returns the descriptor that these bytes in memory encode.
    #[tactic(auto, unfolding(crate::specs::TxDesc::tx_desc_of))]
    pub fn from_bytes(bytes: &[u8; 16]) -> TxDesc
        ensures { result ≡ tx_desc_of bytes.now }
    {
        TxDesc {
            address: LittleEndian::read_u64(bytes),
            length: LittleEndian::read_u16(&bytes[8..]),
            cso: bytes[10],
            command: TxCommand::from_bits_retain(bytes[11]),
            status: TxStatus::from_bits_retain(bytes[12]),
            css: bytes[13],
            special: LittleEndian::read_u16(&bytes[14..]),
        }
    }
}
