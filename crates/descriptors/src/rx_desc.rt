ghost use Rattle.std.specs.Prelude.{◌≡◌};

use crate::RxStatus;
use bitflags::Flags;
use byteorder::{ByteOrder, LittleEndian};

/// The number of bytes of a receive descriptor.
pub const RX_DESC_BYTES: usize = 16;

/// A receive descriptor: the address of a receive buffer, and what the adapter reports about the bytes that it wrote
/// there (Intel's manual, "3.2.3 Receive Descriptor Format").
#[derive(Clone, Copy, Debug, PartialEq, Eq)]
pub struct RxDesc {
    /// The address of the buffer in the host's memory.
    pub address: u64,
    /// The number of bytes that the adapter wrote into the buffer.
    pub length: u16,
    /// The packet checksum.
    pub checksum: u16,
    /// DD: whether the adapter is done with the descriptor. EOP: whether the packet ends in the descriptor's buffer.
    pub status: RxStatus,
    /// The error bits; 0 if there was no error.
    pub errors: u8,
    /// VLAN tag information.
    pub special: u16,
}

impl RxDesc {
    ghost use Rattle.descriptors.specs.RxDesc.{rx_desc_bytes, rx_desc_of};

    /// Returns the sixteen bytes of the descriptor in memory: its fields in order, each little-endian.
    #[tactic(auto, unfolding(crate::specs::RxDesc::rx_desc_bytes))]
    pub fn to_bytes(&self) -> [u8; 16]
        ensures { result ≡ rx_desc_bytes self.now }
    {
        let mut bytes = [0; RX_DESC_BYTES];
        LittleEndian::write_u64(&mut bytes, self.address);
        LittleEndian::write_u16(&mut bytes[8..], self.length);
        LittleEndian::write_u16(&mut bytes[10..], self.checksum);
        bytes[12] = self.status.bits();
        bytes[13] = self.errors;
        LittleEndian::write_u16(&mut bytes[14..], self.special);
        bytes
    }

    /// Returns the descriptor that these bytes in memory encode.
    #[tactic(auto, unfolding(crate::specs::RxDesc::rx_desc_of))]
    pub fn from_bytes(bytes: &[u8; 16]) -> RxDesc
        ensures { result ≡ rx_desc_of bytes.now }
    {
        RxDesc {
            address: LittleEndian::read_u64(bytes),
            length: LittleEndian::read_u16(&bytes[8..]),
            checksum: LittleEndian::read_u16(&bytes[10..]),
            status: RxStatus::from_bits_retain(bytes[12]),
            errors: bytes[13],
            special: LittleEndian::read_u16(&bytes[14..]),
        }
    }
}
