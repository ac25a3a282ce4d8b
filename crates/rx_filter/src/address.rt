// Ethernet addresses, their register words and group numbers, and the parts of a frame that the filter reads.

ghost use Rattle.std.specs.Prelude.{◌≡◌, ◌+◌, ◌*◌, ◌%◌, ◌≤◌, ◌<◌, ◌↔◌, IsTrue, length};
ghost use Rattle.registers.specs.Places.{alone, rah_av};
ghost use Rattle.registers.specs.ReceiveControl.{shift_of};
ghost use Rattle.rx_filter.specs.Addresses.{destination, IsAddress, IsGroup, broadcast, group_number, low_word};
ghost use Rattle.rx_filter.specs.Addresses.{high_word, ether_type, vlan_number};
ghost use Rattle.rx_filter.specs.Registers.{HasEntry, HoldsAddress};

use crate::filter::RECEIVE_ADDRESSES;
use crate::table::{NUMBERS, has_bit};
use registers::GroupOffset;

/// The broadcast address.
const BROADCAST: [u8; 6] = [0xFF; 6];

/// AV, bit 31 of RAH: the entry is valid.
pub const ADDRESS_VALID: u32 = 1 << 31;

/// The two words of an entry of the receive addresses.
#[derive(Clone, Copy)]
pub struct AddressWords {
    /// RAL: bytes 0 to 3 of the address, the earlier byte the lower one (13.5.2).
    pub low: u32,
    /// RAH: bytes 4 and 5 of the address in bits 15:0, the earlier byte the lower one, and AV in bit 31 (13.5.3).
    pub high: u32,
}

impl AddressWords {
    /// Returns the words of an entry that contains this address, with AV set. The clause `address` is true of each
    /// array of six bytes, and is for the proofs of callers.
    pub fn of(address: &[u8; 6]) -> AddressWords
        ensures low { result.low ≡ low_word address.now }
        ensures high { result.high ≡ high_word address.now + alone rah_av }
        ensures address { IsAddress address.now }
    {
        let [b0, b1, b2, b3, b4, b5] = *address;
        AddressWords {
            low: u32::from_le_bytes([b0, b1, b2, b3]),
            high: u32::from(u16::from_le_bytes([b4, b5])) + ADDRESS_VALID,
        }
    }
}

/// Returns the number of an address in the group table: 12 of the last 16 bits of the address, selected by RCTL.MO
/// (13.5.1 "Multicast Table Array"). The number divided by 32 is the index of a word of the table. The remainder is
/// the place of a bit in this word.
pub fn hash_of(mo: GroupOffset, address: &[u8; 6]) -> u16
    ensures { result ≡ group_number (shift_of mo) address.now }
{
    let last = u16::from_le_bytes([address[4], address[5]]);
    (last >> mo.shift()) % NUMBERS
}

/// Returns the destination of a frame: bytes 0 to 5. The frame has at least 16 bytes, as `Filter::passes` requires.
pub(crate) fn destination_of(frame: &[u8]) -> [u8; 6]
    requires { 16 ≤ length frame.now }
    ensures { result ≡ destination frame.now }
{
    [frame[0], frame[1], frame[2], frame[3], frame[4], frame[5]]
}

/// Returns whether the address is a group address: the low bit of byte 0 is 1.
pub(crate) fn is_group(address: &[u8; 6]) -> bool
    ensures { IsTrue result ↔ IsGroup address.now }
{
    address[0] % 2 == 1
}

/// Returns whether the address is the broadcast address.
pub(crate) fn is_broadcast(address: &[u8; 6]) -> bool
    ensures { IsTrue result ↔ (address.now ≡ broadcast) }
{
    *address == BROADCAST
}

/// Returns whether the entry with these words, RAL and RAH, is valid (AV is set in RAH) and contains this address.
fn holds_address(low: u32, high: u32, address: &[u8; 6]) -> bool
    ensures { IsTrue result ↔ HoldsAddress low high address.now }
{
    let words = AddressWords::of(address);
    // Bits 15:0 of RAH are bytes 4 and 5 of the address, and bit 31 is AV.
    low == words.low && high % 0x1_0000 == words.high % 0x1_0000 && has_bit(high, 31)
}

/// Returns whether one of the 16 entries of RAL and RAH is valid and contains this address.
pub(crate) fn has_entry(
    ral: &[u32; RECEIVE_ADDRESSES],
    rah: &[u32; RECEIVE_ADDRESSES],
    address: &[u8; 6],
) -> bool
    ensures { IsTrue result ↔ HasEntry ral.now rah.now address.now }
{
    for n in 0..RECEIVE_ADDRESSES {
        if holds_address(ral[n], rah[n], address) {
            return true;
        }
    }
    false
}

/// Returns the type of a frame: bytes 12 and 13, the higher one first. The frame has at least 16 bytes, as
/// `Filter::passes` requires.
pub(crate) fn ether_type_of(frame: &[u8]) -> u16
    requires { 16 ≤ length frame.now }
    ensures { result ≡ ether_type frame.now }
{
    u16::from_be_bytes([frame[12], frame[13]])
}

/// Returns the VLAN number of a tagged frame of at least 16 bytes: the low 12 bits of bytes 14 and 15, the higher byte
/// first.
pub(crate) fn vlan_number_of(frame: &[u8]) -> u16
    requires { 16 ≤ length frame.now }
    ensures { result ≡ vlan_number frame.now }
{
    u16::from_be_bytes([frame[14], frame[15]]) % NUMBERS
}
