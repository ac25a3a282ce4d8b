// The registers, and the register at an offset.

ghost use Rattle.std.specs.Prelude.{◌≡◌, ◌≢◌, ◌<◌, ◌/◌, ◌%◌, IfSome};

use crate::offsets::*;

/// A register of one of the two descriptor rings.
#[derive(Clone, Copy)]
pub enum RingRegister {
    /// RDBAL, TDBAL: the low word of the ring's address.
    BaseLow,
    /// RDBAH, TDBAH: the high word of the ring's address.
    BaseHigh,
    /// RDLEN, TDLEN: the ring's length in bytes.
    Length,
    /// RDH, TDH: the index of the first descriptor that the adapter owns. If head equals tail, the adapter owns no
    /// descriptor.
    Head,
    /// RDT, TDT: the index of the descriptor after the last one that the adapter owns.
    Tail,
}

/// A register of the adapter (chapter 13).
#[derive(Clone, Copy)]
pub enum Register {
    /// CTRL, device control.
    Ctrl,
    /// STATUS, device status.
    Status,
    /// EERD, EEPROM read.
    Eerd,
    /// MDIC, MDI control.
    Mdic,
    /// VET, VLAN type.
    Vet,
    /// ICR, interrupt cause read.
    Icr,
    /// ICS, interrupt cause set.
    Ics,
    /// IMS, interrupt mask set and read.
    Ims,
    /// IMC, interrupt mask clear.
    Imc,
    /// RCTL, receive control.
    Rctl,
    /// TCTL, transmit control.
    Tctl,
    /// PBA, packet buffer allocation.
    Pba,
    /// A register of the receive descriptor ring.
    Receive(RingRegister),
    /// A register of the transmit descriptor ring.
    Transmit(RingRegister),
    /// MPC, missed packets count.
    Mpc,
    /// GPRC, good packets received count.
    Gprc,
    /// GPTC, good packets transmitted count.
    Gptc,
    /// RNBC, receive no buffers count.
    Rnbc,
    /// MTA, the word with this index, 0 to 127, of the multicast table array.
    Mta(u8),
    /// RAL, receive address low of the entry with this index, 0 to 15.
    Ral(u8),
    /// RAH, receive address high of the entry with this index, 0 to 15.
    Rah(u8),
    /// VFTA, the word with this index, 0 to 127, of the VLAN filter table array.
    Vfta(u8),
}

impl Register {
    ghost use Rattle.adapter_model.specs.Table.{IsInTable, register_at};

    /// Returns the register at an offset in bytes, or `None` if no register is at the offset. An index in the result is
    /// inside its array (`IsInTable`).
    #[tactic(auto, unfolding(crate::specs::Table::register_at, crate::specs::Table::array_register_at))]
    #[inline(always)]
    pub fn at(offset: u32) -> Option<Register>
        ensures register { result ≡ register_at offset }
        ensures in_table { IfSome result IsInTable }
    {
        if offset % REGISTER_BYTES != 0 {
            return None;
        }
        // Indices of array registers are at most 127, so the casts don't change them.
        Some(match offset {
            CTRL => Register::Ctrl,
            STATUS => Register::Status,
            EERD => Register::Eerd,
            MDIC => Register::Mdic,
            VET => Register::Vet,
            ICR => Register::Icr,
            ICS => Register::Ics,
            IMS => Register::Ims,
            IMC => Register::Imc,
            RCTL => Register::Rctl,
            TCTL => Register::Tctl,
            PBA => Register::Pba,
            RDBAL => Register::Receive(RingRegister::BaseLow),
            RDBAH => Register::Receive(RingRegister::BaseHigh),
            RDLEN => Register::Receive(RingRegister::Length),
            RDH => Register::Receive(RingRegister::Head),
            RDT => Register::Receive(RingRegister::Tail),
            TDBAL => Register::Transmit(RingRegister::BaseLow),
            TDBAH => Register::Transmit(RingRegister::BaseHigh),
            TDLEN => Register::Transmit(RingRegister::Length),
            TDH => Register::Transmit(RingRegister::Head),
            TDT => Register::Transmit(RingRegister::Tail),
            MPC => Register::Mpc,
            GPRC => Register::Gprc,
            GPTC => Register::Gptc,
            RNBC => Register::Rnbc,
            MTA..=MTA_LAST => Register::Mta(((offset - MTA) / REGISTER_BYTES) as u8),
            RAL..=RAH_LAST => address_register(offset - RAL),
            VFTA..=VFTA_LAST => Register::Vfta(((offset - VFTA) / REGISTER_BYTES) as u8),
            _ => return None,
        })
    }
}

/// Returns the register `distance` bytes after RAL(0): RAL of entry `distance / 8` if `distance` is a multiple of 8,
/// else RAH of this entry. `distance` must be below 128, the number of bytes of the 16 pairs.
fn address_register(distance: u32) -> Register
    requires { distance < 128 }
    ensures low { distance % 8 ≡ 0 → result ≡ Register.Ral (distance / 8) }
    ensures high { distance % 8 ≢ 0 → result ≡ Register.Rah (distance / 8) }
{
    // The entry is below 16, so the cast doesn't change it.
    let entry = (distance / ADDRESS_PAIR_BYTES) as u8;
    if distance % ADDRESS_PAIR_BYTES == 0 {
        Register::Ral(entry)
    } else {
        Register::Rah(entry)
    }
}
