// Names of registers.

ghost use Rattle.std.specs.Prelude.{◌≡◌};
ghost use Rattle.access_names.specs.Names.{array_index, manual_name};

use adapter::{Register, RingRegister};

/// Returns the manual's name of a register, or of the array that contains the register.
pub(crate) fn name_of(register: Register) -> &'static str
    ensures { result.now ≡ manual_name register }
{
    match register {
        Register::Ctrl => "CTRL",
        Register::Status => "STATUS",
        Register::Eerd => "EERD",
        Register::Mdic => "MDIC",
        Register::Vet => "VET",
        Register::Icr => "ICR",
        Register::Ics => "ICS",
        Register::Ims => "IMS",
        Register::Imc => "IMC",
        Register::Rctl => "RCTL",
        Register::Tctl => "TCTL",
        Register::Pba => "PBA",
        Register::Receive(RingRegister::BaseLow) => "RDBAL",
        Register::Receive(RingRegister::BaseHigh) => "RDBAH",
        Register::Receive(RingRegister::Length) => "RDLEN",
        Register::Receive(RingRegister::Head) => "RDH",
        Register::Receive(RingRegister::Tail) => "RDT",
        Register::Transmit(RingRegister::BaseLow) => "TDBAL",
        Register::Transmit(RingRegister::BaseHigh) => "TDBAH",
        Register::Transmit(RingRegister::Length) => "TDLEN",
        Register::Transmit(RingRegister::Head) => "TDH",
        Register::Transmit(RingRegister::Tail) => "TDT",
        Register::Mpc => "MPC",
        Register::Gprc => "GPRC",
        Register::Gptc => "GPTC",
        Register::Rnbc => "RNBC",
        Register::Mta(_) => "MTA",
        Register::Ral(_) => "RAL",
        Register::Rah(_) => "RAH",
        Register::Vfta(_) => "VFTA",
    }
}

/// Returns the number of a register in its array, from 0, or `None` if the register isn't part of an array.
pub(crate) fn index_of(register: Register) -> Option<u8>
    ensures { result ≡ array_index register }
{
    match register {
        Register::Mta(index)
        | Register::Ral(index)
        | Register::Rah(index)
        | Register::Vfta(index) => Some(index),
        _ => None,
    }
}
