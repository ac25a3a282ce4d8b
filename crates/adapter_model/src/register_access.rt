// Accesses of the registers that a reset sets.

ghost use Rattle.std.specs.Prelude.{◌≡◌, ◌≢◌, IfSome, Some};
ghost use Rattle.adapter_model.specs.Hashed.{file_of};
ghost use Rattle.adapter_model.specs.Registers.{answer_of, left_by_read, left_without_reset};
ghost use Rattle.adapter_model.specs.State.{AdapterState};
ghost use Rattle.adapter_model.specs.Table.{IsInTable};
ghost use Rattle.adapter_model.specs.View.{with_file};

use crate::register::Register;
use crate::register_file::RegisterFile;
use bitflags::Flags;
use registers::{Ctrl, Tctl};

/// The bits of VET that a write stores and a read returns.
const VLAN_TYPE_BITS: u32 = 0xFFFF;

// In contracts, `with_file file rest` is an adapter with this register file, and `file_of` is the file of an adapter.
// `rest` stands for the adapter's other parts: a clause that binds `rest` holds whatever they are.
impl RegisterFile {
    /// Returns the value of a register, or 0 for `None`, ICS, IMC, STATUS and PBA. STATUS and PBA aren't in the
    /// register file: `Adapter` reads them, and the clause doesn't cover them. An index in `register` must be inside
    /// its array.
    #[inline(always)]
    pub(crate) fn value(&self, register: Option<Register>) -> u32
        requires { IfSome register IsInTable }
        ensures answer { register ≢ Some Register.Status → register ≢ Some Register.Pba
            → (rest : AdapterState) → result ≡ answer_of register (with_file self.now rest) }
    {
        let Some(register) = register else {
            return 0;
        };
        match register {
            Register::Ctrl => self.ctrl.bits(),
            Register::Eerd => self.eerd.read(),
            Register::Mdic => self.mdic.read(),
            Register::Vet => u32::from(self.filter.vet()),
            Register::Icr => self.causes.recorded(),
            Register::Ims => self.causes.masked(),
            Register::Ics | Register::Imc | Register::Status | Register::Pba => 0,
            Register::Rctl => self.filter.rctl().bits(),
            Register::Tctl => self.tctl.bits(),
            Register::Receive(part) => self.receive_ring.read(part),
            Register::Transmit(part) => self.transmit_ring.read(part),
            Register::Mpc => self.mpc.value(),
            Register::Gprc => self.gprc.value(),
            Register::Gptc => self.gptc.value(),
            Register::Rnbc => self.rnbc.value(),
            Register::Mta(word) => self.filter.mta(usize::from(word)),
            Register::Ral(entry) => self.filter.ral(usize::from(entry)),
            Register::Rah(entry) => self.filter.rah(usize::from(entry)),
            Register::Vfta(word) => self.filter.vfta(usize::from(word)),
        }
    }

    /// Reads a register and returns its value, or 0 for `None`, ICS, IMC, STATUS and PBA. STATUS and PBA aren't in the
    /// register file: `Adapter` reads them, and the clause `answer` doesn't cover them. A read of ICR or of a counter
    /// clears the register. An index in `register` must be inside its array.
    #[inline(always)]
    pub(crate) fn read(&mut self, register: Option<Register>) -> u32
        requires { IfSome register IsInTable }
        ensures answer { register ≢ Some Register.Status → register ≢ Some Register.Pba
            → (rest : AdapterState) → result ≡ answer_of register (with_file self.old rest) }
        ensures file { (rest : AdapterState) → self.new ≡ file_of (left_by_read register (with_file self.old rest)) }
    {
        match register {
            Some(Register::Icr) => self.causes.read(),
            Some(Register::Mpc) => self.mpc.read(),
            Some(Register::Gprc) => self.gprc.read(),
            Some(Register::Gptc) => self.gptc.read(),
            Some(Register::Rnbc) => self.rnbc.read(),
            _ => self.value(register),
        }
    }

    /// Writes a register: stores the kept bits of its row in the table of offsets, or applies the row's other rule. A
    /// write of CTRL ignores RST. A write of STATUS, of PBA or of a counter changes nothing, and neither does `None`.
    /// An index in `register` must be inside its array.
    #[inline(always)]
    pub(crate) fn write(&mut self, register: Option<Register>, value: u32)
        requires { IfSome register IsInTable }
        ensures { (rest : AdapterState)
            → self.new ≡ file_of (left_without_reset register value (with_file self.old rest)) }
    {
        let Some(register) = register else {
            return;
        };
        match register {
            Register::Ctrl => self.ctrl = Ctrl::kept(value),
            Register::Eerd => self.eerd.write(value),
            Register::Mdic => self.mdic.write(value),
            Register::Vet => self.filter.write_vet((value & VLAN_TYPE_BITS) as u16),
            Register::Icr => self.causes.clear_written(value),
            Register::Ics => self.causes.set(value),
            Register::Ims => self.causes.mask(value),
            Register::Imc => self.causes.unmask(value),
            Register::Rctl => self.filter.write_rctl(value),
            Register::Tctl => self.tctl = Tctl::kept(value),
            Register::Receive(part) => self.receive_ring.write(part, value),
            Register::Transmit(part) => self.transmit_ring.write(part, value),
            Register::Mta(word) => self.filter.write_mta(usize::from(word), value),
            Register::Ral(entry) => self.filter.write_ral(usize::from(entry), value),
            Register::Rah(entry) => self.filter.write_rah(usize::from(entry), value),
            Register::Vfta(word) => self.filter.write_vfta(usize::from(word), value),
            Register::Status
            | Register::Pba
            | Register::Mpc
            | Register::Gprc
            | Register::Gptc
            | Register::Rnbc => {}
        }
    }
}
