// The state of an adapter that is served.

ghost use Rattle.std.specs.Prelude.{◌≡◌, ◌-◌, None, Some, if◌then◌else◌};
ghost use Rattle.adapter_server.specs.Sessions.{is_register, overlaps_registers};

use played_adapter::PlayedAdapter;
use registers::PciFunction;
use server_output::Kept;
use server_requests::{Refusal, Setting};
use std::alloc::AllocError;
use step_schedules::Agenda;

/// The size of all registers together, in bytes (13.4 "Main Register Descriptions").
const REGISTER_BYTES: u64 = 0x2_0000;

/// The size of a register, in bytes.
const WORD_BYTES: u64 = 4;

/// The state of an adapter that is served, between two requests.
#[derive(Drop)]
pub struct Session {
    /// The adapter, its memory, the offered frames, and the settings of what is played before and after an access.
    pub device: PlayedAdapter,
    /// The PCI function, which determines the address of the registers.
    pub function: PciFunction,
    /// The value of the clock, in nanoseconds.
    pub clock: u64,
    /// The past events that the server keeps, the recorder, and which events the server writes.
    pub kept: Kept,
    /// The agenda of the player, if there is a player.
    pub agenda: Option<Agenda>,
    /// The number that answers the next request `choose` in place of the agenda's, if there is one.
    pub number: Option<u32>,
    /// Whether the log, when it is on, contains the names of the targets in the lines of accesses.
    pub targets: bool,
}

/// The target of an access.
#[derive(Clone, Copy)]
pub enum AccessPlace {
    /// The register at this offset, in bytes.
    Register(u32),
    /// Bytes of memory.
    Memory,
}

/// Returns whether some of the `count` bytes from an address on are bytes of registers. `registers` is the address of
/// the first register.
fn overlaps_registers(registers: u64, address: u64, count: u64) -> bool
    ensures { result ≡ overlaps_registers registers address count }
{
    // Sums of `u64` can't overflow `u128`.
    let address = u128::from(address);
    let registers = u128::from(registers);
    let end = address + u128::from(count);
    count > 0 && address < registers + u128::from(REGISTER_BYTES) && registers < end
}

/// Returns the register's offset for an access of four bytes at an aligned address among the registers, else `None`.
/// `registers` is the address of the first register.
fn register_at(registers: u64, address: u64, count: u64) -> Option<u32>
    ensures { result ≡ (if is_register registers address count then Some (address - registers) else None) }
{
    if count != WORD_BYTES || address < registers {
        return None;
    }
    let offset = address - registers;
    if offset < REGISTER_BYTES && offset % WORD_BYTES == 0 {
        Some(offset as u32)
    } else {
        None
    }
}

impl Session {
    ghost use Rattle.std.specs.Prelude.{IfOk};
    ghost use Rattle.adapter_server.specs.Sessions.{IsCopied, place_in, with_setting};

    /// Returns a copy that shares no memory with the session. The level of the copy's interrupt line counts as
    /// reported, so the copy reports only later changes.
    pub(crate) fn copy(&self) -> Result<Session, AllocError>
        ensures { IfOk result (λ copy. IsCopied self.now copy) }
    {
        Ok(Session {
            agenda: self.agenda.clone()?,
            kept: self.kept.clone()?,
            device: self.device.copy()?,
            function: self.function,
            clock: self.clock,
            number: self.number,
            targets: self.targets,
        })
    }

    /// Changes a setting for later requests. While a schedule is played, `Interleave` turns random steps off, because
    /// the schedule determines the steps.
    pub(crate) fn set(&mut self, setting: Setting)
        ensures { self.new ≡ with_setting setting self.old }
    {
        match setting {
            Setting::Interleave(count) => {
                // A player that only records plays no schedule.
                let is_scheduled = match &self.agenda {
                    Some(agenda) => agenda.has_schedule(),
                    None => false,
                };
                self.device.most_steps = if is_scheduled { 0 } else { count };
            }
            Setting::Pace(count) => self.device.pace = count,
            Setting::Log { on, targets } => {
                self.kept.log = on;
                self.targets = targets;
            }
            Setting::Events(on) => self.kept.events = on,
            Setting::Wire(free) => self.device.wire_free = free,
        }
    }

    /// Returns the target of an access of `count` bytes at an address, or why the access is refused.
    ///
    /// If memory also contains bytes of registers, an access of four aligned bytes reaches the register, and any other
    /// access reaches memory.
    ///
    /// An access that reaches neither a register nor memory is refused: with `Register` if some of its bytes are bytes
    /// of registers, else with `Address`.
    pub(crate) fn place_of(&self, address: u64, count: u64) -> Result<AccessPlace, Refusal>
        ensures { result ≡ place_in self.now address count }
    {
        let in_memory = self.device.has_bytes(address, count);
        // Without an address of the first register, no address reaches registers.
        if let Some(registers) = self.function.registers() {
            if let Some(offset) = register_at(registers, address, count) {
                return Ok(AccessPlace::Register(offset));
            }
            if !in_memory && overlaps_registers(registers, address, count) {
                return Err(Refusal::Register);
            }
        }
        if in_memory {
            Ok(AccessPlace::Memory)
        } else {
            Err(Refusal::Address)
        }
    }
}
