ghost use Rattle.std.specs.Prelude.{◌≡◌, fold};
ghost use Rattle.mdic_phy.specs.Mdic.{ended_phy, ended_value, with_data};

use crate::Phy;
use crate::hashing::feed_command;
use std::hash::Hasher;
use std::marker::Model;

/// DATA, bits 15:0.
const DATA: u32 = 0xFFFF;

/// The place of the lowest bit of REGADD, bits 20:16.
const REGADD_SHIFT: u32 = 16;

/// The place of the lowest bit of PHYADD, bits 25:21.
const PHYADD_SHIFT: u32 = 21;

/// The five bits of REGADD or PHYADD, moved to the lowest places.
const ADDRESS: u32 = 0x1F;

/// The place of the lowest bit of OP, bits 27:26.
const OP_SHIFT: u32 = 26;

/// The bits of OP, moved to the lowest places.
const OP: u32 = 0b11;

/// OP of a write command.
const OP_WRITE: u32 = 0b01;

/// OP of a read command.
const OP_READ: u32 = 0b10;

/// R, bit 28: the command has ended.
const READY: u32 = 1 << 28;

/// I, bit 29: the end of the command records MDAC.
const INTERRUPT: u32 = 1 << 29;

/// E, bit 30: the command has failed.
const ERROR: u32 = 1 << 30;

/// The bits that a write stores: all except R, E and bit 31.
const KEPT: u32 = 0x2FFF_FFFF;

/// The address of the PHY.
const PHY_ADDRESS: u32 = 1;

/// The access that a command makes to a register of the PHY.
#[derive(Clone, Copy, Debug, PartialEq, Eq)]
pub enum Operation {
    /// OP 01: DATA is written to the register.
    Write,
    /// OP 10: the register is read into DATA.
    Read,
}

/// What a tick reports to the adapter, which records causes by this report.
#[derive(Clone, Copy, Debug, PartialEq, Eq)]
pub struct Ticked {
    /// Whether the link changed from down to up: the cause LSC.
    pub link_changed: bool,
    /// Whether a command ended whose I was set: the cause MDAC.
    pub access_complete: bool,
}

/// MDIC, the MDI control register (manual, 13.4.7).
///
/// DATA is bits 15:0, REGADD 20:16, PHYADD 25:21, OP 27:26, R 28, I 29 and E 30.
#[derive(Clone, Copy, Debug, PartialEq, Eq)]
pub struct Mdic {
    /// The value that a read returns.
    value: u32,
    /// The command that the next tick ends.
    pending: Option<Operation>,
}

impl Model for Mdic {
    ghost use Rattle.mdic_phy.specs.Mdic.{MdicState};

    ghost Value = { MdicState };

    ghost view = { λ mdic. record { value = mdic.value; pending = mdic.pending } };

    ghost inverse = { λ state. record { value = state.value; pending = state.pending } };
}

impl Mdic {
    ghost use Rattle.mdic_phy.specs.Hashed.{mdic_writes};
    ghost use Rattle.mdic_phy.specs.Mdic.{mdic_after_write, has_work, mdic_after_tick, new_mdic, phy_after_tick, told};

    /// Returns a register without a pending command, which reads 0.
    pub fn new() -> Self
        ensures { result ≡ new_mdic }
    {
        Mdic {
            value: 0,
            pending: None,
        }
    }

    /// Writes the register: stores all bits of the value except R, E and bit 31, and begins the command of OP. OP 00
    /// and 11 begin no command. In each case, a command that is still pending is dropped (our choice).
    pub fn write(&mut self, value: u32)
        ensures { self.new ≡ mdic_after_write value }
    {
        self.value = value & KEPT;
        self.pending = match value >> OP_SHIFT & OP {
            OP_WRITE => Some(Operation::Write),
            OP_READ => Some(Operation::Read),
            _ => None,
        };
    }

    /// Returns the value of the register: the last written value, without R, E and bit 31. Before the first write, the
    /// value is 0. After the command has ended, R is set. A read command stores the PHY's register in DATA. A command
    /// for another PHY also sets E, and doesn't change DATA.
    pub fn read(&self) -> u32
        ensures { result ≡ self.now.value }
    {
        self.value
    }

    /// Returns whether the PHY's link countdown is running or a command is pending, so that a tick would do something.
    pub fn has_work(&self, phy: &Phy) -> bool
        ensures { result ≡ has_work self.now phy.now }
    {
        phy.is_counting() || self.pending.is_some()
    }

    /// Plays a tick: decreases the PHY's running link countdown, and then ends a pending command. Returns the report by
    /// which the adapter records causes. If no countdown is running and no command is pending, returns `None` and
    /// changes nothing.
    pub fn tick(&mut self, phy: &mut Phy) -> Option<Ticked>
        ensures mdic { self.new ≡ mdic_after_tick self.old phy.old }
        ensures phy { phy.new ≡ phy_after_tick self.old phy.old }
        ensures told { result ≡ told self.old phy.old }
        ensures mdic_stays { result ≡ None → self.new ≡ self.old }
        ensures phy_stays { result ≡ None → phy.new ≡ phy.old }
    {
        if !self.has_work(phy) {
            return None;
        }
        let link_changed = phy.tick();
        let access_complete = match self.pending.take() {
            Some(operation) => {
                let asks_interrupt = self.value & INTERRUPT == INTERRUPT;
                self.value = end(operation, self.value, phy);
                asks_interrupt
            }
            None => false,
        };
        Some(Ticked {
            link_changed,
            access_complete,
        })
    }

    /// Feeds the whole state of the register to a hasher. Equal registers feed the same bytes.
    pub fn feed<H: Hasher>(&self, hasher: &mut H)
        ensures { hasher.new ≡ fold H.write hasher.old (mdic_writes self.now) }
    {
        hasher.write_u32(self.value);
        feed_command(self.pending, hasher);
    }
}

impl Default for Mdic {
    ghost use Rattle.mdic_phy.specs.Mdic.{new_mdic};

    ghost is_default = { λ mdic. mdic ≡ new_mdic };

    /// Returns a register without a pending command, as [`Mdic::new`] does.
    fn default() -> Self {
        Mdic::new()
    }
}

/// Ends a command at the PHY. `value` is MDIC's value, which contains PHYADD, REGADD and DATA. Returns the new value of
/// MDIC, with R set. A write stores DATA in the PHY's register, and a read stores the PHY's register in DATA. A command
/// for another PHY accesses no register, and also sets E.
fn end(operation: Operation, value: u32, phy: &mut Phy) -> u32
    ensures value { result ≡ ended_value operation phy.old value }
    ensures phy { phy.new ≡ ended_phy operation value phy.old }
{
    if value >> PHYADD_SHIFT & ADDRESS != PHY_ADDRESS {
        return value | READY | ERROR;
    }
    let register = (value >> REGADD_SHIFT & ADDRESS) as u8;
    match operation {
        Operation::Write => {
            phy.write(register, (value & DATA) as u16);
            value | READY
        }
        Operation::Read => with_data(value, phy.read(register)) | READY,
    }
}

/// Returns this value of MDIC with the word as DATA, the low half.
fn with_data(value: u32, word: u16) -> u32
    ensures { result ≡ with_data word value }
{
    let [_, _, third, fourth] = value.to_le_bytes();
    let [low, high] = word.to_le_bytes();
    u32::from_le_bytes([low, high, third, fourth])
}
