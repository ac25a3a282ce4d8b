ghost use Rattle.std.specs.Prelude.{◌≡◌, false, fold};
ghost use Rattle.eeprom.specs.declared.eerd.ReadState.TheVariants.{Idle};

use crate::Image;
use crate::hashing::feed_read_state;
use std::hash::Hasher;
use std::marker::Model;

/// START, bit 0: a write with START set begins a read.
const START: u32 = 1 << 0;

/// DONE, bit 4: the read has ended.
const DONE: u8 = 1 << 4;

/// The state of the EEPROM read that a write of EERD requested.
#[derive(Clone, Copy, Debug, PartialEq, Eq)]
pub enum ReadState {
    /// No read was begun since the register was new.
    Idle,
    /// A read of the word at this address is pending.
    Pending(u8),
    /// A read has ended: the address, and the word at this address.
    Done(u8, u16),
}

/// EERD, the EEPROM read register (manual, 13.4.4).
///
/// START is bit 0, DONE bit 4, ADDR bits 15:8 and DATA bits 31:16. In contracts, the value is a [`ReadState`].
#[derive(Clone, Copy, Debug, PartialEq, Eq)]
pub struct Eerd {
    state: ReadState,
}

impl Model for Eerd {
    ghost use Rattle.eeprom.specs.declared.eerd.ReadState.{ReadState};

    ghost Value = { ReadState };

    ghost view = { λ eerd. eerd.state };

    ghost inverse = { λ state. record { state = state } };
}

impl Eerd {
    ghost use Rattle.eeprom.specs.declared.eerd.ReadState.TheVariants.{Idle};
    ghost use Rattle.eeprom.specs.Eerd.{after_tick, eerd_after_write, is_pending, shown};
    ghost use Rattle.eeprom.specs.Hashed.{eerd_writes};

    /// Returns a register for which no read was begun: it reads 0.
    pub fn new() -> Self
        ensures { result ≡ Idle }
    {
        Eerd {
            state: ReadState::Idle,
        }
    }

    /// Writes the register. A write with START begins a read of the word at ADDR, and drops a pending read (our
    /// choice). A write without START is ignored (our choice).
    pub fn write(&mut self, value: u32)
        ensures { self.new ≡ eerd_after_write value self.old }
    {
        if value & START != 0 {
            let [_, address, _, _] = value.to_le_bytes();
            self.state = ReadState::Pending(address);
        }
    }

    /// Returns the value of the register. This value is 0 if no read was begun, and only ADDR while a read is pending.
    /// After the read has ended, the value is DATA, ADDR and DONE. START reads 0 (our choice).
    pub fn read(&self) -> u32
        ensures { result ≡ shown self.now }
    {
        match self.state {
            ReadState::Idle => 0,
            ReadState::Pending(address) => u32::from_le_bytes([0, address, 0, 0]),
            ReadState::Done(address, word) => {
                let [low, high] = word.to_le_bytes();
                u32::from_le_bytes([DONE, address, low, high])
            }
        }
    }

    /// Returns whether a read is pending, so that a tick would end it.
    pub fn is_pending(&self) -> bool
        ensures { result ≡ is_pending self.now }
    {
        matches!(self.state, ReadState::Pending(_))
    }

    /// Ends a pending read: the register then contains the word of the image at ADDR. Returns whether a read was
    /// pending before the call. If no read was pending, nothing changes.
    pub fn tick(&mut self, image: &Image) -> bool
        ensures state { self.new ≡ after_tick image.now self.old }
        ensures ended { result ≡ is_pending self.old }
        ensures nothing { result ≡ false → self.new ≡ self.old }
    {
        let ReadState::Pending(address) = self.state else {
            return false;
        };
        self.state = ReadState::Done(address, image.word(address));
        true
    }

    /// Feeds the whole state of the register to a hasher. Equal registers feed the same bytes.
    pub fn feed<H: Hasher>(&self, hasher: &mut H)
        ensures { hasher.new ≡ fold H.write hasher.old (eerd_writes self.now) }
    {
        feed_read_state(self.state, hasher);
    }
}

impl Default for Eerd {
    ghost is_default = { λ eerd. eerd ≡ Idle };

    /// Returns a register for which no read was begun, as [`Eerd::new`] does.
    fn default() -> Self {
        Eerd::new()
    }
}
