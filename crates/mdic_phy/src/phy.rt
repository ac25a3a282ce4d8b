ghost use Rattle.std.specs.Prelude.{◌≡◌, true, false, fold};

use crate::hashing::{feed_link, feed_negotiation};
use std::hash::{Hash, Hasher};
use std::marker::Model;

/// The number of the control register (IEEE 802.3, 22.2.4.1).
const CONTROL: u8 = 0;

/// The number of the status register (IEEE 802.3, 22.2.4.2).
const STATUS: u8 = 1;

/// The number of the first identifier register (IEEE 802.3, 22.2.4.3.1).
const IDENTIFIER_HIGH: u8 = 2;

/// The number of the second identifier register.
const IDENTIFIER_LOW: u8 = 3;

/// The values of the identifier registers.
const IDENTIFIERS: [u16; 2] = [0x0141, 0x0C20];

/// Control, bit 9: restart autonegotiation. The bit clears itself.
const RESTART: u16 = 1 << 9;

/// Control, bit 12: autonegotiation is enabled.
const ENABLE: u16 = 1 << 12;

/// Control, bit 15: reset the PHY. The bit clears itself.
const RESET: u16 = 1 << 15;

/// Status, bit 2: the link is up, and the register was read after the last reset or restart.
const LINK: u16 = 1 << 2;

/// Status, bit 5: autonegotiation is complete.
const NEGOTIATED: u16 = 1 << 5;

/// The number of ticks that negotiation takes until the link is up, or `Never`.
#[derive(Clone, Copy, Debug, PartialEq, Eq)]
pub enum Link {
    /// After negotiation was started, the link is up after this number of ticks of the PHY: 1 to 65,535. (0 acts as 1.)
    After(u16),
    /// The link is never up.
    Never,
}

/// The state of negotiation. The link is up exactly if negotiation is complete (our choice).
#[derive(Clone, Copy, Debug, PartialEq, Eq)]
pub enum Negotiation {
    /// Negotiation was not started since the PHY was new or reset, or the link is set to `Never`.
    NotStarted,
    /// Negotiation ends after this number of further ticks. (0 acts as 1.)
    Running(u16),
    /// Negotiation has ended, and the link is up.
    Complete,
}

/// A PHY with the registers of IEEE 802.3, clause 22.
/// Register 0 is control, register 1 is status, registers 2 and 3 identify the PHY, and the others read 0. Only
/// register 0 can be written.
#[derive(Clone, Copy, Debug, PartialEq, Eq)]
pub struct Phy {
    link: Link,
    /// Bit 12 of the control register.
    negotiation_enabled: bool,
    negotiation: Negotiation,
    /// Whether bit 2 of the status register reads 0 even if the link is up. A read of this register clears the field.
    latched_low: bool,
}

impl Model for Phy {
    ghost use Rattle.mdic_phy.specs.Phy.{PhyState};

    ghost Value = { PhyState };

    ghost view = { λ phy. record {
      link = phy.link;
      negotiation_enabled = phy.negotiation_enabled;
      negotiation = phy.negotiation;
      latched_low =
          phy.latched_low;
    } };

    ghost inverse = { λ state. record {
      link = state.link;
      negotiation_enabled = state.negotiation_enabled;
      negotiation = state.negotiation;
      latched_low = state.latched_low;
    } };
}

impl Phy {
    ghost use Rattle.mdic_phy.specs.Phy.{new_phy, phy_after_write, phy_after_read, after_tick, read_value, link_is_up};
    ghost use Rattle.mdic_phy.specs.Hashed.{phy_writes};
    ghost use Rattle.mdic_phy.specs.Phy.{comes_up, is_counting};

    /// Returns a new PHY: the link is down, negotiation is enabled but not started, and the link status is latched low.
    /// `link` is the number of ticks that negotiation takes until the link is up, or `Never`.
    pub fn new(link: Link) -> Self
        ensures { result ≡ new_phy link }
    {
        Phy {
            link,
            negotiation_enabled: true,
            negotiation: Negotiation::NotStarted,
            latched_low: true,
        }
    }

    /// Returns whether the link is up.
    pub fn link_is_up(&self) -> bool
        ensures { result ≡ link_is_up self.now }
    {
        self.negotiation == Negotiation::Complete
    }

    /// Returns whether the link countdown is running, so that a tick would change the PHY.
    pub fn is_counting(&self) -> bool
        ensures { result ≡ is_counting self.now }
    {
        matches!(self.negotiation, Negotiation::Running(_))
    }

    /// Reads a register, and returns its value before the call. A read of the status register also clears the latch of
    /// its link bit.
    pub fn read(&mut self, register: u8) -> u16
        ensures value { result ≡ read_value register self.old }
        ensures state { self.new ≡ phy_after_read register self.old }
    {
        match register {
            CONTROL => self.control(),
            STATUS => {
                let status = self.status();
                self.latched_low = false;
                status
            }
            IDENTIFIER_HIGH => IDENTIFIERS[0],
            IDENTIFIER_LOW => IDENTIFIERS[1],
            _ => 0,
        }
    }

    /// Writes a register. All registers except control ignore the write.
    pub fn write(&mut self, register: u8, value: u16)
        ensures { self.new ≡ phy_after_write register value self.old }
    {
        if register == CONTROL {
            self.write_control(value);
        }
    }

    /// Plays a tick: decreases a running link countdown. When the countdown reaches 0, the link is up. Returns whether
    /// the link changed from down to up.
    pub fn tick(&mut self) -> bool
        ensures state { self.new ≡ after_tick self.old }
        ensures came_up { result ≡ comes_up self.old }
    {
        let Negotiation::Running(left) = self.negotiation else {
            return false;
        };
        // The last tick makes the link up: with 1 tick left, or with 0, which acts as 1.
        if left > 1 {
            self.negotiation = Negotiation::Running(left - 1);
            return false;
        }
        self.negotiation = Negotiation::Complete;
        true
    }

    /// Feeds the whole state of the PHY to a hasher. Equal PHYs feed the same bytes.
    pub fn feed<H: Hasher>(&self, hasher: &mut H)
        ensures { hasher.new ≡ fold H.write hasher.old (phy_writes self.now) }
    {
        self.negotiation_enabled.hash(hasher);
        self.latched_low.hash(hasher);
        feed_link(self.link, hasher);
        feed_negotiation(self.negotiation, hasher);
    }
}

/// The values of the control and status registers, and the effects of a write of the control register.
impl Phy {
    ghost use Rattle.mdic_phy.specs.Phy.{after_control, control_value, restarted, status_value};

    /// Returns the value of the control register: bit 12 as stored. The other bits read 0.
    fn control(&self) -> u16
        ensures { result ≡ control_value self.now }
    {
        if self.negotiation_enabled { ENABLE } else { 0 }
    }

    /// Returns the value of the status register: 0 if the link is down. If the link is up, bit 5 is set, and bit 2 is
    /// also set unless bit 2 is latched low.
    fn status(&self) -> u16
        ensures { result ≡ status_value self.now }
    {
        if !self.link_is_up() {
            0
        } else if self.latched_low {
            NEGOTIATED
        } else {
            NEGOTIATED | LINK
        }
    }

    /// Writes the control register. If bit 15 is set, the PHY is reset, and its setting of the link is kept. Otherwise
    /// bit 12 is stored, and bits 12 and 9 together restart negotiation.
    fn write_control(&mut self, value: u16)
        ensures { self.new ≡ after_control value self.old }
    {
        if value & RESET == RESET {
            *self = Phy::new(self.link);
            return;
        }
        self.negotiation_enabled = value & ENABLE == ENABLE;
        if self.negotiation_enabled && value & RESTART == RESTART {
            self.restart();
        }
    }

    /// Takes the link down, and latches the link status low. Unless the link is set to `Never`, begins the countdown
    /// after which the link is up.
    fn restart(&mut self)
        ensures { self.new ≡ restarted self.old }
    {
        self.latched_low = true;
        self.negotiation = match self.link {
            Link::After(ticks) => Negotiation::Running(ticks),
            Link::Never => Negotiation::NotStarted,
        };
    }
}
