// The link in STATUS: its state and its speed.

ghost use Rattle.std.specs.Prelude.{◌≡◌, if◌then◌else◌};
ghost use Rattle.registers.specs.Bits.{field};
ghost use Rattle.registers.specs.Kept.{status_of_link_up};
ghost use Rattle.registers.specs.Places.{status_speed};

use crate::Status;
use crate::fields::two_bit_field;
use bitflags::Flags;

/// The link speed in STATUS.SPEED.
#[derive(Clone, Copy, PartialEq, Eq, Debug)]
pub enum Speed {
    /// 10 Mb/s.
    Mbps10,
    /// 100 Mb/s.
    Mbps100,
    /// 1000 Mb/s: SPEED 10 or 11 in binary.
    Mbps1000,
}

impl Status {
    ghost use Rattle.registers.specs.ReceiveControl.{speed_of};

    /// The code of 1000 Mb/s in SPEED.
    const MBPS_1000: Status = Status(2 << 6);

    /// Returns the value of STATUS: link up, full duplex and 1000 Mb/s if `link_up` is true, else 0. The caller sets
    /// `link_up` if the PHY's link is up and CTRL.SLU is set.
    pub fn of_link(link_up: bool) -> Status
        ensures { result.0 ≡ (if link_up then status_of_link_up else 0) }
    {
        if link_up {
            Status::FD.union(Status::LU).union(Status::MBPS_1000)
        } else {
            Status::empty()
        }
    }

    /// Returns the link speed, SPEED (bits 7:6).
    pub fn speed(self) -> Speed
        ensures { result ≡ speed_of (field self.0 status_speed 2) }
    {
        match two_bit_field(self.0, 6) {
            0 => Speed::Mbps10,
            1 => Speed::Mbps100,
            _ => Speed::Mbps1000,
        }
    }
}
