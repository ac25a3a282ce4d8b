// PBA: the sizes of the receive part and of the transmit part of the packet buffer.

ghost use Rattle.std.specs.Prelude.{◌≡◌, ◌≤◌, ◌*◌};
ghost use Rattle.registers.specs.PacketBuffer.{allocation_shown, allocation_written};

use std::marker::Model;

/// The size of the packet buffer in kilobytes: RXA for the receive part, and the rest for the transmit part.
const WHOLE_KILOBYTES: u32 = 64;

/// The least RXA.
const LEAST_KILOBYTES: u32 = 2;

/// The greatest RXA, which is also RXA after power-on.
const MOST_KILOBYTES: u32 = 48;

/// The number of bytes of a kilobyte.
const KILOBYTE_BYTES: u32 = 1_024;

/// The place of the lowest bit of PBA's upper half, the kilobytes of the transmit part. RXA is the lower half.
const TXA_SHIFT: u32 = 16;

/// PBA, the packet buffer allocation register (13.4.16): the kilobytes of the receive part, RXA, an even number from 2
/// to 48 (our choice).
#[derive(Clone, Copy)]
pub struct PacketBufferAllocation {
    receive_kilobytes: u32,
}

impl Model for PacketBufferAllocation {
    ghost use Rattle.std.specs.Prelude.{ℕ};
    ghost use Rattle.registers.specs.PacketBuffer.{IsAllocation};

    ghost Value = { ℕ };

    ghost view = { λ allocation. allocation.receive_kilobytes };

    ghost invariant = { λ allocation. IsAllocation allocation.receive_kilobytes };

    ghost inverse = { λ kilobytes. record { receive_kilobytes = kilobytes } };
}

impl PacketBufferAllocation {
    ghost use Rattle.registers.specs.PacketBuffer.{IsAllocation};

    /// Returns the allocation after power-on: 48 kilobytes for the receive part.
    pub fn new() -> Self
        ensures { result ≡ 48 }
    {
        PacketBufferAllocation {
            receive_kilobytes: MOST_KILOBYTES,
        }
    }

    /// Writes PBA: stores RXA, bits 15:0 of the value, if RXA is an even number from 2 to 48. Any other write is
    /// ignored (our choice).
    pub fn write(&mut self, value: u32)
        ensures { self.new ≡ allocation_written value self.old }
    {
        let kilobytes = value % (1 << TXA_SHIFT);
        if (LEAST_KILOBYTES..=MOST_KILOBYTES).contains(&kilobytes) && kilobytes % 2 == 0 {
            self.receive_kilobytes = kilobytes;
        }
    }

    /// Returns the value of PBA: RXA, an even number from 2 to 48, and the kilobytes of the transmit part in the upper
    /// half.
    pub fn read(&self) -> u32
        ensures shown { result ≡ allocation_shown self.now }
        ensures allocation { IsAllocation self.now }
    {
        let transmit_kilobytes = WHOLE_KILOBYTES - self.receive_kilobytes;
        transmit_kilobytes << TXA_SHIFT | self.receive_kilobytes
    }

    /// Returns the size of the receive part in bytes: at most 49,152.
    pub fn bytes(&self) -> u32
        ensures room { result ≡ self.now * 1024 }
        ensures fits { result ≤ 49152 }
    {
        self.receive_kilobytes * KILOBYTE_BYTES
    }
}
