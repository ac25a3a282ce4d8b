ghost use Rattle.std.specs.Prelude.{◌≡◌, ◌+◌, ◌<◌, ◌≤◌, ◌↔◌, Ok, Err, IfOk, IsOk, IsTrue};
ghost use Rattle.dma_memory.specs.Layout.{Counts, IsRingSize, IsBufferCount, IsAllowed, start_of, size_of};
ghost use Rattle.dma_memory.specs.Layout.{ReceiveRing, TransmitRing, TransmitBuffer, ReceiveBuffer};
ghost use Rattle.dma_memory.specs.Layout.{receive_buffer_bytes, transmit_buffer_bytes};

use std::marker::Model;
use thiserror::Error;

/// The number of bytes of a descriptor (Intel's manual, "3.2.3 Receive Descriptor Format" and "3.3.3 Legacy Transmit
/// Descriptor Format").
pub const DESCRIPTOR_BYTES: u64 = 16;

/// The number of bytes of a transmit buffer, which has room for the longest frame (our choice).
pub const TRANSMIT_BUFFER_BYTES: u64 = 2048;

/// The number of bytes of a receive buffer (Intel's manual, "13.4.22 Receive Control", BSIZE 11b). So the longest
/// frame, of 1,518 bytes, needs six receive buffers.
pub const RECEIVE_BUFFER_BYTES: u64 = 256;

/// The number of descriptors of a ring is a positive multiple of this number, because the ring's length in bytes is a
/// multiple of 128 (Intel's manual, "13.4.27 Receive Descriptor Length").
pub const RING_STEP: u16 = 8;

/// The greatest number of descriptors of a ring (our choice).
pub const MOST_DESCRIPTORS: u16 = 4096;

/// The greatest number of receive buffers of a layout (our choice).
pub const MOST_BUFFERS: u16 = 8192;

/// The address of the receive ring (our choice).
const RECEIVE_RING: u64 = 0;

/// Why [`Layout::of`] returns an error.
#[derive(Clone, Copy, Debug, PartialEq, Eq, Error)]
pub enum LayoutError {
    /// A ring's number of descriptors isn't a multiple of 8 from 8 to 4,096.
    #[error("E2 RingSize")]
    RingSize,
    /// There are fewer receive buffers than receive descriptors, or more than 8,192.
    #[error("E3 BufferCount")]
    BufferCount,
}

/// Where the rings and buffers of one driver are in its host's memory, by byte addresses.
///
/// The receive ring is at address 0, and the transmit ring follows it. Each descriptor has 16 bytes. The transmit
/// buffers begin at the first multiple of 2,048 at or after the end of the rings. Each transmit descriptor has one of
/// these buffers, of 2,048 bytes. The receive buffers follow, each of 256 bytes.
#[derive(Clone, Copy, Debug, PartialEq, Eq)]
pub struct Layout {
    /// The number of descriptors of the receive ring.
    rx: u16,
    /// The number of descriptors of the transmit ring.
    tx: u16,
    /// The number of receive buffers.
    buffers: u16,
}

impl Model for Layout {
    ghost Value = { Counts };

    ghost view = { λ layout. record { rx = layout.rx; tx = layout.tx; buffers = layout.buffers } };

    ghost invariant = { λ layout. IsAllowed (record { rx = layout.rx; tx = layout.tx; buffers = layout.buffers }) };

    ghost inverse = { λ counts. record { rx = counts.rx; tx = counts.tx; buffers = counts.buffers } };
}

/// Returns whether a ring may have `n` descriptors.
fn is_ring_size(n: u16) -> bool
    ensures { IsTrue result ↔ IsRingSize n }
{
    n % RING_STEP == 0 && RING_STEP <= n && n <= MOST_DESCRIPTORS
}

/// Returns whether a layout may have this number of receive buffers for a receive ring of `rx` descriptors.
fn is_buffer_count(rx: u16, buffers: u16) -> bool
    ensures { IsTrue result ↔ IsBufferCount rx buffers }
{
    rx <= buffers && buffers <= MOST_BUFFERS
}

impl Layout {
    /// Returns the layout for a receive ring of `rx` and a transmit ring of `tx` descriptors, with this number of
    /// receive buffers.
    ///
    /// # Errors
    ///
    /// E2 [`RingSize`](LayoutError::RingSize) exactly if `rx` or `tx` isn't a multiple of 8 from 8 to 4,096. Otherwise
    /// E3 [`BufferCount`](LayoutError::BufferCount) exactly if `buffers` is below `rx` or above 8,192.
    pub fn of(rx: u16, tx: u16, buffers: u16) -> Result<Layout, LayoutError>
        ensures allowed { IsOk result ↔ IsAllowed (record { rx = rx; tx = tx; buffers = buffers }) }
        ensures counts { IfOk result (λ layout. layout ≡ record { rx = rx; tx = tx; buffers = buffers }) }
        ensures ring_size { (result ≡ Err LayoutError.RingSize) ↔ ¬ (IsRingSize rx × IsRingSize tx) }
        ensures buffer_count { (result ≡ Err LayoutError.BufferCount)
            ↔ (IsRingSize rx × IsRingSize tx × ¬ IsBufferCount rx buffers) }
    {
        if !is_ring_size(rx) || !is_ring_size(tx) {
            return Err(LayoutError::RingSize);
        }
        if !is_buffer_count(rx, buffers) {
            return Err(LayoutError::BufferCount);
        }
        Ok(Layout { rx, tx, buffers })
    }

    /// Returns the number of descriptors of the receive ring.
    pub fn rx(&self) -> u16
        ensures count { result ≡ self.now.rx }
        ensures allowed { IsRingSize result }
    {
        self.rx
    }

    /// Returns the number of descriptors of the transmit ring, which is also the number of transmit buffers.
    pub fn tx(&self) -> u16
        ensures count { result ≡ self.now.tx }
        ensures allowed { IsRingSize result }
    {
        self.tx
    }

    /// Returns the number of receive buffers.
    pub fn buffers(&self) -> u16
        ensures count { result ≡ self.now.buffers }
        ensures allowed { IsBufferCount self.now.rx result }
    {
        self.buffers
    }

    /// Returns the address of the receive ring's first descriptor.
    pub fn receive_ring(&self) -> u64
        ensures { result ≡ start_of self.now ReceiveRing }
    {
        RECEIVE_RING
    }

    /// Returns the address of the transmit ring's first descriptor.
    pub fn transmit_ring(&self) -> u64
        ensures { result ≡ start_of self.now TransmitRing }
    {
        self.receive_ring() + DESCRIPTOR_BYTES * u64::from(self.rx)
    }

    /// Returns the address of the buffer that belongs to the transmit descriptor with index `slot`, which must be below
    /// [`tx`](Layout::tx). The buffer ends at or before [`size`](Layout::size).
    pub fn transmit_buffer(&self, slot: u16) -> u64
        requires { slot < self.now.tx }
        ensures start { result ≡ start_of self.now (TransmitBuffer slot) }
        ensures below_size { result + transmit_buffer_bytes ≤ size_of self.now }
    {
        self.first_transmit_buffer() + TRANSMIT_BUFFER_BYTES * u64::from(slot)
    }

    /// Returns the address of the receive buffer `number`, which must be below [`buffers`](Layout::buffers). The buffer
    /// ends at or before [`size`](Layout::size).
    pub fn receive_buffer(&self, number: u16) -> u64
        requires { number < self.now.buffers }
        ensures start { result ≡ start_of self.now (ReceiveBuffer number) }
        ensures below_size { result + receive_buffer_bytes ≤ size_of self.now }
    {
        self.first_receive_buffer() + RECEIVE_BUFFER_BYTES * u64::from(number)
    }

    /// Returns the number of bytes of memory that the layout needs: from address 0 to the end of the last receive
    /// buffer.
    pub fn size(&self) -> u64
        ensures end { result ≡ size_of self.now }

        // The greatest size, in bytes: two rings of 4,096 descriptors, 4,096 transmit buffers, and 8,192 receive
        // buffers. So all addresses of a layout fit into 32 bits.
        ensures most { result ≤ 10616832 }
    {
        self.first_receive_buffer() + RECEIVE_BUFFER_BYTES * u64::from(self.buffers)
    }

    /// Returns the address of the first transmit buffer.
    fn first_transmit_buffer(&self) -> u64
        ensures start { result ≡ start_of self.now (TransmitBuffer 0) }

        // The end of two rings of 4,096 descriptors. By this bound, no sum of addresses overflows in the callers.
        ensures most { result ≤ 131072 }
    {
        // The transmit ring follows the receive ring.
        let rings_end = self.transmit_ring() + DESCRIPTOR_BYTES * u64::from(self.tx);
        rings_end.next_multiple_of(TRANSMIT_BUFFER_BYTES)
    }

    /// Returns the address of the first receive buffer.
    fn first_receive_buffer(&self) -> u64
        ensures start { result ≡ start_of self.now (ReceiveBuffer 0) }

        // The end of 4,096 transmit buffers after two rings of 4,096 descriptors. By this bound, no sum of addresses
        // overflows in the callers.
        ensures most { result ≤ 8519680 }
    {
        self.first_transmit_buffer() + TRANSMIT_BUFFER_BYTES * u64::from(self.tx)
    }
}
