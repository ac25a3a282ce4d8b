// The sizes of accesses, and the bytes of numbers.

ghost use Rattle.std.specs.Prelude.{◌≡◌, IfOk};
ghost use Rattle.registers.specs.Bytes.{ones_of};
ghost use Rattle.server_requests.specs.Widths.{width_bytes, bytes_spelling, greatest, wanted_size};

use crate::request::{Wanted, Width};
use registers::PortWidth;
use std::alloc::{AllocError, Global};

impl Width {
    /// Returns the greatest number of this width.
    pub(crate) fn greatest(self) -> u64
        ensures { result ≡ greatest self }
    {
        match self {
            Width::Byte => u64::from(u8::MAX),
            Width::Word => u64::from(u16::MAX),
            Width::Long => u64::from(u32::MAX),
            Width::Quad => u64::MAX,
        }
    }

    /// Returns the size of a number of this width, in bytes.
    pub fn bytes(self) -> usize
        ensures { result ≡ width_bytes self }
    {
        match self {
            Width::Byte => 1,
            Width::Word => 2,
            Width::Long => 4,
            Width::Quad => 8,
        }
    }

    /// Returns the bytes of a number of this width, the lowest first. Higher bytes of a greater number are dropped.
    /// Fails only if memory was refused.
    #[tactic(auto, unfolding(crate::specs::Widths::bytes_spelling))]
    pub fn bytes_spelling(self, alloc: Global, number: u64) -> Result<Vec<u8>, AllocError>
        ensures { IfOk result (λ bytes. bytes.items ≡ bytes_spelling self number) }
    {
        Vec::from_slice(alloc, &number.to_le_bytes()[..self.bytes()])
    }
}

/// Returns the greatest number that an access of this width can write to an I/O port: all its bits are 1.
pub(crate) fn greatest_at_port(width: PortWidth) -> u64
    ensures { result ≡ ones_of width }
{
    match width {
        PortWidth::Byte => u64::from(u8::MAX),
        PortWidth::Word => u64::from(u16::MAX),
        PortWidth::Long => u64::from(u32::MAX),
    }
}

impl Wanted {
    /// Returns the number of bytes that the request reads.
    pub fn size(self) -> u64
        ensures { result ≡ wanted_size self }
    {
        match self {
            Wanted::Number(width) => width.bytes() as u64,
            Wanted::Bytes(size) | Wanted::Base64(size) => size,
        }
    }
}
