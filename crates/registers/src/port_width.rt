// The width of an access of an I/O port.

ghost use Rattle.std.specs.Prelude.{◌≡◌, ◌≤◌, ◌+◌};
ghost use Rattle.registers.specs.Bytes.{number_from, ones_of, width_size, with_number_from};

/// The number of bytes of an access of an I/O port.
#[derive(Clone, Copy, PartialEq, Eq, Debug)]
pub enum PortWidth {
    /// One byte.
    Byte,
    /// Two bytes.
    Word,
    /// Four bytes.
    Long,
}

impl PortWidth {
    /// Returns the number of bytes.
    pub(crate) fn size(self) -> usize
        ensures { result ≡ width_size self }
    {
        match self {
            PortWidth::Byte => 1,
            PortWidth::Word => 2,
            PortWidth::Long => 4,
        }
    }

    /// Returns the greatest number of this width, whose bits are all 1.
    pub(crate) fn ones(self) -> u32
        ensures { result ≡ ones_of self }
    {
        match self {
            PortWidth::Byte => 0xFF,
            PortWidth::Word => 0xFFFF,
            PortWidth::Long => 0xFFFF_FFFF,
        }
    }

    /// Returns the bytes of this width in a dword from byte `first` on, as a number. The bytes must be inside the
    /// dword.
    #[tactic(auto, using(crate::proofs::Lanes::masked))]
    pub(crate) fn bytes_of(self, dword: u32, first: usize) -> u32
        requires { first + width_size self ≤ 4 }
        ensures { result ≡ number_from first self dword }
    {
        dword >> (8 * first) & self.ones()
    }

    /// Returns `dword`, in which the bytes of this width from byte `first` on are replaced by the low bytes of `value`.
    /// The replaced bytes must be inside the dword.
    pub(crate) fn replaced_in(self, dword: u32, first: usize, value: u32) -> u32
        requires { first + width_size self ≤ 4 }
        ensures { result ≡ with_number_from first self value dword }
    {
        let size = self.size();
        let mut bytes = dword.to_le_bytes();
        bytes[first..first + size].copy_from_slice(&value.to_le_bytes()[..size]);
        u32::from_le_bytes(bytes)
    }
}
