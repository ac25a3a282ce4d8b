// Why a line is refused.

ghost use Rattle.std.specs.Prelude.{◌≡◌};
ghost use Rattle.server_requests.specs.declared.refusal.Stop.TheVariants as stops;
ghost use Rattle.server_requests.specs.Refusals.{refusal_line};

use std::alloc::AllocError;

/// Why a line is refused. A refused line changes neither the adapter nor the server.
#[derive(Clone, Copy)]
pub enum Refusal {
    /// `FAIL unknown`: the line's first word isn't the first word of a request, or the line has no word.
    Unknown,
    /// `ERR count`: the line has too few or too many words.
    Count,
    /// `ERR value`: a word has an invalid form, is out of range, or contains another number of bytes than SIZE. Or the
    /// clock would be 2^64 nanoseconds or more.
    Value,
    /// `ERR size`: SIZE is above 65,536 bytes.
    Size,
    /// `ERR address`: memory doesn't contain all bytes of the access, and no byte of the access is a byte of a
    /// register. Or SIZE is 0, and ADDR is above the size of memory.
    Address,
    /// `ERR register`: memory doesn't contain all bytes of the access, some of them are bytes of registers, and the
    /// access isn't four bytes at an aligned address.
    Register,
    /// `ERR saved`: the line is `restore`, and no state was saved.
    Saved,
    /// `ERR text`: the line isn't UTF-8.
    Text,
    /// `ERR long`: the line has more than 131,200 bytes.
    Long,
}

/// Why reading the request of a line failed.
#[derive(Clone, Copy)]
pub enum Stop {
    /// The line is refused.
    Refused(Refusal),
    /// Memory was refused.
    Memory,
}

impl From<AllocError> for Stop {
    ghost from_gives = { λ _ stop. stop ≡ stops.Memory };

    fn from(_error: AllocError) -> Stop {
        Stop::Memory
    }
}

impl Refusal {
    /// Returns the answer to a line that is refused for this reason, with its line feed.
    pub fn text(self) -> &'static [u8]
        ensures { result.now ≡ refusal_line self }
    {
        match self {
            Refusal::Unknown => b"FAIL unknown\n",
            Refusal::Count => b"ERR count\n",
            Refusal::Value => b"ERR value\n",
            Refusal::Size => b"ERR size\n",
            Refusal::Address => b"ERR address\n",
            Refusal::Register => b"ERR register\n",
            Refusal::Saved => b"ERR saved\n",
            Refusal::Text => b"ERR text\n",
            Refusal::Long => b"ERR long\n",
        }
    }
}
