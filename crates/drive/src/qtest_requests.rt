// The requests for accesses.

ghost use Rattle.std.specs.Prelude.{◌≡◌, ◌++◌, ◌+◌, ◌%◌, ◌^◌, OnOk};
ghost use Rattle.std.specs.Io.KnownBytes.{Appends};
ghost use Rattle.adapter.specs.bus_types.event.Access.TheVariants.{Loads, Reads, Stores, Writes};
ghost use Rattle.drive.specs.QtestRequests.{number_text, request_of};

use crate::BusFault;
use std::alloc::{AllocError, Global};
use std::io::Write;

/// The number of hexadecimal digits of a number in a request.
const DIGITS: usize = 16;

/// Appends a space, `0x`, and a number in 16 hexadecimal digits.
#[tactic(auto, unfolding(crate::specs::QtestRequests::number_text))]
fn push_number(text: &mut Vec<u8>, number: u64) -> Result<(), AllocError>
    ensures { OnOk result (text.new.items ≡ text.old.items ++ number_text number) }
{
    let mut digits = [0; DIGITS];
    // `digits` has room for two digits of each of the eight bytes, so the result is Ok.
    hex::encode_to_slice(number.to_be_bytes(), &mut digits).unwrap();
    text.extend_from_slice(b" 0x")?;
    text.extend_from_slice(&digits)
}

/// The writer of requests, and the address of the registers in the program that answers. A call that writes a request
/// fails with `Memory` if memory was refused, and with `Write` if the writer failed.
#[derive(Drop)]
pub(crate) struct Requests<W> {
    pub(crate) output: W,
    pub(crate) registers: u64,
    pub(crate) alloc: Global,
}

impl<W: Write> Requests<W> {
    /// Writes a request. Makes only one call of the writer if this call takes the whole request.
    fn send(&mut self, request: &[u8]) -> Result<(), BusFault>
        ensures sent { OnOk result (Appends (W.contents self.old.output) (W.contents self.new.output) request.now) }
        ensures registers { self.new.registers ≡ self.old.registers }
    {
        self.output.write_all(request).map_err(|_| BusFault::Write)
    }

    /// Returns the address of the register at an offset in bytes, modulo 2^64.
    fn address_of(&self, offset: u32) -> u64
        ensures { result ≡ (self.now.registers + offset) % 2 ^ 64 }
    {
        self.registers.wrapping_add(u64::from(offset))
    }

    /// Writes the request for the value of a register. The request doesn't contain the value, so the clause states any
    /// value: 0.
    pub(crate) fn read(&mut self, offset: u32) -> Result<(), BusFault>
        ensures sent { OnOk result (Appends (W.contents self.old.output) (W.contents self.new.output)
            (request_of self.old.registers (Reads offset 0))) }
        ensures registers { self.new.registers ≡ self.old.registers }
    {
        let mut text = Vec::from_slice(self.alloc, b"readl")?;
        push_number(&mut text, self.address_of(offset))?;
        text.extend_from_slice(b"\n")?;
        self.send(text.as_slice())
    }

    /// Writes the request to write a register.
    pub(crate) fn write(&mut self, offset: u32, value: u32) -> Result<(), BusFault>
        ensures sent { OnOk result (Appends (W.contents self.old.output) (W.contents self.new.output)
            (request_of self.old.registers (Writes offset value))) }
        ensures registers { self.new.registers ≡ self.old.registers }
    {
        let mut text = Vec::from_slice(self.alloc, b"writel")?;
        push_number(&mut text, self.address_of(offset))?;
        push_number(&mut text, u64::from(value))?;
        text.extend_from_slice(b"\n")?;
        self.send(text.as_slice())
    }

    /// Writes the request for bytes of memory.
    pub(crate) fn load(&mut self, address: u64, size: usize) -> Result<(), BusFault>
        ensures sent { OnOk result (Appends (W.contents self.old.output) (W.contents self.new.output)
            (request_of self.old.registers (Loads address size))) }
        ensures registers { self.new.registers ≡ self.old.registers }
    {
        let mut text = Vec::from_slice(self.alloc, b"read")?;
        push_number(&mut text, address)?;
        push_number(&mut text, size as u64)?;
        text.extend_from_slice(b"\n")?;
        self.send(text.as_slice())
    }

    /// Writes the request to store bytes in memory.
    pub(crate) fn store(&mut self, address: u64, bytes: &[u8]) -> Result<(), BusFault>
        ensures sent { OnOk result (Appends (W.contents self.old.output) (W.contents self.new.output)
            (request_of self.old.registers (Stores address bytes.now))) }
        ensures registers { self.new.registers ≡ self.old.registers }
    {
        let digits = hex::encode(self.alloc, bytes)?;
        let mut text = Vec::from_slice(self.alloc, b"write")?;
        push_number(&mut text, address)?;
        push_number(&mut text, bytes.len() as u64)?;
        text.extend_from_slice(b" 0x")?;
        text.extend_from_slice(digits.as_bytes())?;
        text.extend_from_slice(b"\n")?;
        self.send(text.as_slice())
    }
}
