//! An adapter with its memory, which plays words: a register's name reads the register, and `NAME:VALUE` writes it.

use crate::fixtures::{A, NEEDED, offset_of, step_of};
use crate::said::{Player, fate_word, outcome_word};
use adapter::{Adapter, Outcome, StepKind};
use bitflags::Flags;
use descriptors::{RxDesc, RxStatus};
use dma_memory::{HostMemory, Layout};
use eeprom::Image;
use mdic_phy::Link;
use std::alloc::Global;
use std::test::Fail;

/// An adapter and its memory.
#[derive(Drop)]
pub(crate) struct Device {
    adapter: Adapter,
    memory: HostMemory,
}

impl Device {
    /// Takes a step. The wire is free, except for `blocked`.
    fn step(&mut self, alloc: Global, name: &str, kind: StepKind) -> Result<String, Fail> {
        let outcome = self.adapter.step(kind, &mut self.memory, name != "blocked");
        if let Outcome::Put(frame) = &outcome {
            return Ok(format!(in alloc; "put {}", frame.len())?);
        }
        Ok(outcome_word(&outcome).to_string(alloc)?)
    }

    /// Stores a transmit descriptor of 14 bytes at 0x800, with a command, in a slot of a ring at 0x80.
    fn offer(&mut self, slot: u64, command: u8) -> Result<(), Fail> {
        let bytes = [0, 0x08, 0, 0, 0, 0, 0, 0, 14, 0, 0, command, 0, 0, 0, 0];
        self.memory
            .store(0x80u64.saturating_add(slot.saturating_mul(16)), &bytes)?;
        Ok(())
    }

    /// Stores 8 receive descriptors from address 0 on, with the buffers of a driver's layout.
    fn offer_buffers(&mut self) -> Result<(), Fail> {
        let layout = Layout::of(8, 8, 16)?;
        for slot in 0..8u16 {
            let desc = RxDesc {
                address: layout.receive_buffer(slot),
                length: 0,
                checksum: 0,
                status: RxStatus::from_bits_retain(0),
                errors: 0,
                special: 0,
            };
            self.memory.store(u64::from(slot) * 16, &desc.to_bytes())?;
        }
        Ok(())
    }
}

impl Player for Device {
    fn named(alloc: Global, name: &str) -> Result<Device, Fail> {
        let link = if name == "never" {
            Link::Never
        } else {
            Link::After(1)
        };
        let adapter = Adapter::new(alloc, &Image::with_address(A), link)?;
        let memory = HostMemory::new(alloc, NEEDED)?;
        Ok(Device { adapter, memory })
    }

    fn word(&mut self, alloc: Global, name: &str, argument: &str) -> Result<String, Fail> {
        let number = u32::from_str_radix(argument, 16).unwrap_or(0);
        if let Some(offset) = offset_of(name) {
            if argument.is_empty() {
                return Ok(format!(in alloc; "{:x}", self.adapter.read(offset))?);
            }
            self.adapter.write(offset, number);
            return Ok(String::new(alloc));
        }
        if let Some(kind) = step_of(name) {
            return self.step(alloc, name, kind);
        }
        match name {
            "line" => Ok(if self.adapter.line() { "on" } else { "off" }.to_string(alloc)?),
            "arrive" => {
                let frame = [0xFF; 1518];
                let length = argument.parse::<usize>().unwrap_or(0);
                let fate = self.adapter.arrive(frame.get(..length).unwrap_or(&[]));
                Ok(fate_word(fate).to_string(alloc)?)
            }
            "buffers" => {
                self.offer_buffers()?;
                Ok(String::new(alloc))
            }
            "frames" => {
                self.offer(0, 0x0B)?;
                self.offer(1, 0x03)?;
                Ok(String::new(alloc))
            }
            "byte" => {
                let mut byte = [0];
                self.memory.load(u64::from(number), &mut byte)?;
                Ok(format!(in alloc; "{:x}", byte[0])?)
            }
            "written" => {
                let written = self.memory.as_slice().iter().any(|byte| *byte != 0);
                Ok(if written { "yes" } else { "no" }.to_string(alloc)?)
            }
            _ => Ok("unknown".to_string(alloc)?),
        }
    }
}
