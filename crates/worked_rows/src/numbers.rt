//! Descriptors as bytes, numbers of groups, and memory that an adapter doesn't write.

use crate::fixtures::A;
use adapter::offsets::{CTRL, GPTC, RCTL, RDBAL, RDH, RDLEN, RDT, TCTL, TDBAL, TDH, TDLEN, TDT};
use adapter::{Adapter, Outcome, StepKind};
use bitflags::Flags;
use descriptors::{RxDesc, RxStatus, TxCommand, TxDesc, TxStatus};
use dma_memory::HostMemory;
use eeprom::Image;
use mdic_phy::Link;
use rand_core::SeedableRng;
use rand_core::utils::NextWord;
use rand_pcg::Lcg64Xsh32;
use registers::GroupOffset;
use rx_filter::hash_of;
use std::process::Abort;
use std::test::Fail;

#[test]
fn descriptors_and_numbers_of_groups(rt: HostRuntime) {
    // A frame of 60 bytes at 0x4800, and the first piece of a longer one.
    for (length, status, bytes) in [
        (
            60,
            3,
            [0, 0x48, 0, 0, 0, 0, 0, 0, 0x3C, 0, 0, 0, 3, 0, 0, 0],
        ),
        (256, 1, [0, 0x48, 0, 0, 0, 0, 0, 0, 0, 1, 0, 0, 1, 0, 0, 0]),
    ] {
        let desc = RxDesc {
            address: 0x4800,
            length,
            checksum: 0,
            status: RxStatus::from_bits_retain(status),
            errors: 0,
            special: 0,
        };
        assert!(rt; desc.to_bytes() == bytes && RxDesc::from_bytes(&bytes) == desc);
    }
    let desc = TxDesc {
        address: 0x800,
        length: 14,
        cso: 0,
        command: TxCommand::EOP.union(TxCommand::IFCS).union(TxCommand::RS),
        status: TxStatus::from_bits_retain(0),
        css: 0,
        special: 0,
    };
    let bytes = [0, 8, 0, 0, 0, 0, 0, 0, 0x0E, 0, 0, 0x0B, 0, 0, 0, 0];
    assert!(rt; desc.to_bytes() == bytes && TxDesc::from_bytes(&bytes) == desc);
    // Bytes 4 and 5 of an address, and 12 bits of them.
    for (offset, address, number) in [
        (GroupOffset::Bits47To36, [1, 0, 0, 0, 0x12, 0x34], 0x341),
        (GroupOffset::Bits46To35, [1, 0, 0, 0, 0x12, 0x34], 0x682),
        (GroupOffset::Bits45To34, [1, 0, 0, 0, 0x12, 0x34], 0xD04),
        (GroupOffset::Bits43To32, [1, 0, 0, 0, 0x12, 0x34], 0x412),
        (GroupOffset::Bits47To36, [1, 0, 0x5E, 0, 0, 1], 0x010),
        (GroupOffset::Bits47To36, [1, 0, 0x5E, 0, 0, 2], 0x020),
    ] {
        assert!(rt; hash_of(offset, &address) == number, "{number:x}");
    }
}

/// The number of bytes of memory.
const SIZE: u64 = 1_024;

/// An adapter with its memory, which is written at random, and the addresses of the descriptors in progress.
#[derive(Drop)]
struct Hostile {
    adapter: Adapter,
    memory: HostMemory,
    before: Vec<u8>,
    generator: Lcg64Xsh32,
    work: u64,
    taken: Vec<u64>,
    moved: u64,
}

/// Registers, and masks for values with which rings are often valid.
const WRITES: [(u32, u32); 11] = [
    (RDBAL, 0x0F0),
    (RDLEN, 0x180),
    (RDH, 0x7),
    (RDT, 0x7),
    (TDBAL, 0x0F0),
    (TDLEN, 0x180),
    (TDH, 0x7),
    (TDT, 0x7),
    (RCTL, 0x0003_801A),
    (TCTL, 0xA),
    (CTRL, 0x0400_0000),
];

impl Hostile {
    fn word(&mut self) -> u32 {
        self.generator.next_word()
    }

    /// Writes a register and a descriptor.
    fn write(&mut self) -> Result<(), Fail> {
        let (choice, value, place) = (self.word(), self.word(), self.word());
        let (offset, mask) = WRITES[(choice % 11) as usize];
        // One write of 64 has any value, at any offset.
        let any = choice >> 26 == 0;
        let offset = if any { value & 0x5FFC } else { offset };
        let value = if any { self.word() } else { value & mask };
        self.adapter.write(offset, value);
        if offset == CTRL && value & 0x0400_0000 != 0 {
            self.taken.clear();
        }
        let [a, b, c, d] = self.word().to_le_bytes();
        let bytes = [
            a,
            2 | b & 1,
            0,
            0,
            0,
            0,
            0,
            0,
            c,
            d & 1,
            0,
            0x0B,
            0,
            0,
            0,
            0,
        ];
        self.memory.store(u64::from(place & 0x1F0), &bytes)?;
        Ok(())
    }

    /// Returns the address of the descriptor at the head of a ring.
    fn head(&self, base: u32, head: u32) -> u64 {
        let high = u64::from(self.adapter.value(base.wrapping_add(4)));
        let address = high << 32 | u64::from(self.adapter.value(base));
        address.wrapping_add(u64::from(self.adapter.value(head)).wrapping_mul(16))
    }

    /// Takes a step, and returns the addresses that it may change: the buffer of the receive descriptor at RDH, the
    /// high half of the receive descriptor in progress, or the status of the transmit descriptor whose frame was put.
    fn step(&mut self, kind: StepKind) -> (u64, u64) {
        let (receive, transmit) = (self.head(RDBAL, RDH), self.head(TDBAL, TDH));
        let size = 2048u64 >> (self.adapter.value(RCTL) >> 16 & 3);
        let mut address = [0; 8];
        let _ = self.memory.load(receive, &mut address);
        let buffer = u64::from_le_bytes(address);
        let outcome = self.adapter.step(kind, &mut self.memory, true);
        match outcome {
            Outcome::Part | Outcome::Moved => {
                self.work = receive;
                self.moved = self.moved.saturating_add(1);
                (buffer, buffer.saturating_add(size))
            }
            Outcome::Done => (self.work.saturating_add(8), self.work.saturating_add(16)),
            Outcome::Took => {
                let _ = self.taken.push(transmit);
                (0, 0)
            }
            Outcome::Put(_) if !self.taken.is_empty() => {
                let status = self.taken.remove(0).saturating_add(12);
                (status, status.saturating_add(1))
            }
            _ => (0, 0),
        }
    }

    /// Takes a step, and checks that no other byte changed.
    fn check_step(&mut self, rt: &impl Abort, kind: StepKind) -> Result<(), Fail> {
        self.before.clear();
        self.before.extend_from_slice(self.memory.as_slice())?;
        let (from, to) = self.step(kind);
        let now = self.memory.as_slice();
        let (from, to) = (from.min(SIZE) as usize, to.min(SIZE) as usize);
        assert!(rt; self.before.get(..from) == now.get(..from), "{from} {to}");
        assert!(rt; self.before.get(to..) == now.get(to..), "{from} {to}");
        Ok(())
    }
}

#[test]
fn memory_outside_a_step_does_not_change(rt: HostRuntime) -> Result<(), Fail> {
    let mut hostile = Hostile {
        adapter: Adapter::new(rt.alloc(), &Image::with_address(A), Link::After(1))?,
        memory: HostMemory::new(rt.alloc(), SIZE)?,
        before: Vec::new(rt.alloc()),
        generator: Lcg64Xsh32::seed_from_u64(1),
        work: 0,
        taken: Vec::new(rt.alloc()),
        moved: 0,
    };
    let mut frames = 0u32;
    for _ in 0..10_000u32 {
        hostile.write()?;
        let length = (hostile.word() % 1600) as usize;
        hostile
            .adapter
            .arrive([0xFF; 1600].get(..length).unwrap_or(&[]));
        for kind in [
            StepKind::TxTake,
            StepKind::TxPut,
            StepKind::RxData,
            StepKind::RxDone,
        ] {
            hostile.check_step(&rt, kind)?;
        }
        frames = frames.saturating_add(hostile.adapter.read(GPTC));
    }
    assert!(rt;
        hostile.moved > 20 && frames > 20,
        "{} {frames}",
        hostile.moved
    );
    Ok(())
}
