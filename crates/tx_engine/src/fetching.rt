ghost use Rattle.std.specs.Prelude.{◌≡◌, ◌+◌, ◌<◌, ◌≤◌, ◌^◌, ◌↔◌, IsTrue, IsSome, IfSome, length};
ghost use Rattle.registers.specs.Bits.{HasBit, is_set};
ghost use Rattle.dma_memory.specs.HostMemory.{LiesIn};
ghost use Rattle.descriptors.specs.Ring.{address_of};
ghost use Rattle.descriptors.specs.TxFields.{command_bits, tx_dext, tx_eop, tx_rs};
ghost use Rattle.tx_engine.specs.Fetching.{IsTransmittable, IsFetchable, transmit_descriptor_at, named_by};

use bitflags::Flags;
use descriptors::{LONGEST_SENDABLE, Ring, TX_DESC_BYTES, TxCommand, TxDesc};
use dma_memory::HostMemory;

/// A frame that a descriptor points to, borrowed from the host's memory.
#[derive(Clone, Copy)]
pub struct Named<'a> {
    /// The bytes of the frame.
    pub bytes: &'a [u8],
    /// The address at which the descriptor was read.
    pub descriptor: u64,
    /// Whether the descriptor asks for a report (RS).
    pub rs: bool,
}

/// Returns whether a descriptor with this command contains the end of its packet: EOP is set.
fn ends_packet(command: TxCommand) -> bool
    ensures { IsTrue result ↔ HasBit (command_bits command) tx_eop }
{
    command.contains(TxCommand::EOP)
}

/// Returns whether a descriptor with this command has one of the extended formats: DEXT is set.
fn is_extended(command: TxCommand) -> bool
    ensures { IsTrue result ↔ HasBit (command_bits command) tx_dext }
{
    command.contains(TxCommand::DEXT)
}

/// Returns whether a descriptor with this command asks for a report: RS is set.
fn asks_report(command: TxCommand) -> bool
    ensures { result ≡ is_set (command_bits command) tx_rs }
{
    command.contains(TxCommand::RS)
}

/// Returns the descriptor at the head, with its address, or `None` exactly if the descriptor isn't inside memory.
fn descriptor_at_head(ring: &Ring, memory: &HostMemory) -> Option<(u64, TxDesc)>
    ensures lies { IsSome result ↔ LiesIn memory.now (address_of ring.now ring.now.head) 16 }
    ensures address { IfSome result (λ found. found.0 ≡ address_of ring.now ring.now.head) }
    // The status byte, byte 12, is inside memory, so its address fits into 64 bits.
    ensures status_fits { IfSome result (λ found. found.0 + 12 < 2 ^ 64) }
    ensures value { IfSome result
        (λ found. found.1 ≡ transmit_descriptor_at memory.now (address_of ring.now ring.now.head)) }
{
    let address = ring.descriptor(ring.head, memory.size())?;
    let mut bytes = [0; TX_DESC_BYTES];
    // The descriptor is inside memory, so the load succeeds.
    memory.load(address, &mut bytes).ok()?;
    Some((address, TxDesc::from_bytes(&bytes)))
}

/// Returns the bytes that a descriptor points to. Returns `None` if and only if the descriptor can't be transmitted:
/// EOP is clear, DEXT is set, the length is 0 or above 1,518, or the bytes aren't inside memory.
fn bytes_of<'a>(desc: &TxDesc, memory: &'a HostMemory) -> Option<&'a [u8]>
    ensures transmittable { IsSome result ↔ IsTransmittable memory.now desc.now }
    ensures value { IfSome result (λ bytes. bytes.now ≡ named_by memory.now desc.now) }
{
    let length = desc.length as usize;
    if !ends_packet(desc.command) || is_extended(desc.command) {
        return None;
    }
    if length == 0 || length > LONGEST_SENDABLE {
        return None;
    }
    memory.view(desc.address, length).ok()
}

/// Returns the frame that the descriptor at the head points to, with this descriptor's address and RS bit. Returns
/// `None` if and only if head or tail isn't the index of a slot, or the descriptor isn't inside memory or can't be
/// transmitted (`bytes_of`). Whether the descriptor is offered isn't tested: [`take`](crate::take) tests this before.
pub fn fetch<'a>(ring: &Ring, memory: &'a HostMemory) -> Option<Named<'a>>
    ensures fetchable { IsSome result ↔ IsFetchable memory.now ring.now }
    ensures bytes { IfSome result (λ named. named.bytes.now
        ≡ named_by memory.now (transmit_descriptor_at memory.now (address_of ring.now ring.now.head))) }
    ensures descriptor { IfSome result (λ named. named.descriptor ≡ address_of ring.now ring.now.head) }
    // The status byte, byte 12, is inside memory, so its address fits into 64 bits.
    ensures status_fits { IfSome result (λ named. named.descriptor + 12 < 2 ^ 64) }
    ensures length { IfSome result (λ named. length named.bytes.now ≤ 1518) }
    ensures rs { IfSome result (λ named. named.rs
        ≡ is_set (command_bits (transmit_descriptor_at memory.now (address_of ring.now ring.now.head)).command) tx_rs) }
{
    if !ring.has_valid_indices() {
        return None;
    }
    let (descriptor, desc) = descriptor_at_head(ring, memory)?;
    let bytes = bytes_of(&desc, memory)?;
    Some(Named {
        bytes,
        descriptor,
        rs: asks_report(desc.command),
    })
}
