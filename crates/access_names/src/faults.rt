// The reason of a fault.

ghost use Rattle.std.specs.Prelude.{◌≡◌, Some, None, if◌then◌else◌};
ghost use Rattle.descriptors.specs.Ring.{address_of};
ghost use Rattle.dma_memory.specs.HostMemory.{bytes_at};
ghost use Rattle.registers.specs.Bits.{is_set};
ghost use Rattle.registers.specs.Places.{rctl_bsex};
ghost use Rattle.descriptors.specs.TxFields.{command_bits, tx_dext, tx_eop};
ghost use Rattle.access_names.specs.Faults.{fault_if_any, fault_of_data, fault_of_take, reason_of_data};
ghost use Rattle.access_names.specs.Faults.{reason_of_descriptor, reason_of_take};
ghost use Rattle.access_names.specs.Rings.{is_inside, ring_from};

use crate::engine_fault::{Engine, EngineFault, Reason};
use crate::ring_words::RingWords;
use adapter::offsets::RCTL;
use adapter::{Machine, StepKind};
use bitflags::Flags;
use descriptors::{LONGEST_SENDABLE, Ring, TX_DESC_BYTES, TxCommand, TxDesc};
use registers::Rctl;

/// Returns why a step is a fault, if its outcome is a fault. Call this function before the step or right after it. A
/// fault doesn't change the result (`stays` in [`reasons_of_faults_hold`](crate::reasons_of_faults_hold)).
///
/// If the outcome of a [`TxTake`](StepKind::TxTake) or an [`RxData`](StepKind::RxData) isn't a fault, the result has no
/// meaning. Steps of other kinds are never faults: for them, returns `None`.
pub fn fault_of(machine: &Machine, kind: StepKind) -> Option<EngineFault>
    ensures fault { result ≡ fault_if_any kind machine.now.world }
{
    match kind {
        StepKind::TxTake => Some(fault_of_take(machine)),
        StepKind::RxData => Some(fault_of_data(machine)),
        StepKind::TxPut | StepKind::RxDone | StepKind::EepromTick | StepKind::PhyTick => None,
    }
}

/// Returns the fault of a [`TxTake`](StepKind::TxTake). If the outcome isn't a fault, the result has no meaning.
fn fault_of_take(machine: &Machine) -> EngineFault
    ensures fault { result ≡ fault_of_take machine.now.world }
{
    let words = RingWords::of(machine, Engine::Transmit);
    EngineFault {
        engine: Engine::Transmit,
        index: words.head,
        reason: reason_of_take(machine, words),
    }
}

/// Returns the fault of an [`RxData`](StepKind::RxData). If the outcome isn't a fault, the result has no meaning.
fn fault_of_data(machine: &Machine) -> EngineFault
    ensures fault { result ≡ fault_of_data machine.now.world }
{
    let words = RingWords::of(machine, Engine::Receive);
    let control = receive_control(machine);
    EngineFault {
        engine: Engine::Receive,
        index: words.head,
        reason: reason_of_data(machine, words, control),
    }
}

/// Returns the value of RCTL.
fn receive_control(machine: &Machine) -> Rctl
    ensures { result.0 ≡ machine.now.world.adapter.filter.rctl }
{
    Rctl(machine.value(RCTL))
}

/// Returns the first reason why the descriptor at the head of the transmit ring can't be taken. `words` are the values
/// of the ring's registers. `Buffer` is the last reason, and isn't tested: a fault without another reason has this
/// reason.
fn reason_of_take(machine: &Machine, words: RingWords) -> Reason
    ensures { result ≡ reason_of_take machine.now.world.memory (ring_from words) }
{
    let Some(ring) = words.ring() else {
        return Reason::Ring;
    };
    match descriptor_at_head(machine, ring) {
        Some(bytes) => reason_of_descriptor(&TxDesc::from_bytes(&bytes)),
        None => Reason::Descriptor,
    }
}

/// Returns the first reason why a transmit descriptor can't be taken, or `Buffer`, which isn't tested, if no other
/// reason applies.
fn reason_of_descriptor(desc: &TxDesc) -> Reason
    ensures { result ≡ reason_of_descriptor desc.now }
{
    if is_extended(desc.command) {
        Reason::Dext
    } else if !ends_packet(desc.command) {
        Reason::Eop
    } else if desc.length == 0 || usize::from(desc.length) > LONGEST_SENDABLE {
        Reason::Length
    } else {
        Reason::Buffer
    }
}

/// Returns the first reason why no piece can be moved to the buffer of the descriptor at the head of the receive ring.
/// `words` are the values of the ring's registers, and `control` is the value of RCTL. `Buffer` is the last reason, and
/// isn't tested: a fault without another reason has this reason.
fn reason_of_data(machine: &Machine, words: RingWords, control: Rctl) -> Reason
    ensures { result ≡ reason_of_data control.0 machine.now.world.memory (ring_from words) }
{
    let Some(ring) = words.ring() else {
        return Reason::Ring;
    };
    if extends_buffer_size(control) {
        return Reason::Bsex;
    }
    match descriptor_at_head(machine, ring) {
        Some(_) => Reason::Buffer,
        None => Reason::Descriptor,
    }
}

/// Returns the bytes of the descriptor at the head of a ring, or `None` if and only if some of these bytes are outside
/// memory. Descriptors of both rings have 16 bytes.
fn descriptor_at_head(machine: &Machine, ring: Ring) -> Option<[u8; TX_DESC_BYTES]>
    ensures { result ≡ (if is_inside machine.now.world.memory (address_of ring ring.head) 16
        then Some (bytes_at machine.now.world.memory (address_of ring ring.head) 16) else None) }
{
    // The address, if all bytes of the descriptor are inside memory.
    let address = ring.descriptor(ring.head, machine.size())?;
    let mut bytes = [0; TX_DESC_BYTES];
    machine.load(address, &mut bytes);
    Some(bytes)
}

/// Returns whether DEXT is set.
fn is_extended(command: TxCommand) -> bool
    ensures { result ≡ is_set (command_bits command) tx_dext }
{
    command.contains(TxCommand::DEXT)
}

/// Returns whether EOP is set.
fn ends_packet(command: TxCommand) -> bool
    ensures { result ≡ is_set (command_bits command) tx_eop }
{
    command.contains(TxCommand::EOP)
}

/// Returns whether RCTL.BSEX is set.
fn extends_buffer_size(control: Rctl) -> bool
    ensures { result ≡ is_set control.0 rctl_bsex }
{
    control.contains(Rctl::BSEX)
}
