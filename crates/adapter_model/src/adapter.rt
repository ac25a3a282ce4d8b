// The adapter: its registers, its EEPROM and PHY, and its engines.

ghost use Rattle.std.specs.Prelude.{◌≡◌, ◌↔◌, IsTrue, IfOk, fold, length};
ghost use Rattle.registers.specs.Bits.{Meet};
ghost use Rattle.adapter_model.specs.Registers.{is_reset};
ghost use Rattle.adapter_model.specs.DataOutcomes.{causes_of_tick, outcome_of_tick};
ghost use Rattle.adapter_model.specs.State.{AdapterState};
ghost use Rattle.adapter_model.specs.View.{state_of, IsConsistent};

use crate::offsets::{CTRL, PBA, STATUS};
use crate::outcome::Outcome;
use crate::register::Register;
use crate::register_file::RegisterFile;
use crate::step::StepKind;
use bitflags::Flags;
use descriptors::Frame;
use dma_memory::HostMemory;
use eeprom::Image;
use mdic_phy::{Link, Phy, Ticked};
use registers::{Cause, Ctrl, PacketBufferAllocation, Status};
use rx_engine::RxEngine;
use std::alloc::{AllocError, Global};
use std::hash::Hasher;
use std::marker::Model;
use tx_engine::TxEngine;

/// An 82540EM: its registers, its EEPROM and PHY, and the two engines that move frames between its
/// wire and a host's memory.
///
/// In contracts, the value is an `AdapterState`, plain data that `specs/State.antt` defines. The table of
/// [`offsets`](crate::offsets) states the effect of each register access. The adapter does all other work in steps and
/// arrivals. One call of [`step`](Adapter::step) is one step, and one call of [`arrive`](Adapter::arrive) is the
/// arrival of one frame. The clauses `adapter` of calls state the invariant of the value, for the proofs of callers.
#[derive(Drop)]
pub struct Adapter {
    image: Image,
    phy: Phy,
    pub(crate) packet_buffer: PacketBufferAllocation,
    pub(crate) file: RegisterFile,
    pub(crate) receiver: RxEngine,
    pub(crate) transmitter: TxEngine,
}

impl Model for Adapter {
    ghost Value = { AdapterState };

    ghost view = { state_of };

    ghost invariant = { IsConsistent };
}

impl Clone for Adapter {
    ghost is_clone = { λ adapter copy. copy ≡ adapter };

    /// Returns a copy of the adapter, in the same state.
    ///
    /// # Errors
    ///
    /// Returns an error only if an allocation fails.
    fn clone(&self) -> Result<Adapter, AllocError> {
        let file = self.file.clone()?;
        let receiver = self.receiver.clone()?;
        let transmitter = self.transmitter.clone()?;
        Ok(Adapter {
            image: self.image,
            phy: self.phy,
            packet_buffer: self.packet_buffer,
            file,
            receiver,
            transmitter,
        })
    }
}

impl Adapter {
    ghost use Rattle.adapter_model.specs.Hashed.{adapter_writes};
    ghost use Rattle.adapter_model.specs.Outcomes.{framed};
    ghost use Rattle.adapter_model.specs.Registers.{after_read, after_write, answer_at, new_adapter};
    ghost use Rattle.adapter_model.specs.State.{IsAdapter};
    ghost use Rattle.adapter_model.specs.Steps.{Answers, ChangesAtMost, after_step, memory_after_step};
    ghost use Rattle.adapter_model.specs.declared.outcome.Outcome.TheVariants.{Fault, Nothing};
    ghost use Rattle.eeprom.specs.Eerd.{is_pending};
    ghost use Rattle.mdic_phy.specs.Mdic.{has_work};

    /// Returns an adapter after power-on, with this EEPROM. `link` is the number of ticks of the PHY that negotiation
    /// takes until the link is up, or `Never`. Both packet buffers are empty. This call allocates their memory, and no
    /// later call except `clone` allocates memory.
    ///
    /// # Errors
    ///
    /// Returns an error only if an allocation fails.
    pub fn new(alloc: Global, image: &Image, link: Link) -> Result<Adapter, AllocError>
        ensures { IfOk result (λ adapter. adapter ≡ new_adapter image.now link) }
    {
        let receiver = RxEngine::new(alloc)?;
        let transmitter = TxEngine::new(alloc)?;
        Ok(Adapter {
            image: *image,
            phy: Phy::new(link),
            packet_buffer: PacketBufferAllocation::new(),
            file: RegisterFile::at_reset(image),
            receiver,
            transmitter,
        })
    }

    /// Performs a driver's read of the register at an offset in bytes, and returns the value read. A read of ICR or of
    /// a counter clears the register. If no register is at the offset, returns 0 and changes nothing (our choice).
    pub fn read(&mut self, offset: u32) -> u32
        ensures answer { result ≡ answer_at offset self.old }
        ensures state { self.new ≡ after_read offset self.old }
        ensures adapter { IsAdapter self.new }
    {
        // The register file contains neither STATUS nor PBA.
        if offset == STATUS {
            self.status().bits()
        } else if offset == PBA {
            self.packet_buffer.read()
        } else {
            self.file.read(Register::at(offset))
        }
    }

    /// Returns the value that a read of the register at an offset in bytes would return now. The call clears no cause
    /// and no counter.
    pub fn value(&self, offset: u32) -> u32
        ensures answer { result ≡ answer_at offset self.now }
        ensures adapter { IsAdapter self.now }
    {
        // The register file contains neither STATUS nor PBA.
        if offset == STATUS {
            self.status().bits()
        } else if offset == PBA {
            self.packet_buffer.read()
        } else {
            self.file.value(Register::at(offset))
        }
    }

    /// Performs a driver's write of the register at an offset in bytes, by the table of [`offsets`](crate::offsets). A
    /// write of CTRL with RST resets the adapter. If no register is at the offset, nothing changes (our choice).
    #[inline(always)]
    pub fn write(&mut self, offset: u32, value: u32)
        ensures state { self.new ≡ after_write offset value self.old }
        ensures adapter { IsAdapter self.new }
    {
        // The register file doesn't contain PBA, and its write of CTRL ignores RST.
        if offset == CTRL && asks_for_reset(value) {
            self.reset();
        } else if offset == PBA {
            self.packet_buffer.write(value);
        } else {
            self.file.write(Register::at(offset), value);
        }
    }

    /// Returns whether the interrupt line is asserted: some recorded cause is in the mask (our choice: no throttling).
    pub fn line(&self) -> bool
        ensures line { IsTrue result ↔ Meet self.now.causes.recorded self.now.causes.mask }
        ensures adapter { IsAdapter self.now }
    {
        self.file.causes.line()
    }

    /// Returns whether a read of EERD is pending, which the next `EepromTick` would end.
    pub fn eeprom_has_work(&self) -> bool
        ensures { result ≡ is_pending self.now.eerd }
    {
        self.file.eerd.is_pending()
    }

    /// Returns whether the next `PhyTick` would have something to do: a link countdown is running, or a command of MDIC
    /// is pending.
    pub fn phy_has_work(&self) -> bool
        ensures { result ≡ has_work self.now.mdic self.now.phy }
    {
        self.file.mdic.has_work(&self.phy)
    }

    /// Feeds the whole state of the adapter to a hasher, for a digest, except for the image of the EEPROM, which never
    /// changes. Equal adapters feed the same bytes.
    pub fn feed<H: Hasher>(&self, hasher: &mut H)
        ensures { hasher.new ≡ fold H.write hasher.old (adapter_writes self.now) }
    {
        hasher.write_u32(self.packet_buffer.read());
        self.file.feed(hasher);
        self.phy.feed(hasher);
        self.receiver.feed(hasher);
        self.transmitter.feed(hasher);
    }

    /// Performs one step of the adapter on its host's memory. `wire_free` is whether the wire has room for a frame. If
    /// the step puts a frame onto the wire, the outcome is `Put` with a copy of this frame. If the outcome is `Nothing`,
    /// the adapter and the memory are unchanged.
    ///
    /// Only `TxTake` and `RxData` can return `Fault`. A fault changes neither memory nor a register of a ring (our
    /// choice). After a fault, steps of the same kind return `Nothing` until a write of CTRL with RST, as the contract
    /// of [`write`](Adapter::write) states. Neither steps of other kinds nor arrivals depend on the fault.
    ///
    /// A step changes at most these bytes of memory:
    /// - [`RxData`](StepKind::RxData): the bytes of the piece, in the buffer that the receive descriptor at RDH points
    ///   to.
    /// - [`RxDone`](StepKind::RxDone): bytes 8 to 15 of the descriptor of the piece in progress.
    /// - [`TxPut`](StepKind::TxPut): byte 12 of the descriptor of the frame that is put on the wire.
    ///
    /// `RxDone` writes nothing if the descriptor isn't inside memory, and `TxPut` writes nothing if byte 12 of the
    /// descriptor isn't inside memory. Both cases occur only if the memory is smaller than in the step that fetched the
    /// descriptor.
    pub fn step(
        &mut self,
        kind: StepKind,
        memory: &mut HostMemory,
        wire_free: bool,
    ) -> Outcome<Frame>
        ensures answer { Answers kind wire_free memory.old self.old result }
        ensures state { self.new ≡ after_step kind result memory.old self.old }
        ensures memory { memory.new ≡ memory_after_step kind result memory.old self.old }
        ensures nothing { result ≡ Nothing → (self.new ≡ self.old) × (memory.new ≡ memory.old) }
        ensures fault { result ≡ Fault → (memory.new ≡ memory.old)
            × (self.new.receive_ring ≡ self.old.receive_ring) × (self.new.transmit_ring ≡ self.old.transmit_ring) }
        ensures only { ChangesAtMost kind self.old memory.old memory.new }
        ensures size { length memory.new ≡ length memory.old }
        ensures adapter { IsAdapter self.new }
    {
        // The step removes the frame that it puts, so the frame is copied before.
        let frame = match self.to_put() {
            Some(bytes) => Frame::from_slice(bytes),
            None => Frame::new(),
        };
        self.step_unframed(kind, memory, wire_free)
            .with_frame(frame)
    }

    /// Performs one step, as [`step`](Adapter::step) does, but copies no frame. A caller that needs the frame of `Put`
    /// reads [`to_put`](Adapter::to_put) before the step. In the clauses, `framed` adds this frame to the outcome.
    #[inline(always)]
    pub fn step_unframed(
        &mut self,
        kind: StepKind,
        memory: &mut HostMemory,
        wire_free: bool,
    ) -> Outcome<()>
        ensures answer { Answers kind wire_free memory.old self.old (framed result self.old) }
        ensures state { self.new ≡ after_step kind (framed result self.old) memory.old self.old }
        ensures memory { memory.new ≡ memory_after_step kind (framed result self.old) memory.old self.old }
        ensures nothing { result ≡ Nothing → (self.new ≡ self.old) × (memory.new ≡ memory.old) }
        ensures fault { result ≡ Fault → (memory.new ≡ memory.old)
            × (self.new.receive_ring ≡ self.old.receive_ring) × (self.new.transmit_ring ≡ self.old.transmit_ring) }
        ensures only { ChangesAtMost kind self.old memory.old memory.new }
        ensures size { length memory.new ≡ length memory.old }
        ensures adapter { IsAdapter self.new }
    {
        match kind {
            StepKind::TxTake => self.take_frame(memory),
            StepKind::TxPut => self.put_frame(memory, wire_free),
            StepKind::RxData => self.move_piece(memory),
            StepKind::RxDone => self.finish_piece(memory),
            StepKind::EepromTick => self.tick_eeprom(),
            StepKind::PhyTick => self.tick_phy(),
        }
    }
}

/// A reset, the value of STATUS, and the ticks of the EEPROM and the PHY.
impl Adapter {
    ghost use Rattle.adapter_model.specs.Registers.{after_reset, answer};
    ghost use Rattle.adapter_model.specs.State.{IsAdapter};
    ghost use Rattle.adapter_model.specs.declared.outcome.Outcome.TheVariants as outcome;
    ghost use Rattle.adapter_model.specs.Outcomes.{framed};
    ghost use Rattle.eeprom.specs.Eerd.{is_pending};
    ghost use Rattle.mdic_phy.specs.Mdic.{has_work};
    ghost use Rattle.adapter_model.specs.Steps.{after_eeprom_tick, after_phy_tick, ticked};

    /// Sets all registers except PBA to their reset values, empties both packet buffers, drops the piece in progress,
    /// and restarts both engines. PBA, the PHY and the image of the EEPROM don't change.
    fn reset(&mut self)
        ensures state { self.new ≡ after_reset self.old }
        ensures adapter { IsAdapter self.new }
    {
        self.file = RegisterFile::at_reset(&self.image);
        self.receiver.reset();
        self.transmitter.reset();
    }

    /// Returns the value of STATUS, which shows a link if and only if the PHY's link is up and CTRL.SLU is set (our
    /// choice).
    fn status(&self) -> Status
        ensures status { result.0 ≡ answer Register.Status self.now }
        ensures adapter { IsAdapter self.now }
    {
        Status::of_link(self.phy.link_is_up() && self.file.ctrl.sets_link_up())
    }

    /// Ends a pending read of EERD, and returns `Ticked`. Returns `Nothing` if no read is pending.
    fn tick_eeprom(&mut self) -> Outcome<()>
        ensures state { self.new ≡ after_eeprom_tick self.old }
        ensures answer { framed result self.old ≡ ticked (is_pending self.old.eerd) }
        ensures nothing { result ≡ outcome.Nothing → self.new ≡ self.old }
        ensures adapter { IsAdapter self.new }
    {
        if self.file.eerd.tick(&self.image) {
            Outcome::Ticked
        } else {
            Outcome::Nothing
        }
    }

    /// Performs a tick of the PHY: decreases a running link countdown by 1, and then ends a pending command of MDIC.
    /// Records LSC if the link changed to up, and MDAC if a command with bit I set has ended. Returns `Ticked`, or
    /// `Nothing` if no link countdown was running and no command was pending.
    fn tick_phy(&mut self) -> Outcome<()>
        ensures state { self.new ≡ after_phy_tick self.old }
        ensures answer { framed result self.old ≡ ticked (has_work self.old.mdic self.old.phy) }
        ensures nothing { result ≡ outcome.Nothing → self.new ≡ self.old }
        ensures adapter { IsAdapter self.new }
    {
        let ticked = self.file.mdic.tick(&mut self.phy);
        self.file.causes.raise(causes_of_tick(ticked));
        outcome_of_tick(ticked)
    }
}

/// Returns whether a word that is written to CTRL has RST set.
fn asks_for_reset(value: u32) -> bool
    ensures { result ≡ is_reset Register.Ctrl value }
{
    Ctrl::written(value).resets()
}

/// Returns the outcome of a tick of the PHY with this result: `Outcome::Nothing` for `None`, else `Outcome::Ticked`.
fn outcome_of_tick(ticked: Option<Ticked>) -> Outcome<()>
    ensures { result ≡ outcome_of_tick ticked }
{
    match ticked {
        Some(_) => Outcome::Ticked,
        None => Outcome::Nothing,
    }
}

/// Returns the causes that a tick of the PHY with this result records: LSC if the link changed to up, and MDAC if a
/// command with bit I set has ended. For `None`, returns no cause.
fn causes_of_tick(ticked: Option<Ticked>) -> Cause
    ensures { result.0 ≡ causes_of_tick ticked }
{
    let mut causes = Cause::empty();
    let Some(ticked) = ticked else {
        return causes;
    };
    if ticked.link_changed {
        causes.insert(Cause::LSC);
    }
    if ticked.access_complete {
        causes.insert(Cause::MDAC);
    }
    causes
}
