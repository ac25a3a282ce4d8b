// The register file: the registers that a reset sets.

ghost use Rattle.std.specs.Prelude.{◌≡◌, ◌<◌, ◌==◌, [], ◌∷◌, if◌then◌else◌, fold, length, slice_index};
ghost use Rattle.registers.specs.Bits.{union};
ghost use Rattle.registers.specs.Places.{alone, rxt0};
ghost use Rattle.adapter_model.specs.Hashed.{file_writes};
ghost use Rattle.adapter_model.specs.Recording.{one_more};
ghost use Rattle.adapter_model.specs.Registers.{filter_at_reset};
ghost use Rattle.adapter_model.specs.Table.{address_high_at_reset, address_low_at_reset};

use crate::ring::RingRegisters;
use bitflags::Flags;
use eeprom::{Eerd, Image};
use mdic_phy::Mdic;
use registers::{Cause, Causes, Counter, Ctrl, Tctl};
use rx_engine::Fate;
use rx_filter::{ADDRESS_VALID, Filter, VLAN_TYPE};
use std::alloc::AllocError;
use std::hash::{Hash, Hasher};
use tx_engine::Put;

/// The number of bits of a word of the EEPROM.
const WORD_BITS: u32 = 16;

/// The registers that a reset sets: all registers except PBA and the PHY's registers. STATUS isn't stored. The filter
/// contains RAL, RAH, MTA, VFTA, RCTL and VET.
#[derive(Drop)]
pub(crate) struct RegisterFile {
    pub(crate) ctrl: Ctrl,
    pub(crate) eerd: Eerd,
    pub(crate) mdic: Mdic,
    pub(crate) causes: Causes,
    pub(crate) tctl: Tctl,
    pub(crate) receive_ring: RingRegisters,
    pub(crate) transmit_ring: RingRegisters,
    pub(crate) mpc: Counter,
    pub(crate) gprc: Counter,
    pub(crate) gptc: Counter,
    pub(crate) rnbc: Counter,
    pub(crate) filter: Filter,
}

impl Clone for RegisterFile {
    ghost is_clone = { λ file copy. copy ≡ file };

    /// Returns a copy of the registers.
    ///
    /// # Errors
    ///
    /// The call never fails: it allocates no memory.
    fn clone(&self) -> Result<RegisterFile, AllocError> {
        Ok(RegisterFile {
            ctrl: self.ctrl,
            eerd: self.eerd,
            mdic: self.mdic,
            causes: self.causes,
            tctl: self.tctl,
            receive_ring: self.receive_ring,
            transmit_ring: self.transmit_ring,
            mpc: self.mpc,
            gprc: self.gprc,
            gptc: self.gptc,
            rnbc: self.rnbc,
            filter: self.filter.clone()?,
        })
    }
}

// In contracts, `with_file file rest` is an adapter with this register file, and `file_of` is the file of an adapter.
// `rest` stands for the adapter's other parts: a clause that binds `rest` holds whatever they are.
impl RegisterFile {
    ghost use Rattle.std.specs.Prelude.{ℕ, List};
    ghost use Rattle.adapter_model.specs.DataOutcomes.{file_after_put};
    ghost use Rattle.adapter_model.specs.Hashed.{file_of};
    ghost use Rattle.adapter_model.specs.Receiving.{after_arrive};
    ghost use Rattle.adapter_model.specs.State.{AdapterState};
    ghost use Rattle.adapter_model.specs.View.{registers_at_reset, with_file};

    /// Returns the registers after power-on and after a reset, with the Ethernet address from the EEPROM in the first
    /// pair of RAL and RAH. The clause `size` is true of each image, and is for the proofs of callers.
    pub(crate) fn at_reset(image: &Image) -> Self
        ensures registers { result ≡ registers_at_reset image.now }
        ensures size { length image.now ≡ 64 }
    {
        RegisterFile {
            ctrl: Ctrl(0),
            eerd: Eerd::new(),
            mdic: Mdic::new(),
            causes: Causes::new(),
            tctl: Tctl(0),
            receive_ring: RingRegisters::new(),
            transmit_ring: RingRegisters::new(),
            mpc: Counter::new(),
            gprc: Counter::new(),
            gptc: Counter::new(),
            rnbc: Counter::new(),
            filter: filter_at_reset(image),
        }
    }

    /// Counts the arrival of a frame with this fate. If the frame is missed, MPC counts it, and RXO is recorded. If
    /// the frame is stored or missed while RDH equals RDT, RNBC counts it. Any other fate changes nothing.
    pub(crate) fn note_arrival(&mut self, fate: Fate)
        // The registers depend on the fate only, so the clause holds for each frame.
        ensures { (frame : List ℕ) (rest : AdapterState)
            → self.new ≡ file_of (after_arrive fate frame (with_file self.old rest)) }
    {
        match fate {
            Fate::Off | Fate::Illegal | Fate::Filtered => {}
            Fate::Missed => {
                self.mpc.bump();
                self.causes.raise(Cause::RXO);
                self.count_no_buffers();
            }
            Fate::Stored => self.count_no_buffers(),
        }
    }

    /// Counts a stored or missed frame in RNBC if RDH equals RDT. Otherwise nothing changes.
    fn count_no_buffers(&mut self)
        ensures { self.new ≡ record self.old {
          rnbc = (if self.old.receive_ring.head == self.old.receive_ring.tail then one_more self.old.rnbc
              else self.old.rnbc);
        } }
    {
        if self.receive_ring.head == self.receive_ring.tail {
            self.rnbc.bump();
        }
    }

    /// If `ends` is true, a received frame has ended: RXT0 is recorded, and GPRC counts the frame. If `ends` is false,
    /// nothing changes.
    pub(crate) fn note_finished(&mut self, ends: bool)
        ensures { self.new ≡ record self.old {
          causes = record self.old.causes {
            recorded = union self.old.causes.recorded (if ends then alone rxt0 else 0);
          };
          gprc = (if ends then one_more self.old.gprc else self.old.gprc);
        } }
    {
        let causes = if ends { Cause::RXT0 } else { Cause::empty() };
        self.causes.raise(causes);
        if ends {
            self.gprc.bump();
        }
    }

    /// Returns the values of MPC, GPRC, GPTC and RNBC, in the order in which `feed` feeds them.
    fn counter_values(&self) -> [u32; 4]
        ensures { result ≡ self.now.mpc ∷ self.now.gprc ∷ self.now.gptc ∷ self.now.rnbc ∷ [] }
    {
        [
            self.mpc.value(),
            self.gprc.value(),
            self.gptc.value(),
            self.rnbc.value(),
        ]
    }

    /// If a step `TxPut` with this answer of the engine put a frame onto the wire, GPTC counts the frame. If the
    /// frame's descriptor asks for a report, TXDW is recorded. With any other answer, nothing changes.
    pub(crate) fn note_put(&mut self, answer: Put)
        ensures { self.new ≡ file_after_put answer self.old }
    {
        if let Put::Put { reported } = answer {
            let causes = if reported {
                Cause::TXDW
            } else {
                Cause::empty()
            };
            self.causes.raise(causes);
            self.gptc.bump();
        }
    }

    /// Feeds these registers to a hasher. Equal registers feed the same bytes.
    pub(crate) fn feed<H: Hasher>(&self, hasher: &mut H)
        ensures { hasher.new ≡ fold H.write hasher.old (file_writes self.now) }
    {
        let controls = [self.ctrl.0, self.tctl.0];
        let causes = [self.causes.recorded(), self.causes.masked()];
        u32::hash_slice(&controls, hasher);
        u32::hash_slice(&causes, hasher);
        u32::hash_slice(&self.counter_values(), hasher);
        self.receive_ring.feed(hasher);
        self.transmit_ring.feed(hasher);
        self.eerd.feed(hasher);
        self.mdic.feed(hasher);
        self.filter.feed(hasher);
    }
}

/// Returns the filter after a reset: RAL(0) and RAH(0) contain the address in the EEPROM, with AV, and VET is the VLAN
/// type of IEEE 802.1Q (our choice). The other registers of the filter are 0. The clause `size` is for the proof of the
/// caller.
#[tactic(auto, using(crate::proofs::Words::and_address_high))]
fn filter_at_reset(image: &Image) -> Filter
    ensures filter { result ≡ filter_at_reset image.now }
    ensures size { length image.now ≡ 64 }
{
    let mut filter = Filter::new();
    filter.write_ral(0, address_low(image));
    filter.write_rah(0, address_high(image));
    filter.write_vet(VLAN_TYPE);
    filter
}

/// Returns RAL(0) after a reset: words 0 and 1 of the EEPROM, word 0 in the low half.
#[tactic(auto, using(crate::proofs::Words::or_words))]
fn address_low(image: &Image) -> u32
    ensures { result ≡ address_low_at_reset 0 image.now }
{
    u32::from(image.word(1)) << WORD_BITS | u32::from(image.word(0))
}

/// Returns RAH(0) after a reset: word 2 of the EEPROM, with AV set. The clauses `word` and `size` are true of each
/// image, and are for the proof of the caller.
#[tactic(auto, using(crate::proofs::Words::or_valid))]
fn address_high(image: &Image) -> u32
    ensures high { result ≡ address_high_at_reset 0 image.now }
    ensures word { slice_index image.now 2 < 65536 }
    ensures size { length image.now ≡ 64 }
{
    ADDRESS_VALID | u32::from(image.word(2))
}
