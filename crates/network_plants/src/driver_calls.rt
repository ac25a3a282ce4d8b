//! Twins of calls of `Driver`. The prover knows only the clauses of a call, so these must imply the clauses of its
//! twin. The edits in `must-fail/` are wrong bodies of twins.

ghost use Rattle.std.specs.Prelude.{◌<◌, ◌≤◌, ◌++◌, All, IfErr, take};
ghost use Rattle.dma_memory.specs.Layout.{size_of};
ghost use Rattle.dma_memory.specs.Owners.{HasNoSecondOwner, HaveSameNumbers};
ghost use Rattle.adapter.specs.Calls.{OffersAll, Runs, WhereReady, at, only};
ghost use Rattle.adapter.specs.DriverState.{owners};
ghost use Rattle.driver.specs.HandlerSteps.{Handles, ReadsHeld, WhereReadyIn, scene};
ghost use Rattle.driver.specs.Initialisation.{RefusesInit};
ghost use Rattle.driver.specs.Parts.{IsWholeFrame, buffers_in, part_loads};
ghost use Rattle.driver.specs.RefillSteps.{Refills, WhereHeld};
ghost use Rattle.driver.specs.Resetting.{Resets};
ghost use Rattle.driver.specs.SendSteps.{Transmits};

use adapter::Bus;
use driver::{Config, Driver, Handled, InitError, Parts, Received, Receiver, SendError};
use std::alloc::Global;

/// A twin of [`Driver::init`].
pub fn init<B: Bus>(alloc: Global, bus: &mut B, config: &Config) -> Result<Driver, InitError>
    ensures refuses { B.honest bus.old → IfErr result (RefusesInit B.Bus bus.old bus.new) }
{
    match Driver::init(alloc, bus, config) {
        Ok(driver) => Ok(driver),
        Err(error) => Err(error),
    }
}

/// A twin of [`Driver::transmit`].
pub fn transmit<B: Bus>(driver: &mut Driver, bus: &mut B, frame: &[u8]) -> Result<(), SendError>
    requires memory { size_of driver.old.layout ≤ B.extent bus.old }
    ensures transmits { Transmits B.Bus frame.now result (at bus.old driver.old) (at bus.new driver.new) }
{
    match driver.transmit(bus, frame) {
        Ok(()) => Ok(()),
        Err(refused) => Err(refused),
    }
}

/// A twin of [`Driver::interrupt`].
pub fn interrupt<B: Bus, R: Receiver>(driver: &mut Driver, bus: &mut B, receiver: &mut R) -> Handled
    requires memory { size_of driver.old.layout ≤ B.extent bus.old }
    ensures handles { WhereReadyIn B.Bus (scene bus.old driver.old receiver.old) (scene bus.new driver.new receiver.new)
        (Handles B.Bus R.Receiver result) }
{
    driver.interrupt(bus, receiver)
}

/// A twin of [`Driver::interrupt`].
pub fn interrupt_with_answers<B: Bus, R: Receiver>(
    driver: &mut Driver,
    bus: &mut B,
    receiver: &mut R,
) -> Handled
    requires memory { size_of driver.old.layout ≤ B.extent bus.old }
    ensures handles { WhereReadyIn B.Bus (scene bus.old driver.old receiver.old) (scene bus.new driver.new receiver.new)
        (Handles B.Bus R.Receiver result) }
{
    match driver.interrupt(bus, receiver) {
        Handled::NotMine => Handled::NotMine,
        Handled::Handled { taken } => Handled::Handled { taken },
    }
}

/// A twin of [`Driver::refill`].
pub fn refill<B: Bus>(driver: &mut Driver, bus: &mut B)
    requires memory { size_of driver.old.layout ≤ B.extent bus.old }
    ensures offers { OffersAll driver.old driver.new }
    ensures refills { WhereReady B.Bus (at bus.old driver.old) (at bus.new driver.new) (Refills B.Bus) }
{
    driver.refill(bus);
}

/// A twin of [`Driver::read`].
pub fn read<B: Bus>(
    driver: &Driver,
    bus: &mut B,
    received: &Received,
    into: &mut [u8; 1518],
) -> usize
    requires memory { size_of driver.now.layout ≤ B.extent bus.old }
    requires known { All (λ number. number < driver.now.layout.buffers) (buffers_in received.now.parts) }
    requires whole { IsWholeFrame received.now }
    ensures ran { Runs B.Bus (only (part_loads driver.now.layout received.now.parts))
        (at bus.old driver.now) (at bus.new driver.now) }
    ensures frame { ReadsHeld B.Bus received.now (at bus.old driver.now) (take result into.new) }
{
    driver.read(bus, received, into)
}

/// A twin of [`Driver::give`].
pub fn give<B: Bus>(driver: &mut Driver, bus: &mut B, parts: Parts)
    requires memory { size_of driver.old.layout ≤ B.extent bus.old }
    requires one_owner { HasNoSecondOwner driver.old.layout.buffers (buffers_in parts ++ owners driver.old) }
    ensures offers { OffersAll driver.old driver.new }
    ensures owners { HaveSameNumbers (buffers_in parts ++ owners driver.old) (owners driver.new) }
    ensures gives { WhereHeld B.Bus parts (at bus.old driver.old) (at bus.new driver.new) (Refills B.Bus) }
{
    driver.give(bus, parts);
}

/// A twin of [`Driver::reset`].
pub fn reset<B: Bus>(driver: &mut Driver, bus: &mut B)
    requires memory { size_of driver.old.layout ≤ B.extent bus.old }
    ensures resets { WhereReady B.Bus (at bus.old driver.old) (at bus.new driver.new) (Resets B.Bus) }
{
    driver.reset(bus);
}
