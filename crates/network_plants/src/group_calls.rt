//! Twins of the calls of `Driver` that change the joined groups. The prover knows only the clauses of a call, so these
//! must imply the clauses of its twin. The edits in `must-fail/` are wrong bodies of twins.

ghost use Rattle.std.specs.Prelude.{◌≡◌};
ghost use Rattle.std.specs.Result.{OnOk};
ghost use Rattle.adapter.specs.Calls.{WhereReady, at};
ghost use Rattle.bring_up.specs.Groups.{ChangesJoined, HasNumber};

use adapter::Bus;
use driver::{Driver, GroupError};

/// A twin of [`Driver::join`].
pub fn join<B: Bus>(driver: &mut Driver, bus: &mut B, group: [u8; 6]) -> Result<(), GroupError>
    ensures quiet { HasNumber driver.old.groups group → bus.new ≡ bus.old }
    ensures joins { WhereReady B.Bus (at bus.old driver.old) (at bus.new driver.new)
        (λ transmit_up old new. OnOk result (ChangesJoined B.Bus transmit_up driver.old.groups group old new)) }
{
    match driver.join(bus, group) {
        Ok(()) => Ok(()),
        Err(refused) => Err(refused),
    }
}

/// A twin of [`Driver::leave`].
pub fn leave<B: Bus>(driver: &mut Driver, bus: &mut B, group: [u8; 6]) -> Result<(), GroupError>
    ensures quiet { HasNumber driver.new.groups group → bus.new ≡ bus.old }
{
    match driver.leave(bus, group) {
        Ok(left) => Ok(left),
        Err(refused) => Err(refused),
    }
}
