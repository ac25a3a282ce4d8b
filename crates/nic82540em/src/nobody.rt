// An observer that keeps nothing.

use access_names::EngineFault;
use adapter::{Fate, Outcome, StepKind};
use played_adapter::Observer;
use step_schedules::Action;

/// The observer of an access of which no event is kept: each of its methods does nothing.
#[derive(Clone, Copy)]
pub(crate) struct Nobody;

impl Observer for Nobody {
    ghost use Rattle.std.specs.Prelude.{⊤};

    ghost heard = { λ before after told. ⊤ };

    ghost composes = { record {
      stays = λ a. tt;
      joins = λ a b c first later one two. tt;
    } };

    fn stepped(
        &mut self,
        _kind: StepKind,
        _outcome: Outcome<()>,
        _frame: &[u8],
        _fault: Option<EngineFault>,
    ) {}

    fn arrived(&mut self, _frame: &[u8], _fate: Fate) {}

    fn offered_arrived(&mut self, _frame: &[u8], _fate: Fate) {}

    fn read(&mut self, _offset: u32, _value: u32) {}

    fn written(&mut self, _offset: u32, _value: u32) {}

    fn loaded(&mut self, _address: u64, _bytes: &[u8]) {}

    fn stored(&mut self, _address: u64, _bytes: &[u8]) {}

    fn noted(&mut self, _action: Action) {}

    fn line(&mut self, _level: bool) {}
}
