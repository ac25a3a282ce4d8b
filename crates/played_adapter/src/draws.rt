// The steps, arrivals and numbers that the generator draws.

ghost use Rattle.std.specs.Prelude.{◌≡◌};
ghost use Rattle.rand_core.specs.Pcg32Seed.{pcg32_seed};
ghost use Rattle.rand_pcg.specs.Pcg.{pcg32_of_seed};
ghost use Rattle.played_adapter.specs.Choices.{drawn};
ghost use Rattle.played_adapter.specs.Draws.{chosen_below};
ghost use Rattle.played_adapter.specs.Kinds as kinds;
ghost use Rattle.played_adapter.specs.Order.{Tells};
ghost use Rattle.played_adapter.specs.Playing.{Interleaves};

use crate::choices::Choice;
use crate::frames::Frames;
use crate::observer::Observer;
use crate::player::PlayedAdapter;
use adapter::StepKind;
use rand_core::SeedableRng;
use rand_core::utils::NextWord;
use rand_pcg::Lcg64Xsh32;

/// The number of kinds of steps.
const KINDS: u32 = 6;

/// The number of choices while a frame is offered: a step of each kind, and an arrival.
const CHOICES: u32 = KINDS + 1;

/// Returns the kind of steps with this number, from 0 to 5. A greater number also means `PhyTick`.
fn kind_numbered(number: u32) -> StepKind
    ensures { result ≡ kinds.kind_numbered number }
{
    match number {
        0 => StepKind::TxTake,
        1 => StepKind::TxPut,
        2 => StepKind::RxData,
        3 => StepKind::RxDone,
        4 => StepKind::EepromTick,
        _ => StepKind::PhyTick,
    }
}

/// Draws a choice with the generator's next word. If no frame is offered, the choice is a step. Otherwise the choice is
/// a step, or the arrival of the oldest offered frame.
fn draw(generator: &mut Lcg64Xsh32, offered: &Frames) -> Choice
    ensures choice { result ≡ (drawn offered.now generator.old).0 }
    ensures generator { generator.new ≡ (drawn offered.now generator.old).1 }
{
    let word: u32 = generator.next_word();
    if offered.is_empty() {
        return Choice::Step(kind_numbered(word % KINDS));
    }
    let number = word % CHOICES;
    if number == KINDS {
        Choice::Arrival
    } else {
        Choice::Step(kind_numbered(number))
    }
}

/// If neither `most_steps` nor `limit` is 0, draws a number below `limit` with the generator's next word. Otherwise
/// takes no word, and returns `wanted` if `wanted` is below `limit`, or else 0.
pub(crate) fn choose_below(
    generator: &mut Lcg64Xsh32,
    most_steps: u16,
    limit: u32,
    wanted: u32,
) -> u32
    ensures number { result ≡ (chosen_below most_steps limit wanted generator.old).0 }
    ensures generator { generator.new ≡ (chosen_below most_steps limit wanted generator.old).1 }
{
    if most_steps == 0 || limit == 0 {
        return if wanted < limit { wanted } else { 0 };
    }
    let word: u32 = generator.next_word();
    word % limit
}

impl PlayedAdapter {
    /// Sets the maximum number of steps and arrivals that are drawn before each access. If `most` is 0, nothing is
    /// drawn. Replaces the generator by one with this seed, expanded to 16 bytes.
    pub fn interleave(&mut self, most: u16, seed: u64)
        ensures { self.new ≡ record self.old { generator = pcg32_of_seed (pcg32_seed 16 seed); most_steps = most } }
    {
        self.generator = Lcg64Xsh32::seed_from_u64(seed);
        self.most_steps = most;
    }

    /// Plays the steps and arrivals that the generator draws before an access. Their number is drawn first, and then
    /// each of them right before it is played.
    pub(crate) fn interleave_steps<O: Observer>(&mut self, observer: &mut O)
        ensures { Tells O.heard observer.old observer.new (Interleaves self.old self.new) }
    {
        // The number is at most `most_steps`. If `most_steps` is 0, no word is taken.
        let most = self.most_steps;
        let count = choose_below(&mut self.generator, most, u32::from(most) + 1, 0);
        for _step in 0..count {
            let choice = draw(&mut self.generator, &self.offered);
            self.choose(choice, observer);
        }
    }
}
