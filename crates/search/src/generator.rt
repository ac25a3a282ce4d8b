//! The generator of drawn runs: PCG, of the crate `rand_pcg`.

ghost use Rattle.std.specs.Prelude.{◌≡◌, ◌≤◌, ◌-◌};
ghost use Rattle.search.specs.Generators.{after_word, generator_of, word_of};

use rand_core::SeedableRng;
use rand_core::utils::{NextWord, next_u64_via_u32};
use rand_pcg::Lcg64Xsh32;

/// A generator `Lcg64Xsh32`, as its two words.
#[repr(C)]
#[derive(Clone, Copy)]
pub struct Generator {
    pub state: u64,
    pub stream: u64,
}

/// The words of the seed's generator that each run takes: two for its state, and two for its stream.
const WORDS: u64 = 4;

/// Returns the generator of a run. A seed has one generator, which `seed_from_u64` makes. Run `number` takes its words
/// from `4 * number` on as the state and the stream of its own generator.
///
/// Streams with consecutive numbers but one state would be correlated, so the number isn't the stream.
pub(crate) fn start(seed: u64, number: u64) -> Generator
    ensures { result ≡ generator_of seed number }
{
    let mut runs = Lcg64Xsh32::seed_from_u64(seed);
    runs.advance(number.wrapping_mul(WORDS));
    let state = next_u64_via_u32(&mut runs);
    let stream = next_u64_via_u32(&mut runs);
    let own = Lcg64Xsh32::new(state, stream);
    Generator {
        state: own.state(),
        stream: own.stream(),
    }
}

/// Draws 32 bits.
pub(crate) fn draw_word(generator: &mut Generator) -> u32
    ensures word { result ≡ word_of generator.old }
    ensures next { generator.new ≡ after_word generator.old }
{
    let mut own = Lcg64Xsh32::from_state(generator.state, generator.stream);
    let word = own.next_word();
    generator.state = own.state();
    word
}

/// Draws a number below `end`. If `end` is 0, the result is 0.
pub(crate) fn draw_below(generator: &mut Generator, end: u32) -> u32
    ensures { result ≤ end - 1 }
{
    let word = draw_word(generator);
    if end == 0 { 0 } else { word % end }
}

/// Draws 64 bits, each with probability 1/2.
pub(crate) fn draw_bits(generator: &mut Generator) -> u64 {
    let low = u64::from(draw_word(generator));
    let high = u64::from(draw_word(generator));
    (high << 32) | low
}
