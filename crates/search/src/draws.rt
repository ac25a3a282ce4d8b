//! Draws: which actions a drawn run does at each place.

ghost use Rattle.std.specs.Prelude.{◌≡◌, ◌≢◌, ◌<◌, ◌≤◌, ◌+◌, true};
ghost use Rattle.search.specs.Actions.{action_in, is_possible};
ghost use Rattle.search.specs.Draws.{AreFewer, GoesNext, IsDrawable, IsDrawn, IsTaken};
ghost use Rattle.search.specs.Generators.{generator_of};

use crate::actions::{ANSWER, Action, ENGINE, HALF, MOST_ACTIONS, NONE, QUARTER};
use crate::generator::{Generator, draw_below, draw_bits, start};
use crate::masks::{at_index, both, draw_from, is_in, of_groups, of_kind, without};
use crate::priorities::{Priorities, draw_priorities, next_ready, no_priorities, see_place};

/// A mode of drawing actions of engines: before each access, each of them with probability 1/2, in a random order.
pub const UNIFORM: u32 = 0;
/// A mode: before one access of 16, a random set of groups does all its work.
pub const BURSTS: u32 = 1;
/// A mode: probabilistic concurrency testing, by priorities of groups.
pub const PCT: u32 = 2;

/// The greatest number of actions in a burst.
pub const MOST_IN_BURST: u32 = 64;
/// Before one access of this number, on average, there is a burst.
const BETWEEN_BURSTS: u32 = 16;
/// Before one of this number of requests that begin a round, on average, something is drawn. With more before such
/// requests, less work is left for the accesses after them.
const BETWEEN_REQUESTS: u32 = 8;

/// The phases of a place, in their order: which actions are drawn next.
const QUARTERS: u32 = 0;

const ENGINES: u32 = 1;

const HALVES: u32 = 2;

const ANSWERS: u32 = 3;

const SETTLED: u32 = 4;

/// What determines the draws of a run.
#[repr(C)]
#[derive(Clone, Copy)]
pub struct Drawing {
    /// [`UNIFORM`], [`BURSTS`] or [`PCT`]. In another mode, no action of an engine is drawn.
    pub mode: u32,
    /// For PCT, the number of events that a race needs in a certain order: at most 16.
    pub depth: u32,
    /// For PCT, the number of events of a run without deviations: its places and the actions of its groups.
    pub events: u32,
    /// For PCT, the number of groups, with the driver's.
    pub groups: u32,
    /// Seed and number of the run. Equal ones, in equal modes, draw the same.
    pub seed: u64,
    pub number: u64,
}

/// A place of a drawn run.
#[repr(C)]
#[derive(Clone, Copy)]
pub struct Site {
    /// The actions that would do something. If there are none, no number is drawn for the place.
    pub possible: u64,
    /// 0 if the place is no read; otherwise equal for reads of one register or address.
    pub poll: u64,
    /// Whether the place is a request that begins a round.
    pub is_request: bool,
    /// The group that runs at this place: 0 for the driver, or that of a handler that has cut in.
    pub runs: u32,
}

/// The draws of a run, and where it is.
#[repr(C)]
#[derive(Clone, Copy)]
pub struct Draw {
    pub settings: Drawing,
    pub generator: Generator,
    /// The actions that may still be drawn at this place.
    pub left: u64,
    /// The actions of engines (uniform) or the groups (bursts) that were chosen for this place.
    pub chosen: u64,
    /// What is drawn next at this place.
    pub phase: u32,
    /// The number of actions of the burst at this place.
    pub burst: u32,
    pub priorities: Priorities,
}

/// Begins the draws of a run.
pub fn begin_draw(settings: Drawing) -> Draw
    ensures settings { result.settings ≡ settings }
    ensures settled { result.phase ≡ 4 }
    ensures generator { settings.mode ≢ PCT → result.generator ≡ generator_of settings.seed settings.number }
{
    let mut generator = start(settings.seed, settings.number);
    let priorities = if settings.mode == PCT {
        draw_priorities(
            &mut generator,
            settings.depth,
            settings.events,
            settings.groups,
        )
    } else {
        no_priorities()
    };
    Draw {
        settings,
        generator,
        left: 0,
        chosen: 0,
        phase: SETTLED,
        burst: 0,
        priorities,
    }
}

/// Draws which actions of engines, or which groups, a place gets.
fn choose(generator: &mut Generator, mode: u32, site: Site) -> u64 {
    if site.possible == 0 || mode == PCT {
        return 0;
    }
    if site.is_request && draw_below(generator, BETWEEN_REQUESTS) != 0 {
        return 0;
    }
    if mode == BURSTS && draw_below(generator, BETWEEN_BURSTS) != 0 {
        return 0;
    }
    draw_bits(generator)
}

/// Begins a place.
pub fn draw_place(draw: &mut Draw, site: Site)
    ensures settings { draw.new.settings ≡ draw.old.settings }
    ensures burst { draw.new.burst ≡ 0 }
{
    draw.chosen = choose(&mut draw.generator, draw.settings.mode, site);
    draw.left = u64::MAX;
    draw.phase = QUARTERS;
    draw.burst = 0;
    see_place(&mut draw.priorities, site.poll, site.runs);
}

/// Draws the smallest action of a kind with probability 1 / `one_in`, or else the next one, and so on. No action is
/// considered twice at a place.
fn draw_chance(
    generator: &mut Generator,
    left: &mut u64,
    actions: &[Action],
    possible: u64,
    kind: u32,
    one_in: u32,
) -> u32
    requires { kind < 4 }
    ensures drawn { result ≢ NONE → IsDrawn actions.now possible kind result }
    ensures once { result ≢ NONE → IsTaken left.old left.new result }
    ensures fewer { AreFewer left.old left.new }
{
    let waiting = of_kind(actions, both(*left, possible), kind);
    if waiting == 0 {
        return NONE;
    }
    for number in 0..MOST_ACTIONS {
        if is_in(waiting, number) {
            *left = without(*left, number);
            if draw_below(generator, one_in) == 0 {
                return number;
            }
        }
    }
    NONE
}

/// Draws the chosen actions of engines in a random order. Those that would do nothing in their turn are left out.
fn draw_uniform(
    generator: &mut Generator,
    left: &mut u64,
    chosen: u64,
    actions: &[Action],
    possible: u64,
) -> u32
    ensures drawn { result ≢ NONE → IsDrawn actions.now possible ENGINE result }
    ensures once { result ≢ NONE → IsTaken left.old left.new result }
    ensures fewer { AreFewer left.old left.new }
{
    let engines = of_kind(actions, chosen, ENGINE);
    for _turn in 0..MOST_ACTIONS {
        let waiting = both(*left, engines);
        if waiting == 0 {
            return NONE;
        }
        let next = draw_from(generator, waiting);
        if next == NONE {
            return NONE;
        }
        *left = without(*left, next);
        if is_in(possible, next) {
            return next;
        }
    }
    NONE
}

/// Draws an action of an engine whose group was chosen, among those that would do something.
fn draw_working(generator: &mut Generator, chosen: u64, actions: &[Action], possible: u64) -> u32
    ensures drawn { result ≢ NONE → IsDrawn actions.now possible ENGINE result }
    ensures group { result ≢ NONE → is_possible chosen (action_in actions.now result).group ≡ true }
{
    let engines = of_kind(actions, possible, ENGINE);
    let working = of_groups(actions, engines, chosen);
    if working == 0 {
        return NONE;
    }
    draw_from(generator, working)
}

/// Draws one of the answers or none, each with the same probability.
fn draw_answer(generator: &mut Generator, left: &mut u64, actions: &[Action], possible: u64) -> u32
    ensures drawn { result ≢ NONE → IsDrawn actions.now possible ANSWER result }
    ensures once { result ≢ NONE → IsTaken left.old left.new result }
    ensures fewer { AreFewer left.old left.new }
{
    let answers = of_kind(actions, both(*left, possible), ANSWER);
    if answers == 0 {
        return NONE;
    }
    let index = draw_below(generator, answers.count_ones() + 1);
    if index == 0 {
        return NONE;
    }
    let answer = at_index(answers, index - 1);
    if answer == NONE {
        return NONE;
    }
    *left = without(*left, answer);
    answer
}

/// Draws an action of an engine by the mode of the drawing.
fn draw_engine(draw: &mut Draw, actions: &[Action], possible: u64) -> u32
    ensures drawn { result ≢ NONE → IsDrawn actions.now possible ENGINE result }
    ensures once { result ≢ NONE → draw.old.settings.mode ≡ UNIFORM → IsTaken draw.old.left draw.new.left result }
    ensures fewer { AreFewer draw.old.left draw.new.left }
    ensures burst { result ≢ NONE → draw.old.settings.mode ≡ BURSTS
        → (draw.new.burst ≡ draw.old.burst + 1) × (draw.new.burst ≤ MOST_IN_BURST) }
    ensures highest { result ≢ NONE → draw.old.settings.mode ≡ PCT
        → GoesNext draw.old.priorities actions.now possible draw.old.settings.groups result }
    ensures same { (draw.new.settings ≡ draw.old.settings) × (draw.new.phase ≡ draw.old.phase) }
    ensures unchanged { result ≡ NONE → draw.new.burst ≡ draw.old.burst }
{
    if draw.settings.mode == UNIFORM {
        return draw_uniform(
            &mut draw.generator,
            &mut draw.left,
            draw.chosen,
            actions,
            possible,
        );
    }
    if draw.settings.mode == PCT {
        return next_ready(
            &mut draw.priorities,
            actions,
            possible,
            draw.settings.groups,
        );
    }
    if draw.settings.mode != BURSTS || draw.burst >= MOST_IN_BURST {
        return NONE;
    }
    let next = draw_working(&mut draw.generator, draw.chosen, actions, possible);
    if next != NONE {
        draw.burst += 1;
    }
    next
}

/// Draws an action of the present phase of a place, or [`NONE`] at the end of the phase.
fn draw_phase(draw: &mut Draw, actions: &[Action], possible: u64) -> u32
    ensures drawn { result ≢ NONE → IsDrawable actions.now possible result }
    ensures once { result ≢ NONE → ((action_in actions.now result).drawn ≡ ENGINE → draw.old.settings.mode ≡ UNIFORM)
        → IsTaken draw.old.left draw.new.left result }
    ensures fewer { AreFewer draw.old.left draw.new.left }
    ensures burst { result ≢ NONE → (action_in actions.now result).drawn ≡ ENGINE → draw.old.settings.mode ≡ BURSTS
        → (draw.new.burst ≡ draw.old.burst + 1) × (draw.new.burst ≤ MOST_IN_BURST) }
    ensures highest { result ≢ NONE → (action_in actions.now result).drawn ≡ ENGINE → draw.old.settings.mode ≡ PCT
        → (draw.old.phase ≡ ENGINES)
        × GoesNext draw.old.priorities actions.now possible draw.old.settings.groups result }
    ensures answer { result ≢ NONE → (action_in actions.now result).drawn ≡ ANSWER → draw.new.phase ≡ SETTLED }
    ensures same { draw.new.settings ≡ draw.old.settings }
    ensures unchanged { result ≡ NONE → (draw.new.phase ≡ draw.old.phase) × (draw.new.burst ≡ draw.old.burst)
        × (draw.old.phase ≡ QUARTERS → draw.new.priorities ≡ draw.old.priorities) }
{
    if draw.phase == QUARTERS {
        return draw_chance(
            &mut draw.generator,
            &mut draw.left,
            actions,
            possible,
            QUARTER,
            4,
        );
    }
    if draw.phase == ENGINES {
        return draw_engine(draw, actions, possible);
    }
    if draw.phase == HALVES {
        return draw_chance(
            &mut draw.generator,
            &mut draw.left,
            actions,
            possible,
            HALF,
            2,
        );
    }
    let answer = draw_answer(&mut draw.generator, &mut draw.left, actions, possible);
    if answer != NONE {
        draw.phase = SETTLED;
    }
    answer
}

/// Returns an action to do at this place, which the caller then does, or [`NONE`] if the run goes on. `possible` is the
/// mask of the actions that would do something now.
///
/// First, actions of the kind `QUARTER` are drawn, then those of engines, then those of the kind `HALF`, and then an
/// answer. What is drawn depends only on the arguments.
pub fn draw_next(draw: &mut Draw, actions: &[Action], possible: u64) -> u32
    ensures drawn { result ≢ NONE → IsDrawable actions.now possible result }

    // At a place, no action is drawn twice, except for those of engines in bursts and by priorities.
    ensures once { result ≢ NONE → ((action_in actions.now result).drawn ≡ ENGINE → draw.old.settings.mode ≡ UNIFORM)
        → IsTaken draw.old.left draw.new.left result }
    ensures fewer { AreFewer draw.old.left draw.new.left }

    // A burst has at most 64 actions.
    ensures burst { result ≢ NONE → (action_in actions.now result).drawn ≡ ENGINE → draw.old.settings.mode ≡ BURSTS
        → (draw.new.burst ≡ draw.old.burst + 1) × (draw.new.burst ≤ MOST_IN_BURST) }

    // By priorities, the group with the highest one goes first, if that is above the priority of the group that runs.
    ensures highest { result ≢ NONE → (action_in actions.now result).drawn ≡ ENGINE → draw.old.settings.mode ≡ PCT
        → GoesNext draw.old.priorities actions.now possible draw.old.settings.groups result }

    // After an answer, or after `NONE`, nothing more is drawn at this place.
    ensures answer { result ≢ NONE → (action_in actions.now result).drawn ≡ ANSWER → draw.new.phase ≡ SETTLED }
    ensures settles { result ≡ NONE → SETTLED ≤ draw.new.phase }
    ensures settled { SETTLED ≤ draw.old.phase → (result ≡ NONE) × (draw.new ≡ draw.old) }
    ensures settings { draw.new.settings ≡ draw.old.settings }
{
    for _phase in 0..SETTLED {
        if draw.phase >= SETTLED {
            return NONE;
        }
        let next = draw_phase(draw, actions, possible);
        if next != NONE {
            return next;
        }
        draw.phase += 1;
    }
    NONE
}
