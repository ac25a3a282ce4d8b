// The calls of C that draw runs. Each makes one call of this crate.

ghost use Rattle.std.specs.Prelude.{◌≡◌, ◌≢◌, ◌≤◌, ◌+◌};
ghost use Rattle.search.specs.Actions.{action_in};
ghost use Rattle.search.specs.Draws.{AreFewer, GoesNext, IsDrawable, IsTaken};
ghost use Rattle.search.specs.Generators.{generator_of};

use crate::actions::{ANSWER, Action, ENGINE, NONE};
use crate::draws::{BURSTS, Draw, Drawing, MOST_IN_BURST, PCT, Site, UNIFORM};

/// Begins the draws of a run.
#[unsafe(no_mangle)]
pub extern "C" fn schedule_search_draw(draw: &mut Draw, settings: &Drawing)
    ensures settings { draw.new.settings ≡ settings.now }
    ensures settled { draw.new.phase ≡ 4 }
    ensures generator { settings.now.mode ≢ PCT
        → draw.new.generator ≡ generator_of settings.now.seed settings.now.number }
{
    *draw = crate::begin_draw(*settings);
}

/// Begins a place of a drawn run.
#[unsafe(no_mangle)]
pub extern "C" fn schedule_search_draw_place(draw: &mut Draw, site: &Site)
    ensures settings { draw.new.settings ≡ draw.old.settings }
    ensures burst { draw.new.burst ≡ 0 }
{
    crate::draw_place(draw, *site);
}

/// Returns an action to do at this place, which the caller then does, or [`NONE`] if the run goes on. `possible` is the
/// mask of the actions that would do something now. What is drawn depends only on the arguments.
#[unsafe(no_mangle)]
pub extern "C" fn schedule_search_draw_next(
    draw: &mut Draw,
    actions: &[Action],
    possible: u64,
) -> u32
    ensures drawn { result ≢ NONE → IsDrawable actions.now possible result }

    // At a place, no action is drawn twice, except for those of engines in bursts and by priorities.
    ensures once { result ≢ NONE → ((action_in actions.now result).drawn ≡ ENGINE → draw.old.settings.mode ≡ UNIFORM)
        → IsTaken draw.old.left draw.new.left result }
    ensures fewer { AreFewer draw.old.left draw.new.left }

    // A burst has at most 64 actions.
    ensures burst { result ≢ NONE → (action_in actions.now result).drawn ≡ ENGINE → draw.old.settings.mode ≡ BURSTS
        → (draw.new.burst ≡ draw.old.burst + 1) × (draw.new.burst ≤ MOST_IN_BURST) }

    // By priorities, the group with the highest one goes first, if that is above the priority of the group that runs.
    ensures highest { result ≢ NONE → (action_in actions.now result).drawn ≡ ENGINE → draw.old.settings.mode ≡ PCT
        → GoesNext draw.old.priorities actions.now possible draw.old.settings.groups result }

    // After an answer, or after `NONE`, nothing more is drawn at this place.
    ensures answer { result ≢ NONE → (action_in actions.now result).drawn ≡ ANSWER → draw.new.phase ≡ 4 }
    ensures settles { result ≡ NONE → 4 ≤ draw.new.phase }
    ensures settled { 4 ≤ draw.old.phase → (result ≡ NONE) × (draw.new ≡ draw.old) }
    ensures settings { draw.new.settings ≡ draw.old.settings }
{
    crate::draw_next(draw, actions, possible)
}
