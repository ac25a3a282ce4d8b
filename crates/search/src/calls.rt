// The calls of C, which `bindings/c/explore/schedule_search.h` declares. Each makes one call of this crate, and returns
// results as numbers.

ghost use Rattle.std.specs.List.{Any};
ghost use Rattle.std.specs.Prelude.{◌≡◌, ◌≢◌, ◌<◌, ◌≤◌, ◌++◌, ◌∷◌, ◌⊎◌};
ghost use Rattle.std.specs.Prelude.{[], ℕ, None, Some, drop, length, slice_index_or, take};
ghost use Rattle.search.specs.Options.{options};
ghost use Rattle.search.specs.Orders.{next_path};
ghost use Rattle.search.specs.Searches.{AreTrueEntries, ContinuationsPass, IsKnownBy, IsSearch};
ghost use Rattle.search.specs.Searches.{first_choice, left_of, path_of, run_in};
ghost use Rattle.search.specs.declared.path.Choice.{Choice};
ghost use Rattle.search.specs.declared.path.Known.{Known};
ghost use Rattle.search.specs.Tests.{AllPass, EqualKeys, Test};

use crate::actions::Action;
use crate::path::{Choice, Key, Known, Place};
use crate::search::{Met, Search, Step};

/// The number of [`Met::Goes`].
pub const GOES: u32 = 0;
/// The number of [`Met::Passes`].
pub const PASSES: u32 = 1;
/// The number of [`Met::Full`].
pub const FULL: u32 = 2;

/// The number of [`Step::Another`].
pub const ANOTHER: u32 = 0;
/// The number of [`Step::Removed`].
pub const REMOVED: u32 = 1;
/// The number of [`Step::Ended`].
pub const ENDED: u32 = 2;

/// Begins a search of the schedules whose deviations cost at most `depth` in total. Each deviation costs `cost`. Clears
/// the table of known states.
///
/// The path of the new search is empty: the first 0 choices of `path`. The call neither reads nor changes `path`, which
/// only clause `search` uses.
#[unsafe(no_mangle)]
pub extern "C" fn schedule_search_begin(
    search: &mut Search,
    path: &[Choice],
    known: &mut [Known],
    depth: u32,
    cost: u32,
)
    ensures search { (test : Test) → IsSearch test search.new path.now known.new }
    ensures begins { search.new ≡ record { depth = depth; cost = cost; count = 0; failing = 0 } }
{
    *search = crate::begin(depth, cost, known);
}

/// Decides what a run does at `place`, which it reached after all choices of the path.
///
/// If the path has no room for another choice, returns [`FULL`]. Else, if the state of the place is known, returns
/// [`PASSES`]: the caller needn't play the schedules that begin with the path. In both cases, nothing changes.
/// Otherwise appends the first choice at this place to the path, and returns [`GOES`]: the run takes this choice.
#[unsafe(no_mangle)]
pub extern "C" fn schedule_search_meet(
    search: &mut Search,
    path: &mut [Choice],
    known: &[Known],
    place: &Place,
) -> u32
    // The next two clauses assume that no schedule of the test has failed (`IsSearch`), and the run reached `place`.
    ensures search { (test : Test) → IsSearch test search.old path.old known.now
        → test.at (run_in search.old path.old) ≡ Some place.now → IsSearch test search.new path.new known.now }
    ensures passes { (test : Test) → IsSearch test search.old path.old known.now
        → test.at (run_in search.old path.old) ≡ Some place.now → result ≡ PASSES
        → ContinuationsPass test search.new path.new }

    // The other clauses hold for every call: what each result means for the path and for the table.
    ensures goes { result ≡ GOES → path_of search.new.count path.new
        ≡ first_choice search.old.cost (left_of search.old.cost search.old.depth (path_of search.old.count path.old))
        place.now
        ∷ path_of search.old.count path.old }
    ensures same { result ≢ GOES → (search.new ≡ search.old) × (path.new ≡ path.old) }
    ensures full { result ≡ FULL → length path.old ≤ search.old.count }
    ensures known { result ≡ PASSES → Any (λ entry. IsKnownBy entry place.now.key
        (left_of search.old.cost search.old.depth (path_of search.old.count path.old))) known.now }
    ensures answers { result ≤ 2 }
    ensures kept { (search.new.depth ≡ search.old.depth) × (search.new.cost ≡ search.old.cost)
        × (search.new.failing ≡ search.old.failing) }
{
    match crate::meet(search, path, known, *place) {
        Met::Goes => GOES,
        Met::Passes => PASSES,
        Met::Full => FULL,
    }
}

/// Makes a step back, after all schedules that begin with the path were tried.
///
/// If the newest choice has a next number, it takes this number. Returns [`ANOTHER`]: the next run takes the changed
/// choice. Otherwise, this choice is removed, and the state of its place is noted as known, unless a schedule from this
/// place has failed. Returns [`REMOVED`]: the caller calls again, for the shorter path.
///
/// If the path is empty, nothing changes. Returns [`ENDED`]: all schedules were tried.
#[unsafe(no_mangle)]
pub extern "C" fn schedule_search_back(
    search: &mut Search,
    path: &mut [Choice],
    known: &mut [Known],
) -> u32
    // The next three clauses assume that no schedule has failed (`IsSearch`), and all that begin with the path pass
    // (`ContinuationsPass`). The first two also assume that places with equal keys are equal states (`EqualKeys`).
    ensures search { (test : Test) → IsSearch test search.old path.old known.old → EqualKeys test
        → ContinuationsPass test search.old path.old → IsSearch test search.new path.new known.new }
    ensures removed { (test : Test) → IsSearch test search.old path.old known.old → EqualKeys test
        → ContinuationsPass test search.old path.old → result ≡ REMOVED → ContinuationsPass test search.new path.new }
    ensures ended { (test : Test) → IsSearch test search.old path.old known.old
        → ContinuationsPass test search.old path.old → result ≡ ENDED
        → AllPass test search.old.cost search.old.depth [] }

    // The next four clauses state the order of the paths, if the path is in the slice. `next_path` is the path to try
    // next, if there is one.
    ensures another { search.old.count ≤ length path.old → result ≡ ANOTHER
        → next_path (path_of search.old.count path.old) ≡ Some (path_of search.new.count path.new) }
    ensures fewer { search.old.count ≤ length path.old → result ≡ REMOVED
        → next_path (path_of search.old.count path.old) ≡ next_path (path_of search.new.count path.new) }
    ensures last { search.old.count ≤ length path.old → result ≡ ENDED
        → next_path (path_of search.old.count path.old) ≡ None }
    ensures shorter { search.old.count ≤ length path.old → result ≡ REMOVED
        → (choice : Choice) × (path_of search.old.count path.old ≡ choice ∷ path_of search.new.count path.new) }

    // If a schedule from the place of the newest choice has failed, no state is noted. The same then holds for the
    // newest choice of the shorter path.
    ensures failing { 0 < search.old.count → search.old.count ≤ search.old.failing → result ≡ REMOVED
        → (known.new ≡ known.old) × (search.new.failing ≡ search.new.count) }
    ensures answers { result ≤ 2 }
    ensures kept { (search.new.depth ≡ search.old.depth) × (search.new.cost ≡ search.old.cost) }
{
    match crate::back(search, path, known) {
        Step::Another => ANOTHER,
        Step::Removed => REMOVED,
        Step::Ended => ENDED,
    }
}

/// Notes that the run of the path has ended and failed. So a schedule from the place of each choice of the path has
/// failed, and `schedule_search_back` doesn't note the states of these places as known.
#[unsafe(no_mangle)]
pub extern "C" fn schedule_search_fail(search: &mut Search)
    ensures { search.new ≡ record search.old { failing = search.old.count } }
{
    crate::fail(search);
}

/// Returns the index of the first entry that has this key or is empty. The look-up begins at entry `key.one` modulo the
/// number of entries, and wraps. If there is no such entry, returns the number of entries.
///
/// The contract doesn't state that the entry is the first one.
#[unsafe(no_mangle)]
pub extern "C" fn schedule_search_find(known: &[Known], key: &Key) -> usize
    ensures within { result ≤ length known.now }

    // `slice_index_or` is the entry at the index of the result. Outside of the table, it would be `none`.
    ensures found { (none : Known) → result < length known.now
        → ((slice_index_or known.now result none).key.one ≡ 0)
        ⊎ ((slice_index_or known.now result none).key ≡ key.now) }
{
    crate::find(known, *key)
}

/// Notes the entries of the table `from` in the table `known`, as far as there is room. Skips empty entries. So a
/// caller can continue with a larger table.
///
/// The contract states only this: if both tables contain only true entries, so does `known` after the call.
#[unsafe(no_mangle)]
pub extern "C" fn schedule_search_grow(from: &[Known], known: &mut [Known])
    ensures { (test : Test) (cost : ℕ) → AreTrueEntries test cost from.now → AreTrueEntries test cost known.old
        → AreTrueEntries test cost known.new }
{
    crate::grow(from, known);
}

/// Writes the options at a place into `into`, in ascending order, as far as there is room. Returns their number, at
/// most 64.
///
/// `possible` is the mask of the actions that would do something, and `last` is the last action at this place, or
/// [`NONE`](crate::NONE). If every schedule is searched (`is_every`), all possible actions but pairs are options.
#[unsafe(no_mangle)]
pub extern "C" fn schedule_search_options(
    actions: &[Action],
    possible: u64,
    last: u32,
    is_every: bool,
    into: &mut [u8],
) -> usize
    ensures count { result ≡ length (options actions.now possible last is_every) }
    ensures written { into.new
        ≡ take (length into.old) (options actions.now possible last is_every) ++ drop result into.old }
{
    crate::write_options(actions, possible, last, is_every, into)
}
