//! A search, and the calls with which a caller makes the search's steps.

ghost use Rattle.std.specs.List.{Any};
ghost use Rattle.std.specs.Prelude.{◌≡◌, ◌≢◌, ◌<◌, ◌≤◌, ◌∷◌, [], List, None, Some, length};
ghost use Rattle.search.specs.Orders.{next_path};
ghost use Rattle.search.specs.Searches.{ContinuationsPass, IsKnownBy, IsSearch, first_choice, left_of};
ghost use Rattle.search.specs.Searches.{path_of, run_in};
ghost use Rattle.search.specs.declared.path.Choice.{Choice};
ghost use Rattle.search.specs.Tests.{AllPass, EqualKeys, Test};

use crate::known::{find, is_known, note};
use crate::path::{Choice, Key, Known, Place, first, left, next};

/// A search of the schedules whose deviations cost at most `depth` in total.
#[repr(C)]
#[derive(Clone, Copy)]
pub struct Search {
    pub depth: u32,
    /// The cost of each deviation. If the cost is 0, a schedule may have any number of deviations.
    pub cost: u32,
    /// The number of choices in the path.
    pub count: usize,
    /// The number of choices, counted from the first one, from whose places at least one schedule has failed.
    pub failing: usize,
}

/// What the caller does at a place that a run reached.
pub enum Met {
    /// The path has one more choice, the first one at this place, and the run takes this choice.
    Goes,
    /// The state is known: all schedules that begin with the path pass, if their deviations cost at most `depth` in
    /// total.
    Passes,
    /// The path has no room for another choice.
    Full,
}

/// What the caller does after all schedules that begin with a path were tried.
pub enum Step {
    /// The newest choice of the path has changed, and the next run takes it.
    Another,
    /// The newest choice was removed, and all schedules that begin with the shorter path were tried.
    Removed,
    /// All schedules were tried.
    Ended,
}

/// Begins a search of the schedules whose deviations cost at most `depth` in total. Each deviation costs `cost`. Clears
/// the table of known states. The path of the new search is empty.
pub fn begin(depth: u32, cost: u32, known: &mut [Known]) -> Search
    // For each slice in which the caller then keeps the path: the search meets its invariant (`IsSearch`).
    ensures search { (test : Test) (path : List Choice) → IsSearch test result path known.new }
    ensures begins { result ≡ record { depth = depth; cost = cost; count = 0; failing = 0 } }
{
    for entry in known.iter_mut() {
        *entry = Known {
            key: Key { one: 0, two: 0 },
            left: 0,
        };
    }
    Search {
        depth,
        cost,
        count: 0,
        failing: 0,
    }
}

/// Decides what a run does at `place`, which it reached after all choices of the path.
///
/// If the path has no room for another choice, returns [`Full`](Met::Full). Else, if the state of the place is known,
/// returns [`Passes`](Met::Passes). In both cases, nothing changes. Otherwise appends the first choice at this place to
/// the path, and returns [`Goes`](Met::Goes).
pub fn meet(search: &mut Search, path: &mut [Choice], known: &[Known], place: Place) -> Met
    // The next two clauses assume that no schedule of the test has failed (`IsSearch`), and the run reached `place`.
    ensures search { (test : Test) → IsSearch test search.old path.old known.now
        → test.at (run_in search.old path.old) ≡ Some place → IsSearch test search.new path.new known.now }
    ensures passes { (test : Test) → IsSearch test search.old path.old known.now
        → test.at (run_in search.old path.old) ≡ Some place → result ≡ Met.Passes
        → ContinuationsPass test search.new path.new }

    // The other clauses hold for every call: what each result means for the path and for the table.
    ensures goes { result ≡ Met.Goes → path_of search.new.count path.new
        ≡ first_choice search.old.cost (left_of search.old.cost search.old.depth (path_of search.old.count path.old))
        place
        ∷ path_of search.old.count path.old }
    ensures same { result ≢ Met.Goes → (search.new ≡ search.old) × (path.new ≡ path.old) }
    ensures full { result ≡ Met.Full → length path.old ≤ search.old.count }
    ensures known { result ≡ Met.Passes → Any (λ entry. IsKnownBy entry place.key
        (left_of search.old.cost search.old.depth (path_of search.old.count path.old))) known.now }
    ensures kept { (search.new.depth ≡ search.old.depth) × (search.new.cost ≡ search.old.cost)
        × (search.new.failing ≡ search.old.failing) }
{
    if search.count >= path.len() {
        return Met::Full;
    }
    let most = left(search.depth, search.cost, path, search.count);
    let at = find(known, place.key);
    if at < known.len() && is_known(known[at], place.key, most) {
        return Met::Passes;
    }
    path[search.count] = first(search.cost, most, place);
    search.count += 1;
    Met::Goes
}

/// Makes a step back, after all schedules that begin with the path were tried. Returns what the caller does next.
///
/// If the newest choice has a next number, it takes this number, and the result is [`Another`](Step::Another).
/// Otherwise, this choice is removed, and the result is [`Removed`](Step::Removed). The state of its place is then
/// noted as known, unless a schedule from this place has failed.
///
/// If the path is empty, nothing changes, and the result is [`Ended`](Step::Ended).
pub fn back(search: &mut Search, path: &mut [Choice], known: &mut [Known]) -> Step
    // The next three clauses assume that no schedule has failed (`IsSearch`), and all that begin with the path pass
    // (`ContinuationsPass`). The first two also assume that places with equal keys are equal states (`EqualKeys`).
    ensures search { (test : Test) → IsSearch test search.old path.old known.old → EqualKeys test
        → ContinuationsPass test search.old path.old → IsSearch test search.new path.new known.new }
    ensures removed { (test : Test) → IsSearch test search.old path.old known.old → EqualKeys test
        → ContinuationsPass test search.old path.old → result ≡ Step.Removed
        → ContinuationsPass test search.new path.new }
    ensures ended { (test : Test) → IsSearch test search.old path.old known.old
        → ContinuationsPass test search.old path.old → result ≡ Step.Ended
        → AllPass test search.old.cost search.old.depth [] }

    // The next four clauses state the order of the paths, if the path is in the slice. `next_path` is the path to try
    // next, if there is one.
    ensures another { search.old.count ≤ length path.old → result ≡ Step.Another
        → next_path (path_of search.old.count path.old) ≡ Some (path_of search.new.count path.new) }
    ensures fewer { search.old.count ≤ length path.old → result ≡ Step.Removed
        → next_path (path_of search.old.count path.old) ≡ next_path (path_of search.new.count path.new) }
    ensures last { search.old.count ≤ length path.old → result ≡ Step.Ended
        → next_path (path_of search.old.count path.old) ≡ None }
    ensures shorter { search.old.count ≤ length path.old → result ≡ Step.Removed
        → (choice : Choice) × (path_of search.old.count path.old ≡ choice ∷ path_of search.new.count path.new) }

    // If a schedule from the place of the newest choice has failed, no state is noted. The same then holds for the
    // newest choice of the shorter path.
    ensures failing { 0 < search.old.count → search.old.count ≤ search.old.failing → result ≡ Step.Removed
        → (known.new ≡ known.old) × (search.new.failing ≡ search.new.count) }
    ensures kept { (search.new.depth ≡ search.old.depth) × (search.new.cost ≡ search.old.cost) }
{
    // The second condition is true only if the caller passes a shorter slice than the one that `meet` extended.
    if search.count == 0 || search.count > path.len() {
        return Step::Ended;
    }
    let count = search.count - 1;
    let choice = path[count];
    if choice.taken < choice.place.possible {
        path[count] = next(choice);
        return Step::Another;
    }
    search.count = count;
    if search.failing > count {
        search.failing = count;
    } else {
        note(known, choice.place.key, choice.left);
    }
    Step::Removed
}

/// Notes that the run of the path has ended and failed. So a schedule from the place of each choice of the path has
/// failed, and [`back`] doesn't note the states of these places as known.
pub fn fail(search: &mut Search)
    ensures { search.new ≡ record search.old { failing = search.old.count } }
{
    search.failing = search.count;
}
