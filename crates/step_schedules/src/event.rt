// The accesses and requests of a run.

ghost use Rattle.std.specs.Prelude.{◌≡◌};
ghost use Rattle.step_schedules.specs.Events as spec;
ghost use Rattle.step_schedules.specs.Deviations.{deviation_value};

use crate::deviation::{Before, Deviation, Place, Site};
use std::alloc::{AllocError, Global};

/// An access or a request that comes, with its place in the run.
#[derive(Clone, Copy)]
pub struct Event<'a> {
    /// The place of the access or request.
    pub place: Place,
    /// The kind of the access or request.
    pub before: Before,
    /// The bytes of the name of what is accessed, or of the word of the request.
    pub name: &'a [u8],
}

/// The access or the request that began last, if there is one.
#[derive(Drop)]
pub(crate) struct Past {
    /// The place, or 0.0 before the run.
    pub(crate) place: Place,
    /// The kind.
    pub(crate) before: Before,
    /// The name of what is accessed, or the word of the request.
    pub(crate) name: String,
}

impl Clone for Past {
    ghost is_clone = { λ past copy. spec.past_value copy ≡ spec.past_value past };

    fn clone(&self) -> Result<Past, AllocError> {
        Ok(Past {
            place: self.place,
            before: self.before,
            name: self.name.clone()?,
        })
    }
}

/// Returns the place of the access or request of this kind that comes next after this place. A request that begins a
/// round is at access 0 of the next round. Numbers end at the greatest `u32`.
pub(crate) fn next_place(place: Place, before: Before) -> Place
    ensures { result ≡ spec.next_place before place }
{
    match before {
        Before::Request => Place {
            round: place.round.saturating_add(1),
            access: 0,
        },
        Before::Read | Before::Write | Before::Choice => Place {
            round: place.round,
            access: place.access.saturating_add(1),
        },
    }
}

impl Past {
    /// Returns the state before the run: no access and no request has begun. The kind `Read` has no meaning.
    pub(crate) fn none(alloc: Global) -> Past
        ensures { spec.past_value result ≡ spec.no_event }
    {
        Past {
            place: Place {
                round: 0,
                access: 0,
            },
            before: Before::Read,
            name: String::new(alloc),
        }
    }
}

impl Event<'_> {
    /// Returns whether a deviation at this site can match this event. A place must be the place of this event. A site
    /// with a number can match every event: [`Waiting`](crate::Waiting) counts the events that match.
    fn is_at(&self, site: Site) -> bool
        ensures { result ≡ spec.is_at (spec.event_value self.now) site }
    {
        match site {
            Site::Place(place) => place == self.place,
            Site::Number(_) => true,
        }
    }

    /// Returns whether a deviation matches this event: they have the same kind and name, and the same place if the
    /// deviation has a place. A number isn't compared: [`Waiting`](crate::Waiting) counts the events that match.
    pub(crate) fn is_matched_by(&self, deviation: &Deviation) -> bool
        ensures { result ≡ spec.is_matched_by (spec.event_value self.now) (deviation_value deviation.now) }
    {
        self.is_at(deviation.site)
            && deviation.before == self.before
            && deviation.name.as_bytes() == self.name
    }
}
