//! Places in the order in which they were written.

ghost use Rattle.std.specs.Prelude.{◌≡◌, ◌+◌, ◌<◌, ◌≤◌, ◌++◌, ◌∷◌, [], OnOk, vec_len, vec_capacity};

use crate::place::Place;
use crate::room::touch_room;
use ctrie_base::Ticks;
use std::alloc::{AllocError, Global};

/// What is written where no place stands yet.
const NOWHERE: Place = Place {
    step: 0,
    on_time: false,
    moment: 0,
    changed_nothing: false,
    id: 0,
};

/// Places in the order in which they were written. The call that writes one counts one tick, and the segment keeps
/// how often it was written: so one that is made anew doesn't pass for the one that was kept.
#[derive(Drop)]
pub(crate) struct Segment {
    places: Vec<Place>,
    /// How often a place was written here, for clauses alone.
    writes: Ticks,
}

impl Segment {
    /// No places. It takes no memory.
    pub(crate) fn new(alloc: Global) -> Segment
        ensures places { result.places.items ≡ [] }
        ensures writes { result.writes.count ≡ 0 }
    {
        Segment {
            places: Vec::new(alloc),
            writes: Ticks::new(),
        }
    }

    /// Makes room for one place more.
    pub(crate) fn room(&mut self) -> Result<(), AllocError>
        ensures same { self.new.places.items ≡ self.old.places.items }
        ensures writes { self.new.writes.count ≡ self.old.writes.count }
        ensures room { OnOk result (vec_len self.new.places < vec_capacity self.new.places) }
        ensures capacity { vec_capacity self.old.places ≤ vec_capacity self.new.places }
    {
        self.places.reserve(1)
    }

    /// Makes room for this many places more, in memory that is written here.
    pub(crate) fn reserve(&mut self, count: usize) -> Result<(), AllocError>
        ensures same { self.new.places.items ≡ self.old.places.items }
        ensures writes { self.new.writes.count ≡ self.old.writes.count }
        ensures room { OnOk result (vec_len self.new.places + count ≤ vec_capacity self.new.places) }
        ensures capacity { vec_capacity self.old.places ≤ vec_capacity self.new.places }
    {
        touch_room(&mut self.places, count, NOWHERE)
    }

    /// Writes one place.
    pub(crate) fn push(&mut self, place: Place, ticks: &mut Ticks)
        requires { vec_len self.old.places < vec_capacity self.old.places }
        ensures places { self.new.places.items ≡ self.old.places.items ++ place ∷ [] }
        ensures capacity { vec_capacity self.new.places ≡ vec_capacity self.old.places }
        ensures writes { self.new.writes.count ≡ self.old.writes.count + 1 }
        ensures ticks { ticks.new.count ≡ ticks.old.count + 1 }
    {
        ticks.add();
        self.writes.add();
        self.places.push_reserved(place);
    }

    /// The places.
    pub(crate) fn as_slice(&self) -> &[Place]
        ensures { result.now ≡ self.now.places.items }
    {
        self.places.as_slice()
    }
}
