//! The order by places, in segments.

ghost use Rattle.std.specs.Prelude.{◌≡◌, ◌+◌, ◌<◌, ◌≤◌, ◌++◌, ◌∷◌, [], All, IfOk, OnOk, IsOkUnless, length, nat_lt};
ghost use Rattle.std.specs.List.{position, position_or_len};
ghost use Rattle.places.specs.Places.{ids_by_place};
ghost use Rattle.places.specs.Segments.{AreCut};
ghost use Rattle.ctrie_base.specs.declared.refusals.Refusal.TheVariants.{Memory};

use crate::place::Place;
use crate::room::touch_room;
use crate::segment::Segment;
use ctrie_base::{Refusal, Ticks, Trace};
use std::alloc::{AllocError, Global};
use std::marker::Model;

/// The places of operations, and the steps at which generations were closed.
///
/// A closing ends a segment: the places up to its step. All segments stand in one list, one after the
/// other, but for the places that came after their segment was ended.
pub struct Places {
    /// Those of all segments, one segment after the other.
    listed: Segment,
    /// Those that came after their segment was ended.
    stray: Segment,
    closings: Vec<u64>,
    /// The last closing: the places up to it are of segments that were ended.
    closed: u64,
    /// All of them in the order in which they came, for clauses alone.
    arrivals: Trace<Place>,
    ticks: Ticks,
}

impl Drop for Places {
    fn drop(self) {
        let Places {
            listed: _,
            stray: _,
            closings: _,
            closed: _,
            arrivals: _,
            ticks: _,
        } = self;
    }
}

impl Model for Places {
    ghost use Rattle.std.specs.Prelude.{◌≡◌, ◌+◌, ◌-◌, min, vec_len, vec_capacity};
    ghost use Rattle.places.specs.Segments.{Listing, IsKept};

    ghost Value = { Listing };

    ghost view = { λ p. record {
      places = p.arrivals.items;
      closings = p.closings.items;
      ticks = p.ticks.count;
      room_to_add = min (vec_capacity p.listed.places - vec_len p.listed.places) (vec_capacity p.stray.places - vec_len p.stray.places);
      room_to_close = vec_capacity p.closings - vec_len p.closings;
    } };

    ghost invariant = { λ p.
        IsKept p.arrivals.items p.listed.places.items p.stray.places.items p.closings.items p.closed
        × (p.ticks.count ≡ p.listed.writes.count + p.stray.writes.count) };
}

impl Places {
    /// No places, and no closings. It takes no memory.
    pub fn new(alloc: Global) -> Places
        ensures places { result.places ≡ [] }
        ensures closings { result.closings ≡ [] }
        ensures ticks { result.ticks ≡ 0 }
    {
        Places {
            listed: Segment::new(alloc),
            stray: Segment::new(alloc),
            closings: Vec::new(alloc),
            closed: 0,
            arrivals: Trace::new(),
            ticks: Ticks::new(),
        }
    }

    /// Makes room for one closing and one place. An error says that memory was refused: then at most the
    /// room has grown.
    pub fn room(&mut self) -> Result<(), Refusal>
        ensures only_memory { IsOkUnless result Memory }
        ensures places { self.new.places ≡ self.old.places }
        ensures closings { self.new.closings ≡ self.old.closings }
        ensures ticks { self.new.ticks ≡ self.old.ticks }
        ensures to_add { OnOk result (0 < self.new.room_to_add) }
        ensures to_close { OnOk result (0 < self.new.room_to_close) }
        ensures more_to_add { self.old.room_to_add ≤ self.new.room_to_add }
        ensures more_to_close { self.old.room_to_close ≤ self.new.room_to_close }
    {
        self.closings.reserve(1)?;
        self.listed.room()?;
        self.stray.room()?;
        Ok(())
    }

    /// Makes room for this many closings and places, in memory that is written here. An error says that memory was
    /// refused: then at most the room has grown.
    pub fn reserve(&mut self, count: usize) -> Result<(), Refusal>
        ensures only_memory { IsOkUnless result Memory }
        ensures places { self.new.places ≡ self.old.places }
        ensures closings { self.new.closings ≡ self.old.closings }
        ensures ticks { self.new.ticks ≡ self.old.ticks }
        ensures to_add { OnOk result (count ≤ self.new.room_to_add) }
        ensures to_close { OnOk result (count ≤ self.new.room_to_close) }
        ensures more_to_add { self.old.room_to_add ≤ self.new.room_to_add }
        ensures more_to_close { self.old.room_to_close ≤ self.new.room_to_close }
    {
        touch_room(&mut self.closings, count, 0)?;
        self.listed.reserve(count)?;
        self.stray.reserve(count)?;
        Ok(())
    }

    /// A generation is closed at this step.
    pub fn close(&mut self, step: u64)
        requires room { 0 < self.old.room_to_close }
        requires later { All (λ closing. closing < step) self.old.closings }
        requires behind { All (λ place. place.step ≤ step) self.old.places }
        ensures closings { self.new.closings ≡ self.old.closings ++ step ∷ [] }
        ensures places { self.new.places ≡ self.old.places }
        ensures ticks { self.new.ticks ≡ self.old.ticks }
        ensures to_add { self.new.room_to_add ≡ self.old.room_to_add }
        ensures to_close { self.old.room_to_close ≡ self.new.room_to_close + 1 }
    {
        self.closings.push_reserved(step);
        self.closed = step;
    }

    /// Adds the place of an operation.
    pub fn add(&mut self, at: Place)
        requires { 0 < self.old.room_to_add }
        ensures places { self.new.places ≡ self.old.places ++ at ∷ [] }
        ensures closings { self.new.closings ≡ self.old.closings }
        ensures ticks { self.new.ticks ≡ self.old.ticks + 1 }
        ensures to_add { self.old.room_to_add ≤ self.new.room_to_add + 1 }
        ensures to_close { self.new.room_to_close ≡ self.old.room_to_close }
    {
        if at.step <= self.closed {
            self.stray.push(at, &mut self.ticks);
        } else {
            self.listed.push(at, &mut self.ticks);
        }
        self.arrivals = self.arrivals.with_last(&at);
    }

    /// The order: the ids by rising place.
    pub fn order(&self) -> Result<Vec<u64>, Refusal>
        ensures order { IfOk result (λ order. order.items ≡ ids_by_place self.now.places) }
        ensures only_memory { IsOkUnless result Memory }
    {
        let alloc = *self.closings.allocator();
        let mut late = Vec::from_slice(alloc, self.stray.as_slice())?;
        late.sort()?;
        Ok(joined(
            alloc,
            self.closings.as_slice(),
            self.listed.as_slice(),
            late.as_slice(),
        )?)
    }

    /// How often a place was written or moved.
    pub fn ticks(&self) -> &Ticks
        ensures { result.now.count ≡ self.now.ticks }
    {
        &self.ticks
    }
}

/// The ids by rising place, segment for segment.
fn joined(
    alloc: Global,
    closings: &[u64],
    listed: &[Place],
    late: &[Place],
) -> Result<Vec<u64>, AllocError>
    requires listed { AreCut closings.now listed.now }
    requires late { AreCut closings.now late.now }
    ensures { IfOk result (λ order. order.items ≡ ids_by_place (listed.now ++ late.now)) }
{
    let mut order = Vec::with_capacity(alloc, listed.len())?;
    let mut left = listed;
    let mut late_left = late;
    for closing in closings {
        let (segment, behind) = left.split_at(reach(left, *closing));
        let (stray, late_behind) = late_left.split_at(reach(late_left, *closing));
        append(&mut order, segment, stray)?;
        left = behind;
        late_left = late_behind;
    }
    append(&mut order, left, late_left)?;
    Ok(order)
}

/// Appends the ids of one segment, by rising place.
fn append(order: &mut Vec<u64>, segment: &[Place], stray: &[Place]) -> Result<(), AllocError>
    ensures { OnOk result (order.new.items ≡ order.old.items ++ ids_by_place (segment.now ++ stray.now)) }
{
    let mut sorted = Vec::from_slice(*order.allocator(), segment)?;
    sorted.extend_from_slice(stray)?;
    sorted.sort()?;
    for place in &sorted {
        order.push(place.id)?;
    }
    Ok(())
}

/// How many places from the front on are up to the closing.
fn reach(places: &[Place], closing: u64) -> usize
    ensures reach { result ≡ position_or_len (λ place. nat_lt closing place.step) places.now }
    ensures within { result ≤ length places.now }
{
    first_behind(places, closing).unwrap_or(places.len())
}

/// The index of the first place after the closing.
fn first_behind(places: &[Place], closing: u64) -> Option<usize>
    ensures { result ≡ position (λ place. nat_lt closing place.step) places.now }
{
    places.iter().position(|place| closing < place.step)
}
