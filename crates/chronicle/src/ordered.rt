//! Who stands in the legal order.

ghost use Rattle.std.specs.Prelude.{◌≡◌, ◌+◌, ◌<◌, ◌≤◌, ◌++◌, ◌∷◌, [], ◌==◌, All, IfOk, IfSome, OnOk, IsOkUnless, length, option_to_list};
ghost use Rattle.std.specs.Prelude.{slice_index_or, slice_set, vec_len, vec_capacity, false, true};
ghost use Rattle.std.specs.List.{list_any};
ghost use Rattle.ctrie_base.specs.declared.refusals.Refusal.TheVariants.{Memory};
ghost use Rattle.places.specs.Places.{ids_by_place};

use ctrie_base::{Refusal, Ticks};
use places::{Place, Places, touch_room};
use std::alloc::Global;
use std::marker::Model;

/// The places of operations in the order, and of each id whether it has one.
#[derive(Drop)]
pub struct Ordered {
    places: Places,
    /// By id.
    placed: Vec<bool>,
}

impl Model for Ordered {
    ghost use Rattle.std.specs.Prelude.{◌≡◌, ◌-◌, length, vec_len, vec_capacity};
    ghost use Rattle.chronicle.specs.Entered.{Entered, AreMarked};

    ghost Value = { Entered };

    ghost view = { λ o. record {
      places = o.places.places;
      closings = o.places.closings;
      ids = length o.placed.items;
      room_to_begin = vec_capacity o.placed - vec_len o.placed;
      room_to_add = o.places.room_to_add;
      room_to_close = o.places.room_to_close;
    } };

    ghost invariant = { λ o. AreMarked o.placed.items o.places.places × (o.places.ticks ≡ length o.places.places) };
}

impl Ordered {
    /// Nobody stands in it. It takes no memory.
    #[tactic(auto, using(crate::proofs::Marks::none_marked))]
    pub fn new(alloc: Global) -> Ordered
        ensures places { result.places ≡ [] }
        ensures closings { result.closings ≡ [] }
        ensures ids { result.ids ≡ 0 }
    {
        Ordered {
            places: Places::new(alloc),
            placed: Vec::new(alloc),
        }
    }

    /// Makes room for one id, one closing and one place. After an error nothing but room has changed.
    pub fn room(&mut self) -> Result<(), Refusal>
        ensures only_memory { IsOkUnless result Memory }
        ensures places { self.new.places ≡ self.old.places }
        ensures closings { self.new.closings ≡ self.old.closings }
        ensures ids { self.new.ids ≡ self.old.ids }
        ensures to_begin { OnOk result (0 < self.new.room_to_begin) }
        ensures to_add { OnOk result (0 < self.new.room_to_add) }
        ensures to_close { OnOk result (0 < self.new.room_to_close) }
        ensures more_to_begin { self.old.room_to_begin ≤ self.new.room_to_begin }
        ensures more_to_add { self.old.room_to_add ≤ self.new.room_to_add }
        ensures more_to_close { self.old.room_to_close ≤ self.new.room_to_close }
    {
        self.placed.reserve(1)?;
        self.places.room()
    }

    /// Makes room for this many ids, closings and places, in memory that is written here. After an error nothing but room
    /// has changed.
    pub fn reserve(&mut self, count: usize) -> Result<(), Refusal>
        ensures only_memory { IsOkUnless result Memory }
        ensures places { self.new.places ≡ self.old.places }
        ensures closings { self.new.closings ≡ self.old.closings }
        ensures ids { self.new.ids ≡ self.old.ids }
        ensures to_begin { OnOk result (count ≤ self.new.room_to_begin) }
        ensures to_add { OnOk result (count ≤ self.new.room_to_add) }
        ensures to_close { OnOk result (count ≤ self.new.room_to_close) }
        ensures more_to_begin { self.old.room_to_begin ≤ self.new.room_to_begin }
        ensures more_to_add { self.old.room_to_add ≤ self.new.room_to_add }
        ensures more_to_close { self.old.room_to_close ≤ self.new.room_to_close }
    {
        touch_room(&mut self.placed, count, false)?;
        self.places.reserve(count)
    }

    /// One id more, which has no place.
    pub fn begin(&mut self)
        requires { 0 < self.old.room_to_begin }
        ensures places { self.new.places ≡ self.old.places }
        ensures closings { self.new.closings ≡ self.old.closings }
        ensures ids { self.new.ids ≡ self.old.ids + 1 }
        ensures to_begin { self.old.room_to_begin ≡ self.new.room_to_begin + 1 }
        ensures to_add { self.new.room_to_add ≡ self.old.room_to_add }
        ensures to_close { self.new.room_to_close ≡ self.old.room_to_close }
    {
        self.placed.push_reserved(false);
    }

    /// A generation is closed at this step.
    pub fn close(&mut self, step: u64)
        requires room { 0 < self.old.room_to_close }
        requires later { All (λ closing. closing < step) self.old.closings }
        requires behind { All (λ place. place.step ≤ step) self.old.places }
        ensures closings { self.new.closings ≡ self.old.closings ++ step ∷ [] }
        ensures places { self.new.places ≡ self.old.places }
        ensures ids { self.new.ids ≡ self.old.ids }
        ensures to_begin { self.new.room_to_begin ≡ self.old.room_to_begin }
        ensures to_add { self.new.room_to_add ≡ self.old.room_to_add }
        ensures to_close { self.old.room_to_close ≡ self.new.room_to_close + 1 }
    {
        self.places.close(step);
    }

    /// Adds the place of an operation.
    pub fn add(&mut self, at: Place)
        requires room { 0 < self.old.room_to_add }
        requires of_id { at.id < self.old.ids }
        ensures places { self.new.places ≡ self.old.places ++ at ∷ [] }
        ensures closings { self.new.closings ≡ self.old.closings }
        ensures ids { self.new.ids ≡ self.old.ids }
        ensures to_begin { self.new.room_to_begin ≡ self.old.room_to_begin }
        ensures to_add { self.old.room_to_add ≤ self.new.room_to_add + 1 }
        ensures to_close { self.new.room_to_close ≡ self.old.room_to_close }
    {
        mark(&mut self.placed, at.id as usize);
        self.places.add(at);
    }

    /// Adds the place, if there is one.
    pub fn add_if(&mut self, place: Option<Place>)
        requires room { 0 < self.old.room_to_add }
        requires of_id { IfSome place (λ at. at.id < self.old.ids) }
        ensures places { self.new.places ≡ self.old.places ++ option_to_list place }
        ensures closings { self.new.closings ≡ self.old.closings }
        ensures ids { self.new.ids ≡ self.old.ids }
        ensures to_begin { self.new.room_to_begin ≡ self.old.room_to_begin }
        ensures to_add { self.old.room_to_add ≤ self.new.room_to_add + 1 }
        ensures to_close { self.new.room_to_close ≡ self.old.room_to_close }
    {
        if let Some(at) = place {
            self.add(at);
        }
    }

    /// Whether the operation with this id has a place.
    pub fn is_placed(&self, id: u64) -> bool
        ensures { result ≡ list_any (λ place. place.id == id) self.now.places }
    {
        is_marked(self.placed.as_slice(), id as usize)
    }

    /// The order: the ids by rising place.
    pub fn order(&self) -> Result<Vec<u64>, Refusal>
        ensures order { IfOk result (λ order. order.items ≡ ids_by_place self.now.places) }
        ensures only_memory { IsOkUnless result Memory }
    {
        self.places.order()
    }

    /// How often a place was written or moved: once for each.
    pub fn ticks(&self) -> &Ticks
        ensures { result.now.count ≡ length self.now.places }
    {
        self.places.ticks()
    }
}

/// Marks this id.
fn mark(placed: &mut Vec<bool>, id: usize)
    requires { id < vec_len placed.old }
    ensures items { placed.new.items ≡ slice_set placed.old.items id true }
    ensures capacity { vec_capacity placed.new ≡ vec_capacity placed.old }
{
    placed[id] = true;
}

/// Whether this id is marked.
fn is_marked(placed: &[bool], id: usize) -> bool
    ensures { result ≡ slice_index_or placed.now id false }
{
    match placed.get(id) {
        Some(mark) => *mark,
        None => false,
    }
}
