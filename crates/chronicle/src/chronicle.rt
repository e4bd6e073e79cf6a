//! The record of a machine.

ghost use Rattle.std.specs.Prelude.{◌≡◌, ◌+◌, ◌<◌, ◌≤◌, ◌++◌, ◌∷◌, IfOk, IfSome, OnOk, IsOkUnless, length, None, Some, option_to_list};
ghost use Rattle.ctrie_base.specs.declared.refusals.Refusal.TheVariants.{Memory};
ghost use Rattle.history.specs.declared.replies.Reply.TheVariants.{Closed};
ghost use Rattle.machine_model.specs.declared.steps.Bounds.{Bounds};
ghost use Rattle.machine_model.specs.Records.{closed_by, closing_for, commits_after, entered, entered_at_begin, entered_at_end, moment_at, placed_by, place_of};
ghost use Rattle.machine_model.specs.Records.{first_record, noted_begin, noted_end, noted_progress, order_of};
ghost use Rattle.history.specs.Histories.{begun};
ghost use Rattle.chronicle.specs.Chronicled.{CanBegin, CanClose, CanCommit, CanEnd, CanGo, CanPublish, HasBegun, IsActor};
ghost use Rattle.chronicle.specs.Published.{IsNewestPublished};

use crate::closings::Closings;
use crate::commits::Commits;
use crate::moments::{NO_MOMENT, follow, moment_of};
use crate::ordered::Ordered;
use crate::placing::{on_time, place_by};
use crate::publications::Publications;
use crate::room::touch_room;
use ctrie_base::{Refusal, Ticks};
use history::{Access, Call, Event, Reply};
use machine_model::{Carried, Entrant, Moment, Progress, Publication};
use places::Place;
use slot_arena::Ref;
use std::alloc::Global;
use std::marker::Model;

/// The record of a machine: it is told what each step tells, and seen as the definition's record. Room for what a step tells
/// is made before it is told.
pub struct Chronicle {
    events: Vec<Event>,
    commits: Commits,
    publications: Publications,
    closings: Closings,
    ordered: Ordered,
    /// By actor, the first of which is 1.
    moments: Vec<Moment>,
    /// There is room for what a step tells, where that is known: so most steps ask for no more.
    is_ready: bool,
}

// Written out, so that it is proved here, once, and not again in each program that drops a machine.
impl Drop for Chronicle {
    fn drop(self) {
        let Chronicle {
            events: _,
            commits: _,
            publications: _,
            closings: _,
            ordered: _,
            moments: _,
            is_ready: _,
        } = self;
    }
}

impl Model for Chronicle {
    ghost use Rattle.std.specs.Prelude.{◌-◌, ◌<◌, IsTrue, min, vec_len, vec_capacity};
    ghost use Rattle.chronicle.specs.Chronicled.{Chronicled, FitsTogether};

    ghost Value = { Chronicled };

    ghost view = { λ c. record {
      past = record {
        events = c.events.items;
        commits = c.commits.commits;
        closings = c.closings.closings;
        places = c.ordered.places;
        moments = c.moments.items;
        published = c.publications.published;
      };
      slots = c.commits.slots;
      generations = c.closings.generations;
      room = min (vec_capacity c.events - vec_len c.events) (min c.ordered.room_to_begin (min c.ordered.room_to_add c.ordered.room_to_close));
    } };

    ghost invariant = { λ c. FitsTogether c.events.items c.closings.closings c.publications c.commits c.ordered
        × (IsTrue c.is_ready → (vec_len c.events < vec_capacity c.events) × (0 < c.ordered.room_to_begin) × (0 < c.ordered.room_to_add) × (0 < c.ordered.room_to_close)) };
}

impl Chronicle {
    /// Nothing was told. There will be this many slots and actors. `Memory` is the only refusal.
    pub fn new(alloc: Global, slots: u32, actors: u8) -> Result<Chronicle, Refusal>
        ensures past { IfOk result (λ made. (limits : Bounds) → limits.actors ≡ actors → made.past ≡ first_record limits) }
        ensures slots { IfOk result (λ made. made.slots ≡ slots) }
        ensures only_memory { IsOkUnless result Memory }
    {
        Ok(Chronicle {
            events: Vec::new(alloc),
            commits: Commits::new(alloc, slots)?,
            publications: Publications::new(alloc, slots)?,
            closings: Closings::new(alloc),
            ordered: Ordered::new(alloc),
            moments: vec![in alloc; NO_MOMENT; actors as usize]?,
            is_ready: false,
        })
    }

    /// Makes room for what the next step tells, of a machine that has drawn this many generations. `Memory` is the only
    /// refusal; the record is the same whatever comes of it.
    #[inline(always)]
    pub fn make_room(&mut self, generations: u64) -> Result<(), Refusal>
        ensures past { self.new.past ≡ self.old.past }
        ensures slots { self.new.slots ≡ self.old.slots }
        ensures generations { OnOk result (generations ≤ self.new.generations) }
        ensures room { OnOk result (0 < self.new.room) }
        ensures more_generations { self.old.generations ≤ self.new.generations }
        ensures more { self.old.room ≤ self.new.room }
        ensures only_memory { IsOkUnless result Memory }
    {
        if self.is_ready && generations <= self.closings.generations() {
            Ok(())
        } else {
            self.grow(generations)
        }
    }

    /// The same, where it isn't known whether there is room.
    #[inline(never)]
    fn grow(&mut self, generations: u64) -> Result<(), Refusal>
        ensures past { self.new.past ≡ self.old.past }
        ensures slots { self.new.slots ≡ self.old.slots }
        ensures generations { OnOk result (generations ≤ self.new.generations) }
        ensures room { OnOk result (0 < self.new.room) }
        ensures more_generations { self.old.generations ≤ self.new.generations }
        ensures more { self.old.room ≤ self.new.room }
        ensures only_memory { IsOkUnless result Memory }
    {
        self.is_ready = false;
        self.events.reserve(1)?;
        self.closings.room_for(generations)?;
        self.ordered.room()?;
        self.is_ready = true;
        Ok(())
    }

    /// Makes room for what this many steps tell, in memory that is written here: the first touch of fresh memory costs more
    /// than a step. `Memory` is the only refusal; the record is the same whatever comes of it.
    pub fn reserve(&mut self, steps: usize) -> Result<(), Refusal>
        ensures past { self.new.past ≡ self.old.past }
        ensures slots { self.new.slots ≡ self.old.slots }
        ensures generations { self.new.generations ≡ self.old.generations }
        ensures room { OnOk result (steps ≤ self.new.room) }
        ensures more { self.old.room ≤ self.new.room }
        ensures only_memory { IsOkUnless result Memory }
    {
        self.is_ready = false;
        touch_room(&mut self.events, steps)?;
        self.closings.reserve(steps)?;
        self.ordered.reserve(steps)
    }

    /// The actor begins an operation with this id in this step: a begin stands in the history, and a close in the order.
    #[inline(always)]
    pub fn begin(&mut self, step: u64, id: u64, actor: u8, call: Call, opens: Option<u16>)
        requires room { 0 < self.old.room }
        requires can { CanBegin self.old actor id }
        ensures past { self.new.past ≡ noted_begin self.old.past step id actor call opens }
        ensures slots { self.new.slots ≡ self.old.slots }
        ensures generations { self.new.generations ≡ self.old.generations }
        ensures room { self.old.room ≤ self.new.room + 1 }
    {
        self.is_ready = false;
        self.ordered.begin();
        self.ordered.add_if(place_at_begin(step, id, call));
        self.moments[actor as usize - 1] = NO_MOMENT;
        self.events.push_reserved(Event::Begin {
            id,
            actor,
            call,
            opens,
        });
    }

    /// The actor's operation has gone on in this step, which told this.
    #[inline(always)]
    pub fn go(&mut self, step: u64, actor: u8, progress: &Progress)
        requires room { 0 < self.old.room }
        requires can { CanGo self.old step actor progress.now }
        ensures past { self.new.past ≡ noted_progress self.old.past step actor progress.now }
        ensures slots { self.new.slots ≡ self.old.slots }
        ensures generations { self.new.generations ≡ self.old.generations }
        ensures room { self.old.room ≤ self.new.room + 1 }
    {
        follow(&mut self.moments, actor, &self.commits, step, progress);
        if let Some(main) = progress.committed {
            self.commit(step, main);
        }
        if let Some(carried) = progress.carried {
            self.close(step, carried);
        }
        if let Some(publication) = &progress.published {
            self.publish(publication.main, publication.changer);
        }
    }

    /// The actor's operation ends with this reply: an end stands in the history, and in the order one that was answered and
    /// has no place yet.
    pub fn end(&mut self, actor: u8, entrant: Entrant, reply: Reply)
        requires room { 0 < self.old.room }
        requires can { CanEnd self.old actor entrant.id }
        ensures past { self.new.past ≡ noted_end self.old.past actor entrant reply }
        ensures slots { self.new.slots ≡ self.old.slots }
        ensures generations { self.new.generations ≡ self.old.generations }
        ensures room { self.old.room ≤ self.new.room + 1 }
    {
        self.is_ready = false;
        let place = self.place_at_end(actor, entrant, &reply);
        self.ordered.add_if(place);
        self.events.push_reserved(Event::End {
            id: entrant.id,
            reply,
        });
    }

    /// The history.
    pub fn events(&self) -> &[Event]
        ensures { result.now ≡ self.now.past.events }
    {
        self.events.as_slice()
    }

    /// The history, handed out. It takes no memory.
    pub fn into_events(self) -> Vec<Event>
        ensures { result.items ≡ self.past.events }
    {
        let Chronicle {
            events,
            commits: _,
            publications: _,
            closings: _,
            ordered: _,
            moments: _,
            is_ready: _,
        } = self;
        events
    }

    /// The order: the ids of operations by rising place. `Memory` is the only refusal.
    pub fn order(&self) -> Result<Vec<u64>, Refusal>
        ensures exact { IfOk result (λ order. order.items ≡ order_of self.now.past) }
        ensures only_memory { IsOkUnless result Memory }
    {
        self.ordered.order()
    }

    /// How often a place in the order was written or moved: once for each.
    pub fn ticks(&self) -> &Ticks
        ensures { result.now.count ≡ length self.now.past.places }
    {
        self.ordered.ticks()
    }

    /// The main node is committed in this step: the operation whose change it is enters the order.
    #[inline(never)]
    fn commit(&mut self, step: u64, main: Ref)
        requires room { 0 < self.old.room }
        requires begun { 0 < step }
        requires can { CanCommit self.old main }
        ensures past { self.new.past ≡ record self.old.past {
          commits = commits_after self.old.past step (Some main);
          places = self.old.past.places ++ entered self.old.past step (Some main);
        } }
        ensures slots { self.new.slots ≡ self.old.slots }
        ensures generations { self.new.generations ≡ self.old.generations }
        ensures room { self.old.room ≤ self.new.room + 1 }
    {
        self.is_ready = false;
        let place = self.place_at_commit(step, main);
        self.ordered.add_if(place);
        self.commits.note(main, step);
    }

    /// An offer is carried out in this step: a generation is closed, and whoever offered enters the order.
    #[inline(never)]
    fn close(&mut self, step: u64, carried: Carried)
        requires room { 0 < self.old.room }
        requires can { CanClose self.old step carried }
        ensures past { self.new.past ≡ record self.old.past {
          closings = self.old.past.closings ++ closed_by step (Some carried);
          places = self.old.past.places ++ placed_by step (Some carried);
        } }
        ensures slots { self.new.slots ≡ self.old.slots }
        ensures generations { self.new.generations ≡ self.old.generations }
        ensures room { self.old.room ≤ self.new.room + 1 }
    {
        self.is_ready = false;
        self.closings.close(carried.generation, step);
        self.ordered.close(step);
        self.ordered.add(on_time(step, false, carried.operation));
    }

    /// The main node is about to be swapped in, as this operation's change of its key, if it is one.
    #[inline(never)]
    fn publish(&mut self, main: Ref, changer: Option<Entrant>)
        requires can { CanPublish self.old (record { main = main; changer = changer }) }
        ensures past { self.new.past ≡ record self.old.past { published = record { main = main; changer = changer } ∷ self.old.past.published } }
        ensures slots { self.new.slots ≡ self.old.slots }
        ensures generations { self.new.generations ≡ self.old.generations }
        ensures room { self.new.room ≡ self.old.room }
    {
        self.publications.note(Publication { main, changer });
    }

    /// The place of the operation whose change the main node is, if it is one, where that is committed in this step.
    fn place_at_commit(&self, step: u64, main: Ref) -> Option<Place>
        requires { IsNewestPublished self.now.past.published main }
        ensures place { option_to_list result ≡ entered self.now.past step (Some main) }
        ensures of_id { IfSome result (λ at. HasBegun self.now.past at.id) }
    {
        match self.publications.changer_of(main) {
            Some(changer) => Some(self.place_of(changer, step, false)),
            None => None,
        }
    }

    /// The place that an operation enters at its end with this reply, if it does.
    fn place_at_end(&self, actor: u8, entrant: Entrant, reply: &Reply) -> Option<Place>
        requires { IsActor self.now.past actor }
        ensures place { option_to_list result ≡ entered_at_end self.now.past entrant (moment_at self.now.past actor).moment reply.now }
        ensures of_id { IfSome result (λ at. at.id ≡ entrant.id) }
    {
        match reply {
            Reply::NoSlots => None,
            _ => self.place_unless_placed(actor, entrant),
        }
    }

    /// The place of an operation that changed nothing, if it has none yet.
    fn place_unless_placed(&self, actor: u8, entrant: Entrant) -> Option<Place>
        requires { IsActor self.now.past actor }
        ensures place { option_to_list result ≡ entered_at_end self.now.past entrant (moment_at self.now.past actor).moment Closed }
        ensures of_id { IfSome result (λ at. at.id ≡ entrant.id) }
    {
        if self.ordered.is_placed(entrant.id) {
            None
        } else {
            let moment = moment_of(self.moments.as_slice(), actor);
            Some(self.place_of(entrant, moment, true))
        }
    }

    /// The place of an operation with this moment.
    fn place_of(&self, entrant: Entrant, moment: u64, changed_nothing: bool) -> Place
        ensures place { result ≡ place_of self.now.past entrant moment changed_nothing }
        ensures id { result.id ≡ entrant.id }
    {
        place_by(
            self.closing_for(entrant),
            moment,
            changed_nothing,
            entrant.id,
        )
    }

    /// The step that closed the operation's generation, if its handle is writable and it was closed.
    fn closing_for(&self, entrant: Entrant) -> Option<u64>
        ensures { result ≡ closing_for self.now.past entrant.generation entrant.access }
    {
        match entrant.access {
            Access::ReadOnly => None,
            Access::Writable => match entrant.generation {
                None => None,
                Some(generation) => self.closings.closed_at(generation),
            },
        }
    }
}

/// The place that an operation enters as it begins, if it does: a close does.
fn place_at_begin(step: u64, id: u64, call: Call) -> Option<Place>
    ensures place { option_to_list result ≡ entered_at_begin step id call }
    ensures of_id { IfSome result (λ at. at.id ≡ id) }
{
    match call {
        Call::Close { .. } => Some(on_time(step, false, id)),
        _ => None,
    }
}
