//! The steps in which generations were closed.

ghost use Rattle.std.specs.Prelude.{◌≡◌, ℕ, ◌<◌, ◌≤◌, ◌++◌, ◌∷◌, [], None, Some, OnOk, MatchOption, length, slice_index_or, slice_set, vec_len, vec_capacity};
ghost use Rattle.chronicle.specs.Closed.{closing_step};

use ctrie_base::Trace;
use machine_model::Closing;
use places::touch_room;
use std::alloc::{AllocError, Global};
use std::marker::Model;

/// The step that closed each generation, if one did, by the generation's number.
#[derive(Drop)]
pub struct Closings {
    steps: Vec<Option<u64>>,
    /// The closings as they came, for clauses alone.
    listed: Trace<Closing>,
}

impl Model for Closings {
    ghost use Rattle.std.specs.Prelude.{◌-◌, length, vec_len, vec_capacity};
    ghost use Rattle.chronicle.specs.Closed.{Closed, AreFound};

    ghost Value = { Closed };

    ghost view = { λ c. record {
      closings = c.listed.items;
      generations = length c.steps.items;
      room = vec_capacity c.steps - vec_len c.steps;
    } };

    ghost invariant = { λ c. AreFound c.steps.items c.listed.items };
}

impl Closings {
    /// Nothing was closed. It takes no memory.
    #[tactic(auto, using(crate::proofs::ClosingSteps::none_closed))]
    pub fn new(alloc: Global) -> Closings
        ensures closings { result.closings ≡ [] }
        ensures generations { result.generations ≡ 0 }
    {
        Closings {
            steps: Vec::new(alloc),
            listed: Trace::new(),
        }
    }

    /// Makes room for the closings of this many generations. After an error nothing that is seen but room has changed.
    pub fn room_for(&mut self, generations: u64) -> Result<(), AllocError>
        ensures closings { self.new.closings ≡ self.old.closings }
        ensures generations { OnOk result (generations ≤ self.new.generations) }
        ensures more { self.old.generations ≤ self.new.generations }
    {
        lengthen(&mut self.steps, generations as usize)
    }

    /// Makes room for this many generations more, in memory that is written here. After an error nothing but room has changed.
    pub fn reserve(&mut self, count: usize) -> Result<(), AllocError>
        ensures closings { self.new.closings ≡ self.old.closings }
        ensures generations { self.new.generations ≡ self.old.generations }
        ensures room { OnOk result (count ≤ self.new.room) }
    {
        touch_room(&mut self.steps, count, None)
    }

    /// A generation is closed in this step. If it was closed before, that stands.
    pub fn close(&mut self, generation: u64, step: u64)
        requires { generation < self.old.generations }
        ensures closings { self.new.closings ≡ self.old.closings ++ record { generation = generation; step = step } ∷ [] }
        ensures generations { self.new.generations ≡ self.old.generations }
    {
        close_once(&mut self.steps, generation as usize, step);
        self.listed = self.listed.with_last(&Closing { generation, step });
    }

    /// Of how many generations a closing is kept.
    #[inline(always)]
    pub fn generations(&self) -> u64
        ensures { result ≡ self.now.generations }
    {
        self.steps.len() as u64
    }

    /// The step that closed a generation, if one did.
    #[tactic(auto, using(crate::proofs::ClosingSteps::found_at))]
    pub fn closed_at(&self, generation: u64) -> Option<u64>
        ensures { result ≡ closing_step self.now.closings generation }
    {
        *self.steps.get(generation as usize)?
    }
}

/// At least this many steps, of which the new ones are none.
fn lengthen(steps: &mut Vec<Option<u64>>, count: usize) -> Result<(), AllocError>
    ensures same { (other : ℕ) → slice_index_or steps.new.items other None ≡ slice_index_or steps.old.items other None }
    ensures length { OnOk result (count ≤ length steps.new.items) }
    ensures more { length steps.old.items ≤ length steps.new.items }
{
    if steps.len() < count {
        // The last one alone, so that memory grows by more than is asked for.
        steps.resize(count - 1, None)?;
        steps.push(None)?;
    }
    Ok(())
}

/// Sets the step of a generation, unless one stands there.
fn close_once(steps: &mut Vec<Option<u64>>, generation: usize, step: u64)
    requires { generation < vec_len steps.old }
    ensures items { MatchOption (slice_index_or steps.old.items generation None) (steps.new.items ≡ slice_set steps.old.items generation (Some step))
        (λ was. steps.new.items ≡ steps.old.items) }
{
    if steps[generation].is_none() {
        steps[generation] = Some(step);
    }
}
