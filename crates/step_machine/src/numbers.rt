//! What is counted of a machine.

ghost use Rattle.std.specs.Prelude.{◌≡◌, ◌+◌, ◌^◌, ◌≤◌, length};
ghost use Rattle.step_machine.specs.Beneath.slot_arena.specs.Heaps.{in_use};
ghost use Rattle.machine_model.specs.Machine.{handles_taken};
ghost use Rattle.proof_runs.specs.Machines.{state_of};

use crate::machine::Machine;

impl Machine {
    /// How many handles are open or reserved.
    pub fn handles_taken(&self) -> u32
        ensures number { result ≡ handles_taken (state_of self.now) }
        ensures few { result ≤ 256 }
    {
        self.body().handles_taken()
    }

    /// How many slots are free.
    pub fn free_slots(&self) -> u32
        ensures { result ≡ length (state_of self.now).heap.free }
    {
        self.body().free_slots()
    }

    /// How many slots are in use, those in limbo too. These and the free ones are all slots.
    pub fn used(&self) -> u32
        ensures used { result ≡ length (in_use (state_of self.now).heap) }
        ensures sum { result + length (state_of self.now).heap.free ≡ self.now.limits.slots }
    {
        let _ = self.limits();
        machine_model::slots_add_up();
        self.body().used()
    }

    /// How many slots are in use but counted by nothing.
    pub fn limbo_len(&self) -> u32
        ensures { result ≡ length (state_of self.now).limbo }
    {
        self.body().limbo_len()
    }

    /// The present epoch, from 0.
    pub fn epoch(&self) -> u64
        ensures { result ≡ (state_of self.now).epoch }
    {
        self.body().epoch()
    }

    /// How many steps were taken.
    pub fn steps_taken(&self) -> u64
        ensures number { result ≡ (state_of self.now).steps }
        ensures most { result ≤ 2 ^ 40 }
    {
        self.body().steps_taken()
    }
}
