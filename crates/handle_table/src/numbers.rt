//! The numbers.

ghost use Rattle.std.specs.Prelude.{◌≡◌, ◌+◌, ◌-◌, ◌<◌, IfOk, nat_lt, true, false};
ghost use Rattle.handle_table.specs.Numbers.{IsLeastFree, how_many, is_taken_in, no_numbers, running_on, with_running, with_taken};

use crate::words::{first_unset, flip, is_set};
use std::alloc::{AllocError, Global};
use std::marker::Model;

/// How many handles can be open or reserved.
pub const HANDLE_LIMIT: u16 = 256;

/// Which handle numbers are taken, and how many running operations were called on each.
#[derive(Drop)]
pub struct Handles {
    /// A bit for each number that is taken, in four words.
    words: Vec<u64>,
    /// How many are taken.
    many: u16,
    /// By handle number, how many running operations were called on it.
    running: Vec<u8>,
}

impl Model for Handles {
    ghost use Rattle.std.specs.Prelude.{◌≡◌, length};
    ghost use Rattle.handle_table.specs.Numbers.{Numbers, how_many, taken_by};

    ghost Value = { Numbers };

    ghost view = { λ h. record { taken = taken_by h.words.items; running = h.running.items } };

    ghost invariant = { λ h. (length h.words.items ≡ 4) × (h.many ≡ how_many (taken_by h.words.items)) };
}

impl Handles {
    /// No number is taken.
    #[tactic(auto, using(crate::proofs::Bits::none_taken, crate::proofs::Bits::none_many))]
    pub fn new(alloc: Global) -> Result<Handles, AllocError>
        ensures { IfOk result (λ handles. handles ≡ no_numbers) }
    {
        let words = vec![in alloc; 0; 4]?;
        let running = vec![in alloc; 0; HANDLE_LIMIT as usize]?;
        Ok(Handles {
            words,
            many: 0,
            running,
        })
    }

    /// Whether the number is taken.
    #[tactic(auto, using(crate::proofs::Bits::taken_at))]
    fn is_taken(&self, handle: u16) -> bool
        ensures { result ≡ is_taken_in self.now handle }
    {
        handle < HANDLE_LIMIT && is_set(self.words.as_slice(), handle)
    }

    /// The number is taken.
    pub fn take(&mut self, handle: u16)
        ensures { self.new ≡ with_taken self.old handle true }
    {
        if handle < HANDLE_LIMIT && !self.is_taken(handle) {
            flip(&mut self.words, handle);
            self.many += 1;
        }
    }

    /// The number is free again.
    pub fn give_back(&mut self, handle: u16)
        ensures { self.new ≡ with_taken self.old handle false }
    {
        if self.is_taken(handle) {
            flip(&mut self.words, handle);
            self.many -= 1;
        }
    }

    /// The least number that isn't taken, or 256.
    pub fn least_free(&self) -> u16
        ensures { IsLeastFree self.now result }
    {
        first_unset(self.words.as_slice())
    }

    /// How many numbers are taken.
    pub fn taken(&self) -> u16
        ensures { result ≡ how_many self.now.taken }
    {
        self.many
    }

    /// An operation begins that was called on this handle.
    #[tactic(auto, using(crate::proofs::Bits::unwritten))]
    pub fn begins_on(&mut self, handle: u16)
        requires { running_on self.old handle < 255 }
        ensures { self.new ≡ with_running self.old handle (running_on self.old handle + 1) }
    {
        if let Some(running) = self.running.get_mut(handle as usize) {
            *running += 1;
        }
    }

    /// One that was called on this handle has ended.
    #[tactic(auto, using(crate::proofs::Bits::unwritten))]
    pub fn ends_on(&mut self, handle: u16)
        ensures { self.new ≡ with_running self.old handle (running_on self.old handle - 1) }
    {
        if let Some(running) = self.running.get_mut(handle as usize) {
            *running = running.saturating_sub(1);
        }
    }

    /// Whether an operation runs that was called on this handle.
    pub fn runs_on(&self, handle: u16) -> bool
        ensures { result ≡ nat_lt 0 (running_on self.now handle) }
    {
        match self.running.get(handle as usize) {
            Some(running) => 0 < *running,
            None => false,
        }
    }
}
