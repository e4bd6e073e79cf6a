//! Links of chains, and flags by number: each call looks at one, and counts it.

ghost use Rattle.std.specs.Prelude.{◌≡◌, ◌+◌, ◌<◌, false, length, replicate, slice_index, slice_index_or, slice_set, IfOk};

use ctrie_base::Ticks;
use std::alloc::{AllocError, Global};
use std::marker::Model;

/// Links, and ends of chains, by number. Each call reads or writes one, and counts one tick of its own.
#[derive(Drop)]
pub struct Links {
    words: Vec<u32>,
    ticks: Ticks,
}

impl Model for Links {
    ghost use Rattle.slot_arena.specs.Chains.{Linked};

    ghost Value = { Linked };

    ghost view = { λ l. record { words = l.words.items; ticks = l.ticks.count } };
}

impl Links {
    /// This many links, each to 0.
    pub fn new(alloc: Global, count: usize) -> Result<Links, AllocError>
        ensures { IfOk result (λ links. links ≡ record { words = replicate count 0; ticks = 0 }) }
    {
        Ok(Links {
            words: vec![in alloc; 0; count]?,
            ticks: Ticks::new(),
        })
    }

    /// Reads one link.
    pub fn read(&mut self, at: usize) -> u32
        requires { at < length self.old.words }
        ensures link { result ≡ slice_index self.old.words at }
        ensures words { self.new.words ≡ self.old.words }
        ensures ticks { self.new.ticks ≡ self.old.ticks + 1 }
    {
        self.ticks.add();
        self.words[at]
    }

    /// Writes one link.
    pub fn write(&mut self, at: usize, link: u32)
        requires { at < length self.old.words }
        ensures words { self.new.words ≡ slice_set self.old.words at link }
        ensures ticks { self.new.ticks ≡ self.old.ticks + 1 }
    {
        self.ticks.add();
        self.words[at] = link;
    }

    /// How often a link was read or written.
    pub fn ticks(&self) -> &Ticks
        ensures { result.now.count ≡ self.now.ticks }
    {
        &self.ticks
    }
}

/// Flags by number. Each call reads or writes one, and counts one tick of its own.
#[derive(Drop)]
pub struct Flags {
    marks: Vec<bool>,
    ticks: Ticks,
}

impl Model for Flags {
    ghost use Rattle.slot_arena.specs.Chains.{Flagged};

    ghost Value = { Flagged };

    ghost view = { λ f. record { marks = f.marks.items; ticks = f.ticks.count } };
}

impl Flags {
    /// This many flags, none of them set.
    pub fn new(alloc: Global, count: usize) -> Result<Flags, AllocError>
        ensures { IfOk result (λ flags. flags ≡ record { marks = replicate count false; ticks = 0 }) }
    {
        Ok(Flags {
            marks: vec![in alloc; false; count]?,
            ticks: Ticks::new(),
        })
    }

    /// Reads one flag.
    pub fn read(&mut self, at: usize) -> bool
        requires { at < length self.old.marks }
        ensures flag { result ≡ slice_index_or self.old.marks at false }
        ensures marks { self.new.marks ≡ self.old.marks }
        ensures ticks { self.new.ticks ≡ self.old.ticks + 1 }
    {
        self.ticks.add();
        self.marks[at]
    }

    /// Writes one flag.
    pub fn write(&mut self, at: usize, flag: bool)
        requires { at < length self.old.marks }
        ensures marks { self.new.marks ≡ slice_set self.old.marks at flag }
        ensures ticks { self.new.ticks ≡ self.old.ticks + 1 }
    {
        self.ticks.add();
        self.marks[at] = flag;
    }

    /// How often a flag was read or written.
    pub fn ticks(&self) -> &Ticks
        ensures { result.now.count ≡ self.now.ticks }
    {
        &self.ticks
    }
}
