//! Names: for what the numbers of handles stand.

ghost use Rattle.std.specs.Prelude.{◌≡◌, ◌<◌, ◌≤◌, ℕ, IfOk, IfSome, IfNone, IsSome, None, Some, length, slice_index_or};
ghost use Rattle.machine_model.specs.States.{handle_limit};
ghost use Rattle.ctrie_map.specs.Names.{IsNextFree, first_names, how_many, name_at, with_given, with_name};

use history::Access;
use std::alloc::{AllocError, Global};
use std::marker::Model;

/// How many handles can be open.
pub(crate) const NAMES: u16 = 256;

/// For what a handle's number stands: a handle of the core, each time a writable one. Whether its map may be changed by this
/// number is the name's.
#[derive(Clone, Copy)]
pub(crate) struct Name {
    pub(crate) core: u16,
    pub(crate) access: Access,
}

/// For what all numbers stand.
#[derive(Drop)]
pub(crate) struct Names {
    /// By number, its name.
    named: Vec<Option<Name>>,
    /// How many have one.
    many: u16,
    /// The number that was given last.
    last: u16,
}

impl Model for Names {
    ghost use Rattle.std.specs.Prelude.{◌≡◌, ◌<◌, is_some, length};
    ghost use Rattle.std.specs.List.{count_by};
    ghost use Rattle.ctrie_map.specs.Names.{NameTable};

    ghost Value = { NameTable };

    ghost view = { λ n. record { named = n.named.items; last = n.last } };

    ghost invariant = { λ n. (length n.named.items ≡ 256) × (n.many ≡ count_by is_some n.named.items) × (n.last < 256) };
}

impl Names {
    /// The first handle's.
    pub(crate) fn new(alloc: Global) -> Result<Names, AllocError>
        ensures { IfOk result (λ names. names ≡ first_names) }
    {
        let mut named = vec![in alloc; None; NAMES as usize]?;
        named[0] = Some(Name {
            core: 0,
            access: Access::Writable,
        });
        Ok(Names {
            named,
            many: 1,
            last: 0,
        })
    }

    /// The name of a number.
    pub(crate) fn find(&self, number: u16) -> Option<Name>
        ensures { result ≡ name_at self.now number }
    {
        match self.named.get(number as usize) {
            Some(name) => *name,
            None => None,
        }
    }

    /// By number, its name.
    pub(crate) fn as_slice(&self) -> &[Option<Name>]
        ensures names { result.now ≡ self.now.named }
        ensures size { length result.now ≡ handle_limit }
    {
        self.named.as_slice()
    }

    /// How many numbers have a name.
    pub(crate) fn many(&self) -> u16
        ensures { result ≡ how_many self.now }
    {
        self.many
    }

    /// The first number after the one that was given last, round about, that has no name.
    pub(crate) fn next_free(&self) -> Option<u16>
        ensures next { IfSome result (IsNextFree self.now) }
        ensures none { IfNone result (how_many self.now ≡ handle_limit) }
    {
        let behind = self.last + 1;
        match first_free(self.named.as_slice(), behind, NAMES) {
            Some(number) => Some(number),
            None => first_free(self.named.as_slice(), 0, behind),
        }
    }

    /// Gives the number to this name.
    pub(crate) fn give(&mut self, number: u16, name: Name)
        requires within { number < handle_limit }
        requires free { name_at self.old number ≡ None }
        ensures { self.new ≡ with_given self.old number name }
    {
        self.named[number as usize] = Some(name);
        self.many += 1;
        self.last = number;
    }

    /// The number has no name from now on.
    pub(crate) fn take_back(&mut self, number: u16)
        requires { IsSome (name_at self.old number) }
        ensures { self.new ≡ with_name self.old number None }
    {
        self.named[number as usize] = None;
        self.many -= 1;
    }

    /// The number, which has a name, has this one from now on.
    pub(crate) fn rename(&mut self, number: u16, name: Name)
        requires { IsSome (name_at self.old number) }
        ensures { self.new ≡ with_name self.old number (Some name) }
    {
        self.named[number as usize] = Some(name);
    }
}

/// The first number from the one on and below the other that has no name.
fn first_free(named: &[Option<Name>], from: u16, below: u16) -> Option<u16>
    requires { below ≤ length named.now }
    ensures free { IfSome result (λ number. (from ≤ number) × (number < below) × (slice_index_or named.now number None ≡ None)) }
    ensures others { IfSome result (λ first. (number : ℕ) → from ≤ number → number < first → IsSome (slice_index_or named.now number None)) }
    ensures none { IfNone result ((number : ℕ) → from ≤ number → number < below → IsSome (slice_index_or named.now number None)) }
{
    for number in from..below {
        if named[number as usize].is_none() {
            return Some(number);
        }
    }
    None
}
