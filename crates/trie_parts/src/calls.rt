//! The calls on one key, and what an operation of one goes by.

ghost use Rattle.std.specs.Prelude.{◌≡◌, ◌<◌, ℕ, unwrap_or};
ghost use Rattle.trie_parts.specs.Beneath.ctrie_base.specs.Hashes.{hash_of};
ghost use Rattle.nodes.specs.Levels.{flag_of};
ghost use Rattle.trie_parts.specs.Beneath.machine_model.specs.Calls.{key_of, value_of};
ghost use Rattle.trie_parts.specs.Beneath.machine_model.specs.Paths.{depth_of};
ghost use Rattle.trie_parts.specs.Tasks.{call_of, is_begun_in};

use crate::paths::depth_of;
use nodes::{HashKind, Ref, flag_of};

/// A call on one key, without the handle.
#[derive(Clone, Copy, Debug, PartialEq, Eq)]
pub enum KeyCall {
    /// The key's value.
    Get { key: u64 },
    /// Sets the key's value.
    Put { key: u64, value: u64 },
    /// Sets the value of a key that has none.
    PutIfAbsent { key: u64, value: u64 },
    /// Sets the value of a key that has one.
    Replace { key: u64, value: u64 },
    /// Sets the value of a key that has the expected one.
    ReplaceIf { key: u64, expected: u64, value: u64 },
    /// Removes the key.
    Remove { key: u64 },
    /// Removes a key that has the expected value.
    RemoveIf { key: u64, expected: u64 },
}

impl KeyCall {
    /// The key.
    pub fn key(self) -> u64
        ensures { (handle : ℕ) → result ≡ key_of (call_of handle self) }
    {
        match self {
            KeyCall::Get { key }
            | KeyCall::Put { key, .. }
            | KeyCall::PutIfAbsent { key, .. }
            | KeyCall::Replace { key, .. }
            | KeyCall::ReplaceIf { key, .. }
            | KeyCall::Remove { key }
            | KeyCall::RemoveIf { key, .. } => key,
        }
    }

    /// The value that it sets; 0 where it sets none.
    pub fn value(self) -> u64
        ensures { (handle : ℕ) → result ≡ value_of (call_of handle self) }
    {
        match self {
            KeyCall::Put { value, .. }
            | KeyCall::PutIfAbsent { value, .. }
            | KeyCall::Replace { value, .. }
            | KeyCall::ReplaceIf { value, .. } => value,
            KeyCall::Get { .. } | KeyCall::Remove { .. } | KeyCall::RemoveIf { .. } => 0,
        }
    }
}

/// What a try of a call on one key goes by.
#[derive(Clone, Copy)]
pub struct Task {
    pub call: KeyCall,
    /// Those of the map.
    pub hashes: HashKind,
    /// That of the root that ROOT gave last in the program's first line.
    pub generation: Option<u64>,
}

impl Task {
    /// The hash of the call's key.
    #[inline(always)]
    pub fn hash(self) -> u64
        ensures { (handle : ℕ) → result ≡ hash_of self.hashes (key_of (call_of handle self.call)) }
    {
        self.hashes.hash(self.call.key())
    }

    /// The flag of the call's key at the end of a path.
    #[inline(always)]
    pub fn flag_at(self, path: &[Ref]) -> u32
        ensures flag { (handle : ℕ) → result ≡ flag_of (hash_of self.hashes (key_of (call_of handle self.call))) (depth_of path.now) }
        ensures some { 0 < result }
    {
        flag_of(self.hash(), depth_of(path))
    }

    /// The generation of the root; 0 before there is one.
    #[inline(always)]
    pub fn start(self) -> u64
        ensures { result ≡ unwrap_or self.generation 0 }
    {
        self.generation.unwrap_or(0)
    }

    /// Whether this is the generation of the root.
    #[inline(always)]
    pub fn is_start(self, generation: u64) -> bool
        ensures { result ≡ is_begun_in self generation }
    {
        self.generation == Some(generation)
    }
}
