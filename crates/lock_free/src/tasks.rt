//! What a try of a call on a key goes by.

ghost use Rattle.std.specs.Prelude.{◌≡◌, ◌==◌};
ghost use Rattle.machine_model.specs.Beneath.ctrie_base.specs.Hashes.{hash_of};
ghost use Rattle.machine_model.specs.Calls.{absent_reply, changed_reply, handle_of, inserts, key_of, value_of, when_found};
ghost use Rattle.machine_model.specs.Finding.{passes};

use crate::reading::Way;
use history::{Access, Call, Reply};
use machine_model::WhenFound;
use nodes::HashKind;

/// What a try of a call on a key goes by.
#[derive(Clone, Copy, Drop)]
pub struct Task {
    /// The call.
    pub call: Call,
    /// What its handle allows.
    pub access: Access,
    /// Its key.
    pub key: u64,
    /// The hash of the key.
    pub hash: u64,
    /// The generation of its root.
    pub start: u64,
}

impl Task {
    /// A try of the call on a handle that allows this, from a root of this generation.
    #[inline(always)]
    pub fn new(call: Call, access: Access, hashes: HashKind, start: u64) -> Task
        ensures given { (result.call ≡ call) × (result.access ≡ access) × (result.start ≡ start) }
        ensures key { result.key ≡ key_of call }
        ensures hash { result.hash ≡ hash_of hashes result.key }
    {
        let key = key_of(call);
        Task {
            call,
            access,
            key,
            hash: hashes.hash(key),
            start,
        }
    }

    /// The handle of the call.
    #[inline(always)]
    pub fn way(&self) -> Way
        ensures { (result.handle ≡ handle_of self.now.call) × (result.access ≡ self.now.access) }
    {
        Way {
            handle: self.call.handle(),
            access: self.access,
        }
    }

    /// Whether it goes through an indirection of this generation.
    #[inline(always)]
    pub fn passes(&self, generation: u64) -> bool
        ensures { result ≡ passes self.now.access (self.now.start == generation) }
    {
        match self.access {
            Access::Writable => generation == self.start,
            Access::ReadOnly => true,
        }
    }
}

/// The key of a call on one key.
#[inline(always)]
pub(crate) fn key_of(call: Call) -> u64
    ensures { result ≡ key_of call }
{
    match call {
        Call::Get { key, .. }
        | Call::Put { key, .. }
        | Call::PutIfAbsent { key, .. }
        | Call::Replace { key, .. }
        | Call::ReplaceIf { key, .. }
        | Call::Remove { key, .. }
        | Call::RemoveIf { key, .. } => key,
        _ => 0,
    }
}

/// The value that a call on one key sets.
#[inline(always)]
pub(crate) fn value_of(call: Call) -> u64
    ensures { result ≡ value_of call }
{
    match call {
        Call::Put { value, .. } | Call::PutIfAbsent { value, .. } | Call::Replace { value, .. } =>
            value,
        Call::ReplaceIf { new, .. } => new,
        _ => 0,
    }
}

/// Whether the call gives an absent key a value.
#[inline(always)]
pub fn inserts(call: Call) -> bool
    ensures { result ≡ inserts call }
{
    matches!(call, Call::Put { .. } | Call::PutIfAbsent { .. })
}

/// The reply where the key is absent and stays so.
#[inline(always)]
pub fn absent_reply(call: Call) -> Reply
    ensures { result ≡ absent_reply call }
{
    match call {
        Call::ReplaceIf { .. } | Call::RemoveIf { .. } => Reply::Truth(false),
        _ => Reply::Found(None),
    }
}

/// The reply once the call has changed the map, whose value of the key was this one, or none.
#[inline(always)]
pub(crate) fn changed_reply(call: Call, former: Option<u64>) -> Reply
    ensures { result ≡ changed_reply call former }
{
    match call {
        Call::ReplaceIf { .. } | Call::RemoveIf { .. } => Reply::Truth(true),
        _ => Reply::Found(former),
    }
}

/// What the call does where its key has this value.
#[inline(always)]
pub fn when_found(call: Call, value: u64) -> WhenFound
    ensures { result ≡ when_found call value }
{
    match call {
        Call::Put { .. } | Call::Replace { .. } => WhenFound::Sets,
        Call::ReplaceIf { old, .. } => {
            if value == old {
                WhenFound::Sets
            } else {
                WhenFound::Answers(Reply::Truth(false))
            }
        }
        Call::Remove { .. } => WhenFound::Removes,
        Call::RemoveIf {
            value: expected,
            ..
        } => {
            if value == expected {
                WhenFound::Removes
            } else {
                WhenFound::Answers(Reply::Truth(false))
            }
        }
        _ => WhenFound::Answers(Reply::Found(Some(value))),
    }
}
