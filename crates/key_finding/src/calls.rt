//! What calls on one key do and answer.

ghost use Rattle.std.specs.Prelude.{◌≡◌, ℕ};
ghost use Rattle.key_finding.specs.Beneath.machine_model.specs.Calls.{inserts, absent_reply, changed_reply, when_found};
ghost use Rattle.key_finding.specs.Beneath.trie_parts.specs.Tasks.{call_of};
ghost use Rattle.key_finding.specs.Replies.{reply_of, todo_of};

use key_change::KeyCall;

/// The reply to a call on one key.
#[derive(Clone, Copy, Debug, PartialEq, Eq)]
pub enum KeyReply {
    /// The key's value before, if it had one.
    Found(Option<u64>),
    /// Whether the call has changed the map.
    Truth(bool),
    /// 32 other keys have the key's hash.
    Crowded,
    /// No slot was free.
    NoSlots,
}

/// What a call does where its key has a value.
#[derive(Clone, Copy)]
pub enum Todo {
    /// It answers this, and changes nothing.
    Answer(KeyReply),
    /// It sets another value.
    Set,
    /// It removes the key.
    Remove,
}

/// Whether the call gives an absent key a value.
pub fn inserts(call: KeyCall) -> bool
    ensures { (handle : ℕ) → result ≡ inserts (call_of handle call) }
{
    match call {
        KeyCall::Put { .. } | KeyCall::PutIfAbsent { .. } => true,
        KeyCall::Get { .. }
        | KeyCall::Replace { .. }
        | KeyCall::ReplaceIf { .. }
        | KeyCall::Remove { .. }
        | KeyCall::RemoveIf { .. } => false,
    }
}

/// The reply where the key is absent and stays so.
pub fn absent_reply(call: KeyCall) -> KeyReply
    ensures { (handle : ℕ) → reply_of result ≡ absent_reply (call_of handle call) }
{
    match call {
        KeyCall::ReplaceIf { .. } | KeyCall::RemoveIf { .. } => KeyReply::Truth(false),
        KeyCall::Get { .. }
        | KeyCall::Put { .. }
        | KeyCall::PutIfAbsent { .. }
        | KeyCall::Replace { .. }
        | KeyCall::Remove { .. } => KeyReply::Found(None),
    }
}

/// The reply once the call has changed the map, where its key had this value before.
pub fn changed_reply(call: KeyCall, before: Option<u64>) -> KeyReply
    ensures { (handle : ℕ) → reply_of result ≡ changed_reply (call_of handle call) before }
{
    match call {
        KeyCall::ReplaceIf { .. } | KeyCall::RemoveIf { .. } => KeyReply::Truth(true),
        KeyCall::Get { .. }
        | KeyCall::Put { .. }
        | KeyCall::PutIfAbsent { .. }
        | KeyCall::Replace { .. }
        | KeyCall::Remove { .. } => KeyReply::Found(before),
    }
}

/// What the call does where its key has this value.
pub fn when_found(call: KeyCall, value: u64) -> Todo
    ensures { (handle : ℕ) → todo_of result ≡ when_found (call_of handle call) value }
{
    match call {
        KeyCall::Put { .. } | KeyCall::Replace { .. } => Todo::Set,
        KeyCall::ReplaceIf { expected, .. } => {
            if value == expected {
                Todo::Set
            } else {
                Todo::Answer(KeyReply::Truth(false))
            }
        }
        KeyCall::Remove { .. } => Todo::Remove,
        KeyCall::RemoveIf { expected, .. } => {
            if value == expected {
                Todo::Remove
            } else {
                Todo::Answer(KeyReply::Truth(false))
            }
        }
        KeyCall::Get { .. } | KeyCall::PutIfAbsent { .. } => {
            Todo::Answer(KeyReply::Found(Some(value)))
        }
    }
}
