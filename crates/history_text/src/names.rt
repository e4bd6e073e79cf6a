//! The words by which lines, calls and replies are named.

ghost use Rattle.std.specs.Prelude.{◌≡◌};
ghost use Rattle.history_text.specs.Names.{call_named, reply_named, line_named, hash_named};

use ctrie_base::HashKind;

/// What a call is named by.
#[derive(Clone, Copy)]
pub enum CallName {
    Get,
    Put,
    PutIfAbsent,
    Replace,
    ReplaceIf,
    Remove,
    RemoveIf,
    Clear,
    Snapshot,
    Freeze,
    Close,
    Entries,
    Count,
}

impl CallName {
    /// The call of this name.
    #[tactic(auto, unfolding(crate::specs::Names::call_named))]
    pub fn of(word: &[u8]) -> Option<CallName>
        ensures { result ≡ call_named word.now }
    {
        if word == b"get".as_slice() {
            return Some(CallName::Get);
        }
        if word == b"put".as_slice() {
            return Some(CallName::Put);
        }
        if word == b"put-if-absent".as_slice() {
            return Some(CallName::PutIfAbsent);
        }
        if word == b"replace".as_slice() {
            return Some(CallName::Replace);
        }
        if word == b"replace-if".as_slice() {
            return Some(CallName::ReplaceIf);
        }
        if word == b"remove".as_slice() {
            return Some(CallName::Remove);
        }
        if word == b"remove-if".as_slice() {
            return Some(CallName::RemoveIf);
        }
        if word == b"clear".as_slice() {
            return Some(CallName::Clear);
        }
        if word == b"snapshot".as_slice() {
            return Some(CallName::Snapshot);
        }
        if word == b"freeze".as_slice() {
            return Some(CallName::Freeze);
        }
        if word == b"close".as_slice() {
            return Some(CallName::Close);
        }
        if word == b"entries".as_slice() {
            return Some(CallName::Entries);
        }
        if word == b"count".as_slice() {
            return Some(CallName::Count);
        }
        None
    }
}

/// What a reply is named by.
#[derive(Clone, Copy)]
pub enum ReplyName {
    None,
    Some,
    True,
    False,
    Crowded,
    Handle,
    Closed,
    Cleared,
    Pairs,
    Count,
    NoSlots,
}

impl ReplyName {
    /// The reply of this name.
    #[tactic(auto, unfolding(crate::specs::Names::reply_named))]
    pub fn of(word: &[u8]) -> Option<ReplyName>
        ensures { result ≡ reply_named word.now }
    {
        if word == b"none".as_slice() {
            return Some(ReplyName::None);
        }
        if word == b"some".as_slice() {
            return Some(ReplyName::Some);
        }
        if word == b"true".as_slice() {
            return Some(ReplyName::True);
        }
        if word == b"false".as_slice() {
            return Some(ReplyName::False);
        }
        if word == b"crowded".as_slice() {
            return Some(ReplyName::Crowded);
        }
        if word == b"handle".as_slice() {
            return Some(ReplyName::Handle);
        }
        if word == b"closed".as_slice() {
            return Some(ReplyName::Closed);
        }
        if word == b"cleared".as_slice() {
            return Some(ReplyName::Cleared);
        }
        if word == b"pairs".as_slice() {
            return Some(ReplyName::Pairs);
        }
        if word == b"count".as_slice() {
            return Some(ReplyName::Count);
        }
        if word == b"no-slots".as_slice() {
            return Some(ReplyName::NoSlots);
        }
        None
    }
}

/// What a line is named by.
#[derive(Clone, Copy)]
pub enum LineName {
    Begin,
    End,
    Denied,
    Order,
    Slots,
}

impl LineName {
    /// The line whose first word this is.
    #[tactic(auto, unfolding(crate::specs::Names::line_named))]
    pub fn of(word: &[u8]) -> Option<LineName>
        ensures { result ≡ line_named word.now }
    {
        if word == b"begin".as_slice() {
            return Some(LineName::Begin);
        }
        if word == b"end".as_slice() {
            return Some(LineName::End);
        }
        if word == b"denied".as_slice() {
            return Some(LineName::Denied);
        }
        if word == b"order".as_slice() {
            return Some(LineName::Order);
        }
        if word == b"slots".as_slice() {
            return Some(LineName::Slots);
        }
        None
    }
}

/// The hash of this name.
#[tactic(auto, unfolding(crate::specs::Names::hash_named))]
pub fn hash_named(word: &[u8]) -> Option<HashKind>
    ensures { result ≡ hash_named word.now }
{
    if word == b"low".as_slice() {
        return Some(HashKind::Low);
    }
    if word == b"fold".as_slice() {
        return Some(HashKind::Fold);
    }
    if word == b"wide".as_slice() {
        return Some(HashKind::Wide);
    }
    if word == b"block".as_slice() {
        return Some(HashKind::Block);
    }
    None
}
