//! Programs that are out of tries, and what then goes on.

use crate::reading::ReadFrom;
use trie_words::Name;

/// What of the main node that it replaces a fresh one doesn't name, where that one is its indirection's own.
#[derive(Clone, Copy, Drop)]
pub enum Drops {
    /// Nothing.
    Nothing,
    /// The entry at this position, and nothing else.
    At(usize),
    /// It isn't said: what both name is to be looked at.
    Others,
}

/// A SWAP under way: the operation's fresh main node is swapped in, and what it comes to isn't known yet. It goes on by `swap_on`.
#[derive(Clone, Copy, Drop)]
pub struct Swapping {
    /// The slot of the indirection.
    pub indirection: u32,
    /// From where the READ of it goes on.
    pub from: ReadFrom,
    /// The slot of the fresh main node.
    pub fresh: u32,
    /// The main node that it replaces, which is the indirection's own or isn't.
    pub replaced: Name,
    /// The class of the slot of that one.
    pub class: u32,
    /// What of that one the fresh one doesn't name.
    pub drops: Drops,
}

/// A COMPLETE under way, of an offer that came to stand. It goes on by `complete_on`.
#[derive(Clone, Copy, Drop)]
pub struct Completing {
    /// The slot of the offer.
    pub offer: u32,
    /// The slot of the root that it is to replace.
    pub root: u32,
    /// From where the READ of that root goes on.
    pub from: ReadFrom,
}

/// How a program ends that is out of tries.
#[derive(Clone, Copy, Drop)]
pub enum Left {
    /// Nothing of the operation's own is published and pending: it may give up.
    MayGiveUp,
    /// Its SWAP is under way: it may not give up before that has come to its end.
    Swapping(Swapping),
    /// Its own offer was brought to stand: it may not give up before that is settled.
    Completing(Completing),
}
