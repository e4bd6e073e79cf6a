//! What a step tells beside its outcome, and what is recorded of a run.

use history::{Access, Call, Reply};
use nodes::Ref;

/// An operation, as the order knows it.
#[derive(Clone, Copy)]
pub struct Entrant {
    pub id: u64,
    /// Of the handle on which it was called.
    pub access: Access,
    /// The generation of the root that ROOT gave it last in its first line, if it has got one.
    pub generation: Option<u64>,
}

/// A main node that an operation is about to swap in.
#[derive(Clone, Copy)]
pub struct Publication {
    pub main: Ref,
    /// The operation, where the node is the change of its key.
    pub changer: Option<Entrant>,
}

/// A root was swapped for the new one that an operation offered.
#[derive(Clone, Copy)]
pub struct Carried {
    /// The generation of the root that it took away.
    pub generation: u64,
    /// The id of the operation that offered.
    pub operation: u64,
}

/// What a step tells of an operation that goes on after it.
#[derive(Clone, Copy)]
pub struct Progress {
    /// The main node that it committed.
    pub committed: Option<Ref>,
    /// The main node that the operation's READ gave by it.
    pub given: Option<Ref>,
    /// Whether that READ counts from it on: it read the main word, or put the node before back.
    pub counts: bool,
    /// The main node that it swapped in, unless another came first.
    pub published: Option<Publication>,
    /// The offer that it carried out.
    pub carried: Option<Carried>,
}

/// What a step tells.
#[derive(Drop)]
pub enum Told {
    /// The actor began an operation with this id, which is to open this handle.
    Began {
        id: u64,
        actor: u8,
        call: Call,
        opens: Option<u16>,
    },
    /// The actor's operation went on.
    Went {
        actor: u8,
        progress: Progress,
    },
    /// The actor's operation ended.
    Ended {
        actor: u8,
        entrant: Entrant,
        reply: Reply,
    },
    /// A step of which nothing is recorded: one of the sweep, or one in which an operation gives up.
    Nothing,
}

/// The step in which a main node was committed.
#[derive(Clone, Copy)]
pub struct Commit {
    pub main: Ref,
    pub step: u64,
}

/// The step that closed a generation.
#[derive(Clone, Copy)]
pub struct Closing {
    pub generation: u64,
    pub step: u64,
}

/// What is recorded of the READs of a running operation.
#[derive(Clone, Copy)]
pub struct Moment {
    /// The step of the last read or swap of a main word by a READ.
    pub read_at: u64,
    /// The first step from there on at which what its last READ gave was the logical main node.
    pub moment: u64,
}
