//! Lists of references.

use crate::refs::Ref;
use ctrie_base::Change;
use std::marker::Model;

/// A list of references, of which definitions speak.
#[derive(Drop)]
pub struct Refs {
    items: Vec<Ref>,
}

impl Model for Refs {
    ghost use Rattle.std.specs.Prelude.{List, ℕ};

    ghost Value = { List ℕ };

    ghost view = { λ r. r.items.items };
}

/// The list without the first item that is this one.
pub(crate) struct TakenOut;

impl Change<Ref, Ref> for TakenOut {
    ghost use Rattle.slot_arena.specs.Times.{without};

    ghost after = { λ refs one. without one refs };
}
