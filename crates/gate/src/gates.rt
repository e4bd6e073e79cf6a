//! The object behind its gate.
ghost use Rattle.std.specs.Prelude.{◌≡◌};

use crate::boards::Board;
use crate::objects::Object;
use crate::rules::{Knows, Rule, Terms};
use atomic_table::Table;
use std::alloc::Global;
use std::marker::Model;

/// An object that the seats of a gate share. A call is one hold of the gate, and all calls make one log.
#[derive(Drop)]
pub struct Gate<O: Object<C, A>, C, A> {
    pub(crate) table: Table<Board<O, C, A>, Knows<O, C, A>, Terms<O, C, A>, Rule, Global>,
    pub(crate) terms: Terms<O, C, A>,
}

impl<O: Object<C, A>, C, A> Model for Gate<O, C, A> {
    ghost use Rattle.std.specs.Prelude.{◌≡◌};
    ghost use Rattle.gate.specs.Seats.{Room};

    ghost Value = { Room O };

    ghost view = { λ g. record { id = g.table.shared.table_id; first = g.terms.first.first; seats = g.terms.seats } };

    ghost invariant = { λ g. (g.table.shared.table_id.words ≡ 1) × (g.table.shared.table_id.slots ≡ 1) × (g.table.shared.key ≡ g.terms) };
}
