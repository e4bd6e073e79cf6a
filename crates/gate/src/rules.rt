//! The gate's rule: what the shared table may be between two steps on its words.
//!
//! Each slot has a word, which is 0, or the number of the seat that has the slot and works on it in place.
ghost use Rattle.std.specs.Prelude.{[]};
ghost use Rattle.gate.specs.Views.{has_entered, has_left, has_sat, rest_of, first_of, gathered, crew_view};
ghost use Rattle.gate.specs.Rules.{IsKept, first_view, only_slot, same_word};

use crate::boards::Board;
use crate::marks::Mark;
use crate::objects::Object;
use atomic_table::{Join, Play, Split, TableRule};
use std::collections::LinkedList;

/// What the table is told when it is made.
#[derive(Drop)]
pub struct Terms<O, C, A> {
    /// The board before all calls.
    pub first: Mark<Board<O, C, A>>,
    /// How many seats there are, with the numbers 1 to this.
    pub seats: u8,
}

/// What a seat knows under one number. No value of it is made.
pub struct Part<W, C, A> {
    pub number: u64,
    /// The board as it was when the seat left it last.
    pub seen: Board<W, C, A>,
}

/// What a seat knows. No value of it is made.
pub struct View<S, W, C, A> {
    /// The slots that the seat has, as it found them.
    pub has: LinkedList<(u64, S)>,
    pub parts: LinkedList<Part<W, C, A>>,
}

/// What a seat knows at a gate of one slot.
pub(crate) type Knows<O, C, A> = View<Board<O, C, A>, O, C, A>;

pub struct Rule;

impl<O: Object<C, A>, C, A> TableRule<Board<O, C, A>, Knows<O, C, A>, Terms<O, C, A>> for Rule {
    ghost holds = { λ terms s. IsKept O.answers only_slot same_word 1 terms.seats terms.first.first s };

    ghost first = { λ terms. first_view terms.first terms.seats };
}

/// The word becomes the seat's number where it was 0, and the seat takes the slot.
pub struct Enter;

impl<S, W, C, A> Play<S, View<S, W, C, A>> for Enter {
    ghost then = { has_entered same_word };
}

/// The word becomes 0, and the slot is given back, by which the seat's call is made.
pub struct Leave;

impl<O: Object<C, A>, C, A> Play<Board<O, C, A>, Knows<O, C, A>> for Leave {
    ghost then = { has_left O.answers only_slot };
}

/// A seat without a number comes to the table.
pub struct Sit;

impl<S, W, C, A> Play<S, View<S, W, C, A>> for Sit {
    ghost then = { has_sat };
}

/// The first number of a crew gets a seat of its own.
pub struct Cut;

impl<S, W, C, A> Split<View<S, W, C, A>> for Cut {
    ghost left = { rest_of };

    ghost right = { first_of };
}

/// A seat takes in another one's numbers.
pub struct Gather;

impl<S, W, C, A> Join<View<S, W, C, A>> for Gather {
    ghost both = { gathered };

    ghost spent = { crew_view [] };
}
