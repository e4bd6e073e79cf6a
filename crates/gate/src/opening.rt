//! A gate and its seats.
ghost use Rattle.std.specs.Prelude.{◌≡◌, ◌≤◌, IfOk, IfErr, [], vec_capacity};
ghost use Rattle.gate.specs.Logs.{fresh};
ghost use Rattle.gate.specs.Rules.{first_view};
ghost use Rattle.gate.specs.Seats.{AreSeatsOf};
ghost use Rattle.gate.specs.Opening.{IsMade, fresh_seats};

use crate::boards::Board;
use crate::gates::Gate;
use crate::marks::Mark;
use crate::objects::Object;
use crate::rules::{Cut, Knows, Rule, Terms};
use crate::seats::{Pass, Seat};
use atomic_table::Table;
use std::alloc::Global;

impl<O: Object<C, A> + Drop, C: Drop, A: Drop> Gate<O, C, A> {
    /// A gate before this object, and this many seats, with the numbers 1 and on. Where memory is wanting the object
    /// comes back.
    pub fn new(
        alloc: Global,
        object: O,
        seats: u8,
    ) -> Result<(Gate<O, C, A>, Vec<Seat<O, C, A>>), O>
        ensures made { IfOk result (λ made. IsMade object seats made.0 made.1.items) }
        ensures seats { IfOk result (λ made. AreSeatsOf made.0 made.1.items) }
        ensures back { IfErr result (λ back. back ≡ object) }
    {
        let board = Board::new(object);
        let terms = Terms {
            first: Mark::of(&board),
            seats,
        };
        let Ok(mut made) = Vec::with_capacity(alloc, seats as usize) else {
            return Err(board.into_object());
        };
        match table_of(alloc, board, &terms) {
            Ok((table, crew)) => {
                seat_all(&table, crew, &terms, &mut made);
                Ok((Gate { table, terms }, made))
            }
            Err(board) => Err(board.into_object()),
        }
    }
}

/// The table with this board in its slot, and a seat with all numbers. Where memory is wanting the board comes back.
fn table_of<O: Object<C, A> + Drop, C: Drop, A: Drop>(
    alloc: Global,
    board: Board<O, C, A>,
    terms: &Terms<O, C, A>,
) -> Result<
    (
        Table<Board<O, C, A>, Knows<O, C, A>, Terms<O, C, A>, Rule, Global>,
        Pass<O, C, A>,
    ),
    Board<O, C, A>,
>
    requires first { board ≡ terms.now.first }
    requires fresh { terms.now.first ≡ fresh terms.now.first.first }
    ensures sizes { IfOk result (λ made. (made.0.shared.table_id.words ≡ 1) × (made.0.shared.table_id.slots ≡ 1)) }
    ensures terms { IfOk result (λ made. made.0.shared.key ≡ terms.now) }
    ensures crew { IfOk result (λ made. (made.1.table_id ≡ made.0.shared.table_id) × (made.1.me ≡ (first_view terms.now.first terms.now.seats, []))) }
    ensures back { IfErr result (λ back. back ≡ board) }
{
    let Ok(mut slots) = Vec::with_capacity(alloc, 1) else {
        return Err(board);
    };
    let _ = slots.push(board);
    match Table::new(alloc, &[0], slots, terms) {
        Ok(made) => Ok(made),
        Err(refused) => {
            let mut slots = refused.slots;
            let Some(board) = slots.pop() else {
                unreachable!()
            };
            Err(board)
        }
    }
}

/// Each number of the crew gets a seat of its own.
fn seat_all<O: Object<C, A> + Drop, C: Drop, A: Drop>(
    table: &Table<Board<O, C, A>, Knows<O, C, A>, Terms<O, C, A>, Rule, Global>,
    mut crew: Pass<O, C, A>,
    terms: &Terms<O, C, A>,
    made: &mut Vec<Seat<O, C, A>>,
)
    requires table { (table.now.shared.table_id.words ≡ 1) × (table.now.shared.key ≡ terms.now) }
    requires crew { (crew.table_id ≡ table.now.shared.table_id) × (crew.me ≡ (first_view terms.now.first terms.now.seats, [])) }
    requires fresh { terms.now.first ≡ fresh terms.now.first.first }
    requires room { (made.old.items ≡ []) × (terms.now.seats ≤ vec_capacity made.old) }
    ensures { made.new.items ≡ fresh_seats table.now.shared.table_id terms.now.first.first 1 terms.now.seats }
{
    for n in 0..terms.seats {
        let pass = table.shared.split_seat::<Cut>(&mut crew);
        let _ = made.push(Seat {
            pass,
            number: n + 1,
            seen: terms.first.again(),
            last: 0,
        });
    }
}
