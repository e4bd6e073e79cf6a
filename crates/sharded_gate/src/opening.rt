//! A gate and its seats.
ghost use Rattle.std.specs.Prelude.{◌≡◌, ◌≤◌, ◌<◌, All, IfOk, IfErr, [], length, map, vec_capacity};
ghost use Rattle.gate.specs.Logs.{fresh};
ghost use Rattle.gate.specs.Opening.{fresh_seats};
ghost use Rattle.gate.specs.Rules.{first_view};
ghost use Rattle.gate.specs.Finishing.{AreOf};
ghost use Rattle.sharded_gate.specs.Opening.{AreMade, seats_of};
ghost use Rattle.sharded_gate.specs.Shards.{fresh_shard};

use crate::boards::Shard;
use crate::gates::{ShardCount, ShardedGate, ShardedSeat};
use crate::rules::{Knows, Pass, SPACING, ShardRule, ShardTerms};
use crate::sharded::Sharded;
use atomic_table::Table;
use gate::{Cut, Mark, Tells};
use std::alloc::Global;
use std::collections::LinkedList;

impl<O: Sharded<C, A> + Drop, C: Drop, A: Drop> ShardedGate<O, C, A> {
    /// A gate before the object in these shards, of which there is one at least, and this many seats, with the numbers 1 and
    /// on. Where memory is wanting the shards come back.
    pub fn new(
        alloc: Global,
        shards: Vec<O>,
        seats: u8,
    ) -> Result<(ShardedGate<O, C, A>, Vec<ShardedSeat<O, C, A>>), Vec<O>>
        requires { 0 < length shards.items }
        ensures made { IfOk result (λ made. AreMade shards.items seats made.0 made.1.items) }
        ensures seats { IfOk result (λ made. AreOf (λ s. s.seat) made.0 made.1.items) }
        ensures back { IfErr result (λ back. back.items ≡ shards.items) }
    {
        let count = shards.len();
        let terms = ShardTerms {
            first: whole_of(&shards),
            seats,
        };
        let Ok(mut made) = Vec::with_capacity(alloc, seats as usize) else {
            return Err(shards);
        };
        let Ok(spare) = Vec::with_capacity(alloc, count) else {
            return Err(shards);
        };
        let Ok(boards) = Vec::with_capacity(alloc, count) else {
            return Err(shards);
        };
        let Some(spaced) = count.checked_mul(SPACING) else {
            return Err(shards);
        };
        let Ok(words) = vec![in alloc; 0u64; spaced] else {
            return Err(shards);
        };
        match Table::new(alloc, words.as_slice(), on_boards(shards, boards), &terms) {
            Ok((table, crew)) => {
                seat_all(&table, crew, &terms, &mut made);
                let gate = ShardedGate {
                    table,
                    terms,
                    shards: count,
                    spare,
                };
                Ok((gate, made))
            }
            Err(refused) => Err(off_boards(refused.slots, spare)),
        }
    }
}

/// The shards as they are now.
fn whole_of<O>(shards: &Vec<O>) -> Mark<LinkedList<O>>
    ensures { result ≡ shards.now.items }
{
    Mark::<LinkedList<O>>::told::<Vec<O>, Items>(shards)
}

/// The shards as clauses see them.
struct Items;

impl<O> Tells<LinkedList<O>, Vec<O>> for Items {
    ghost told = { λ shards. shards.items };
}

/// Each shard without a call.
fn on_boards<O: Drop, C, A>(shards: Vec<O>, mut boards: Vec<Shard<O, C, A>>) -> Vec<Shard<O, C, A>>
    requires none { boards.items ≡ [] }
    requires room { length shards.items ≤ vec_capacity boards }
    ensures { result.items ≡ map fresh_shard shards.items }
{
    for object in shards {
        let _ = boards.push(Shard::new(object));
    }
    boards
}

/// The objects of these shards.
fn off_boards<O: Drop, C: Drop, A: Drop>(boards: Vec<Shard<O, C, A>>, mut objects: Vec<O>) -> Vec<O>
    requires none { objects.items ≡ [] }
    requires room { length boards.items ≤ vec_capacity objects }
    ensures { result.items ≡ map (λ s. s.object) boards.items }
{
    for board in boards {
        let _ = objects.push(board.into_object());
    }
    objects
}

/// Each number of the crew gets a seat of its own.
fn seat_all<O: Sharded<C, A> + Drop, C: Drop, A: Drop>(
    table: &Table<Shard<O, C, A>, Knows<O, C, A>, ShardTerms<O>, ShardRule, Global>,
    mut crew: Pass<O, C, A>,
    terms: &ShardTerms<O>,
    made: &mut Vec<ShardedSeat<O, C, A>>,
)
    requires table { (0 < table.now.shared.table_id.words) × (table.now.shared.key ≡ terms.now) }
    requires crew { (crew.table_id ≡ table.now.shared.table_id) × (crew.me ≡ (first_view (fresh terms.now.first) terms.now.seats, [])) }
    requires room { (made.old.items ≡ []) × (terms.now.seats ≤ vec_capacity made.old) }
    ensures seats { seats_of made.new.items ≡ fresh_seats table.now.shared.table_id terms.now.first 1 terms.now.seats }
    ensures first { All (λ s. s.shard ≡ 0) made.new.items }
{
    for n in 0..terms.seats {
        let pass = table.shared.split_seat::<Cut>(&mut crew);
        let _ = made.push(ShardedSeat {
            badge: pass.into_badge(),
            number: n + 1,
            last: ShardCount { shard: 0, calls: 0 },
        });
    }
}
