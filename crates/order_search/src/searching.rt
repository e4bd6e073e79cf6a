//! The search.

ghost use Rattle.std.specs.Prelude.{◌≡◌, Ok, IfOk, IsOkUnless};
ghost use Rattle.ctrie_base.specs.Hashes.{hash_of};
ghost use Rattle.history.specs.Orders.{IsLegal};
ghost use Rattle.history.specs.Tables.{Records};
ghost use Rattle.order_search.specs.Searching.{HasNoOrder};

use crate::failures::Failures;
use crate::walking::Way;
use ctrie_base::{HashKind, Refusal};
use history::{Event, Table};
use std::alloc::Global;

/// What came of a search.
#[derive(Clone, Copy, Debug, PartialEq, Eq)]
pub enum Search {
    /// An order is legal.
    Found,
    /// None is.
    NotThere,
    /// The steps didn't suffice to know.
    Spent,
}

/// Looks for an order that is legal for the history, which the vector has then, by so many steps at most. A step looks at one
/// operation that may come next. Any events may be given. `Memory` is the only refusal.
pub fn find_order(
    alloc: Global,
    events: &[Event],
    hash: HashKind,
    steps: u64,
    order: &mut Vec<u64>,
) -> Result<Search, Refusal>
    ensures found { result ≡ Ok Search.Found → IsLegal (hash_of hash) events.now order.new.items }
    ensures not_there { result ≡ Ok Search.NotThere → HasNoOrder (hash_of hash) events.now }
    ensures only_memory { IsOkUnless result Refusal.Memory }
{
    match Table::of(alloc, events)? {
        Ok(table) => order_by_table(alloc, events, &table, hash, steps, order),
        // Where an event may not come there, no order is legal.
        Err(_) => Ok(Search::NotThere),
    }
}

/// The same of a history that has this table.
fn order_by_table(
    alloc: Global,
    events: &[Event],
    table: &Table,
    hash: HashKind,
    steps: u64,
    order: &mut Vec<u64>,
) -> Result<Search, Refusal>
    requires { Records events.now table.now }
    ensures found { result ≡ Ok Search.Found → IsLegal (hash_of hash) events.now order.new.items }
    ensures not_there { result ≡ Ok Search.NotThere → HasNoOrder (hash_of hash) events.now }
    ensures only_memory { IsOkUnless result Refusal.Memory }
{
    let mut way = Way::new(alloc, events, table)?;
    let mut failures = Failures::new(alloc, table)?;
    let mut legal = way.is_legal(alloc, events, table, hash)?;
    for _ in 0..steps {
        if legal {
            break;
        }
        let Some(id) = way.next_operation(alloc, events, table, hash, &mut failures)? else {
            return Ok(Search::NotThere);
        };
        if way.place(alloc, events, table, id, hash)? {
            legal = way.is_legal(alloc, events, table, hash)?;
        }
    }
    if !legal {
        return Ok(Search::Spent);
    }
    order.clear();
    order.append(&mut way.ids)?;
    Ok(Search::Found)
}
