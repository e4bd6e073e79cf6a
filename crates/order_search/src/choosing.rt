//! Which operation may come next.

ghost use Rattle.std.specs.Prelude.{◌≡◌, ◌<◌, ℕ, List, Option, Some, length, IsTrue, slice_get};
ghost use Rattle.history.specs.declared.events.Event.{Event};
ghost use Rattle.history.specs.Tables.{Records};
ghost use Rattle.order_search.specs.Marks.{HasMark, Chooses, IsEarlier, LacksAnswered};

use history::Table;

/// The first operation from this id on that isn't marked and began before any other that isn't marked had ended. All below
/// `low` are marked.
pub(crate) fn choose(table: &Table, taken: &[bool], low: usize, from: usize) -> Option<u64>
    requires size { length taken.now ≡ length table.now.rows.items }
    requires low { (id : ℕ) → id < low → HasMark taken.now id }
    ensures { (history : List Event) → Records history table.now → Chooses result history taken.now from }
{
    let mut first_end = None;
    for id in low..table.rows.len() {
        let row = &table.rows[id];
        if is_before(first_end, row.begin) {
            return None;
        }
        if taken[id] {
            continue;
        }
        if from <= id {
            return Some(id as u64);
        }
        first_end = earlier(first_end, row.end);
    }
    None
}

/// Whether there is such a place, and it is before this one.
fn is_before(end: Option<usize>, begin: usize) -> bool
    ensures yes { IsTrue result → (place : ℕ) × (end ≡ Some place) × (place < begin) }
    ensures no { (place : ℕ) → end ≡ Some place → place < begin → IsTrue result }
{
    end.is_some_and(|place| place < begin)
}

/// The earlier of the two places.
fn earlier(a: Option<usize>, b: Option<usize>) -> Option<usize>
    ensures { IsEarlier a b result }
{
    match (a, b) {
        (Some(x), Some(y)) => Some(x.min(y)),
        (Some(x), None) => Some(x),
        (None, b) => b,
    }
}

/// Whether an operation that was answered isn't marked. All below `low` are marked.
pub(crate) fn lacks_answered(table: &Table, taken: &[bool], low: usize) -> bool
    requires size { length taken.now ≡ length table.now.rows.items }
    ensures { IsTrue result → (history : List Event) → Records history table.now → LacksAnswered history taken.now }
{
    for id in low..table.rows.len() {
        if !taken[id] && table.rows[id].end.is_some() {
            return true;
        }
    }
    false
}
