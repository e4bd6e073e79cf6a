//! A table of a history's operations by their ids.

ghost use Rattle.std.specs.Prelude.{◌≡◌, ◌↔◌, ◌<◌, List, [], length, None, IsTrue, IsSomeAnd, IfOk, IsOkUnless, MatchResult, slice_get};
ghost use Rattle.std.specs.Option.{option_copied};
ghost use Rattle.history.specs.declared.replies.Reply.{Reply};
ghost use Rattle.history.specs.declared.events.Event.{Event};
ghost use Rattle.history.specs.Histories.{OpensRightly};
ghost use Rattle.history.specs.Faults.{IsFirstWrong};
ghost use Rattle.history.specs.Tables.{Records, Notes, recorded};

use crate::calls::Call;
use crate::events::Event;
use crate::replies::Reply;
use ctrie_base::Refusal;
use std::alloc::Global;

/// An operation that has begun. Places are indexes of the history.
#[derive(Clone, Copy)]
pub struct Row {
    /// The actor that has begun it.
    pub actor: u8,
    /// Its call.
    pub call: Call,
    /// The handle that it opens, if it is a snapshot or a freeze.
    pub opens: Option<u16>,
    /// Where it begins.
    pub begin: usize,
    /// Where it ends, if it has ended.
    pub end: Option<usize>,
}

impl Row {
    /// Whether it ends before this place.
    pub(crate) fn ends_before(&self, place: usize) -> bool
        ensures { IsTrue result ↔ IsSomeAnd self.now.end (λ end. end < place) }
    {
        self.end.is_some_and(|end| end < place)
    }
}

/// The operations of a history by their ids, and which of them each actor runs.
#[derive(Drop)]
pub struct Table {
    /// The operations that have begun, by their ids.
    pub rows: Vec<Row>,
    /// By each actor's number the id of the operation that it runs, if it runs one.
    pub running: [Option<u64>; 256],
}

impl Table {
    /// The table of a history; or the place of the first event that may not come there.
    pub fn of(alloc: Global, events: &[Event]) -> Result<Result<Table, usize>, Refusal>
        ensures found { IfOk result
            (λ found. MatchResult found (λ table. Records events.now table) (λ place. IsFirstWrong events.now place)) }
        ensures only_memory { IsOkUnless result Refusal.Memory }
    {
        let mut table = Table::new(alloc);
        for (place, event) in events.iter().enumerate() {
            if !table.note(place, event)? {
                return Ok(Err(place));
            }
        }
        Ok(Ok(table))
    }

    /// What the table says of the operation, if it has begun.
    pub fn row(&self, id: u64) -> Option<Row>
        ensures { result ≡ slice_get self.now.rows.items id }
    {
        self.rows.get(id as usize).copied()
    }

    /// The table of the empty history.
    fn new(alloc: Global) -> Table
        ensures { Records [] result }
    {
        let running = [None; 256];
        Table {
            rows: Vec::new(alloc),
            running,
        }
    }

    /// Notes the event at the next place; false where it may not come there.
    fn note(&mut self, place: usize, event: &Event) -> Result<bool, Refusal>
        ensures noted { IfOk result
            (λ fits. (history : List Event) → Records history self.old → length history ≡ place → Notes fits history event.now self.new) }
        ensures only_memory { IsOkUnless result Refusal.Memory }
    {
        match event {
            Event::Begin {
                id,
                actor,
                call,
                opens,
            } => self.note_begin(
                *id,
                Row {
                    actor: *actor,
                    call: *call,
                    opens: *opens,
                    begin: place,
                    end: None,
                },
            ),
            Event::End { id, .. } => Ok(self.note_end(*id, place)),
        }
    }

    /// Notes that the operation of this row begins; false where it may not begin.
    fn note_begin(&mut self, id: u64, row: Row) -> Result<bool, Refusal>
        requires { row.end ≡ None }
        ensures noted { IfOk result
            (λ fits. (history : List Event) → Records history self.old → length history ≡ row.begin
            → Notes fits history (Event.Begin id row.actor row.call row.opens) self.new) }
        ensures only_memory { IsOkUnless result Refusal.Memory }
    {
        let actor = row.actor as usize;
        if id != self.rows.len() as u64
            || !opens_rightly(&row.call, row.opens)
            || self.running[actor].is_some()
        {
            return Ok(false);
        }
        self.rows.push(row)?;
        self.running[actor] = Some(id);
        Ok(true)
    }

    /// Notes that the operation ends at this place; false where it doesn't run.
    fn note_end(&mut self, id: u64, place: usize) -> bool
        ensures { (history : List Event) (answer : Reply) → Records history self.old → length history ≡ place
            → Notes result history (Event.End id answer) self.new }
    {
        let Some(row) = self.rows.get_mut(id as usize) else {
            return false;
        };
        if row.end.is_some() {
            return false;
        }
        row.end = Some(place);
        let actor = row.actor as usize;
        self.running[actor] = None;
        true
    }
}

/// Whether the handle that the begin opens is there, or missing, as the call wants it.
fn opens_rightly(call: &Call, opens: Option<u16>) -> bool
    ensures { IsTrue result ↔ OpensRightly call.now opens }
{
    match call {
        Call::Snapshot { .. } | Call::Freeze { .. } => opens.is_some(),
        _ => opens.is_none(),
    }
}

/// The reply that the history has at this place, if there is a place.
pub fn reply_at(events: &[Event], end: Option<usize>) -> Option<&Reply>
    ensures { option_copied result ≡ recorded events.now end }
{
    match events.get(end?)? {
        Event::End { reply, .. } => Some(reply),
        Event::Begin { .. } => None,
    }
}
