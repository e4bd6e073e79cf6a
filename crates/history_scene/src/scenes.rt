//! The scene of a history and an order.

ghost use Rattle.std.specs.Prelude.{◌≡◌, ◌↔◌, IsNone, IfOk, IsOkUnless};
ghost use Rattle.std.specs.Option.{option_copied, option_map};
ghost use Rattle.ctrie_base.specs.Hashes.{hash_of};
ghost use Rattle.history.specs.Histories.{IsWellFormed};
ghost use Rattle.history.specs.Orders.{IsLegal};
ghost use Rattle.history_text.specs.FaultTexts.{fault_text};
ghost use Rattle.history_scene.specs.Scenes.{IsScene, text_in};
ghost use Rattle.history_scene.specs.Laws.{HasEachOperation};

use crate::bars::bars_of;
use crate::colours::Colour;
use crate::lanes::lanes_of;
use ctrie_base::{HashKind, Refusal};
use history::{Event, OrderFault, Table, first_fault};
use history_text::FaultText;
use std::alloc::{AllocError, Global};

/// What is drawn of a history and an order. Events are counted from 0.
#[derive(Debug, Drop)]
pub struct Scene {
    /// How many events there are.
    pub events: usize,
    /// The actors whose lanes they are, from the top.
    pub actors: Vec<u8>,
    /// The operations, by their ids.
    pub bars: Vec<Bar>,
    /// The ids of the order: a line goes through their bars.
    pub order: Vec<u64>,
    /// Why the order isn't legal, if it isn't.
    pub reason: Option<String>,
}

/// An operation, from its begin to its end.
#[derive(Debug, Drop)]
pub struct Bar {
    /// Which operation it is.
    pub id: u64,
    /// Whose it is.
    pub actor: u8,
    /// Its actor's lane, counted from the top.
    pub lane: usize,
    /// The event that begins it.
    pub from: usize,
    /// The event that ends it. Without one the bar is open at its right.
    pub to: Option<usize>,
    /// Its call, and the handle that it opens.
    pub call: String,
    /// Its reply, if it has ended.
    pub reply: Option<String>,
    /// How it stands in the order, if it does.
    pub stand: Option<Stand>,
    /// What is to be seen of it at once.
    pub colour: Colour,
}

/// How an operation stands in an order.
#[derive(Clone, Copy, Debug)]
pub struct Stand {
    /// Its first place, counted from 0.
    pub place: usize,
    /// The last event that begins one of the operations up to that place, but one before its own end: after
    /// it the operation may have taken effect.
    pub moment: usize,
    /// Whether it stands before a snapshot, a freeze or a clear that was answered before it ended.
    pub is_late: bool,
}

/// The scene of a history and an order, which may be any ids. `Memory` is the only refusal.
pub fn scene_of(
    alloc: Global,
    events: &[Event],
    order: &[u64],
    hash: HashKind,
) -> Result<Scene, Refusal>
    requires { IsWellFormed events.now }
    ensures scene { IfOk result (λ scene. IsScene (hash_of hash) events.now order.now scene) }
    ensures legal { IfOk result (λ scene. IsNone scene.reason ↔ IsLegal (hash_of hash) events.now order.now) }
    ensures only_memory { IsOkUnless result Refusal.Memory }
{
    let Ok(table) = Table::of(alloc, events)? else {
        unreachable!()
    };
    let fault = first_fault(alloc, events, order, hash)?;
    let (actors, lanes) = lanes_of(alloc, events)?;
    let bars = bars_of(alloc, events, &table, order, &lanes, fault.as_ref())?;
    Ok(Scene {
        events: events.len(),
        actors,
        bars,
        order: Vec::from_slice(alloc, order)?,
        reason: reason_of(alloc, fault.as_ref())?,
    })
}

/// The text of a fault, if there is one.
fn reason_of(alloc: Global, fault: Option<&OrderFault>) -> Result<Option<String>, AllocError>
    ensures { IfOk result (λ text. text_in text ≡ option_map fault_text (option_copied fault.entry)) }
{
    match fault {
        Some(fault) => Ok(Some(format!(in alloc; "{}", FaultText(fault))?)),
        None => Ok(None),
    }
}

/// A law: in a scene each operation that has begun has exactly one bar, whose ends are its events.
pub fn has_each_operation()
    ensures { HasEachOperation }
{}
