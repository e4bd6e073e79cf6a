//! The colours of bars.

ghost use Rattle.std.specs.Prelude.{◌≡◌, ◌↔◌, IsTrue};
ghost use Rattle.std.specs.Option.{option_copied};
ghost use Rattle.history_scene.specs.Colours.{names, colour_of};

use history::{Call, OrderFault, Reply};

/// What a bar's colour says of its operation.
#[derive(Clone, Copy, Debug, PartialEq, Eq)]
pub enum Colour {
    /// The first fault of the order names it.
    Wrong,
    /// It was refused for lack of slots.
    Refused,
    /// It opens a copy of a map.
    Copy,
    /// None of these.
    Plain,
}

/// The first colour that the operation deserves.
pub fn colour_of(fault: Option<&OrderFault>, id: u64, call: &Call, reply: Option<&Reply>) -> Colour
    ensures { result ≡ colour_of (option_copied fault.entry) id call.now (option_copied reply.entry) }
{
    if fault.is_some_and(|fault| names(fault, id)) {
        return Colour::Wrong;
    }
    match (reply, call) {
        (Some(Reply::NoSlots), _) => Colour::Refused,
        (_, Call::Snapshot { .. } | Call::Freeze { .. }) => Colour::Copy,
        _ => Colour::Plain,
    }
}

/// Whether the fault names the operation.
fn names(fault: &OrderFault, id: u64) -> bool
    ensures { result ≡ names fault.now id }
{
    match fault {
        OrderFault::WrongEvent { .. } => false,
        OrderFault::StandsBehind { id: one, other } => *one == id || *other == id,
        OrderFault::NotBegun { id: one }
        | OrderFault::StandsTwice { id: one }
        | OrderFault::WasRefused { id: one }
        | OrderFault::NoEffect { id: one, .. }
        | OrderFault::OtherReply { id: one, .. }
        | OrderFault::Missing { id: one } => *one == id,
    }
}
