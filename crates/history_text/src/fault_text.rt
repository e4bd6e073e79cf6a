//! The texts of faults of an order.

ghost use Rattle.std.specs.Prelude.{Some};
ghost use Rattle.history_text.specs.FaultTexts.{fault_text, obstacle_text};

use crate::call_text::CallText;
use crate::reply_text::ReplyText;
use history::{Obstacle, OrderFault};
use std::fmt;

/// Why an order isn't legal, in plain words, as `operation 7 stands twice`.
#[derive(Clone, Copy)]
pub struct FaultText<'a>(pub &'a OrderFault);

impl fmt::Display for FaultText<'_> {
    ghost output = { λ t. Some (fault_text t.0.now) };

    fn fmt<W: fmt::Write>(&self, f: &mut fmt::Formatter<W>) -> fmt::Result {
        match self.0 {
            OrderFault::WrongEvent { place } => write!(f, "event {place} may not come there"),
            OrderFault::NotBegun { id } => write!(f, "operation {id} has not begun"),
            OrderFault::StandsTwice { id } => write!(f, "operation {id} stands twice"),
            OrderFault::WasRefused { id } => {
                write!(f, "operation {id} was refused for want of slots")
            }
            OrderFault::StandsBehind { id, other } => {
                write!(
                    f,
                    "operation {id} ended before operation {other} began, and stands behind it"
                )
            }
            OrderFault::NoEffect { id, obstacle } => {
                write!(
                    f,
                    "operation {id} has no effect there: {}",
                    ObstacleText(*obstacle)
                )
            }
            OrderFault::OtherReply {
                id,
                call,
                recorded,
                given,
            } => {
                write!(
                    f,
                    "operation {id}, {}, was answered {}; the maps before it give {}",
                    CallText(call),
                    ReplyText(recorded),
                    ReplyText(given)
                )
            }
            OrderFault::Missing { id } => {
                write!(f, "operation {id} was answered and is missing")
            }
        }
    }
}

// Why a call has no effect, as `handle 3 isn't open`.
#[derive(Clone, Copy)]
struct ObstacleText(Obstacle);

impl fmt::Display for ObstacleText {
    ghost output = { λ t. Some (obstacle_text t.0) };

    fn fmt<W: fmt::Write>(&self, f: &mut fmt::Formatter<W>) -> fmt::Result {
        match self.0 {
            Obstacle::NotOpen { handle } => write!(f, "handle {handle} isn't open"),
            Obstacle::NeedsWritable { handle } => write!(f, "handle {handle} is read-only"),
            Obstacle::NeedsReadOnly { handle } => write!(f, "handle {handle} isn't read-only"),
            Obstacle::OpenAlready { handle } => write!(f, "handle {handle} is open already"),
        }
    }
}
