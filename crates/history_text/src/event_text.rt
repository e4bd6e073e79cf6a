//! The texts of events and orders.

ghost use Rattle.std.specs.Prelude.{Some, map};
ghost use Rattle.history_text.specs.Texts.{event_text, order_text, opens_words, behind_spaces};
ghost use Rattle.std.specs.Fmt.{decimal};

use crate::call_text::CallText;
use crate::reply_text::ReplyText;
use history::Event;
use std::fmt;

/// An event as its line, as `begin 0 1 put 0 1 10` or `end 0 none`.
#[derive(Clone, Copy)]
pub struct EventText<'a>(pub &'a Event);

impl fmt::Display for EventText<'_> {
    ghost output = { λ t. Some (event_text t.0.now) };

    fn fmt<W: fmt::Write>(&self, f: &mut fmt::Formatter<W>) -> fmt::Result {
        match self.0 {
            Event::Begin {
                id,
                actor,
                call,
                opens,
            } => {
                write!(
                    f,
                    "begin {id} {actor} {}{}",
                    CallText(call),
                    OpensText(*opens)
                )
            }
            Event::End { id, reply } => write!(f, "end {id} {}", ReplyText(reply)),
        }
    }
}

/// The handle that a call opens as the end of its text, as ` as 1`; nothing where it opens none.
#[derive(Clone, Copy)]
pub struct OpensText(pub Option<u16>);

impl fmt::Display for OpensText {
    ghost output = { λ t. Some (behind_spaces (opens_words t.0)) };

    fn fmt<W: fmt::Write>(&self, f: &mut fmt::Formatter<W>) -> fmt::Result {
        match self.0 {
            Some(handle) => write!(f, " as {handle}"),
            None => Ok(()),
        }
    }
}

/// An order as its line: `order`, and each id after a space.
#[derive(Clone, Copy)]
pub struct OrderText<'a>(pub &'a [u64]);

impl fmt::Display for OrderText<'_> {
    ghost output = { λ t. Some (order_text t.0.now) };

    fn fmt<W: fmt::Write>(&self, f: &mut fmt::Formatter<W>) -> fmt::Result {
        write!(f, "order{}", IdsText(self.0))
    }
}

// Each id after a space.
#[derive(Clone, Copy)]
struct IdsText<'a>(&'a [u64]);

impl fmt::Display for IdsText<'_> {
    ghost output = { λ t. Some (behind_spaces (map decimal t.0.now)) };

    fn fmt<W: fmt::Write>(&self, f: &mut fmt::Formatter<W>) -> fmt::Result {
        for id in self.0 {
            write!(f, " {id}")?;
        }
        Ok(())
    }
}
