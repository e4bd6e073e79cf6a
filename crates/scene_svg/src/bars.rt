//! The bars of operations.

ghost use Rattle.std.specs.Prelude.{◌≡◌, Some};
ghost use Rattle.scene_svg.specs.Bars.{class_of, outline_text, label_text, title_text, answer_text, reply_line, words_text, number_text, bar_text, bars_text};

use crate::escape::{Escaped, Fitted};
use crate::geometry::{bar_y, span_of, x_of};
use history_scene::{Bar, Colour, Scene};
use std::fmt;

/// All bars.
#[derive(Clone, Copy)]
pub struct Bars<'a>(pub &'a Scene);

impl fmt::Display for Bars<'_> {
    ghost output = { λ t. Some (bars_text t.0.now) };

    fn fmt<W: fmt::Write>(&self, f: &mut fmt::Formatter<W>) -> fmt::Result {
        let events = self.0.events;
        for bar in &self.0.bars {
            write!(f, "{}", OneBar { bar, events })?;
        }
        Ok(())
    }
}

// One bar of a picture of this many events.
#[derive(Clone, Copy)]
struct OneBar<'a> {
    bar: &'a Bar,
    events: usize,
}

impl fmt::Display for OneBar<'_> {
    ghost output = { λ t. Some (bar_text t.events t.bar.now) };

    fn fmt<W: fmt::Write>(&self, f: &mut fmt::Formatter<W>) -> fmt::Result {
        let bar = self.bar;
        let events = self.events;
        write!(
            f,
            "<g class=\"{}\">{}{}{}</g>{}\n",
            class_of(bar.colour),
            Title(bar),
            Outline { bar, events },
            Label { bar, events },
            Number(bar)
        )
    }
}

/// The class of a colour.
fn class_of(colour: Colour) -> &'static str
    ensures { result.now ≡ class_of colour }
{
    match colour {
        Colour::Wrong => "wrong",
        Colour::Refused => "refused",
        Colour::Copy => "copy",
        Colour::Plain => "plain",
    }
}

// All that is known of the operation: a browser shows it on hovering.
#[derive(Clone, Copy)]
struct Title<'a>(&'a Bar);

impl fmt::Display for Title<'_> {
    ghost output = { λ t. Some (title_text t.0.now) };

    fn fmt<W: fmt::Write>(&self, f: &mut fmt::Formatter<W>) -> fmt::Result {
        let bar = self.0;
        write!(
            f,
            "<title>operation {} of actor {}: {}{}</title>",
            bar.id,
            bar.actor,
            Escaped(bar.call.as_bytes()),
            Answer(bar)
        )
    }
}

// What became of the operation.
#[derive(Clone, Copy)]
struct Answer<'a>(&'a Bar);

impl fmt::Display for Answer<'_> {
    ghost output = { λ t. Some (answer_text t.0.now.reply) };

    fn fmt<W: fmt::Write>(&self, f: &mut fmt::Formatter<W>) -> fmt::Result {
        match &self.0.reply {
            Some(reply) => write!(f, " was answered {}", Escaped(reply.as_bytes())),
            None => write!(f, " has not ended"),
        }
    }
}

// The shape: a box, or one that is open at its right.
#[derive(Clone, Copy)]
struct Outline<'a> {
    bar: &'a Bar,
    events: usize,
}

impl fmt::Display for Outline<'_> {
    ghost output = { λ t. Some (outline_text t.events t.bar.now) };

    fn fmt<W: fmt::Write>(&self, f: &mut fmt::Formatter<W>) -> fmt::Result {
        let x = x_of(self.bar.from);
        let y = bar_y(self.bar.lane);
        let width = 96 * span_of(self.bar, self.events);
        match self.bar.to {
            Some(_) => write!(f, "<path d=\"M{x} {y}h{width}v38h-{width}z\"/>"),
            None => write!(f, "<path d=\"M{} {y}h-{width}v38h{width}\"/>", x + width),
        }
    }
}

// The call, and below it the reply, as far as there is room.
#[derive(Clone, Copy)]
struct Label<'a> {
    bar: &'a Bar,
    events: usize,
}

impl fmt::Display for Label<'_> {
    ghost output = { λ t. Some (label_text t.events t.bar.now) };

    fn fmt<W: fmt::Write>(&self, f: &mut fmt::Formatter<W>) -> fmt::Result {
        let bar = self.bar;
        let room = 14 * span_of(bar, self.events);
        let y = bar_y(bar.lane);
        write!(
            f,
            "{}{}",
            Words {
                bar,
                y: y + 15,
                text: bar.call.as_bytes(),
                room
            },
            Reply {
                bar,
                y: y + 30,
                room
            }
        )
    }
}

// The reply of a bar, if it has one.
#[derive(Clone, Copy)]
struct Reply<'a> {
    bar: &'a Bar,
    y: u128,
    room: u128,
}

impl fmt::Display for Reply<'_> {
    ghost output = { λ t. Some (reply_line t.bar.now t.y t.room) };

    fn fmt<W: fmt::Write>(&self, f: &mut fmt::Formatter<W>) -> fmt::Result {
        match &self.bar.reply {
            Some(reply) => {
                let words = Words {
                    bar: self.bar,
                    y: self.y,
                    text: reply.as_bytes(),
                    room: self.room,
                };
                write!(f, "{words}")
            }
            None => Ok(()),
        }
    }
}

// A line of a bar's label.
#[derive(Clone, Copy)]
struct Words<'a> {
    bar: &'a Bar,
    y: u128,
    text: &'a [u8],
    room: u128,
}

impl fmt::Display for Words<'_> {
    ghost output = { λ t. Some (words_text t.bar.now t.y t.text.now t.room) };

    fn fmt<W: fmt::Write>(&self, f: &mut fmt::Formatter<W>) -> fmt::Result {
        let text = Fitted {
            text: self.text,
            room: self.room.saturating_sub(1),
        };
        write!(
            f,
            "<text x=\"{}\" y=\"{}\">{text}</text>",
            x_of(self.bar.from) + 4,
            self.y
        )
    }
}

// The operation's place in the order, at the bar's head.
#[derive(Clone, Copy)]
struct Number<'a>(&'a Bar);

impl fmt::Display for Number<'_> {
    ghost output = { λ t. Some (number_text t.0.now) };

    fn fmt<W: fmt::Write>(&self, f: &mut fmt::Formatter<W>) -> fmt::Result {
        let bar = self.0;
        match &bar.stand {
            Some(stand) => {
                let late = if stand.is_late { LATE } else { "" };
                let y = bar_y(bar.lane) - 6;
                write!(
                    f,
                    "<text class=\"number\" x=\"{}\" y=\"{y}\">{}{late}</text>",
                    x_of(bar.from),
                    stand.place
                )
            }
            None => Ok(()),
        }
    }
}

/// The mark of a late operation.
const LATE: &str = "<tspan class=\"late\" dx=\"6\">late</tspan>";
