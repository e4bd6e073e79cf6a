//! Time, lanes and the line of the order.

ghost use Rattle.std.specs.Prelude.{Some};
ghost use Rattle.scene_svg.specs.Marks.{mark_text, marks_text, lane_text, lanes_text, point_text, points_text, line_text};

use crate::geometry::{bottom_of, lane_y, point_x, point_y, width_of, x_of};
use history_scene::Scene;
use std::fmt;

/// A light mark for each event, with its number.
#[derive(Clone, Copy)]
pub struct Marks<'a>(pub &'a Scene);

impl fmt::Display for Marks<'_> {
    ghost output = { λ t. Some (marks_text t.0.now) };

    fn fmt<W: fmt::Write>(&self, f: &mut fmt::Formatter<W>) -> fmt::Result {
        let bottom = bottom_of(self.0);
        for event in 0..self.0.events {
            write!(f, "{}", Mark { event, bottom })?;
        }
        Ok(())
    }
}

// The mark of one event, down to the bottom.
#[derive(Clone, Copy)]
struct Mark {
    event: usize,
    bottom: u128,
}

impl fmt::Display for Mark {
    ghost output = { λ t. Some (mark_text t.event t.bottom) };

    fn fmt<W: fmt::Write>(&self, f: &mut fmt::Formatter<W>) -> fmt::Result {
        let x = x_of(self.event);
        write!(
            f,
            "<path class=\"mark\" d=\"M{x} 56V{}\"/><text class=\"time\" x=\"{x}\" y=\"50\">{}</text>\n",
            self.bottom, self.event
        )
    }
}

/// The lanes, with their actors at the left.
#[derive(Clone, Copy)]
pub struct Lanes<'a>(pub &'a Scene);

impl fmt::Display for Lanes<'_> {
    ghost output = { λ t. Some (lanes_text t.0.now) };

    fn fmt<W: fmt::Write>(&self, f: &mut fmt::Formatter<W>) -> fmt::Result {
        let width = width_of(self.0);
        for (lane, actor) in self.0.actors.iter().enumerate() {
            let actor = *actor;
            write!(f, "{}", Lane { lane, actor, width })?;
        }
        Ok(())
    }
}

// One lane, over the width of the picture.
#[derive(Clone, Copy)]
struct Lane {
    lane: usize,
    actor: u8,
    width: u128,
}

impl fmt::Display for Lane {
    ghost output = { λ t. Some (lane_text t.width t.lane t.actor) };

    fn fmt<W: fmt::Write>(&self, f: &mut fmt::Formatter<W>) -> fmt::Result {
        write!(
            f,
            "<path class=\"lane\" d=\"M0 {}H{}\"/><text class=\"actor\" x=\"16\" y=\"{}\">actor {}</text>\n",
            lane_y(self.lane),
            self.width,
            point_y(self.lane) + 4,
            self.actor
        )
    }
}

/// The line through the bars in the order.
#[derive(Clone, Copy)]
pub struct Line<'a>(pub &'a Scene);

impl fmt::Display for Line<'_> {
    ghost output = { λ t. Some (line_text t.0.now) };

    fn fmt<W: fmt::Write>(&self, f: &mut fmt::Formatter<W>) -> fmt::Result {
        write!(
            f,
            "<polyline class=\"order\" points=\"{}\"/>\n",
            Points(self.0)
        )
    }
}

// The points of the line, each after a space.
#[derive(Clone, Copy)]
struct Points<'a>(&'a Scene);

impl fmt::Display for Points<'_> {
    ghost output = { λ t. Some (points_text t.0.now) };

    fn fmt<W: fmt::Write>(&self, f: &mut fmt::Formatter<W>) -> fmt::Result {
        for id in &self.0.order {
            write!(
                f,
                "{}",
                Point {
                    scene: self.0,
                    id: *id
                }
            )?;
        }
        Ok(())
    }
}

// Where the line passes the operation; nothing where it has no bar or doesn't stand in the order.
#[derive(Clone, Copy)]
struct Point<'a> {
    scene: &'a Scene,
    id: u64,
}

impl fmt::Display for Point<'_> {
    ghost output = { λ t. Some (point_text t.scene.now t.id) };

    fn fmt<W: fmt::Write>(&self, f: &mut fmt::Formatter<W>) -> fmt::Result {
        match self.scene.bars.get(self.id as usize) {
            Some(bar) => match &bar.stand {
                Some(stand) => write!(f, " {},{}", point_x(stand), point_y(bar.lane)),
                None => Ok(()),
            },
            None => Ok(()),
        }
    }
}
