//! The document.

ghost use Rattle.std.specs.Prelude.{◌≡◌, Some};
ghost use Rattle.scene_svg.specs.Documents.{verdict_of, opening_text, heading_text, ground_text, head_text, reason_text, legend_text, foot_text, svg_text};

use crate::bars::Bars;
use crate::escape::Escaped;
use crate::geometry::{bottom_of, height_of, width_of};
use crate::marks::{Lanes, Line, Marks};
use crate::style::{LEGEND, STYLE};
use history_scene::Scene;
use std::fmt;

/// A scene as an SVG 1.1 document. Texts of the scene are escaped.
#[derive(Clone, Copy)]
pub struct SceneSvg<'a>(pub &'a Scene);

impl fmt::Display for SceneSvg<'_> {
    ghost output = { λ t. Some (svg_text t.0.now) };

    fn fmt<W: fmt::Write>(&self, f: &mut fmt::Formatter<W>) -> fmt::Result {
        let scene = self.0;
        write!(
            f,
            "{}{}{}{}{}{}",
            Head(scene),
            Marks(scene),
            Lanes(scene),
            Line(scene),
            Bars(scene),
            Foot(scene)
        )
    }
}

// The element, its title, the style, the ground and the heading.
#[derive(Clone, Copy)]
struct Head<'a>(&'a Scene);

impl fmt::Display for Head<'_> {
    ghost output = { λ t. Some (head_text t.0.now) };

    fn fmt<W: fmt::Write>(&self, f: &mut fmt::Formatter<W>) -> fmt::Result {
        write!(
            f,
            "{}<title>{}</title>\n{STYLE}{}",
            Opening(self.0),
            Heading(self.0),
            Ground(self.0)
        )
    }
}

// The ground over the whole picture, and the heading.
#[derive(Clone, Copy)]
struct Ground<'a>(&'a Scene);

impl fmt::Display for Ground<'_> {
    ghost output = { λ t. Some (ground_text t.0.now) };

    fn fmt<W: fmt::Write>(&self, f: &mut fmt::Formatter<W>) -> fmt::Result {
        write!(
            f,
            "<path class=\"ground\" d=\"M0 0H{}V{}H0z\"/>\n<text class=\"head\" x=\"16\" y=\"26\">{}</text>\n",
            width_of(self.0),
            height_of(self.0),
            Heading(self.0)
        )
    }
}

// The declaration and the beginning of the element, with its size.
#[derive(Clone, Copy)]
struct Opening<'a>(&'a Scene);

impl fmt::Display for Opening<'_> {
    ghost output = { λ t. Some (opening_text t.0.now) };

    fn fmt<W: fmt::Write>(&self, f: &mut fmt::Formatter<W>) -> fmt::Result {
        let width = width_of(self.0);
        let height = height_of(self.0);
        write!(
            f,
            "<?xml version=\"1.0\" encoding=\"UTF-8\"?>\n<svg xmlns=\"http://www.w3.org/2000/svg\" version=\"1.1\" width=\"{width}\" height=\"{height}\" viewBox=\"0 0 {width} {height}\">\n"
        )
    }
}

// What is shown.
#[derive(Clone, Copy)]
struct Heading<'a>(&'a Scene);

impl fmt::Display for Heading<'_> {
    ghost output = { λ t. Some (heading_text t.0.now) };

    fn fmt<W: fmt::Write>(&self, f: &mut fmt::Formatter<W>) -> fmt::Result {
        write!(
            f,
            "A history and its order, which {}: operations {}, actors {}, events {}",
            verdict_of(self.0.reason.is_none()),
            self.0.bars.len(),
            self.0.actors.len(),
            self.0.events
        )
    }
}

/// Whether the order is legal.
fn verdict_of(is_legal: bool) -> &'static str
    ensures { result.now ≡ verdict_of is_legal }
{
    if is_legal { "is legal" } else { "isn't legal" }
}

// The reason and the legend, below the lanes.
#[derive(Clone, Copy)]
struct Foot<'a>(&'a Scene);

impl fmt::Display for Foot<'_> {
    ghost output = { λ t. Some (foot_text t.0.now) };

    fn fmt<W: fmt::Write>(&self, f: &mut fmt::Formatter<W>) -> fmt::Result {
        write!(f, "{}{}", Reason(self.0), Legend(self.0))
    }
}

// What colours and marks mean, and the end of the element.
#[derive(Clone, Copy)]
struct Legend<'a>(&'a Scene);

impl fmt::Display for Legend<'_> {
    ghost output = { λ t. Some (legend_text t.0.now) };

    fn fmt<W: fmt::Write>(&self, f: &mut fmt::Formatter<W>) -> fmt::Result {
        let y = bottom_of(self.0) + 58;
        write!(
            f,
            "<g transform=\"translate(16 {y})\">\n{LEGEND}</g>\n</svg>\n"
        )
    }
}

// Why the order isn't legal.
#[derive(Clone, Copy)]
struct Reason<'a>(&'a Scene);

impl fmt::Display for Reason<'_> {
    ghost output = { λ t. Some (reason_text t.0.now) };

    fn fmt<W: fmt::Write>(&self, f: &mut fmt::Formatter<W>) -> fmt::Result {
        match &self.0.reason {
            Some(reason) => {
                let y = bottom_of(self.0) + 30;
                write!(
                    f,
                    "<text class=\"reason\" x=\"16\" y=\"{y}\">Not legal: {}</text>\n",
                    Escaped(reason.as_bytes())
                )
            }
            None => Ok(()),
        }
    }
}
