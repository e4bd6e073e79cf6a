//! Texts as they stand in a document.

ghost use Rattle.std.specs.Prelude.{Some};
ghost use Rattle.scene_svg.specs.Escapes.{escape, escaped, fitted};
ghost use Rattle.std.specs.Prelude.{◌≡◌, ◌+◌, ◌≤◌, take, length, IsTrue};
ghost use Rattle.scene_svg.specs.Escapes.{kept};

use std::fmt;

/// A text with its marks escaped. What isn't printable ASCII is written as `?`.
#[derive(Clone, Copy)]
pub struct Escaped<'a>(pub &'a [u8]);

impl fmt::Display for Escaped<'_> {
    ghost output = { λ t. Some (escaped t.0.now) };

    fn fmt<W: fmt::Write>(&self, f: &mut fmt::Formatter<W>) -> fmt::Result {
        for byte in self.0 {
            write!(f, "{}", Escape(*byte))?;
        }
        Ok(())
    }
}

/// One byte of a text.
#[derive(Clone, Copy)]
struct Escape(u8);

impl fmt::Display for Escape {
    ghost output = { λ t. Some (escape t.0) };

    fn fmt<W: fmt::Write>(&self, f: &mut fmt::Formatter<W>) -> fmt::Result {
        let byte = self.0;
        match byte {
            b'&' => write!(f, "&amp;"),
            b'<' => write!(f, "&lt;"),
            b'>' => write!(f, "&gt;"),
            b'"' => write!(f, "&quot;"),
            32..=126 => write!(f, "{}", byte as char),
            _ => write!(f, "?"),
        }
    }
}

/// As much of a text as there is room for: this many characters, the last two of them dots if it is longer.
#[derive(Clone, Copy)]
pub struct Fitted<'a> {
    pub text: &'a [u8],
    pub room: u128,
}

impl fmt::Display for Fitted<'_> {
    ghost output = { λ t. Some (fitted t.room t.text.now) };

    fn fmt<W: fmt::Write>(&self, f: &mut fmt::Formatter<W>) -> fmt::Result {
        if self.text.len() as u128 <= self.room {
            write!(f, "{}", Escaped(self.text))
        } else {
            write!(f, "{}..", Escaped(kept(self.text, self.room)))
        }
    }
}

/// The beginning of a text that is too long, with room for two dots after it.
fn kept(text: &[u8], room: u128) -> &[u8]
    ensures { result.now ≡ kept room text.now }
{
    let length = text.len() as u128;
    let count = room.saturating_sub(2).min(length);
    &text[..count as usize]
}
