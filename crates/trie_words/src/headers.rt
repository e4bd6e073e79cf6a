//! The first word of a main node.

ghost use Rattle.std.specs.Prelude.{◌≡◌, ◌<◌};
ghost use Rattle.trie_words.specs.Codes.{header_code, header_of, IsHeader, IsPrevious, IsShape, previous_code, previous_of, shape_of, low_code, kind_code};

use crate::entries::Entry;
use crate::names::Name;

/// Whether a main node is decided.
#[derive(Clone, Copy, Debug, PartialEq, Eq, Drop)]
pub enum Previous {
    /// It is.
    None,
    /// It was swapped in over this one, and isn't yet.
    Pending(Name),
    /// It was refused: this one is to stand in its place.
    Failed(Name),
}

/// What a main node is.
#[derive(Clone, Copy, Debug, PartialEq, Eq, Drop)]
pub enum Shape {
    /// A branch with a bit for each entry.
    Branch(u32),
    /// A tomb of this single.
    Tomb(Entry),
    /// A list of so many singles of one hash.
    List(u32),
}

/// The first word of a main node.
#[derive(Clone, Copy, Debug, PartialEq, Eq, Drop)]
pub struct Header {
    /// Whether it is decided.
    pub previous: Previous,
    /// What it is.
    pub shape: Shape,
}

/// Whether a main node is decided, by the 30 bits that say so.
#[inline(always)]
fn previous_of_bits(bits: u64) -> Previous
    ensures { result ≡ previous_of bits }
{
    let name = Name::of_word(bits);
    match bits / (1 << 28) % 4 {
        0 => Previous::None,
        1 => Previous::Pending(name),
        _ => Previous::Failed(name),
    }
}

#[inline(always)]
fn bits_of_previous(previous: Previous) -> u64
    requires { IsPrevious previous }
    ensures { result ≡ previous_code previous }
{
    match previous {
        Previous::None => 0,
        Previous::Pending(name) => name.to_word() + (1 << 28),
        Previous::Failed(name) => name.to_word() + (1 << 29),
    }
}

#[inline(always)]
fn shape_of_parts(low: u32, kind: u64) -> Shape
    ensures { result ≡ shape_of low kind }
{
    match kind {
        0 => Shape::Branch(low),
        1 => Shape::Tomb(Entry::of_half(low)),
        _ => Shape::List(low),
    }
}

#[inline(always)]
fn low_of_shape(shape: Shape) -> u64
    requires { IsShape shape }
    ensures { result ≡ low_code shape }
{
    match shape {
        Shape::Branch(bitmap) => u64::from(bitmap),
        Shape::Tomb(entry) => u64::from(entry.to_half()),
        Shape::List(count) => u64::from(count),
    }
}

#[inline(always)]
fn kind_of_shape(shape: Shape) -> u64
    ensures { result ≡ kind_code shape }
{
    match shape {
        Shape::Branch(_) => 0,
        Shape::Tomb(_) => 1,
        Shape::List(_) => 2,
    }
}

impl Header {
    /// The header of this word.
    #[inline(always)]
    pub fn of_word(word: u64) -> Header
        ensures { result ≡ header_of word }
    {
        Header {
            previous: previous_of_bits(word / (1 << 32) % (1 << 30)),
            shape: shape_of_parts((word % (1 << 32)) as u32, word / (1 << 62)),
        }
    }

    /// Its word.
    #[inline(always)]
    pub fn to_word(self) -> u64
        requires { IsHeader self }
        ensures { result ≡ header_code self }
    {
        low_of_shape(self.shape)
            + (1 << 32) * bits_of_previous(self.previous)
            + (1 << 62) * kind_of_shape(self.shape)
    }
}
