//! A line, and what its call answers.

use crate::asking::ask;
use crate::changing::change;
use crate::copying::copy;
use crate::reading::read;
use crate::telling::tell;
use ctrie_map::{Handle, Map};
use std::alloc::{AllocError, Global};
use std::fmt::Debug;

/// A call with its numbers, and the answer that is wanted.
#[derive(Drop)]
pub struct Line<'a> {
    pub call: &'a str,
    pub name: &'a str,
    numbers: Vec<u64>,
    pub wanted: &'a str,
}

impl<'a> Line<'a> {
    /// What a row says, if it has a call.
    pub fn of(alloc: Global, row: &'a str) -> Result<Option<Line<'a>>, AllocError> {
        if row.starts_with('#') {
            return Ok(None);
        }
        let Some((call, wanted)) = row.split_once(" = ") else {
            return Ok(None);
        };
        let mut words = call.split(' ');
        let Some(name) = words.next() else {
            return Ok(None);
        };
        let mut numbers = Vec::new(alloc);
        for word in words {
            numbers.push(word.parse().unwrap_or(u64::MAX))?;
        }
        Ok(Some(Line {
            call,
            name,
            numbers,
            wanted,
        }))
    }

    /// The number at this place.
    pub fn number(&self, place: usize) -> u64 {
        self.numbers.get(place).map_or(0, |number| *number)
    }

    /// All numbers.
    pub fn numbers(&self) -> &[u64] {
        self.numbers.as_slice()
    }

    /// The handle of the number at this place.
    pub fn handle(&self, place: usize) -> Handle {
        Handle::new(u16::try_from(self.number(place)).unwrap_or(u16::MAX))
    }
}

/// What is told, as `Debug` writes it.
pub fn debug<T: Debug>(alloc: Global, told: &T) -> Result<String, AllocError> {
    format!(in alloc; "{told:?}")
}

/// What the line's call answers.
pub fn answer(alloc: Global, map: &mut Map, line: &Line<'_>) -> Result<String, AllocError> {
    if let Some(told) = change(alloc, map, line)? {
        return Ok(told);
    }
    if let Some(told) = copy(alloc, map, line)? {
        return Ok(told);
    }
    if let Some(told) = ask(alloc, map, line)? {
        return Ok(told);
    }
    if let Some(told) = read(alloc, map, line)? {
        return Ok(told);
    }
    tell(alloc, map, line)
}
