//! Which handles are open.

ghost use Rattle.std.specs.Prelude.{◌≡◌, ◌<◌, IsTrue, length};
ghost use Rattle.std.specs.FinMap as map;
ghost use Rattle.std.specs.Iterator.{YieldsFirst, item_count};
ghost use Rattle.machine_model.specs.States.{handle_limit};
ghost use Rattle.ctrie_map.specs.Maps.{handles_of};
ghost use Rattle.ctrie_map.specs.Reading.{writability};

use crate::errors::MapError;
use crate::handle::Handle;
use crate::map::Map;
use crate::names::Name;
use history::Access;
use std::marker::Model;

/// The open handles of a map that are still to come, in ascending order of their numbers.
#[derive(Drop)]
pub struct OpenHandles<'a> {
    names: &'a [Option<Name>],
    /// The number of the first of these.
    number: u16,
}

impl<'a> Model for OpenHandles<'a> {
    ghost use Rattle.std.specs.Prelude.{◌+◌, ◌≤◌, List, ℕ, length};
    ghost use Rattle.ctrie_map.specs.Names.{numbers_from};

    ghost Value = { List ℕ };

    ghost view = { λ h. numbers_from h.number h.names.now };

    ghost invariant = { λ h. h.number + length h.names.now ≤ 256 };
}

impl<'a> Iterator for OpenHandles<'a> {
    type Item = Handle;

    ghost next_gives = { YieldsFirst (λ s. s) };

    ghost remaining = { item_count (λ s. s) };

    fn next(&mut self) -> Option<Handle> {
        while let Some((name, others)) = self.names.split_first() {
            let number = self.number;
            self.names = others;
            self.number += 1;
            if name.is_some() {
                return Some(Handle::new(number));
            }
        }
        None
    }
}

impl Map {
    /// Whether the handle is open: none is whose number is above 255.
    pub fn is_open(&self, handle: Handle) -> bool
        ensures exact { result ≡ map.contains_key (handles_of self.now) handle }
        ensures within { IsTrue result → handle < handle_limit }
    {
        self.names.find(handle.number()).is_some()
    }

    /// Whether the handle's map may be changed by it. Refused as `NoHandle` alone.
    pub fn is_writable(&self, handle: Handle) -> Result<bool, MapError>
        ensures { result ≡ writability self.now handle }
    {
        match self.names.find(handle.number()) {
            None => Err(MapError::NoHandle),
            Some(name) => Ok(matches!(name.access, Access::Writable)),
        }
    }

    /// The open handles, in ascending order of their numbers. It takes no memory.
    pub fn open_handles(&self) -> OpenHandles<'_>
        ensures { result ≡ map.keys (handles_of self.now) }
    {
        OpenHandles {
            names: self.names.as_slice(),
            number: 0,
        }
    }
}
