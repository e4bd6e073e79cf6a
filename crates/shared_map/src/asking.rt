//! What shards are asked before all of them are changed.

ghost use Rattle.std.specs.Prelude.{◌≡◌, ◌<◌, length};
ghost use Rattle.ctrie_map.specs.Restoring.{is_worn_out_to_restore};
ghost use Rattle.shared_map.specs.Asking.{CallsOne, Knows, Measures, denial_from, is_worn_out_for};
ghost use Rattle.shared_map.specs.Wholes.{KnowsFirst};

use crate::asks::Replied;
use ctrie_base::HashKind;
use ctrie_map::{Handle, Map, MapError};
use history::Call;
use sharded_gate::{Shards, Visit};

/// This many steps a copy takes at most, with the sweep after it.
const COPY_STEPS: u64 = 144;

/// What the first shard tells of a handle, and of what all shards have alike.
#[derive(Drop)]
pub(crate) struct Knowing {
    pub(crate) handle: u16,
    pub(crate) hash: HashKind,
    pub(crate) handles: u32,
    /// Whether its map may be changed by the handle; an error where it isn't open.
    pub(crate) writable: Result<bool, MapError>,
    /// The number that the next copy gets.
    pub(crate) next: Option<u16>,
}

impl Visit<Map> for Knowing {
    ghost does = { Knows };

    fn visit(&mut self, map: &mut Map) {
        self.hash = map.hash();
        self.handles = map.handles();
        self.writable = map.is_writable(Handle::new(self.handle));
        self.next = match map.next_handle() {
            Some(next) => Some(next.number()),
            None => None,
        };
    }
}

impl Knowing {
    /// Why a call on the handle isn't begun which changes its map, or opens a handle.
    pub(crate) fn denial(&self, writes: bool, opens: bool) -> Option<MapError>
        ensures { result ≡ denial_from writes opens self.now.writable self.now.handles }
    {
        match self.writable {
            Err(error) => Some(error),
            Ok(writable) => {
                if writes && !writable {
                    Some(MapError::ReadOnly)
                } else if opens && self.handles >= 256 {
                    Some(MapError::HandlesFull)
                } else {
                    None
                }
            }
        }
    }
}

/// What is known of the first shard.
pub(crate) fn first_of<S: Shards<Map>>(shards: &mut S, handle: u16, hash: HashKind) -> Knowing
    requires { 0 < length (S.items shards.old) }
    ensures known { KnowsFirst result (S.items shards.old) }
    ensures handle { result.handle ≡ handle }
    ensures same { S.items shards.new ≡ S.items shards.old }
    ensures rest { S.rest shards.new ≡ S.rest shards.old }
{
    let mut first = Knowing {
        handle,
        hash,
        handles: 0,
        writable: Err(MapError::NoHandle),
        next: None,
    };
    shards.visit(0, &mut first);
    first
}

/// Whether one of the shards has no life for a change, or may have no slots for this one.
#[derive(Drop)]
pub(crate) struct Measuring {
    pub(crate) call: Call,
    /// Whether the change is a restore, which wants its own steps besides.
    pub(crate) restores: bool,
    pub(crate) is_worn_out: bool,
    pub(crate) is_tight: bool,
}

impl Visit<Map> for Measuring {
    ghost does = { Measures };

    fn visit(&mut self, map: &mut Map) {
        let is_worn_out = is_worn_out_for(self.restores, map);
        let is_tight = map.may_lack_slots(self.call);
        self.is_worn_out = self.is_worn_out || is_worn_out;
        self.is_tight = self.is_tight || is_tight;
    }
}

/// Whether the map has no life for a change.
fn is_worn_out_for(restores: bool, map: &Map) -> bool
    ensures { result ≡ is_worn_out_for restores map.now }
{
    if restores {
        is_worn_out_to_restore(map)
    } else {
        map.is_worn_out()
    }
}

/// Whether no more steps are left than a restore takes, with five for each slot in use that may become free by it, and a call
/// after it.
fn is_worn_out_to_restore(map: &Map) -> bool
    ensures { result ≡ is_worn_out_to_restore map.now }
{
    map.life_left() <= COPY_STEPS + 5 * u64::from(map.used())
}

/// The call as a map alone answers it.
#[derive(Drop)]
pub(crate) struct Calling {
    pub(crate) call: Call,
    pub(crate) told: Replied,
}

impl Visit<Map> for Calling {
    ghost does = { CallsOne };

    fn visit(&mut self, map: &mut Map) {
        self.told = map.call(self.call);
    }
}
