//! A handle that is to have another one's map, in all shards.

ghost use Rattle.std.specs.Prelude.{◌≡◌, ◌≢◌, ◌<◌, ◌&&◌, not, nat_eq, nat_le, length};
ghost use Rattle.machine_model.specs.States.{handle_limit};
ghost use Rattle.shared_map.specs.declared.asks.Ask.TheVariants.{Restore};
ghost use Rattle.shared_map.specs.Restoring.{IsRestoredAlone, RestoresEach, RestoresOne, restore_denial_from};
ghost use Rattle.shared_map.specs.Wholes.{AnswersIf};

use crate::asking::{Knowing, Measuring, first_of};
use crate::asks::{Answer, Told, told_restored};
use crate::visits::visit_each;
use ctrie_map::{Handle, Map, MapError};
use history::Call;
use sharded_gate::{Shards, Visit};

/// Gives the handle the map of another one in each shard.
#[derive(Drop)]
pub(crate) struct Restoring {
    pub(crate) handle: u16,
    pub(crate) copy: u16,
    /// What the shard told.
    pub(crate) told: Result<(), MapError>,
}

impl Visit<Map> for Restoring {
    ghost does = { RestoresOne };

    fn visit(&mut self, map: &mut Map) {
        self.told = map.restore(Handle::new(self.handle), Handle::new(self.copy));
    }
}

/// The handle gets the map of the copy in all shards, or in none.
pub(crate) fn restore_all<S: Shards<Map>>(
    shards: &mut S,
    first: &Knowing,
    handle: u16,
    copy: u16,
) -> Told
    requires { 0 < length (S.items shards.old) }
    ensures answered { AnswersIf first.now (S.items shards.old) (Restore handle copy) result (S.items shards.new) }
    ensures rest { S.rest shards.new ≡ S.rest shards.old }
{
    if shards.count() == 1 {
        return told_restored(restore_one(shards, handle, copy));
    }
    let source = first_of(shards, copy, first.hash);
    match denial(first, &source, handle != copy) {
        Some(denial) => Err(denial),
        None => restore_due(shards, handle, copy),
    }
}

/// The same in the only shard.
fn restore_one<S: Shards<Map>>(shards: &mut S, handle: u16, copy: u16) -> Result<(), MapError>
    requires { length (S.items shards.old) ≡ 1 }
    ensures restored { IsRestoredAlone handle copy (S.items shards.old) result (S.items shards.new) }
    ensures rest { S.rest shards.new ≡ S.rest shards.old }
{
    let mut restoring = Restoring {
        handle,
        copy,
        told: Ok(()),
    };
    shards.visit(0, &mut restoring);
    restoring.told
}

/// Why the one handle isn't given the map of the other, by what is known of both in the first shard, and whether they are apart.
fn denial(first: &Knowing, copy: &Knowing, apart: bool) -> Option<MapError>
    ensures { result ≡ restore_denial_from first.now.writable copy.now.writable (apart && nat_le handle_limit first.now.handles) }
{
    match first.writable {
        Err(error) => Some(error),
        Ok(writable) => match copy.writable {
            Err(error) => Some(error),
            Ok(_) => {
                if !writable {
                    Some(MapError::ReadOnly)
                } else if apart && first.handles >= 256 {
                    Some(MapError::HandlesFull)
                } else {
                    None
                }
            }
        },
    }
}

/// The same where nothing denies it.
fn restore_due<S: Shards<Map>>(shards: &mut S, handle: u16, copy: u16) -> Told
    ensures restores { RestoresEach handle copy (S.items shards.old) result (S.items shards.new) }
    ensures rest { S.rest shards.new ≡ S.rest shards.old }
{
    if handle == copy {
        return Ok(Answer::Restored);
    }
    restore_each(shards, handle, copy)
}

/// The same of two handles: each shard is asked before, so that none refuses it once another has changed.
fn restore_each<S: Shards<Map>>(shards: &mut S, handle: u16, copy: u16) -> Told
    requires { handle ≢ copy }
    ensures restores { RestoresEach handle copy (S.items shards.old) result (S.items shards.new) }
    ensures rest { S.rest shards.new ≡ S.rest shards.old }
{
    let mut measuring = Measuring {
        call: Call::Snapshot { handle: copy },
        restores: true,
        is_worn_out: false,
        is_tight: false,
    };
    visit_each(shards, &mut measuring);
    if measuring.is_worn_out {
        return Err(MapError::WornOut);
    }
    if measuring.is_tight {
        return Err(MapError::Full);
    }
    let mut restoring = Restoring {
        handle,
        copy,
        told: Ok(()),
    };
    visit_each(shards, &mut restoring);
    Ok(Answer::Restored)
}
