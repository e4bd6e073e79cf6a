//! KEY: single steps of the way down to a key.

ghost use Rattle.std.specs.Prelude.{◌≡◌, ◌<◌, IfSome};
ghost use Rattle.lock_free.specs.Leaving.{OrSpent};
ghost use Rattle.lock_free.specs.GoingDown.{HasMet, HasMetLink, HasTurned, IsAtBelow, IsAtLink, IsAtMain, IsAtSingle, IsOnKey, IsWithin};
ghost use Rattle.lock_free.specs.LinkReads.{HasReadOn};
ghost use Rattle.lock_free.specs.Loading.{IsSound};
ghost use Rattle.lock_free.specs.Passing.{IsOnWay};

use crate::first_passes::read_link_within;
use crate::loads::{Actor, Words, look_at_key, look_at_link, look_at_main, look_at_value, see_key};
use crate::reading::Way;
use nodes::{has_flag, position_of};
use trie_words::{Link, Shape};

/// Where the way to a key goes on from a main node.
#[derive(Clone, Copy, Drop)]
pub enum Turn {
    /// To the entry at this position of the branch.
    Entry(usize),
    /// Nowhere: the branch has no entry for it.
    Absent,
    /// Along the singles of a list.
    List,
    /// To what a tomb asks for, whose single is in this slot.
    Tomb(u32),
}

/// Looks at the main node in this slot, for where the way goes on from it by the key's flag.
#[inline(always)]
pub fn turn_at(words: &Words, actor: &mut Actor, main: u32, flag: u32) -> Turn
    requires table { actor.old.table_id ≡ words.now.table_id }
    requires sound { IsSound words.now.table_id.words actor.old.me.0 }
    requires some { 0 < flag }
    requires at { IsAtMain actor.old.me.0 main flag }
    ensures table { actor.new.table_id ≡ actor.old.table_id }
    ensures sound { IsSound words.now.table_id.words actor.new.me.0 }
    ensures turned { HasTurned actor.old.me.0 result actor.new.me.0 }
    ensures within { IsWithin result }
{
    match look_at_main(words, actor, main).shape {
        Shape::Branch(bitmap) => {
            if has_flag(bitmap, flag) {
                Turn::Entry(position_of(flag, bitmap))
            } else {
                Turn::Absent
            }
        }
        Shape::Tomb(single) => Turn::Tomb(single.slot),
        Shape::List(_) => Turn::List,
    }
}

/// What the way to a key meets in a single.
#[derive(Clone, Copy, Drop)]
pub enum Met {
    /// Its key, with this value.
    Found(u64),
    /// Another key.
    Other,
}

/// Looks at the single in this slot, to which the way to this key has come.
#[inline(always)]
pub fn meet_single(words: &Words, actor: &mut Actor, key: u64, single: u32) -> Met
    requires table { actor.old.table_id ≡ words.now.table_id }
    requires sound { IsSound words.now.table_id.words actor.old.me.0 }
    requires key { IsOnKey actor.old.me.0 key }
    requires at { IsAtSingle actor.old.me.0 single }
    ensures table { actor.new.table_id ≡ actor.old.table_id }
    ensures sound { IsSound words.now.table_id.words actor.new.me.0 }
    ensures met { HasMet actor.old.me.0 result actor.new.me.0 }
{
    if see_key(words, actor, single) == key {
        Met::Found(look_at_value(words, actor, single))
    } else {
        look_at_key(words, actor, single);
        Met::Other
    }
}

/// Looks at the indirection in this slot, to which the way has come.
#[inline(always)]
pub fn meet_link(words: &Words, actor: &mut Actor, indirection: u32) -> Link
    requires table { actor.old.table_id ≡ words.now.table_id }
    requires sound { IsSound words.now.table_id.words actor.old.me.0 }
    requires at { IsAtBelow actor.old.me.0 indirection }
    ensures table { actor.new.table_id ≡ actor.old.table_id }
    ensures sound { IsSound words.now.table_id.words actor.new.me.0 }
    ensures met { HasMetLink actor.old.me.0 result actor.new.me.0 }
{
    look_at_link(words, actor, indirection)
}

/// Reads the main node of the indirection in this slot, to which the way to a key has come, and looks where it goes on by the key's flag. No
/// more is told of what it reads than the link. None where it is out of tries.
#[inline(always)]
pub fn read_link_turn_within(
    tries: u64,
    words: &Words,
    actor: &mut Actor,
    way: Way,
    indirection: u32,
    flag: u32,
) -> Option<(Link, Turn)>
    requires table { actor.old.table_id ≡ words.now.table_id }
    requires sound { IsSound words.now.table_id.words actor.old.me.0 }
    requires way { IsOnWay actor.old.me.0 way }
    requires some { 0 < flag }
    requires at { IsAtLink actor.old.me.0 indirection flag }
    ensures table { actor.new.table_id ≡ actor.old.table_id }
    ensures sound { IsSound words.now.table_id.words actor.new.me.0 }
    ensures turned { OrSpent (λ read. HasReadOn actor.old.me.0 read actor.new.me.0) result actor.old.me.0 actor.new.me.0 }
    ensures within { IfSome result (λ read. IsWithin read.1) }
{
    let Some(link) = read_link_within(tries, words, actor, way, indirection) else {
        return None;
    };
    let turn = turn_at(words, actor, link.main.slot, flag);
    Some((link, turn))
}
