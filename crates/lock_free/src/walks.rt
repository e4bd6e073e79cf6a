//! All pairs of a map, within a number of tries of each READ.

ghost use Rattle.std.specs.Prelude.{◌≡◌, ℕ, List, IfOk, OnErr, length};
ghost use Rattle.lock_free.specs.Loading.{IsSound};
ghost use Rattle.lock_free.specs.Passing.{IsOnWay};
ghost use Rattle.lock_free.specs.Scans.{HasAdded};
ghost use Rattle.lock_free.specs.Walks.{HasAllPairs, IsAtStart, IsLeft, IsWalking};

use crate::loads::{Actor, Words};
use crate::reading::Way;
use crate::walking::{WalkError, Walker};
use std::alloc::Global;

/// All pairs of the map, in the order of its trie: then the operation is to end. After an error it is to give up.
pub fn all_pairs_within(
    alloc: Global,
    tries: u64,
    words: &Words,
    actor: &mut Actor,
    way: Way,
) -> Result<Vec<(u64, u64)>, WalkError>
    requires table { actor.old.table_id ≡ words.now.table_id }
    requires sound { IsSound words.now.table_id.words actor.old.me.0 }
    requires way { IsOnWay actor.old.me.0 way }
    requires at { IsAtStart actor.old.me.0 }
    ensures table { actor.new.table_id ≡ actor.old.table_id }
    ensures sound { IsSound words.now.table_id.words actor.new.me.0 }
    ensures walked { IfOk result (λ pairs. HasAllPairs actor.old.me.0 pairs.items actor.new.me.0) }
    ensures left { OnErr result (IsLeft actor.old.me.0 actor.new.me.0) }
{
    let mut walker = match Walker::begin_within(alloc, tries, words, actor, way) {
        Ok(walker) => walker,
        Err(error) => return Err(error),
    };
    let mut pairs = Vec::new(alloc);
    for _ in 0..u64::MAX {
        let next = match walker.next_within(tries, words, actor, way) {
            Ok(next) => next,
            Err(error) => return Err(error),
        };
        match next {
            Some(pair) => match pairs.push(pair) {
                Ok(()) => {}
                Err(_) => return Err(WalkError::Memory),
            },
            None => return Ok(pairs),
        }
    }
    Err(WalkError::Memory)
}

/// How many pairs the map has: then the operation is to end. It takes memory for what is still to do alone. After an error, which is
/// `Memory` at 2^64 - 1 pairs too, it is to give up.
pub fn count_pairs_within(
    alloc: Global,
    tries: u64,
    words: &Words,
    actor: &mut Actor,
    way: Way,
) -> Result<u64, WalkError>
    requires table { actor.old.table_id ≡ words.now.table_id }
    requires sound { IsSound words.now.table_id.words actor.old.me.0 }
    requires way { IsOnWay actor.old.me.0 way }
    requires at { IsAtStart actor.old.me.0 }
    ensures table { actor.new.table_id ≡ actor.old.table_id }
    ensures sound { IsSound words.now.table_id.words actor.new.me.0 }
    ensures counted { IfOk result (λ n. (pairs : List (ℕ × ℕ)) × HasAllPairs actor.old.me.0 pairs actor.new.me.0 × (n ≡ length pairs)) }
    ensures left { OnErr result (IsLeft actor.old.me.0 actor.new.me.0) }
{
    let mut walker = match Walker::begin_within(alloc, tries, words, actor, way) {
        Ok(walker) => walker,
        Err(error) => return Err(error),
    };
    for count in 0..u64::MAX {
        let next = match walker.next_within(tries, words, actor, way) {
            Ok(next) => next,
            Err(error) => return Err(error),
        };
        match next {
            Some(_) => {}
            None => return Ok(count),
        }
    }
    Err(WalkError::Memory)
}

/// How far a walk has come.
#[derive(Clone, Copy, Debug, PartialEq, Eq, Drop)]
pub enum Reached {
    /// As many pairs as were asked for. Others may follow.
    Most,
    /// All pairs: the operation is to end.
    All,
}

/// Adds the next pairs of the map to this list, so many at most, in the order of its trie. After an error the operation is to give up.
pub fn add_pairs_within(
    tries: u64,
    most: usize,
    words: &Words,
    actor: &mut Actor,
    way: Way,
    walker: &mut Walker,
    pairs: &mut Vec<(u64, u64)>,
) -> Result<Reached, WalkError>
    requires table { actor.old.table_id ≡ words.now.table_id }
    requires sound { IsSound words.now.table_id.words actor.old.me.0 }
    requires way { IsOnWay actor.old.me.0 way }
    requires at { (told : List (ℕ × ℕ)) × IsWalking actor.old.me.0 walker.old told }
    ensures table { actor.new.table_id ≡ actor.old.table_id }
    ensures sound { IsSound words.now.table_id.words actor.new.me.0 }
    ensures added { HasAdded actor.old.me.0 walker.old pairs.old.items most result actor.new.me.0 walker.new pairs.new.items }
{
    for _ in 0..most {
        let next = match walker.next_within(tries, words, actor, way) {
            Ok(next) => next,
            Err(error) => return Err(error),
        };
        match next {
            Some(pair) => match pairs.push(pair) {
                Ok(()) => {}
                Err(_) => return Err(WalkError::Memory),
            },
            None => return Ok(Reached::All),
        }
    }
    Ok(Reached::Most)
}
