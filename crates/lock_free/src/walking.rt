//! WALK: an operation on a read-only handle goes through all pairs.

ghost use Rattle.std.specs.Prelude.{◌≡◌, ◌++◌, ℕ, List, OnOk, reverse};
ghost use Rattle.machine_model.specs.Pairs.{by_key};
ghost use Rattle.lock_free.specs.Loading.{IsSound};
ghost use Rattle.lock_free.specs.Passing.{IsOnWay};
ghost use Rattle.lock_free.specs.Walks.{FoundStartOrNot, HasBegunWalk, HasEntered, HasNext, HasSeenAll, HasTakenPair, IsAtStart, IsAtWalkedMain, IsAtWalkedSingle, IsToRead, IsWalking};

use crate::asking::{Named, ask_word};
use crate::entries::see_entries;
use crate::loads::{Actor, Words, look_at_link, look_at_main, look_at_value, see_key};
use crate::reading::{Given, Passed, ReadFrom, Way, read_on};
use arrayvec::ArrayVec;
use std::alloc::{AllocError, Global};
use std::marker::Model;
use trie_words::{Entry, Shape};

/// All entries of the main node that was given, in order.
fn see_all(words: &Words, actor: &mut Actor, given: Given) -> ArrayVec<Entry, 32>
    requires table { actor.old.table_id ≡ words.now.table_id }
    requires sound { IsSound words.now.table_id.words actor.old.me.0 }
    requires at { IsAtWalkedMain actor.old.me.0 given }
    ensures table { actor.new.table_id ≡ actor.old.table_id }
    ensures sound { IsSound words.now.table_id.words actor.new.me.0 }
    ensures seen { HasSeenAll actor.old.me.0 given result.items actor.new.me.0 }
{
    let main = given.link.main;
    match given.header.shape {
        Shape::Branch(bitmap) => see_entries(
            words,
            actor,
            main.slot,
            bitmap.count_ones() as usize,
            main.own,
        ),
        Shape::List(count) => see_entries(words, actor, main.slot, count as usize, main.own),
        Shape::Tomb(single) => {
            let mut entries = ArrayVec::new();
            entries.push(single);
            entries
        }
    }
}

/// Takes the pair of the single in this slot.
fn take_pair(words: &Words, actor: &mut Actor, single: u32) -> (u64, u64)
    requires table { actor.old.table_id ≡ words.now.table_id }
    requires sound { IsSound words.now.table_id.words actor.old.me.0 }
    requires at { IsAtWalkedSingle actor.old.me.0 single }
    ensures table { actor.new.table_id ≡ actor.old.table_id }
    ensures sound { IsSound words.now.table_id.words actor.new.me.0 }
    ensures taken { HasTakenPair actor.old.me.0 single result actor.new.me.0 }
{
    let key = see_key(words, actor, single);
    let value = look_at_value(words, actor, single);
    (key, value)
}

/// These entries are to do next, in order.
fn add_all(todo: &mut Vec<Entry>, entries: &ArrayVec<Entry, 32>) -> Result<(), AllocError>
    ensures { OnOk result (todo.new.items ≡ todo.old.items ++ reverse entries.now.items) }
{
    for n in 0..entries.len() {
        todo.push(entries[entries.len() - 1 - n])?;
    }
    Ok(())
}

/// What an operation is still to do in its WALK.
#[derive(Drop)]
pub struct Walker {
    /// Entries of the main nodes on the way, the next one last.
    todo: Vec<Entry>,
}

impl Model for Walker {
    ghost use Rattle.std.specs.Prelude.{List};
    ghost use Rattle.trie_words.specs.declared.entries.Entry.{Entry};

    ghost Value = { List Entry };

    ghost view = { λ w. w.todo.items };
}

/// Why a WALK ends before its end.
#[derive(Clone, Copy, Debug, PartialEq, Eq, Drop)]
pub enum WalkError {
    /// No memory is had.
    Memory,
    /// It is out of tries.
    Spent,
}

/// The root of a read-only handle, or none where it isn't found in so many looks.
fn start_within(tries: u64, words: &Words, actor: &mut Actor, way: Way) -> Option<u32>
    requires table { actor.old.table_id ≡ words.now.table_id }
    requires sound { IsSound words.now.table_id.words actor.old.me.0 }
    requires way { IsOnWay actor.old.me.0 way }
    requires at { IsAtStart actor.old.me.0 }
    ensures table { actor.new.table_id ≡ actor.old.table_id }
    ensures sound { IsSound words.now.table_id.words actor.new.me.0 }
    ensures found { FoundStartOrNot actor.old.me.0 result actor.new.me.0 }
{
    for _ in 0..tries {
        match ask_word(words, actor, way.handle) {
            Named::Root(slot) => return Some(slot),
            Named::Offer(_) => {}
            Named::Nothing => {}
        }
    }
    None
}

impl Walker {
    /// Begins at the root. After an error the operation is to give up.
    pub fn begin_within(
        alloc: Global,
        tries: u64,
        words: &Words,
        actor: &mut Actor,
        way: Way,
    ) -> Result<Walker, WalkError>
        requires table { actor.old.table_id ≡ words.now.table_id }
        requires sound { IsSound words.now.table_id.words actor.old.me.0 }
        requires way { IsOnWay actor.old.me.0 way }
        requires at { IsAtStart actor.old.me.0 }
        ensures table { actor.new.table_id ≡ actor.old.table_id }
        ensures sound { IsSound words.now.table_id.words actor.new.me.0 }
        ensures begun { HasBegunWalk actor.old.me.0 result actor.new.me.0 }
    {
        let Some(root) = start_within(tries, words, actor, way) else {
            return Err(WalkError::Spent);
        };
        let mut walker = Walker {
            todo: Vec::new(alloc),
        };
        match walker.enter_within(tries, words, actor, way, root) {
            Ok(()) => Ok(walker),
            Err(error) => Err(error),
        }
    }

    /// Reads the indirection in this slot, and looks at its main node, whose entries are to do next.
    fn enter_within(
        &mut self,
        tries: u64,
        words: &Words,
        actor: &mut Actor,
        way: Way,
        indirection: u32,
    ) -> Result<(), WalkError>
        requires table { actor.old.table_id ≡ words.now.table_id }
        requires sound { IsSound words.now.table_id.words actor.old.me.0 }
        requires way { IsOnWay actor.old.me.0 way }
        requires at { IsToRead actor.old.me.0 self.old indirection }
        ensures table { actor.new.table_id ≡ actor.old.table_id }
        ensures sound { IsSound words.now.table_id.words actor.new.me.0 }
        ensures entered { HasEntered actor.old.me.0 self.old indirection result actor.new.me.0 self.new }
    {
        let given = match read_on(tries, words, actor, way, indirection, ReadFrom::Start) {
            Passed::Gives(given) => given,
            Passed::Again(_) => return Err(WalkError::Spent),
        };
        let entries = see_all(words, actor, given);
        match add_all(&mut self.todo, &entries) {
            Ok(()) => {}
            Err(_) => return Err(WalkError::Memory),
        }
        look_at_main(words, actor, given.link.main.slot);
        Ok(())
    }

    /// The next pair, or none where the operation is to end. After an error it is to give up.
    pub fn next_within(
        &mut self,
        tries: u64,
        words: &Words,
        actor: &mut Actor,
        way: Way,
    ) -> Result<Option<(u64, u64)>, WalkError>
        requires table { actor.old.table_id ≡ words.now.table_id }
        requires sound { IsSound words.now.table_id.words actor.old.me.0 }
        requires way { IsOnWay actor.old.me.0 way }
        requires at { (pairs : List (ℕ × ℕ)) × IsWalking actor.old.me.0 self.old pairs }
        ensures table { actor.new.table_id ≡ actor.old.table_id }
        ensures sound { IsSound words.now.table_id.words actor.new.me.0 }
        ensures next { HasNext actor.old.me.0 self.old result actor.new.me.0 self.new }
    {
        for _ in 0..u64::MAX {
            let Some(entry) = self.todo.pop() else {
                return Ok(None);
            };
            if entry.is_single {
                let pair = take_pair(words, actor, entry.slot);
                return Ok(Some(pair));
            }
            look_at_link(words, actor, entry.slot);
            match self.enter_within(tries, words, actor, way, entry.slot) {
                Ok(()) => {}
                Err(error) => return Err(error),
            }
        }
        Err(WalkError::Spent)
    }
}

/// These pairs by rising key. It takes no memory.
pub(crate) fn in_order(mut pairs: Vec<(u64, u64)>) -> Vec<(u64, u64)>
    ensures { result.items ≡ by_key pairs.items }
{
    pairs.sort_unstable();
    pairs
}
