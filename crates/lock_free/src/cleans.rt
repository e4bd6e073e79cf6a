//! CLEAN within a number of tries.

ghost use Rattle.std.specs.Prelude.{◌≡◌, IfErr, IfOk};
ghost use Rattle.lock_free.specs.Leaving.{AllCleanedOrNot, CleanedOrNot, IsRepair, LeavesSwap};
ghost use Rattle.lock_free.specs.Loading.{IsSound};
ghost use Rattle.lock_free.specs.Passing.{IsOnWay};
ghost use Rattle.lock_free.specs.Repairing.{HasCleanedBelow, HasCleanedBranch, IsAtClean, IsAtCleaned, IsAtCleanedBranch, IsCleaning};
ghost use Rattle.lock_free.specs.Stocks.{IsStock};

use crate::cleaning::{Cleaned, CleanedEntries, look_over, single_in};
use crate::contracting::make_contracted;
use crate::entries::see_entries;
use crate::leaving::Swapping;
use crate::loads::{Actor, Words, look_at_main};
use crate::makes::class_of;
use crate::reading::{Given, Passed, ReadFrom, Way, read_on};
use crate::stock::Stock;
use crate::swapping::swap_seen_within;
use arrayvec::ArrayVec;
use trie_words::{Entry, Link, Shape};

/// What this entry, which is next, gives way to: a tomb's single comes to the tombed indirection's place. None where it is out
/// of tries.
fn clean_entry_within(
    tries: u64,
    words: &Words,
    actor: &mut Actor,
    way: Way,
    start: u64,
    entry: Entry,
) -> Option<Cleaned>
    requires table { actor.old.table_id ≡ words.now.table_id }
    requires sound { IsSound words.now.table_id.words actor.old.me.0 }
    requires way { IsOnWay actor.old.me.0 way }
    requires at { IsAtCleaned actor.old.me.0 entry }
    ensures table { actor.new.table_id ≡ actor.old.table_id }
    ensures sound { IsSound words.now.table_id.words actor.new.me.0 }
    ensures cleaned { CleanedOrNot actor.old.me.0 result actor.new.me.0 }
{
    look_over(words, actor, entry);
    if entry.is_single {
        return Some(Cleaned {
            entry,
            is_changed: false,
        });
    }
    let below = match read_on(tries, words, actor, way, entry.slot, ReadFrom::Start) {
        Passed::Gives(below) => below,
        Passed::Again(_) => return None,
    };
    look_at_main(words, actor, below.link.main.slot);
    match below.header.shape {
        Shape::Tomb(single) => {
            let freed = single_in(below.link, single, start);
            Some(Cleaned {
                entry: freed,
                is_changed: true,
            })
        }
        Shape::Branch(_) => Some(Cleaned {
            entry,
            is_changed: false,
        }),
        Shape::List(_) => Some(Cleaned {
            entry,
            is_changed: false,
        }),
    }
}

/// Cleans the branch in this slot, which has these entries, as far as to what comes to their places. Returns that, or none where it is out
/// of tries.
fn clean_entries_within(
    tries: u64,
    words: &Words,
    actor: &mut Actor,
    way: Way,
    start: u64,
    main: u32,
    entries: &ArrayVec<Entry, 32>,
) -> Option<CleanedEntries>
    requires table { actor.old.table_id ≡ words.now.table_id }
    requires sound { IsSound words.now.table_id.words actor.old.me.0 }
    requires way { IsOnWay actor.old.me.0 way }
    requires at { IsCleaning actor.old.me.0 main entries.now.items }
    ensures table { actor.new.table_id ≡ actor.old.table_id }
    ensures sound { IsSound words.now.table_id.words actor.new.me.0 }
    ensures cleaned { AllCleanedOrNot actor.old.me.0 result actor.new.me.0 }
{
    look_at_main(words, actor, main);
    let mut cleaned = CleanedEntries::new();
    for n in 0..entries.len() {
        match clean_entry_within(tries, words, actor, way, start, entries[n]) {
            Some(next) => cleaned.push(next),
            None => return None,
        }
    }
    Some(cleaned)
}

/// Cleans the branch with this bitmap to which this link of the indirection leads, and which may become a tomb. Afterwards the operation
/// begins its try anew, whatever has come of it. Returns false where no slot is had, a reference couldn't be counted, or it is out of
/// tries; an `Err` has its SWAP that is under way.
fn clean_branch_within(
    tries: u64,
    words: &Words,
    actor: &mut Actor,
    stock: &mut Stock,
    way: Way,
    start: u64,
    indirection: u32,
    link: Link,
    bitmap: u32,
    may_entomb: bool,
) -> Result<bool, Swapping>
    requires table { actor.old.table_id ≡ words.now.table_id }
    requires sound { IsSound words.now.table_id.words actor.old.me.0 }
    requires stock { IsStock stock.old actor.old.me.0 }
    requires way { IsOnWay actor.old.me.0 way }
    requires at { IsAtCleanedBranch actor.old.me.0 indirection link bitmap may_entomb }
    ensures table { actor.new.table_id ≡ actor.old.table_id }
    ensures sound { IsSound words.now.table_id.words actor.new.me.0 }
    ensures stock { IsStock stock.new actor.new.me.0 }
    ensures cleaned { IfOk result (λ done. HasCleanedBranch actor.old.me.0 done actor.new.me.0) }
    ensures left { IfErr result (λ left. LeavesSwap IsRepair actor.old.me.0 left actor.new.me.0) }
{
    let main = link.main.slot;
    let count = bitmap.count_ones() as usize;
    let entries = see_entries(words, actor, main, count, link.main.own);
    let Some(cleaned) = clean_entries_within(tries, words, actor, way, start, main, &entries) else {
        return Ok(false);
    };
    if cleaned.singles.is_empty() {
        return Ok(true);
    }
    let Some(fresh) = make_contracted(
        tries,
        words,
        actor,
        stock,
        may_entomb,
        bitmap,
        &cleaned.entries,
        &cleaned.singles,
        link.main,
    ) else {
        return Ok(false);
    };
    let class = class_of(Shape::Branch(bitmap));
    match swap_seen_within(
        tries,
        words,
        actor,
        stock,
        way,
        indirection,
        link,
        class,
        fresh,
    ) {
        Ok(_) => Ok(true),
        Err(swapping) => Err(swapping),
    }
}

/// CLEAN below the indirection in this slot, which is below the root or is the root: each tomb there gives way to its single. Afterwards
/// the operation begins its try anew, whatever has come of it. Returns false where no slot is had, a reference couldn't be counted, or it is
/// out of tries: then the operation gives up. An `Err` has its SWAP that is under way.
pub fn clean_below_within(
    tries: u64,
    words: &Words,
    actor: &mut Actor,
    stock: &mut Stock,
    way: Way,
    start: u64,
    indirection: u32,
    is_below_root: bool,
) -> Result<bool, Swapping>
    requires table { actor.old.table_id ≡ words.now.table_id }
    requires sound { IsSound words.now.table_id.words actor.old.me.0 }
    requires stock { IsStock stock.old actor.old.me.0 }
    requires way { IsOnWay actor.old.me.0 way }
    requires at { IsAtClean actor.old.me.0 indirection is_below_root }
    ensures table { actor.new.table_id ≡ actor.old.table_id }
    ensures sound { IsSound words.now.table_id.words actor.new.me.0 }
    ensures stock { IsStock stock.new actor.new.me.0 }
    ensures cleaned { IfOk result (λ done. HasCleanedBelow actor.old.me.0 done actor.new.me.0) }
    ensures left { IfErr result (λ left. LeavesSwap IsRepair actor.old.me.0 left actor.new.me.0) }
{
    let Given { link, header } = match read_on(
        tries,
        words,
        actor,
        way,
        indirection,
        ReadFrom::Start,
    ) {
        Passed::Gives(given) => given,
        Passed::Again(_) => return Ok(false),
    };
    match header.shape {
        Shape::Branch(bitmap) => clean_branch_within(
            tries,
            words,
            actor,
            stock,
            way,
            start,
            indirection,
            link,
            bitmap,
            is_below_root,
        ),
        Shape::Tomb(_) => {
            look_at_main(words, actor, link.main.slot);
            Ok(true)
        }
        Shape::List(_) => {
            look_at_main(words, actor, link.main.slot);
            Ok(true)
        }
    }
}
