//! CLIMB within a number of tries.

ghost use Rattle.std.specs.Prelude.{◌≡◌, ◌<◌, IfErr, IfOk};
ghost use Rattle.lock_free.specs.Climbs.{HasAskedWithin, HasClimbed, HasClimbedBranch, HasClimbedUp, HasContracted, HasLeftBranch, HasLeftClimb, HasLeftContracted, HasLeftParent};
ghost use Rattle.lock_free.specs.Climbs.{IsAskingAgain, IsAtParent, IsAtParentBranch, IsClimbing, IsContracting};
ghost use Rattle.lock_free.specs.Loading.{IsSound};
ghost use Rattle.lock_free.specs.Passing.{IsOnWay};
ghost use Rattle.lock_free.specs.Repairing.{HasStart};
ghost use Rattle.lock_free.specs.Stocks.{IsStock};

use crate::cleaning::single_in;
use crate::climbing::{Climbed, entombs, holds_it, put};
use crate::contracting::make_contracted;
use crate::entries::see_entries;
use crate::leaving::Swapping;
use crate::loads::{Actor, Words, look_at_main};
use crate::makes::class_of;
use crate::reading::{Given, Passed, ReadFrom, Way, read_on};
use crate::rooting::root_within;
use crate::stock::Stock;
use crate::swapping::{Swapped, swap_seen_within};
use arrayvec::ArrayVec;
use nodes::{flag_of, position_of};
use trie_words::{Entry, Link, Shape};

/// Another main node stood in the parent, or the swap was refused: the climb tries again there, if the root is still of the generation in
/// which the operation began its try. Out of tries it is as where no slot is had.
fn ask_again_within(tries: u64, words: &Words, actor: &mut Actor, way: Way, start: u64) -> Climbed
    requires table { actor.old.table_id ≡ words.now.table_id }
    requires sound { IsSound words.now.table_id.words actor.old.me.0 }
    requires way { IsOnWay actor.old.me.0 way }
    requires start { HasStart actor.old.me.0 start }
    requires at { IsAskingAgain actor.old.me.0 }
    ensures table { actor.new.table_id ≡ actor.old.table_id }
    ensures sound { IsSound words.now.table_id.words actor.new.me.0 }
    ensures asked { HasAskedWithin actor.old.me.0 result actor.new.me.0 }
{
    match root_within(tries, words, actor, way) {
        Ok(rooted) => {
            if rooted.generation == start {
                Climbed::Again
            } else {
                Climbed::Ends
            }
        }
        Err(_) => Climbed::Full,
    }
}

/// Makes the parent's main node with these entries, and swaps it in where the one of this link and bitmap stands. An `Err` has its SWAP
/// that is under way.
fn contract_within(
    tries: u64,
    words: &Words,
    actor: &mut Actor,
    stock: &mut Stock,
    way: Way,
    start: u64,
    parent: u32,
    link: Link,
    bitmap: u32,
    entries: &ArrayVec<Entry, 32>,
    single: Entry,
    may_entomb: bool,
) -> Result<Climbed, Swapping>
    requires table { actor.old.table_id ≡ words.now.table_id }
    requires sound { IsSound words.now.table_id.words actor.old.me.0 }
    requires stock { IsStock stock.old actor.old.me.0 }
    requires way { IsOnWay actor.old.me.0 way }
    requires start { HasStart actor.old.me.0 start }
    requires at { IsContracting actor.old.me.0 parent link bitmap entries.now.items single may_entomb }
    ensures table { actor.new.table_id ≡ actor.old.table_id }
    ensures sound { IsSound words.now.table_id.words actor.new.me.0 }
    ensures stock { IsStock stock.new actor.new.me.0 }
    ensures contracted { IfOk result (λ climbed. HasContracted actor.old.me.0 climbed actor.new.me.0) }
    ensures left { IfErr result (λ left. HasLeftContracted actor.old.me.0 left actor.new.me.0) }
{
    let Some(fresh) = make_contracted(
        tries,
        words,
        actor,
        stock,
        may_entomb,
        bitmap,
        entries,
        &[single],
        link.main,
    ) else {
        return Ok(Climbed::Full);
    };
    let class = class_of(Shape::Branch(bitmap));
    let swapped = match swap_seen_within(
        tries, words, actor, stock, way, parent, link, class, fresh,
    ) {
        Ok(swapped) => swapped,
        Err(swapping) => return Err(swapping),
    };
    match swapped {
        Swapped::Commits(_) => {
            if entombs(may_entomb, entries) {
                Ok(Climbed::Higher(single))
            } else {
                Ok(Climbed::Ends)
            }
        }
        Swapped::Fails(_) => Ok(ask_again_within(tries, words, actor, way, start)),
        Swapped::Misses => Ok(ask_again_within(tries, words, actor, way, start)),
    }
}

/// Climbs over the tombed indirection in this slot, where the parent has the branch of this link and bitmap. An `Err` has its SWAP that is
/// under way.
fn climb_branch_within(
    tries: u64,
    words: &Words,
    actor: &mut Actor,
    stock: &mut Stock,
    way: Way,
    start: u64,
    parent: u32,
    link: Link,
    bitmap: u32,
    tombed: u32,
    flag: u32,
    single: Entry,
    may_entomb: bool,
) -> Result<Climbed, Swapping>
    requires table { actor.old.table_id ≡ words.now.table_id }
    requires sound { IsSound words.now.table_id.words actor.old.me.0 }
    requires stock { IsStock stock.old actor.old.me.0 }
    requires way { IsOnWay actor.old.me.0 way }
    requires start { HasStart actor.old.me.0 start }
    requires some { 0 < flag }
    requires at { IsAtParentBranch actor.old.me.0 parent link bitmap tombed flag single may_entomb }
    ensures table { actor.new.table_id ≡ actor.old.table_id }
    ensures sound { IsSound words.now.table_id.words actor.new.me.0 }
    ensures stock { IsStock stock.new actor.new.me.0 }
    ensures climbed { IfOk result (λ climbed. HasClimbedBranch actor.old.me.0 climbed actor.new.me.0) }
    ensures left { IfErr result (λ left. HasLeftBranch actor.old.me.0 left actor.new.me.0) }
{
    let main = link.main.slot;
    if !holds_it(words, actor, main, bitmap, flag, tombed) {
        look_at_main(words, actor, main);
        return Ok(Climbed::Ends);
    }
    let count = bitmap.count_ones() as usize;
    let mut entries = see_entries(words, actor, main, count, link.main.own);
    look_at_main(words, actor, main);
    put(&mut entries, position_of(flag, bitmap), single);
    contract_within(
        tries, words, actor, stock, way, start, parent, link, bitmap, &entries, single, may_entomb,
    )
}

/// Climbs over the tombed indirection in this slot, whose tomb has this single and whose parent is in that slot. An `Err` has its SWAP that
/// is under way.
fn climb_over_within(
    tries: u64,
    words: &Words,
    actor: &mut Actor,
    stock: &mut Stock,
    way: Way,
    start: u64,
    parent: u32,
    tombed: u32,
    flag: u32,
    single: Entry,
    is_below_root: bool,
) -> Result<Climbed, Swapping>
    requires table { actor.old.table_id ≡ words.now.table_id }
    requires sound { IsSound words.now.table_id.words actor.old.me.0 }
    requires stock { IsStock stock.old actor.old.me.0 }
    requires way { IsOnWay actor.old.me.0 way }
    requires start { HasStart actor.old.me.0 start }
    requires some { 0 < flag }
    requires at { IsAtParent actor.old.me.0 parent tombed flag single is_below_root }
    ensures table { actor.new.table_id ≡ actor.old.table_id }
    ensures sound { IsSound words.now.table_id.words actor.new.me.0 }
    ensures stock { IsStock stock.new actor.new.me.0 }
    ensures climbed { IfOk result (λ climbed. HasClimbed actor.old.me.0 climbed actor.new.me.0) }
    ensures left { IfErr result (λ left. HasLeftParent actor.old.me.0 left actor.new.me.0) }
{
    let Given { link, header } = match read_on(tries, words, actor, way, parent, ReadFrom::Start) {
        Passed::Gives(given) => given,
        Passed::Again(_) => return Ok(Climbed::Full),
    };
    match header.shape {
        Shape::Branch(bitmap) => climb_branch_within(
            tries,
            words,
            actor,
            stock,
            way,
            start,
            parent,
            link,
            bitmap,
            tombed,
            flag,
            single,
            is_below_root,
        ),
        Shape::Tomb(entry) => {
            look_at_main(words, actor, link.main.slot);
            Ok(Climbed::Higher(single_in(link, entry, start)))
        }
        Shape::List(_) => {
            look_at_main(words, actor, link.main.slot);
            Ok(Climbed::Ends)
        }
    }
}

/// CLIMB from the last indirection of this path, which was tombed with this single by the removal of a key of this hash. Returns true where
/// the removal is answered, false where no slot is had, a reference couldn't be counted, or it is out of tries: then the climb is given up,
/// and the removal answered. An `Err` has its SWAP that is under way.
pub fn climb_within(
    tries: u64,
    words: &Words,
    actor: &mut Actor,
    stock: &mut Stock,
    way: Way,
    start: u64,
    path: &ArrayVec<u32, 14>,
    hash: u64,
    single: Entry,
) -> Result<bool, Swapping>
    requires table { actor.old.table_id ≡ words.now.table_id }
    requires sound { IsSound words.now.table_id.words actor.old.me.0 }
    requires stock { IsStock stock.old actor.old.me.0 }
    requires way { IsOnWay actor.old.me.0 way }
    requires start { HasStart actor.old.me.0 start }
    requires at { IsClimbing actor.old.me.0 path.now.items hash single }
    ensures table { actor.new.table_id ≡ actor.old.table_id }
    ensures sound { IsSound words.now.table_id.words actor.new.me.0 }
    ensures stock { IsStock stock.new actor.new.me.0 }
    ensures climbed { IfOk result (λ done. HasClimbedUp actor.old.me.0 done actor.new.me.0) }
    ensures left { IfErr result (λ left. HasLeftClimb actor.old.me.0 path.now.items hash single left actor.new.me.0) }
{
    let mut length = path.len();
    let mut single = single;
    for _ in 0..tries {
        if length < 2 {
            return Ok(true);
        }
        let parent = path[length - 2];
        let tombed = path[length - 1];
        let flag = flag_of(hash, length - 2);
        let climbed = match climb_over_within(
            tries,
            words,
            actor,
            stock,
            way,
            start,
            parent,
            tombed,
            flag,
            single,
            length > 2,
        ) {
            Ok(climbed) => climbed,
            Err(swapping) => return Err(swapping),
        };
        match climbed {
            Climbed::Higher(above) => {
                length -= 1;
                single = above;
            }
            Climbed::Again => {}
            Climbed::Ends => return Ok(true),
            Climbed::Full => return Ok(false),
        }
    }
    Ok(length < 2)
}
