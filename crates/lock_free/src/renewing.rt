//! RENEW: a branch gets indirections of the root's generation in the place of older ones.

ghost use Rattle.std.specs.Prelude.{◌≡◌, ◌<◌, ◌^◌, IfErr, IfOk, None};
ghost use Rattle.machine_model.specs.declared.actions.Action.TheVariants as act;
ghost use Rattle.machine_model.specs.Beneath.slot_arena.specs.declared.refs.Ref.{Ref as ARef};
ghost use Rattle.machine_model.specs.Beneath.slot_arena.specs.declared.nodes.Node.TheVariants.{Indirection};
ghost use Rattle.trie_words.specs.declared.headers.Previous.TheVariants as previous;
ghost use Rattle.lock_free.specs.declared.reclaiming.Kind.TheVariants as kinds;
ghost use Rattle.lock_free.specs.Changing.{HasBuilt};
ghost use Rattle.lock_free.specs.Leaving.{IsRepair, LeavesSwap};
ghost use Rattle.lock_free.specs.Loading.{IsAt, IsSound};
ghost use Rattle.lock_free.specs.Owning.{MayOwn};
ghost use Rattle.lock_free.specs.Passing.{IsOnWay, IsPlaced};
ghost use Rattle.lock_free.specs.Raising.{MayHoldOne, MayReplace};
ghost use Rattle.lock_free.specs.Repairing.{HasLookedOld, HasRenewed, HasRenewedAll, HasRenewedBranch, HasStart, IsAtRenew, IsAtRenewed, IsRenewing, renewed_by};
ghost use Rattle.lock_free.specs.SeenEntries.{IsAtBranch, IsOver};
ghost use Rattle.lock_free.specs.Stocks.{IsStock};

use crate::entries::{halves_of, see_entries};
use crate::leaving::{Drops, Swapping};
use crate::loads::{Actor, Words, look_at_key, look_at_link};
use crate::makes::{class_of, make_link, make_main};
use crate::raising::{raise, release};
use crate::reading::{Passed, ReadFrom, Way, read_on};
use crate::reclaiming::Kind;
use crate::replacing::make_shared;
use crate::stock::Stock;
use crate::swapping::{Swapped, swap_made_within};
use arrayvec::ArrayVec;
use trie_words::{Entry, Header, Link, Name, Previous, Shape};

/// What a RENEW comes to.
#[derive(Clone, Copy, Drop)]
pub enum Renewed {
    /// The branch is renewed, and the operation reads its indirection again.
    Reads,
    /// Another main node stood there, or the root was another one's: the operation begins its try anew.
    Again,
    /// No slot is had: the operation gives up.
    Full,
}

/// What comes to the place of an entry of a branch that is renewed.
#[derive(Clone, Copy, Drop)]
struct RenewedEntry {
    /// The entry that comes to its place.
    entry: Entry,
    /// It is the one that stood there.
    is_kept: bool,
}

/// What comes to the places of all entries of a branch that is renewed.
#[derive(Drop)]
struct RenewedEntries {
    entries: ArrayVec<Entry, 32>,
    /// Those that stood in the branch.
    kept: ArrayVec<Entry, 32>,
}

/// Looks at this entry, which is next, and returns whether it is kept: an indirection of another generation than that in which the
/// operation began its try isn't.
fn keeps(words: &Words, actor: &mut Actor, start: u64, entry: Entry) -> bool
    requires table { actor.old.table_id ≡ words.now.table_id }
    requires sound { IsSound words.now.table_id.words actor.old.me.0 }
    requires start { HasStart actor.old.me.0 start }
    requires at { IsAtRenewed actor.old.me.0 entry }
    ensures table { actor.new.table_id ≡ actor.old.table_id }
    ensures sound { IsSound words.now.table_id.words actor.new.me.0 }
    ensures looked { HasLookedOld actor.old.me.0 result actor.new.me.0 }
{
    if entry.is_single {
        look_at_key(words, actor, entry.slot);
        true
    } else {
        look_at_link(words, actor, entry.slot).generation == start
    }
}

/// Makes an indirection of this generation over the main node of this name, in a slot of this class, which another indirection leads to: the seat
/// counts a reference to it. Returns its slot, or none where no slot is had, or the reference couldn't be counted.
fn make_shared_link(
    tries: u64,
    words: &Words,
    actor: &mut Actor,
    stock: &mut Stock,
    generation: u64,
    main: Name,
    class: u32,
) -> Option<u32>
    requires table { actor.old.table_id ≡ words.now.table_id }
    requires sound { IsSound words.now.table_id.words actor.old.me.0 }
    requires stock { IsStock stock.old actor.old.me.0 }
    requires generation { generation < 2 ^ 36 }
    requires making { (r : ARef) × (p : IsAt actor.old.me.0 (act.Make (Indirection generation r))) × IsPlaced actor.old.me.0 r main.slot × MayOwn p.operation.line (Indirection generation r) main.own }
    requires holds { MayHoldOne actor.old.me.0 kinds.Main class main.slot }
    ensures table { actor.new.table_id ≡ actor.old.table_id }
    ensures sound { IsSound words.now.table_id.words actor.new.me.0 }
    ensures stock { IsStock stock.new actor.new.me.0 }
    ensures built { HasBuilt actor.old.me.0 result actor.new.me.0 }
{
    if !raise(tries, words, actor, &stock.sizes(), class, main.slot) {
        return None;
    }
    match make_link(tries, words, actor, stock, generation, main) {
        Some(slot) => Some(slot),
        None => {
            release(words, actor, stock, Kind::Main, class, main.slot);
            None
        }
    }
}

/// What comes to the place of this entry, which is next: itself, or a new indirection, of the generation in which the operation began its
/// try, over the main node of an older one. None where no slot is had, or it is out of tries.
fn renew_entry_within(
    tries: u64,
    words: &Words,
    actor: &mut Actor,
    stock: &mut Stock,
    way: Way,
    start: u64,
    entry: Entry,
) -> Option<RenewedEntry>
    requires table { actor.old.table_id ≡ words.now.table_id }
    requires sound { IsSound words.now.table_id.words actor.old.me.0 }
    requires stock { IsStock stock.old actor.old.me.0 }
    requires way { IsOnWay actor.old.me.0 way }
    requires start { HasStart actor.old.me.0 start }
    requires small { start < 2 ^ 36 }
    requires at { IsAtRenewed actor.old.me.0 entry }
    ensures table { actor.new.table_id ≡ actor.old.table_id }
    ensures sound { IsSound words.now.table_id.words actor.new.me.0 }
    ensures stock { IsStock stock.new actor.new.me.0 }
    ensures renewed { HasRenewed actor.old.me.0 result actor.new.me.0 }
{
    if keeps(words, actor, start, entry) {
        return Some(RenewedEntry {
            entry,
            is_kept: true,
        });
    }
    let below = match read_on(tries, words, actor, way, entry.slot, ReadFrom::Start) {
        Passed::Gives(below) => below,
        Passed::Again(_) => return None,
    };
    let main = Name {
        slot: below.link.main.slot,
        own: false,
    };
    let class = class_of(below.header.shape);
    match make_shared_link(tries, words, actor, stock, start, main, class) {
        Some(slot) => {
            let link = Entry {
                slot,
                own: false,
                is_single: false,
            };
            Some(RenewedEntry {
                entry: link,
                is_kept: false,
            })
        }
        None => None,
    }
}

/// What comes to the places of these entries of the branch that is renewed. None where no slot is had, or it is out of tries.
fn renew_entries_within(
    tries: u64,
    words: &Words,
    actor: &mut Actor,
    stock: &mut Stock,
    way: Way,
    start: u64,
    entries: &ArrayVec<Entry, 32>,
) -> Option<RenewedEntries>
    requires table { actor.old.table_id ≡ words.now.table_id }
    requires sound { IsSound words.now.table_id.words actor.old.me.0 }
    requires stock { IsStock stock.old actor.old.me.0 }
    requires way { IsOnWay actor.old.me.0 way }
    requires start { HasStart actor.old.me.0 start }
    requires small { start < 2 ^ 36 }
    requires at { IsRenewing actor.old.me.0 entries.now.items }
    ensures table { actor.new.table_id ≡ actor.old.table_id }
    ensures sound { IsSound words.now.table_id.words actor.new.me.0 }
    ensures stock { IsStock stock.new actor.new.me.0 }
    ensures renewed { HasRenewedAll actor.old.me.0 result actor.new.me.0 }
{
    let mut renewed = ArrayVec::new();
    let mut kept = ArrayVec::new();
    for n in 0..entries.len() {
        match renew_entry_within(tries, words, actor, stock, way, start, entries[n]) {
            Some(next) => {
                renewed.push(next.entry);
                if next.is_kept {
                    kept.push(next.entry);
                }
            }
            None => return None,
        }
    }
    Some(RenewedEntries {
        entries: renewed,
        kept,
    })
}

/// Makes the branch with this bitmap and these entries over the main node of this name. Where that is its indirection's own, the branch takes over
/// the entries that are kept; else the seat counts a reference to each of them. Returns its slot, or none where no slot is had, or a reference
/// couldn't be counted.
fn make_renewed(
    tries: u64,
    words: &Words,
    actor: &mut Actor,
    stock: &mut Stock,
    bitmap: u32,
    renewed: &RenewedEntries,
    main: Name,
) -> Option<u32>
    requires table { actor.old.table_id ≡ words.now.table_id }
    requires sound { IsSound words.now.table_id.words actor.old.me.0 }
    requires stock { IsStock stock.old actor.old.me.0 }
    requires making { IsAtBranch actor.old.me.0 bitmap renewed.now.entries.items }
    requires over { IsOver actor.old.me.0 (previous.Pending main) }
    requires holds { MayReplace actor.old.me.0 main.own renewed.now.kept.items None }
    ensures table { actor.new.table_id ≡ actor.old.table_id }
    ensures sound { IsSound words.now.table_id.words actor.new.me.0 }
    ensures stock { IsStock stock.new actor.new.me.0 }
    ensures built { HasBuilt actor.old.me.0 result actor.new.me.0 }
{
    let previous = Previous::Pending(main);
    let shape = Shape::Branch(bitmap);
    let header = Header { previous, shape };
    let halves = halves_of(&renewed.entries);
    if main.own {
        make_main(tries, words, actor, stock, header, &halves)
    } else {
        let counted = halves_of(&renewed.kept);
        make_shared(tries, words, actor, stock, header, &halves, &counted, None)
    }
}

/// What a RENEW comes to whose SWAP came to this.
fn renewed_by(swapped: Swapped) -> Renewed
    ensures { result ≡ renewed_by swapped }
{
    match swapped {
        Swapped::Commits(_) => Renewed::Reads,
        Swapped::Fails(_) => Renewed::Again,
        Swapped::Misses => Renewed::Again,
    }
}

/// RENEW of the branch with this bitmap to which this link of the indirection leads, within so many tries. Out of tries it is as where no
/// slot is had, or its SWAP is under way and is returned.
pub fn renew_within(
    tries: u64,
    words: &Words,
    actor: &mut Actor,
    stock: &mut Stock,
    way: Way,
    start: u64,
    indirection: u32,
    link: Link,
    bitmap: u32,
) -> Result<Renewed, Swapping>
    requires table { actor.old.table_id ≡ words.now.table_id }
    requires sound { IsSound words.now.table_id.words actor.old.me.0 }
    requires stock { IsStock stock.old actor.old.me.0 }
    requires way { IsOnWay actor.old.me.0 way }
    requires start { HasStart actor.old.me.0 start }
    requires small { start < 2 ^ 36 }
    requires at { IsAtRenew actor.old.me.0 indirection link bitmap }
    ensures table { actor.new.table_id ≡ actor.old.table_id }
    ensures sound { IsSound words.now.table_id.words actor.new.me.0 }
    ensures stock { IsStock stock.new actor.new.me.0 }
    ensures renewed { IfOk result (λ renewed. HasRenewedBranch actor.old.me.0 renewed actor.new.me.0) }
    ensures left { IfErr result (λ left. LeavesSwap IsRepair actor.old.me.0 left actor.new.me.0) }
{
    let count = bitmap.count_ones() as usize;
    let entries = see_entries(words, actor, link.main.slot, count, link.main.own);
    let Some(renewed) = renew_entries_within(tries, words, actor, stock, way, start, &entries)
    else {
        return Ok(Renewed::Full);
    };
    let Some(fresh) = make_renewed(tries, words, actor, stock, bitmap, &renewed, link.main) else {
        return Ok(Renewed::Full);
    };
    let class = class_of(Shape::Branch(bitmap));
    match swap_made_within(
        tries,
        words,
        actor,
        stock,
        way,
        indirection,
        link,
        class,
        fresh,
        Drops::Others,
        &[],
    ) {
        Ok(swapped) => Ok(renewed_by(swapped)),
        Err(swapping) => Err(swapping),
    }
}
