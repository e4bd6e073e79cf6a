//! SWAP: a fresh main node in the place of another.

ghost use Rattle.std.specs.Prelude.{◌≡◌, ◌≤◌, IfErr, IfOk, length};
ghost use Rattle.lock_free.specs.Entries.{HasStayed};
ghost use Rattle.lock_free.specs.Leaving.{HasCheckedOn, HasDecidedSwap, HasEndedSwap, HasLeftSwap, HasSwappedOn, IsAtCheck, IsSwapLeft};
ghost use Rattle.lock_free.specs.LettingMadeGo.{KeepsNamed};
ghost use Rattle.lock_free.specs.Limbos.{IsLimbo};
ghost use Rattle.lock_free.specs.Loading.{IsSound};
ghost use Rattle.lock_free.specs.Passing.{IsOnWay};
ghost use Rattle.lock_free.specs.Swaps.{HasSwapDone, HoldsSwapped, IsAtSwap, RetiresOwn, SwapDrops, retired_by, swapped_by};
ghost use Rattle.lock_free.specs.Stocks.{IsStock, HasSwapped};

use crate::exchanges::publish;
use crate::first_passes::end_read_within;
use crate::hung_slots::hang_replaced;
use crate::leaving::{Drops, Swapping};
use crate::letting_go::{let_go_by, let_go_told, see_dropped, see_names, see_taken};
use crate::loads::{Actor, Words, see_main};
use crate::reading::{ReadFrom, Way};
use crate::reclaiming::{Decided, Retiree, check_swap, is_decided};
use crate::settling::settle_stock;
use crate::stock::Stock;
use arrayvec::ArrayVec;
use trie_words::{Link, Name};

/// What a SWAP comes to.
#[derive(Clone, Copy, Drop)]
pub enum Swapped {
    /// The fresh main node stands there, decided. The seat has retired this slot, which is that of the one before, if that was the
    /// indirection's own.
    Commits(Option<Retiree>),
    /// It stood there and was refused. The seat has retired its slot.
    Fails(Retiree),
    /// The one to be replaced didn't stand there any more, and all that was made is given up.
    Misses,
}

/// The slot that the end of a SWAP has retired which came to this, if it has.
fn retired_by(decided: Decided) -> Option<Retiree>
    ensures { result ≡ retired_by (swapped_by decided) }
{
    match decided {
        Decided::Commits(retired) => retired,
        Decided::Fails(retired) => Some(retired),
    }
}

/// Whether it is known what the seat is given at the SWAP's end: what the fresh main node drops is said, or nothing of the indirection's own
/// is replaced; and it was committed already.
#[inline(always)]
fn is_told(words: &Words, actor: &mut Actor, swapping: Swapping) -> bool
    requires table { actor.old.table_id ≡ words.now.table_id }
    requires sound { IsSound words.now.table_id.words actor.old.me.0 }
    requires checking { IsAtCheck actor.old.me.0 swapping }
    ensures table { actor.new.table_id ≡ actor.old.table_id }
    ensures sound { IsSound words.now.table_id.words actor.new.me.0 }
    ensures stayed { HasStayed actor.old.me.0 actor.new.me.0 }
{
    let unsaid = matches!(swapping.drops, Drops::Others);
    if unsaid && swapping.replaced.own {
        return false;
    }
    is_decided(see_main(words, actor, swapping.fresh).previous)
}

/// The last step of the SWAP. What it retires hangs with all else that the seat has retired.
#[inline(always)]
fn check_on(words: &Words, actor: &mut Actor, stock: &mut Stock, swapping: Swapping) -> Decided
    requires table { actor.old.table_id ≡ words.now.table_id }
    requires sound { IsSound words.now.table_id.words actor.old.me.0 }
    requires checking { IsAtCheck actor.old.me.0 swapping }
    requires sizes { stock.old.sizes ≡ actor.old.me.0.sizes }
    requires limbo { IsLimbo stock.old.limbo actor.old.me.0 }
    ensures table { actor.new.table_id ≡ actor.old.table_id }
    ensures sound { IsSound words.now.table_id.words actor.new.me.0 }
    ensures same { stock.new ≡ record stock.old { limbo = stock.new.limbo } }
    ensures limbo { IsLimbo stock.new.limbo actor.new.me.0 }
    ensures checked { HasCheckedOn actor.old.me.0 swapping result actor.new.me.0 }
{
    let decided = check_swap(
        words,
        actor,
        swapping.fresh,
        swapping.replaced,
        swapping.class,
    );
    hang_replaced(words, actor, stock, retired_by(decided));
    decided
}

/// The same; before it what the two main nodes name is seen, and after it the seat lets go of what it is given.
#[cold]
#[inline(never)]
fn end_looking(words: &Words, actor: &mut Actor, stock: &mut Stock, swapping: Swapping) -> Decided
    requires table { actor.old.table_id ≡ words.now.table_id }
    requires sound { IsSound words.now.table_id.words actor.old.me.0 }
    requires checking { IsAtCheck actor.old.me.0 swapping }
    requires sizes { stock.old.sizes ≡ actor.old.me.0.sizes }
    requires limbo { IsLimbo stock.old.limbo actor.old.me.0 }
    ensures table { actor.new.table_id ≡ actor.old.table_id }
    ensures sound { IsSound words.now.table_id.words actor.new.me.0 }
    ensures same { stock.new ≡ record stock.old { limbo = stock.new.limbo } }
    ensures limbo { IsLimbo stock.new.limbo actor.new.me.0 }
    ensures ended { HasEndedSwap actor.old.me.0 swapping result actor.new.me.0 }
{
    let mut olds = ArrayVec::new();
    let mut news = ArrayVec::new();
    see_taken(words, actor, swapping.replaced, &mut olds);
    see_names(words, actor, swapping.fresh, &mut news);
    let decided = check_on(words, actor, stock, swapping);
    let_go_by(words, actor, stock, swapping, decided, &olds, &news);
    decided
}

/// The same of a SWAP whose fresh main node was committed already, where it is known what the seat is given.
#[inline(always)]
fn end_told(words: &Words, actor: &mut Actor, stock: &mut Stock, swapping: Swapping) -> Decided
    requires table { actor.old.table_id ≡ words.now.table_id }
    requires sound { IsSound words.now.table_id.words actor.old.me.0 }
    requires checking { IsAtCheck actor.old.me.0 swapping }
    requires sizes { stock.old.sizes ≡ actor.old.me.0.sizes }
    requires limbo { IsLimbo stock.old.limbo actor.old.me.0 }
    ensures table { actor.new.table_id ≡ actor.old.table_id }
    ensures sound { IsSound words.now.table_id.words actor.new.me.0 }
    ensures same { stock.new ≡ record stock.old { limbo = stock.new.limbo } }
    ensures limbo { IsLimbo stock.new.limbo actor.new.me.0 }
    ensures ended { HasEndedSwap actor.old.me.0 swapping result actor.new.me.0 }
{
    let dropped = see_dropped(words, actor, swapping.replaced.slot, swapping.drops);
    let decided = check_on(words, actor, stock, swapping);
    let_go_told(words, actor, stock, swapping, decided, dropped);
    decided
}

/// The same, whichever it is.
#[inline(always)]
fn end_swap(words: &Words, actor: &mut Actor, stock: &mut Stock, swapping: Swapping) -> Decided
    requires table { actor.old.table_id ≡ words.now.table_id }
    requires sound { IsSound words.now.table_id.words actor.old.me.0 }
    requires checking { IsAtCheck actor.old.me.0 swapping }
    requires sizes { stock.old.sizes ≡ actor.old.me.0.sizes }
    requires limbo { IsLimbo stock.old.limbo actor.old.me.0 }
    ensures table { actor.new.table_id ≡ actor.old.table_id }
    ensures sound { IsSound words.now.table_id.words actor.new.me.0 }
    ensures same { stock.new ≡ record stock.old { limbo = stock.new.limbo } }
    ensures limbo { IsLimbo stock.new.limbo actor.new.me.0 }
    ensures ended { HasEndedSwap actor.old.me.0 swapping result actor.new.me.0 }
{
    if is_told(words, actor, swapping) {
        end_told(words, actor, stock, swapping)
    } else {
        let later = Swapping { ..swapping };
        end_looking(words, actor, stock, later)
    }
}

/// The SWAP that is under way, on to its end within so many tries. Returns what it comes to; or from where it goes on. What it retires hangs
/// with all else that the seat has retired, and the seat lets go of what it is given.
#[inline(always)]
pub fn swap_on(
    tries: u64,
    words: &Words,
    actor: &mut Actor,
    stock: &mut Stock,
    way: Way,
    swapping: Swapping,
) -> Result<Decided, Swapping>
    requires table { actor.old.table_id ≡ words.now.table_id }
    requires sound { IsSound words.now.table_id.words actor.old.me.0 }
    requires way { IsOnWay actor.old.me.0 way }
    requires swapping { IsSwapLeft actor.old.me.0 swapping }
    requires sizes { stock.old.sizes ≡ actor.old.me.0.sizes }
    requires limbo { IsLimbo stock.old.limbo actor.old.me.0 }
    ensures table { actor.new.table_id ≡ actor.old.table_id }
    ensures sound { IsSound words.now.table_id.words actor.new.me.0 }
    ensures same { stock.new ≡ record stock.old { limbo = stock.new.limbo } }
    ensures limbo { IsLimbo stock.new.limbo actor.new.me.0 }
    ensures done { IfOk result (λ decided. HasDecidedSwap actor.old.me.0 swapping decided actor.new.me.0) }
    ensures on { IfErr result (λ next. HasSwappedOn actor.old.me.0 swapping next actor.new.me.0) }
{
    match end_read_within(
        tries,
        words,
        actor,
        way,
        swapping.indirection,
        swapping.from,
    ) {
        Some(from) => Err(Swapping { from, ..swapping }),
        None => Ok(end_swap(words, actor, stock, swapping)),
    }
}

/// What a SWAP came to whose fresh main node stood there.
fn swapped_by(decided: Decided) -> Swapped
    ensures { result ≡ swapped_by decided }
{
    match decided {
        Decided::Commits(retired) => Swapped::Commits(retired),
        Decided::Fails(retired) => Swapped::Fails(retired),
    }
}

/// The SWAP of the fresh main node in this slot for the one to which this link of the indirection leads, which is in a slot of this class,
/// within so many tries; or what is under way.
#[inline(always)]
pub fn swap_within(
    tries: u64,
    words: &Words,
    actor: &mut Actor,
    stock: &mut Stock,
    way: Way,
    indirection: u32,
    link: Link,
    class: u32,
    fresh: u32,
    drops: Drops,
) -> Result<Swapped, Swapping>
    requires table { actor.old.table_id ≡ words.now.table_id }
    requires sound { IsSound words.now.table_id.words actor.old.me.0 }
    requires way { IsOnWay actor.old.me.0 way }
    requires swapping { IsAtSwap actor.old.me.0 indirection link class fresh }
    requires drops { SwapDrops actor.old.me.0 drops }
    requires sizes { stock.old.sizes ≡ actor.old.me.0.sizes }
    requires limbo { IsLimbo stock.old.limbo actor.old.me.0 }
    ensures table { actor.new.table_id ≡ actor.old.table_id }
    ensures sound { IsSound words.now.table_id.words actor.new.me.0 }
    ensures same { stock.new ≡ record stock.old { limbo = stock.new.limbo } }
    ensures limbo { IsLimbo stock.new.limbo actor.new.me.0 }
    ensures done { IfOk result (λ swapped. HasSwapDone actor.old.me.0 swapped actor.new.me.0) }
    ensures which { IfOk result (RetiresOwn link.main class fresh) }
    ensures holds { IfOk result (λ swapped. HoldsSwapped actor.old.me.0 swapped actor.new.me.0) }
    ensures left { IfErr result (λ left. HasLeftSwap actor.old.me.0 left actor.new.me.0) }
{
    if !publish(words, actor, indirection, link, fresh) {
        return Ok(Swapped::Misses);
    }
    let main = Name {
        slot: fresh,
        own: true,
    };
    let begun = Swapping {
        indirection,
        from: ReadFrom::Header(Link {
            generation: link.generation,
            main,
        }),
        fresh,
        replaced: link.main,
        class,
        drops,
    };
    match swap_on(tries, words, actor, stock, way, begun) {
        Ok(decided) => Ok(swapped_by(decided)),
        Err(next) => Err(next),
    }
}

/// The same SWAP, with what the seat owns: what was made for it is handed over; or it is free again, and the seat lets go of what that named
/// of others. `kept` has the halves of the entries of the main node that is to be replaced where the fresh one names others than these, too,
/// and nothing where it doesn't.
#[inline(always)]
pub fn swap_made_within(
    tries: u64,
    words: &Words,
    actor: &mut Actor,
    stock: &mut Stock,
    way: Way,
    indirection: u32,
    link: Link,
    class: u32,
    fresh: u32,
    drops: Drops,
    kept: &[u32],
) -> Result<Swapped, Swapping>
    requires table { actor.old.table_id ≡ words.now.table_id }
    requires sound { IsSound words.now.table_id.words actor.old.me.0 }
    requires stock { IsStock stock.old actor.old.me.0 }
    requires way { IsOnWay actor.old.me.0 way }
    requires swapping { IsAtSwap actor.old.me.0 indirection link class fresh }
    requires drops { SwapDrops actor.old.me.0 drops }
    requires few { length kept.now ≤ 32 }
    requires kept { KeepsNamed actor.old.me.0 kept.now }
    ensures table { actor.new.table_id ≡ actor.old.table_id }
    ensures sound { IsSound words.now.table_id.words actor.new.me.0 }
    ensures stock { IsStock stock.new actor.new.me.0 }
    ensures done { IfOk result (λ swapped. HasSwapped actor.old.me.0 swapped actor.new.me.0) }
    ensures which { IfOk result (RetiresOwn link.main class fresh) }
    ensures left { IfErr result (λ left. HasLeftSwap actor.old.me.0 left actor.new.me.0) }
{
    match swap_within(
        tries,
        words,
        actor,
        stock,
        way,
        indirection,
        link,
        class,
        fresh,
        drops,
    ) {
        Ok(swapped) => {
            settle_stock(words, actor, stock, swapped, link.main.own, fresh, kept);
            Ok(swapped)
        }
        Err(swapping) => {
            stock.hand_over();
            Err(swapping)
        }
    }
}

/// The same SWAP of a fresh main node that names others than the one that it is to replace: what that one names is seen before.
pub fn swap_seen_within(
    tries: u64,
    words: &Words,
    actor: &mut Actor,
    stock: &mut Stock,
    way: Way,
    indirection: u32,
    link: Link,
    class: u32,
    fresh: u32,
) -> Result<Swapped, Swapping>
    requires table { actor.old.table_id ≡ words.now.table_id }
    requires sound { IsSound words.now.table_id.words actor.old.me.0 }
    requires stock { IsStock stock.old actor.old.me.0 }
    requires way { IsOnWay actor.old.me.0 way }
    requires swapping { IsAtSwap actor.old.me.0 indirection link class fresh }
    ensures table { actor.new.table_id ≡ actor.old.table_id }
    ensures sound { IsSound words.now.table_id.words actor.new.me.0 }
    ensures stock { IsStock stock.new actor.new.me.0 }
    ensures done { IfOk result (λ swapped. HasSwapped actor.old.me.0 swapped actor.new.me.0) }
    ensures which { IfOk result (RetiresOwn link.main class fresh) }
    ensures left { IfErr result (λ left. HasLeftSwap actor.old.me.0 left actor.new.me.0) }
{
    let mut kept = ArrayVec::new();
    see_taken(words, actor, link.main, &mut kept);
    swap_made_within(
        tries,
        words,
        actor,
        stock,
        way,
        indirection,
        link,
        class,
        fresh,
        Drops::Others,
        &kept,
    )
}
