//! What the outcome of its own offer gives to the seat of a copy, which lets go of it.

ghost use Rattle.std.specs.Prelude.{◌≡◌, Bool};
ghost use Rattle.machine_model.specs.Beneath.slot_arena.specs.declared.refs.Ref.{Ref as ARef};
ghost use Rattle.lock_free.specs.declared.reclaiming.Kind.TheVariants as kinds;
ghost use Rattle.lock_free.specs.CopyGifts.{main_given, root_given, MayLetGo, SawEmpty, SawExpected, SawMain};
ghost use Rattle.lock_free.specs.Limbos.{IsLimbo};
ghost use Rattle.lock_free.specs.Loading.{IsSound};
ghost use Rattle.lock_free.specs.Outcomes.{IsConcluding};
ghost use Rattle.lock_free.specs.Places.{small_class};
ghost use Rattle.lock_free.specs.Raising.{HasReleasedAll};
ghost use Rattle.lock_free.specs.RootWords.{KnowsOffer};

use crate::copy_roots::CopyKind;
use crate::loads::{Actor, Words, see_indirection, see_main};
use crate::makes::class_of;
use crate::offers::{see_news, see_olds};
use crate::raising::release;
use crate::reclaiming::Kind;
use crate::stock::Stock;

/// The main node over which an operation has made the roots of a copy.
#[derive(Clone, Copy, Drop)]
pub struct CopyMain {
    /// The class of its slot.
    pub class: u32,
    /// The slot.
    pub slot: u32,
}

/// The main node that the seat's own offer in this slot expects.
fn see_expected(words: &Words, actor: &mut Actor, offer: u32) -> CopyMain
    requires table { actor.old.table_id ≡ words.now.table_id }
    requires sound { IsSound words.now.table_id.words actor.old.me.0 }
    requires known { KnowsOffer actor.old.me.0 offer }
    requires concluding { (expected : Bool) × IsConcluding actor.old.me.0 offer expected }
    ensures table { actor.new.table_id ≡ actor.old.table_id }
    ensures sound { IsSound words.now.table_id.words actor.new.me.0 }
    ensures saw { SawExpected actor.old.me.0 result actor.new.me.0 }
{
    let slot = see_olds(words, actor, offer).high;
    let header = see_main(words, actor, slot);
    CopyMain {
        class: class_of(header.shape),
        slot,
    }
}

/// The main node over which a clear has made the root of its offer in this slot.
fn see_empty(words: &Words, actor: &mut Actor, offer: u32) -> CopyMain
    requires table { actor.old.table_id ≡ words.now.table_id }
    requires sound { IsSound words.now.table_id.words actor.old.me.0 }
    requires known { KnowsOffer actor.old.me.0 offer }
    requires concluding { (expected : Bool) × IsConcluding actor.old.me.0 offer expected }
    ensures table { actor.new.table_id ≡ actor.old.table_id }
    ensures sound { IsSound words.now.table_id.words actor.new.me.0 }
    ensures saw { SawEmpty actor.old.me.0 result actor.new.me.0 }
{
    let root = see_news(words, actor, offer).low;
    let link = see_indirection(words, actor, root);
    CopyMain {
        class: 0,
        slot: link.main.slot,
    }
}

/// The main node over which such a copy has made the roots of the seat's own offer in this slot.
pub fn see_copy_main(words: &Words, actor: &mut Actor, which: CopyKind, offer: u32) -> CopyMain
    requires table { actor.old.table_id ≡ words.now.table_id }
    requires sound { IsSound words.now.table_id.words actor.old.me.0 }
    requires known { KnowsOffer actor.old.me.0 offer }
    requires concluding { (expected : Bool) × IsConcluding actor.old.me.0 offer expected }
    ensures table { actor.new.table_id ≡ actor.old.table_id }
    ensures sound { IsSound words.now.table_id.words actor.new.me.0 }
    ensures saw { SawMain actor.old.me.0 which result actor.new.me.0 }
{
    match which {
        CopyKind::Clear => see_empty(words, actor, offer),
        CopyKind::Snapshot => see_expected(words, actor, offer),
        CopyKind::Freeze => see_expected(words, actor, offer),
    }
}

/// Lets go of the old root in this slot, which such a copy has replaced. The handle that a freeze opens holds it.
pub fn release_root(words: &Words, actor: &mut Actor, stock: &mut Stock, which: CopyKind, root: u32)
    requires table { actor.old.table_id ≡ words.now.table_id }
    requires sound { IsSound words.now.table_id.words actor.old.me.0 }
    requires sizes { stock.old.sizes ≡ actor.old.me.0.sizes }
    requires limbo { IsLimbo stock.old.limbo actor.old.me.0 }
    requires given { (k : ARef) × MayLetGo actor.old.me.0 k kinds.Indirection small_class root (root_given which k) }
    ensures table { actor.new.table_id ≡ actor.old.table_id }
    ensures sound { IsSound words.now.table_id.words actor.new.me.0 }
    ensures same { stock.new ≡ record stock.old { limbo = stock.new.limbo } }
    ensures limbo { IsLimbo stock.new.limbo actor.new.me.0 }
    ensures released { (k : ARef) → MayLetGo actor.old.me.0 k kinds.Indirection small_class root (root_given which k) → HasReleasedAll actor.old.me.0 (root_given which k) actor.new.me.0 }
{
    match which {
        CopyKind::Clear => release(words, actor, stock, Kind::Indirection, 0, root),
        CopyKind::Snapshot => release(words, actor, stock, Kind::Indirection, 0, root),
        CopyKind::Freeze => {}
    }
}

/// Lets go of the main node over which such a copy has made its roots, once for each of them.
pub fn release_main(
    words: &Words,
    actor: &mut Actor,
    stock: &mut Stock,
    which: CopyKind,
    main: CopyMain,
)
    requires table { actor.old.table_id ≡ words.now.table_id }
    requires sound { IsSound words.now.table_id.words actor.old.me.0 }
    requires sizes { stock.old.sizes ≡ actor.old.me.0.sizes }
    requires limbo { IsLimbo stock.old.limbo actor.old.me.0 }
    requires given { (k : ARef) × MayLetGo actor.old.me.0 k kinds.Main main.class main.slot (main_given which k) }
    ensures table { actor.new.table_id ≡ actor.old.table_id }
    ensures sound { IsSound words.now.table_id.words actor.new.me.0 }
    ensures same { stock.new ≡ record stock.old { limbo = stock.new.limbo } }
    ensures limbo { IsLimbo stock.new.limbo actor.new.me.0 }
    ensures released { (k : ARef) → MayLetGo actor.old.me.0 k kinds.Main main.class main.slot (main_given which k) → HasReleasedAll actor.old.me.0 (main_given which k) actor.new.me.0 }
{
    release(words, actor, stock, Kind::Main, main.class, main.slot);
    match which {
        CopyKind::Snapshot => { release(words, actor, stock, Kind::Main, main.class, main.slot) }
        CopyKind::Clear => {}
        CopyKind::Freeze => {}
    }
}
