//! Slots are retired, and become free again.

ghost use Rattle.std.specs.Prelude.{◌≡◌, ◌<◌, Bool};
ghost use Rattle.machine_model.specs.Beneath.slot_arena.specs.declared.refs.Ref.{Ref as ARef};
ghost use Rattle.lock_free.specs.Accounts.{place_of, IsOwn};
ghost use Rattle.lock_free.specs.Loading.{IsSound};
ghost use Rattle.lock_free.specs.Places.{IsSlot};
ghost use Rattle.lock_free.specs.Reclaiming.{HasCheckedSwap, HasReclaimed, IsChecking, IsRipe, is_decided, is_ripe, retiree_of};

use crate::links::link_in;
use crate::loads::{Actor, Words};
use crate::makes::class_of;
use crate::rules::{Reclaims, Retires};
use crate::sizes::Sizes;
use trie_words::{Header, Name, Previous};

/// So often the epoch grows until a slot that was retired may be free again.
const GRACE: u64 = 3;

/// What a seat has retired.
#[derive(Clone, Copy, Default, Drop)]
pub enum Kind {
    /// A main node that was an indirection's own and was replaced: it holds nothing any more.
    #[default]
    Replaced,
    /// A single to which there is no reference any more.
    Single,
    /// An indirection to which there is none: it holds its main node.
    Indirection,
    /// A main node to which there is none: it holds what it names.
    Main,
}

/// A slot that a seat has retired, whose node was replaced.
#[derive(Clone, Copy, Drop)]
pub struct Retiree {
    /// Its class, below 3.
    pub class: u32,
    /// The slot.
    pub slot: u32,
}

/// What a SWAP comes to whose fresh main node stood there.
#[derive(Clone, Copy, Drop)]
pub enum Decided {
    /// It was committed. The seat has retired this slot, which is that of the one before, if that was the indirection's own.
    Commits(Option<Retiree>),
    /// It was refused. The seat has retired its slot.
    Fails(Retiree),
}

/// What the end of a SWAP retires that was committed over the main node of this name, in a slot of this class: that slot, if the main
/// node was the indirection's own.
pub fn retiree_of(replaced: Name, class: u32) -> Option<Retiree>
    ensures { result ≡ retiree_of replaced class }
{
    if replaced.own {
        Some(Retiree {
            class,
            slot: replaced.slot,
        })
    } else {
        None
    }
}

/// Whether the epoch has grown so often since this one.
pub(crate) fn is_ripe(epoch: u64, stamp: u64) -> bool
    ensures { result ≡ is_ripe epoch stamp }
{
    epoch >= GRACE && epoch - GRACE >= stamp
}

/// Makes a slot that the seat has retired free for it again, once the epoch that it has seen is later by three: then no call is on its
/// node any more. Returns its link.
pub fn reclaim(words: &Words, actor: &mut Actor, sizes: &Sizes, class: u32, slot: u32) -> u32
    requires table { actor.old.table_id ≡ words.now.table_id }
    requires sound { IsSound words.now.table_id.words actor.old.me.0 }
    requires sizes { actor.old.me.0.sizes ≡ sizes.now }
    requires class { class < 3 }
    requires slot { IsSlot sizes.now class slot }
    requires ripe { IsRipe actor.old.me.0 class slot }
    ensures table { actor.new.table_id ≡ actor.old.table_id }
    ensures sound { IsSound words.now.table_id.words actor.new.me.0 }
    ensures reclaimed { HasReclaimed actor.old.me.0 class slot result actor.new.me.0 }
{
    link_in(words.load::<Reclaims>(actor, sizes.count_word(class, slot)))
}

/// Whether a main node whose header says this of it is decided.
pub(crate) fn is_decided(previous: Previous) -> bool
    ensures { result ≡ is_decided previous }
{
    match previous {
        Previous::None => true,
        Previous::Pending(_) => false,
        Previous::Failed(_) => false,
    }
}

/// The last step of a SWAP of the fresh main node in this slot for the one of this name, which is in a slot of this class. Returns whether
/// it was committed, with the slot that the seat has retired. The seat holds then what the retired node held itself, or, where it was
/// committed over one that isn't the indirection's own, the reference to that one.
#[inline(always)]
pub fn check_swap(
    words: &Words,
    actor: &mut Actor,
    fresh: u32,
    replaced: Name,
    class: u32,
) -> Decided
    requires table { actor.old.table_id ≡ words.now.table_id }
    requires sound { IsSound words.now.table_id.words actor.old.me.0 }
    requires checking { (i : ARef) × (m : ARef) × (f : ARef) × IsChecking actor.old.me.0 i m f × IsOwn actor.old.me.0.account i m replaced.own × (place_of actor.old.me.0.account f ≡ fresh) }
    ensures table { actor.new.table_id ≡ actor.old.table_id }
    ensures sound { IsSound words.now.table_id.words actor.new.me.0 }
    ensures checked { (i m f : ARef) → IsChecking actor.old.me.0 i m f → IsOwn actor.old.me.0.account i m replaced.own →
        HasCheckedSwap actor.old.me.0 m f replaced class fresh result actor.new.me.0 }
{
    let header = Header::of_word(words.load::<Retires>(actor, 2 * fresh as usize));
    if is_decided(header.previous) {
        Decided::Commits(retiree_of(replaced, class))
    } else {
        Decided::Fails(Retiree {
            class: class_of(header.shape),
            slot: fresh,
        })
    }
}
