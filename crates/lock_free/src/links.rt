//! Slots that a seat has retired are linked with each other, by the low halves of the words of their counts.

ghost use Rattle.std.specs.Prelude.{◌≡◌, ◌<◌, Contains};
ghost use Rattle.lock_free.specs.Cells.{loose_link};
ghost use Rattle.lock_free.specs.Linking.{linking, HasRetiredSlot};
ghost use Rattle.lock_free.specs.Links.{link_in};
ghost use Rattle.lock_free.specs.Loading.{IsSound};
ghost use Rattle.lock_free.specs.Places.{count_word, IsSlot};

use crate::loads::{Actor, Words};
use crate::rules::{Links, SeesLink};
use crate::sizes::Sizes;

/// So many links there can be.
const LINKS: u64 = 1 << 32;

/// From this one on a link says that its slot is loose; it leads then where what it is more leads.
pub(crate) const LOOSE: u32 = 1 << 31;

/// The link in the word of a count.
#[inline(always)]
pub(crate) fn link_in(count: u64) -> u32
    ensures { result ≡ link_in count }
{
    (count % LINKS) as u32
}

/// Looks at the link of a slot that the seat has retired. From then on the seat knows it.
#[inline(always)]
pub fn see_link(words: &Words, actor: &mut Actor, sizes: &Sizes, class: u32, slot: u32) -> u32
    requires table { actor.old.table_id ≡ words.now.table_id }
    requires sound { IsSound words.now.table_id.words actor.old.me.0 }
    requires sizes { actor.old.me.0.sizes ≡ sizes.now }
    requires class { class < 3 }
    requires slot { IsSlot sizes.now class slot }
    requires retired { HasRetiredSlot actor.old.me.0 class slot }
    ensures table { actor.new.table_id ≡ actor.old.table_id }
    ensures sound { IsSound words.now.table_id.words actor.new.me.0 }
    ensures seen { actor.new.me.0 ≡ linking actor.old.me.0 (count_word sizes.now class slot) result }
{
    link_in(words.load::<SeesLink>(actor, sizes.count_word(class, slot)))
}

/// Makes another link of the one that the seat knows of a slot that it has retired. The slot's count stays what it is, whoever changes it
/// at this time.
#[inline(always)]
pub fn link(
    words: &Words,
    actor: &mut Actor,
    sizes: &Sizes,
    class: u32,
    slot: u32,
    known: u32,
    new: u32,
)
    requires table { actor.old.table_id ≡ words.now.table_id }
    requires sound { IsSound words.now.table_id.words actor.old.me.0 }
    requires sizes { actor.old.me.0.sizes ≡ sizes.now }
    requires class { class < 3 }
    requires slot { IsSlot sizes.now class slot }
    requires known { Contains actor.old.me.0.links (count_word sizes.now class slot, known) }
    requires new { new < loose_link }
    ensures table { actor.new.table_id ≡ actor.old.table_id }
    ensures sound { IsSound words.now.table_id.words actor.new.me.0 }
    ensures linked { actor.new.me.0 ≡ linking actor.old.me.0 (count_word sizes.now class slot) new }
{
    let change = u64::from(new).wrapping_sub(u64::from(known));
    words.fetch_add::<Links>(actor, sizes.count_word(class, slot), change);
}
