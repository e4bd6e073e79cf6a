//! Exchanges of nodes' words.

ghost use Rattle.std.specs.Prelude.{◌≡◌};
ghost use Rattle.trie_words.specs.Codes.{IsHeader, IsLink, IsName};
ghost use Rattle.lock_free.specs.Loading.{IsSound};
ghost use Rattle.lock_free.specs.Exchanging.{decided_header, IsAtDecide, HasDecided, IsAtRestore, HasRestored};
ghost use Rattle.lock_free.specs.SwappingIn.{IsAtPublish, HasPublished};

use crate::loads::{Actor, Words};
use crate::rules::{Goes, Publishes};
use trie_words::{Header, Link, Name, Previous};

/// The header of a pending main node, decided.
#[inline(always)]
fn once_decided(header: Header, is_licensed: bool) -> Header
    ensures { result ≡ decided_header is_licensed header }
{
    let previous = match header.previous {
        _ if is_licensed => Previous::None,
        Previous::Pending(name) => Previous::Failed(name),
        other => other,
    };
    Header {
        previous,
        shape: header.shape,
    }
}

/// Decides the main node in this slot, if it is pending still and this is its header: with a licence it is committed, without one
/// it fails. Returns whether it was pending still.
#[inline(always)]
pub fn decide(
    words: &Words,
    actor: &mut Actor,
    main: u32,
    header: Header,
    is_licensed: bool,
) -> bool
    requires table { actor.old.table_id ≡ words.now.table_id }
    requires sound { IsSound words.now.table_id.words actor.old.me.0 }
    requires fits { IsHeader header }
    requires deciding { IsAtDecide actor.old.me.0 main header is_licensed }
    ensures table { actor.new.table_id ≡ actor.old.table_id }
    ensures sound { IsSound words.now.table_id.words actor.new.me.0 }
    ensures decided { HasDecided actor.old.me.0 result actor.new.me.0 }
{
    let pending = header.to_word();
    let decided = once_decided(header, is_licensed).to_word();
    words.compare_exchange::<Goes>(actor, 2 * main as usize, pending, decided) == pending
}

/// Puts the main node of this name back in the place of the failed one to which this link of the indirection leads, if that one
/// stands there still. Returns whether it did.
pub fn restore(words: &Words, actor: &mut Actor, indirection: u32, link: Link, former: Name) -> bool
    requires table { actor.old.table_id ≡ words.now.table_id }
    requires sound { IsSound words.now.table_id.words actor.old.me.0 }
    requires fits { IsLink link }
    requires named { IsName former }
    requires restoring { IsAtRestore actor.old.me.0 indirection link former }
    ensures table { actor.new.table_id ≡ actor.old.table_id }
    ensures sound { IsSound words.now.table_id.words actor.new.me.0 }
    ensures restored { HasRestored actor.old.me.0 result actor.new.me.0 }
{
    let failed = link.to_word();
    let restored = Link {
        generation: link.generation,
        main: former,
    }
    .to_word();
    words.compare_exchange::<Goes>(actor, 2 * indirection as usize, failed, restored) == failed
}

/// Swaps the fresh main node in this slot in, in the place of the one to which this link of the indirection leads, if that one
/// stands there still: else the operation gives up all that it has made, and the seat holds what these nodes held of others. Returns
/// whether it stood there.
#[inline(always)]
pub fn publish(words: &Words, actor: &mut Actor, indirection: u32, link: Link, fresh: u32) -> bool
    requires table { actor.old.table_id ≡ words.now.table_id }
    requires sound { IsSound words.now.table_id.words actor.old.me.0 }
    requires fits { IsLink link }
    requires publishing { IsAtPublish actor.old.me.0 indirection link fresh }
    ensures table { actor.new.table_id ≡ actor.old.table_id }
    ensures sound { IsSound words.now.table_id.words actor.new.me.0 }
    ensures published { HasPublished actor.old.me.0 result actor.new.me.0 }
{
    let before = link.to_word();
    let swapped = Link {
        generation: link.generation,
        main: Name {
            slot: fresh,
            own: true,
        },
    }
    .to_word();
    words.compare_exchange::<Publishes>(actor, 2 * indirection as usize, before, swapped) == before
}
