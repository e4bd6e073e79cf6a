//! A seat that is alone looks at nodes to which handles lead.

ghost use Rattle.std.specs.Prelude.{◌≡◌, ◌<◌, length, true};
ghost use Rattle.machine_model.specs.Beneath.slot_arena.specs.declared.nodes.Slot.{Slot as Standing};
ghost use Rattle.machine_model.specs.Beneath.slot_arena.specs.declared.refs.Ref.{Ref as ARef};
ghost use Rattle.machine_model.specs.Beneath.slot_arena.specs.Heaps.{entries_of};
ghost use Rattle.proof_memory.specs.Wants.{is_branch_or_list};
ghost use Rattle.lock_free.specs.Alone.{IsAlone};
ghost use Rattle.lock_free.specs.Loading.{IsSound};
ghost use Rattle.lock_free.specs.SeatWords.{IsIdle};
ghost use Rattle.lock_free.specs.Watching.{has_watched, HasWatchedEntry, HasWatchedHeader, HasWatchedLink, IsLed, IsLedIn};

use crate::loads::{Actor, Words};
use crate::rules::View;
use atomic_table::Play;
use history::Call;
use trie_words::{Entry, Header, Link, Pair};

/// Something is looked at by a seat that may be alone.
pub struct Watches;

impl Play<Call, View> for Watches {
    ghost then = { has_watched };
}

/// The slot of the main node of the indirection in this slot.
pub fn watch_link(words: &Words, actor: &mut Actor, indirection: u32) -> u32
    requires table { actor.old.table_id ≡ words.now.table_id }
    requires sound { IsSound words.now.table_id.words actor.old.me.0 }
    requires alone { IsAlone actor.old.me.0 }
    requires idle { IsIdle actor.old.me.0 }
    requires led { IsLedIn actor.old.me.0 indirection }
    ensures table { actor.new.table_id ≡ actor.old.table_id }
    ensures sound { IsSound words.now.table_id.words actor.new.me.0 }
    ensures seen { HasWatchedLink actor.old.me.0 indirection result actor.new.me.0 }
{
    Link::of_word(words.load::<Watches>(actor, 2 * indirection as usize))
        .main
        .slot
}

/// The header of the main node in this slot.
pub fn watch_header(words: &Words, actor: &mut Actor, main: u32) -> Header
    requires table { actor.old.table_id ≡ words.now.table_id }
    requires sound { IsSound words.now.table_id.words actor.old.me.0 }
    requires alone { IsAlone actor.old.me.0 }
    requires idle { IsIdle actor.old.me.0 }
    requires led { IsLedIn actor.old.me.0 main }
    ensures table { actor.new.table_id ≡ actor.old.table_id }
    ensures sound { IsSound words.now.table_id.words actor.new.me.0 }
    ensures seen { HasWatchedHeader actor.old.me.0 main result actor.new.me.0 }
{
    Header::of_word(words.load::<Watches>(actor, 2 * main as usize))
}

/// The entry at this position of the branch or list in this slot.
pub fn watch_entry(words: &Words, actor: &mut Actor, main: u32, position: u32) -> Entry
    requires table { actor.old.table_id ≡ words.now.table_id }
    requires sound { IsSound words.now.table_id.words actor.old.me.0 }
    requires alone { IsAlone actor.old.me.0 }
    requires idle { IsIdle actor.old.me.0 }
    requires led { (r : ARef) × (slot : Standing) × IsLed actor.old.me.0 r slot main × (is_branch_or_list slot.node ≡ true) × (position < length (entries_of slot.node)) × (position < 32) }
    ensures table { actor.new.table_id ≡ actor.old.table_id }
    ensures sound { IsSound words.now.table_id.words actor.new.me.0 }
    ensures seen { HasWatchedEntry actor.old.me.0 main position result actor.new.me.0 }
{
    let pair = Pair::of_word(words.load::<Watches>(
        actor,
        2 * main as usize + 1 + position as usize / 2,
    ));
    if position % 2 == 0 {
        Entry::of_half(pair.low)
    } else {
        Entry::of_half(pair.high)
    }
}
