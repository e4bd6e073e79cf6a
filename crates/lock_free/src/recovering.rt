//! A seat that is alone makes each slot free for it to which no open handle leads.

ghost use Rattle.std.specs.Prelude.{◌≡◌, ◌<◌, ℕ};
ghost use Rattle.lock_free.specs.Alone.{has_recovered, has_seen_plain, is_plain, AreMarks, HasRecovered, HasSeenPlainWord, HaveReferences, IsAlone, IsByItself, Marks};
ghost use Rattle.lock_free.specs.Loading.{IsSound};
ghost use Rattle.lock_free.specs.Seated.{IsResting};
ghost use Rattle.lock_free.specs.Watching.{HasSeenAllPlain};

use crate::call_runs::HANDLES;
use crate::handles::root_word_of;
use crate::loads::{Actor, Words};
use crate::rules::View;
use crate::stores::taken_word_of;
use atomic_table::Play;
use history::Call;
use trie_words::RootWord;

/// All slots of a class to which no handle leads are free for the seat that is alone.
pub struct Recovers;

impl Play<Call, View> for Recovers {
    ghost then = { has_recovered };
}

/// The word of a handle is looked at, of which the seat that is alone knows then whether it names an offer.
pub struct SeesPlain;

impl Play<Call, View> for SeesPlain {
    ghost then = { has_seen_plain };
}

/// The word of a handle. If it names no offer, the seat, which is alone, knows so until an operation begins.
pub fn see_plain(words: &Words, actor: &mut Actor, handle: u16) -> RootWord
    requires table { actor.old.table_id ≡ words.now.table_id }
    requires sound { IsSound words.now.table_id.words actor.old.me.0 }
    requires low { handle < 256 }
    requires alone { IsAlone actor.old.me.0 }
    requires rests { IsResting actor.old.me.0 }
    ensures table { actor.new.table_id ≡ actor.old.table_id }
    ensures sound { IsSound words.now.table_id.words actor.new.me.0 }
    ensures seen { HasSeenPlainWord actor.old.me.0 handle result actor.new.me.0 }
{
    RootWord::of_word(words.load::<SeesPlain>(actor, root_word_of(handle)))
}

/// Whether the word of a handle names no offer.
fn is_plain(word: RootWord) -> bool
    ensures { result ≡ is_plain word }
{
    match word {
        RootWord::Offered(_) => false,
        RootWord::Opening(_) => false,
        RootWord::Closed => true,
        RootWord::Reserved => true,
        RootWord::Writable(_) => true,
        RootWord::ReadOnly(_) => true,
        RootWord::ClosingWritable { .. } => true,
        RootWord::ClosingReadOnly { .. } => true,
    }
}

/// Looks at the words of all handles. Returns whether none of them names an offer.
pub fn see_all_plain(words: &Words, actor: &mut Actor) -> bool
    requires table { actor.old.table_id ≡ words.now.table_id }
    requires sound { IsSound words.now.table_id.words actor.old.me.0 }
    requires alone { IsAlone actor.old.me.0 }
    requires rests { IsResting actor.old.me.0 }
    ensures table { actor.new.table_id ≡ actor.old.table_id }
    ensures sound { IsSound words.now.table_id.words actor.new.me.0 }
    ensures seen { HasSeenAllPlain actor.old.me.0 result actor.new.me.0 }
{
    for handle in 0..HANDLES {
        if !is_plain(see_plain(words, actor, handle)) {
            return false;
        }
    }
    true
}

/// Makes all slots of this class free for the seat that were handed out and that aren't marked: just those are marked to which handles
/// lead, and the count of each other one says that there is a reference, as that of every free slot does. Returns how many were handed out.
pub fn recover(words: &Words, actor: &mut Actor, class: u32) -> u64
    requires table { actor.old.table_id ≡ words.now.table_id }
    requires sound { IsSound words.now.table_id.words actor.old.me.0 }
    requires class { class < 3 }
    requires alone { IsByItself actor.old.me.0 }
    requires marks { (marks : Marks) × AreMarks actor.old.me.0 class marks × HaveReferences actor.old.me.0 class marks }
    ensures table { actor.new.table_id ≡ actor.old.table_id }
    ensures sound { IsSound words.now.table_id.words actor.new.me.0 }
    ensures recovered { (marks : Marks) → AreMarks actor.old.me.0 class marks → HasRecovered actor.old.me.0 class marks result actor.new.me.0 }
{
    words.load::<Recovers>(actor, taken_word_of(class))
}
