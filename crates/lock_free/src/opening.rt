//! The words of a new map, and seats at them.

ghost use Rattle.std.specs.Prelude.{◌≡◌, ◌<◌, [], IfOk, IfErr, OnOk};
ghost use Rattle.lock_free.specs.Loading.{IsSound};
ghost use Rattle.lock_free.specs.Opening.{first_words, Refuses};
ghost use Rattle.lock_free.specs.Places.{AreSizes, words_of};
ghost use Rattle.lock_free.specs.FirstViews.{first_view};
ghost use Rattle.lock_free.specs.Splitting.{of_last, without_last};

use crate::handles::root_word_of;
use crate::loads::{Actor, Words};
use crate::rules::{Parts, Rule, View};
use crate::sizes::Sizes;
use crate::stores::{GENERATION, taken_word_of};
use atomic_table::Table;
use history::Call;
use std::alloc::{AllocError, Global};
use trie_words::{Link, Name, RootWord};

/// The words of a map, with their memory.
pub type Board = Table<Call, View, Sizes, Rule, Global>;

/// Why a map wasn't opened. Nothing is made then.
#[derive(Clone, Copy, Debug, PartialEq, Eq)]
pub enum OpenError {
    /// There are no seats, fewer than two small slots, or more than 2^28 words.
    BadSizes,
    /// An allocation failed.
    Memory,
}

/// A map of these sizes, whose handle 0 is writable and empty, and the seat of all its actors.
pub fn open(alloc: Global, sizes: Sizes) -> Result<(Board, Actor), OpenError>
    ensures board { IfOk result (λ made. (made.0.shared.table_id.words ≡ words_of sizes) × (made.0.shared.table_id.slots ≡ 0) × (made.0.shared.key ≡ sizes)) }
    ensures actor { IfOk result (λ made. (made.1.table_id ≡ made.0.shared.table_id) × (made.1.me ≡ (first_view sizes, []))) }
    ensures sound { IfOk result (λ made. IsSound made.0.shared.table_id.words made.1.me.0) }
    ensures in_range { OnOk result (AreSizes sizes) }
    ensures refused { IfErr result (λ error. Refuses sizes error) }
{
    if !sizes.are_in_range() {
        return Err(OpenError::BadSizes);
    }
    let Ok(words) = words_for(alloc, &sizes) else {
        return Err(OpenError::Memory);
    };
    match Table::of_words(alloc, words.as_slice(), &sizes) {
        Ok(made) => Ok(made),
        Err(_) => Err(OpenError::Memory),
    }
}

/// The first words: of the small slots the first one has an empty branch, whose header is 0, and the next one the root over it.
fn words_for(alloc: Global, sizes: &Sizes) -> Result<Vec<u64>, AllocError>
    requires { AreSizes sizes.now }
    ensures { IfOk result (λ words. words.items ≡ first_words sizes.now) }
{
    let branch = sizes.slot(0, 0);
    let root = sizes.slot(0, 1);
    let link = Link {
        generation: 0,
        main: Name {
            slot: branch,
            own: true,
        },
    };
    let mut words = Vec::from_elem(alloc, 0, sizes.words() as usize)?;
    words[GENERATION] = 1;
    words[taken_word_of(0)] = 2;
    words[root_word_of(0)] = RootWord::Writable(root).to_word();
    words[2 * root as usize] = link.to_word();
    Ok(words)
}

/// A seat for another thread, which gets the last of this seat's actors.
pub fn split(words: &Words, actor: &mut Actor) -> Actor
    requires table { actor.old.table_id ≡ words.now.table_id }
    requires sound { IsSound words.now.table_id.words actor.old.me.0 }
    requires more { actor.old.me.0.actor < actor.old.me.0.last }
    ensures table { (actor.new.table_id ≡ actor.old.table_id) × (result.table_id ≡ actor.old.table_id) }
    ensures sound { IsSound words.now.table_id.words actor.new.me.0 × IsSound words.now.table_id.words result.me.0 }
    ensures left { actor.new.me ≡ (without_last actor.old.me.0, actor.old.me.1) }
    ensures right { result.me ≡ (of_last actor.old.me.0, []) }
{
    words.split_seat::<Parts>(actor)
}
