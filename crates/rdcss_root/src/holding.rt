//! References that are held from outside the slots, for what stands in root words.

ghost use Rattle.std.specs.Prelude.{◌+◌, ◌<◌, ◌^◌, ℕ, length};
ghost use Rattle.rdcss_root.specs.Beneath.slot_arena.specs.Times.{times};
ghost use Rattle.rdcss_root.specs.Beneath.slot_arena.specs.Arenas.{AreLive};
ghost use Rattle.rdcss_root.specs.Beneath.machine_model.specs.Counting.{refs_of_word, refs_of_root};
ghost use Rattle.trie_parts.specs.Holding.{AreHeld};
ghost use Rattle.rdcss_root.specs.Holding.{HoldsMore, Releases};

use trie_parts::{Heap, Ref, Root, RootWord};

/// Holds each of these references once more.
fn hold_all(heap: &mut Heap, refs: &[Ref])
    requires live { AreLive heap.old.heap refs.now }
    requires room { (r : ℕ) → times r heap.old.outside + length refs.now < 2 ^ 31 }
    ensures { HoldsMore refs.now heap.old heap.new }
{
    for at in refs {
        heap.hold(*at);
    }
}

/// Releases each of these references once.
fn release_all(heap: &mut Heap, refs: &[Ref])
    requires { AreHeld refs.now heap.old }
    ensures { Releases refs.now heap.old heap.new }
{
    trie_parts::release_all(heap, refs);
}

fn hold_word(heap: &mut Heap, word: RootWord)
    requires live { AreLive heap.old.heap (refs_of_word word) }
    requires room { (r : ℕ) → times r heap.old.outside + 4 < 2 ^ 31 }
    ensures { HoldsMore (refs_of_word word) heap.old heap.new }
{
    match word {
        RootWord::Plain(root) => hold_all(heap, &[root]),
        RootWord::Offer(offer) => match offer.second {
            None => hold_all(heap, &[offer.root, offer.expected, offer.successor]),
            Some(second) => hold_all(heap, &[offer.root, offer.expected, offer.successor, second]),
        },
    }
}

fn release_word(heap: &mut Heap, word: RootWord)
    requires { AreHeld (refs_of_word word) heap.old }
    ensures { Releases (refs_of_word word) heap.old heap.new }
{
    match word {
        RootWord::Plain(root) => release_all(heap, &[root]),
        RootWord::Offer(offer) => match offer.second {
            None => release_all(heap, &[offer.root, offer.expected, offer.successor]),
            Some(second) => release_all(
                heap,
                &[offer.root, offer.expected, offer.successor, second],
            ),
        },
    }
}

/// Holds what stands in the root word of a handle, if it is open.
pub(crate) fn hold_root(heap: &mut Heap, root: &Option<Root>)
    requires live { AreLive heap.old.heap (refs_of_root root.now) }
    requires room { (r : ℕ) → times r heap.old.outside + 4 < 2 ^ 31 }
    ensures { HoldsMore (refs_of_root root.now) heap.old heap.new }
{
    if let Some(root) = root {
        hold_word(heap, root.word);
    }
}

/// Releases what stands in the root word of a handle, if it is open.
pub(crate) fn release_root(heap: &mut Heap, root: &Option<Root>)
    requires { AreHeld (refs_of_root root.now) heap.old }
    ensures { Releases (refs_of_root root.now) heap.old heap.new }
{
    if let Some(root) = root {
        release_word(heap, root.word);
    }
}
