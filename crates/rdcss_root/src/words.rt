//! What a root word holds.

ghost use Rattle.std.specs.Prelude.{◌≡◌};
ghost use Rattle.rdcss_root.specs.Beneath.machine_model.specs.Swapping.{is_try, stands_in, is_plain};

use trie_parts::{Descriptor, Ref, RootWord};

/// Whether this offer stands in the root word.
pub(crate) fn stands_in(word: RootWord, offer: &Descriptor) -> bool
    ensures { result ≡ stands_in word offer.now }
{
    match word {
        RootWord::Plain(_) => false,
        RootWord::Offer(other) => {
            other.operation == offer.operation && other.attempt == offer.attempt
        }
    }
}

/// Whether this root stands in the root word, with no offer.
pub(crate) fn is_plain(word: RootWord, root: Ref) -> bool
    ensures { result ≡ is_plain word root }
{
    match word {
        RootWord::Plain(other) => other == root,
        RootWord::Offer(_) => false,
    }
}
