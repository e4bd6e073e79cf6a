//! Two singles whose paths part below the place where one of them stood.

ghost use Rattle.std.specs.Prelude.{◌≡◌};
ghost use Rattle.nodes.specs.Builders.{by_index, pair, rung};
ghost use Rattle.nodes.specs.Contents.{HasPairs, HasContent};

use crate::entries::all_of;
use crate::levels::{flag_of, index_in, list_depth};
use slot_arena::{HashKind, Node, Ref};

/// The main node of both, at the depth where they part: a branch, and below all levels a list, the older one
/// first.
pub fn dual(kind: HashKind, depth: usize, old_hash: u64, hash: u64, old: Ref, single: Ref) -> Node
    ensures node { result ≡ pair kind depth old_hash hash old single }
    ensures content { HasPairs old single result }
{
    if depth == list_depth(kind) {
        return Node::List {
            singles: all_of(&[old, single]),
        };
    }
    let both = by_index(
        index_in(old_hash, depth),
        index_in(hash, depth),
        old,
        single,
    );
    Node::Branch {
        bitmap: flag_of(old_hash, depth) | flag_of(hash, depth),
        entries: all_of(&both),
    }
}

/// The branch of one entry on the way down to it, at a depth above that.
pub fn rung(hash: u64, depth: usize, below: Ref) -> Node
    ensures node { result ≡ rung hash depth below }
    ensures content { HasContent below result }
{
    Node::Branch {
        bitmap: flag_of(hash, depth),
        entries: all_of(&[below]),
    }
}

/// The two references by the rising index of what they refer to.
fn by_index(first_index: u32, other_index: u32, first: Ref, other: Ref) -> [Ref; 2]
    ensures { result ≡ by_index first_index other_index first other }
{
    if first_index < other_index {
        [first, other]
    } else {
        [other, first]
    }
}
