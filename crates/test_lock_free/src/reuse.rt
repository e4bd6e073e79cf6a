//! Slots of nodes that no map has any more are used again.

ghost use Rattle.std.specs.Prelude.{◌≡◌};

use lock_free::{Seat, Sizes, Words, open};
use nodes::HashKind;
use std::sync::Wait;
use std::test::Fail;

/// Puts over key 7, whose value is 0, the values from 1 on, so many of them. Returns how many were answered by the value before, until one
/// was not.
fn put_over<R: Wait>(rt: &R, words: &Words, seat: &mut Seat, puts: u64) -> u64
    requires table { seat.old.table ≡ words.now.table_id }
    ensures table { seat.new.table ≡ seat.old.table }
{
    for n in 0..puts {
        if seat.put(rt, words, 0, 7, n + 1) != Ok(Some(n)) {
            return n;
        }
    }
    puts
}

/// The first branch and its root take two small slots, two singles with the main nodes over one key and over two take four, and the third
/// single takes one. A main node over three keys takes a medium slot. So of 100,000 puts over one of the keys each takes a small slot for its
/// single, of which none is used again, and one of 192 medium ones.
#[test]
fn slots_of_replaced_main_nodes_are_used_again(rt: HostRuntime) -> Result<(), Fail> {
    let sizes = Sizes {
        seats: 1,
        hash: HashKind::Wide,
        small: 100_007,
        medium: 192,
        wide: 4,
    };
    let Ok((board, mut seat)) = open(rt.alloc(), sizes) else {
        panic!(rt; "there is memory");
    };
    let words = &board.shared;
    assert_eq!(rt; seat.put(&rt, words, 0, 7, 0), Ok(None));
    assert_eq!(rt; seat.put(&rt, words, 0, 8, 80), Ok(None));
    assert_eq!(rt; seat.put(&rt, words, 0, 9, 90), Ok(None));
    assert_eq!(rt; put_over(&rt, words, &mut seat, 100_000), 100_000);
    assert_eq!(rt; seat.get(&rt, words, 0, 7), Ok(Some(100_000)));
    assert_eq!(rt; seat.get(&rt, words, 0, 8), Ok(Some(80)));
    Ok(())
}
