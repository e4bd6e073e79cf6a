//! A map is opened, its seats are handed out and make calls, and it is ended.

ghost use Rattle.std.specs.Prelude.{◌≡◌};

use lock_free::{CallError, OpenError, Sizes, finish_map, open};
use nodes::HashKind;
use std::test::Fail;

pub(crate) fn sizes(seats: u8, small: u32, wide: u32) -> Sizes
    ensures { result.seats ≡ seats }
{
    Sizes {
        seats,
        hash: HashKind::Wide,
        small,
        medium: 4,
        wide,
    }
}

#[test]
fn sizes_out_of_range_are_refused(rt: HostRuntime) -> Result<(), Fail> {
    for out in [sizes(0, 8, 4), sizes(1, 1, 4), sizes(1, 8, 11_184_811)] {
        assert!(rt; matches!(open(rt.alloc(), out), Err(OpenError::BadSizes)));
    }
    Ok(())
}

#[test]
fn seats_call_the_map(rt: HostRuntime) -> Result<(), Fail> {
    let Ok((board, mut first)) = open(rt.alloc(), sizes(2, 40, 4)) else {
        panic!(rt; "there is memory");
    };
    let words = &board.shared;
    let mut second = first.split(rt.alloc(), words)?;
    assert_eq!(rt; first.put(&rt, words, 0, 7, 70), Ok(None));
    assert_eq!(rt; second.put(&rt, words, 0, 7, 71), Ok(Some(70)));
    assert_eq!(rt; first.get(&rt, words, 0, 7), Ok(Some(71)));
    assert_eq!(rt; second.contains(&rt, words, 0, 8), Ok(false));
    assert_eq!(rt; first.put_if_absent(&rt, words, 0, 8, 80), Ok(None));
    assert_eq!(rt; second.put_if_absent(&rt, words, 0, 8, 81), Ok(Some(80)));
    assert_eq!(rt; first.replace(&rt, words, 0, 9, 90), Ok(None));
    assert_eq!(rt; second.replace(&rt, words, 0, 8, 82), Ok(Some(80)));
    assert_eq!(rt; first.replace_if(&rt, words, 0, 8, 80, 83), Ok(false));
    assert_eq!(rt; second.replace_if(&rt, words, 0, 8, 82, 83), Ok(true));
    assert_eq!(rt; first.remove_if(&rt, words, 0, 7, 70), Ok(false));
    assert_eq!(rt; second.remove_if(&rt, words, 0, 7, 71), Ok(true));
    assert_eq!(rt; first.remove(&rt, words, 0, 8), Ok(Some(83)));
    assert_eq!(rt; second.get(&rt, words, 0, 8), Ok(None));
    assert_eq!(rt; first.get(&rt, words, 1, 8), Err(CallError::NoHandle));
    assert_eq!(rt; second.put(&rt, words, 256, 8, 1), Err(CallError::NoHandle));
    let mut seats = Vec::new(rt.alloc());
    seats.push(first)?;
    seats.push(second)?;
    finish_map(board, seats);
    Ok(())
}

/// One of five small slots is the root, and each key takes one for its single. A main node of at most two entries takes a small one,
/// too, which the next call uses again.
#[test]
fn a_call_without_a_slot_is_refused(rt: HostRuntime) -> Result<(), Fail> {
    let Ok((board, mut seat)) = open(rt.alloc(), sizes(1, 5, 4)) else {
        panic!(rt; "there is memory");
    };
    let words = &board.shared;
    assert_eq!(rt; seat.put(&rt, words, 0, 7, 70), Ok(None));
    assert_eq!(rt; seat.put(&rt, words, 0, 8, 80), Ok(None));
    assert_eq!(rt; seat.put(&rt, words, 0, 9, 90), Ok(None));
    assert_eq!(rt; seat.put(&rt, words, 0, 10, 100), Ok(None));
    assert_eq!(rt; seat.put(&rt, words, 0, 11, 110), Err(CallError::Full));
    assert_eq!(rt; seat.get(&rt, words, 0, 11), Ok(None));
    // The slot of a single that is taken out is used again.
    assert_eq!(rt; seat.remove(&rt, words, 0, 7), Ok(Some(70)));
    assert_eq!(rt; seat.put(&rt, words, 0, 11, 110), Ok(None));
    assert_eq!(rt; seat.put(&rt, words, 0, 7, 71), Err(CallError::Full));
    assert_eq!(rt; seat.get(&rt, words, 0, 7), Ok(None));
    Ok(())
}
