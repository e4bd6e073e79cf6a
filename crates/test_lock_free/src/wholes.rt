//! A seat copies a map, empties it, lists it, and closes handles.

use crate::opening::sizes;
use lock_free::{CallError, finish_map, open};
use std::test::Fail;

#[test]
fn copies_are_maps_of_their_own(rt: HostRuntime) -> Result<(), Fail> {
    let Ok((board, mut seat)) = open(rt.alloc(), sizes(2, 60, 8)) else {
        panic!(rt; "there is memory");
    };
    let words = &board.shared;
    assert_eq!(rt; seat.put(&rt, words, 0, 9, 90), Ok(None));
    assert_eq!(rt; seat.put(&rt, words, 0, 7, 70), Ok(None));
    assert_eq!(rt; seat.freeze(&rt, words, 0), Ok(1));
    assert_eq!(rt; seat.snapshot(&rt, words, 0), Ok(2));
    assert_eq!(rt; seat.put(&rt, words, 0, 7, 71), Ok(Some(70)));
    assert_eq!(rt; seat.get(&rt, words, 2, 7), Ok(Some(70)));
    assert_eq!(rt; seat.put(&rt, words, 1, 7, 72), Err(CallError::ReadOnly));
    assert_eq!(rt; seat.clear(&rt, words, 2), Ok(()));
    assert_eq!(rt; seat.get(&rt, words, 2, 7), Ok(None));
    assert_eq!(rt; seat.get(&rt, words, 0, 7), Ok(Some(71)));
    let mut seats = Vec::new(rt.alloc());
    seats.push(seat)?;
    finish_map(board, seats);
    Ok(())
}

#[test]
fn read_only_handles_are_listed_and_closed(rt: HostRuntime) -> Result<(), Fail> {
    let Ok((board, mut seat)) = open(rt.alloc(), sizes(2, 60, 8)) else {
        panic!(rt; "there is memory");
    };
    let words = &board.shared;
    assert_eq!(rt; seat.put(&rt, words, 0, 9, 90), Ok(None));
    assert_eq!(rt; seat.put(&rt, words, 0, 7, 70), Ok(None));
    assert_eq!(rt; seat.freeze(&rt, words, 0), Ok(1));
    let Ok(pairs) = seat.entries(rt.alloc(), &rt, words, 1) else {
        panic!(rt; "the handle is open, and there is memory");
    };
    assert_eq!(rt; pairs.as_slice(), [(7, 70), (9, 90)].as_slice());
    assert_eq!(rt; seat.count(rt.alloc(), &rt, words, 1), Ok(2));
    assert_eq!(rt;
        seat.count(rt.alloc(), &rt, words, 0),
        Err(CallError::NotReadOnly)
    );
    assert_eq!(rt; seat.close(words, 1), Ok(()));
    assert_eq!(rt; seat.close(words, 1), Err(CallError::NoHandle));
    assert_eq!(rt;
        seat.count(rt.alloc(), &rt, words, 1),
        Err(CallError::NoHandle)
    );
    let mut seats = Vec::new(rt.alloc());
    seats.push(seat)?;
    finish_map(board, seats);
    Ok(())
}

/// Nobody else makes a call: one try is enough. With none a call hasn't begun.
#[test]
fn read_only_handles_are_listed_in_one_try(rt: HostRuntime) -> Result<(), Fail> {
    let Ok((board, mut seat)) = open(rt.alloc(), sizes(2, 60, 8)) else {
        panic!(rt; "there is memory");
    };
    let words = &board.shared;
    assert_eq!(rt; seat.put(&rt, words, 0, 9, 90), Ok(None));
    assert_eq!(rt; seat.put(&rt, words, 0, 7, 70), Ok(None));
    assert_eq!(rt; seat.freeze(&rt, words, 0), Ok(1));
    assert_eq!(rt; seat.put(&rt, words, 0, 8, 80), Ok(None));
    let Ok(pairs) = seat.entries_within(rt.alloc(), 1, words, 1) else {
        panic!(rt; "the handle is open, and there is memory");
    };
    assert_eq!(rt; pairs.as_slice(), [(7, 70), (9, 90)].as_slice());
    assert_eq!(rt; seat.count_within(rt.alloc(), 1, words, 1), Ok(2));
    assert_eq!(rt;
        seat.count_within(rt.alloc(), 0, words, 1),
        Err(CallError::Spent)
    );
    assert_eq!(rt;
        seat.count_within(rt.alloc(), 1, words, 0),
        Err(CallError::NotReadOnly)
    );
    let mut seats = Vec::new(rt.alloc());
    seats.push(seat)?;
    finish_map(board, seats);
    Ok(())
}
