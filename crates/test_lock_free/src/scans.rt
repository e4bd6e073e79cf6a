//! Listings in parts, and what handles allow.

use crate::opening::sizes;
use history::Access;
use lock_free::{CallError, Scanned, finish_map, open};
use std::test::Fail;

/// Nobody else makes a call: one try is enough. While the listing is under way its handle can't be closed.
#[test]
fn a_copy_is_listed_in_parts(rt: HostRuntime) -> Result<(), Fail> {
    let Ok((board, mut first)) = open(rt.alloc(), sizes(2, 60, 8)) else {
        panic!(rt; "there is memory");
    };
    let words = &board.shared;
    let second = first.split(rt.alloc(), words)?;
    assert_eq!(rt; first.put(&rt, words, 0, 9, 90), Ok(None));
    assert_eq!(rt; first.put(&rt, words, 0, 7, 70), Ok(None));
    assert_eq!(rt; first.put(&rt, words, 0, 8, 80), Ok(None));
    assert_eq!(rt; first.freeze(&rt, words, 0), Ok(1));
    let Scanned::Paused(scan) = second.scan(rt.alloc(), 1, words, 1) else {
        panic!(rt; "the handle is open, and there is memory");
    };
    let mut pairs = Vec::new(rt.alloc());
    let Scanned::Paused(scan) = scan.next(1, 2, words, &mut pairs) else {
        panic!(rt; "two of three pairs were told");
    };
    assert_eq!(rt; pairs.len(), 2);
    assert_eq!(rt; first.put(&rt, words, 0, 6, 60), Ok(None));
    assert_eq!(rt; first.close(words, 1), Err(CallError::Busy));
    let Scanned::Done(second) = scan.next(1, 2, words, &mut pairs) else {
        panic!(rt; "no other pair is left");
    };
    pairs.sort_unstable();
    assert_eq!(rt; pairs.as_slice(), [(7, 70), (8, 80), (9, 90)].as_slice());
    assert_eq!(rt; first.close(words, 1), Ok(()));
    let mut seats = Vec::new(rt.alloc());
    seats.push(first)?;
    seats.push(second)?;
    finish_map(board, seats);
    Ok(())
}

/// A listing that is stopped lets its handle be closed; one that finds none gives its seat back.
#[test]
fn a_scan_gives_its_seat_back(rt: HostRuntime) -> Result<(), Fail> {
    let Ok((board, mut seat)) = open(rt.alloc(), sizes(1, 60, 8)) else {
        panic!(rt; "there is memory");
    };
    let words = &board.shared;
    assert_eq!(rt; seat.put(&rt, words, 0, 7, 70), Ok(None));
    assert_eq!(rt; seat.freeze(&rt, words, 0), Ok(1));
    let Scanned::Paused(scan) = seat.scan(rt.alloc(), 1, words, 1) else {
        panic!(rt; "the handle is open, and there is memory");
    };
    let mut seat = scan.stop(words);
    assert_eq!(rt; seat.close(words, 1), Ok(()));
    let Scanned::Refused(seat, CallError::NoHandle) = seat.scan(rt.alloc(), 1, words, 1) else {
        panic!(rt; "the handle is closed");
    };
    let Scanned::Refused(seat, CallError::NotReadOnly) = seat.scan(rt.alloc(), 1, words, 0) else {
        panic!(rt; "the handle may be written");
    };
    let Scanned::Refused(seat, CallError::Spent) = seat.scan(rt.alloc(), 0, words, 0) else {
        panic!(rt; "nothing has begun");
    };
    let mut seats = Vec::new(rt.alloc());
    seats.push(seat)?;
    finish_map(board, seats);
    Ok(())
}

#[test]
fn handles_are_asked_what_they_allow(rt: HostRuntime) -> Result<(), Fail> {
    let Ok((board, mut seat)) = open(rt.alloc(), sizes(1, 60, 8)) else {
        panic!(rt; "there is memory");
    };
    let words = &board.shared;
    assert_eq!(rt; seat.access(&rt, words, 0), Ok(Access::Writable));
    assert_eq!(rt; seat.access(&rt, words, 1), Err(CallError::NoHandle));
    assert_eq!(rt; seat.freeze(&rt, words, 0), Ok(1));
    assert_eq!(rt; seat.access(&rt, words, 1), Ok(Access::ReadOnly));
    assert_eq!(rt; seat.access_within(1, words, 1), Ok(Access::ReadOnly));
    assert_eq!(rt; seat.access_within(0, words, 1), Err(CallError::Spent));
    assert_eq!(rt; seat.close(words, 1), Ok(()));
    assert_eq!(rt; seat.access(&rt, words, 1), Err(CallError::NoHandle));
    assert_eq!(rt; seat.access(&rt, words, 256), Err(CallError::NoHandle));
    let mut seats = Vec::new(rt.alloc());
    seats.push(seat)?;
    finish_map(board, seats);
    Ok(())
}
