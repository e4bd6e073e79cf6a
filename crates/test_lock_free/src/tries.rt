//! Calls that have only so many tries.

use crate::opening::sizes;
use history::{Call, Reply};
use lock_free::{CallError, Tried, finish_map, open};
use std::test::Fail;

/// One try of each loop is enough for who meets nobody, and without any nothing begins.
#[test]
fn a_call_takes_its_tries(rt: HostRuntime) -> Result<(), Fail> {
    let Ok((board, mut first)) = open(rt.alloc(), sizes(2, 60, 4)) else {
        panic!(rt; "there is memory");
    };
    let words = &board.shared;
    let second = first.split(rt.alloc(), words)?;
    let call = Call::Put {
        handle: 0,
        key: 7,
        value: 70,
    };
    let Tried::Answered(second, told) = second.try_call(words, 0, call) else {
        panic!(rt; "nothing has begun");
    };
    assert!(rt; matches!(told, Err(CallError::Spent)));
    assert_eq!(rt; first.get(&rt, words, 0, 7), Ok(None));
    let Tried::Answered(second, told) = second.try_call(words, 1, call) else {
        panic!(rt; "nobody else is in a call");
    };
    assert!(rt; matches!(told, Ok(Reply::Found(None))));
    assert_eq!(rt; first.put(&rt, words, 0, 7, 71), Ok(Some(70)));
    let look = Call::Get { handle: 0, key: 7 };
    let Tried::Answered(second, told) = second.try_call(words, 1, look) else {
        panic!(rt; "a look publishes nothing");
    };
    assert!(rt; matches!(told, Ok(Reply::Found(Some(71)))));
    let mut seats = Vec::new(rt.alloc());
    seats.push(first)?;
    seats.push(second)?;
    finish_map(board, seats);
    Ok(())
}

#[test]
fn a_clear_takes_its_tries(rt: HostRuntime) -> Result<(), Fail> {
    let Ok((board, mut seat)) = open(rt.alloc(), sizes(1, 60, 4)) else {
        panic!(rt; "there is memory");
    };
    let words = &board.shared;
    assert_eq!(rt; seat.put(&rt, words, 0, 7, 70), Ok(None));
    let call = Call::Clear { handle: 0 };
    let Tried::Answered(mut seat, told) = seat.try_call(words, 1, call) else {
        panic!(rt; "nobody else is in a call");
    };
    assert!(rt; matches!(told, Ok(Reply::Cleared)));
    assert_eq!(rt; seat.get(&rt, words, 0, 7), Ok(None));
    let mut seats = Vec::new(rt.alloc());
    seats.push(seat)?;
    finish_map(board, seats);
    Ok(())
}

/// A number that was reserved for a copy which hadn't begun is given back: the next copy gets it.
#[test]
fn copies_take_their_tries(rt: HostRuntime) -> Result<(), Fail> {
    let Ok((board, mut seat)) = open(rt.alloc(), sizes(1, 60, 8)) else {
        panic!(rt; "there is memory");
    };
    let words = &board.shared;
    assert_eq!(rt; seat.put(&rt, words, 0, 7, 70), Ok(None));
    let Tried::Answered(seat, told) = seat.try_call(words, 0, Call::Snapshot { handle: 0 }) else {
        panic!(rt; "nothing has begun");
    };
    assert!(rt; matches!(told, Err(CallError::Spent)));
    let Tried::Answered(mut seat, told) = seat.try_call(words, 1, Call::Snapshot { handle: 0 })
    else {
        panic!(rt; "nobody else is in a call");
    };
    assert!(rt; matches!(told, Ok(Reply::Opened(1))));
    assert_eq!(rt; seat.put(&rt, words, 1, 7, 71), Ok(Some(70)));
    let Tried::Answered(seat, told) = seat.try_call(words, 1, Call::Freeze { handle: 1 }) else {
        panic!(rt; "nobody else is in a call");
    };
    assert!(rt; matches!(told, Ok(Reply::Opened(2))));
    let Tried::Answered(mut seat, told) = seat.try_call(words, 1, Call::Freeze { handle: 2 }) else {
        panic!(rt; "it is denied");
    };
    assert!(rt; matches!(told, Err(CallError::ReadOnly)));
    assert_eq!(rt; seat.put(&rt, words, 1, 8, 80), Ok(None));
    assert_eq!(rt; seat.get(&rt, words, 0, 7), Ok(Some(70)));
    assert_eq!(rt; seat.get(&rt, words, 0, 8), Ok(None));
    assert_eq!(rt; seat.get(&rt, words, 1, 7), Ok(Some(71)));
    assert_eq!(rt; seat.get(&rt, words, 1, 8), Ok(Some(80)));
    assert_eq!(rt; seat.get(&rt, words, 2, 7), Ok(Some(71)));
    assert_eq!(rt; seat.get(&rt, words, 2, 8), Ok(None));
    let mut seats = Vec::new(rt.alloc());
    seats.push(seat)?;
    finish_map(board, seats);
    Ok(())
}

/// Two of three small slots are the first branch and its root, and a put takes two.
#[test]
fn a_lack_of_slots_is_told_from_too_few_tries(rt: HostRuntime) -> Result<(), Fail> {
    let Ok((board, seat)) = open(rt.alloc(), sizes(1, 3, 4)) else {
        panic!(rt; "there is memory");
    };
    let words = &board.shared;
    let call = Call::Put {
        handle: 0,
        key: 7,
        value: 70,
    };
    let Tried::Answered(seat, told) = seat.try_call(words, 9, call) else {
        panic!(rt; "it publishes nothing");
    };
    assert!(rt; matches!(told, Err(CallError::Full)));
    let Tried::Answered(seat, told) = seat.try_call(words, 0, call) else {
        panic!(rt; "nothing has begun");
    };
    assert!(rt; matches!(told, Err(CallError::Spent)));
    let mut seats = Vec::new(rt.alloc());
    seats.push(seat)?;
    finish_map(board, seats);
    Ok(())
}
