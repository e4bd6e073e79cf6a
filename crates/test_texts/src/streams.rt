//! Reading and writing of a whole text with readers and writers that fail, and the texts of failures.

mod fakes;

use counted_io::{Counted, Failure, read_all, write_all};
use fakes::{FailsAt, Sink, Source};
use std::alloc::AllocError;
use std::io::{ErrorKind, Read, Write};
use std::test::Fail;

/// Forty-nine bytes: ten calls that give five bytes at most, and one at the end.
const TEXT: &str = "hash low\nbegin 0 1 put 0 1 10\nend 0 none\norder 0\n";

const LINE: &str = "legal\n";

/// The reader fails at each of its calls in turn, the last at the end; an interrupted call is made again.
#[test]
fn tells_read_failures(rt: HostRuntime) {
    for (kind, length) in [
        (ErrorKind::Other, Err(Failure::Read)),
        (ErrorKind::Interrupted, Ok(49)),
    ] {
        for call in 1..=11 {
            let source = Source::new(TEXT.as_bytes(), 5, FailsAt { call, kind });
            let mut input = Counted::new(source);
            let found = read_all(rt.alloc(), &mut input);
            assert_eq!(rt; found.map(|text| text.len()), length, "call {call}");
            assert_eq!(rt; input.failed(), 1);
        }
    }
}

/// The writer takes one byte a call, and fails or takes none at each call in turn, the last a flush.
#[test]
fn tells_write_failures(rt: HostRuntime) {
    for is_silent in [false, true] {
        for call in 1..=7 {
            let fails_at = FailsAt {
                call,
                kind: ErrorKind::Other,
            };
            let mut sink = Sink::new(Vec::new(rt.alloc()), 1, fails_at, is_silent);
            let mut output = Counted::new(&mut sink);
            let found = write_all(&mut output, LINE.as_bytes());
            assert_eq!(rt; found, Err(Failure::Write), "call {call}");
            assert_eq!(rt; output.failed(), 1);
            assert!(rt; sink.taken.len() as u64 == call - 1, "call {call}");
            assert!(rt;
                LINE.as_bytes().starts_with(sink.taken.as_slice()),
                "call {call}"
            );
        }
    }
}

/// A call that fails counts, a write or a flush too, and a write that takes no byte.
#[test]
fn counts_failed_calls(rt: HostRuntime) -> Result<(), Fail> {
    let fails_at = FailsAt {
        call: 2,
        kind: ErrorKind::Other,
    };
    let mut input = Counted::new(Source::new(TEXT.as_bytes(), 5, fails_at));
    let mut piece = [0; 8];
    assert!(rt; input.read(&mut piece).is_ok() && input.failed() == 0);
    assert!(rt; input.read(&mut piece).is_err() && input.failed() == 1);
    assert!(rt; input.read(&mut piece).is_ok() && input.failed() == 1);
    for is_silent in [false, true] {
        let sink = Sink::new(Vec::new(rt.alloc()), 5, fails_at, is_silent);
        let mut output = Counted::new(sink);
        assert!(rt; output.write(&piece).is_ok() && output.failed() == 0);
        assert!(rt; output.write(&piece).is_ok() == is_silent && output.failed() == 1);
        assert!(rt; output.flush().is_ok() && output.failed() == 1);
    }
    let mut output = Counted::new(Sink::new(Vec::new(rt.alloc()), 5, fails_at, false));
    assert!(rt; output.flush().is_ok() && output.flush().is_err() && output.failed() == 1);
    Ok(())
}

#[test]
fn shows_failures(rt: HostRuntime) -> Result<(), Fail> {
    let rows = [
        (Failure::Read, "a call of the reader failed"),
        (Failure::Write, "a call of the writer failed"),
        (Failure::Memory, "memory was refused"),
    ];
    for (failure, text) in &rows {
        assert!(rt; failure.to_string(rt.alloc())?.as_str() == *text, "{text}");
    }
    assert!(rt; Failure::from(AllocError) == Failure::Memory);
    Ok(())
}
