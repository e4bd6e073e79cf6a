//! A reader and a writer that move one byte a call, and fail at each call in turn.

use ctrie_commands::{
    Counted, Fault, Nothing, check_history, draw_history, explain_history, order_history,
    run_script, run_threads,
};
use std::io;
use std::io::{ErrorKind, Read, Write};
use std::process::Abort;
use std::sync::Wait;
use std::thread::Threads;

/// A reader that gives one byte a call, and fails so at one call; at none for 0.
#[derive(Drop)]
struct Source<'a> {
    rest: &'a [u8],
    calls: u64,
    fails_at: u64,
    kind: ErrorKind,
}

impl<'a> Source<'a> {
    fn new(text: &'a str, fails_at: u64, kind: ErrorKind) -> Source<'a> {
        Source {
            rest: text.as_bytes(),
            calls: 0,
            fails_at,
            kind,
        }
    }
}

impl Read for Source<'_> {
    fn read(&mut self, buf: &mut [u8]) -> io::Result<usize> {
        self.calls = self.calls.saturating_add(1);
        if self.calls == self.fails_at {
            return Err(io::Error::from(self.kind));
        }
        let room = buf.len().min(1);
        let rest = &mut self.rest;
        rest.read(&mut buf[..room])
    }
}

/// A writer that takes one byte a call, and fails at one call; at none for 0.
#[derive(Drop)]
struct Sink {
    taken: Vec<u8>,
    calls: u64,
    fails_at: u64,
}

impl Sink {
    fn new(taken: Vec<u8>, fails_at: u64) -> Sink {
        Sink {
            taken,
            calls: 0,
            fails_at,
        }
    }

    fn call(&mut self) -> io::Result<()> {
        self.calls = self.calls.saturating_add(1);
        if self.calls == self.fails_at {
            return Err(io::Error::from(ErrorKind::Other));
        }
        Ok(())
    }
}

impl Write for Sink {
    fn write(&mut self, buf: &[u8]) -> io::Result<usize> {
        self.call()?;
        let count = buf.len().min(1);
        self.taken.extend_from_slice(&buf[..count])?;
        Ok(count)
    }

    fn flush(&mut self) -> io::Result<()> {
        self.call()
    }
}

#[derive(Clone, Copy, Debug)]
enum Command {
    Check,
    Draw,
    Explain,
    Order,
    Run,
    Threads,
}

/// A text, and how that ends which comes of it: with this, which is all but of a picture.
#[derive(Clone, Copy)]
struct Case {
    command: Command,
    text: &'static str,
    end: &'static str,
}

impl Case {
    fn is_picture(&self) -> bool {
        matches!(self.command, Command::Draw)
    }
}

const SCRIPT: &str = "slots 64\nhash low\nactors 1\ndo 1 put 0 5 50\ndo 1 get 0 5\n";

const REPORT: &str =
    "hash low\nbegin 0 1 put 0 5 50\nend 0 none\nbegin 1 1 get 0 5\nend 1 some 50\norder 0 1\nslots used 4 free 60 limbo 1\n";

const HISTORY: &str =
    "hash low\nbegin 0 1 put 0 1 10\nend 0 none\nbegin 1 1 get 0 1\nend 1 none\norder 0 1\n";

const EVENTS: &str =
    "hash low\nbegin 0 1 put 0 1 10\nend 0 none\nbegin 1 1 get 0 1\nend 1 some 10\n";

const ORDERED: &str =
    "hash low\nbegin 0 1 put 0 1 10\nend 0 none\nbegin 1 1 get 0 1\nend 1 some 10\n\norder 0 1\n";

const CASES: [Case; 6] = [
    Case {
        command: Command::Check,
        text: HISTORY,
        end: "not legal\n",
    },
    Case {
        command: Command::Draw,
        text: HISTORY,
        end: "</g>\n</svg>\n",
    },
    Case {
        command: Command::Explain,
        text: HISTORY,
        end: "not legal\noperation 1, get 0 1, was answered none; the maps before it give some 10\n",
    },
    Case {
        command: Command::Order,
        text: EVENTS,
        end: ORDERED,
    },
    Case {
        command: Command::Run,
        text: SCRIPT,
        end: REPORT,
    },
    Case {
        command: Command::Threads,
        text: SCRIPT,
        end: REPORT,
    },
];

/// What the command says of the text, and how many calls of the reader and of the writer it counted as failed.
fn carried_out<R: AllocGlobal + Threads + Wait + Sync>(
    rt: &R,
    case: Case,
    source: Source<'_>,
    sink: &mut Sink,
) -> (Result<(), Fault>, u64, u64) {
    let mut input = Counted::new(source);
    let mut output = Counted::new(sink);
    let (input, output) = (&mut input, &mut output);
    let found = match case.command {
        Command::Check => check_history(rt.alloc(), input, output).map(|_| ()),
        Command::Draw => draw_history(rt.alloc(), input, output).map(|_| ()),
        Command::Explain => explain_history(rt.alloc(), input, output).map(|_| ()),
        Command::Order => order_history(rt.alloc(), 2, input, output).map(|_| ()),
        Command::Run => run_script(rt.alloc(), input, output),
        Command::Threads => run_threads(rt, rt.alloc(), input, output, &Nothing),
    };
    (found, input.failed(), output.failed())
}

/// What is written, byte by byte in and out.
fn written<R: Abort + AllocGlobal + Threads + Wait + Sync>(rt: &R, case: Case) -> Vec<u8> {
    let mut sink = Sink::new(Vec::new(rt.alloc()), 0);
    let source = Source::new(case.text, 0, ErrorKind::Other);
    let found = carried_out(rt, case, source, &mut sink);
    assert!(rt; found == (Ok(()), 0, 0));
    let Sink { taken, .. } = sink;
    taken
}

/// It is just what is wanted, and a picture from its declaration on to its last element.
#[test]
fn moves_one_byte_a_call(rt: HostRuntime) {
    for case in CASES {
        let written = written(&rt, case);
        let is_picture = written.starts_with(b"<?xml version=\"1.0\" ");
        assert!(rt; is_picture == case.is_picture());
        assert!(rt; written.ends_with(case.end.as_bytes()));
        assert!(rt; is_picture || written.len() == case.end.len());
    }
}

/// Each read fails so in turn, the last at the end: this is told, and just what is wanted is written.
fn fail_each_read<R: Abort + AllocGlobal + Threads + Wait + Sync>(
    rt: &R,
    case: Case,
    kind: ErrorKind,
    told: Result<(), Fault>,
    wanted: &[u8],
) {
    for call in 1..=case.text.len() as u64 + 1 {
        let mut sink = Sink::new(Vec::new(rt.alloc()), 0);
        let source = Source::new(case.text, call, kind);
        let found = carried_out(rt, case, source, &mut sink);
        assert!(rt; found == (told, 1, 0), "{:?} {call}", case.command);
        assert!(rt; sink.taken.as_slice() == wanted);
    }
}

/// Nothing is written after a failed read. One that was interrupted is made again, and all is.
#[test]
fn tells_each_failed_read(rt: HostRuntime) {
    for case in CASES {
        let written = written(&rt, case);
        fail_each_read(&rt, case, ErrorKind::Other, Err(Fault::Read), &[]);
        fail_each_read(
            &rt,
            case,
            ErrorKind::Interrupted,
            Ok(()),
            written.as_slice(),
        );
    }
}

/// This write fails: a beginning of what is written else was written.
fn fail_write<R: Abort + AllocGlobal + Threads + Wait + Sync>(
    rt: &R,
    case: Case,
    call: u64,
    written: &[u8],
) {
    let mut sink = Sink::new(Vec::new(rt.alloc()), call);
    let source = Source::new(case.text, 0, ErrorKind::Other);
    let found = carried_out(rt, case, source, &mut sink);
    assert!(rt;
        found == (Err(Fault::Write), 0, 1),
        "{:?} {call}",
        case.command
    );
    assert!(rt; sink.taken.len() as u64 + 1 == call);
    assert!(rt; written.starts_with(sink.taken.as_slice()));
}

/// Each write fails in turn, the last a flush. Of the many of a picture one in 64 does, and the last.
fn fail_each_write<R: Abort + AllocGlobal + Threads + Wait + Sync>(rt: &R, case: Case) {
    let written = written(rt, case);
    let calls = written.len() as u64 + 1;
    for call in 1..=calls {
        if !case.is_picture() || call % 64 == 0 || call == calls {
            fail_write(rt, case, call, written.as_slice());
        }
    }
}

#[test]
fn tells_each_failed_write(rt: HostRuntime) {
    for case in CASES {
        fail_each_write(&rt, case);
    }
}
