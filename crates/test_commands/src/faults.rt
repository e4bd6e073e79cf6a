//! Which fault is told where there are two, and the texts of faults.

use ctrie_base::Refusal;
use ctrie_commands::{Counted, Fault, check_history, draw_history, run_script};
use std::io;
use std::io::{ErrorKind, Write};
use std::test::Fail;

/// Each of its calls fails.
#[derive(Drop)]
struct Broken;

impl Write for Broken {
    fn write(&mut self, _buf: &[u8]) -> io::Result<usize> {
        Err(io::Error::from(ErrorKind::Other))
    }

    fn flush(&mut self) -> io::Result<()> {
        Err(io::Error::from(ErrorKind::Other))
    }
}

const HISTORY: &str = "hash low\norder\n";

const SCRIPT: &str = "slots 2\nhash low\nactors 1\n";

/// A writer that fails is told of, but not where the text has a fault.
#[test]
fn tells_write_faults(rt: HostRuntime) {
    let line = Fault::Line(1, Refusal::BadHeader);
    for (text, judged, ran) in [(HISTORY, Fault::Write, line), (SCRIPT, line, Fault::Write)] {
        let mut input = Counted::new(text.as_bytes());
        let mut output = Counted::new(Broken);
        let found = check_history(rt.alloc(), &mut input, &mut output);
        assert_eq!(rt; found, Err(judged));
        let mut input = Counted::new(text.as_bytes());
        let mut output = Counted::new(Broken);
        let found = draw_history(rt.alloc(), &mut input, &mut output);
        assert_eq!(rt; found, Err(judged));
        let mut input = Counted::new(text.as_bytes());
        let mut output = Counted::new(Broken);
        let found = run_script(rt.alloc(), &mut input, &mut output);
        assert_eq!(rt; found, Err(ran));
    }
}

#[test]
fn shows_faults(rt: HostRuntime) -> Result<(), Fail> {
    let rows = [
        (Fault::Line(3, Refusal::BadLine), "line 3: BadLine"),
        (
            Fault::Line(300_001, Refusal::TooLong),
            "line 300001: TooLong",
        ),
        (Fault::Read, "ctrie: read"),
        (Fault::Write, "ctrie: write"),
        (Fault::Memory, "ctrie: memory"),
        (Fault::Usage, "ctrie: usage"),
    ];
    for (fault, text) in &rows {
        assert!(rt; fault.to_string(rt.alloc())?.as_str() == *text, "{text}");
    }
    Ok(())
}
