//! The map's calls, by rows. `test_map FILE` carries out the calls that the lines of a file name, one after the other, and tells
//! how many were answered as wanted; without a word the file `calls.rows`.
//!
//! A line is `CALL NUMBERS = ANSWER`, where the answer is written as `Debug` writes it. Most calls have the name of a method of
//! `Map`, and their numbers are its arguments. A line that is empty or begins with `#` is passed over.
#![tactic(auto)]

mod asking;
mod calling;
mod changing;
mod copying;
mod reading;
mod telling;

use calling::{Line, answer};
use ctrie_map::{HashKind, Map};
use std::process::ExitCode;
use std::rt::{Env, Files};
use std::{env, fs, io};

/// How many calls were answered as wanted, and how many weren't.
#[derive(Clone, Copy)]
struct Tally {
    right: u32,
    wrong: u32,
}

/// Carries out a line's call, and names it where it isn't answered as wanted.
fn carry_out<R: AllocGlobal + Print>(
    rt: &R,
    map: &mut Map,
    line: &Line<'_>,
    tally: &mut Tally,
) -> io::Result<()> {
    let told = answer(rt.alloc(), map, line)?;
    if told.as_str() == line.wanted {
        tally.right = tally.right.saturating_add(1);
    } else {
        tally.wrong = tally.wrong.saturating_add(1);
        println!(rt; "{}: {told}, wanted {}", line.call, line.wanted)?;
    }
    Ok(())
}

/// The file that the program's words name.
fn text<R: AllocGlobal + Env + Files>(rt: &R) -> io::Result<Vec<u8>> {
    let words = env::args(rt)?.collect::<Vec<String>>(rt.alloc())?;
    fs::read(rt, words.get(1).map_or("calls.rows", |word| word.as_str()))
}

/// Carries out all lines' calls, first of a map of 64 slots.
fn run<R: AllocGlobal + Env + Files + Print>(rt: &R) -> io::Result<Tally> {
    let mut tally = Tally { right: 0, wrong: 0 };
    let text = text(rt)?;
    let Ok(text) = str::from_utf8(text.as_slice()) else {
        return Ok(tally);
    };
    let Ok(mut map) = Map::new(rt.alloc(), 64, HashKind::Fold) else {
        return Ok(tally);
    };
    for row in text.split('\n') {
        if let Some(line) = Line::of(rt.alloc(), row)? {
            carry_out(rt, &mut map, &line, &mut tally)?;
        }
    }
    Ok(tally)
}

fn main(rt: HostRuntime) -> ExitCode {
    let Ok(Tally { right, wrong }) = run(&rt) else {
        return ExitCode::from(2);
    };
    let told = println!(rt; "{right} answers as wanted, {wrong} not");
    ExitCode::from(if wrong == 0 && told.is_ok() { 0 } else { 1 })
}
