//! Scripts for threads whose lines meet.

use ctrie_commands::{Between, Counted, Fault, Nothing, check_history, run_threads};
use std::alloc::Global;
use std::sync::Wait;
use std::sync::atomic::{AtomicBool, Ordering};
use std::test::Fail;
use std::thread;
use std::thread::Threads;

/// How often a thread looks for another one.
const TURNS: u32 = 1_000_000;

/// Each of two seats waits at its first entry until the other one has entered too.
#[derive(Drop)]
struct Meeting {
    first: AtomicBool,
    second: AtomicBool,
    gave_up: AtomicBool,
}

impl Between for Meeting {
    fn between(&self, seat: u8, _taken: u64) {
        let (mine, other) = if seat == 1 {
            (&self.first, &self.second)
        } else {
            (&self.second, &self.first)
        };
        mine.store(true, Ordering::SeqCst);
        if !self.gave_up.load(Ordering::SeqCst) && !is_soon(other) {
            self.gave_up.store(true, Ordering::SeqCst);
        }
    }
}

/// Waits for this many turns until it is told.
fn is_soon(told: &AtomicBool) -> bool {
    for _ in 0..TURNS {
        if told.load(Ordering::SeqCst) {
            return true;
        }
        thread::yield_now();
    }
    false
}

/// What the script writes, or its fault with nothing written.
fn told<R: Threads + Wait + Sync, B: Between + Sync>(
    rt: &R,
    alloc: Global,
    script: &str,
    between: &B,
) -> Result<String, Fault> {
    let mut input = Counted::new(script.as_bytes());
    let mut written = Vec::new(alloc);
    let mut output = Counted::new(&mut written);
    match run_threads(rt, alloc, &mut input, &mut output, between) {
        Ok(()) => match String::from_utf8(written) {
            Ok(text) => Ok(text),
            Err(_) => Err(Fault::Usage),
        },
        Err(fault) if written.is_empty() => Err(fault),
        Err(_) => Err(Fault::Usage),
    }
}

/// Whether the report's order is legal.
fn is_legal(alloc: Global, report: &str) -> Result<bool, Fault> {
    let mut input = Counted::new(report.as_bytes());
    let mut verdict = Vec::new(alloc);
    let mut output = Counted::new(&mut verdict);
    check_history(alloc, &mut input, &mut output)
}

/// How many lines begin so.
fn count(report: &str, word: &str) -> usize {
    report
        .split('\n')
        .filter(|line| line.starts_with(word))
        .count()
}

/// How many lines tell that one was denied for this reason.
fn count_denied(report: &str, reason: &str) -> usize {
    report
        .split('\n')
        .filter(|line| line.starts_with("denied ") && line.ends_with(reason))
        .count()
}

const HEADER: &str = "slots 64\nhash low\nactors 2\n";

/// Both actors are inside their calls at the same time.
#[test]
fn two_lines_meet(rt: HostRuntime) -> Result<(), Fail> {
    let script = format!(in rt.alloc(); "{HEADER}do 1 put 0 1 10\ndo 2 put 0 2 20\n")?;
    let meeting = Meeting {
        first: AtomicBool::new(false),
        second: AtomicBool::new(false),
        gave_up: AtomicBool::new(false),
    };
    let report = told(&rt, rt.alloc(), &script, &meeting)?;
    assert!(rt; !meeting.gave_up.load(Ordering::SeqCst));
    assert!(rt; meeting.first.load(Ordering::SeqCst) && meeting.second.load(Ordering::SeqCst));
    assert!(rt; is_legal(rt.alloc(), &report)?);
    Ok(())
}

/// How many of the lines below nothing denies: puts, removes, copies and some gets, all of handle 0.
const UNDENIED: usize = 90;

/// Three actors and the sweep: the record is legal, each line is told of once, and no line meets an earlier one of its actor.
#[test]
fn runs_many_lines(rt: HostRuntime) -> Result<(), Fail> {
    let mut script = String::from_str(rt.alloc(), "slots 512\nhash fold\nactors 3\n")?;
    for n in 0..120_u64 {
        let actor = n % 3 + 1;
        let key = n * 7 % 40;
        match n % 10 {
            0 => writeln!(script, "do {actor} freeze 0")?,
            1 => writeln!(script, "do {actor} snapshot 0")?,
            2 => writeln!(script, "do {actor} close {}", n % 5 + 1)?,
            3 => writeln!(script, "do {actor} remove 0 {key}")?,
            4 => writeln!(script, "do {actor} get {} {key}", n % 4)?,
            5 => writeln!(script, "sweep 20")?,
            _ => writeln!(script, "do {actor} put 0 {key} {n}")?,
        }
    }
    let report = told(&rt, rt.alloc(), &script, &Nothing)?;
    assert!(rt; is_legal(rt.alloc(), &report)?);
    let begins = count(&report, "begin ");
    assert_eq!(rt; begins, count(&report, "end "));
    assert_eq!(rt; begins, 108_usize.saturating_sub(count(&report, "denied ")));
    assert!(rt; begins >= UNDENIED);
    assert_eq!(rt; count_denied(&report, " ActorBusy"), 0);
    assert_eq!(rt; count_denied(&report, " Idle"), 0);
    Ok(())
}
