//! Carries out scripts where slots are short, and where memory is.
//!
//! `test_shortages FOLDER` carries out each script of the folder, NAME.script, with every number of slots from 2 up to
//! its own or 64, and tells in how many runs the order is legal and leads to the content of each handle. Without a word
//! it is the folder that it runs in.
//!
//! `test_shortages FOLDER NAME` carries out one script with its own slots, and tells what it comes to: the same where one
//! growth of it is refused.
#![tactic(auto)]

mod carrying;
mod judging;

use carrying::{Stop, carried_out};
use ctrie_base::Refusal;
use judging::{HANDLES, is_explained};
use script_text::{Command, Script, read_script};
use std::alloc::Global;
use std::process::ExitCode;
use std::rt::{Env, Files};
use std::{env, fs, io};
use step_machine::{Limits, Machine};

/// How many scripts were carried out, and in how many runs.
#[derive(Clone, Copy)]
struct Tally {
    scripts: u32,
    explained: u32,
    others: u32,
}

/// What a script says, if it has no fault.
fn script_in<R: AllocGlobal + Files>(
    rt: &R,
    folder: &str,
    name: &str,
) -> io::Result<Option<Script<Command>>> {
    let file = format!(in rt.alloc(); "{folder}/{name}.script")?;
    let text = fs::read(rt, file.as_str())?;
    Ok(read_script(rt.alloc(), text.as_slice()).ok())
}

/// Whether the machine's order explains its history and its contents, with this many slots.
fn is_right(alloc: Global, script: &Script<Command>, slots: u32) -> Result<bool, Stop> {
    let limits = Limits {
        slots,
        actors: script.limits.actors,
        hash: script.limits.hash,
    };
    let machine = carried_out(alloc, limits, script.lines.as_slice())?;
    Ok(is_explained(alloc, &machine)?)
}

/// Carries out the script with every number of slots, and names those with which it goes wrong.
fn with_few_slots<R: AllocGlobal + Print>(
    rt: &R,
    name: &str,
    script: &Script<Command>,
    tally: &mut Tally,
) -> io::Result<()> {
    tally.scripts = tally.scripts.saturating_add(1);
    for slots in 2..=script.limits.slots.min(64) {
        match is_right(rt.alloc(), script, slots) {
            Ok(true) => tally.explained = tally.explained.saturating_add(1),
            wrong => {
                println!(rt; "{name} with {slots} slots: {wrong:?}")?;
                tally.others = tally.others.saturating_add(1);
            }
        }
    }
    Ok(())
}

/// The names of the folder's scripts.
fn names_in<R: AllocGlobal + Files + Clone + Drop>(
    rt: &R,
    folder: &str,
) -> io::Result<Vec<String>> {
    let mut names = Vec::new(rt.alloc());
    for entry in fs::read_dir(rt, folder)? {
        if let Some((name, "script")) = entry?.file_name().rsplit_once('.') {
            names.push(String::from_str(rt.alloc(), name)?)?;
        }
    }
    names.sort()?;
    Ok(names)
}

/// Carries out all scripts of the folder.
fn with_all<R: AllocGlobal + Files + Print + Clone + Drop>(
    rt: &R,
    folder: &str,
) -> io::Result<Tally> {
    let mut tally = Tally {
        scripts: 0,
        explained: 0,
        others: 0,
    };
    for name in &names_in(rt, folder)? {
        if let Some(script) = script_in(rt, folder, name.as_str())? {
            with_few_slots(rt, name.as_str(), &script, &mut tally)?;
        }
    }
    Ok(tally)
}

/// What a machine has come to: its steps, history, order and memory, and the contents of its handles.
fn end_of(alloc: Global, machine: &Machine) -> Result<String, Stop> {
    let order = machine.order()?;
    let events = machine.events();
    let steps = machine.steps();
    let (used, limbo, epoch) = (machine.used(), machine.limbo_len(), machine.epoch());
    let mut end = format!(in alloc; "{steps:?} {events:?} {order:?} {used} {limbo} {epoch}")?;
    for handle in 0..HANDLES {
        match machine.content(handle) {
            Ok(pairs) => end.push_str(format!(in alloc; " {handle} {pairs:?}")?.as_str())?,
            Err(Refusal::NoHandle) => {}
            Err(_) => return Err(Stop::Memory),
        }
    }
    Ok(end)
}

fn main(rt: HostRuntime) -> ExitCode {
    let Ok(status) = run(&rt) else {
        return ExitCode::from(2);
    };
    ExitCode::from(status)
}

/// Tells what carrying out the script comes to. The exit status is that of `run`.
fn tell_end<R: AllocGlobal + Print>(rt: &R, script: &Script<Command>) -> io::Result<u8> {
    let machine = carried_out(rt.alloc(), script.limits, script.lines.as_slice());
    match machine.and_then(|machine| end_of(rt.alloc(), &machine)) {
        Ok(end) => {
            println!(rt; "{end}")?;
            Ok(0)
        }
        Err(Stop::Changed) => Ok(1),
        Err(Stop::Memory) => Ok(2),
    }
}

/// The exit status: 0 where all is right, 1 where something isn't, 2 where no memory was found outside a step.
fn run<R: AllocGlobal + Env + Files + Print + Clone + Drop>(rt: &R) -> io::Result<u8> {
    let words = env::args(rt)?.collect::<Vec<String>>(rt.alloc())?;
    let folder = words.get(1).map_or(".", |word| word.as_str());
    let Some(name) = words.get(2) else {
        let tally = with_all(rt, folder)?;
        println!(rt;
            "explained: {} runs of {} scripts",
            tally.explained, tally.scripts
        )?;
        return Ok(if tally.others == 0 { 0 } else { 1 });
    };
    match script_in(rt, folder, name.as_str())? {
        None => Ok(2),
        Some(script) => tell_end(rt, &script),
    }
}
