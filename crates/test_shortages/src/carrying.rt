//! Carrying out a script on a machine. A step for which no memory was found is taken again.

use ctrie_base::{Kind, Refusal};
use history::Call;
use script_text::Command;
use std::alloc::{AllocError, Global};
use step_machine::{GO_LIMIT, Limits, Machine, Step};

/// Why a run has no end.
#[derive(Clone, Copy, Debug, PartialEq, Eq)]
pub enum Stop {
    /// No memory was found, and what was to be done can't be done again.
    Memory,
    /// A machine that found no memory for a step isn't as it was.
    Changed,
}

impl From<Refusal> for Stop {
    fn from(_refusal: Refusal) -> Stop {
        Stop::Memory
    }
}

impl From<AllocError> for Stop {
    fn from(_e: AllocError) -> Stop {
        Stop::Memory
    }
}

/// What a machine shows without taking memory.
#[derive(Clone, Copy, PartialEq, Eq)]
struct Shown {
    steps: u64,
    recorded: usize,
    events: usize,
    used: u32,
    free: u32,
    limbo: u32,
    epoch: u64,
    handles: u32,
    kind: Option<Kind>,
}

impl Shown {
    fn by(machine: &Machine, step: Step) -> Shown {
        Shown {
            steps: machine.steps_taken(),
            recorded: machine.steps().len(),
            events: machine.events().len(),
            used: machine.used(),
            free: machine.free_slots(),
            limbo: machine.limbo_len(),
            epoch: machine.epoch(),
            handles: machine.handles_taken(),
            kind: match step {
                Step::Begin { actor, .. } | Step::Go { actor } => machine.next_kind(actor),
                Step::Sweep => None,
            },
        }
    }
}

/// Takes a step, and returns whether it was taken.
fn take(machine: &mut Machine, step: Step) -> Result<bool, Stop> {
    let before = Shown::by(machine, step);
    match machine.apply(step) {
        Ok(_) => Ok(true),
        Err(Refusal::Memory) if Shown::by(machine, step) == before => take_again(machine, step),
        Err(Refusal::Memory) => Err(Stop::Changed),
        Err(_) => Ok(false),
    }
}

/// The same where no memory was found for it before.
fn take_again(machine: &mut Machine, step: Step) -> Result<bool, Stop> {
    match machine.apply(step) {
        Ok(_) => Ok(true),
        Err(Refusal::Memory) => Err(Stop::Memory),
        Err(_) => Ok(false),
    }
}

/// Takes steps of the actor's operation, at most this many, until its next step is of this kind or it has ended.
fn go_on(machine: &mut Machine, actor: u8, wanted: Option<Kind>, most: u32) -> Result<(), Stop> {
    for _ in 0..most {
        let kind = machine.next_kind(actor);
        if kind.is_none() || kind == wanted {
            break;
        }
        take(machine, Step::Go { actor })?;
    }
    Ok(())
}

/// Begins the actor's operation and, if it may begin, takes steps until it has ended.
fn perform(machine: &mut Machine, actor: u8, call: Call) -> Result<(), Stop> {
    if take(machine, Step::Begin { actor, call })? {
        go_on(machine, actor, None, GO_LIMIT)?;
    }
    Ok(())
}

fn carry_out(machine: &mut Machine, command: Command) -> Result<(), Stop> {
    match command {
        Command::Begin { actor, call } => take(machine, Step::Begin { actor, call }).map(|_| ()),
        Command::Go { actor, times } => go_on(machine, actor, None, times),
        Command::Until { actor, kind } => go_on(machine, actor, Some(kind), GO_LIMIT),
        Command::Finish { actor } => go_on(machine, actor, None, GO_LIMIT),
        Command::Do { actor, call } => perform(machine, actor, call),
        Command::Sweep { times } => sweep(machine, times),
    }
}

fn sweep(machine: &mut Machine, times: u32) -> Result<(), Stop> {
    for _ in 0..times {
        take(machine, Step::Sweep)?;
    }
    Ok(())
}

/// The machine that has carried out the commands.
pub fn carried_out(alloc: Global, limits: Limits, commands: &[Command]) -> Result<Machine, Stop> {
    let mut machine = Machine::new(alloc, limits)?;
    for command in commands {
        carry_out(&mut machine, *command)?;
    }
    Ok(machine)
}
