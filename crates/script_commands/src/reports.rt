//! The report of a script's run.

ghost use Rattle.std.specs.Prelude.{◌≡◌, ◌++◌, Some, All, IfOk, OnOk, drop};
ghost use Rattle.std.specs.String.{string_bytes};
ghost use Rattle.history_text.specs.Grammar.{EventFits};
ghost use Rattle.script_commands.specs.Beneath.machine_model.specs.Records.{order_of};
ghost use Rattle.script_text.specs.Steps.{all_steps};
ghost use Rattle.script_text.specs.Views.{read};
ghost use Rattle.script_commands.specs.Beneath.proof_runs.specs.Machines.{past_of, state_of};
ghost use Rattle.script_commands.specs.Beneath.proof_runs.specs.Legality.{IsLegalFor};
ghost use Rattle.script_commands.specs.Legality.{told_in, IsLegalText};
ghost use Rattle.script_commands.specs.Recorded.{after_line, recorded_from, recorded_in};
ghost use Rattle.script_commands.specs.Reports.{denied_text, slots_text, event_lines, actor_of, told, all_told, end_lines, last_lines, last_of, report, denied_lines, record_report};

use crate::stepping::carry_out;
use ctrie_base::Refusal;
use history::Event;
use history_text::{EventText, OrderText, events_fit};
use script_text::{Command, Script};
use std::alloc::{AllocError, Global};
use std::fmt;
use step_machine::{Machine, Record};

/// A denied line, as `denied 1 5 Busy`.
#[derive(Clone, Copy)]
struct DeniedText {
    actor: u8,
    refusal: Refusal,
}

impl fmt::Display for DeniedText {
    ghost output = { λ t. Some (denied_text t.actor t.refusal) };

    fn fmt<W: fmt::Write>(&self, f: &mut fmt::Formatter<W>) -> fmt::Result {
        let number = self.refusal.number();
        write!(f, "denied {} {number} {}", self.actor, self.refusal)
    }
}

/// How many slots are in use, free and in limbo, as `slots used 4 free 60 limbo 1`.
#[derive(Clone, Copy)]
struct SlotsText {
    used: u32,
    free: u32,
    limbo: u32,
}

impl fmt::Display for SlotsText {
    ghost output = { λ t. Some (slots_text t.used t.free t.limbo) };

    fn fmt<W: fmt::Write>(&self, f: &mut fmt::Formatter<W>) -> fmt::Result {
        write!(
            f,
            "slots used {} free {} limbo {}",
            self.used, self.free, self.limbo
        )
    }
}

/// The report of the script's run: which hash, what each line tells, the order, and the slots. Only
/// memory is refused.
pub fn report_of(alloc: Global, script: &Script<Command>) -> Result<String, AllocError>
    ensures text { IfOk result (λ text. string_bytes text ≡ report (read script.now)) }
    ensures legal { IfOk result (λ text. IsLegalText (string_bytes text) (told_in script.now.limits.hash (last_of (read script.now)).past)) }
{
    // The limits that a script says are in range.
    let Ok(mut machine) = Machine::new(alloc, script.limits) else {
        return Err(AllocError);
    };
    let mut text = String::new(alloc);
    writeln!(text, "hash {}", script.limits.hash)?;
    tell_all(&mut text, &mut machine, &script.lines)?;
    tell_last(&mut text, &machine)?;
    history_is_legal(&machine);
    Ok(text)
}

/// The machine's order is legal for its history, whose events have a spelling.
fn history_is_legal(machine: &Machine)
    ensures fit { All EventFits (past_of machine.now).events }
    ensures legal { IsLegalFor machine.now (order_of (past_of machine.now)) }
{
    events_fit(machine.events());
}

/// Carries out these commands, and adds what they tell.
fn tell_all(
    text: &mut String,
    machine: &mut Machine,
    commands: &[Command],
) -> Result<(), AllocError>
    ensures state { OnOk result (recorded_in machine.new ≡ recorded_from (recorded_in machine.old) (all_steps (state_of machine.old) commands.now)) }
    ensures text { OnOk result (string_bytes text.new ≡ string_bytes text.old ++ all_told (recorded_in machine.old) commands.now) }
{
    for command in commands {
        tell(text, machine, *command)?;
    }
    Ok(())
}

/// Carries out a command, and adds what it tells: that it is denied, or else the events that it added.
fn tell(text: &mut String, machine: &mut Machine, command: Command) -> Result<(), AllocError>
    ensures state { OnOk result (recorded_in machine.new ≡ after_line (recorded_in machine.old) command) }
    ensures text { OnOk result (string_bytes text.new ≡ string_bytes text.old ++ told (recorded_in machine.old) command) }
{
    let before = machine.events().len();
    match carry_out(machine, command)? {
        Some(refusal) => {
            let actor = actor_of(command);
            writeln!(text, "{}", DeniedText { actor, refusal })
        }
        None => tell_events(text, machine.events().get(before..).unwrap_or(&[])),
    }
}

/// The actor that a command names, 0 for a sweep.
fn actor_of(command: Command) -> u8
    ensures { result ≡ actor_of command }
{
    match command {
        Command::Begin { actor, .. }
        | Command::Go { actor, .. }
        | Command::Until { actor, .. }
        | Command::Finish { actor }
        | Command::Do { actor, .. } => actor,
        Command::Sweep { .. } => 0,
    }
}

/// Adds the lines of these events.
fn tell_events(text: &mut String, events: &[Event]) -> Result<(), AllocError>
    ensures { OnOk result (string_bytes text.new ≡ string_bytes text.old ++ event_lines events.now) }
{
    for event in events {
        writeln!(text, "{}", EventText(event))?;
    }
    Ok(())
}

/// Adds the last lines: the order and the slots.
fn tell_last(text: &mut String, machine: &Machine) -> Result<(), AllocError>
    ensures { OnOk result (string_bytes text.new ≡ string_bytes text.old ++ last_lines (recorded_in machine.now)) }
{
    let Ok(order) = machine.order() else {
        return Err(AllocError);
    };
    let used = machine.used();
    let free = machine.free_slots();
    let limbo = machine.limbo_len();
    tell_end(text, &order, SlotsText { used, free, limbo })
}

/// Adds the line of the order and that of the slots.
fn tell_end(text: &mut String, order: &[u64], slots: SlotsText) -> Result<(), AllocError>
    ensures { OnOk result (string_bytes text.new ≡ string_bytes text.old ++ end_lines order.now slots.used slots.free slots.limbo) }
{
    writeln!(text, "{}", OrderText(order))?;
    writeln!(text, "{slots}")
}

/// The report of what threads did, with the lines of their denials after the events.
pub fn report_of_record(alloc: Global, made: &Record, denied: &str) -> Result<String, AllocError>
    ensures text { IfOk result (λ text. string_bytes text ≡ record_report made.now denied.now) }
    ensures fit { All EventFits made.now.events.items }
{
    events_fit(&made.events);
    let mut text = String::new(alloc);
    writeln!(text, "hash {}", made.limits.hash)?;
    tell_events(&mut text, &made.events)?;
    text.push_str(denied)?;
    let slots = SlotsText {
        used: made.used,
        free: made.free,
        limbo: made.limbo,
    };
    tell_end(&mut text, &made.order, slots)?;
    Ok(text)
}

/// Adds a line for each of an actor's denials.
pub fn tell_denied(text: &mut String, actor: u8, denied: &[Refusal]) -> Result<(), AllocError>
    ensures { OnOk result (string_bytes text.new ≡ string_bytes text.old ++ denied_lines actor denied.now) }
{
    for refusal in denied {
        let line = DeniedText {
            actor,
            refusal: *refusal,
        };
        writeln!(text, "{line}")?;
    }
    Ok(())
}
