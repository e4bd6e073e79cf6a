//! What one thread does with the lines of a script that are its actor's.

ghost use Rattle.std.specs.Prelude.{◌≡◌, OnOk, []};
ghost use Rattle.lock_runner.specs.Seats.{IsSeatOf};
ghost use Rattle.lock_runner.specs.Stepping.{HasGoneOn};
ghost use Rattle.ctrie_commands.specs.Working.{calls_in, IsUnused, HasPerformed, HasPerformedLine, HasSwept, HasSweptLine, HasPerformedAll, HasSweptAll, HasEnded};

use ctrie_base::Refusal;
use history::Call;
use lock_runner::{Between, Runner, Seat, Stop};
use script_commands::ThreadLine;
use std::alloc::AllocError;
use std::sync::Wait;

/// One actor's seat, and what came of the lines that are the actor's.
#[derive(Drop)]
pub(crate) struct Worker {
    pub(crate) seat: Seat,
    /// Why lines were denied, in their order.
    pub(crate) denied: Vec<Refusal>,
}

impl Worker {
    /// Performs the calls that the lines name for its actor, one after the other. After an error the lines
    /// after it were left out.
    pub(crate) fn perform_lines<R: Wait, B: Between>(
        &mut self,
        rt: &R,
        runner: &Runner,
        lines: &[ThreadLine],
        between: &B,
    ) -> Result<(), AllocError>
        requires seat { IsSeatOf runner.now self.old.seat }
        requires unused { IsUnused self.old.seat }
        requires none { self.old.denied.items ≡ [] }
        ensures seat { HasGoneOn self.old.seat self.new.seat }
        ensures sweeps { self.new.seat.sweeps ≡ self.old.seat.sweeps }
        ensures done { OnOk result (HasPerformedAll self.old.seat.actor lines.now self.new) }
        ensures ended { OnOk result (HasEnded self.new) }
    {
        for line in lines {
            self.perform_line(rt, runner, *line, between)?;
        }
        Ok(())
    }

    /// Performs the call that the line names for its actor, if it names one.
    #[tactic(auto, using(lock_runner::proofs::Steps::gone_same))]
    fn perform_line<R: Wait, B: Between>(
        &mut self,
        rt: &R,
        runner: &Runner,
        line: ThreadLine,
        between: &B,
    ) -> Result<(), AllocError>
        requires seat { IsSeatOf runner.now self.old.seat }
        requires unheard { self.old.seat.heard ≡ 0 }
        ensures seat { HasGoneOn self.old.seat self.new.seat }
        ensures sweeps { self.new.seat.sweeps ≡ self.old.seat.sweeps }
        ensures done { OnOk result (HasPerformedLine (calls_in self.old.seat.actor line) self.old self.new) }
    {
        match line {
            ThreadLine::Do { actor, call } if actor == self.seat.actor() => {
                self.perform_call(rt, runner, call, between)
            }
            _ => Ok(()),
        }
    }

    /// Performs a call, and notes why it is denied, if it is.
    fn perform_call<R: Wait, B: Between>(
        &mut self,
        rt: &R,
        runner: &Runner,
        call: Call,
        between: &B,
    ) -> Result<(), AllocError>
        requires seat { IsSeatOf runner.now self.old.seat }
        requires unheard { self.old.seat.heard ≡ 0 }
        ensures seat { HasGoneOn self.old.seat self.new.seat }
        ensures sweeps { self.new.seat.sweeps ≡ self.old.seat.sweeps }
        ensures done { OnOk result (HasPerformed call self.old self.new) }
    {
        match self.seat.perform(rt, runner, call, between).err() {
            None => Ok(()),
            Some(Stop::Denied(refusal)) => {
                self.seat.answers_are_all();
                Ok(self.denied.push(refusal)?)
            }
            Some(Stop::Memory) => Err(AllocError),
            // It has heard of no events.
            Some(Stop::Ahead) => unreachable!(),
        }
    }

    /// Takes the steps of the sweep that the lines name. After an error the lines after it were left out.
    pub(crate) fn sweep_lines<R: Wait>(
        &mut self,
        rt: &R,
        runner: &Runner,
        lines: &[ThreadLine],
    ) -> Result<(), AllocError>
        requires seat { IsSeatOf runner.now self.old.seat }
        requires unused { IsUnused self.old.seat }
        requires none { self.old.denied.items ≡ [] }
        ensures seat { HasGoneOn self.old.seat self.new.seat }
        ensures answers { self.new.seat.answers ≡ self.old.seat.answers }
        ensures running { self.new.seat.running ≡ self.old.seat.running }
        ensures done { OnOk result (HasSweptAll lines.now self.new) }
    {
        for line in lines {
            self.sweep_line(rt, runner, *line)?;
        }
        Ok(())
    }

    /// Takes the steps of the sweep that the line names, if it names some.
    #[tactic(auto, using(lock_runner::proofs::Steps::gone_same))]
    fn sweep_line<R: Wait>(
        &mut self,
        rt: &R,
        runner: &Runner,
        line: ThreadLine,
    ) -> Result<(), AllocError>
        requires seat { IsSeatOf runner.now self.old.seat }
        ensures seat { HasGoneOn self.old.seat self.new.seat }
        ensures answers { self.new.seat.answers ≡ self.old.seat.answers }
        ensures running { self.new.seat.running ≡ self.old.seat.running }
        ensures done { OnOk result (HasSweptLine line self.old self.new) }
    {
        match line {
            ThreadLine::Sweep { times } => self.sweep_often(rt, runner, times),
            ThreadLine::Do { .. } => Ok(()),
        }
    }

    /// Takes this many steps of the sweep, and notes why one is denied, if one is.
    #[tactic(auto, using(lock_runner::proofs::Steps::gone_same, lock_runner::proofs::Whole::gone_more))]
    fn sweep_often<R: Wait>(
        &mut self,
        rt: &R,
        runner: &Runner,
        times: u32,
    ) -> Result<(), AllocError>
        requires seat { IsSeatOf runner.now self.old.seat }
        ensures seat { HasGoneOn self.old.seat self.new.seat }
        ensures answers { self.new.seat.answers ≡ self.old.seat.answers }
        ensures running { self.new.seat.running ≡ self.old.seat.running }
        ensures done { OnOk result (HasSwept times self.old self.new) }
    {
        for _ in 0..times {
            match runner.sweep(rt, &mut self.seat) {
                Ok(_) => {}
                Err(Stop::Denied(refusal)) => return Ok(self.denied.push(refusal)?),
                Err(Stop::Memory) => return Err(AllocError),
                Err(Stop::Ahead) => unreachable!(),
            }
        }
        Ok(())
    }
}
