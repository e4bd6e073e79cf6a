//! What the laws say of a machine, whatever steps it has taken.

ghost use Rattle.machine_core.specs.Asking.{asked};
ghost use Rattle.machine_model.specs.Keys.{FitsKey};
ghost use Rattle.step_machine.specs.Beneath.proof_order.specs.Laws.Orders.{IsExplained};
ghost use Rattle.machine_model.specs.Limits.{bounded};
ghost use Rattle.proof_runs.specs.Machines.{past_of, state_of};

use crate::machine::Machine;
use machine_core::Step;

impl Machine {
    /// The order that `order` gives is legal for the history that `events` gives, and leads to a world that has
    /// just the open handles, each of its kind and with its content. It does nothing.
    pub fn explained(&self)
        ensures { IsExplained (bounded self.now.limits) (state_of self.now) (past_of self.now) }
    {
        let _ = self.steps();
        let _ = self.limits();
        proof_runs::every_order_is_legal();
    }

    /// The key of a step has 64 bits, since it is one of the program's.
    pub(crate) fn fits(step: Step)
        ensures { FitsKey (asked step) }
    {
        if let Step::Begin { call, .. } = step {
            machine_core::key_fits(call);
        }
    }
}
