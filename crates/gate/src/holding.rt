//! Taking the gate, and giving it back.
ghost use Rattle.std.specs.Prelude.{◌≡◌, ◌∷◌, [], false, IsTrue};
ghost use Rattle.gate.specs.Logs.{HasWorked};
ghost use Rattle.gate.specs.Views.{holding, IsOf, HasTaken, HasLeft};
ghost use Rattle.gate.specs.Rules.{only_slot};

use crate::gates::Gate;
use crate::objects::Object;
use crate::rules::{Enter, Leave};
use crate::seats::Pass;

impl<O: Object<C, A>, C, A> Gate<O, C, A> {
    /// Takes the gate if it is open, and returns whether it was.
    #[inline(always)]
    pub(crate) fn try_enter(&self, pass: &mut Pass<O, C, A>, number: u8) -> bool
        requires seat { pass.old.table_id ≡ self.now.id }
        requires number { IsOf number pass.old.me }
        ensures seat { pass.new.table_id ≡ pass.old.table_id }
        ensures inside { IsTrue result → HasTaken 0 pass.old.me pass.new.me }
        ensures shut { result ≡ false → pass.new.me ≡ pass.old.me }
    {
        let found = self
            .table
            .shared
            .compare_exchange::<Enter>(pass, 0, 0, number as u64);
        found == 0
    }

    /// Gives the board back, with one call more at most, and opens the gate.
    #[inline(always)]
    pub(crate) fn leave(&self, pass: &mut Pass<O, C, A>)
        requires seat { pass.old.table_id ≡ self.now.id }
        requires inside { (number : _) × (seen : _) × (board : _) × (now : _) × (pass.old.me ≡ (holding number seen ((0, board) ∷ []), (0, now) ∷ [])) × HasWorked O.answers number board now }
        ensures seat { pass.new.table_id ≡ pass.old.table_id }
        ensures left { HasLeft O.answers only_slot pass.old.me pass.new.me }
    {
        self.table.shared.store::<Leave>(pass, 0, 0);
    }
}
