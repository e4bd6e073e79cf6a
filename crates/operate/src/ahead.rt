//! What a call on one key tells of its next step.

ghost use Rattle.std.specs.Prelude.{◌≡◌, ℕ, Option, is_some, option_map};
ghost use Rattle.operate.specs.Beneath.machine_model.specs.Operations.{kind_of, line_action, read_of};
ghost use Rattle.operate.specs.Beneath.machine_model.specs.States.{State};
ghost use Rattle.operate.specs.Beneath.machine_model.specs.Tellings.{published_by};
ghost use Rattle.operate.specs.Beneath.machine_model.specs.declared.operations.Operation.{Operation};
ghost use Rattle.key_finding.specs.Replies.{reply_of};
ghost use Rattle.operate.specs.Places.{answer_of, key_line};

use crate::key_op::{BelowAt, KeyAt, KeyOp};
use contract::{Entrant, Kind, Publication};
use key_finding::KeyReply;

impl KeyOp {
    /// Whether its next step is a READ's.
    #[inline(always)]
    pub fn is_reading(&self) -> bool
        ensures { (root_seen : Option ℕ) → result ≡ is_some (read_of (key_line self.now root_seen)) }
    {
        match &self.at {
            KeyAt::Root => self.root.is_reading(),
            KeyAt::RootAgain => self.root.is_reading(),
            KeyAt::Down(at) => match at {
                BelowAt::Read => true,
                BelowAt::Main { .. } => false,
                BelowAt::Entry { .. } => false,
                BelowAt::Listed { .. } => false,
                BelowAt::Change => self.change.is_reading(&self.work.swap),
                BelowAt::Renew => self.renew.is_reading(&self.work.swap),
                BelowAt::Clean => self.clean.is_reading(&self.work.swap),
                BelowAt::Climb => self.climb.is_reading(&self.work.swap),
                BelowAt::End => false,
                BelowAt::Impossible => false,
            },
        }
    }

    /// The main node that its next step is to swap in, if it is such a step, for the operation with this id. It is the operation's
    /// change of its key, or where it repairs the change of none.
    #[inline(always)]
    pub fn published(&self, id: u64) -> Option<Publication>
        ensures { (root_seen : Option ℕ) (operation : Operation) → result
            ≡ published_by (record operation { id = id; access = self.now.work.swap.read.access; generation = self.now.task.generation }) (key_line self.now root_seen) }
    {
        match &self.at {
            KeyAt::Root => None,
            KeyAt::RootAgain => None,
            KeyAt::Down(at) => match at {
                BelowAt::Read => None,
                BelowAt::Main { .. } => None,
                BelowAt::Entry { .. } => None,
                BelowAt::Listed { .. } => None,
                BelowAt::Change => self.change.published(&self.work.swap, self.entrant(id)),
                BelowAt::Renew => self.renew.published(&self.work.swap),
                BelowAt::Clean => self.clean.published(&self.work.swap),
                BelowAt::Climb => self.climb.published(&self.work.swap),
                BelowAt::End => None,
                BelowAt::Impossible => None,
            },
        }
    }

    /// The operation with this id, whose call it is.
    fn entrant(&self, id: u64) -> Entrant
        ensures { result ≡ record { id = id; access = self.now.work.swap.read.access; generation = self.now.task.generation } }
    {
        Entrant {
            id,
            access: self.work.swap.read.access,
            generation: self.task.generation,
        }
    }

    /// The kind of its next step, where it was told this of the root's generation.
    pub fn next_kind(&self, root_seen: Option<u64>) -> Kind
        ensures { (state : State) (operation : Operation) → result ≡ kind_of (line_action state operation (key_line self.now root_seen)) }
    {
        match &self.at {
            KeyAt::Root => self.root.next_kind(&self.work.swap.read, root_seen),
            KeyAt::RootAgain => self.root.next_kind(&self.work.swap.read, root_seen),
            KeyAt::Down(at) => match at {
                BelowAt::Read => self.work.swap.read.next_kind(root_seen),
                BelowAt::Main { .. } => Kind::Look,
                BelowAt::Entry { .. } => Kind::Look,
                BelowAt::Listed { .. } => Kind::Look,
                BelowAt::Change => self.change.next_kind(&self.work.swap, root_seen),
                BelowAt::Renew => self.renew.next_kind(&self.work.swap, root_seen),
                BelowAt::Clean => self.clean.next_kind(&self.work.swap, root_seen),
                BelowAt::Climb => self.climb.next_kind(&self.work.swap, root_seen),
                BelowAt::End => Kind::End,
                BelowAt::Impossible => Kind::ReadRoot,
            },
        }
    }

    /// The reply with which it ends by its next step, if it does.
    pub fn reply(&self) -> Option<KeyReply>
        ensures { (root_seen : Option ℕ) → answer_of (key_line self.now root_seen) ≡ option_map reply_of result }
    {
        match &self.at {
            KeyAt::Root => None,
            KeyAt::RootAgain => None,
            KeyAt::Down(at) => match at {
                BelowAt::Read => None,
                BelowAt::Main { .. } => None,
                BelowAt::Entry { .. } => None,
                BelowAt::Listed { .. } => None,
                BelowAt::Change => None,
                BelowAt::Renew => None,
                BelowAt::Clean => None,
                BelowAt::Climb => None,
                BelowAt::End => Some(self.reply),
                BelowAt::Impossible => None,
            },
        }
    }
}
