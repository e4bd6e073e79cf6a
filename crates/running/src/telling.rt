//! What the programs of an operation tell of it.

ghost use Rattle.std.specs.Prelude.{◌≡◌, ℕ, true, IfOk, OnErr, Option, is_some};
ghost use Rattle.running.specs.Beneath.key_finding.specs.Replies.{reply_of as key_reply};
ghost use Rattle.operate.specs.Places.{answer_of};
ghost use Rattle.snapshot.specs.Tasks.{reply_of};
ghost use Rattle.running.specs.Beneath.machine_model.specs.Operations.{kind_of, line_action};
ghost use Rattle.running.specs.Beneath.machine_model.specs.States.{State};
ghost use Rattle.running.specs.Beneath.machine_model.specs.Tellings.{published_by};
ghost use Rattle.running.specs.Beneath.machine_model.specs.declared.operations.Operation.{Operation};
ghost use Rattle.running.specs.Beneath.rdcss_root.specs.Tables.{Table};
ghost use Rattle.running.specs.Places.{are_pairs, asking_line, generation_in, line_for, operation_for, program_line, IsSound, IsWaiting};

use crate::job::{Job, Program};
use crate::programs::{ProgramAt, Programs};
use ctrie_base::Kind;
use operate::{KeyReply, Publication};
use snapshot::{Access, Asking, CopyReply, Reply};
use std::alloc::AllocError;

impl Programs {
    /// The reply with which the operation ends by its next step, if it does. The pairs that a walk has met are handed out, and
    /// not copied: so the operation has to end with them.
    #[inline(always)]
    pub fn take_reply(&mut self, program: Program) -> Option<Reply>
        ensures reply { result ≡ answer_of (line_for program self.old) }
        ensures same { self.new ≡ record self.old { walk = self.new.walk } }
    {
        match &self.at {
            ProgramAt::Runs => self.reply_at_end(program),
            ProgramAt::Answered(reply) => Some(key_reply(*reply)),
            ProgramAt::Swapped(reply) => Some(reply_of(*reply)),
            ProgramAt::Walked(call) => {
                let call = *call;
                Some(self.walk.take_reply(call))
            }
            ProgramAt::Impossible => None,
        }
    }

    /// A copy of that reply, while the operation goes on. Only memory may be lacking, and only for a list of pairs.
    pub fn copy_reply(&self, program: Program) -> Result<Option<Reply>, AllocError>
        ensures reply { IfOk result (λ reply. reply ≡ answer_of (line_for program self.now)) }
        ensures only_pairs { OnErr result (are_pairs (answer_of (line_for program self.now)) ≡ true) }
    {
        Ok(match &self.at {
            ProgramAt::Runs => self.reply_at_end(program),
            ProgramAt::Answered(reply) => Some(key_reply(*reply)),
            ProgramAt::Swapped(reply) => Some(reply_of(*reply)),
            ProgramAt::Walked(call) => Some(self.walk.copy_reply(*call)?),
            ProgramAt::Impossible => None,
        })
    }

    /// Whether the operation ends by its next step. Most often its program runs: that is asked first.
    #[inline(always)]
    pub fn is_over(&self, program: &Program) -> bool
        ensures { result ≡ is_some (answer_of (line_for program.now self.now)) }
    {
        match &self.at {
            ProgramAt::Runs => self.is_at_end(program),
            _ => self.is_over_at(program),
        }
    }

    /// The same, wherever it stands.
    #[inline(never)]
    fn is_over_at(&self, program: &Program) -> bool
        ensures { result ≡ is_some (answer_of (line_for program.now self.now)) }
    {
        match &self.at {
            ProgramAt::Runs => self.is_at_end(program),
            ProgramAt::Answered(_) => true,
            ProgramAt::Swapped(_) => true,
            ProgramAt::Walked(_) => true,
            ProgramAt::Impossible => false,
        }
    }

    /// The same where its program runs. Most are calls on one key: that is asked first.
    #[inline(always)]
    fn is_at_end(&self, program: &Program) -> bool
        ensures { (root_seen : Option ℕ) → result ≡ is_some (answer_of (program_line self.now root_seen program.now)) }
    {
        match program {
            Program::Key(_) => self.key.reply().is_some(),
            _ => self.is_at_end_of(program),
        }
    }

    /// The same, whichever program it is.
    #[inline(never)]
    fn is_at_end_of(&self, program: &Program) -> bool
        ensures { (root_seen : Option ℕ) → result ≡ is_some (answer_of (program_line self.now root_seen program.now)) }
    {
        match program {
            Program::Key(_) => self.key.reply().is_some(),
            Program::Close => true,
            Program::Copy(_) => false,
            Program::Walk(_) => false,
        }
    }

    /// The reply with which the program ends by its next step, if it does.
    fn reply_at_end(&self, program: Program) -> Option<Reply>
        ensures { (root_seen : Option ℕ) → answer_of (program_line self.now root_seen program) ≡ result }
    {
        match program {
            Program::Key(_) => match self.key.reply() {
                Some(reply) => Some(key_reply(reply)),
                None => None,
            },
            Program::Close => Some(Reply::Closed),
            Program::Copy(_) => None,
            Program::Walk(_) => None,
        }
    }

    /// The main node that the operation's next step is to swap in, if it is such a step, and the operation where that is the change
    /// of its key. Another main node may come first: then the step swaps nothing.
    #[tactic(auto, using(crate::proofs::Ahead::publishes_so, crate::proofs::Ahead::publishes_nothing))]
    #[inline(always)]
    pub fn published(&self, job: &Job, program: &Program) -> Option<Publication>
        ensures { (table : Table) (operation : Operation) → result ≡ published_by (operation_for job.now program.now table self.now operation) (line_for program.now self.now) }
    {
        match &self.at {
            ProgramAt::Runs => self.published_by_program(job, program),
            ProgramAt::Answered(_) => None,
            ProgramAt::Swapped(_) => None,
            ProgramAt::Walked(_) => None,
            ProgramAt::Impossible => None,
        }
    }

    /// The same, where its program runs.
    #[inline(always)]
    fn published_by_program(&self, job: &Job, program: &Program) -> Option<Publication>
        ensures { (table : Table) (operation : Operation) (root_seen : Option ℕ) →
            published_by (operation_for job.now program.now table self.now operation) (program_line self.now root_seen program.now) ≡ result }
    {
        match program {
            Program::Key(_) => self.key.published(job.id),
            Program::Copy(_) => None,
            Program::Walk(_) => None,
            Program::Close => None,
        }
    }

    /// The kind of the operation's next step.
    pub fn next_kind(&self, program: Program) -> Kind
        requires sound { IsSound program self.now }
        ensures { (state : State) (operation : Operation) → result ≡ kind_of (line_action state operation (line_for program self.now)) }
    {
        match &self.at {
            ProgramAt::Runs => self.running_kind(program),
            ProgramAt::Answered(_) => Kind::End,
            ProgramAt::Swapped(_) => Kind::End,
            ProgramAt::Walked(_) => Kind::End,
            ProgramAt::Impossible => Kind::ReadRoot,
        }
    }

    fn running_kind(&self, program: Program) -> Kind
        requires waits { IsWaiting self.now.asking (program_line self.now None program) }
        ensures { (state : State) (operation : Operation) → result ≡ kind_of (line_action state operation (asking_line self.now program ProgramAt.Runs self.now.asking)) }
    {
        match &self.asking {
            Asking::Unasked => self.kind_of_program(program, None),
            Asking::Told(generation) => self.kind_of_program(program, Some(*generation)),
            Asking::Met(_) => Kind::SwapRoot,
        }
    }

    fn kind_of_program(&self, program: Program, root_seen: Option<u64>) -> Kind
        ensures { (state : State) (operation : Operation) → result ≡ kind_of (line_action state operation (program_line self.now root_seen program)) }
    {
        match program {
            Program::Key(_) => self.key.next_kind(root_seen),
            Program::Copy(_) => self.copy.next_kind(&self.key.work.swap.read, root_seen),
            Program::Walk(_) => self.walk.next_kind(&self.key.work.swap.read, root_seen),
            Program::Close => Kind::End,
        }
    }

    /// The kind of the handle on which the operation was called.
    pub fn access(&self) -> Access
        ensures { result ≡ self.now.key.work.swap.read.access }
    {
        self.key.work.swap.read.access
    }

    /// The generation of the root that ROOT gave last.
    pub fn generation(&self, program: Program) -> Option<u64>
        ensures { result ≡ generation_in program self.now }
    {
        match program {
            Program::Key(_) => self.key.task.generation,
            Program::Copy(_) => self.copy.generation,
            Program::Walk(_) => self.copy.generation,
            Program::Close => self.copy.generation,
        }
    }
}

/// The reply to a call on one key.
pub fn key_reply(reply: KeyReply) -> Reply
    ensures { result ≡ key_reply reply }
{
    match reply {
        KeyReply::Found(value) => Reply::Found(value),
        KeyReply::Truth(done) => Reply::Truth(done),
        KeyReply::Crowded => Reply::Crowded,
        KeyReply::NoSlots => Reply::NoSlots,
    }
}

/// The reply to a call that swaps the root.
fn reply_of(reply: CopyReply) -> Reply
    ensures { result ≡ reply_of reply }
{
    match reply {
        CopyReply::Opened(handle) => Reply::Opened(handle),
        CopyReply::Cleared => Reply::Cleared,
        CopyReply::NoSlots => Reply::NoSlots,
    }
}
