//! How an operation begins.

ghost use Rattle.std.specs.Prelude.{◌≡◌, ℕ, unwrap_or, Some, None, if◌then◌else◌};
ghost use Rattle.machine_model.specs.States.{root_at};
ghost use Rattle.machine_model.specs.Calls.{handle_of, opens_handle};
ghost use Rattle.machine_model.specs.Machine.{access_of, begin_denial, begun_operation, handle_closed, with_begin, least_free};
ghost use Rattle.machine_core.specs.Beneath.rdcss_root.specs.Holding.{IsReady, Moves};
ghost use Rattle.machine_core.specs.Beneath.rdcss_root.specs.Tables.{word_in};
ghost use Rattle.machine_model.specs.declared.roots.Descriptor.{Descriptor};
ghost use Rattle.machine_model.specs.declared.roots.RootWord.TheVariants.{Offer};
ghost use Rattle.running.specs.Places.{call_for};
ghost use Rattle.machine_core.specs.Beginnings.{Begins};
ghost use Rattle.machine_core.specs.Keeping.{IsCore, IsKept};
ghost use Rattle.proof_core.specs.Numbering.{KnowsNumbers};
ghost use Rattle.machine_core.specs.Seen.{seen};
ghost use Rattle.machine_core.specs.Told.{TellsBegin};
ghost use Rattle.proof_core.specs.Work.{NotesUpTo};

use crate::calls::{is_close, opens_handle, program_of};
use crate::handles::note_begin;
use crate::parts::{Actor, Parts, UnderWay};
use crate::telling::Begun;
use history::{Access, Call};
use running::Job;

/// The access of an open handle.
fn access_for(parts: &Parts, call: Call) -> Access
    ensures { result ≡ unwrap_or (access_of (root_at (seen parts.now) (handle_of call))) Access.Writable }
{
    parts.access(call.handle()).unwrap_or(Access::Writable)
}

/// The handle that a call opens, if it opens one.
#[tactic(auto, using(proof_core::proofs::Numbers::least_known))]
fn handle_to_open(parts: &Parts, call: Call) -> Option<u16>
    requires { KnowsNumbers parts.now.handles (seen parts.now) }
    ensures { result ≡ (if opens_handle call then Some (least_free (seen parts.now)) else None) }
{
    if opens_handle(call) {
        Some(parts.handles.least_free())
    } else {
        None
    }
}

/// What is under way when the actor begins this call now.
fn new_under_way(parts: &Parts, actor: u8, call: Call) -> UnderWay
    requires { KnowsNumbers parts.now.handles (seen parts.now) }
    ensures job { result.job ≡ record { id = parts.now.begun; actor = actor; handle = handle_of call; opens = if opens_handle call then Some (least_free (seen parts.now)) else None } }
    ensures call { call_for (handle_of call) result.program ≡ call }
    ensures epoch { result.epoch ≡ parts.now.heap.epoch }
{
    UnderWay {
        job: Job {
            id: parts.begun,
            actor,
            handle: call.handle(),
            opens: handle_to_open(parts, call),
        },
        program: program_of(call),
        epoch: parts.heap.epoch(),
    }
}

/// A close takes the handle away as it begins.
#[tactic(auto, using(crate::proofs::Knows::closed_word))]
fn close_handle(parts: &mut Parts, call: Call)
    requires ready { IsReady parts.old.heap parts.old.table.roots 4 }
    ensures closed { seen parts.new ≡ handle_closed (seen parts.old) call }
    ensures same { parts.new ≡ record parts.old { heap = parts.new.heap; table = record parts.old.table { roots = parts.new.table.roots } } }
    ensures moves { Moves parts.old.heap parts.new.heap parts.old.table.roots parts.new.table.roots 4 }
    ensures words { (handle : ℕ) → (offer : Descriptor) → word_in parts.new.table handle ≡ Offer offer → word_in parts.old.table handle ≡ Offer offer }
{
    if is_close(call) {
        parts.table.put(&mut parts.heap, call.handle(), None);
    }
}

impl Actor {
    /// Begins this operation.
    fn set_out(&mut self, under_way: UnderWay, access: Access)
        ensures { Begins under_way access self.old self.new }
    {
        self.programs.begin(under_way.program, access);
        self.under_way = Some(under_way);
    }
}

/// Lets the operation begin: the actor runs it, and records the epoch.
pub fn begin_operation(parts: &mut Parts, actor: u8, call: Call) -> Begun
    requires core { IsCore parts.old }
    requires allowed { begin_denial (seen parts.old) actor call None ≡ None }
    ensures begun { seen parts.new ≡ with_begin (seen parts.old) actor call (begun_operation (seen parts.old) call None) }
    ensures tells { TellsBegin (seen parts.old) actor call result }
    ensures kept { IsKept parts.new }
    ensures work { NotesUpTo 8 8 parts.old.heap parts.new.heap }
{
    let access = access_for(parts, call);
    let under_way = new_under_way(parts, actor, call);
    close_handle(parts, call);
    parts.heap.pin(actor);
    parts.table.unmark(actor);
    let index = actor as usize - 1;
    parts.actors[index].set_out(under_way, access);
    note_begin(&mut parts.handles, call, under_way.job.opens);
    parts.begun += 1;
    Begun {
        id: under_way.job.id,
        opens: under_way.job.opens,
    }
}
