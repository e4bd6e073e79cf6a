//! ABORT's steps in the place of a program whose READ asks for the root's generation. Few steps are such: they stand out of the way of the others.

ghost use Rattle.std.specs.Prelude.{◌≡◌, None};
ghost use Rattle.running.specs.Beneath.trie_parts.specs.Steps.{IsAskingLine};
ghost use Rattle.running.specs.Beneath.rdcss_root.specs.Programs.{CanAbortOn};
ghost use Rattle.running.specs.Beneath.root_asking.specs.Asked.{IsUntold, abort_of};
ghost use Rattle.operate.specs.Places.{key_line};
ghost use Rattle.operate.specs.Steps.{ReadsKey};
ghost use Rattle.running.specs.Places.{asking_line, program_line, IsBegun, ReadsOn};
ghost use Rattle.running.specs.Steps.{Does, scene, taken_beside};

use crate::job::{Job, Program};
use crate::programs::{ProgramAt, Programs};
use ctrie_base::Kind;
use operate::{Heap, KeyCall};
use snapshot::{Asking, Roots};

impl Programs {
    /// Takes a step of ABORT, for a program whose READ asks. Its kind tells all of it.
    #[inline(never)]
    pub(crate) fn ask(
        &mut self,
        asking: Asking,
        job: &Job,
        program: &Program,
        roots: &mut Roots,
        generation: u64,
        heap: &mut Heap,
    ) -> Kind
        requires asks { IsAskingLine (program_line self.old None program.now) }
        requires untold { IsUntold asking }
        requires begun { IsBegun program.now self.old }
        requires reads { ReadsOn program.now self.old }
        requires can { CanAbortOn heap.old roots.old (abort_of asking) }
        ensures { Does job.now program.now (asking_line self.old program.now ProgramAt.Runs asking)
            (scene heap.old roots.old generation self.old) (taken_beside result) (scene heap.new roots.new generation self.new) }
    {
        let mut asking = asking;
        let kind = asking.step(roots, job.handle, heap);
        self.at = ProgramAt::Runs;
        self.asking = asking;
        kind
    }

    /// The same where ABORT is under way.
    #[inline(never)]
    pub(crate) fn ask_on(
        &mut self,
        job: &Job,
        program: &Program,
        roots: &mut Roots,
        generation: u64,
        heap: &mut Heap,
    ) -> Kind
        requires asks { IsAskingLine (program_line self.old None program.now) }
        requires untold { IsUntold self.old.asking }
        requires begun { IsBegun program.now self.old }
        requires reads { ReadsOn program.now self.old }
        requires can { CanAbortOn heap.old roots.old (abort_of self.old.asking) }
        ensures { Does job.now program.now (asking_line self.old program.now ProgramAt.Runs self.old.asking)
            (scene heap.old roots.old generation self.old) (taken_beside result) (scene heap.new roots.new generation self.new) }
    {
        let asking = self.asking;
        self.ask(asking, job, program, roots, generation, heap)
    }

    /// Takes ABORT's first step, for a call on one key.
    #[inline(never)]
    pub(crate) fn ask_for_key(
        &mut self,
        call: &KeyCall,
        job: &Job,
        roots: &mut Roots,
        generation: u64,
        heap: &mut Heap,
    ) -> Kind
        requires asks { IsAskingLine (key_line self.old.key None) }
        requires begun { self.old.key.task.call ≡ call.now }
        requires reads { ReadsKey self.old.key }
        ensures { Does job.now (Program.Key call.now) (key_line self.old.key None)
            (scene heap.old roots.old generation self.old) (taken_beside result) (scene heap.new roots.new generation self.new) }
    {
        let program = Program::Key(*call);
        self.ask(Asking::Unasked, job, &program, roots, generation, heap)
    }
}
