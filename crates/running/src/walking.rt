//! The walks over all pairs, for the pairs or for their number.

ghost use Rattle.snapshot.specs.Copies.{IsReadyBeside};
ghost use Rattle.snapshot.specs.Walks.{CanWalk, HasRoom, walk_line};
ghost use Rattle.running.specs.Steps.{Does, outcome_of, scene};

use crate::job::{Job, Program};
use crate::programs::{ProgramAt, Programs};
use crate::ran::Ran;
use operate::Heap;
use snapshot::{Asking, Next, Roots, WalkCall, Walked};

impl Programs {
    /// Takes a step of a walk.
    #[inline(never)]
    pub(crate) fn step_walk(
        &mut self,
        call: WalkCall,
        root_seen: Option<u64>,
        job: &Job,
        roots: &mut Roots,
        generation: u64,
        heap: &mut Heap,
    ) -> Ran
        requires can { CanWalk heap.old.heap self.old.key.work.swap.read self.old.walk }
        requires room { HasRoom self.old.walk }
        requires ready { IsReadyBeside heap.old roots.old.roots self.old.key.work.private }
        ensures { Does job.now (Program.Walk call) (walk_line self.old.key.work.swap.read root_seen self.old.walk)
            (scene heap.old roots.old generation self.old) (outcome_of result self.new.key.work.swap.read.at) (scene heap.new roots.new generation self.new) }
    {
        match self
            .walk
            .step(&mut self.key.work, roots, job.handle, heap, root_seen)
        {
            Next::More(kind) => self.go_so(kind),
            Next::AskRoot => {
                let program = Program::Walk(call);
                let kind = self.ask(Asking::Unasked, job, &program, roots, generation, heap);
                Ran::Beside(kind)
            }
            Next::Done(kind, Walked::All) => self.come_to(ProgramAt::Walked(call), kind),
            Next::Done(kind, Walked::Impossible) => self.come_to(ProgramAt::Impossible, kind),
        }
    }
}
