//! The programs of calls that aren't on one key. Few steps are such: they stand out of the way of the others, and are told in few words.

ghost use Rattle.std.specs.Prelude.{◌≡◌, ◌<◌, ◌-◌, ◌^◌};
ghost use Rattle.snapshot.specs.Copies.{CanCopy, IsReadyBeside, copy_line};
ghost use Rattle.running.specs.Places.{program_line, IsNoKeyCall, ReadsOn};
ghost use Rattle.running.specs.Steps.{CanProgram, Does, RoomFor, outcome_of, scene};

use crate::job::{Job, Program};
use crate::programs::{ProgramAt, Programs};
use crate::ran::Ran;
use ctrie_base::Kind;
use operate::Heap;
use snapshot::{Asking, CopyCall, Next, Roots};

impl Programs {
    /// Takes a step of the program, which was told this of the root's generation, and isn't a call on one key.
    #[inline(never)]
    pub(crate) fn step_beside(
        &mut self,
        root_seen: Option<u64>,
        job: &Job,
        program: &Program,
        roots: &mut Roots,
        generations: &mut u64,
        heap: &mut Heap,
    ) -> Ran
        requires beside { IsNoKeyCall program.now }
        requires program { CanProgram (scene heap.old roots.old generations.old self.old) program.now }
        requires room { RoomFor program.now self.old }
        requires ready { IsReadyBeside heap.old roots.old.roots self.old.key.work.private }
        requires attempts { self.old.copy.attempt < 2 ^ 64 - 1 }
        requires reads { ReadsOn program.now self.old }
        requires generations { generations.old < 2 ^ 64 - 1 }
        ensures { Does job.now program.now (program_line self.old root_seen program.now)
            (scene heap.old roots.old generations.old self.old) (outcome_of result self.new.key.work.swap.read.at) (scene heap.new roots.new generations.new self.new) }
    {
        match program {
            Program::Key(_) => unreachable!(),
            Program::Copy(call) => self.step_copy(*call, root_seen, job, roots, generations, heap),
            Program::Walk(call) => self.step_walk(*call, root_seen, job, roots, *generations, heap),
            Program::Close => self.go_so(Kind::End),
        }
    }

    /// Takes a step of a snapshot, a freeze or a clear.
    #[inline(never)]
    fn step_copy(
        &mut self,
        call: CopyCall,
        root_seen: Option<u64>,
        job: &Job,
        roots: &mut Roots,
        generations: &mut u64,
        heap: &mut Heap,
    ) -> Ran
        requires can { CanCopy heap.old roots.old self.old.key.work generations.old self.old.copy }
        requires ready { IsReadyBeside heap.old roots.old.roots self.old.key.work.private }
        requires attempts { self.old.copy.attempt < 2 ^ 64 - 1 }
        requires generations { generations.old < 2 ^ 64 - 1 }
        requires reads { ReadsOn (Program.Copy call) self.old }
        ensures { Does job.now (Program.Copy call) (copy_line self.old.key.work.swap.read root_seen self.old.copy)
            (scene heap.old roots.old generations.old self.old) (outcome_of result self.new.key.work.swap.read.at) (scene heap.new roots.new generations.new self.new) }
    {
        let task = job.swapping(call);
        match self.copy.step(
            &mut self.key.work,
            roots,
            generations,
            heap,
            task,
            root_seen,
        ) {
            Next::More(kind) => self.go_so(kind),
            Next::AskRoot => {
                let program = Program::Copy(call);
                let kind = self.ask(Asking::Unasked, job, &program, roots, *generations, heap);
                Ran::Beside(kind)
            }
            Next::Done(kind, reply) => self.come_to(ProgramAt::Swapped(reply), kind),
        }
    }

    /// The program took a step of this kind, and goes on.
    pub(crate) fn go_so(&mut self, kind: Kind) -> Ran
        ensures same { self.new ≡ record self.old { at = ProgramAt.Runs; asking = Asking.Unasked } }
        ensures ran { result ≡ Ran.Reading kind }
    {
        self.run_on();
        Ran::Reading(kind)
    }

    /// The program took a step of this kind, and stands here now.
    pub(crate) fn come_to(&mut self, at: ProgramAt, kind: Kind) -> Ran
        ensures same { self.new ≡ record self.old { at = at; asking = Asking.Unasked } }
        ensures ran { result ≡ Ran.Reading kind }
    {
        self.at = at;
        self.asking = Asking::Unasked;
        Ran::Reading(kind)
    }
}
