//! The programs of an actor's operations, changed in place.

ghost use Rattle.std.specs.Prelude.{◌≡◌, ◌<◌, ◌≤◌, ◌+◌, ◌-◌, ◌^◌, ℕ, [], length, Option, None, Some, IfErr, OnErr, OnOk};
ghost use Rattle.running.specs.Beneath.epochs.specs.Memories.{KeepsEpochs};
ghost use Rattle.running.specs.Beneath.machine_model.specs.Operations.{first_line};
ghost use Rattle.running.specs.Beneath.trie_parts.specs.Holding.{AreHeld, KeepsOthers};
ghost use Rattle.running.specs.Beneath.rdcss_root.specs.Programs.{CanAbortOn};
ghost use Rattle.running.specs.Beneath.root_asking.specs.Asked.{abort_of};
ghost use Rattle.operate.specs.Places.{key_line};
ghost use Rattle.operate.specs.Steps.{CanKey};
ghost use Rattle.snapshot.specs.Copies.{IsReadyBeside};
ghost use Rattle.running.specs.Places.{asking_line, call_for, generation_in, line_for, program_line, IsBegun, IsSound, IsWaiting, ReadsOn};
ghost use Rattle.running.specs.Steps.{CanProgram, CanStep, Does, IsWalk, RoomFor, scene, taken_in};
ghost use Rattle.running.specs.declared.job.Program.{Program as AProgram};

use crate::job::{Job, Program};
use crate::taken::Taken;
use ctrie_base::{HashKind, Kind, Refusal};
use operate::{Heap, KeyCall, KeyOp, KeyReply};
use snapshot::{Access, Asking, CopyOp, CopyReply, Next, Roots, Walk, WalkCall};
use std::alloc::Global;

/// How far an operation has come.
#[derive(Clone, Copy)]
pub enum ProgramAt {
    /// Its program runs.
    Runs,
    /// It was a call on one key, and has ended with this reply.
    Answered(KeyReply),
    /// It swapped the root, or found no free slot: it ends with this reply.
    Swapped(CopyReply),
    /// It was this walk, and has met all pairs: it ends with these, or with their number.
    Walked(WalkCall),
    /// A node is of another kind than the program takes it for. No machine comes here.
    Impossible,
}

/// The programs of an actor's operations, kept in place: one at most is under way.
pub struct Programs {
    pub(crate) at: ProgramAt,
    pub(crate) asking: Asking,
    /// The calls on one key; its READ and its private list are those of all.
    pub(crate) key: KeyOp,
    pub(crate) copy: CopyOp,
    /// The calls for all pairs, and for their number.
    pub(crate) walk: Walk,
}

impl Drop for Programs {
    fn drop(self) {
        let Programs {
            at: _,
            asking: _,
            key: _,
            copy: _,
            walk: _,
        } = self;
    }
}

impl Programs {
    /// None of them has begun. It takes no memory.
    pub fn new(alloc: Global, hashes: HashKind) -> Programs
        ensures hashes { result.key.task.hashes ≡ hashes }
        ensures private { result.key.work.private ≡ [] }
    {
        Programs {
            at: ProgramAt::Impossible,
            asking: Asking::Unasked,
            key: KeyOp::new(hashes),
            copy: CopyOp::new(),
            walk: Walk::new(alloc),
        }
    }

    /// Begins this one, on a handle of this kind.
    pub fn begin(&mut self, program: Program, access: Access)
        ensures line { (handle : ℕ) → line_for program self.new ≡ first_line (call_for handle program) }
        ensures attempt { self.new.copy.attempt ≡ 0 }
        ensures generation { generation_in program self.new ≡ None }
        ensures hashes { self.new.key.task.hashes ≡ self.old.key.task.hashes }
        ensures access { self.new.key.work.swap.read.access ≡ access }
        ensures private { self.new.key.work.private ≡ self.old.key.work.private }
        ensures sound { IsSound program self.new }
    {
        self.run_on();
        self.key.work.swap.read.access = access;
        self.copy.attempt = 0;
        match program {
            Program::Key(call) => self.key.begin(access, call),
            Program::Copy(_) => self.copy = CopyOp::new(),
            Program::Walk(_) => {
                self.copy.generation = None;
                self.walk.begin();
            }
            Program::Close => self.copy.generation = None,
        }
    }

    /// The operation has ended: what it still holds is given up.
    pub fn end(&mut self, heap: &mut Heap)
        requires held { AreHeld self.old.key.work.private heap.old }
        ensures same { self.new ≡ record self.old { key = record self.old.key { work = record self.old.key.work { private = [] } } } }
        ensures heap { heap.new.heap ≡ heap.old.heap }
        ensures others { KeepsOthers self.old.key.work.private heap.old [] heap.new }
        ensures epochs { KeepsEpochs heap.old heap.new }
        ensures few { length heap.new.noted ≤ length heap.old.noted + length self.old.key.work.private }
        ensures ticks { heap.new.ticks ≡ heap.old.ticks + length self.old.key.work.private }
    {
        self.key.work.private.give_up(heap);
    }

    /// Makes room for what the next step of a walk may put into its lists, and does nothing for any other program. After an
    /// error, which is lack of memory, nothing has changed but room.
    #[inline(always)]
    pub fn make_room(&mut self, program: &Program) -> Result<(), Refusal>
        ensures lines { (program : AProgram) → line_for program self.new ≡ line_for program self.old }
        ensures sound { (program : AProgram) → IsSound program self.old → IsSound program self.new }
        ensures same { self.new ≡ record self.old { walk = self.new.walk } }
        ensures room { OnOk result (RoomFor program.now self.new) }
        ensures only_memory { IfErr result (λ refusal. refusal ≡ Refusal.Memory) }
        ensures only_walks { OnErr result (IsWalk program.now) }
    {
        match program {
            Program::Walk(_) => self.walk.make_room(),
            Program::Key(_) => Ok(()),
            Program::Copy(_) => Ok(()),
            Program::Close => Ok(()),
        }
    }

    /// Takes the operation's next step. A walk asks for room in its lists, which `make_room` makes.
    #[inline(always)]
    pub fn step(
        &mut self,
        job: &Job,
        program: &Program,
        roots: &mut Roots,
        generations: &mut u64,
        heap: &mut Heap,
    ) -> Taken
        requires can { CanStep (scene heap.old roots.old generations.old self.old) program.now }
        requires room { RoomFor program.now self.old }
        requires sound { IsSound program.now self.old }
        ensures { Does job.now program.now (line_for program.now self.old)
            (scene heap.old roots.old generations.old self.old) result (scene heap.new roots.new generations.new self.new) }
    {
        match &self.at {
            ProgramAt::Runs => self.step_running(job, program, roots, generations, heap),
            ProgramAt::Answered(_) => Taken::of_kind(Kind::End),
            ProgramAt::Swapped(_) => Taken::of_kind(Kind::End),
            ProgramAt::Walked(_) => Taken::of_kind(Kind::End),
            ProgramAt::Impossible => Taken::of_kind(Kind::ReadRoot),
        }
    }

    /// Takes a step of the program, which runs, or one of ABORT in its place. It is inlined whoever calls it, and how often: it
    /// has most of a step's work.
    #[inline(always)]
    fn step_running(
        &mut self,
        job: &Job,
        program: &Program,
        roots: &mut Roots,
        generations: &mut u64,
        heap: &mut Heap,
    ) -> Taken
        requires runs { self.old.at ≡ ProgramAt.Runs }
        requires program { CanProgram (scene heap.old roots.old generations.old self.old) program.now }
        requires room { RoomFor program.now self.old }
        requires abort { CanAbortOn heap.old roots.old (abort_of self.old.asking) }
        requires ready { IsReadyBeside heap.old roots.old.roots self.old.key.work.private }
        requires attempts { self.old.copy.attempt < 2 ^ 64 - 1 }
        requires generations { generations.old < 2 ^ 64 - 1 }
        requires begun { IsBegun program.now self.old }
        requires sound { IsWaiting self.old.asking (program_line self.old None program.now) }
        requires reads { ReadsOn program.now self.old }
        ensures { Does job.now program.now (asking_line self.old program.now ProgramAt.Runs self.old.asking)
            (scene heap.old roots.old generations.old self.old) result (scene heap.new roots.new generations.new self.new) }
    {
        match &self.asking {
            Asking::Unasked => self.step_program(None, job, program, roots, generations, heap),
            Asking::Told(generation) => {
                let root_seen = Some(*generation);
                self.step_program(root_seen, job, program, roots, generations, heap)
            }
            Asking::Met(_) => {
                let kind = self.ask_on(job, program, roots, *generations, heap);
                Taken::of_kind(kind)
            }
        }
    }

    /// Takes a step of the program, which runs, and was told this of the root's generation.
    #[inline(always)]
    fn step_program(
        &mut self,
        root_seen: Option<u64>,
        job: &Job,
        program: &Program,
        roots: &mut Roots,
        generations: &mut u64,
        heap: &mut Heap,
    ) -> Taken
        requires runs { self.old.at ≡ ProgramAt.Runs }
        requires untold { root_seen ≡ None → self.old.asking ≡ Asking.Unasked }
        requires program { CanProgram (scene heap.old roots.old generations.old self.old) program.now }
        requires room { RoomFor program.now self.old }
        requires ready { IsReadyBeside heap.old roots.old.roots self.old.key.work.private }
        requires attempts { self.old.copy.attempt < 2 ^ 64 - 1 }
        requires begun { IsBegun program.now self.old }
        requires reads { ReadsOn program.now self.old }
        requires generations { generations.old < 2 ^ 64 - 1 }
        ensures { Does job.now program.now (program_line self.old root_seen program.now)
            (scene heap.old roots.old generations.old self.old) result (scene heap.new roots.new generations.new self.new) }
    {
        match program {
            Program::Key(call) => self.step_key(call, root_seen, job, roots, *generations, heap),
            _ => {
                let ran = self.step_beside(root_seen, job, program, roots, generations, heap);
                ran.taken(&self.key.work.swap.read.at)
            }
        }
    }

    /// Takes a step of a call on one key.
    #[inline(always)]
    fn step_key(
        &mut self,
        call: &KeyCall,
        root_seen: Option<u64>,
        job: &Job,
        roots: &mut Roots,
        generation: u64,
        heap: &mut Heap,
    ) -> Taken
        requires runs { self.old.at ≡ ProgramAt.Runs }
        requires untold { root_seen ≡ None → self.old.asking ≡ Asking.Unasked }
        requires can { CanKey heap.old roots.old self.old.key }
        requires ready { IsReadyBeside heap.old roots.old.roots self.old.key.work.private }
        requires begun { self.old.key.task.call ≡ call.now }
        ensures { Does job.now (Program.Key call.now) (key_line self.old.key root_seen)
            (scene heap.old roots.old generation self.old) result (scene heap.new roots.new generation self.new) }
    {
        let is_reading = self.key.is_reading();
        match self.key.step(roots, job.handle, heap, root_seen) {
            Next::More(kind) => self.go_by_key(root_seen, is_reading, kind),
            Next::AskRoot => {
                let kind = self.ask_for_key(call, job, roots, generation, heap);
                Taken::of_kind(kind)
            }
            Next::Done(kind, reply) => {
                self.come_by_key(ProgramAt::Answered(reply), is_reading, kind)
            }
        }
    }

    /// Its program runs on, and knows nothing of the root. Where that is so already nothing is written.
    #[inline(always)]
    pub(crate) fn run_on(&mut self)
        ensures { self.new ≡ record self.old { at = ProgramAt.Runs; asking = Asking.Unasked } }
    {
        match &self.at {
            ProgramAt::Runs => {}
            _ => self.at = ProgramAt::Runs,
        }
        match &self.asking {
            Asking::Unasked => {}
            _ => self.asking = Asking::Unasked,
        }
    }

    /// The call on one key took a step of this kind, was in a READ or not, and goes on. At most steps it was told nothing,
    /// and then nothing is written.
    #[inline(always)]
    fn go_by_key(&mut self, root_seen: Option<u64>, is_reading: bool, kind: Kind) -> Taken
        requires runs { self.old.at ≡ ProgramAt.Runs }
        requires untold { root_seen ≡ None → self.old.asking ≡ Asking.Unasked }
        ensures same { self.new ≡ record self.old { at = ProgramAt.Runs; asking = Asking.Unasked } }
        ensures taken { result ≡ taken_in is_reading kind self.old.key.work.swap.read.at }
    {
        if root_seen.is_some() {
            self.asking = Asking::Unasked;
        }
        Taken::by_key(is_reading, kind, &self.key.work.swap.read.at)
    }

    /// The call on one key took a step of this kind, was in a READ or not, and stands here now.
    #[inline(always)]
    fn come_by_key(&mut self, at: ProgramAt, is_reading: bool, kind: Kind) -> Taken
        ensures same { self.new ≡ record self.old { at = at; asking = Asking.Unasked } }
        ensures taken { result ≡ taken_in is_reading kind self.old.key.work.swap.read.at }
    {
        self.at = at;
        self.asking = Asking::Unasked;
        Taken::by_key(is_reading, kind, &self.key.work.swap.read.at)
    }
}
