//! ROOT: gives the root, after the end of an offer that stands in its way.

ghost use Rattle.std.specs.Prelude.{◌≡◌, ℕ, None, List, Option, is_some};
ghost use Rattle.rdcss_root.specs.Beneath.slot_arena.specs.declared.refs.Ref.{Ref as ARef};
ghost use Rattle.rdcss_root.specs.Beneath.slot_arena.specs.Heaps.{Heap as Store};
ghost use Rattle.rdcss_root.specs.Beneath.machine_model.specs.Swapping.{root_action};
ghost use Rattle.rdcss_root.specs.Beneath.gcas.specs.Acted.{acted_heap};
ghost use Rattle.rdcss_root.specs.Beneath.gcas.specs.Reads.{IsAskingRoot};
ghost use Rattle.rdcss_root.specs.Acts.{ActsInAll};
ghost use Rattle.rdcss_root.specs.Tables.{word_in};
ghost use Rattle.rdcss_root.specs.Programs.{root_of, RootsOn, CanRootOn, KeepsUnlessCompleted, ReadsItsRoot, rooted_at};
ghost use Rattle.rdcss_root.specs.Beneath.machine_model.specs.Operations.{kind_of, rooting_read};
ghost use Rattle.rdcss_root.specs.Beneath.gcas.specs.declared.read.Read.{Read as ARead};

use crate::complete::Complete;
use crate::roots::Roots;
use trie_parts::{Heap, Kind, Next, Read, Ref, RootWord};

/// A ROOT. Its READ is the operation's.
#[derive(Clone, Copy)]
pub enum ReadRoot {
    /// Reads the root word.
    Read,
    /// An offer stands there: completes it, and reads again.
    Completing(Complete),
}

impl ReadRoot {
    /// Whether its next step is its READ's.
    pub fn is_reading(&self) -> bool
        ensures { (r : ARead) (root_seen : Option ℕ) → result ≡ is_some (rooting_read (root_of self.now r root_seen)) }
    {
        match self {
            ReadRoot::Read => false,
            ReadRoot::Completing(complete) => complete.is_reading(),
        }
    }

    /// The kind of its next step, where it was told this of the root's generation.
    pub fn next_kind(&self, read: &Read, root_seen: Option<u64>) -> Kind
        ensures { result ≡ kind_of (root_action (root_of self.now read.now root_seen)) }
    {
        match self {
            ReadRoot::Read => Kind::ReadRoot,
            ReadRoot::Completing(complete) => complete.next_kind(read, root_seen),
        }
    }

    /// Takes its next step, unless it has to be told the generation of the root first. It gives the root.
    #[inline(always)]
    pub fn step(
        &mut self,
        read: &mut Read,
        roots: &mut Roots,
        handle: u16,
        heap: &mut Heap,
        root_seen: Option<u64>,
    ) -> Next<Ref>
        requires { CanRootOn heap.old roots.old self.old read.old }
        ensures follows { RootsOn heap.old.heap (word_in roots.old handle) (root_of self.old read.old root_seen) self.new read.new result }
        ensures access { read.new.access ≡ read.old.access }
        ensures heap { heap.new.heap ≡ acted_heap heap.old.heap (root_action (root_of self.old read.old root_seen)) }
        ensures table { roots.new ≡ rooted_at roots.old handle self.old }
        ensures memory { KeepsUnlessCompleted heap.old heap.new roots.old.roots roots.new.roots self.old }
        ensures asks { IsAskingRoot result → (self.new ≡ self.old) × (read.new ≡ read.old) × (roots.new ≡ roots.old) × (heap.new ≡ heap.old) }
        ensures stands { ReadsItsRoot self.new read.new }
        ensures acts { (private : List ARef) → ActsInAll heap.old roots.old.roots private (root_action (root_of self.old read.old root_seen)) heap.new roots.new.roots private }
    {
        match &*self {
            ReadRoot::Read => self.read(read, roots, handle),
            ReadRoot::Completing(complete) => {
                let complete = *complete;
                self.complete(complete, read, roots, handle, heap, root_seen)
            }
        }
    }

    fn read(&mut self, read: &mut Read, roots: &Roots, handle: u16) -> Next<Ref>
        ensures follows { (heap : Store) → RootsOn heap (word_in roots.now handle) (root_of ReadRoot.Read read.old None) self.new read.new result }
        ensures access { read.new.access ≡ read.old.access }
        ensures taken { IsAskingRoot result → ⊥ }
        ensures stands { ReadsItsRoot self.new read.new }
    {
        match roots.word(handle) {
            RootWord::Plain(root) => {
                *self = ReadRoot::Read;
                Next::Done(Kind::ReadRoot, root)
            }
            RootWord::Offer(offer) => {
                *self = ReadRoot::Completing(Complete::begin(offer, read));
                Next::More(Kind::ReadRoot)
            }
        }
    }

    fn complete(
        &mut self,
        complete: Complete,
        read: &mut Read,
        roots: &mut Roots,
        handle: u16,
        heap: &mut Heap,
        root_seen: Option<u64>,
    ) -> Next<Ref>
        requires { CanRootOn heap.old roots.old (ReadRoot.Completing complete) read.old }
        ensures follows { RootsOn heap.old.heap (word_in roots.old handle) (root_of (ReadRoot.Completing complete) read.old root_seen) self.new read.new result }
        ensures access { read.new.access ≡ read.old.access }
        ensures heap { heap.new.heap ≡ acted_heap heap.old.heap (root_action (root_of (ReadRoot.Completing complete) read.old root_seen)) }
        ensures table { roots.new ≡ rooted_at roots.old handle (ReadRoot.Completing complete) }
        ensures memory { KeepsUnlessCompleted heap.old heap.new roots.old.roots roots.new.roots (ReadRoot.Completing complete) }
        ensures asks { IsAskingRoot result → (self.new ≡ ReadRoot.Completing complete) × (read.new ≡ read.old) × (roots.new ≡ roots.old) × (heap.new ≡ heap.old) }
        ensures stands { ReadsItsRoot self.new read.new }
        ensures acts { (private : List ARef) → ActsInAll heap.old roots.old.roots private (root_action (root_of (ReadRoot.Completing complete) read.old root_seen)) heap.new roots.new.roots private }
    {
        let mut complete = complete;
        match complete.step(read, roots, handle, heap, root_seen) {
            Next::More(kind) => {
                *self = ReadRoot::Completing(complete);
                Next::More(kind)
            }
            Next::AskRoot => {
                *self = ReadRoot::Completing(complete);
                Next::AskRoot
            }
            Next::Done(kind, _) => {
                *self = ReadRoot::Read;
                Next::More(kind)
            }
        }
    }
}
