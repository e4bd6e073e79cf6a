//! COMPLETE: brings an offer to its end.

ghost use Rattle.std.specs.Prelude.{◌≡◌, ℕ, None, List, Option, is_some};
ghost use Rattle.rdcss_root.specs.Beneath.slot_arena.specs.declared.refs.Ref.{Ref as ARef};
ghost use Rattle.rdcss_root.specs.Beneath.slot_arena.specs.Arenas.{AreLive};
ghost use Rattle.rdcss_root.specs.Beneath.machine_model.specs.declared.roots.RootWord.{RootWord};
ghost use Rattle.rdcss_root.specs.Beneath.machine_model.specs.declared.roots.RootWord.TheVariants.{Offer};
ghost use Rattle.rdcss_root.specs.Beneath.machine_model.specs.Counting.{refs_of_word};
ghost use Rattle.rdcss_root.specs.Beneath.machine_model.specs.Swapping.{complete_action, is_carried_out};
ghost use Rattle.rdcss_root.specs.Beneath.gcas.specs.Acted.{acted_heap};
ghost use Rattle.rdcss_root.specs.Beneath.gcas.specs.Kept.{KeepsBeside};
ghost use Rattle.rdcss_root.specs.Beneath.gcas.specs.Reads.{begun, line_of, CanReadOn, IsAskingRoot};
ghost use Rattle.rdcss_root.specs.Acts.{ActsInAll};
ghost use Rattle.rdcss_root.specs.Holding.{Moves, IsReady};
ghost use Rattle.rdcss_root.specs.Tables.{word_in, completed_in};
ghost use Rattle.rdcss_root.specs.Programs.{complete_of, complete_with, CompletesOn, CanCompleteOn, KeepsUnlessSwapped, ReadsOffered, completed_at};
ghost use Rattle.rdcss_root.specs.Beneath.machine_model.specs.Operations.{kind_of, completing_read};
ghost use Rattle.rdcss_root.specs.Beneath.gcas.specs.declared.read.Read.{Read as ARead};

use crate::roots::Roots;
use trie_parts::{Descriptor, Heap, Kind, Next, Read, Ref};

/// Where a COMPLETE stands.
#[derive(Clone, Copy)]
pub enum CompleteAt {
    /// Reads the main node of the root that is to be swapped.
    Reading,
    /// That node is `main`: swaps the root where it is the expected one, else takes the offer back.
    Swap { main: Ref },
}

/// A COMPLETE. Its READ is the operation's.
#[derive(Clone, Copy)]
pub struct Complete {
    pub offer: Descriptor,
    pub at: CompleteAt,
}

impl Complete {
    /// A COMPLETE of this offer, at its beginning.
    pub fn begin(offer: Descriptor, read: &mut Read) -> Complete
        ensures complete { result ≡ record { offer = offer; at = CompleteAt.Reading } }
        ensures read { read.new ≡ begun read.old.access offer.root }
    {
        read.begin(offer.root);
        Complete {
            offer,
            at: CompleteAt::Reading,
        }
    }

    /// Whether its next step is its READ's.
    pub fn is_reading(&self) -> bool
        ensures { (r : ARead) (root_seen : Option ℕ) → result ≡ is_some (completing_read self.now.offer (complete_of self.now r root_seen).line) }
    {
        matches!(&self.at, CompleteAt::Reading)
    }

    /// The kind of its next step, where it was told this of the root's generation.
    pub fn next_kind(&self, read: &Read, root_seen: Option<u64>) -> Kind
        ensures { result ≡ kind_of (complete_action (complete_of self.now read.now root_seen)) }
    {
        match &self.at {
            CompleteAt::Reading => read.next_kind(root_seen),
            CompleteAt::Swap { .. } => Kind::SwapRoot,
        }
    }

    /// Takes its next step, unless it has to be told the generation of the root first. It gives whether that
    /// step carried the offer out.
    pub fn step(
        &mut self,
        read: &mut Read,
        roots: &mut Roots,
        handle: u16,
        heap: &mut Heap,
        root_seen: Option<u64>,
    ) -> Next<bool>
        requires { CanCompleteOn heap.old roots.old self.old read.old }
        ensures follows { CompletesOn heap.old.heap (word_in roots.old handle) (complete_of self.old read.old root_seen) self.new read.new result }
        ensures same { (self.new.offer ≡ self.old.offer) × (read.new ≡ record read.old { at = read.new.at }) }
        ensures heap { heap.new.heap ≡ acted_heap heap.old.heap (complete_action (complete_of self.old read.old root_seen)) }
        ensures table { roots.new ≡ completed_at roots.old handle self.old.offer self.old.at }
        ensures memory { KeepsUnlessSwapped heap.old heap.new roots.old.roots roots.new.roots self.old.at }
        ensures asks { IsAskingRoot result → (self.new ≡ self.old) × (read.new ≡ read.old) × (roots.new ≡ roots.old) × (heap.new ≡ heap.old) }
        ensures stands { ReadsOffered self.new.at self.new.offer read.new }
        ensures acts { (private : List ARef) → ActsInAll heap.old roots.old.roots private (complete_action (complete_of self.old read.old root_seen)) heap.new roots.new.roots private }
    {
        match &self.at {
            CompleteAt::Reading => self.read(read, heap, root_seen),
            CompleteAt::Swap { main } => {
                let main = *main;
                self.swap(roots, handle, heap, main)
            }
        }
    }

    fn read(&mut self, read: &mut Read, heap: &mut Heap, root_seen: Option<u64>) -> Next<bool>
        requires { (read.old.indirection ≡ self.old.offer.root) × CanReadOn heap.old.heap read.old }
        ensures follows { (word : RootWord) → CompletesOn heap.old.heap word (complete_with self.old.offer CompleteAt.Reading (line_of read.old root_seen)) self.new read.new result }
        ensures same { (self.new.offer ≡ self.old.offer) × (read.new ≡ record read.old { at = read.new.at }) }
        ensures heap { heap.new.heap ≡ acted_heap heap.old.heap (complete_action (complete_with self.old.offer CompleteAt.Reading (line_of read.old root_seen))) }
        ensures beside { KeepsBeside heap.old heap.new }
        ensures asks { IsAskingRoot result → (self.new ≡ record self.old { at = CompleteAt.Reading }) × (read.new ≡ read.old) × (heap.new ≡ heap.old) }
        ensures stands { ReadsOffered self.new.at self.new.offer read.new }
    {
        match read.step(heap, root_seen) {
            Next::More(kind) => {
                self.at = CompleteAt::Reading;
                Next::More(kind)
            }
            Next::AskRoot => {
                self.at = CompleteAt::Reading;
                Next::AskRoot
            }
            Next::Done(kind, main) => {
                self.at = CompleteAt::Swap { main };
                Next::More(kind)
            }
        }
    }

    fn swap(&mut self, roots: &mut Roots, handle: u16, heap: &mut Heap, main: Ref) -> Next<bool>
        requires live { AreLive heap.old.heap (refs_of_word (Offer self.old.offer)) }
        requires ready { IsReady heap.old roots.old.roots 8 }
        ensures done { result ≡ Next.Done Kind.SwapRoot (is_carried_out (word_in roots.old handle) self.old.offer main) }
        ensures same { self.new ≡ record self.old { at = CompleteAt.Swap main } }
        ensures table { roots.new ≡ completed_in roots.old handle self.old.offer main }
        ensures moves { Moves heap.old heap.new roots.old.roots roots.new.roots 8 }
    {
        self.at = CompleteAt::Swap { main };
        let done = roots.complete(heap, handle, &self.offer, main);
        Next::Done(Kind::SwapRoot, done)
    }
}
