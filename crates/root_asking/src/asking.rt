//! ABORT for a READ that asks for the generation of the root, inside of any program.

ghost use Rattle.std.specs.Prelude.{◌≡◌, List};
ghost use Rattle.root_asking.specs.Beneath.slot_arena.specs.declared.refs.Ref.{Ref as ARef};
ghost use Rattle.rdcss_root.specs.Acts.{ActsInAll};
ghost use Rattle.rdcss_root.specs.Programs.{CanAbortOn, table_after_abort};
ghost use Rattle.root_asking.specs.Asked.{IsUntold, AsksOn, abort_of, asking_of, ask_action, seen_of};

use rdcss_root::{AbortRead, Descriptor, Heap, Kind, Next, Roots};

/// What an operation knows of the root's generation, for a READ that asks for it.
#[derive(Clone, Copy)]
pub enum Asking {
    /// Nothing. As long as no READ asks it is so.
    Unasked,
    /// This offer stands in the root word: it is taken back next.
    Met(Descriptor),
    /// The generation. The READ's next step uses it up.
    Told(u64),
}

impl Asking {
    /// What the program's next step is told.
    pub fn seen(&self) -> Option<u64>
        ensures { result ≡ seen_of self.now }
    {
        match self {
            Asking::Told(generation) => Some(*generation),
            Asking::Unasked | Asking::Met(_) => None,
        }
    }

    /// Takes ABORT's next step, for a program whose READ asks.
    pub fn step(&mut self, roots: &mut Roots, handle: u16, heap: &mut Heap) -> Kind
        requires untold { IsUntold self.old }
        requires can { CanAbortOn heap.old roots.old (abort_of self.old) }
        ensures follows { AsksOn heap.old.heap roots.old handle self.old self.new result }
        ensures table { roots.new ≡ table_after_abort roots.old handle (abort_of self.old) }
        ensures acts { (private : List ARef) → ActsInAll heap.old roots.old.roots private (ask_action self.old) heap.new roots.new.roots private }
    {
        let mut abort = abort_of(self);
        match abort.step(roots, handle, heap) {
            Next::More(kind) => {
                *self = asking_of(abort);
                kind
            }
            Next::AskRoot => unreachable!(),
            Next::Done(kind, generation) => {
                *self = Asking::Told(generation);
                kind
            }
        }
    }
}

/// Where ABORT stands; at its beginning, where nothing was asked yet.
fn abort_of(asking: &Asking) -> AbortRead
    ensures { result ≡ abort_of asking.now }
{
    match asking {
        Asking::Met(offer) => AbortRead::Swap(*offer),
        Asking::Unasked | Asking::Told(_) => AbortRead::Read,
    }
}

/// What is known while ABORT stands there.
fn asking_of(abort: AbortRead) -> Asking
    ensures { result ≡ asking_of abort }
{
    match abort {
        AbortRead::Read => Asking::Unasked,
        AbortRead::Swap(offer) => Asking::Met(offer),
    }
}
