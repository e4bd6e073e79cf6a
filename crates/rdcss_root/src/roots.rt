//! The root words by handle.

ghost use Rattle.std.specs.Prelude.{◌≡◌, ◌<◌, [], ◌∷◌, IfOk, replicate, slice_index_or, slice_set, vec_len, true, false, Some, None};
ghost use Rattle.rdcss_root.specs.Beneath.slot_arena.specs.Arenas.{AreLive};
ghost use Rattle.rdcss_root.specs.Beneath.machine_model.specs.Counting.{refs_of_root, refs_of_word};
ghost use Rattle.rdcss_root.specs.Beneath.machine_model.specs.States.{handle_limit, rewritten};
ghost use Rattle.rdcss_root.specs.Holding.{IsReady, Moves};
ghost use Rattle.rdcss_root.specs.Beneath.machine_model.specs.Swapping.{is_plain, is_carried_out};
ghost use Rattle.rdcss_root.specs.Beneath.machine_model.specs.Acting.{opened_root};
ghost use Rattle.rdcss_root.specs.Tables.{new_table, root_in, word_in, with_root_in, with_word_in, aborted_in, offered_in, completed_in, carried_out_in};

use crate::holding::{hold_root, release_root};
use crate::words::{is_plain, stands_in};
use std::alloc::{AllocError, Global};
use std::marker::Model;
use trie_parts::{Access, Descriptor, Heap, Ref, Root, RootWord};

/// How many handles can be open.
const HANDLES: usize = 256;

/// The root words by handle, and the marks of those who offered in them.
pub struct Roots {
    /// Each handle number, if it is open.
    roots: Vec<Option<Root>>,
    /// By handle, the actor who offered last.
    offerers: Vec<u8>,
    /// By actor, whether the last offer was carried out.
    marks: Vec<bool>,
    /// The offer that was carried out last, until it is taken note of.
    carried: Option<Descriptor>,
}

impl Drop for Roots {
    fn drop(self) {
        let Roots {
            roots: _,
            offerers: _,
            marks: _,
            carried: _,
        } = self;
    }
}

impl Model for Roots {
    ghost use Rattle.std.specs.Prelude.{◌≡◌, length};
    ghost use Rattle.rdcss_root.specs.Tables.{Table};

    ghost Value = { Table };

    ghost view = { λ r. record { roots = r.roots.items; offerers = r.offerers.items; marks = r.marks.items; carried = r.carried } };
}

impl Roots {
    /// No handle is open.
    pub fn new(alloc: Global, actors: u8) -> Result<Roots, AllocError>
        ensures { IfOk result (λ roots. roots ≡ new_table actors) }
    {
        let roots = no_roots(alloc)?;
        let offerers = vec![in alloc; 0; HANDLES]?;
        let marks = vec![in alloc; false; actors as usize + 1]?;
        Ok(Roots {
            roots,
            offerers,
            marks,
            carried: None,
        })
    }

    /// The open handle of this number.
    pub fn root(&self, handle: u16) -> Option<Root>
        ensures { result ≡ root_in self.now handle }
    {
        match self.roots.get(handle as usize) {
            Some(root) => *root,
            None => None,
        }
    }

    /// The root word of a handle.
    pub fn word(&self, handle: u16) -> RootWord
        ensures { result ≡ word_in self.now handle }
    {
        match self.root(handle) {
            Some(root) => root.word,
            None => RootWord::Plain(Ref::default()),
        }
    }

    /// Lets the handle number name this, or nothing. What stands there then is held before what stood there
    /// is released, so that it doesn't matter what either is.
    pub fn put(&mut self, heap: &mut Heap, handle: u16, root: Option<Root>)
        requires live { AreLive heap.old.heap (refs_of_root root) }
        requires ready { IsReady heap.old self.old.roots 4 }
        ensures table { self.new ≡ with_root_in self.old handle root }
        ensures moves { Moves heap.old heap.new self.old.roots self.new.roots 4 }
    {
        let index = handle as usize;
        if index >= self.roots.len() {
            return;
        }
        let found = self.root(handle);
        hold_root(heap, &root);
        release_root(heap, &found);
        set_root(&mut self.roots, index, root);
    }

    /// Rewrites the root word of an open handle.
    pub(crate) fn put_word(&mut self, heap: &mut Heap, handle: u16, word: RootWord)
        requires live { AreLive heap.old.heap (refs_of_word word) }
        requires ready { IsReady heap.old self.old.roots 4 }
        ensures table { self.new ≡ with_word_in self.old handle word }
        ensures moves { Moves heap.old heap.new self.old.roots self.new.roots 4 }
    {
        let root = rewritten(word, self.root(handle));
        self.put(heap, handle, root);
    }

    /// Takes an offer back, if it still stands.
    pub(crate) fn take_back(&mut self, heap: &mut Heap, handle: u16, offer: &Descriptor)
        requires live { AreLive heap.old.heap (offer.now.root ∷ []) }
        requires ready { IsReady heap.old self.old.roots 4 }
        ensures table { self.new ≡ aborted_in self.old handle offer.now }
        ensures moves { Moves heap.old heap.new self.old.roots self.new.roots 4 }
    {
        if stands_in(self.word(handle), offer) {
            self.put_word(heap, handle, RootWord::Plain(offer.root));
        }
    }

    /// Puts the actor's offer into the root word, if its root still stands there with no offer. Returns whether it did.
    pub(crate) fn offer(
        &mut self,
        heap: &mut Heap,
        handle: u16,
        actor: u8,
        offer: Descriptor,
    ) -> bool
        requires live { AreLive heap.old.heap (refs_of_word (RootWord.Offer offer)) }
        requires ready { IsReady heap.old self.old.roots 4 }
        ensures stood { result ≡ is_plain (word_in self.old handle) offer.root }
        ensures table { self.new ≡ offered_in self.old handle actor offer }
        ensures moves { Moves heap.old heap.new self.old.roots self.new.roots 4 }
    {
        let root = offer.root;
        set_mark(&mut self.marks, actor, false);
        if !is_plain(self.word(handle), root) {
            return false;
        }
        self.put_word(heap, handle, RootWord::Offer(offer));
        set_offerer(&mut self.offerers, handle, actor);
        true
    }

    /// Carries an offer out if it still stands and `main` is its expected main node, else takes it back. Tells
    /// whether it was carried out.
    pub(crate) fn complete(
        &mut self,
        heap: &mut Heap,
        handle: u16,
        offer: &Descriptor,
        main: Ref,
    ) -> bool
        requires live { AreLive heap.old.heap (refs_of_word (RootWord.Offer offer.now)) }
        requires ready { IsReady heap.old self.old.roots 8 }
        ensures carried { result ≡ is_carried_out (word_in self.old handle) offer.now main }
        ensures table { self.new ≡ completed_in self.old handle offer.now main }
        ensures moves { Moves heap.old heap.new self.old.roots self.new.roots 8 }
    {
        if !stands_in(self.word(handle), offer) {
            return false;
        }
        if main != offer.expected {
            self.put_word(heap, handle, RootWord::Plain(offer.root));
            return false;
        }
        self.carry_out(heap, handle, offer);
        true
    }

    fn carry_out(&mut self, heap: &mut Heap, handle: u16, offer: &Descriptor)
        requires live { AreLive heap.old.heap (refs_of_word (RootWord.Offer offer.now)) }
        requires ready { IsReady heap.old self.old.roots 8 }
        ensures table { self.new ≡ carried_out_in self.old handle offer.now }
        ensures moves { Moves heap.old heap.new self.old.roots self.new.roots 8 }
    {
        let offerer = self.offerer(handle);
        self.note_carried(offer, offerer);
        self.put_word(heap, handle, RootWord::Plain(offer.successor));
        if let Some(opened) = offer.opens {
            self.put(heap, opened, Some(opened_root(offer)));
        }
    }

    fn note_carried(&mut self, offer: &Descriptor, offerer: u8)
        ensures { self.new ≡ record self.old { marks = slice_set self.old.marks offerer true; carried = Some offer.now } }
    {
        set_mark(&mut self.marks, offerer, true);
        self.carried = Some(*offer);
    }

    fn offerer(&self, handle: u16) -> u8
        ensures { result ≡ slice_index_or self.now.offerers handle 0 }
    {
        match self.offerers.get(handle as usize) {
            Some(actor) => *actor,
            None => 0,
        }
    }

    /// Whether the actor's last offer was carried out.
    pub fn is_marked(&self, actor: u8) -> bool
        ensures { result ≡ slice_index_or self.now.marks actor false }
    {
        match self.marks.get(actor as usize) {
            Some(mark) => *mark,
            None => false,
        }
    }

    /// Takes the mark of the actor's last offer away.
    pub fn unmark(&mut self, actor: u8)
        ensures { self.new ≡ record self.old { marks = slice_set self.old.marks actor false } }
    {
        set_mark(&mut self.marks, actor, false);
    }

    /// The offer that was carried out since this was asked last, if one was.
    pub fn take_carried(&mut self) -> Option<Descriptor>
        ensures carried { result ≡ self.old.carried }
        ensures same { self.new ≡ record self.old { carried = None } }
    {
        let carried = self.carried;
        self.carried = None;
        carried
    }
}

/// The root that an offer opens: writable over a root of its own, read-only over the old one.
pub fn opened_root(offer: &Descriptor) -> Root
    ensures { result ≡ opened_root offer.now offer.now.second }
{
    match offer.second {
        Some(second) => Root {
            access: Access::Writable,
            word: RootWord::Plain(second),
        },
        None => Root {
            access: Access::ReadOnly,
            word: RootWord::Plain(offer.root),
        },
    }
}

#[tactic(auto, using(crate::proofs::Rewriting::unwritten))]
fn set_mark(marks: &mut Vec<bool>, actor: u8, mark: bool)
    ensures { marks.new.items ≡ slice_set marks.old.items actor mark }
{
    if let Some(place) = marks.get_mut(actor as usize) {
        *place = mark;
    }
}

#[tactic(auto, using(crate::proofs::Rewriting::unwritten))]
fn set_offerer(offerers: &mut Vec<u8>, handle: u16, actor: u8)
    ensures { offerers.new.items ≡ slice_set offerers.old.items handle actor }
{
    if let Some(place) = offerers.get_mut(handle as usize) {
        *place = actor;
    }
}

fn rewritten(word: RootWord, root: Option<Root>) -> Option<Root>
    ensures { result ≡ rewritten word root }
{
    match root {
        Some(root) => Some(Root {
            access: root.access,
            word,
        }),
        None => None,
    }
}

fn no_roots(alloc: Global) -> Result<Vec<Option<Root>>, AllocError>
    ensures { IfOk result (λ roots. roots.items ≡ replicate handle_limit None) }
{
    let mut roots = Vec::new(alloc);
    roots.resize(HANDLES, None)?;
    Ok(roots)
}

fn set_root(roots: &mut Vec<Option<Root>>, index: usize, root: Option<Root>)
    requires { index < vec_len roots.old }
    ensures { roots.new.items ≡ slice_set roots.old.items index root }
{
    roots[index] = root;
}
