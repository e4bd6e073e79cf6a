//! Whose changes main nodes are that were to be swapped in.

ghost use Rattle.std.specs.Prelude.{◌≡◌, ◌<◌, ◌∷◌, [], IfOk};
ghost use Rattle.slot_arena.specs.Refs.{slot_of};
ghost use Rattle.chronicle.specs.Published.{IsNewestPublished, changer_for, changer_in, no_publication};

use ctrie_base::Trace;
use machine_model::{Entrant, Publication};
use slot_arena::Ref;
use std::alloc::{AllocError, Global};
use std::marker::Model;

/// Whose changes main nodes are that were to be swapped in: for each slot that of the newest node that stood there. A
/// slot names no older node any more.
#[derive(Drop)]
pub struct Publications {
    latest: Vec<Publication>,
    /// The publications, the latest first, for clauses alone.
    listed: Trace<Publication>,
}

impl Model for Publications {
    ghost use Rattle.std.specs.Prelude.{length};
    ghost use Rattle.chronicle.specs.Published.{Published, AreLast};

    ghost Value = { Published };

    ghost view = { λ p. record { published = p.listed.items; slots = length p.latest.items } };

    ghost invariant = { λ p. AreLast p.latest.items p.listed.items };
}

impl Publications {
    /// Nothing was published; there is room for main nodes of this many slots.
    #[tactic(auto, using(crate::proofs::Publishing::none_last))]
    pub fn new(alloc: Global, slots: u32) -> Result<Publications, AllocError>
        ensures published { IfOk result (λ made. made.published ≡ []) }
        ensures slots { IfOk result (λ made. made.slots ≡ slots) }
    {
        Ok(Publications {
            latest: vec![in alloc; none(); slots as usize]?,
            listed: Trace::new(),
        })
    }

    /// The main node is about to be swapped in, as this change.
    pub fn note(&mut self, publication: Publication)
        requires room { slot_of publication.main < self.old.slots }
        requires newest { IsNewestPublished self.old.published publication.main }
        ensures published { self.new.published ≡ publication ∷ self.old.published }
        ensures slots { self.new.slots ≡ self.old.slots }
    {
        self.listed = self.listed.with_first(&publication);
        let slot = publication.main.slot() as usize;
        self.latest[slot] = publication;
    }

    /// Whose change the main node is, if it is one.
    pub fn changer_of(&self, main: Ref) -> Option<Entrant>
        requires { IsNewestPublished self.now.published main }
        ensures { result ≡ changer_in self.now.published main }
    {
        match self.latest.get(main.slot() as usize) {
            Some(publication) => changer_for(publication, main),
            None => None,
        }
    }
}

/// No publication.
fn none() -> Publication
    ensures { result ≡ no_publication }
{
    Publication {
        main: Ref::default(),
        changer: None,
    }
}

/// Whose change it is, if it is of this main node.
fn changer_for(publication: &Publication, main: Ref) -> Option<Entrant>
    ensures { result ≡ changer_for publication.now main }
{
    if publication.main == main {
        publication.changer
    } else {
        None
    }
}
