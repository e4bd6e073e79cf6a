//! What a seat has retired hangs by kind and class, until it is free for it again.

ghost use Rattle.std.specs.Prelude.{◌≡◌, ℕ, ◌+◌, ◌≤◌, true, is_some, [], IsTrue};
ghost use Rattle.lock_free.specs.declared.rules.View.{View};
ghost use Rattle.lock_free.specs.Freed.{next_chain};
ghost use Rattle.lock_free.specs.Limbos.{by_kind, chains_of, having_retired, in_class, led_on, link_to, linked_by, no_chains, no_classes, turned, turned_in, with_chains, with_class, with_kind};
ghost use Rattle.lock_free.specs.Limbos.{HasHung, IsLimbo, IsNext};
ghost use Rattle.lock_free.specs.Loading.{IsSound};

use crate::advancing::see_epoch;
use crate::links::{link, see_link};
use crate::loads::{Actor, Words};
use crate::reclaiming::{Kind, is_ripe};
use crate::sizes::Sizes;

/// Slots that hang one after the other, by their links.
#[derive(Clone, Copy, Drop)]
struct Chain {
    first: Option<u32>,
    /// All of them were retired in this epoch or before it.
    stamp: u64,
}

/// A chain to which slots come, and one from which they go.
#[derive(Clone, Copy, Drop)]
struct Chains {
    young: Chain,
    aged: Chain,
}

/// The chains of one kind, by the class of their slots.
#[derive(Clone, Copy, Drop)]
struct ByClass {
    small: Chains,
    medium: Chains,
    wide: Chains,
}

/// What a seat has retired, by its kind and class: where slots of one class can't be free again yet, those of others can. It takes no
/// memory but its own, however much there is.
#[derive(Clone, Copy, Drop)]
pub struct Limbo {
    replaced: ByClass,
    singles: ByClass,
    indirections: ByClass,
    mains: ByClass,
    /// The epoch that the seat has seen last.
    pub(crate) seen: u64,
}

/// The link to this slot, or to none.
fn link_to(slot: Option<u32>) -> u32
    ensures { result ≡ link_to slot }
{
    slot.unwrap_or(0)
}

/// The slot to which this link leads.
fn linked_by(link: u32) -> Option<u32>
    ensures { result ≡ linked_by link }
{
    if link == 0 { None } else { Some(link) }
}

impl Chains {
    fn new() -> Chains
        ensures { result ≡ no_chains }
    {
        let none = Chain {
            first: None,
            stamp: 0,
        };
        Chains {
            young: none,
            aged: none,
        }
    }

    /// Whether there are slots.
    #[inline(always)]
    fn has_any(&self) -> bool
        ensures { is_some (turned self.now.aged.first self.now).aged.first ≡ true → result ≡ true }
    {
        self.young.first.is_some() || self.aged.first.is_some()
    }

    /// The young chain is the aged one, once that has no slots.
    #[inline(always)]
    fn turned(self) -> Chains
        ensures { result ≡ turned self.aged.first self }
    {
        if self.aged.first.is_some() {
            return self;
        }
        Chains {
            young: Chain {
                first: None,
                stamp: self.young.stamp,
            },
            aged: self.young,
        }
    }
}

impl ByClass {
    fn new() -> ByClass
        ensures { result ≡ no_classes }
    {
        ByClass {
            small: Chains::new(),
            medium: Chains::new(),
            wide: Chains::new(),
        }
    }

    /// The chains of this class.
    #[inline(always)]
    fn chains(&self, class: u32) -> Chains
        ensures { result ≡ in_class self.now class }
    {
        match class {
            0 => self.small,
            1 => self.medium,
            _ => self.wide,
        }
    }

    /// The chains of this class are these now.
    #[inline(always)]
    fn set_chains(&mut self, class: u32, chains: Chains)
        ensures { self.new ≡ with_class self.old class chains }
    {
        match class {
            0 => self.small = chains,
            1 => self.medium = chains,
            _ => self.wide = chains,
        }
    }

    /// This is the young chain of this class now.
    #[inline(always)]
    fn set_young(&mut self, class: u32, young: Chain)
        ensures { self.new ≡ with_class self.old class (record { young = young; aged = (in_class self.old class).aged }) }
    {
        match class {
            0 => self.small.young = young,
            1 => self.medium.young = young,
            _ => self.wide.young = young,
        }
    }

    /// Whether there are slots of any class.
    fn has_any(&self) -> bool
        ensures { (class : ℕ) → is_some (turned (in_class self.now class).aged.first (in_class self.now class)).aged.first ≡ true → result ≡ true }
    {
        self.small.has_any() || self.medium.has_any() || self.wide.has_any()
    }
}

impl Limbo {
    /// Of a seat that has retired nothing.
    pub fn new() -> Limbo
        ensures limbo { (v : View) → v.retired ≡ [] → IsLimbo result v }
    {
        Limbo {
            replaced: ByClass::new(),
            singles: ByClass::new(),
            indirections: ByClass::new(),
            mains: ByClass::new(),
            seen: 0,
        }
    }

    /// The chains of this kind and class.
    #[inline(always)]
    fn chains(&self, kind: Kind, class: u32) -> Chains
        ensures { result ≡ chains_of self.now kind class }
    {
        match kind {
            Kind::Replaced => self.replaced.chains(class),
            Kind::Single => self.singles.chains(class),
            Kind::Indirection => self.indirections.chains(class),
            Kind::Main => self.mains.chains(class),
        }
    }

    /// The chains of this kind and class are these now.
    #[inline(always)]
    fn set_chains(&mut self, kind: Kind, class: u32, chains: Chains)
        ensures { self.new ≡ with_chains self.old kind class chains }
    {
        match kind {
            Kind::Replaced => self.replaced.set_chains(class, chains),
            Kind::Single => self.singles.set_chains(class, chains),
            Kind::Indirection => self.indirections.set_chains(class, chains),
            Kind::Main => self.mains.set_chains(class, chains),
        }
    }

    /// The first slot of the young chain of this kind and class.
    #[inline(always)]
    fn first_young(&self, kind: Kind, class: u32) -> Option<u32>
        ensures { result ≡ (chains_of self.now kind class).young.first }
    {
        self.chains(kind, class).young.first
    }

    /// This is the young chain of this kind and class now.
    #[inline(always)]
    fn set_young(&mut self, kind: Kind, class: u32, young: Chain)
        ensures { self.new ≡ with_chains self.old kind class (record { young = young; aged = (chains_of self.old kind class).aged }) }
    {
        match kind {
            Kind::Replaced => self.replaced.set_young(class, young),
            Kind::Single => self.singles.set_young(class, young),
            Kind::Indirection => self.indirections.set_young(class, young),
            Kind::Main => self.mains.set_young(class, young),
        }
    }

    /// The young chain of this kind and class is the aged one, once that has no slots.
    #[inline(always)]
    pub(crate) fn turn(&mut self, kind: Kind, class: u32)
        ensures { self.new ≡ turned_in self.old kind class }
    {
        let chains = self.chains(kind, class);
        if chains.aged.first.is_none() {
            self.set_chains(kind, class, chains.turned());
        }
    }

    /// Whether there are slots of this kind and class.
    #[inline(always)]
    pub(crate) fn has_some(&self, kind: Kind, class: u32) -> bool {
        self.chains(kind, class).has_any()
    }

    /// The first slot of the aged chain of this kind and class.
    #[inline(always)]
    pub(crate) fn first_aged(&self, kind: Kind, class: u32) -> Option<u32>
        ensures { result ≡ (chains_of self.now kind class).aged.first }
    {
        self.chains(kind, class).aged.first
    }

    /// Whether the aged chain of this kind and class has slots, all of which were retired three epochs before the one that the seat has
    /// seen last.
    #[inline(always)]
    pub(crate) fn has_ripe(&self, kind: Kind, class: u32) -> bool
        ensures ripe { IsTrue result → (chains_of self.now kind class).aged.stamp + 3 ≤ self.now.seen }
        ensures some { is_some (chains_of self.now kind class).aged.first ≡ true → (chains_of self.now kind class).aged.stamp + 3 ≤ self.now.seen → result ≡ true }
    {
        let aged = self.chains(kind, class).aged;
        if aged.first.is_none() {
            return false;
        }
        is_ripe(self.seen, aged.stamp)
    }

    /// Whether there are slots of any kind.
    pub(crate) fn has_any(&self) -> bool
        ensures { (class : ℕ) → is_some (next_chain self.now class).first ≡ true → result ≡ true }
    {
        self.replaced.has_any()
            || self.singles.has_any()
            || self.indirections.has_any()
            || self.mains.has_any()
    }

    /// Whether there are slots of this class.
    pub(crate) fn has_any_of(&self, class: u32) -> bool {
        self.replaced.chains(class).has_any()
            || self.singles.chains(class).has_any()
            || self.indirections.chains(class).has_any()
            || self.mains.chains(class).has_any()
    }

    /// The first slot of the aged chain of this kind and class, whose link this was, is left out.
    #[inline(always)]
    pub(crate) fn lead_on(&mut self, kind: Kind, class: u32, link: u32)
        ensures { self.new ≡ led_on self.old kind class link }
    {
        let mut chains = self.chains(kind, class);
        chains.aged.first = linked_by(link);
        self.set_chains(kind, class, chains);
    }
}

/// Hangs the slot that the seat has retired in a chain of its kind and class. All that it had retired before hangs already.
#[inline(always)]
pub fn hang(
    words: &Words,
    actor: &mut Actor,
    sizes: &Sizes,
    limbo: &mut Limbo,
    kind: Kind,
    class: u32,
    slot: u32,
)
    requires table { actor.old.table_id ≡ words.now.table_id }
    requires sound { IsSound words.now.table_id.words actor.old.me.0 }
    requires sizes { actor.old.me.0.sizes ≡ sizes.now }
    requires next { IsNext limbo.old actor.old.me.0 kind class slot }
    ensures table { actor.new.table_id ≡ actor.old.table_id }
    ensures sound { IsSound words.now.table_id.words actor.new.me.0 }
    ensures limbo { (h : IsNext limbo.old actor.old.me.0 kind class slot) → IsLimbo limbo.new (having_retired actor.new.me.0 h.now) }
    ensures hung { HasHung actor.old.me.0 actor.new.me.0 }
{
    let stamp = see_epoch(words, actor);
    let known = see_link(words, actor, sizes, class, slot);
    let next = link_to(limbo.first_young(kind, class));
    link(words, actor, sizes, class, slot, known, next);
    let young = Chain {
        first: Some(slot),
        stamp,
    };
    limbo.set_young(kind, class, young);
    limbo.seen = stamp;
}
