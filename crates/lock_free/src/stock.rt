//! What a seat owns in plain memory: slots that are free for it, and those of the nodes that its operation has made.

ghost use Rattle.std.specs.Prelude.{◌≡◌, ◌+◌, ◌<◌, ◌≤◌, ◌^◌, ◌++◌, ◌∷◌, ℕ, List, [], is_some, true, IsFalse, IsTrue, length};
ghost use Rattle.lock_free.specs.declared.accounts.PartedSlot.{PartedSlot};
ghost use Rattle.lock_free.specs.declared.rules.View.{View};
ghost use Rattle.lock_free.specs.Freed.{kept_free, next_chain};
ghost use Rattle.lock_free.specs.Limbos.{chains_of, led_on, turned_in, having_retired, HasHung, IsLimbo, IsNewest, IsNext};
ghost use Rattle.lock_free.specs.Loading.{IsSound};
ghost use Rattle.lock_free.specs.Making.{with_slot, with_slots};
ghost use Rattle.lock_free.specs.OwnOffers.{most_parted, with_parted, without_first, IsFullOfParted, IsRipeIn};
ghost use Rattle.lock_free.specs.Rules.{pool_of};
ghost use Rattle.lock_free.specs.Stocks.{HasRoom, HasRoomFor, IsLast, NotesLast, put_back};

use crate::free_slots::Free;
use crate::lacks::{Lack, Lacks, Manner, Patience};
use crate::limbo::{Limbo, hang};
use crate::loads::{Actor, Words};
use crate::reclaiming::Kind;
use crate::sizes::Sizes;
use arrayvec::ArrayVec;
use std::marker::Model;
use std::mem;

/// So many slots of a class are kept at most, with those of all nodes that were made. One try of an operation makes 33 at most.
const MOST_KEPT: usize = 128;

/// A seat that has begun so many calls, or retired so many slots, looks at the epoch and makes some free again when its call ends.
const OFTEN: u32 = 16;

/// One that wants more slots does so after this many: not at each call, since there may be none to be had.
const OFTEN_IF_LOW: u32 = 4;

/// A seat's word has room for this epoch, and for none after it.
const LAST_EPOCH: u64 = (1 << 54) - 1;

/// Room for so many is left where slots are free again that were retired.
const KEPT_FREE: usize = 48;

/// A node that the seat's operation has made and nobody else knows.
#[derive(Clone, Copy, Default, Drop)]
pub struct OwnNode {
    /// Which kind of node it is, a replaced one never.
    pub kind: Kind,
    /// The class of its slot, below 3.
    pub class: u32,
    /// Its slot.
    pub slot: u32,
}

/// What a seat owns. It takes no memory but its own.
#[derive(Drop)]
pub struct Stock {
    sizes: Sizes,
    pub(crate) free: Free,
    /// What its operation has made, in order.
    made: ArrayVec<OwnNode, 128>,
    /// What the seat has retired.
    limbo: Limbo,
    /// How many calls it has begun, and slots it has retired, since it last would make some free; ever so many where it has found none.
    pub(crate) newly: u32,
    /// How its call is made, and what that has lacked.
    lacks: Lacks,
}

impl Model for Stock {
    ghost use Rattle.lock_free.specs.Stocks.{Stocked, AreFew};

    ghost Value = { Stocked };

    ghost view = { λ s. record { sizes = s.sizes; pool = s.free; made = s.made.items; limbo = s.limbo } };

    ghost invariant = { λ s. AreFew s.free s.made.items };
}

impl Stock {
    /// Of a seat that has nothing yet.
    pub fn new(sizes: Sizes) -> Stock
        ensures sizes { result.sizes ≡ sizes }
        ensures small { result.pool.small ≡ [] }
        ensures medium { result.pool.medium ≡ [] }
        ensures wide { result.pool.wide ≡ [] }
        ensures made { result.made ≡ [] }
        ensures parted { result.pool.parted ≡ [] }
        ensures limbo { (v : View) → v.retired ≡ [] → IsLimbo result.limbo v }
    {
        Stock {
            sizes,
            free: Free::new(&sizes),
            made: ArrayVec::new(),
            limbo: Limbo::new(),
            newly: 0,
            lacks: Lacks::new(),
        }
    }

    /// A call begins in this manner, which has lacked nothing yet.
    #[inline(always)]
    pub fn begin(&mut self, manner: Manner)
        ensures { self.new ≡ self.old }
    {
        self.newly = self.newly.saturating_add(1);
        self.lacks.begin(manner);
    }

    /// What its call has lacked.
    pub fn lacked(&self) -> Lack {
        self.lacks.lack()
    }

    /// Its call has found no generation.
    pub fn wear_out(&mut self)
        ensures { self.new ≡ self.old }
    {
        self.lacks.wear_out();
    }

    /// Whether slots of this class hang that the seat has retired, and it can keep more of them.
    fn has_to_come(&self, class: u32) -> bool {
        self.takes_back(class) && self.limbo.has_any_of(class)
    }

    /// Its call has found no slot. Where there are other seats, these may leave it some soon.
    pub(crate) fn lack(&mut self)
        ensures { self.new ≡ self.old }
    {
        let others = self.sizes.seats > 1 || self.free.has_parted(self.made.len());
        let soon = others || self.has_to_come(0) || self.has_to_come(1) || self.has_to_come(2);
        self.lacks.find_none(soon);
        self.newly = u32::MAX;
    }

    /// How long its call that finds no slot waits.
    pub(crate) fn patience(&self) -> Patience {
        self.lacks.patience(self.limbo.seen)
    }

    /// Its call is over, which has waited for slots where it still lacks one.
    pub fn stop_waiting(&mut self)
        ensures { self.new ≡ self.old }
    {
        self.lacks.stop_waiting(self.limbo.seen);
    }

    /// An epoch that the seat has seen, the last one if that isn't out of range. A call that it begins is pinned in it.
    #[inline(always)]
    pub fn epoch(&self) -> u64
        ensures low { result < 2 ^ 54 }
        ensures seen { result ≤ self.now.limbo.seen }
    {
        self.limbo.seen.min(LAST_EPOCH)
    }

    /// How many of everything its seat's map has.
    #[inline(always)]
    pub fn sizes(&self) -> Sizes
        ensures { result ≡ self.now.sizes }
    {
        self.sizes
    }

    /// The last free slot of this class.
    #[inline(always)]
    pub(crate) fn last(&self, class: u32) -> Option<u32>
        ensures { IsLast (pool_of self.now.pool class) result }
    {
        self.free.last(class)
    }

    /// The last free slot of this class isn't free for the seat any more.
    pub(crate) fn leave_out(&mut self, class: u32)
        ensures sizes { self.new.sizes ≡ self.old.sizes }
        ensures pool { (rest : List ℕ) (name : ℕ) → pool_of self.old.pool class ≡ rest ++ name ∷ [] → self.new.pool ≡ with_slots self.old.pool class rest }
        ensures made { self.new.made ≡ self.old.made }
        ensures limbo { self.new.limbo ≡ self.old.limbo }
    {
        let _ = self.free.pop(class);
    }

    /// Whether two slots more can be kept.
    #[inline(always)]
    pub fn has_room(&self) -> bool
        ensures { IsTrue result → HasRoom self.now 2 }
    {
        self.made.len() + self.free.most() + 2 <= MOST_KEPT
    }

    /// Whether one slot more of this class leaves room for all that a try may make of it, however many are free of other classes.
    #[inline(always)]
    pub fn takes_back(&self, class: u32) -> bool
        ensures room { IsTrue result → HasRoomFor self.now class kept_free }
        ensures takes { HasRoomFor self.now class kept_free → IsTrue result }
    {
        self.made.len() + self.free.len(class) + KEPT_FREE <= MOST_KEPT
    }

    /// One slot more of this class is free.
    #[inline(always)]
    pub fn add(&mut self, class: u32, slot: u32)
        requires room { HasRoomFor self.old class 1 }
        ensures sizes { self.new.sizes ≡ self.old.sizes }
        ensures pool { self.new.pool ≡ with_slot self.old.pool class slot }
        ensures made { self.new.made ≡ self.old.made }
        ensures limbo { self.new.limbo ≡ self.old.limbo }
    {
        self.free.add(class, slot);
    }

    /// Whether the slot of one more offer can be noted.
    pub fn has_room_to_part(&self) -> bool
        ensures room { IsTrue result → length self.now.pool.parted < most_parted }
        ensures full { IsFalse result → IsFullOfParted self.now.pool }
    {
        self.free.has_room_to_part()
    }

    /// One more of an offer is to be free, once the epoch is later by three than this one.
    pub fn part(&mut self, slot: u32, stamp: u64)
        requires { length self.old.pool.parted < most_parted }
        ensures { self.new ≡ record self.old { pool = with_parted self.old.pool slot stamp } }
    {
        self.newly = self.newly.saturating_add(1);
        self.free.part(slot, stamp);
    }

    /// Whether there are such, there is room for the first one where it is free, and the epoch that the seat has seen is that late.
    pub fn has_ripe_offer(&self) -> bool
        ensures ripe { IsTrue result → IsRipeIn self.now.pool self.now.limbo.seen }
        ensures room { IsTrue result → HasRoomFor self.now 1 1 }
    {
        self.free.has_ripe(self.made.len(), self.limbo.seen)
    }

    /// The first one is free.
    pub fn free_parted(&mut self)
        requires some { 0 < length self.old.pool.parted }
        requires room { HasRoomFor self.old 1 1 }
        ensures sizes { self.new.sizes ≡ self.old.sizes }
        ensures pool { (y : PartedSlot) (rest : List PartedSlot) → self.old.pool.parted ≡ y ∷ rest → self.new.pool ≡ without_first self.old.pool y.slot rest }
        ensures made { self.new.made ≡ self.old.made }
        ensures limbo { self.new.limbo ≡ self.old.limbo }
    {
        self.free.free_parted();
    }

    /// A node of this kind was made in the last free slot of this class.
    #[inline(always)]
    pub fn note(&mut self, kind: Kind, class: u32)
        requires room { HasRoom self.old 1 }
        ensures sizes { self.new.sizes ≡ self.old.sizes }
        ensures noted { NotesLast self.old kind class self.new }
        ensures limbo { self.new.limbo ≡ self.old.limbo }
    {
        if let Some(slot) = self.free.pop(class) {
            self.made.push(OwnNode { kind, class, slot });
        }
    }

    /// Nobody ever knew what was made: its slots are free again. Returns what it was.
    pub fn give_back(&mut self) -> ArrayVec<OwnNode, 128>
        ensures sizes { self.new.sizes ≡ self.old.sizes }
        ensures pool { self.new.pool ≡ put_back self.old.made self.old.pool }
        ensures made { self.new.made ≡ [] }
        ensures limbo { self.new.limbo ≡ self.old.limbo }
        ensures was { result.items ≡ self.old.made }
    {
        for n in 0..self.made.len() {
            let made = self.made[n];
            self.free.add(made.class, made.slot);
        }
        mem::replace(&mut self.made, ArrayVec::new())
    }

    /// What was made has become others' too.
    pub fn hand_over(&mut self)
        ensures sizes { self.new.sizes ≡ self.old.sizes }
        ensures pool { self.new.pool ≡ self.old.pool }
        ensures made { self.new.made ≡ [] }
        ensures limbo { self.new.limbo ≡ self.old.limbo }
    {
        self.made.clear();
    }

    /// Whether slots are to be free for the seat once the epoch has grown.
    pub(crate) fn has_any(&self) -> bool
        ensures { (class : ℕ) → is_some (next_chain self.now.limbo class).first ≡ true → result ≡ true }
    {
        self.limbo.has_any() || self.free.has_any_parted()
    }

    /// This is the epoch that the seat has seen last, with which it makes some free.
    pub(crate) fn see(&mut self, epoch: u64)
        ensures { self.new ≡ record self.old { limbo = record self.old.limbo { seen = epoch } } }
    {
        self.limbo.seen = epoch;
        self.newly = 0;
    }

    /// Whether slots of this kind and class hang that the seat has retired.
    #[inline(always)]
    pub fn has_retired(&self, kind: Kind, class: u32) -> bool {
        self.limbo.has_some(kind, class)
    }

    /// The first slot of the aged chain of this kind and class.
    #[inline(always)]
    pub fn first_aged(&self, kind: Kind, class: u32) -> Option<u32>
        ensures { result ≡ (chains_of self.now.limbo kind class).aged.first }
    {
        self.limbo.first_aged(kind, class)
    }

    /// Whether the aged chain of this kind and class has slots, all retired three epochs before the one that the seat has seen last.
    #[inline(always)]
    pub fn has_ripe(&self, kind: Kind, class: u32) -> bool
        ensures ripe { IsTrue result → (chains_of self.now.limbo kind class).aged.stamp + 3 ≤ self.now.limbo.seen }
        ensures some { is_some (chains_of self.now.limbo kind class).aged.first ≡ true → (chains_of self.now.limbo kind class).aged.stamp + 3 ≤ self.now.limbo.seen → result ≡ true }
    {
        self.limbo.has_ripe(kind, class)
    }

    /// The young chain of this kind and class is the aged one, once that has no slots.
    #[inline(always)]
    pub fn turn(&mut self, kind: Kind, class: u32)
        ensures { self.new ≡ record self.old { limbo = turned_in self.old.limbo kind class } }
    {
        self.limbo.turn(kind, class);
    }

    /// The first slot of the aged chain of this kind and class, whose link this was, is left out.
    #[inline(always)]
    pub fn lead_on(&mut self, kind: Kind, class: u32, link: u32)
        ensures { self.new ≡ record self.old { limbo = led_on self.old.limbo kind class link } }
    {
        self.limbo.lead_on(kind, class, link);
    }

    /// Whether the seat is to look at the epoch, and make some free of what it has retired.
    #[inline(always)]
    pub fn is_due(&self) -> bool {
        self.newly >= OFTEN || (self.newly >= OFTEN_IF_LOW && self.free.is_low(&self.sizes))
    }

    /// Whether fewer slots of this class are free than the seat's next call may want.
    pub fn wants(&self, class: u32) -> bool {
        self.free.wants(&self.sizes, class)
    }

    /// Hangs the slot that the seat has retired with those of its kind and class. All that it had retired before hangs already.
    #[inline(always)]
    pub(crate) fn hang_next(
        &mut self,
        words: &Words,
        actor: &mut Actor,
        sizes: Sizes,
        kind: Kind,
        class: u32,
        slot: u32,
    )
        requires table { actor.old.table_id ≡ words.now.table_id }
        requires sound { IsSound words.now.table_id.words actor.old.me.0 }
        requires sizes { actor.old.me.0.sizes ≡ sizes }
        requires next { IsNext self.old.limbo actor.old.me.0 kind class slot }
        ensures table { actor.new.table_id ≡ actor.old.table_id }
        ensures sound { IsSound words.now.table_id.words actor.new.me.0 }
        ensures same { self.new ≡ record self.old { limbo = self.new.limbo } }
        ensures limbo { (h : IsNext self.old.limbo actor.old.me.0 kind class slot) → IsLimbo self.new.limbo (having_retired actor.new.me.0 h.now) }
        ensures hung { HasHung actor.old.me.0 actor.new.me.0 }
    {
        self.newly = self.newly.saturating_add(1);
        let limbo = &mut self.limbo;
        hang(words, actor, &sizes, limbo, kind, class, slot);
    }

    /// Hangs the slot that the seat has just retired with those of its kind and class.
    #[inline(always)]
    pub fn hang_one(
        &mut self,
        words: &Words,
        actor: &mut Actor,
        sizes: Sizes,
        kind: Kind,
        class: u32,
        slot: u32,
    )
        requires table { actor.old.table_id ≡ words.now.table_id }
        requires sound { IsSound words.now.table_id.words actor.old.me.0 }
        requires sizes { actor.old.me.0.sizes ≡ sizes }
        requires newest { IsNewest self.old.limbo actor.old.me.0 kind class slot }
        ensures table { actor.new.table_id ≡ actor.old.table_id }
        ensures sound { IsSound words.now.table_id.words actor.new.me.0 }
        ensures same { self.new ≡ record self.old { limbo = self.new.limbo } }
        ensures limbo { IsLimbo self.new.limbo actor.new.me.0 }
        ensures hung { HasHung actor.old.me.0 actor.new.me.0 }
    {
        self.hang_next(words, actor, sizes, kind, class, slot);
    }
}
