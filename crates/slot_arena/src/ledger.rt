//! Counts of references, of which some are lent.

ghost use Rattle.std.specs.Prelude.{◌≡◌, ℕ, ◌+◌, ◌-◌, ◌<◌, ◌≤◌, ◌^◌, ◌==◌, ◌⊎◌, [], ◌∷◌, ◌++◌, length, replicate, slice_index, slice_set, All, IfOk, MatchOption};
ghost use Rattle.slot_arena.specs.Refs.{slot_of};
ghost use Rattle.slot_arena.specs.Times.{times};
ghost use Rattle.slot_arena.specs.Ticking.{TakesUpTo};
ghost use Rattle.slot_arena.specs.Tallies.{naming, NotesZeros};
ghost use Rattle.slot_arena.specs.Entries.{Fits, coming, entries_after};
ghost use Rattle.slot_arena.specs.Loans.{IsOver, KeepsLoan, LendsNone, lent};

use crate::entries::EntryChange;
use crate::loan::Loan;
use crate::refs::Ref;
use crate::tally::Tally;
use ctrie_base::Ticks;
use std::alloc::{AllocError, Global};
use std::marker::Model;

/// How many references each slot has. What a changed copy of a node shares with it isn't counted twice at first: the
/// node lends the copy its counts. Where the node goes next, as an old branch does, they stay as they are; before
/// anything else needs them the loan is repaid.
///
/// The look at a count that is lent is counted when the loan begins: to repay it counts no ticks.
pub(crate) struct Ledger {
    tally: Tally,
    loan: Loan,
}

impl Drop for Ledger {
    fn drop(self) {
        let Ledger { tally: _, loan: _ } = self;
    }
}

impl Model for Ledger {
    ghost use Rattle.slot_arena.specs.Loans.{Ledger as Counted, IsBacked, lent, owed};

    ghost Value = { Counted };

    ghost view = { λ l. record { tally = record { counts = owed l.tally.counts (lent l.loan); noted = l.tally.noted; ticks = l.tally.ticks }; loan = l.loan } };

    ghost invariant = { λ l. IsBacked l.tally.counts (lent l.loan) };
}

impl Ledger {
    /// This many slots, none with a reference.
    pub(crate) fn new(alloc: Global, slots: usize) -> Result<Ledger, AllocError>
        ensures { IfOk result (λ ledger. (ledger.tally ≡ record { counts = replicate slots 0; noted = []; ticks = 0 }) × IsOver ledger.loan) }
    {
        Ok(Ledger {
            tally: Tally::new(alloc, slots)?,
            loan: Loan::new(),
        })
    }

    /// The count of a slot.
    pub(crate) fn count(&mut self, slot: u32) -> u32
        requires { slot < length self.old.tally.counts }
        ensures count { result ≡ slice_index self.old.tally.counts slot }
        ensures tally { self.new.tally ≡ record self.old.tally { ticks = self.old.tally.ticks + 1 } }
        ensures loan { KeepsLoan self.old.loan self.new.loan }
    {
        self.repay();
        self.tally.count(slot)
    }

    /// Whether the count of a slot is zero.
    pub(crate) fn is_zero(&mut self, slot: u32) -> bool
        requires { slot < length self.old.tally.counts }
        ensures zero { result ≡ (slice_index self.old.tally.counts slot == 0) }
        ensures tally { self.new.tally ≡ record self.old.tally { ticks = self.old.tally.ticks + 1 } }
        ensures loan { self.new.loan ≡ self.old.loan }
    {
        self.tally.count(slot) == 0
    }

    /// Gives a slot without references its first one, which isn't noted.
    pub(crate) fn begin(&mut self, slot: u32)
        requires within { slot < length self.old.tally.counts }
        requires none { slice_index self.old.tally.counts slot ≡ 0 }
        ensures tally { self.new.tally ≡ record self.old.tally { counts = slice_set self.old.tally.counts slot 1; ticks = self.old.tally.ticks + 1 } }
        ensures loan { self.new.loan ≡ self.old.loan }
    {
        self.tally.begin(slot);
    }

    /// How many slots are noted.
    pub(crate) fn noted_len(&self) -> usize
        ensures noted { result ≡ length self.now.tally.noted }
        ensures few { result ≤ length self.now.tally.counts }
    {
        let _ = &self.loan;
        self.tally.noted_len()
    }

    /// Takes a noted slot out of the notes.
    pub(crate) fn take_noted(&mut self) -> Option<u32>
        ensures counts { self.new.tally.counts ≡ self.old.tally.counts }
        ensures noted { MatchOption result ((self.old.tally.noted ≡ []) × (self.new.tally.noted ≡ []))
            (λ slot. (self.old.tally.noted ≡ self.new.tally.noted ++ slot ∷ []) × (times slot self.new.tally.noted ≡ 0) × (slot < length self.new.tally.counts)) }
        ensures ticks { self.new.tally.ticks ≡ self.old.tally.ticks + 1 }
        ensures loan { self.new.loan ≡ self.old.loan }
    {
        self.tally.take_noted()
    }

    /// Counts one reference more to a slot.
    pub(crate) fn raise(&mut self, slot: u32)
        requires within { slot < length self.old.tally.counts }
        requires room { slice_index self.old.tally.counts slot + 1 < 2 ^ 32 }
        ensures counts { self.new.tally.counts ≡ slice_set self.old.tally.counts slot (slice_index self.old.tally.counts slot + 1) }
        ensures noted { NotesZeros self.old.tally self.new.tally }
        ensures few { length self.new.tally.noted ≤ length self.old.tally.noted + 1 }
        ensures ticks { self.new.tally.ticks ≡ self.old.tally.ticks + 1 }
        ensures loan { self.new.loan ≡ self.old.loan }
    {
        self.tally.raise(slot);
    }

    /// Counts each of these references one more to the slot that it names.
    pub(crate) fn raise_all(&mut self, refs: &[Ref])
        requires within { All (λ r. slot_of r < length self.old.tally.counts) refs.now }
        requires room { (slot : ℕ) → slice_index self.old.tally.counts slot + length refs.now < 2 ^ 32 }
        ensures size { length self.new.tally.counts ≡ length self.old.tally.counts }
        ensures counts { (slot : ℕ) → slice_index self.new.tally.counts slot ≡ slice_index self.old.tally.counts slot + naming slot refs.now }
        ensures noted { NotesZeros self.old.tally self.new.tally }
        ensures few { length self.new.tally.noted ≤ length self.old.tally.noted + length refs.now }
        ensures ticks { self.new.tally.ticks ≡ self.old.tally.ticks + length refs.now }
        ensures loan { self.new.loan ≡ self.old.loan }
    {
        self.tally.raise_all(refs);
    }

    /// Counts one reference less to a slot. Before the tally's last one goes, which may be lent, the loan is repaid: no count of
    /// the tally reaches zero while it is lent.
    #[inline(always)]
    fn lower(&mut self, slot: u32)
        requires within { slot < length self.old.tally.counts }
        requires some { 0 < slice_index self.old.tally.counts slot }
        ensures counts { self.new.tally.counts ≡ slice_set self.old.tally.counts slot (slice_index self.old.tally.counts slot - 1) }
        ensures noted { NotesZeros self.old.tally self.new.tally }
        ensures few { length self.new.tally.noted ≤ length self.old.tally.noted + 1 }
        ensures ticks { self.new.tally.ticks ≡ self.old.tally.ticks + 1 }
        ensures loan { KeepsLoan self.old.loan self.new.loan }
    {
        if self.tally.lower_but_last(slot) {
            return;
        }
        self.claim(slot);
        self.tally.lower(slot);
    }

    /// Repays the loan where a reference to the slot is lent, or may be.
    fn claim(&mut self, slot: u32)
        ensures tally { self.new.tally ≡ self.old.tally }
        ensures loan { KeepsLoan self.old.loan self.new.loan }
        ensures free { naming slot (lent self.new.loan) ≡ 0 }
    {
        if self.loan.is_out() && self.loan.may_name(slot) {
            self.repay();
        }
    }

    /// Counts each of these references one less to the slot that it names.
    pub(crate) fn lower_all(&mut self, refs: &[Ref])
        requires within { All (λ r. slot_of r < length self.old.tally.counts) refs.now }
        requires some { (slot : ℕ) → naming slot refs.now ≤ slice_index self.old.tally.counts slot }
        ensures size { length self.new.tally.counts ≡ length self.old.tally.counts }
        ensures counts { (slot : ℕ) → slice_index self.new.tally.counts slot + naming slot refs.now ≡ slice_index self.old.tally.counts slot }
        ensures noted { NotesZeros self.old.tally self.new.tally }
        ensures few { length self.new.tally.noted ≤ length self.old.tally.noted + length refs.now }
        ensures ticks { self.new.tally.ticks ≡ self.old.tally.ticks + length refs.now }
        ensures loan { KeepsLoan self.old.loan self.new.loan }
    {
        for one in refs {
            self.lower(one.slot());
        }
    }

    /// Counts one reference less to each slot to which a node refers that goes: where it is the lender, the loan is over, and
    /// only what wasn't lent is counted less.
    #[inline(always)]
    pub(crate) fn lower_node(&mut self, at: Ref, refs: &[Ref])
        requires within { All (λ r. slot_of r < length self.old.tally.counts) refs.now }
        requires some { (slot : ℕ) → naming slot refs.now ≤ slice_index self.old.tally.counts slot }
        requires lent { IsOver self.old.loan ⊎ (self.old.loan.lender ≡ at → self.old.loan.refs ≡ refs.now) }
        ensures size { length self.new.tally.counts ≡ length self.old.tally.counts }
        ensures counts { (slot : ℕ) → slice_index self.new.tally.counts slot + naming slot refs.now ≡ slice_index self.old.tally.counts slot }
        ensures noted { NotesZeros self.old.tally self.new.tally }
        ensures few { length self.new.tally.noted ≤ length self.old.tally.noted + length refs.now }
        ensures ticks { TakesUpTo (length refs.now) self.old.tally.ticks self.new.tally.ticks }
        ensures loan { KeepsLoan self.old.loan self.new.loan }
        ensures none { LendsNone at self.new.loan }
    {
        if !self.loan.is_out() || self.loan.lender() != at {
            self.lower_all(refs);
            return;
        }
        let kept = self.loan.kept();
        self.loan.end();
        if kept < refs.len() {
            self.lower(refs[kept].slot());
        }
    }

    /// Counts what a changed copy of a node refers to: what stays of the node's references is lent. The node doesn't refer to itself.
    pub(crate) fn raise_changed(&mut self, from: Ref, refs: &[Ref], change: &EntryChange)
        requires fits { Fits change.now refs.now }
        requires few { length refs.now ≤ 32 }
        requires within { All (λ r. slot_of r < length self.old.tally.counts) refs.now }
        requires coming { All (λ r. slot_of r < length self.old.tally.counts) (coming change.now) }
        requires room { (slot : ℕ) → slice_index self.old.tally.counts slot + 33 < 2 ^ 32 }
        requires some { (slot : ℕ) → naming slot refs.now ≤ slice_index self.old.tally.counts slot }
        requires apart { naming (slot_of from) refs.now ≡ 0 }
        ensures size { length self.new.tally.counts ≡ length self.old.tally.counts }
        ensures counts { (slot : ℕ) → slice_index self.new.tally.counts slot ≡ slice_index self.old.tally.counts slot + naming slot (entries_after change.now refs.now) }
        ensures noted { NotesZeros self.old.tally self.new.tally }
        ensures few { length self.new.tally.noted ≤ length self.old.tally.noted + 1 }
        ensures ticks { self.new.tally.ticks ≡ self.old.tally.ticks + length (entries_after change.now refs.now) }
        ensures lender { self.new.loan.lender ≡ from }
        ensures refs { self.new.loan.refs ≡ refs.now }
    {
        self.repay();
        self.tally.raise_all(change.coming());
        self.loan.begin(from, refs, change.going(refs));
        let (front, back) = self.loan.parts();
        self.tally.charge(front);
        self.tally.charge(back);
    }

    /// What the lender refers to, where a loan is out.
    #[inline(always)]
    pub(crate) fn lender_refs(&self) -> &[Ref]
        ensures { result.now ≡ self.now.loan.refs }
    {
        let _ = &self.tally;
        self.loan.refs()
    }

    /// Where this lender's loan is out, it is repaid.
    #[inline(always)]
    pub(crate) fn settle(&mut self, lender: Ref)
        ensures tally { self.new.tally ≡ self.old.tally }
        ensures loan { KeepsLoan self.old.loan self.new.loan }
        ensures none { LendsNone lender self.new.loan }
    {
        if self.loan.lender() == lender {
            self.repay();
        }
    }

    /// What is lent is counted in full: no loan is out then.
    #[inline(never)]
    fn repay(&mut self)
        ensures tally { self.new.tally ≡ self.old.tally }
        ensures over { IsOver self.new.loan }
    {
        if self.loan.is_out() {
            let (front, back) = self.loan.parts();
            self.tally.restore_all(front);
            self.tally.restore_all(back);
            self.loan.end();
        }
    }

    /// How often a slot was looked at.
    pub(crate) fn ticks(&self) -> &Ticks
        ensures { result.now.count ≡ self.now.tally.ticks }
    {
        let _ = &self.loan;
        self.tally.ticks()
    }
}
