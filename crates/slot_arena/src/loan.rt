//! A loan of counts.

ghost use Rattle.std.specs.Prelude.{◌≡◌, ◌+◌, ◌≤◌, false, true, [], length, take, drop};
ghost use Rattle.slot_arena.specs.Refs.{slot_of};
ghost use Rattle.slot_arena.specs.Tallies.{naming};
ghost use Rattle.slot_arena.specs.Loans.{IsOver};

use crate::entries::MOST_ENTRIES;
use crate::refs::Ref;
use std::marker::Model;

/// What a node refers to, where it lends the counts of these references, all or all but one, to its changed copy. It doesn't
/// refer to itself.
#[derive(Drop)]
pub(crate) struct Loan {
    lender: Ref,
    /// The references, at the front.
    refs: [Ref; MOST_ENTRIES],
    /// How many they are, 0 where no loan is out.
    len: usize,
    kept: usize,
    /// Whether a slot was looked for among them.
    is_searched: bool,
}

impl Model for Loan {
    ghost use Rattle.std.specs.Prelude.{◌≡◌, ◌≤◌, length, take};
    ghost use Rattle.slot_arena.specs.Refs.{slot_of};
    ghost use Rattle.slot_arena.specs.Tallies.{naming};
    ghost use Rattle.slot_arena.specs.Loans.{Loan as Lending};

    ghost Value = { Lending };

    ghost view = { λ l. record { lender = l.lender; refs = take l.len l.refs; kept = l.kept } };

    ghost invariant = { λ l. (l.len ≤ length l.refs) × (length l.refs ≡ 32) × (l.kept ≤ l.len) × (naming (slot_of l.lender) (take l.len l.refs) ≡ 0) };
}

impl Loan {
    /// No loan.
    pub(crate) fn new() -> Loan
        ensures { result ≡ record { lender = 0; refs = []; kept = 0 } }
    {
        Loan {
            lender: Ref::default(),
            refs: [Ref::default(); MOST_ENTRIES],
            len: 0,
            kept: 0,
            is_searched: false,
        }
    }

    /// A loan of all these references but the one at this position.
    #[inline(always)]
    pub(crate) fn begin(&mut self, lender: Ref, refs: &[Ref], kept: usize)
        requires few { length refs.now ≤ 32 }
        requires kept { kept ≤ length refs.now }
        requires apart { naming (slot_of lender) refs.now ≡ 0 }
        ensures { self.new ≡ record { lender = lender; refs = refs.now; kept = kept } }
    {
        self.refs[..refs.len()].copy_from_slice(refs);
        self.len = refs.len();
        self.kept = kept;
        self.lender = lender;
        self.is_searched = false;
    }

    /// The loan is over.
    #[inline(always)]
    pub(crate) fn end(&mut self)
        ensures { IsOver self.new }
    {
        self.len = 0;
        self.kept = 0;
    }

    /// Whether a loan is out.
    #[inline(always)]
    pub(crate) fn is_out(&self) -> bool
        ensures out { result ≡ true → IsOver self.now → ⊥ }
        ensures over { result ≡ false → IsOver self.now }
    {
        self.len != 0
    }

    /// Whose references are lent, where a loan is out.
    #[inline(always)]
    pub(crate) fn lender(&self) -> Ref
        ensures { result ≡ self.now.lender }
    {
        self.lender
    }

    /// What it refers to, all of it; nothing where no loan is out.
    #[inline(always)]
    pub(crate) fn refs(&self) -> &[Ref]
        ensures { result.now ≡ self.now.refs }
    {
        &self.refs[..self.len]
    }

    /// The position of the one that isn't lent.
    #[inline(always)]
    pub(crate) fn kept(&self) -> usize
        ensures kept { result ≡ self.now.kept }
        ensures within { result ≤ length self.now.refs }
    {
        self.kept
    }

    /// What is lent, in front of the one that isn't and after it.
    pub(crate) fn parts(&self) -> (&[Ref], &[Ref])
        ensures front { result.0.now ≡ take self.now.kept self.now.refs }
        ensures back { result.1.now ≡ drop (self.now.kept + 1) self.now.refs }
    {
        let refs = &self.refs[..self.len];
        let (front, rest) = refs.split_at(self.kept);
        if rest.is_empty() {
            return (front, rest);
        }
        (front, &rest[1..])
    }

    /// Whether one of the references names the slot, or may. None names the lender's. One other slot is looked for among them: whoever
    /// looks for more does better to have the loan repaid.
    pub(crate) fn may_name(&mut self, slot: u32) -> bool
        ensures none { result ≡ false → naming slot self.old.refs ≡ 0 }
        ensures same { self.new ≡ self.old }
    {
        if self.lender.slot() == slot {
            return false;
        }
        if self.is_searched {
            return true;
        }
        self.is_searched = true;
        self.names(slot)
    }

    /// Whether one of the references names the slot, or did before the loan began.
    fn names(&self, slot: u32) -> bool
        ensures { result ≡ false → naming slot self.now.refs ≡ 0 }
    {
        let mut named = false;
        for i in 0..MOST_ENTRIES {
            named = named | (self.refs[i].slot() == slot);
        }
        named
    }
}
