//! What a step of an operation was.

ghost use Rattle.std.specs.Prelude.{◌≡◌};
ghost use Rattle.running.specs.Steps.{taken_beside, taken_in, taken_so};
ghost use Rattle.running.specs.Taking.{given_if, committed_if, counts_if};

use ctrie_base::Kind;
use operate::Ref;
use snapshot::ReadAt;
use std::marker::Model;

/// A step that was taken. It keeps what all that is told follows from, in few words: so it costs little to hand it up.
#[derive(Drop)]
pub struct Taken {
    kind: Kind,
    /// Whether the step was one of the operation's READ.
    is_reading: bool,
    /// Whether after it that READ has given a main node, and which.
    has_given: bool,
    main: Ref,
}

impl Model for Taken {
    ghost use Rattle.running.specs.Taking.{Taken as Told, main_if, taken_by};

    ghost Value = { Told };

    ghost view = { λ t. taken_by t.is_reading t.kind (main_if t.has_given t.main) };
}

impl Taken {
    /// A step of this kind, after which the operation's READ stands here.
    #[inline(always)]
    pub(crate) fn by_read(kind: Kind, at: &ReadAt) -> Taken
        ensures { result ≡ taken_so kind at.now }
    {
        Taken::by_key(true, kind, at)
    }

    /// A step of this kind of a call on one key, which was in a READ or not, and after which its READ stands here.
    #[inline(always)]
    pub(crate) fn by_key(is_reading: bool, kind: Kind, at: &ReadAt) -> Taken
        ensures { result ≡ taken_in is_reading kind at.now }
    {
        match at {
            ReadAt::Given { main } => Taken {
                kind,
                is_reading,
                has_given: true,
                main: *main,
            },
            _ => Taken {
                kind,
                is_reading,
                has_given: false,
                main: Ref::default(),
            },
        }
    }

    /// A step of this kind of no READ.
    #[tactic(auto, using(crate::proofs::Untaken::commits_none))]
    #[inline(always)]
    pub(crate) fn of_kind(kind: Kind) -> Taken
        ensures { result ≡ taken_beside kind }
    {
        Taken {
            kind,
            is_reading: false,
            has_given: false,
            main: Ref::default(),
        }
    }

    /// Its kind.
    #[inline(always)]
    pub fn kind(&self) -> Kind
        ensures { result ≡ self.now.kind }
    {
        self.kind
    }

    /// The main node that it committed, if it did.
    #[tactic(auto, using(crate::proofs::Untaken::commits_none))]
    #[inline(always)]
    pub fn committed(&self) -> Option<Ref>
        ensures { result ≡ self.now.committed }
    {
        if self.has_given {
            return committed_if(self.kind, Some(self.main));
        }
        None
    }

    /// The main node that the operation's READ gave by it, if it did.
    #[tactic(auto, using(crate::proofs::Untaken::gives_none))]
    #[inline(always)]
    pub fn given(&self) -> Option<Ref>
        ensures { result ≡ self.now.given }
    {
        if self.is_reading && self.has_given {
            return given_if(self.kind, Some(self.main));
        }
        None
    }

    /// Whether the operation's READ counts from it on.
    #[inline(always)]
    pub fn counts(&self) -> bool
        ensures { result ≡ self.now.counts }
    {
        self.is_reading && counts_if(self.kind)
    }
}

/// What a READ gives by a step of this kind.
#[inline(always)]
fn given_if(kind: Kind, given: Option<Ref>) -> Option<Ref>
    ensures { result ≡ given_if kind given }
{
    match kind {
        Kind::ReadMain | Kind::ReadPrev | Kind::SwapPrev | Kind::SwapMain => given,
        _ => None,
    }
}

/// What a READ commits by a step of this kind, after which it has given this.
#[inline(always)]
fn committed_if(kind: Kind, given: Option<Ref>) -> Option<Ref>
    ensures { result ≡ committed_if kind given }
{
    match kind {
        Kind::SwapPrev => given,
        _ => None,
    }
}

/// Whether a READ counts from a step of this kind on: it read the main word, or swapped it back.
#[inline(always)]
fn counts_if(kind: Kind) -> bool
    ensures { result ≡ counts_if kind }
{
    match kind {
        Kind::ReadMain | Kind::SwapMain => true,
        _ => false,
    }
}
