//! Laws of claims, for every list of steps.

ghost use Rattle.proof_claims.specs.Left.{GivenByCarried, GivenByClose, GivenByFailed, GivenByGivingUp, GivenByOwn, GivenByShared, GivenByTakenBack, GivenOtherwise};
ghost use Rattle.proof_claims.specs.Left.{LinkHolds, OldRootIsHeld, ReplacedIsHeld};
ghost use Rattle.proof_claims.specs.Laws.{ChangesBalance, ClaimsDiffer, DroppedIsUnlinked, FollowedIsHeld, LetGoHoldsNothing, LetGoIsUnclaimed, NamesAreHeld, OwnedIsOwn};
ghost use Rattle.proof_claims.specs.Laws.{ReferencesAreHeld, UnheldIsGarbage, UnheldIsUnfollowed, WhoLetsGo};

/// A law: what a step gives to its actor it takes from claims, and claims it adds from the actor, but for the node that it makes.
pub fn changes_balance()
    ensures { ChangesBalance }
{}

/// A law: no root leads to a node that was dropped, then or later.
pub fn dropped_is_unlinked()
    ensures { DroppedIsUnlinked }
{}

/// A law: who lets go of all that a node holds sees that it was replaced or has failed, gives up what it made, or sees that
/// its offer wasn't carried out.
pub fn who_lets_go()
    ensures { WhoLetsGo }
{}

/// A law: a main node that is an indirection's own by the list of steps is its own in the run.
pub fn owned_is_own()
    ensures { OwnedIsOwn }
{}

/// A law: after every list of steps each reference is held in its place, but by nodes that were dropped.
pub fn references_are_held()
    ensures { ReferencesAreHeld }
{}

/// A law: what roots lead to is held by an open handle or by a node to which roots lead.
pub fn followed_is_held()
    ensures { FollowedIsHeld }
{}

/// A law: no claim stands twice, where keys have 64 bits.
pub fn claims_differ()
    ensures { ClaimsDiffer }
{}

/// A law: what neither roots nor running operations follow any more has one claim on each reference that it names, and
/// names it once, unless one of the steps let go of all that it held; where keys have 64 bits.
pub fn names_are_held()
    ensures { NamesAreHeld }
{}

/// A law: what one of the steps let go of holds nothing any more.
pub fn let_go_holds_nothing()
    ensures { LetGoHoldsNothing }
{}

/// A law: nor has anybody a claim on it, once neither roots nor running operations follow it any more; where keys have 64
/// bits.
pub fn let_go_is_unclaimed()
    ensures { LetGoIsUnclaimed }
{}

/// A law: no root leads to what nothing but garbage holds.
pub fn unheld_is_unfollowed()
    ensures { UnheldIsUnfollowed }
{}

/// A law: what is in use, private to nobody, and held by nothing but garbage is garbage.
pub fn unheld_is_garbage()
    ensures { UnheldIsGarbage }
{}

/// A law: who sees its fresh node committed over the indirection's own one is given once each of what
/// that one names, and the fresh one doesn't.
pub fn given_by_own()
    ensures { GivenByOwn }
{}

/// A law: who sees its fresh node committed over one that isn't the indirection's own is given that one, once.
pub fn given_by_shared()
    ensures { GivenByShared }
{}

/// A law: who sees that its fresh node has failed is given once each of what that one names and doesn't take
/// over.
pub fn given_by_failed()
    ensures { GivenByFailed }
{}

/// A law: until then the indirection has a claim on the node that was replaced, or has failed.
pub fn link_holds()
    ensures { LinkHolds }
{}

/// A law: a close is given its root, once.
pub fn given_by_close()
    ensures { GivenByClose }
{}

/// A law: who gives up what it made is given each node that it didn't make itself as often as what it made
/// names it, but for what its fresh node was to take over.
pub fn given_by_giving_up()
    ensures { GivenByGivingUp }
{}

/// A law: who finds that its offer was carried out is given the old root, once; but nothing by a freeze.
pub fn given_by_carried()
    ensures { GivenByCarried }
{}

/// A law: who finds that its offer was taken back is given what each of the roots that it made for it names.
pub fn given_by_taken_back()
    ensures { GivenByTakenBack }
{}

/// A law: every other step gives its actor what it makes, and nothing else.
pub fn given_otherwise()
    ensures { GivenOtherwise }
{}

/// A law: from the commit of its fresh node until who swapped that in has looked, the indirection has a claim on
/// the replaced node, and that one, if it was the indirection's own, on what the fresh one doesn't name.
pub fn replaced_is_held()
    ensures { ReplacedIsHeld }
{}

/// A law: from the step that carries its offer out until who offered has seen that, its handle has a claim on the
/// old root, but for a freeze.
pub fn old_root_is_held()
    ensures { OldRootIsHeld }
{}
