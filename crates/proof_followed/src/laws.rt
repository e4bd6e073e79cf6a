//! Laws of what is followed, for every list of steps.

ghost use Rattle.proof_followed.specs.Grace.{FollowedIsNeverBrought, OfferedIsUnknown, UnfollowedDies};
ghost use Rattle.proof_followed.specs.Laws.{FollowedInUse, FollowedIsLive, LiveIsMore, NamedAreFollowed, UnfollowedStays};

/// A law: what is followed is in use.
pub fn followed_in_use()
    ensures { FollowedInUse }
{}

/// A law: what is followed is live.
pub fn followed_is_live()
    ensures { FollowedIsLive }
{}

/// What isn't so, by a run that the checker computes: who met an offer has its expected main node at hand, and doesn't
/// follow it.
pub fn live_is_more()
    ensures { LiveIsMore }
{}

/// A law: what the next action of an operation reads, writes or stores it follows, or reaches from there or from a root.
pub fn named_are_followed()
    ensures { NamedAreFollowed }
{}

/// A law: what nobody follows stays so.
pub fn unfollowed_stays()
    ensures { UnfollowedStays }
{}

/// A law: what a copy is to bring no root follows, and no other operation, until its offer is carried out; so what was made
/// for an offer that is taken back may be used again as soon as the operation gives it up.
pub fn offered_is_unknown()
    ensures { OfferedIsUnknown }
{}

/// A law: what roots followed once nobody is to bring ever after.
pub fn followed_is_never_brought()
    ensures { FollowedIsNeverBrought }
{}

/// A law: what roots don't follow and no copy is to bring is followed by none who begins later, whatever offers are made or
/// carried out, unless an operation that ran then swaps it in again; so nobody follows it when these have ended.
pub fn unfollowed_dies()
    ensures { UnfollowedDies }
{}
