//! Laws of main nodes, indirections and singles that no root leads to any more.

ghost use Rattle.proof_owned.specs.Singles.{DroppedIsUnlinked, MarkedHasStayed};
ghost use Rattle.proof_owned.specs.Window.{OfferNamesReplaced, TwoRootsShare};
ghost use Rattle.proof_owned.specs.Laws.{FailedOwnIsUnlinked, MainsOfTakenOutAreUnlinked, NeverBoth, OneReferrer, OwnOrShared, ReplacedOwnIsReadNoMore, ReplacedOwnIsUnlinked, TakenOutIsUnlinked};

/// A law: a main node that stood in an indirection's word is its own, or the indirection was made over it and it stood in
/// another's word before (`either`); never both (`never_both`).
pub fn own_or_shared()
    ensures either { OwnOrShared }
    ensures never_both { NeverBoth }
{}

/// A law: while an indirection's generation is open, and once the node is replaced there, a slot in use that names the
/// indirection's own main node is this indirection, a root that was never opened, or a main node over it.
pub fn one_referrer()
    ensures { OneReferrer }
{}

/// A law: no root of a handle leads to a node that was an indirection's own and was replaced there (`replaced`), or
/// failed there (`failed`).
pub fn replaced_own_is_unlinked()
    ensures replaced { ReplacedOwnIsUnlinked }
    ensures failed { FailedOwnIsUnlinked }
{}

/// A law: whoever reads a main word from then on finds neither the node that was replaced nor one that stands over it.
pub fn replaced_own_is_read_no_more()
    ensures { ReplacedOwnIsReadNoMore }
{}

/// A law: no root leads to an indirection of its parent's own generation that was taken out of the parent's main node
/// (`indirections`), nor to a main node that is its own, its tomb as well (`mains`).
pub fn taken_out_is_unlinked()
    ensures indirections { TakenOutIsUnlinked }
    ensures mains { MainsOfTakenOutAreUnlinked }
{}

/// A law, of steps whose keys have 64 bits: no root leads to a single that came into an indirection with a main node, stood in
/// each of its main nodes from then on, and was dropped there with no indirection in its place.
pub fn dropped_is_unlinked()
    ensures { DroppedIsUnlinked }
{}

/// A law: where the main node that counts for an indirection has the mark of a single, the single came into the indirection
/// with a main node and has stayed in each that counted since.
pub fn marked_has_stayed()
    ensures { MarkedHasStayed }
{}

/// A run: an offer stands whose new root has a main node that was replaced at the old one.
pub fn offer_names_replaced()
    ensures { OfferNamesReplaced }
{}

/// A run: after a freeze the roots of both handles have one main node.
pub fn two_roots_share()
    ensures { TwoRootsShare }
{}
