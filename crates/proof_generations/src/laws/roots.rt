//! Laws of generations, handles and offers, for every list of steps.

ghost use Rattle.proof_generations.specs.Laws.Roots.{GenerationsAreDrawn, OfferersRun, OffersAreFound, HandlesStayOpen, NumbersAreReserved, WritableRootsAreOwn};
ghost use Rattle.proof_generations.specs.Laws.Roots.{ReadOnlyRootsAreClosed, ClosedForEver, OfferedRootsAreFree};

/// A law: the next generation to be drawn is greater than each that there is.
pub fn generations_are_drawn()
    ensures { GenerationsAreDrawn }
{}

/// A law: while an offer stands in a root word the operation that made it runs on that handle, in that try and
/// without its mark (`running`); who takes an offer back or carries it out finds the very same one (`found`).
pub fn offers_are_their_operations()
    ensures running { OfferersRun }
    ensures found { OffersAreFound }
{}

/// A law: the handle of a running operation stays open, of its kind, but that of a close (`open`); the number
/// that it is to open is its own, and names no handle until its offer is carried out (`reserved`).
pub fn handles_of_operations()
    ensures open { HandlesStayOpen }
    ensures reserved { NumbersAreReserved }
{}

/// A law: the root of a writable handle has a generation that is open and its own (`writable`); that of a
/// read-only handle is closed, and its word is plain (`read_only`); a closed one never opens again (`closed`);
/// the roots that an offer brings have generations of their own (`offered`).
pub fn roots_have_own_generations()
    ensures writable { WritableRootsAreOwn }
    ensures read_only { ReadOnlyRootsAreClosed }
    ensures closed { ClosedForEver }
    ensures offered { OfferedRootsAreFree }
{}
