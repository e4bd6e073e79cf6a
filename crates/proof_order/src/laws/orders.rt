//! Laws of the order, for every list of steps.

ghost use Rattle.proof_order.specs.Laws.Orders.{LegalByFacts, HistoriesWellFormed, AnsweredAreOrdered, OrderedHaveBegun, PlacesStay, RisingSorts};
ghost use Rattle.proof_order.specs.Laws.Past.{PlacesPast};

/// A law: from the facts about the contents of generations it follows that the order is legal, and leads
/// to a world that shows the machine's contents.
pub fn legal_by_facts()
    ensures { LegalByFacts }
{}

/// A law: the recorded history is well formed.
pub fn histories_well_formed()
    ensures { HistoriesWellFormed }
{}

/// A law: each operation that was answered stands in the order.
pub fn answered_are_ordered()
    ensures { AnsweredAreOrdered }
{}

/// A law: each operation in the order has begun.
pub fn ordered_have_begun()
    ensures { OrderedHaveBegun }
{}

/// A law: places once told stay. Later steps add places, and change none.
pub fn places_stay()
    ensures { PlacesStay }
{}

/// A law: the rising places are the places, each as often as before, and sorted.
pub fn rising_sorts()
    ensures { RisingSorts }
{}

/// A law: each place and each closing names a step that was taken.
pub fn places_past()
    ensures { PlacesPast }
{}
