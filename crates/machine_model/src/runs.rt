//! Laws of the definition: three short runs, computed by the checker itself.

ghost use Rattle.machine_model.specs.Runs.{PutAndGet, LatePut, RefusedForWantOfSlots};

/// A law: a put and a get, their history, their order, and the slots in use, free and in limbo.
pub fn put_and_get()
    ensures { PutAndGet }
{}

/// A law: a put that commits after a freeze has closed its generation stands before the freeze.
pub fn late_put()
    ensures { LatePut }
{}

/// A law: a put that finds no free slot is refused, and stands outside the order.
pub fn refused_for_want_of_slots()
    ensures { RefusedForWantOfSlots }
{}
