//! Laws of calls that run alone, and of the sweep after them.

ghost use Rattle.proof_alone.specs.Calls.{CallsBegin, CallsDo, CallsEnd, CallsGoOn, EnoughSlotsForCalls, RefusedIfOut};
ghost use Rattle.proof_alone.specs.Sweeps.{CleanIsReached, SweepsLeave};

/// A law: a call that nothing denies begins.
pub fn calls_begin()
    ensures { CallsBegin }
{}

/// A law: wherever a call comes to that runs alone, it leads on, within its steps.
pub fn calls_go_on()
    ensures { CallsGoOn }
{}

/// A law: it comes to its end.
pub fn calls_end()
    ensures { CallsEnd }
{}

/// A law: what it does to the maps of handles, and how many steps and slots it takes.
pub fn calls_do()
    ensures { CallsDo }
{}

/// A law: it is refused for lack of slots only where its last step before that was to make a node and none was free.
pub fn refused_if_out()
    ensures { RefusedIfOut }
{}

/// A law: it isn't where as many slots are free as it may take.
pub fn enough_slots_for_calls()
    ensures { EnoughSlotsForCalls }
{}

/// A law: the sweep leaves the maps of handles, and takes few steps for each slot that it frees.
pub fn sweeps_leave()
    ensures { SweepsLeave }
{}

/// A law: where nothing runs and limbo is empty just what the handles reach is in use.
pub fn clean_is_reached()
    ensures { CleanIsReached }
{}
