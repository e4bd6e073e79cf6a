//! Laws of more slots, and of steps without the sweep's.

ghost use Rattle.proof_slots.specs.Laws.{MoreSlotsAlike, MoreSlotsAnswer, FewStepsHaveSlots};
ghost use Rattle.proof_slots.specs.Lasting.{WiderAlike};
ghost use Rattle.proof_slots.specs.Slots.{SlotsAreBelowBirths};
ghost use Rattle.proof_slots.specs.Unswept.{NothingIsFreed, SlotsTellApart, SlotsAreTakenInOrder, FreeAtTheEnd};

/// A law: a run with more slots leads to the same state, but that the slots more are free at the end.
pub fn more_slots_alike()
    ensures { MoreSlotsAlike }
{}

/// A law: the step after it comes to the same too.
pub fn more_slots_answer()
    ensures { MoreSlotsAnswer }
{}

/// A law: of as many steps as there are slots but two, each finds a free slot.
pub fn few_steps_have_slots()
    ensures { FewStepsHaveSlots }
{}

/// A law: with more slots, and more steps that it may take, a machine comes by the same steps to the same.
pub fn wider_alike()
    ensures { WiderAlike }
{}

/// A law: without steps of the sweep, where a slot is free in the end, one was free before each step.
pub fn free_at_the_end()
    ensures { FreeAtTheEnd }
{}

/// A law: without steps of the sweep what is in use stays in use, with its node.
pub fn nothing_is_freed()
    ensures { NothingIsFreed }
{}

/// A law: without steps of the sweep no two references that were drawn have one slot.
pub fn slots_tell_apart()
    ensures { SlotsTellApart }
{}

/// A law: without steps of the sweep slots are taken by rising number.
pub fn slots_are_taken_in_order()
    ensures { SlotsAreTakenInOrder }
{}

/// A law: what is in use stands in one of as many first slots as births were drawn.
pub fn slots_are_below_births()
    ensures { SlotsAreBelowBirths }
{}
