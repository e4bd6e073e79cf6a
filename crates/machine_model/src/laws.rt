//! Laws of the definition, for every list of steps.

ghost use Rattle.machine_model.specs.Laws.{SlotsAddUp, RefusedForWantAlone, GivingUpIsFindingNone, BeginsReserveFree, LeastIsChosen, ReadersMakeNothing, TakenStepsSuffice};
ghost use Rattle.machine_model.specs.Lasting.{LifeChangesNothing};
ghost use Rattle.machine_model.specs.Reads.{EachEmbeds, StepsOfReads};
ghost use Rattle.machine_model.specs.Words.{StepsChangeOneWord, StepsReadOneWord};
ghost use Rattle.machine_model.specs.Taking.{OneSlotAStep, ReadersNeverRefused};

/// A law: the slots in use and the free ones are all slots.
pub fn slots_add_up()
    ensures { SlotsAddUp }
{}

/// A law: an operation is refused for want of slots only where its step before was to make a node, and no
/// slot was free before that step, or where it gave up.
pub fn refused_for_want_alone()
    ensures { RefusedForWantAlone }
{}

/// A law: where an operation is to make a node and no slot is free, to give up comes to the same as to go on.
pub fn giving_up_is_finding_none()
    ensures { GivingUpIsFindingNone }
{}

/// A law: a begin of a call that opens a handle reserves a number that is below the limit, and neither open nor
/// reserved.
pub fn begins_reserve_free()
    ensures { BeginsReserveFree }
{}

/// A law: a begin that chooses the least free number is one that chooses none.
pub fn least_is_chosen()
    ensures { LeastIsChosen }
{}

/// A law: an operation on a read-only handle makes no node.
pub fn readers_make_nothing()
    ensures { ReadersMakeNothing }
{}

/// A law: denied steps can be left out of a run.
pub fn taken_steps_suffice()
    ensures { TakenStepsSuffice }
{}

/// A law: how many steps a machine may take changes nothing of those that it takes.
pub fn life_changes_nothing()
    ensures { LifeChangesNothing }
{}

/// A law: a step takes one free slot at most, and takes one only where it makes a node.
pub fn one_slot_a_step()
    ensures { OneSlotAStep }
{}

/// A law: an operation on a read-only handle is never refused for want of slots, unless it gave up.
pub fn readers_never_refused()
    ensures { ReadersNeverRefused }
{}

/// A law: the line of each program that is in a READ embeds it: its step is the READ's, and the program goes on with
/// what the READ comes to.
pub fn each_embeds()
    ensures { EachEmbeds }
{}

/// A law: a step of a READ is the same in all programs: what it does is the READ's, and of the operation it changes the
/// line alone.
pub fn steps_of_reads()
    ensures { StepsOfReads }
{}

/// A law: what an operation's next step does depends on contents of nodes alone, and what becomes of the operation on
/// the one word besides that the step names.
pub fn steps_read_one_word()
    ensures { StepsReadOneWord }
{}

/// A law: a step of an operation changes the words alone that its action names.
pub fn steps_change_one_word()
    ensures { StepsChangeOneWord }
{}
