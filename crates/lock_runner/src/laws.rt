//! Laws of the machine's histories, for every list of steps.

ghost use Rattle.lock_runner.specs.ActorHistory.Laws.{RunningIdsDiffer, OthersLeaveTheAccount, OwnStepsMakeTheAccount, AnswersAreThoseOfTheHistory};

/// A law: operations that run at one time have distinct ids.
pub fn running_ids_differ()
    ensures { RunningIdsDiffer }
{}

/// A law: a step changes nothing of what the history tells of another actor.
pub fn others_leave_the_account()
    ensures { OthersLeaveTheAccount }
{}

/// A law: what an actor's own step makes of what the history tells of it.
pub fn own_steps_make_the_account()
    ensures { OwnStepsMakeTheAccount }
{}

/// A law: the answers of an actor's account are its ended operations.
pub fn answers_are_those_of_the_history()
    ensures { AnswersAreThoseOfTheHistory }
{}
