//! The laws.

ghost use Rattle.proof_waiting.specs.Laws.{ActionsWait};
ghost use Rattle.proof_waiting.specs.Waiting.{OperationsWait};

/// Where nodes are as they were, but for main words, a running operation's next action is as it was.
pub fn actions_wait()
    ensures { ActionsWait }
{}

/// While others take steps and nothing is freed, an operation stays, but for its mark, and so does what it does next.
pub fn operations_wait()
    ensures { OperationsWait }
{}
