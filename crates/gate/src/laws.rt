//! Laws of logs, for every object.

ghost use Rattle.gate.specs.Laws.{CallsKeepALogLegal, ACallIsOneEntry, OthersLeaveOwnCalls, LogsGoOn, ToldCallsStandBefore, SeatsMakeTheLog};

use crate::objects::Object;
use crate::seats::HoldsSeat;

/// A law: a log that was legal is so with a call more.
pub fn calls_keep_a_log_legal<O: Object<C, A>, C, A>()
    ensures { CallsKeepALogLegal O.answers }
{}

/// A law: of its seat's calls, a call is one more, and the last.
pub fn a_call_is_one_entry<O: Object<C, A>, C, A>()
    ensures { ACallIsOneEntry O.answers }
{}

/// A law: what other seats call leaves a seat's calls as they are.
pub fn others_leave_own_calls<O: Object<C, A>, C, A>()
    ensures { OthersLeaveOwnCalls O.answers }
{}

/// A law: the log that a seat finds when it calls, hears or comes to the end of the gate has all that it saw before, in
/// the same places.
pub fn logs_go_on<O: Object<C, A>, C, A>()
    ensures { LogsGoOn O.answers }
{}

/// A law: a call of a seat that knew of another call stands after it, in each log that goes on from both.
pub fn told_calls_stand_before<O: Object<C, A>, C, A>()
    ensures { ToldCallsStandBefore O.answers }
{}

/// A law: what is counted of the log's calls is what the seats that `finish` takes count of their own, together.
pub fn seats_make_the_log<S: HoldsSeat<O, C, A>, O: Object<C, A>, C, A>()
    ensures { SeatsMakeTheLog O.answers S.seat }
{}
