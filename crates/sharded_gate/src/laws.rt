//! Laws of logs, for every object in shards.

ghost use Rattle.gate.specs.Laws.{CallsKeepALogLegal, ACallIsOneEntry, OthersLeaveOwnCalls, LogsGoOn, SeatsMakeTheLog};
ghost use Rattle.sharded_gate.specs.Laws.{ToldCallsOfAShardStandBefore};

use crate::finishing::HoldsShardedSeat;
use crate::sharded::Sharded;

/// A law: a log that was legal is so with a call more.
pub fn calls_keep_a_log_legal<O: Sharded<C, A>, C, A>()
    ensures { CallsKeepALogLegal O.answers }
{}

/// A law: of its seat's calls, a call is one more, and the last.
pub fn a_call_is_one_entry<O: Sharded<C, A>, C, A>()
    ensures { ACallIsOneEntry O.answers }
{}

/// A law: what other seats call leaves a seat's calls as they are.
pub fn others_leave_own_calls<O: Sharded<C, A>, C, A>()
    ensures { OthersLeaveOwnCalls O.answers }
{}

/// A law: the log that a seat finds when it calls, hears or comes to the end of the gate has all that it saw before, in
/// the same places.
pub fn logs_go_on<O: Sharded<C, A>, C, A>()
    ensures { LogsGoOn O.answers }
{}

/// A law: a call of a seat that knew of another call about a shard stands after it, in each log that goes on from both.
pub fn told_calls_of_a_shard_stand_before<O: Sharded<C, A>, C, A>()
    ensures { ToldCallsOfAShardStandBefore O.answers O.about }
{}

/// A law: what is counted of the log's calls is what the seats that `finish` takes count of their own, together.
pub fn seats_make_the_log<S: HoldsShardedSeat<O, C, A>, O: Sharded<C, A>, C, A>()
    ensures { SeatsMakeTheLog O.answers S.seat }
{}
