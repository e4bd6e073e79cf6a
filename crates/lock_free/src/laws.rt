//! Laws of what seats have seen.

ghost use Rattle.lock_free.specs.Answers.{AnswersGoOn, BeginsTellNothing, EndsAreTold, OthersTellNothing};
ghost use Rattle.lock_free.specs.KeysApart.{FirstSeatIsSilent, KeysApartAreAnswered, RestingSeatsRunNothing};
ghost use Rattle.lock_free.specs.OneKey.{OwnKeysAreAnswered};
ghost use Rattle.lock_free.specs.Answering.{CallsAreAnswered, ClosesAreAnswered, RefusalsAreAnswered};
ghost use Rattle.lock_free.specs.Denials.{ClosesTellHandles, DenialsTellHandles};
ghost use Rattle.lock_free.specs.Telling.{HistoriesGoOn, SeatsAreExplained};

use proof_linearizable::every_order_is_legal;

/// A law: whatever a seat has seen, there is an order that explains the history so far, in which an operation that ended before
/// another one began comes first, and which leads to what handles show.
pub fn seats_are_explained()
    ensures { SeatsAreExplained }
{
    every_order_is_legal();
}

/// A law: a history goes on, and never changes what it has told.
pub fn histories_go_on()
    ensures { HistoriesGoOn }
{}

/// A law: what an actor was answered stays so, and later answers stand after it.
pub fn answers_go_on()
    ensures { AnswersGoOn }
{}

/// A law: what others do tells an actor nothing, so all that it was answered is told in the account at its own last step.
pub fn others_tell_nothing()
    ensures { OthersTellNothing }
{}

/// A law: where an operation begins nobody is answered.
pub fn begins_tell_nothing()
    ensures { BeginsTellNothing }
{}

/// A law: where an operation ends its actor is answered, after all that it was answered before: its call, and the reply by which it
/// ends.
pub fn ends_are_told()
    ensures { EndsAreTold }
{}

/// A law: where nobody else ever calls on a key of a handle, an actor's calls on it are answered, one after the other, as on a map of
/// this key alone; but one that would add the key may be `Crowded`, since keys of others may have its hash. The calls that empty the
/// handle's map, open the handle or take it away are among those that nobody else makes.
pub fn own_keys_are_answered()
    ensures { OwnKeysAreAnswered }
{}

/// A law: where a map has ended with all its seats, and no seat but one has called on a key of a handle, as each knows of itself, this
/// seat's calls on it were answered, one after the other, as on a map of this key alone.
pub fn keys_apart_are_answered()
    ensures { KeysApartAreAnswered }
{}

/// A law: where a seat rests it runs nothing, so all that it has called was answered.
pub fn resting_seats_run_nothing()
    ensures { RestingSeatsRunNothing }
{}

/// A law: at first nobody has been told anything.
pub fn first_seat_is_silent()
    ensures { FirstSeatIsSilent }
{}

/// A law: a call that has begun and whose operation has ended was answered so, and its seat was answered nothing else meanwhile; in the
/// history it is an operation of its seat's that began and ended since then.
pub fn calls_are_answered()
    ensures { CallsAreAnswered }
{}

/// A law: so was a call whose operation has given up.
pub fn refusals_are_answered()
    ensures { RefusalsAreAnswered }
{}

/// A law: so was a call that has closed its handle.
pub fn closes_are_answered()
    ensures { ClosesAreAnswered }
{}

/// A law: a call that was denied tells of its handle that at some time since it wasn't open, or was for readers, or could be written, as an
/// order of all calls by then explains; or that an offer which opens it has come to stand, so that its word may name that one still.
pub fn denials_tell_handles()
    ensures { DenialsTellHandles }
{
    seats_are_explained();
}

/// A law: a close that has found its handle closed tells that at some time since it wasn't open.
pub fn closes_tell_handles()
    ensures { ClosesTellHandles }
{
    seats_are_explained();
}
