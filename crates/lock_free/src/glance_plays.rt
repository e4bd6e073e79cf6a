//! What single accesses tell by which the epoch grows, and by which glances are counted or made.

ghost use Rattle.history.specs.declared.calls.Call.{Call};
ghost use Rattle.history.specs.declared.calls.Call.TheVariants.{Get};
ghost use Rattle.lock_free.specs.Epochs.{has_advanced, has_checked, has_seen_epoch};
ghost use Rattle.lock_free.specs.Glances.{has_cleared, has_seen_count};
ghost use Rattle.lock_free.specs.Glancing.{has_begun_glance, has_ended_glance, has_glanced, has_stopped_glance};

use crate::rules::View;
use atomic_table::Play;
use history::Call;
use std::marker::{Brand, PhantomData};

/// The epoch is looked at.
pub struct SeesEpoch;

impl Play<Call, View> for SeesEpoch {
    ghost then = { has_seen_epoch };
}

/// A seat that would let the epoch grow looks at the next seat's pin.
pub struct Checks;

impl Play<Call, View> for Checks {
    ghost then = { has_checked };
}

/// The epoch grows, or doesn't.
pub struct Advances;

impl Play<Call, View> for Advances {
    ghost then = { has_advanced };
}

/// How many glances were counted is looked at.
pub struct SeesCount;

impl Play<Call, View> for SeesCount {
    ghost then = { has_seen_count };
}

/// Glances are counted up, or aren't.
pub struct Clears;

impl Play<Call, View> for Clears {
    ghost then = { has_cleared };
}

/// The call for which a seat glances: picked where it begins to.
pub trait Seeks {
    ghost call: { Call };
}

impl Seeks for Brand {
    ghost call = { Get 0 0 };
}

/// A seat begins to glance: it is pinned then, and no word says so.
pub struct BeginsGlance<N> {
    marker: PhantomData<N>,
}

impl<N: Seeks> Play<Call, View> for BeginsGlance<N> {
    ghost then = { has_begun_glance N.call };
}

/// A seat that glances looks at a word as it would if it were pinned.
pub struct Glances<P> {
    marker: PhantomData<P>,
}

impl<P: Play<Call, View>> Play<Call, View> for Glances<P> {
    ghost then = { has_glanced P.then };
}

/// A glance ends: what it has seen counts, or it has fallen.
pub struct EndsGlance;

impl Play<Call, View> for EndsGlance {
    ghost then = { has_ended_glance };
}

/// A glance is given up.
pub struct StopsGlance;

impl Play<Call, View> for StopsGlance {
    ghost then = { has_stopped_glance };
}
