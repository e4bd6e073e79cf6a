//! Laws of what is an indirection's own: no root leads to it once it was replaced there, for every list of steps.
//!
//! `specs/Owned` says what is own, shared and linked, `specs/Singles` which singles came into an indirection to stay.
#![tactic(auto)]

mod laws;

pub use laws::{
    dropped_is_unlinked, marked_has_stayed, offer_names_replaced, one_referrer, own_or_shared,
    replaced_own_is_read_no_more, replaced_own_is_unlinked, taken_out_is_unlinked, two_roots_share,
};
