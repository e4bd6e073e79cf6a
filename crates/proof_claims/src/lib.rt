//! Who holds references, as a function of the list of steps.
#![tactic(auto)]

mod laws;

pub use laws::{
    changes_balance, claims_differ, dropped_is_unlinked, followed_is_held, given_by_carried,
    given_by_close, given_by_failed, given_by_giving_up, given_by_own, given_by_shared,
    given_by_taken_back, given_otherwise, let_go_holds_nothing, let_go_is_unclaimed, link_holds,
    names_are_held, old_root_is_held, owned_is_own, references_are_held, replaced_is_held,
    unheld_is_garbage, unheld_is_unfollowed, who_lets_go,
};
