//! Laws of what is followed: of an offer that was met in a root word its root alone.
#![tactic(auto)]

mod laws;

pub use laws::{
    followed_in_use, followed_is_live, followed_is_never_brought, live_is_more, named_are_followed,
    offered_is_unknown, unfollowed_dies, unfollowed_stays,
};
