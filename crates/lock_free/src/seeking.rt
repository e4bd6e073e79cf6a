//! KEY with RENEW and CLEAN: a try goes on until it can answer, or change something.

use crate::descending::Update;
use crate::reading::Given;
use history::Reply;

/// What a try of a call on a key comes to.
#[derive(Drop)]
pub enum Sought {
    /// It answers this, and changes nothing.
    Answers(Reply),
    /// It changes the main node that was given so.
    Changes { update: Update, given: Given },
    /// It begins anew: what stood in its way was repaired, or the root was another one's.
    Again,
    /// No slot is had: it gives up.
    Full,
}
