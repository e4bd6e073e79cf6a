//! The texts of replies.

ghost use Rattle.std.specs.Prelude.{Some, map};
ghost use Rattle.history_text.specs.Texts.{reply_text, pair_text, behind_spaces};

use history::Reply;
use std::fmt;

/// A reply as its text, as `some 10`.
#[derive(Clone, Copy)]
pub struct ReplyText<'a>(pub &'a Reply);

impl fmt::Display for ReplyText<'_> {
    ghost output = { λ t. Some (reply_text t.0.now) };

    fn fmt<W: fmt::Write>(&self, f: &mut fmt::Formatter<W>) -> fmt::Result {
        match self.0 {
            Reply::Found(None) => write!(f, "none"),
            Reply::Found(Some(value)) => write!(f, "some {value}"),
            Reply::Truth(true) => write!(f, "true"),
            Reply::Truth(false) => write!(f, "false"),
            Reply::Crowded => write!(f, "crowded"),
            Reply::Opened(handle) => write!(f, "handle {handle}"),
            Reply::Closed => write!(f, "closed"),
            Reply::Cleared => write!(f, "cleared"),
            Reply::Pairs(pairs) => write!(f, "pairs{}", PairsText(pairs.as_slice())),
            Reply::Count(count) => write!(f, "count {count}"),
            Reply::NoSlots => write!(f, "no-slots"),
        }
    }
}

// Each pair after a space.
#[derive(Clone, Copy)]
struct PairsText<'a>(&'a [(u64, u64)]);

impl fmt::Display for PairsText<'_> {
    ghost output = { λ t. Some (behind_spaces (map pair_text t.0.now)) };

    fn fmt<W: fmt::Write>(&self, f: &mut fmt::Formatter<W>) -> fmt::Result {
        for pair in self.0 {
            write!(f, " {}={}", pair.0, pair.1)?;
        }
        Ok(())
    }
}
