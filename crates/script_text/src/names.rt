//! The words by which commands and kinds of steps are named.

ghost use Rattle.std.specs.Prelude.{◌≡◌};
ghost use Rattle.script_text.specs.Names.{command_named, kind_named};

use ctrie_base::Kind;

/// What a command is named by.
#[derive(Clone, Copy)]
pub enum CommandName {
    Actor,
    Go,
    Until,
    Finish,
    Do,
    Sweep,
}

impl CommandName {
    /// The command of this name.
    #[tactic(auto, unfolding(crate::specs::Names::command_named))]
    pub fn of(word: &[u8]) -> Option<CommandName>
        ensures { result ≡ command_named word.now }
    {
        if word == b"actor".as_slice() {
            return Some(CommandName::Actor);
        }
        if word == b"go".as_slice() {
            return Some(CommandName::Go);
        }
        if word == b"until".as_slice() {
            return Some(CommandName::Until);
        }
        if word == b"finish".as_slice() {
            return Some(CommandName::Finish);
        }
        if word == b"do".as_slice() {
            return Some(CommandName::Do);
        }
        if word == b"sweep".as_slice() {
            return Some(CommandName::Sweep);
        }
        None
    }
}

/// The kind of an operation's steps that is named so.
#[tactic(auto, unfolding(crate::specs::Names::kind_named))]
pub fn kind_named(word: &[u8]) -> Option<Kind>
    ensures { result ≡ kind_named word.now }
{
    if word == b"read-root".as_slice() {
        return Some(Kind::ReadRoot);
    }
    if word == b"swap-root".as_slice() {
        return Some(Kind::SwapRoot);
    }
    if word == b"read-main".as_slice() {
        return Some(Kind::ReadMain);
    }
    if word == b"swap-main".as_slice() {
        return Some(Kind::SwapMain);
    }
    if word == b"read-prev".as_slice() {
        return Some(Kind::ReadPrev);
    }
    if word == b"swap-prev".as_slice() {
        return Some(Kind::SwapPrev);
    }
    if word == b"look".as_slice() {
        return Some(Kind::Look);
    }
    if word == b"make".as_slice() {
        return Some(Kind::Make);
    }
    if word == b"end".as_slice() {
        return Some(Kind::End);
    }
    None
}
