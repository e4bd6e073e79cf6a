//! Calls, read from their words.

ghost use Rattle.std.specs.Prelude.{◌≡◌};
ghost use Rattle.text_lines.specs.Words.{nows, both};
ghost use Rattle.history_text.specs.Words.{handle_word, value_word};
ghost use Rattle.history_text.specs.Lines.{call_of, call_on_handle, call_on_key, call_on_pair, call_on_change, opening_call, opens, call_of_four, call_of_five};

use crate::names::CallName;
use crate::words::{handle_word, value_word};
use ctrie_base::Refusal;
use history::Call;
use text_lines::both;

/// A call, and the handle after `as` where it opens one.
pub type Said = Result<(Call, Option<u16>), Refusal>;

/// The call that these words say. The name and the number of words are wrong with BadLine, a number
/// with BadNumber.
#[tactic(auto, using(crate::proofs::Forms::short_call, crate::proofs::Forms::long_call), unfolding(crate::specs::Lines::call_of))]
pub fn call_of(words: &[&[u8]]) -> Said
    ensures { result ≡ call_of (nows words.now) }
{
    match words {
        [name, handle] => call_on_handle(CallName::of(name), handle_word(handle)),
        [name, handle, key] => {
            call_on_key(
                CallName::of(name),
                both(handle_word(handle), value_word(key)),
            )
        }
        [name, handle, third, fourth] => call_of_four(CallName::of(name), handle, third, fourth),
        [name, handle, key, old, new] => call_of_five(CallName::of(name), handle, key, old, new),
        _ => Err(Refusal::BadLine),
    }
}

fn call_on_handle(name: Option<CallName>, handle: Result<u16, Refusal>) -> Said
    ensures { result ≡ call_on_handle name handle }
{
    match name {
        Some(CallName::Clear) => Ok((Call::Clear { handle: handle? }, None)),
        Some(CallName::Close) => Ok((Call::Close { handle: handle? }, None)),
        Some(CallName::Entries) => Ok((Call::Entries { handle: handle? }, None)),
        Some(CallName::Count) => Ok((Call::Count { handle: handle? }, None)),
        _ => Err(Refusal::BadLine),
    }
}

fn call_on_key(name: Option<CallName>, at: Result<(u16, u64), Refusal>) -> Said
    ensures { result ≡ call_on_key name at }
{
    match name {
        Some(CallName::Get) => {
            let (handle, key) = at?;
            Ok((Call::Get { handle, key }, None))
        }
        Some(CallName::Remove) => {
            let (handle, key) = at?;
            Ok((Call::Remove { handle, key }, None))
        }
        _ => Err(Refusal::BadLine),
    }
}

fn call_of_four(name: Option<CallName>, handle: &[u8], third: &[u8], fourth: &[u8]) -> Said
    ensures { result ≡ call_of_four name handle.now third.now fourth.now }
{
    if opens(name) {
        if third != b"as".as_slice() {
            return Err(Refusal::BadLine);
        }
        return opening_call(name, both(handle_word(handle), handle_word(fourth)));
    }
    let pair = both(value_word(third), value_word(fourth));
    call_on_pair(name, both(handle_word(handle), pair))
}

/// Whether a call of this name opens a handle.
pub fn opens(name: Option<CallName>) -> bool
    ensures { result ≡ opens name }
{
    matches!(name, Some(CallName::Snapshot | CallName::Freeze))
}

fn opening_call(name: Option<CallName>, at: Result<(u16, u16), Refusal>) -> Said
    ensures { result ≡ opening_call name at }
{
    match name {
        Some(CallName::Snapshot) => {
            let (handle, opened) = at?;
            Ok((Call::Snapshot { handle }, Some(opened)))
        }
        Some(CallName::Freeze) => {
            let (handle, opened) = at?;
            Ok((Call::Freeze { handle }, Some(opened)))
        }
        _ => Err(Refusal::BadLine),
    }
}

fn call_on_pair(name: Option<CallName>, at: Result<(u16, (u64, u64)), Refusal>) -> Said
    ensures { result ≡ call_on_pair name at }
{
    match name {
        Some(CallName::Put) => {
            let (handle, (key, value)) = at?;
            Ok((Call::Put { handle, key, value }, None))
        }
        Some(CallName::PutIfAbsent) => {
            let (handle, (key, value)) = at?;
            Ok((Call::PutIfAbsent { handle, key, value }, None))
        }
        Some(CallName::Replace) => {
            let (handle, (key, value)) = at?;
            Ok((Call::Replace { handle, key, value }, None))
        }
        Some(CallName::RemoveIf) => {
            let (handle, (key, value)) = at?;
            Ok((Call::RemoveIf { handle, key, value }, None))
        }
        _ => Err(Refusal::BadLine),
    }
}

fn call_of_five(name: Option<CallName>, handle: &[u8], key: &[u8], old: &[u8], new: &[u8]) -> Said
    ensures { result ≡ call_of_five name handle.now key.now old.now new.now }
{
    let change = both(value_word(old), value_word(new));
    call_on_change(
        name,
        both(handle_word(handle), both(value_word(key), change)),
    )
}

fn call_on_change(name: Option<CallName>, at: Result<(u16, (u64, (u64, u64))), Refusal>) -> Said
    ensures { result ≡ call_on_change name at }
{
    match name {
        Some(CallName::ReplaceIf) => {
            let (handle, (key, (old, new))) = at?;
            Ok((
                Call::ReplaceIf {
                    handle,
                    key,
                    old,
                    new,
                },
                None,
            ))
        }
        _ => Err(Refusal::BadLine),
    }
}
