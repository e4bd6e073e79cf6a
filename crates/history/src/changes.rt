//! What the calls that change a map do to it.

ghost use Rattle.std.specs.Prelude.{◌≡◌, None, Ok, IsOk, IfOk, OnErr, IsOkUnless};
ghost use Rattle.ctrie_base.specs.Hashes.{hash_of};
ghost use Rattle.history.specs.Changes.{change_in, reply_or_same};
ghost use Rattle.history.specs.Memory.{TakesNone};
ghost use Rattle.history.specs.Effects.{put_in, put_if_absent_in, replace_in, replace_if_in, remove_in, remove_if_in};

use crate::calls::Call;
use crate::content::Content;
use crate::replies::Reply;
use ctrie_base::{HashKind, Refusal};

/// Carries out a call that changes a map, and answers it; `None` for any other call. After `Memory`
/// the map is as it was.
pub fn change(content: &mut Content, call: &Call, hash: HashKind) -> Result<Option<Reply>, Refusal>
    ensures answer { IfOk result
        (λ reply. (reply, content.new)
        ≡ reply_or_same content.old (change_in (hash_of hash) call.now content.old)) }
    ensures none { change_in (hash_of hash) call.now content.old ≡ None → result ≡ Ok None }
    ensures no_memory { TakesNone call.now → IsOk result }
    ensures err { OnErr result (content.new ≡ content.old) }
    ensures only_memory { IsOkUnless result Refusal.Memory }
{
    match *call {
        Call::Put { key, value, .. } => Ok(Some(put(content, hash, key, value)?)),
        Call::PutIfAbsent { key, value, .. } => Ok(Some(put_if_absent(content, hash, key, value)?)),
        Call::Replace { key, value, .. } => Ok(Some(replace(content, key, value)?)),
        Call::ReplaceIf { key, old, new, .. } => Ok(Some(replace_if(content, key, old, new)?)),
        Call::Remove { key, .. } => Ok(Some(Reply::Found(content.remove(key)))),
        Call::RemoveIf { key, value, .. } => Ok(Some(remove_if(content, key, value))),
        Call::Clear { .. } => {
            content.clear();
            Ok(Some(Reply::Cleared))
        }
        _ => Ok(None),
    }
}

/// Sets the key's value, unless the key is crowded.
fn put(content: &mut Content, hash: HashKind, key: u64, value: u64) -> Result<Reply, Refusal>
    ensures answer { IfOk result
        (λ reply. (reply, content.new) ≡ put_in (hash_of hash) content.old key value) }
    ensures err { OnErr result (content.new ≡ content.old) }
    ensures only_memory { IsOkUnless result Refusal.Memory }
{
    if content.is_crowded(hash, key)? {
        return Ok(Reply::Crowded);
    }
    Ok(Reply::Found(content.insert(key, value)?))
}

/// Sets the value of a key that has none.
fn put_if_absent(
    content: &mut Content,
    hash: HashKind,
    key: u64,
    value: u64,
) -> Result<Reply, Refusal>
    ensures answer { IfOk result
        (λ reply. (reply, content.new) ≡ put_if_absent_in (hash_of hash) content.old key value) }
    ensures err { OnErr result (content.new ≡ content.old) }
    ensures only_memory { IsOkUnless result Refusal.Memory }
{
    let before = content.get(key);
    if before.is_some() {
        return Ok(Reply::Found(before));
    }
    put(content, hash, key, value)
}

/// Sets the value of a key that has one.
fn replace(content: &mut Content, key: u64, value: u64) -> Result<Reply, Refusal>
    ensures answer { IfOk result
        (λ reply. (reply, content.new) ≡ replace_in content.old key value) }
    ensures err { OnErr result (content.new ≡ content.old) }
    ensures only_memory { IsOkUnless result Refusal.Memory }
{
    let before = content.get(key);
    if before.is_some() {
        content.insert(key, value)?;
    }
    Ok(Reply::Found(before))
}

/// Sets the value of a key that has the old one.
fn replace_if(content: &mut Content, key: u64, old: u64, new: u64) -> Result<Reply, Refusal>
    ensures answer { IfOk result
        (λ reply. (reply, content.new) ≡ replace_if_in content.old key old new) }
    ensures err { OnErr result (content.new ≡ content.old) }
    ensures only_memory { IsOkUnless result Refusal.Memory }
{
    if content.get(key) != Some(old) {
        return Ok(Reply::Truth(false));
    }
    content.insert(key, new)?;
    Ok(Reply::Truth(true))
}

/// Removes a key that has this value.
fn remove_if(content: &mut Content, key: u64, value: u64) -> Reply
    ensures { (result, content.new) ≡ remove_if_in content.old key value }
{
    if content.get(key) != Some(value) {
        return Reply::Truth(false);
    }
    let _ = content.remove(key);
    Reply::Truth(true)
}
