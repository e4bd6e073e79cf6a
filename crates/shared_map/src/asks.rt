//! What is asked of a map in shards, what is told, and which shard a request is about.

ghost use Rattle.std.specs.Prelude.{◌≡◌, ◌<◌, Ok, Err, IfSome, IfOk, IfErr};
ghost use Rattle.shared_map.specs.declared.asks.Answer.TheVariants as answer;
ghost use Rattle.shared_map.specs.Asks.{about, answer_to_restore, key_in, place_of, replied_in, shard_of, told_as};

use ctrie_base::HashKind;
use ctrie_map::MapError;
use history::{Call, Pairs, Reply};

/// What a seat asks.
#[derive(Clone, Copy, Debug, PartialEq, Eq)]
pub enum Ask {
    /// A call on the map of a handle.
    Do(Call),
    /// The next entries of a handle's map after this key, `room` of them at most, in ascending order of keys; from the first
    /// one on where it is none. All shards are held for one walk over the map, in memory for `room` pairs of each. Parts of a
    /// frozen copy are a listing of one moment (`parts_list_one_moment`). `NoHandle` where the handle isn't open; else only
    /// memory is refused.
    From {
        handle: u16,
        after: Option<u64>,
        room: usize,
    },
    /// The next entries after this key, `room` of them at most, of those that lie in one shard, in the order of `Map::scan`;
    /// from the first one on where it is none. Shards are counted from 0, and a number beyond the last one counts round again.
    /// It holds this shard alone, for a way down and what it hands out, in memory for that. The parts of all shards of a
    /// frozen copy are a listing of one moment (`scans_list_one_moment`). `NoHandle` where the handle isn't open; else only
    /// memory is refused.
    Scan {
        handle: u16,
        shard: usize,
        after: Option<u64>,
        room: usize,
    },
    /// Any key of a handle's map with its value; none exactly where no key has a value. It takes no memory. `NoHandle` where
    /// the handle isn't open.
    First {
        handle: u16,
    },
    /// Whether a handle's map may be changed by it. `NoHandle` where the handle isn't open.
    IsWritable {
        handle: u16,
    },
    /// The handle, which is writable, is to have the copy's map from now on, in all shards or in none: each is asked before
    /// one is changed. `NoHandle` where one of the two isn't open; `ReadOnly`, `HandlesFull` and `WornOut` as of
    /// `Map::restore` in any shard. A restore from another handle that nothing else refuses is `Full` just where some of
    /// several shards has fewer free slots than a copy may take, and as of `Map::restore` where there is one. All maps stay
    /// where it is refused.
    Restore {
        handle: u16,
        copy: u16,
    },
    /// How many handles are open.
    Handles,
    /// How many slots are free, in all shards together.
    Free,
    /// Whether each shard has free slots enough for any call.
    HasRoom,
}

/// What is asked of a map with this hash. A map of another hash refuses it as `Memory`.
#[derive(Clone, Copy, Debug, PartialEq, Eq)]
pub struct Request {
    pub ask: Ask,
    pub hash: HashKind,
}

/// What is answered.
#[derive(Debug, Drop)]
pub enum Answer {
    /// The reply to a call; of `Ask::Handles` and `Ask::Free` it is `Reply::Count`, of `Ask::HasRoom` `Reply::Truth`.
    Reply(Reply),
    /// What `Ask::From` or `Ask::Scan` asked for.
    Part(Pairs),
    /// What `Ask::First` asked for.
    First(Option<(u64, u64)>),
    /// What `Ask::IsWritable` asked for.
    Writable(bool),
    /// `Ask::Restore` is done.
    Restored,
}

/// What is told.
pub type Told = Result<Answer, MapError>;

/// What a call is answered.
pub(crate) type Replied = Result<Reply, MapError>;

/// A reply as it is told.
#[inline(always)]
pub(crate) fn told_reply(replied: Replied) -> Told
    ensures { result ≡ told_as answer.Reply replied }
{
    match replied {
        Ok(reply) => Ok(Answer::Reply(reply)),
        Err(error) => Err(error),
    }
}

/// The reply of `Ask::Do`, `Ask::Handles`, `Ask::Free` or `Ask::HasRoom`, for `telling`. Another answer has none: `Memory`.
pub(crate) fn reply_told(told: Told) -> Result<Reply, MapError>
    ensures { result ≡ replied_in told }
{
    match told? {
        Answer::Reply(reply) => Ok(reply),
        _ => Err(MapError::Memory),
    }
}

/// A part of the entries, as it is told.
pub(crate) fn told_part(part: Result<Vec<(u64, u64)>, MapError>) -> Told
    ensures part { IfOk part (λ pairs. result ≡ Ok (answer.Part pairs.items)) }
    ensures refused { IfErr part (λ error. result ≡ Err error) }
{
    match part {
        Ok(pairs) => Ok(Answer::Part(Pairs::from_vec(pairs))),
        Err(error) => Err(error),
    }
}

/// A restore, as it is told.
pub(crate) fn told_restored(restored: Result<(), MapError>) -> Told
    ensures { result ≡ told_as answer_to_restore restored }
{
    match restored {
        Ok(()) => Ok(Answer::Restored),
        Err(error) => Err(error),
    }
}

/// Whether a map may be changed, as it is told.
pub(crate) fn told_writable(writable: Result<bool, MapError>) -> Told
    ensures { result ≡ told_as answer.Writable writable }
{
    match writable {
        Ok(writable) => Ok(Answer::Writable(writable)),
        Err(error) => Err(error),
    }
}

/// 2^64 over the golden ratio, to the next odd number.
const SPREAD: u64 = 11_400_714_819_323_198_485;

/// The shard of a hash, of this many.
#[tactic(auto, using(crate::proofs::OnePlace::shard_within))]
fn shard_of(hash: u64, shards: usize) -> usize
    requires { 0 < shards }
    ensures value { result ≡ shard_of shards hash }
    ensures within { result < shards }
{
    let product = hash.wrapping_mul(SPREAD);
    ((u128::from(product) * shards as u128) >> 64) as usize
}

/// The shard of a key, of this many. Where there is one, nothing is worked out.
#[tactic(auto, using(crate::proofs::OnePlace::place_if_one))]
fn place_of(hash: HashKind, key: u64, shards: usize) -> usize
    requires { 0 < shards }
    ensures value { result ≡ place_of hash shards key }
    ensures within { result < shards }
{
    if shards == 1 {
        0
    } else {
        shard_of(hash.hash(key), shards)
    }
}

/// The one key that a call is about.
fn key_in(call: Call) -> Option<u64>
    ensures { result ≡ key_in call }
{
    match call {
        Call::Get { key, .. }
        | Call::Put { key, .. }
        | Call::PutIfAbsent { key, .. }
        | Call::Replace { key, .. }
        | Call::ReplaceIf { key, .. }
        | Call::Remove { key, .. }
        | Call::RemoveIf { key, .. } => Some(key),
        _ => None,
    }
}

/// The shard that a request is about; none where it is about all.
pub(crate) fn about(request: &Request, shards: usize) -> Option<usize>
    requires { 0 < shards }
    ensures about { result ≡ about shards request.now }
    ensures within { IfSome result (λ shard. shard < shards) }
{
    match request.ask {
        Ask::Do(call) => match key_in(call) {
            Some(key) => Some(place_of(request.hash, key, shards)),
            None => None,
        },
        Ask::Scan { shard, .. } => Some(shard % shards),
        _ => None,
    }
}
