//! How many slots a map for so many keys has.

ghost use Rattle.std.specs.Prelude.{◌≡◌, ◌<◌, ◌≤◌, ◌^◌};
ghost use Rattle.concurrent_map.specs.Room.{at_level, at_levels, sizes_for, small_at_random, small_for, with_held};

use ctrie_base::HashKind;
use lock_free::Sizes;

/// What a trie takes of slots of one class.
#[derive(Clone, Copy)]
enum Taking {
    /// Small ones, by keys that follow one another.
    SmallInOrder,
    /// Small ones, by random keys.
    SmallAtRandom,
    /// Medium ones, by keys that follow one another.
    MediumInOrder,
    /// Wide ones, by such keys.
    WideInOrder,
}

/// What so many random keys take of small slots at a level that has so many places, besides their own.
#[tactic(auto, using(crate::proofs::Squares::square_fits, crate::proofs::Squares::part_fits))]
fn small_at_random(keys: u64, places: u64) -> u64
    requires keys { keys < 2 ^ 32 }
    requires some { 1 ≤ places }
    requires few { places ≤ 2 ^ 30 }
    ensures is { result ≡ small_at_random keys places }
    ensures low { result < 2 ^ 34 }
{
    let square = keys * keys;
    let most = 17 * places / 16;
    most.min(square / (places + 7 * keys / 8 + square / (4 * places)))
}

/// What so many keys take at a level that has so many places.
fn at_level(taking: Taking, keys: u64, places: u64) -> u64
    requires keys { keys < 2 ^ 32 }
    requires some { 1 ≤ places }
    requires few { places ≤ 2 ^ 30 }
    ensures is { result ≡ at_level taking keys places }
    ensures low { result < 2 ^ 34 }
{
    match taking {
        Taking::SmallInOrder => {
            let more = 2 * keys.saturating_sub(places);
            more.min((4 * places).saturating_sub(keys).max(places))
        }
        Taking::SmallAtRandom => small_at_random(keys, places),
        Taking::MediumInOrder => keys.saturating_sub(2 * places).min(places),
        Taking::WideInOrder => keys.saturating_sub(12 * places).min(places),
    }
}

/// The same at all levels.
fn at_levels(taking: Taking, keys: u64) -> u64
    requires keys { keys < 2 ^ 32 }
    ensures is { result ≡ at_levels taking keys }
    ensures low { result < 2 ^ 37 }
{
    at_level(taking, keys, 1)
        + at_level(taking, keys, 32)
        + at_level(taking, keys, 1 << 10)
        + at_level(taking, keys, 1 << 15)
        + at_level(taking, keys, 1 << 20)
        + at_level(taking, keys, 1 << 25)
        + at_level(taking, keys, 1 << 30)
}

/// So many slots, and for each seat and once more so many, as far as they can be counted.
fn with_held(slots: u64, held: u64, seats: u8) -> u32
    requires slots { slots < 2 ^ 40 }
    requires held { held < 2 ^ 8 }
    ensures { result ≡ with_held slots held seats }
{
    (slots + held * (u64::from(seats) + 1)).min(u64::from(u32::MAX)) as u32
}

/// The small slots of a map for so many keys.
fn small_for(keys: u64) -> u64
    requires keys { keys < 2 ^ 32 }
    ensures is { result ≡ small_for keys }
    ensures low { result < 2 ^ 40 }
{
    let in_order = keys + at_levels(Taking::SmallInOrder, keys);
    let at_random = 65 * (keys + at_levels(Taking::SmallAtRandom, keys)) / 64;
    in_order.max(at_random)
}

/// The sizes of a map for this many keys, which has this many seats. Its slots are those that a trie of keys takes at most whose hashes are
/// random, or follow one another, and for each seat as many as it may hold back: 52 to 68 bytes a key, 11 kB a seat, and 15 kB, and less where
/// there are fewer than 80 keys. A map is full at half as many keys, or more, whose hashes lie evenly, as those of multiples of 16.
pub fn sizes_for(keys: u32, hash: HashKind, seats: u8) -> Sizes
    ensures { result ≡ sizes_for keys hash seats }
{
    let keys = u64::from(keys);
    let medium = (23 * keys / 128).max(at_levels(Taking::MediumInOrder, keys));
    let wide = (keys / 25).max(at_levels(Taking::WideInOrder, keys));
    Sizes {
        seats,
        hash,
        small: with_held(small_for(keys), (keys + 16).min(80), seats),
        medium: with_held(medium, (keys / 2 + 8).min(40), seats),
        wide: with_held(wide, keys.saturating_sub(12).min(34), seats),
    }
}
