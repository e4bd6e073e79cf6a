//! The hashes of keys.

ghost use Rattle.std.specs.Prelude.{◌≡◌, ℕ, ◌%◌, ◌/◌, ◌<◌, ◌^◌, Some};
ghost use Rattle.ctrie_base.specs.Hashes.{low_hash, fold_hash, wide_hash, block_hash, hash_of, bits_of, name_of, HashesFit};
ghost use Rattle.std.proofs.Common.{arith};
ghost use Rattle.std.proofs.lemmas.Nat.{xor_of_32};

use std::fmt;

/// A hash of keys with this many bits.
pub trait KeyHash<const BITS: u32> {
    /// The hash as a function of the key.
    ghost hash_of: { ℕ → ℕ };

    /// The hash of a key, below 2^BITS.
    fn hash(key: u64) -> u64
        ensures { result ≡ hash_of key };

    /// No hash has more bits.
    ghost fits: { (key : ℕ) → key < 2 ^ 64 → hash_of key < 2 ^ BITS };
}

/// The key modulo 2^32.
#[derive(Clone, Copy, Debug)]
pub struct Low;

impl KeyHash<32> for Low {
    ghost hash_of = { low_hash };

    ghost fits = { λ key fits. Prim.omega arith };

    fn hash(key: u64) -> u64 {
        key % (1 << 32)
    }
}

/// The low half of the key xor its high half.
#[derive(Clone, Copy, Debug)]
pub struct Fold;

impl KeyHash<32> for Fold {
    ghost hash_of = { fold_hash };

    ghost fits = { λ key fits. xor_of_32 (key % 2 ^ 32) (key / 2 ^ 32) (Prim.omega arith) (Prim.omega arith) };

    fn hash(key: u64) -> u64 {
        (key % (1 << 32)) ^ (key >> 32)
    }
}

/// The key itself.
#[derive(Clone, Copy, Debug)]
pub struct Wide;

impl KeyHash<64> for Wide {
    ghost hash_of = { wide_hash };

    ghost fits = { λ key fits. fits };

    fn hash(key: u64) -> u64 {
        key
    }
}

/// The key divided by 64: one hash for each block of 64 keys.
#[derive(Clone, Copy, Debug)]
pub struct Block;

impl KeyHash<64> for Block {
    ghost hash_of = { block_hash };

    ghost fits = { λ key fits. Prim.omega arith };

    fn hash(key: u64) -> u64 {
        key / 64
    }
}

/// Which hash a map uses.
#[derive(Clone, Copy, Debug, PartialEq, Eq)]
pub enum HashKind {
    /// The key modulo 2^32, of 32 bits.
    Low,
    /// The low half xor the high half, of 32 bits.
    Fold,
    /// The key itself, of 64 bits.
    Wide,
    /// The key divided by 64, of 64 bits.
    Block,
}

impl HashKind {
    /// The hash of a key, below 2 to the number of `bits`.
    pub fn hash(self, key: u64) -> u64
        ensures { result ≡ hash_of self key }
    {
        match self {
            HashKind::Low => Low::hash(key),
            HashKind::Fold => Fold::hash(key),
            HashKind::Wide => Wide::hash(key),
            HashKind::Block => Block::hash(key),
        }
    }

    /// How many bits its hashes have: 32 or 64.
    pub fn bits(self) -> u32
        ensures { result ≡ bits_of self }
    {
        match self {
            HashKind::Low | HashKind::Fold => 32,
            HashKind::Wide | HashKind::Block => 64,
        }
    }

    /// Its name in scripts and reports, as `low`.
    pub fn name(self) -> &'static str
        ensures { result.now ≡ name_of self }
    {
        match self {
            HashKind::Low => "low",
            HashKind::Fold => "fold",
            HashKind::Wide => "wide",
            HashKind::Block => "block",
        }
    }
}

impl fmt::Display for HashKind {
    ghost output = { λ k. Some (name_of k) };

    fn fmt<W: fmt::Write>(&self, f: &mut fmt::Formatter<W>) -> fmt::Result {
        f.write_str(self.name())
    }
}

/// A law: no hash of a key has more bits than its kind says.
pub fn hash_fits()
    ensures { HashesFit }
{}
