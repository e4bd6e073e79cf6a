//! The map that one handle names, and how crowded its hashes are.

ghost use Rattle.std.specs.Prelude.{◌≡◌, ◌<◌, ◌-◌, Some, IfOk, OnErr, IsOkUnless};
ghost use Rattle.std.specs.Ordering.{nat_cmp};
ghost use Rattle.std.specs.BTreeMap.{ContainsKey, Updates};
ghost use Rattle.std.specs.FinMap as map;
ghost use Rattle.ctrie_base.specs.Hashes.{hash_of};
ghost use Rattle.history.specs.Crowds.{IsCounted, WritesCount, kept_count};
ghost use Rattle.history.specs.Effects.{is_crowded};

use crate::replies::Pairs;
use ctrie_base::{HashKind, Refusal};
use std::alloc::Global;
use std::collections::BTreeMap;
use std::marker::Model;

/// How many keys that have one hash are too many for a new one.
const CROWD: u64 = 32;

/// The pairs of a map. Beside them stands for each hash how many keys have it, so that a new key
/// needs no pass over the others.
pub struct Content {
    pairs: BTreeMap<u64, u64>,
    crowds: BTreeMap<u64, u64>,
    kind: HashKind,
    alloc: Global,
}

impl Drop for Content {
    fn drop(self) {
        let Content {
            pairs: _,
            crowds: _,
            kind: _,
            alloc: _,
        } = self;
    }
}

impl Model for Content {
    ghost use Rattle.std.specs.FinMap as map;
    ghost use Rattle.ctrie_base.specs.Hashes.{hash_of};
    ghost use Rattle.history.specs.Worlds.{KeyMap};
    ghost use Rattle.history.specs.WorldCodes.{map_code};
    ghost use Rattle.history.specs.Crowds.{IsCounted};

    ghost Value = { KeyMap };

    ghost coded = { map_code };

    ghost view = { λ c. map.from_entries c.pairs.entries };

    ghost invariant = { λ c. IsCounted (hash_of c.kind) c.pairs.entries c.crowds.entries };
}

impl Content {
    /// The empty map. It takes no memory.
    pub fn new(alloc: Global) -> Content
        ensures { result ≡ map.empty }
    {
        Content {
            pairs: BTreeMap::new(alloc),
            crowds: BTreeMap::new(alloc),
            kind: HashKind::Low,
            alloc,
        }
    }

    /// The key's value.
    pub fn get(&self, key: u64) -> Option<u64>
        ensures { result ≡ map.get self.now key }
    {
        self.pairs.get(&key).copied()
    }

    /// How many pairs there are.
    pub fn len(&self) -> u64
        ensures { result ≡ map.len self.now }
    {
        self.pairs.len() as u64
    }

    /// All pairs, by rising key.
    pub fn entries(&self) -> Result<Pairs, Refusal>
        ensures pairs { IfOk result (λ pairs. pairs ≡ map.entries self.now) }
        ensures only_memory { IsOkUnless result Refusal.Memory }
    {
        let mut pairs = Vec::new(self.alloc);
        for (key, value) in &self.pairs {
            pairs.push((*key, *value))?;
        }
        Ok(Pairs::from_vec(pairs))
    }

    /// A copy that shares nothing with this map.
    pub fn copy(&self) -> Result<Content, Refusal>
        ensures same { IfOk result (λ copy. copy ≡ self.now) }
        ensures only_memory { IsOkUnless result Refusal.Memory }
    {
        Ok(Content {
            pairs: self.pairs.clone()?,
            crowds: self.crowds.clone()?,
            kind: self.kind,
            alloc: self.alloc,
        })
    }

    /// Sets the key's value, and answers the one before.
    pub fn insert(&mut self, key: u64, value: u64) -> Result<Option<u64>, Refusal>
        ensures before { IfOk result (λ before. before ≡ map.get self.old key) }
        ensures ok { IfOk result (λ _. self.new ≡ map.insert self.old key value) }
        ensures err { OnErr result (self.new ≡ self.old) }
        ensures only_memory { IsOkUnless result Refusal.Memory }
    {
        if self.pairs.contains_key(&key) {
            return Ok(self.pairs.insert(key, value)?);
        }
        // Fewer than 2^63 keys, so that no count overflows.
        prove!(self.pairs.len() < usize::MAX);
        let hash = self.kind.hash(key);
        let crowd = count_at(&self.crowds, hash);
        self.crowds.insert(hash, crowd)?;
        self.pairs.insert(key, value)?;
        set_count(&mut self.crowds, hash, crowd + 1);
        Ok(None)
    }

    /// Removes the key, and answers its value before.
    pub fn remove(&mut self, key: u64) -> Option<u64>
        ensures before { result ≡ map.get self.old key }
        ensures removed { self.new ≡ map.remove self.old key }
    {
        let before = self.pairs.remove(&key)?;
        let hash = self.kind.hash(key);
        uncount(&mut self.crowds, hash);
        Some(before)
    }

    /// Removes all keys.
    pub fn clear(&mut self)
        ensures { self.new ≡ map.empty }
    {
        self.pairs.clear();
        self.crowds.clear();
    }

    /// Whether the key is absent, and 32 other keys have its hash.
    pub fn is_crowded(&mut self, kind: HashKind, key: u64) -> Result<bool, Refusal>
        ensures crowded { IfOk result
            (λ crowded. crowded ≡ is_crowded (hash_of kind) self.old key) }
        ensures same { self.new ≡ self.old }
        ensures only_memory { IsOkUnless result Refusal.Memory }
    {
        if self.pairs.contains_key(&key) {
            return Ok(false);
        }
        if self.kind != kind {
            self.crowds = crowds_of(self.alloc, kind, &self.pairs)?;
            self.kind = kind;
        }
        Ok(count_at(&self.crowds, kind.hash(key)) == CROWD)
    }
}

/// The count that is kept for a hash, 0 where there is none.
fn count_at(counts: &BTreeMap<u64, u64>, hash: u64) -> u64
    ensures { result ≡ kept_count counts.now.entries hash }
{
    counts.get(&hash).copied().unwrap_or(0)
}

/// Writes the count of a hash that has one. It takes no memory.
fn set_count(counts: &mut BTreeMap<u64, u64>, hash: u64, count: u64)
    requires { ContainsKey nat_cmp counts.old hash }
    ensures { Updates nat_cmp counts.old counts.new hash (Some count) }
{
    if let Some(kept) = counts.get_mut(&hash) {
        *kept = count;
    }
}

/// Counts one key less at a hash that has some. Where none is left, no count is kept.
fn uncount(counts: &mut BTreeMap<u64, u64>, hash: u64)
    requires { 0 < kept_count counts.old.entries hash }
    ensures { WritesCount counts.old.entries counts.new.entries hash (kept_count counts.old.entries hash - 1) }
{
    let left = count_at(counts, hash) - 1;
    if left == 0 {
        let _ = counts.remove(&hash);
    } else {
        set_count(counts, hash, left);
    }
}

/// For each hash how many keys have it.
fn crowds_of(
    alloc: Global,
    kind: HashKind,
    pairs: &BTreeMap<u64, u64>,
) -> Result<BTreeMap<u64, u64>, Refusal>
    ensures counts { IfOk result
        (λ counts. IsCounted (hash_of kind) pairs.now.entries counts.entries) }
    ensures only_memory { IsOkUnless result Refusal.Memory }
{
    let mut crowds = BTreeMap::new(alloc);
    for key in pairs.keys() {
        let hash = kind.hash(*key);
        let crowd = count_at(&crowds, hash);
        crowds.insert(hash, crowd + 1)?;
    }
    Ok(crowds)
}
