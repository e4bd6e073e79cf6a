//! The differences of the maps of two handles.

ghost use Rattle.std.specs.Prelude.{◌≡◌, ◌++◌, IsSome, IfOk, OnOk};
ghost use Rattle.std.specs.List.Sorted.{IsStrictlySortedBy};
ghost use Rattle.std.specs.Ordering.{nat_cmp};
ghost use Rattle.machine_model.specs.Contents.{content_at};
ghost use Rattle.machine_model.specs.States.{root_at};
ghost use Rattle.machine_core.specs.Comparing.{AreDifferences, difference_of};
ghost use Rattle.machine_core.specs.Finding.{found_along};
ghost use Rattle.machine_core.specs.Keeping.{IsCore};
ghost use Rattle.proof_core.specs.Reading.{Covers};
ghost use Rattle.machine_core.specs.Seen.{seen};

use crate::comparing::keys_apart;
use crate::finding::value_along;
use crate::parts::Parts;
use running::root_of;
use std::alloc::AllocError;

/// A key of which two maps have different values.
#[derive(Clone, Copy, Debug, PartialEq, Eq)]
pub struct Difference {
    /// The key.
    pub key: u64,
    /// The value in the older map, if the key has one there.
    pub before: Option<u64>,
    /// The value in the newer map, if the key has one there.
    pub after: Option<u64>,
}

/// The differences of the maps of two open handles, in ascending order of keys.
#[tactic(auto, using(crate::proofs::Differences::adding))]
pub fn differences(parts: &Parts, older: u16, newer: u16) -> Result<Vec<Difference>, AllocError>
    requires core { IsCore parts.now }
    requires older { IsSome (root_at (seen parts.now) older) }
    requires newer { IsSome (root_at (seen parts.now) newer) }
    ensures { IfOk result (λ differences. AreDifferences (found_along (seen parts.now) older) (found_along (seen parts.now) newer) differences.items) }
{
    let keys = rising_keys(parts, older, newer)?;
    let known = keys.as_slice();
    let mut differences = Vec::new(parts.alloc);
    for key in known {
        add_difference(&mut differences, parts, older, newer, *key)?;
    }
    Ok(differences)
}

/// The keys of which the maps of two handles may have different values, each once, in ascending order.
fn rising_keys(parts: &Parts, older: u16, newer: u16) -> Result<Vec<u64>, AllocError>
    ensures rising { IfOk result (λ keys. IsStrictlySortedBy nat_cmp keys.items) }
    ensures all { IfOk result (λ keys. Covers keys.items (content_at (seen parts.now) older) (content_at (seen parts.now) newer)) }
{
    let mut keys = keys_apart(parts, older, newer)?;
    keys.sort()?;
    keys.dedup();
    Ok(keys)
}

/// Adds the difference in one key, if there is one.
fn add_difference(
    differences: &mut Vec<Difference>,
    parts: &Parts,
    older: u16,
    newer: u16,
    key: u64,
) -> Result<(), AllocError>
    ensures { OnOk result (differences.new.items ≡ differences.old.items ++ difference_of key (found_along (seen parts.now) older key) (found_along (seen parts.now) newer key)) }
{
    let before = value_along(parts, root_of(parts.word(older)), key);
    let after = value_along(parts, root_of(parts.word(newer)), key);
    if before != after {
        differences.push(Difference { key, before, after })?;
    }
    Ok(())
}
