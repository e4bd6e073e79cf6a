//! How many slots to ask for.

ghost use Rattle.std.specs.Prelude.{◌≡◌, ◌+◌, ◌-◌, ◌*◌, ◌^◌, min};

/// How many slots to ask for, for this many keys: three for each, and 40. It is a guide, and no promise: by what was counted of
/// maps of random keys they have room then for one open copy while a third of the keys are overwritten. Keys whose hashes have
/// many low bits in common take more. More than 333,320 keys come to more slots than a map can have.
pub fn slots_for(keys: u32) -> u32
    ensures { result ≡ min (3 * keys + 40) (2 ^ 32 - 1) }
{
    keys.saturating_mul(3).saturating_add(40)
}
