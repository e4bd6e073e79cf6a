//! A bitmap of numbers, in words.

ghost use Rattle.std.specs.Prelude.{◌≡◌, ◌<◌, ◌/◌, ℕ, length, not, slice_set, true, false};
ghost use Rattle.handle_table.specs.Numbers.{is_set, taken_by};

/// Whether the number's bit is set.
pub fn is_set(words: &[u64], number: u16) -> bool
    ensures { result ≡ is_set words.now number }
{
    match words.get(number as usize / 64) {
        Some(word) => (*word >> (number % 64)) & 1 == 1,
        None => false,
    }
}

/// Sets the number's bit where it isn't set, and else takes it away.
#[tactic(auto, using(crate::proofs::Bits::flipped))]
pub fn flip(words: &mut Vec<u64>, number: u16)
    requires many { length words.old.items ≡ 4 }
    requires within { number < 256 }
    ensures taken { taken_by words.new.items ≡ slice_set (taken_by words.old.items) number (not (is_set words.old.items number)) }
    ensures many { length words.new.items ≡ 4 }
{
    words[number as usize / 64] ^= 1 << (number % 64);
}

/// The least number whose bit isn't set, or that after the last word.
pub fn first_unset(words: &[u64]) -> u16
    requires { length words.now ≡ 4 }
    ensures below { (number : ℕ) → number < result → is_set words.now number ≡ true }
    ensures unset { is_set words.now result ≡ false }
{
    let mut first = 0;
    for word in words {
        if *word != u64::MAX {
            return first + word.trailing_ones() as u16;
        }
        first += 64;
    }
    first
}
