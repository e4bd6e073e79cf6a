//! Words that must be numbers.

ghost use Rattle.std.specs.Prelude.{◌≡◌};
ghost use Rattle.history_text.specs.Words.{value_word, handle_word, actor_word};

use ctrie_base::Refusal;
use text_lines::number_word;

/// A word that must be any number. An empty one is BadLine, another that is none BadNumber, here and
/// below.
pub fn value_word(word: &[u8]) -> Result<u64, Refusal>
    ensures { result ≡ value_word word.now }
{
    number_word(word, u64::MAX)
}

/// A word that must be a handle.
pub fn handle_word(word: &[u8]) -> Result<u16, Refusal>
    ensures { result ≡ handle_word word.now }
{
    let number = number_word(word, 65535)?;
    Ok(number as u16)
}

/// A word that must be an actor.
pub fn actor_word(word: &[u8]) -> Result<u8, Refusal>
    ensures { result ≡ actor_word word.now }
{
    let number = number_word(word, 255)?;
    Ok(number as u8)
}
