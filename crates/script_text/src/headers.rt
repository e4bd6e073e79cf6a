//! The numbers of the header: slots and actors.

ghost use Rattle.std.specs.Prelude.{◌≡◌, ◌≤◌, IfOk};
ghost use Rattle.text_lines.specs.Words.{nows};
ghost use Rattle.script_text.specs.Headers.{header_number, slots_of, actors_of};

use ctrie_base::Refusal;
use text_lines::number_from;

/// The number of slots that the words `slots N` say, 2 to 65,536. Any fault is BadHeader.
pub fn slots_of(words: &[&[u8]]) -> Result<u32, Refusal>
    ensures { result ≡ slots_of (nows words.now) }
{
    let slots = header_number(words, b"slots", 2, 65_536)?;
    Ok(slots as u32)
}

/// The number of actors that the words `actors N` say, 1 to 64. Any fault is BadHeader.
pub fn actors_of(words: &[&[u8]]) -> Result<u8, Refusal>
    ensures { result ≡ actors_of (nows words.now) }
{
    let actors = header_number(words, b"actors", 1, 64)?;
    Ok(actors as u8)
}

/// The number from `least` to `limit` that the words `NAME N` say. Any fault is BadHeader.
#[tactic(auto, unfolding(crate::specs::Headers::header_number))]
fn header_number(words: &[&[u8]], name: &[u8], least: u64, limit: u64) -> Result<u64, Refusal>
    ensures value { result ≡ header_number name.now least limit (nows words.now) }
    ensures bound { IfOk result (λ n. n ≤ limit) }
{
    let [word, number] = words else {
        return Err(Refusal::BadHeader);
    };
    if *word != name {
        return Err(Refusal::BadHeader);
    }
    match number_from(number, least, limit) {
        Ok(number) => Ok(number),
        Err(_) => Err(Refusal::BadHeader),
    }
}
