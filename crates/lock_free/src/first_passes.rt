//! READs of which one pass is mostly enough, and of which no more is told than what is asked for.

ghost use Rattle.std.specs.Prelude.{◌≡◌};
ghost use Rattle.trie_words.specs.Codes.{header_of};
ghost use Rattle.lock_free.specs.declared.reading.ReadFrom.TheVariants as resume;
ghost use Rattle.lock_free.specs.LinkReads.{CanGoOn, CanGoOnAfter, HasLinkAfter, HasLinkOn, HasOutOn, HasReadOut, HasReadTo};
ghost use Rattle.lock_free.specs.Loading.{IsSound};
ghost use Rattle.lock_free.specs.Passing.{IsFailed, IsOnWay, IsPassing, IsPending};

use crate::loads::{Actor, Words, read_header, read_header_word, read_link};
use crate::reading::{Passed, ReadFrom, Way, put_back, read_on, settle, settle_in_place};
use trie_words::{Header, Link, Name, Previous};

/// What this pass of a READ, or further ones, come to: the link of the decided main node, or none within so many tries.
#[cold]
#[inline(never)]
fn link_after(
    tries: u64,
    words: &Words,
    actor: &mut Actor,
    way: Way,
    indirection: u32,
    passed: Passed,
) -> Option<Link>
    requires table { actor.old.table_id ≡ words.now.table_id }
    requires sound { IsSound words.now.table_id.words actor.old.me.0 }
    requires next { CanGoOn actor.old.me.0 way indirection passed }
    ensures table { actor.new.table_id ≡ actor.old.table_id }
    ensures sound { IsSound words.now.table_id.words actor.new.me.0 }
    ensures link { HasLinkAfter actor.old.me.0 passed result actor.new.me.0 }
{
    match passed {
        Passed::Gives(given) => Some(given.link),
        Passed::Again(from) => {
            match read_on(tries, words, actor, way, indirection, from) {
                Passed::Gives(given) => Some(given.link),
                Passed::Again(_) => None,
            }
        }
    }
}

/// What a READ comes to that has met a main node that failed: the one of this name is put back in its place, and further passes are made.
#[cold]
#[inline(never)]
fn link_put_back(
    tries: u64,
    words: &Words,
    actor: &mut Actor,
    way: Way,
    indirection: u32,
    generation: u64,
    main: Name,
    former: Name,
) -> Option<Link>
    requires table { actor.old.table_id ≡ words.now.table_id }
    requires sound { IsSound words.now.table_id.words actor.old.me.0 }
    requires failed { IsFailed actor.old.me.0 indirection (record { generation = generation; main = main }) former }
    requires next { CanGoOnAfter words.now.table_id.words actor.old.me.0 way indirection }
    ensures table { actor.new.table_id ≡ actor.old.table_id }
    ensures sound { IsSound words.now.table_id.words actor.new.me.0 }
    ensures link { HasLinkOn words.now.table_id.words actor.old.me.0 result actor.new.me.0 }
{
    let link = Link { generation, main };
    let passed = put_back(words, actor, indirection, link, former);
    link_after(tries, words, actor, way, indirection, passed)
}

/// What a READ comes to that has met a main node that is pending, whose first word is this: it is settled, and further passes are made.
#[cold]
#[inline(never)]
fn link_settled(
    tries: u64,
    words: &Words,
    actor: &mut Actor,
    way: Way,
    indirection: u32,
    generation: u64,
    main: Name,
    word: u64,
) -> Option<Link>
    requires table { actor.old.table_id ≡ words.now.table_id }
    requires sound { IsSound words.now.table_id.words actor.old.me.0 }
    requires way { IsOnWay actor.old.me.0 way }
    requires pending { IsPending actor.old.me.0 way (record { generation = generation; main = main }) (header_of word) }
    requires next { CanGoOnAfter words.now.table_id.words actor.old.me.0 way indirection }
    ensures table { actor.new.table_id ≡ actor.old.table_id }
    ensures sound { IsSound words.now.table_id.words actor.new.me.0 }
    ensures link { HasLinkOn words.now.table_id.words actor.old.me.0 result actor.new.me.0 }
{
    let link = Link { generation, main };
    let passed = settle(tries, words, actor, way, link, Header::of_word(word));
    link_after(tries, words, actor, way, indirection, passed)
}

/// A READ from its first line on, where one look at the main node is mostly enough: the link of the decided main node, or none where it gives
/// nothing within so many tries.
#[inline(always)]
pub fn read_link_within(
    tries: u64,
    words: &Words,
    actor: &mut Actor,
    way: Way,
    indirection: u32,
) -> Option<Link>
    requires table { actor.old.table_id ≡ words.now.table_id }
    requires sound { IsSound words.now.table_id.words actor.old.me.0 }
    requires way { IsOnWay actor.old.me.0 way }
    requires passing { IsPassing actor.old.me.0 indirection resume.Start }
    ensures table { actor.new.table_id ≡ actor.old.table_id }
    ensures sound { IsSound words.now.table_id.words actor.new.me.0 }
    ensures link { HasReadTo actor.old.me.0 result actor.new.me.0 }
{
    let link = read_link(words, actor, indirection);
    let word = read_header_word(words, actor, link.main.slot);
    match Header::of_word(word).previous {
        Previous::None => Some(link),
        Previous::Failed(former) => {
            let (generation, main) = (link.generation, link.main);
            link_put_back(
                tries,
                words,
                actor,
                way,
                indirection,
                generation,
                main,
                former,
            )
        }
        Previous::Pending(_) => {
            let (generation, main) = (link.generation, link.main);
            link_settled(
                tries,
                words,
                actor,
                way,
                indirection,
                generation,
                main,
                word,
            )
        }
    }
}

/// As `read_on`, of which it isn't told what it gives: none, or from where it goes on.
#[cold]
#[inline(never)]
fn end_on(
    tries: u64,
    words: &Words,
    actor: &mut Actor,
    way: Way,
    indirection: u32,
    from: ReadFrom,
) -> Option<ReadFrom>
    requires table { actor.old.table_id ≡ words.now.table_id }
    requires sound { IsSound words.now.table_id.words actor.old.me.0 }
    requires way { IsOnWay actor.old.me.0 way }
    requires passing { IsPassing actor.old.me.0 indirection from }
    ensures table { actor.new.table_id ≡ actor.old.table_id }
    ensures sound { IsSound words.now.table_id.words actor.new.me.0 }
    ensures ended { HasReadOut actor.old.me.0 result actor.new.me.0 }
{
    match read_on(tries, words, actor, way, indirection, from) {
        Passed::Gives(_) => None,
        Passed::Again(next) => Some(next),
    }
}

/// The same of a READ that has met a main node that failed: the one of this name is put back in its place, and further passes are made.
#[cold]
#[inline(never)]
fn end_put_back(
    tries: u64,
    words: &Words,
    actor: &mut Actor,
    way: Way,
    indirection: u32,
    generation: u64,
    main: Name,
    former: Name,
) -> Option<ReadFrom>
    requires table { actor.old.table_id ≡ words.now.table_id }
    requires sound { IsSound words.now.table_id.words actor.old.me.0 }
    requires failed { IsFailed actor.old.me.0 indirection (record { generation = generation; main = main }) former }
    requires next { CanGoOnAfter words.now.table_id.words actor.old.me.0 way indirection }
    ensures table { actor.new.table_id ≡ actor.old.table_id }
    ensures sound { IsSound words.now.table_id.words actor.new.me.0 }
    ensures ended { HasOutOn words.now.table_id.words actor.old.me.0 result actor.new.me.0 }
{
    let link = Link { generation, main };
    match put_back(words, actor, indirection, link, former) {
        Passed::Gives(_) => None,
        Passed::Again(next) => end_on(tries, words, actor, way, indirection, next),
    }
}

/// The same. What a function of its own has returned through memory is copied here alone, and not on the way that is mostly taken.
#[inline(always)]
fn told_apart(told: Option<ReadFrom>) -> Option<ReadFrom>
    ensures { result ≡ told }
{
    match told {
        None => None,
        Some(from) => Some(from),
    }
}

/// The same from the header of the main node to which this link of the indirection leads, where one look at it is mostly enough.
#[inline(always)]
fn end_at_header(
    tries: u64,
    words: &Words,
    actor: &mut Actor,
    way: Way,
    indirection: u32,
    link: Link,
) -> Option<ReadFrom>
    requires table { actor.old.table_id ≡ words.now.table_id }
    requires sound { IsSound words.now.table_id.words actor.old.me.0 }
    requires way { IsOnWay actor.old.me.0 way }
    requires passing { IsPassing actor.old.me.0 indirection (resume.Header link) }
    ensures table { actor.new.table_id ≡ actor.old.table_id }
    ensures sound { IsSound words.now.table_id.words actor.new.me.0 }
    ensures ended { HasReadOut actor.old.me.0 result actor.new.me.0 }
{
    let header = read_header(words, actor, link.main.slot);
    match header.previous {
        Previous::None => None,
        Previous::Failed(former) => {
            let (generation, main) = (link.generation, link.main);
            told_apart(end_put_back(
                tries,
                words,
                actor,
                way,
                indirection,
                generation,
                main,
                former,
            ))
        }
        Previous::Pending(_) => {
            match settle_in_place(tries, words, actor, way, link, header) {
                Passed::Gives(_) => None,
                Passed::Again(next) => told_apart(end_on(
                    tries,
                    words,
                    actor,
                    way,
                    indirection,
                    next,
                )),
            }
        }
    }
}

/// The same, where it mostly goes on from a header.
#[inline(always)]
pub fn end_read_within(
    tries: u64,
    words: &Words,
    actor: &mut Actor,
    way: Way,
    indirection: u32,
    from: ReadFrom,
) -> Option<ReadFrom>
    requires table { actor.old.table_id ≡ words.now.table_id }
    requires sound { IsSound words.now.table_id.words actor.old.me.0 }
    requires way { IsOnWay actor.old.me.0 way }
    requires passing { IsPassing actor.old.me.0 indirection from }
    ensures table { actor.new.table_id ≡ actor.old.table_id }
    ensures sound { IsSound words.now.table_id.words actor.new.me.0 }
    ensures ended { HasReadOut actor.old.me.0 result actor.new.me.0 }
{
    match from {
        ReadFrom::Header(link) => { end_at_header(tries, words, actor, way, indirection, link) }
        other => told_apart(end_on(tries, words, actor, way, indirection, other)),
    }
}
