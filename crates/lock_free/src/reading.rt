//! READ: gives the decided main node of an indirection, in passes of single accesses.

ghost use Rattle.std.specs.Prelude.{◌≡◌};
ghost use Rattle.lock_free.specs.Loading.{IsSound};
ghost use Rattle.lock_free.specs.declared.reading.Passed.TheVariants as passed;
ghost use Rattle.lock_free.specs.declared.reading.ReadFrom.TheVariants as resume;
ghost use Rattle.lock_free.specs.Passing.{HasAskedOrNot, HasLicenseOrNot, HasPassed, IsAsking, IsDeciding, IsFailed, IsOnWay, IsPassing, IsPending};

use crate::exchanges::{decide, restore};
use crate::licensing::ask_within;
use crate::loads::{Actor, Words, read_header, read_link, see_main};
use history::Access;
use trie_words::{Header, Link, Name, Previous};

/// The handle of an operation that reads.
#[derive(Clone, Copy, Drop)]
pub struct Way {
    /// Its number.
    pub handle: u16,
    /// What it allows.
    pub access: Access,
}

/// What a READ gives: the indirection's word, and the header of the decided main node that stands there.
#[derive(Clone, Copy, Drop)]
pub struct Given {
    /// The indirection.
    pub link: Link,
    /// Its main node.
    pub header: Header,
}

/// From where a READ goes on.
#[derive(Clone, Copy, Drop)]
pub enum ReadFrom {
    /// From its first line.
    Start,
    /// From the header of the main node to which this link leads.
    Header(Link),
    /// From asking for the generation of its handle's root: the main node of this link is pending, with this header.
    Asking(Link, Header),
}

/// What a pass of a READ comes to.
#[derive(Clone, Copy, Drop)]
pub enum Passed {
    /// It has given this.
    Gives(Given),
    /// It goes on from there.
    Again(ReadFrom),
}

/// Whether a main node that is pending in this indirection may be committed; none where that is still to be asked.
#[inline(always)]
fn is_licensed(tries: u64, words: &Words, actor: &mut Actor, way: Way, link: Link) -> Option<bool>
    requires table { actor.old.table_id ≡ words.now.table_id }
    requires sound { IsSound words.now.table_id.words actor.old.me.0 }
    requires way { IsOnWay actor.old.me.0 way }
    requires pending { (h : Header) × IsPending actor.old.me.0 way link h }
    ensures table { actor.new.table_id ≡ actor.old.table_id }
    ensures sound { IsSound words.now.table_id.words actor.new.me.0 }
    ensures licensed { HasLicenseOrNot actor.old.me.0 way link result actor.new.me.0 }
{
    match way.access {
        Access::Writable => match ask_within(tries, words, actor, way.handle) {
            Some(generation) => Some(generation == link.generation),
            None => None,
        },
        Access::ReadOnly => Some(false),
    }
}

/// Decides the main node that is pending in this indirection, by whether it is licensed.
#[inline(always)]
fn settle_by(words: &Words, actor: &mut Actor, link: Link, header: Header, licensed: bool) -> Passed
    requires table { actor.old.table_id ≡ words.now.table_id }
    requires sound { IsSound words.now.table_id.words actor.old.me.0 }
    requires deciding { IsDeciding actor.old.me.0 link header licensed }
    ensures table { actor.new.table_id ≡ actor.old.table_id }
    ensures sound { IsSound words.now.table_id.words actor.new.me.0 }
    ensures passed { HasPassed actor.old.me.0 result actor.new.me.0 }
{
    let stood = decide(words, actor, link.main.slot, header, licensed);
    match (licensed, stood) {
        (true, true) => Passed::Gives(Given {
            link,
            header: Header {
                previous: Previous::None,
                shape: header.shape,
            },
        }),
        (true, false) => Passed::Again(ReadFrom::Header(link)),
        (false, _) => Passed::Again(ReadFrom::Start),
    }
}

/// Decides the main node that is pending in this indirection, once the root is asked.
#[inline(always)]
pub(crate) fn settle_in_place(
    tries: u64,
    words: &Words,
    actor: &mut Actor,
    way: Way,
    link: Link,
    header: Header,
) -> Passed
    requires table { actor.old.table_id ≡ words.now.table_id }
    requires sound { IsSound words.now.table_id.words actor.old.me.0 }
    requires way { IsOnWay actor.old.me.0 way }
    requires pending { IsPending actor.old.me.0 way link header }
    ensures table { actor.new.table_id ≡ actor.old.table_id }
    ensures sound { IsSound words.now.table_id.words actor.new.me.0 }
    ensures passed { HasPassed actor.old.me.0 result actor.new.me.0 }
{
    match is_licensed(tries, words, actor, way, link) {
        Some(licensed) => settle_by(words, actor, link, header, licensed),
        None => Passed::Again(ReadFrom::Asking(link, header)),
    }
}

/// The same, as a function of its own: seldom is a main node met that is pending.
#[cold]
#[inline(never)]
pub(crate) fn settle(
    tries: u64,
    words: &Words,
    actor: &mut Actor,
    way: Way,
    link: Link,
    header: Header,
) -> Passed
    requires table { actor.old.table_id ≡ words.now.table_id }
    requires sound { IsSound words.now.table_id.words actor.old.me.0 }
    requires way { IsOnWay actor.old.me.0 way }
    requires pending { IsPending actor.old.me.0 way link header }
    ensures table { actor.new.table_id ≡ actor.old.table_id }
    ensures sound { IsSound words.now.table_id.words actor.new.me.0 }
    ensures passed { HasPassed actor.old.me.0 result actor.new.me.0 }
{
    settle_in_place(tries, words, actor, way, link, header)
}

/// Puts the main node of this name back in the place of the one that failed.
#[cold]
#[inline(never)]
pub(crate) fn put_back(
    words: &Words,
    actor: &mut Actor,
    indirection: u32,
    link: Link,
    former: Name,
) -> Passed
    requires table { actor.old.table_id ≡ words.now.table_id }
    requires sound { IsSound words.now.table_id.words actor.old.me.0 }
    requires failed { IsFailed actor.old.me.0 indirection link former }
    ensures table { actor.new.table_id ≡ actor.old.table_id }
    ensures sound { IsSound words.now.table_id.words actor.new.me.0 }
    ensures passed { HasPassed actor.old.me.0 result actor.new.me.0 }
{
    let header = see_main(words, actor, former.slot);
    if restore(words, actor, indirection, link, former) {
        Passed::Gives(Given {
            link: Link {
                generation: link.generation,
                main: former,
            },
            header,
        })
    } else {
        Passed::Again(ReadFrom::Start)
    }
}

/// The rest of a pass, from the header of the main node to which this link of the indirection leads.
#[inline(always)]
fn pass_header(
    tries: u64,
    words: &Words,
    actor: &mut Actor,
    way: Way,
    indirection: u32,
    link: Link,
) -> Passed
    requires table { actor.old.table_id ≡ words.now.table_id }
    requires sound { IsSound words.now.table_id.words actor.old.me.0 }
    requires way { IsOnWay actor.old.me.0 way }
    requires passing { IsPassing actor.old.me.0 indirection (resume.Header link) }
    ensures table { actor.new.table_id ≡ actor.old.table_id }
    ensures sound { IsSound words.now.table_id.words actor.new.me.0 }
    ensures passed { HasPassed actor.old.me.0 result actor.new.me.0 }
{
    let header = read_header(words, actor, link.main.slot);
    match header.previous {
        Previous::None => Passed::Gives(Given { link, header }),
        Previous::Failed(former) => put_back(words, actor, indirection, link, former),
        Previous::Pending(_) => settle_in_place(tries, words, actor, way, link, header),
    }
}

/// A pass of the READ of the indirection in this slot.
#[inline(always)]
fn pass(
    tries: u64,
    words: &Words,
    actor: &mut Actor,
    way: Way,
    indirection: u32,
    from: ReadFrom,
) -> Passed
    requires table { actor.old.table_id ≡ words.now.table_id }
    requires sound { IsSound words.now.table_id.words actor.old.me.0 }
    requires way { IsOnWay actor.old.me.0 way }
    requires passing { IsPassing actor.old.me.0 indirection from }
    ensures table { actor.new.table_id ≡ actor.old.table_id }
    ensures sound { IsSound words.now.table_id.words actor.new.me.0 }
    ensures passed { HasPassed actor.old.me.0 result actor.new.me.0 }
{
    match from {
        ReadFrom::Start => {
            let link = read_link(words, actor, indirection);
            pass_header(tries, words, actor, way, indirection, link)
        }
        ReadFrom::Header(link) => pass_header(tries, words, actor, way, indirection, link),
        ReadFrom::Asking(link, header) => settle(tries, words, actor, way, link, header),
    }
}

/// The READ of the indirection in this slot, from there on, within so many tries. Where it gives nothing it goes on from what is returned.
#[cold]
#[inline(never)]
pub fn read_on(
    tries: u64,
    words: &Words,
    actor: &mut Actor,
    way: Way,
    indirection: u32,
    from: ReadFrom,
) -> Passed
    requires table { actor.old.table_id ≡ words.now.table_id }
    requires sound { IsSound words.now.table_id.words actor.old.me.0 }
    requires way { IsOnWay actor.old.me.0 way }
    requires passing { IsPassing actor.old.me.0 indirection from }
    ensures table { actor.new.table_id ≡ actor.old.table_id }
    ensures sound { IsSound words.now.table_id.words actor.new.me.0 }
    ensures passed { HasPassed actor.old.me.0 result actor.new.me.0 }
{
    let mut next = from;
    for _ in 0..tries {
        match pass(tries, words, actor, way, indirection, next) {
            Passed::Gives(given) => return Passed::Gives(given),
            Passed::Again(from) => next = from,
        }
    }
    Passed::Again(next)
}
