//! What a seat that glances looks at on its way to a key. A word that it reads once the glance has fallen may be any: so it looks at none
//! beyond the table.

ghost use Rattle.std.specs.Prelude.{◌≡◌, ◌<◌, ◌+◌, ◌*◌, Some, nat_lt, IfSome};
ghost use Rattle.machine_model.specs.declared.actions.Action.TheVariants as act;
ghost use Rattle.lock_free.specs.Entries.{HasSeenEntry};
ghost use Rattle.lock_free.specs.GlanceGets.{GlancesOn, IsAtRead, IsGetGlance, LooksAt, WhileItCounts};
ghost use Rattle.lock_free.specs.GoingDown.{HasMet, HasMetLink, HasTurned, IsAtBelow, IsAtLink, IsAtMain, IsAtSingle, IsOnKey, IsWithin};
ghost use Rattle.lock_free.specs.LinkReads.{HasReadOn, HasReadTo};
ghost use Rattle.lock_free.specs.Loading.{HasLookedAtKey, HasLookedAtLink, HasLookedAtMain, HasLookedAtValue, HasReadHeader, HasReadLink, HasSeenKey};

use crate::finding::{Met, Turn};
use crate::glancing::{go, see};
use crate::loads::{Actor, Words};
use nodes::{has_flag, position_of};
use trie_words::{Entry, Header, Link, Pair, Previous, Shape};

/// Whether a slot's first two words are among so many.
#[inline(always)]
pub fn is_inside(slot: u32, words: usize) -> bool
    ensures { result ≡ nat_lt (2 * slot + 1) words }
{
    2 * slot as usize + 1 < words
}

/// Reads the word of the indirection in this slot.
#[inline(always)]
fn read_link(words: &Words, actor: &mut Actor, indirection: u32) -> Link
    requires table { actor.old.table_id ≡ words.now.table_id }
    requires glances { IsGetGlance words.now.table_id.words actor.old.me.0 }
    requires inside { 2 * indirection + 1 < words.now.table_id.words }
    requires reading { WhileItCounts (λ v. LooksAt v act.ReadMain indirection) actor.old.me.0 }
    ensures table { actor.new.table_id ≡ actor.old.table_id }
    ensures read { GlancesOn words.now.table_id.words (λ v w. HasReadLink v result w) actor.old.me.0 actor.new.me.0 }
{
    Link::of_word(go(words, actor, 2 * indirection as usize))
}

/// Reads the header of the main node in this slot.
#[inline(always)]
fn read_header(words: &Words, actor: &mut Actor, main: u32) -> Header
    requires table { actor.old.table_id ≡ words.now.table_id }
    requires glances { IsGetGlance words.now.table_id.words actor.old.me.0 }
    requires inside { 2 * main + 1 < words.now.table_id.words }
    requires reading { WhileItCounts (λ v. LooksAt v act.ReadPrev main) actor.old.me.0 }
    ensures table { actor.new.table_id ≡ actor.old.table_id }
    ensures read { GlancesOn words.now.table_id.words (λ v w. HasReadHeader v result w) actor.old.me.0 actor.new.me.0 }
{
    Header::of_word(go(words, actor, 2 * main as usize))
}

/// Looks at the main node in this slot.
#[inline(always)]
fn look_at_main(words: &Words, actor: &mut Actor, main: u32) -> Header
    requires table { actor.old.table_id ≡ words.now.table_id }
    requires glances { IsGetGlance words.now.table_id.words actor.old.me.0 }
    requires inside { 2 * main + 1 < words.now.table_id.words }
    requires looking { WhileItCounts (λ v. LooksAt v act.Look main) actor.old.me.0 }
    ensures table { actor.new.table_id ≡ actor.old.table_id }
    ensures read { GlancesOn words.now.table_id.words (λ v w. HasLookedAtMain v result w) actor.old.me.0 actor.new.me.0 }
{
    Header::of_word(go(words, actor, 2 * main as usize))
}

/// Looks at the indirection in this slot.
#[inline(always)]
fn look_at_link(words: &Words, actor: &mut Actor, indirection: u32) -> Link
    requires table { actor.old.table_id ≡ words.now.table_id }
    requires glances { IsGetGlance words.now.table_id.words actor.old.me.0 }
    requires inside { 2 * indirection + 1 < words.now.table_id.words }
    requires looking { WhileItCounts (λ v. LooksAt v act.Look indirection) actor.old.me.0 }
    ensures table { actor.new.table_id ≡ actor.old.table_id }
    ensures read { GlancesOn words.now.table_id.words (λ v w. HasLookedAtLink v result w) actor.old.me.0 actor.new.me.0 }
{
    Link::of_word(go(words, actor, 2 * indirection as usize))
}

/// Looks at the single in this slot, for its key.
#[inline(always)]
fn look_at_key(words: &Words, actor: &mut Actor, single: u32) -> u64
    requires table { actor.old.table_id ≡ words.now.table_id }
    requires glances { IsGetGlance words.now.table_id.words actor.old.me.0 }
    requires inside { 2 * single + 1 < words.now.table_id.words }
    requires looking { WhileItCounts (λ v. LooksAt v act.Look single) actor.old.me.0 }
    ensures table { actor.new.table_id ≡ actor.old.table_id }
    ensures read { GlancesOn words.now.table_id.words (λ v w. HasLookedAtKey v result w) actor.old.me.0 actor.new.me.0 }
{
    go(words, actor, 2 * single as usize)
}

/// Looks at the single in this slot, for its value.
#[inline(always)]
fn look_at_value(words: &Words, actor: &mut Actor, single: u32) -> u64
    requires table { actor.old.table_id ≡ words.now.table_id }
    requires glances { IsGetGlance words.now.table_id.words actor.old.me.0 }
    requires inside { 2 * single + 1 < words.now.table_id.words }
    requires looking { WhileItCounts (λ v. LooksAt v act.Look single) actor.old.me.0 }
    ensures table { actor.new.table_id ≡ actor.old.table_id }
    ensures read { GlancesOn words.now.table_id.words (λ v w. HasLookedAtValue v result w) actor.old.me.0 actor.new.me.0 }
{
    go(words, actor, 2 * single as usize + 1)
}

/// The key of a single that the seat's operation holds.
#[inline(always)]
fn see_key(words: &Words, actor: &mut Actor, single: u32) -> u64
    requires table { actor.old.table_id ≡ words.now.table_id }
    requires glances { IsGetGlance words.now.table_id.words actor.old.me.0 }
    requires inside { 2 * single + 1 < words.now.table_id.words }
    ensures table { actor.new.table_id ≡ actor.old.table_id }
    ensures seen { GlancesOn words.now.table_id.words (λ v w. HasSeenKey v single result w) actor.old.me.0 actor.new.me.0 }
{
    see(words, actor, 2 * single as usize)
}

/// The entry at this position of the branch in this slot, which the seat's operation holds; none where it isn't among so many words.
#[inline(always)]
pub fn see_entry(
    words: &Words,
    actor: &mut Actor,
    among: usize,
    main: u32,
    position: u32,
) -> Option<Entry>
    requires table { actor.old.table_id ≡ words.now.table_id }
    requires glances { IsGetGlance words.now.table_id.words actor.old.me.0 }
    requires among { among ≡ words.now.table_id.words }
    requires few { position < 32 }
    ensures table { actor.new.table_id ≡ actor.old.table_id }
    ensures seen { GlancesOn words.now.table_id.words (λ v w. IfSome result (λ entry. HasSeenEntry v main position entry w)) actor.old.me.0 actor.new.me.0 }
{
    let word = 2 * main as usize + 1 + position as usize / 2;
    if word >= among {
        return None;
    }
    let pair = Pair::of_word(see(words, actor, word));
    if position % 2 == 0 {
        Some(Entry::of_half(pair.low))
    } else {
        Some(Entry::of_half(pair.high))
    }
}

/// READ of the indirection in this slot: the link of its main node, where that is decided and among so many words.
#[inline(always)]
fn read_decided(words: &Words, actor: &mut Actor, among: usize, indirection: u32) -> Option<Link>
    requires table { actor.old.table_id ≡ words.now.table_id }
    requires glances { IsGetGlance words.now.table_id.words actor.old.me.0 }
    requires among { among ≡ words.now.table_id.words }
    requires inside { 2 * indirection + 1 < among }
    requires at { WhileItCounts (IsAtRead indirection) actor.old.me.0 }
    ensures table { actor.new.table_id ≡ actor.old.table_id }
    ensures inside { IfSome result (λ link. 2 * link.main.slot + 1 < among) }
    ensures read { GlancesOn words.now.table_id.words (λ v w. IfSome result (λ link. HasReadTo v (Some link) w)) actor.old.me.0 actor.new.me.0 }
{
    let link = read_link(words, actor, indirection);
    if !is_inside(link.main.slot, among) {
        return None;
    }
    match read_header(words, actor, link.main.slot).previous {
        Previous::None => Some(link),
        Previous::Failed(_) | Previous::Pending(_) => None,
    }
}

/// Looks at the main node in this slot, for where the way goes on from it by the key's flag.
#[inline(always)]
fn turn_there(words: &Words, actor: &mut Actor, main: u32, flag: u32) -> Option<Turn>
    requires table { actor.old.table_id ≡ words.now.table_id }
    requires glances { IsGetGlance words.now.table_id.words actor.old.me.0 }
    requires inside { 2 * main + 1 < words.now.table_id.words }
    requires some { 0 < flag }
    requires at { WhileItCounts (λ v. IsAtMain v main flag) actor.old.me.0 }
    ensures table { actor.new.table_id ≡ actor.old.table_id }
    ensures within { IfSome result IsWithin }
    ensures turned { GlancesOn words.now.table_id.words (λ v w. IfSome result (λ turn. HasTurned v turn w)) actor.old.me.0 actor.new.me.0 }
{
    let Shape::Branch(bitmap) = look_at_main(words, actor, main).shape else {
        return None;
    };
    if !has_flag(bitmap, flag) {
        return Some(Turn::Absent);
    }
    let position = position_of(flag, bitmap);
    if position >= 32 {
        return None;
    }
    Some(Turn::Entry(position))
}

/// Reads the main node of the indirection in this slot, and looks where the way goes on by the key's flag, if it does at a branch.
#[inline(always)]
pub fn read_turn(
    words: &Words,
    actor: &mut Actor,
    among: usize,
    indirection: u32,
    flag: u32,
) -> Option<(Link, Turn)>
    requires table { actor.old.table_id ≡ words.now.table_id }
    requires glances { IsGetGlance words.now.table_id.words actor.old.me.0 }
    requires among { among ≡ words.now.table_id.words }
    requires some { 0 < flag }
    requires at { WhileItCounts (λ v. IsAtLink v indirection flag) actor.old.me.0 }
    ensures table { actor.new.table_id ≡ actor.old.table_id }
    ensures within { IfSome result (λ read. IsWithin read.1) }
    ensures turned { GlancesOn words.now.table_id.words (λ v w. IfSome result (λ read. HasReadOn v read w)) actor.old.me.0 actor.new.me.0 }
{
    if !is_inside(indirection, among) {
        return None;
    }
    let Some(link) = read_decided(words, actor, among, indirection) else {
        return None;
    };
    let Some(turn) = turn_there(words, actor, link.main.slot, flag) else {
        return None;
    };
    Some((link, turn))
}

/// Looks at the single in this slot, to which the way to this key has come, if it is among so many words.
#[inline(always)]
pub fn meet_single(
    words: &Words,
    actor: &mut Actor,
    among: usize,
    key: u64,
    single: u32,
) -> Option<Met>
    requires table { actor.old.table_id ≡ words.now.table_id }
    requires glances { IsGetGlance words.now.table_id.words actor.old.me.0 }
    requires among { among ≡ words.now.table_id.words }
    requires at { WhileItCounts (λ v. IsOnKey v key × IsAtSingle v single) actor.old.me.0 }
    ensures table { actor.new.table_id ≡ actor.old.table_id }
    ensures met { GlancesOn words.now.table_id.words (λ v w. IfSome result (λ met. HasMet v met w)) actor.old.me.0 actor.new.me.0 }
{
    if !is_inside(single, among) {
        return None;
    }
    if see_key(words, actor, single) == key {
        Some(Met::Found(look_at_value(words, actor, single)))
    } else {
        look_at_key(words, actor, single);
        Some(Met::Other)
    }
}

/// Looks at the indirection in this slot, to which the way has come, if it is among so many words.
#[inline(always)]
pub fn meet_link(words: &Words, actor: &mut Actor, among: usize, indirection: u32) -> Option<Link>
    requires table { actor.old.table_id ≡ words.now.table_id }
    requires glances { IsGetGlance words.now.table_id.words actor.old.me.0 }
    requires among { among ≡ words.now.table_id.words }
    requires at { WhileItCounts (λ v. IsAtBelow v indirection) actor.old.me.0 }
    ensures table { actor.new.table_id ≡ actor.old.table_id }
    ensures met { GlancesOn words.now.table_id.words (λ v w. IfSome result (λ link. HasMetLink v link w)) actor.old.me.0 actor.new.me.0 }
{
    if !is_inside(indirection, among) {
        return None;
    }
    Some(look_at_link(words, actor, indirection))
}
