//! BUILD: the nodes that a change of one key makes, up to the main node that is to be swapped in.

ghost use Rattle.std.specs.Prelude.{◌≡◌, ◌<◌, true, IfSome};
ghost use Rattle.lock_free.specs.BuildingUp.{by_rising, drops_at, HasBuiltSingle, HasEdit, HasLinked, HasPaired, IsAtLink, IsAtPair, IsAtSingle, IsAtSite, MakesPair, MakesRung};
ghost use Rattle.lock_free.specs.declared.reclaiming.Kind.TheVariants as kinds;
ghost use Rattle.lock_free.specs.Changing.{drops_of, HasBuilt};
ghost use Rattle.lock_free.specs.Classes.{entries_in};
ghost use Rattle.lock_free.specs.Loading.{IsSound};
ghost use Rattle.lock_free.specs.Owing.{HoldsRaised};
ghost use Rattle.lock_free.specs.Raising.{MayHoldOne};
ghost use Rattle.lock_free.specs.SeenEntries.{HasMadeNext};
ghost use Rattle.lock_free.specs.Stocks.{IsStock};

use crate::changing::{Edit, build_main};
use crate::leaving::Drops;
use crate::loads::{Actor, Words, see_entry, see_key};
use crate::makes::{make_branch, make_link, make_list, make_single};
use crate::raising::{raise, release};
use crate::reading::Given;
use crate::reclaiming::Kind;
use crate::stock::Stock;
use machine_model::Site;
use nodes::{HashKind, flag_of, index_in, list_depth, parting};
use trie_words::{Entry, Name, Previous};

/// What BUILD goes by, at the end of an operation's way.
#[derive(Clone, Copy, Drop)]
pub struct Builder {
    /// The key.
    pub key: u64,
    /// Its new value.
    pub value: u64,
    /// How keys are hashed.
    pub hashes: HashKind,
    /// The hash of the key.
    pub hash: u64,
    /// The generation of the operation's root, below 2^36.
    pub start: u64,
    /// The depth of the last indirection on the way: the root's is 0.
    pub depth: usize,
}

/// What of the entries before isn't among the new ones, where a new single comes to this place.
pub fn drops_at(site: Site) -> Drops
    ensures { result ≡ drops_at site }
{
    match site {
        Site::Absent => Drops::Nothing,
        Site::At { position } => Drops::At(position),
        Site::Beside { position } => Drops::At(position),
    }
}

/// Makes a single of the key and its new value, and what leads to it, up to the main node that is to take the place of this one, with so many
/// entries.
/// Returns its slot, or none where no slot is had: then the operation is in BUILD still.
#[inline(always)]
pub fn build(
    tries: u64,
    words: &Words,
    actor: &mut Actor,
    stock: &mut Stock,
    by: Builder,
    given: Given,
    count: usize,
    site: Site,
    former: Option<u64>,
) -> Option<u32>
    requires table { actor.old.table_id ≡ words.now.table_id }
    requires sound { IsSound words.now.table_id.words actor.old.me.0 }
    requires stock { IsStock stock.old actor.old.me.0 }
    requires counted { count ≡ entries_in given.header.shape }
    requires at { IsAtSingle actor.old.me.0 by given site former }
    ensures table { actor.new.table_id ≡ actor.old.table_id }
    ensures sound { IsSound words.now.table_id.words actor.new.me.0 }
    ensures stock { IsStock stock.new actor.new.me.0 }
    ensures built { HasBuiltSingle actor.old.me.0 site former result actor.new.me.0 }
{
    let slot = make_single(tries, words, actor, stock, by.key, by.value)?;
    let single = Entry {
        slot,
        own: true,
        is_single: true,
    };
    let change = edit_for(tries, words, actor, stock, by, given, site, former, single)?;
    let flag = flag_of(by.hash, by.depth);
    let main = given.link.main;
    build_main(
        tries,
        words,
        actor,
        stock,
        main,
        given.header.shape,
        count,
        flag,
        change,
    )
}

/// The change of the main node for this new single, with what leads to it where it stands beside another one.
#[inline(always)]
fn edit_for(
    tries: u64,
    words: &Words,
    actor: &mut Actor,
    stock: &mut Stock,
    by: Builder,
    given: Given,
    site: Site,
    former: Option<u64>,
    single: Entry,
) -> Option<Edit>
    requires table { actor.old.table_id ≡ words.now.table_id }
    requires sound { IsSound words.now.table_id.words actor.old.me.0 }
    requires stock { IsStock stock.old actor.old.me.0 }
    requires at { IsAtSite actor.old.me.0 by given site former single }
    ensures table { actor.new.table_id ≡ actor.old.table_id }
    ensures sound { IsSound words.now.table_id.words actor.new.me.0 }
    ensures stock { IsStock stock.new actor.new.me.0 }
    ensures edit { HasEdit actor.old.me.0 site former result actor.new.me.0 }
    ensures drops { IfSome result (λ change. drops_of change ≡ drops_at site) }
{
    match site {
        Site::Absent => Some(Edit::Insert(single)),
        Site::At { position } => Some(Edit::Update(position, single)),
        Site::Beside { position } => {
            let slot = build_beside(tries, words, actor, stock, by, given, position, single)?;
            let link = Entry {
                slot,
                own: false,
                is_single: false,
            };
            Some(Edit::Update(position, link))
        }
    }
}

/// The two entries by the rising index of what they lead to.
fn by_index(first_index: u32, other_index: u32, first: Entry, other: Entry) -> [Entry; 2]
    ensures { result ≡ by_rising first_index other_index first other }
{
    if first_index < other_index {
        [first, other]
    } else {
        [other, first]
    }
}

/// Makes the main node of both singles, at the depth where the paths of these hashes part.
fn make_pair(
    tries: u64,
    words: &Words,
    actor: &mut Actor,
    stock: &mut Stock,
    by: Builder,
    depth: usize,
    old_hash: u64,
    old: Entry,
    single: Entry,
) -> Option<u32>
    requires table { actor.old.table_id ≡ words.now.table_id }
    requires sound { IsSound words.now.table_id.words actor.old.me.0 }
    requires stock { IsStock stock.old actor.old.me.0 }
    requires making { MakesPair actor.old.me.0 by depth old_hash old single }
    requires raised { HoldsRaised actor.old.me.0 }
    ensures table { actor.new.table_id ≡ actor.old.table_id }
    ensures sound { IsSound words.now.table_id.words actor.new.me.0 }
    ensures stock { IsStock stock.new actor.new.me.0 }
    ensures made { HasMadeNext actor.old.me.0 result actor.new.me.0 }
{
    if depth == list_depth(by.hashes) {
        return make_list(tries, words, actor, stock, &[old, single], Previous::None);
    }
    let old_index = index_in(old_hash, depth);
    let entries = by_index(old_index, index_in(by.hash, depth), old, single);
    let bitmap = flag_of(old_hash, depth) | flag_of(by.hash, depth);
    make_branch(tries, words, actor, stock, bitmap, &entries, Previous::None)
}

/// The same, where the seat counts a reference to the old single before, which stands in a main node above.
fn make_shared_pair(
    tries: u64,
    words: &Words,
    actor: &mut Actor,
    stock: &mut Stock,
    by: Builder,
    depth: usize,
    old_hash: u64,
    old: Entry,
    single: Entry,
) -> Option<u32>
    requires table { actor.old.table_id ≡ words.now.table_id }
    requires sound { IsSound words.now.table_id.words actor.old.me.0 }
    requires stock { IsStock stock.old actor.old.me.0 }
    requires making { MakesPair actor.old.me.0 by depth old_hash old single }
    requires holds { MayHoldOne actor.old.me.0 kinds.Single 0 old.slot }
    ensures table { actor.new.table_id ≡ actor.old.table_id }
    ensures sound { IsSound words.now.table_id.words actor.new.me.0 }
    ensures stock { IsStock stock.new actor.new.me.0 }
    ensures built { HasBuilt actor.old.me.0 result actor.new.me.0 }
{
    if !raise(tries, words, actor, &stock.sizes(), 0, old.slot) {
        return None;
    }
    match make_pair(tries, words, actor, stock, by, depth, old_hash, old, single) {
        Some(slot) => Some(slot),
        None => {
            release(words, actor, stock, Kind::Single, 0, old.slot);
            None
        }
    }
}

/// Makes a branch whose one entry is the indirection in this slot.
fn make_rung(
    tries: u64,
    words: &Words,
    actor: &mut Actor,
    stock: &mut Stock,
    flag: u32,
    link: u32,
) -> Option<u32>
    requires table { actor.old.table_id ≡ words.now.table_id }
    requires sound { IsSound words.now.table_id.words actor.old.me.0 }
    requires stock { IsStock stock.old actor.old.me.0 }
    requires making { MakesRung actor.old.me.0 flag link }
    requires raised { HoldsRaised actor.old.me.0 }
    ensures table { actor.new.table_id ≡ actor.old.table_id }
    ensures sound { IsSound words.now.table_id.words actor.new.me.0 }
    ensures stock { IsStock stock.new actor.new.me.0 }
    ensures made { HasMadeNext actor.old.me.0 result actor.new.me.0 }
{
    let entry = Entry {
        slot: link,
        own: false,
        is_single: false,
    };
    make_branch(tries, words, actor, stock, flag, &[entry], Previous::None)
}

/// Makes the indirections and branches that lead to the main node in this slot, which was made for this depth: the topmost
/// indirection goes into the main node at the end of the way.
fn lead(
    tries: u64,
    words: &Words,
    actor: &mut Actor,
    stock: &mut Stock,
    by: Builder,
    depth: usize,
    main: u32,
) -> Option<u32>
    requires table { actor.old.table_id ≡ words.now.table_id }
    requires sound { IsSound words.now.table_id.words actor.old.me.0 }
    requires stock { IsStock stock.old actor.old.me.0 }
    requires at { IsAtLink actor.old.me.0 by depth main }
    ensures table { actor.new.table_id ≡ actor.old.table_id }
    ensures sound { IsSound words.now.table_id.words actor.new.me.0 }
    ensures stock { IsStock stock.new actor.new.me.0 }
    ensures led { HasLinked actor.old.me.0 depth result actor.new.me.0 }
{
    let mut link = make_link(tries, words, actor, stock, by.start, owned(main))?;
    for n in by.depth + 1..depth {
        let flag = flag_of(by.hash, depth - (n - by.depth));
        let rung = make_rung(tries, words, actor, stock, flag, link)?;
        link = make_link(tries, words, actor, stock, by.start, owned(rung))?;
    }
    Some(link)
}

/// The name of a main node that is its indirection's own.
fn owned(slot: u32) -> Name
    ensures slot { result.slot ≡ slot }
    ensures own { result.own ≡ true }
{
    Name { slot, own: true }
}

/// Makes what leads to the new single and to the one at this position of the main node, beside which it is to stand.
fn build_beside(
    tries: u64,
    words: &Words,
    actor: &mut Actor,
    stock: &mut Stock,
    by: Builder,
    given: Given,
    position: usize,
    single: Entry,
) -> Option<u32>
    requires table { actor.old.table_id ≡ words.now.table_id }
    requires sound { IsSound words.now.table_id.words actor.old.me.0 }
    requires stock { IsStock stock.old actor.old.me.0 }
    requires at { IsAtPair actor.old.me.0 by given position single }
    ensures table { actor.new.table_id ≡ actor.old.table_id }
    ensures sound { IsSound words.now.table_id.words actor.new.me.0 }
    ensures stock { IsStock stock.new actor.new.me.0 }
    ensures paired { HasPaired actor.old.me.0 position result actor.new.me.0 }
{
    let old = see_entry(words, actor, given.link.main.slot, position as u32);
    let old_hash = by.hashes.hash(see_key(words, actor, old.slot));
    let most = list_depth(by.hashes);
    let depth = parting(old_hash, by.hash, by.depth + 1, most);
    let main = make_shared_pair(tries, words, actor, stock, by, depth, old_hash, old, single)?;
    lead(tries, words, actor, stock, by, depth, main)
}
