//! The rule of the words.

ghost use Rattle.lock_free.specs.declared.rules.View.{View};
ghost use Rattle.lock_free.specs.FirstViews.{first_view};
ghost use Rattle.history.specs.declared.calls.Call.{Call};
ghost use Rattle.lock_free.specs.Shadows.{IsShadowed};
ghost use Rattle.lock_free.specs.Loading.{has_seen, has_gone};
ghost use Rattle.lock_free.specs.Calling.{has_cut_short, has_given_up, has_started};
ghost use Rattle.lock_free.specs.SwappingIn.{has_published};
ghost use Rattle.lock_free.specs.Finishing.{has_emptied, hearing, no_view};
ghost use Rattle.lock_free.specs.HandleWords.{has_closed, has_marked, has_unmarked};
ghost use Rattle.lock_free.specs.Linking.{has_linked, has_seen_link};
ghost use Rattle.lock_free.specs.Numbers.{has_given_back, has_named, has_reserved};
ghost use Rattle.lock_free.specs.OfferWords.{has_completed};
ghost use Rattle.lock_free.specs.Reclaiming.{has_reclaimed, has_retired};
ghost use Rattle.lock_free.specs.RootOffers.{has_proposed, has_yielded};
ghost use Rattle.lock_free.specs.RootWords.{has_asked, has_cleaned, has_met};
ghost use Rattle.lock_free.specs.SeatWords.{has_ended, has_passed, has_pinned, has_unpinned};
ghost use Rattle.lock_free.specs.Splitting.{without_last, of_last};
ghost use Rattle.lock_free.specs.Storing.{has_drafted, has_made, has_made_root, has_taken};

use crate::accounts::{Account, OwnOffer, PartedSlot};
use crate::sizes::Sizes;
use atomic_table::{Join, Play, Split, TableRule};
use history::Call;
use std::collections::LinkedList;
use std::marker::{Brand, PhantomData};
use trie_words::Pin;

/// The slots that are free for one seat alone, by their size, and those of its offers that are to be, the earliest first. No value of it
/// is made.
pub struct Pool {
    pub small: LinkedList<u32>,
    pub medium: LinkedList<u32>,
    pub wide: LinkedList<u32>,
    pub parted: LinkedList<PartedSlot>,
}

/// A handle that a seat has marked to close it, and how many seats it has found in no call on it since. No value of it is made.
pub struct Closing {
    pub handle: u16,
    pub looked: u8,
}

/// What a seat has done since it looked at the epoch, which it would let grow, or marked a handle, which it would close: whether all
/// glances that were under way have fallen, and how many seats it has found since in no call that was begun before that epoch. No value
/// of it is made.
pub struct Checked {
    pub cleared: bool,
    pub seats: u8,
}

/// Another seat of which a seat has heard, with its actors and what had happened at its last access: it was given up then. No value of
/// it is made.
pub struct Heard {
    pub actor: u8,
    pub last: u8,
    pub account: Account,
}

/// What the word of a pinned seat says, and what the epoch was, and what had happened, when it pinned itself. No value of it is made.
pub struct Pinned {
    pub pin: Pin,
    pub since: u64,
    pub account: Account,
    /// Its word says so. A seat that glances is pinned and no word says it.
    pub shown: bool,
}

/// A slot of this class that a seat has retired, since no root leads to its node any more: the node's number, what the epoch was
/// when the seat looked at it, and what had happened then. No value of it is made.
pub struct Retired {
    pub class: u8,
    pub name: u32,
    pub number: u64,
    pub stamp: u64,
    pub account: Account,
    /// Its last reference was lowered: what it names is held till the slot is free. If not it was replaced, as an indirection's own main
    /// node, and holds nothing.
    pub deep: bool,
}

/// A seat glances: what it has seen counts while the word that counts glances is what it was when it began, unless it knows that it isn't
/// any more. Its view has no sizes meanwhile: these are they. No value of it is made.
pub struct Glance {
    pub sizes: Sizes,
    pub read: u64,
    pub lost: bool,
}

/// What a seat knows. No value of it is made.
pub struct View {
    /// How many of everything there are.
    pub sizes: Sizes,
    /// The seat is this actor.
    pub actor: u8,
    /// It has the actors after it up to this one too, for seats that are split off.
    pub last: u8,
    /// What had happened at its last access.
    pub account: Account,
    /// What its own word says.
    pub pin: Option<Pinned>,
    /// The call for which it has pinned itself last.
    pub asks: Option<Call>,
    /// The handle that it has found open since it pinned itself to it: so nobody closes it.
    pub entered: Option<u16>,
    /// The handles that it has marked, since it would close them, the latest first.
    pub closing: LinkedList<Closing>,
    /// What the epoch was when it looked at it last.
    pub epoch: u64,
    /// What it has done since.
    pub passed: Checked,
    /// The number that it has reserved.
    pub opens: Option<u16>,
    /// The slot of the offer that it writes, which the word of that number names already.
    pub opening: Option<u32>,
    /// The latest offer of its own, if a handle's word may name it still.
    pub offer: Option<OwnOffer>,
    /// The slots that are free for it alone, and those of offers.
    pub pool: Pool,
    /// What it has written in these: the number of a word, and what it has.
    pub drafts: LinkedList<(u64, u64)>,
    /// The slots that it has retired, and that aren't free again yet.
    pub retired: LinkedList<Retired>,
    /// The nodes to which it holds a reference itself, the latest first, by the words of their counts.
    pub owed: LinkedList<u64>,
    /// What it knows of the links of slots that it has retired: the number of the word of a count, and what its low half is.
    pub links: LinkedList<(u64, u64)>,
    /// Handles whose words it has found to name no offer while nothing ran, and how many operations had begun then.
    pub plain: LinkedList<(u16, u64)>,
    /// The seats of which it has heard.
    pub heard: LinkedList<Heard>,
    /// It glances.
    pub glance: Option<Glance>,
}

pub struct Rule;

impl TableRule<Call, View, Sizes> for Rule {
    ghost holds = { IsShadowed };

    ghost first = { first_view };
}

/// The last actor of a seat gets a seat of its own.
pub struct Parts;

impl Split<View> for Parts {
    ghost left = { without_last };

    ghost right = { of_last };
}

/// What is picked where a seat hears of another one: what is left of the other.
pub trait Picks {
    ghost spent: { View };
}

impl Picks for Brand {
    ghost spent = { no_view };
}

/// A seat hears of another one, which is given up.
pub struct Hears<N> {
    marker: PhantomData<N>,
}

impl<N: Picks> Join<View> for Hears<N> {
    ghost both = { hearing };

    ghost spent = { N.spent };
}

/// A seat gives back whatever slots of the table it has.
pub struct Empties;

impl Play<Call, View> for Empties {
    ghost then = { has_emptied };
}

/// Something is looked at, and no step is taken.
pub struct Sees;

impl Play<Call, View> for Sees {
    ghost then = { has_seen };
}

/// The operation's next step is taken, which makes no node.
pub struct Goes;

impl Play<Call, View> for Goes {
    ghost then = { has_gone };
}

/// A fresh main node is swapped in, or isn't.
pub struct Publishes;

impl Play<Call, View> for Publishes {
    ghost then = { has_published };
}

/// The root of a handle is read, where its word names it, or that word is looked at.
pub struct Asks;

impl Play<Call, View> for Asks {
    ghost then = { has_asked };
}

/// The offer that stands for a root is found, where it is undecided, or its first word is looked at.
pub struct Meets;

impl Play<Call, View> for Meets {
    ghost then = { has_met };
}

/// A settled offer is taken out of the word of a handle, or isn't.
pub struct Cleans;

impl Play<Call, View> for Cleans {
    ghost then = { has_cleaned };
}

/// An offer is settled, or was.
pub struct Completes;

impl Play<Call, View> for Completes {
    ghost then = { has_completed };
}

/// A seat pins itself for the call that is said.
pub struct Pins;

impl Play<Call, View> for Pins {
    ghost then = { has_pinned };
}

/// It takes its pin away.
pub struct Unpins;

impl Play<Call, View> for Unpins {
    ghost then = { has_unpinned };
}

/// A SWAP's last step is taken, and the slot of the main node that it lets go of is retired, or isn't.
pub struct Retires;

impl Play<Call, View> for Retires {
    ghost then = { has_retired };
}

/// A slot that a seat has retired is free for it again.
pub struct Reclaims;

impl Play<Call, View> for Reclaims {
    ghost then = { has_reclaimed };
}

/// The link of a slot that the seat has retired is looked at.
pub struct SeesLink;

impl Play<Call, View> for SeesLink {
    ghost then = { has_seen_link };
}

/// It becomes another one.
pub struct Links;

impl Play<Call, View> for Links {
    ghost then = { has_linked };
}

/// The operation begins for which a seat has pinned itself, if its handle is open for it.
pub struct Starts;

impl Play<Call, View> for Starts {
    ghost then = { has_started };
}

/// A handle is marked, which a seat would close, or isn't.
pub struct Marks;

impl Play<Call, View> for Marks {
    ghost then = { has_marked };
}

/// A mark is taken away, or isn't.
pub struct Unmarks;

impl Play<Call, View> for Unmarks {
    ghost then = { has_unmarked };
}

/// A seat that would close a handle looks at the next seat's pin.
pub struct Looks;

impl Play<Call, View> for Looks {
    ghost then = { has_passed };
}

/// A handle is closed, or isn't.
pub struct Shuts;

impl Play<Call, View> for Shuts {
    ghost then = { has_closed };
}

/// An operation ends.
pub struct Ends;

impl Play<Call, View> for Ends {
    ghost then = { has_ended };
}

/// A number is reserved for a handle that a call opens, or isn't.
pub struct Reserves;

impl Play<Call, View> for Reserves {
    ghost then = { has_reserved };
}

/// Its word names the offer that is to open it.
pub struct Names;

impl Play<Call, View> for Names {
    ghost then = { has_named };
}

/// It is given back.
pub struct Returns;

impl Play<Call, View> for Returns {
    ghost then = { has_given_back };
}

/// An operation gives up.
pub struct Abandons;

impl Play<Call, View> for Abandons {
    ghost then = { has_given_up };
}

/// An operation gives up, unless it is to end or may not.
pub struct CutsShort;

impl Play<Call, View> for CutsShort {
    ghost then = { has_cut_short };
}

/// A word of a free slot is written.
pub struct Drafts;

impl Play<Call, View> for Drafts {
    ghost then = { has_drafted };
}

/// A slot is taken, or isn't.
pub struct Takes;

impl Play<Call, View> for Takes {
    ghost then = { has_taken };
}

/// The node that was written becomes one of the machine's.
pub struct Makes;

impl Play<Call, View> for Makes {
    ghost then = { has_made };
}

/// The root that was written becomes one of the machine's, or doesn't.
pub struct MakesRoot;

impl Play<Call, View> for MakesRoot {
    ghost then = { has_made_root };
}

/// An offer comes to stand, or doesn't.
pub struct Proposes;

impl Play<Call, View> for Proposes {
    ghost then = { has_proposed };
}

/// An offer that was met is undecided, or isn't.
pub struct Yields;

impl Play<Call, View> for Yields {
    ghost then = { has_yielded };
}
