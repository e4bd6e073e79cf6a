//! What has happened at the words so far. No value of it is made.

use machine_model::{Descriptor, Step};
use std::collections::LinkedList;

/// Whether a main node was made in the generation of the indirection where it stands, or a single with the tomb that has it: by
/// numbers of the definition's slots.
pub struct Owned {
    pub holder: u64,
    pub held: u64,
    pub is_own: bool,
}

/// An offer, and where it was made.
pub struct Known {
    /// The slot of the table in which it is written.
    pub slot: u32,
    /// The handle whose root it is to replace.
    pub handle: u16,
    /// The actor whose operation offered.
    pub maker: u8,
    pub offer: Descriptor,
}

/// An offer that no handle's word names any more, and what the epoch was when its seat looked at it then.
pub struct Parted {
    pub known: Known,
    pub stamp: u64,
}

/// An offer of a seat's own that stands, or stood, and whether the words of the handles that it was made on, and that it opens, may name it
/// still. No value of it is made.
pub struct OwnOffer {
    pub known: Known,
    pub is_named: bool,
    pub is_opening: bool,
}

/// The slot of an offer that no handle's word names any more, and what the epoch was when its seat looked at it then.
#[derive(Clone, Copy, Default, Drop)]
pub struct PartedSlot {
    /// The slot.
    pub slot: u32,
    /// The epoch.
    pub stamp: u64,
}

/// The steps of the definition that were taken; in which slot of the table each node was made; and the offers.
pub struct Account {
    pub steps: LinkedList<Step>,
    pub names: LinkedList<u32>,
    pub owned: LinkedList<Owned>,
    /// All that came to stand.
    pub offered: LinkedList<Known>,
    /// Those of them whose slots aren't free again.
    pub offers: LinkedList<Known>,
    /// Those that no handle's word names any more.
    pub parted: LinkedList<Parted>,
}
