//! How many calls about a shard a seat knows of, as C programs have it.

/// A shard, and the number of a call about it.
#[repr(C)]
#[derive(Clone, Copy)]
pub struct Count {
    /// The shard: 0, 1 and so on.
    pub shard: u64,
    /// The number of the last call about it, counted from 1.
    pub calls: u64,
}
