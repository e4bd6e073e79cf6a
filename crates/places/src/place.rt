//! The place of an operation in the order.

/// The place of an operation in the order. Places are compared from the first field on.
#[derive(Clone, Copy, Debug, PartialEq, Eq, PartialOrd, Ord)]
pub struct Place {
    /// The operation's moment; for one that is late, the step that closed its generation.
    pub step: u64,
    /// Not late. What is late stands before the closing itself.
    pub on_time: bool,
    /// The operation's moment.
    pub moment: u64,
    /// It changed nothing. What changes the map stands before the others of the same moment.
    pub changed_nothing: bool,
    /// The operation.
    pub id: u64,
}
