//! How much is told.

/// What is told of what is known at a slot.
#[derive(Clone, Copy, Debug, PartialEq, Eq)]
pub enum Detail {
    /// The registers that the instruction reads, and the stack bytes that it may load.
    Read,
    /// All that isn't Unset.
    All,
}
