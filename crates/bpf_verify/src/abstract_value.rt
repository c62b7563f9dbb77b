//! What is known of a register.

use node_env::Region;
use value_range::Range;

/// What is known of a register: nothing, that it holds a number of a range, or that it points into a
/// region at an offset of a range (docs/VERIFIER.md, "Abstract states").
#[derive(Clone, Copy, Debug)]
pub enum AbstractValue {
    /// Nothing is known.
    Unset,
    /// It holds a number of the range.
    Number(Range),
    /// It points into the region, at an offset of the range.
    Pointer(Region, Range),
}
