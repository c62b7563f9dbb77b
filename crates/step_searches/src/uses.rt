//! Which laws of quorums are used.

/// An answer of the test of a count: which node's, and which of its counts on the path, the latest first.
#[derive(Clone, Copy, Debug, PartialEq, Eq)]
pub struct Tested {
    pub is_second: bool,
    pub count: usize,
    pub answer: bool,
}

/// A law of quorums at one answer, or at two: then of one inbox if both counts are those of one node.
#[derive(Clone, Copy, Debug, PartialEq, Eq)]
pub enum Use {
    One(Tested),
    Two(Tested, Tested),
}
