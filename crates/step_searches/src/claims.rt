//! Steps of claims.

/// A number of a claim about two nodes.
#[derive(Clone, Copy, Debug, PartialEq, Eq)]
pub enum Quantity {
    Number(u32),
    Nodes,
    Faults,
    Modulus,
    /// A free name of the claim.
    Free(u32),
    FirstSent,
    FirstWord(u32),
    SecondSent,
    SecondWord(u32),
}

/// A sum of quantities, in whole numbers.
#[derive(Drop)]
pub enum Total {
    Zero,
    Plus(Quantity, Box<Total>),
}

/// A condition on two nodes. An `AtMost` compares two sums.
#[derive(Drop)]
pub enum Condition {
    Anything,
    AtMost(Total, Total),
    Both(Box<Condition>, Box<Condition>),
    Either(Box<Condition>, Box<Condition>),
}

/// The coins of a step: any, or one coin of all nodes, which a free name can be.
#[derive(Clone, Copy, Debug, PartialEq, Eq)]
pub enum Coins {
    Any,
    Fixed(u32),
    Named(u32),
}

/// A step of nodes with so many words and a number of free names: if each two correct nodes meet `before` before a pulse,
/// each two meet `after` after it.
#[derive(Drop)]
pub struct Step {
    pub words: u32,
    pub names: u32,
    pub coins: Coins,
    pub before: Condition,
    pub after: Condition,
}
