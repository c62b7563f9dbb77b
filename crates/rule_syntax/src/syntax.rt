//! Terms, assignments and statements of a rule, and the sizes that its terms name.

/// An operation on two numbers.
#[derive(Clone, Copy, Debug, PartialEq, Eq)]
pub enum Operation {
    Sum,
    Difference,
    Product,
    Quotient,
    Remainder,
}

/// A comparison of two numbers.
#[derive(Clone, Copy, Debug, PartialEq, Eq)]
pub enum Comparison {
    Equal,
    NotEqual,
    Less,
    AtMost,
    Greater,
    AtLeast,
}

/// What is made of two numbers: the result of an operation, or 1 or 0 as a comparison holds or doesn't.
#[derive(Clone, Copy, Debug, PartialEq, Eq)]
pub enum Operator {
    Compute(Operation),
    Compare(Comparison),
}

/// How two conditions are combined.
#[derive(Clone, Copy, Debug, PartialEq, Eq)]
pub enum Connective {
    And,
    Or,
}

/// A term: each one is a number, and a condition is 1 or 0.
#[derive(Drop)]
pub enum Term {
    Number(u32),
    Nodes,
    Faults,
    Modulus,
    Me,
    Coin,
    /// The node of a loop, by the number of loops around that one.
    LoopNode(u32),
    /// A `let`, by the number of lets in scope before it.
    Local(u32),
    /// A word of the memory: four bytes, the lowest first.
    Word(u32),
    /// The last message from a node.
    Message(Box<Term>),
    Binary(Operator, Box<Term>, Box<Term>),
    Logical(Connective, Box<Term>, Box<Term>),
    Not(Box<Term>),
    /// The second term if the first holds, and otherwise the third.
    Choice(Box<Term>, Box<Term>, Box<Term>),
    /// The number of nodes for which the term holds.
    Count(Box<Term>),
    /// The least message from a node for which the term holds, and no message if there is none.
    Least(Box<Term>),
    /// The number at a place, from 0 on, among the numbers of the second term at all nodes in rising order; no message if
    /// there is no such place. The first term is the place.
    Sorted(Box<Term>, Box<Term>),
}

/// What an assignment sets.
#[derive(Clone, Copy, Debug, PartialEq, Eq)]
pub enum Target {
    ToLocal(u32),
    ToWord(u32),
}

/// Numbers for one target or for several. That of the last target holds those before it.
#[derive(Drop)]
pub enum Assignment {
    One(Target, Term),
    Also(Box<Assignment>, Target, Term),
}

/// A statement. A `let` holds the rest of its block.
#[derive(Drop)]
pub enum Statement {
    Nothing,
    Then(Box<Statement>, Box<Statement>),
    Let(Term, Box<Statement>),
    Assign(Assignment),
    If(Term, Box<Statement>, Box<Statement>),
    For(Box<Statement>),
    SendAll(Term),
    SendTo(Term, Term),
}

/// The number of nodes, how many of them may be faulty, the modulus of the clocks, and the bytes of a node's memory.
#[derive(Clone, Copy, Debug, PartialEq, Eq)]
pub struct Sizes {
    pub nodes: u32,
    pub faults: u32,
    pub modulus: u32,
    pub memory: u32,
}
