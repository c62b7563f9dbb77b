//! The regions that a program can point into.

ghost use Rattle.std.specs.Prelude.{Some};
ghost use Rattle.node_env.specs.Env.{region_word};

use std::fmt;

/// Bytes of a stack. It lives for one run.
pub const STACK_BYTES: u32 = 512;

/// Double words of a stack: each has eight bytes.
pub const STACK_DWORDS: usize = (STACK_BYTES / 8) as usize;

/// A region of bytes: the node's memory, or the stack of one run (docs/MACHINE.md, "Regions").
#[derive(Clone, Copy, Debug, PartialEq, Eq)]
pub enum Region {
    /// The node's memory.
    Mem,
    /// The stack of one run.
    Stack,
}

impl fmt::Display for Region {
    ghost output = { λ region. Some (region_word region) };

    fn fmt<W: fmt::Write>(&self, f: &mut fmt::Formatter<W>) -> fmt::Result {
        match self {
            Region::Mem => write!(f, "memory"),
            Region::Stack => write!(f, "stack"),
        }
    }
}
