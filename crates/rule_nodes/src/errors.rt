//! Why a rule is not compiled.

use std::alloc::AllocError;

#[derive(Clone, Copy, Debug, PartialEq, Eq)]
pub enum CompileError {
    /// A name is out of scope, a word is outside the memory, or more numbers are in use at once than there are places.
    NoRoom,
    /// There would be more than `MAX_SLOTS` instructions.
    TooLong,
    /// Memory was short.
    Memory,
}

impl From<AllocError> for CompileError {
    ghost use Rattle.std.specs.Prelude.{◌≡◌};
    ghost use Rattle.rule_nodes.specs.declared.errors.CompileError.TheVariants.{Memory};

    ghost from_gives = { λ _ e. e ≡ Memory };

    fn from(_e: AllocError) -> CompileError {
        CompileError::Memory
    }
}
