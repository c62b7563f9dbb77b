//! What is staged.
ghost use Rattle.std.specs.Prelude.{◌≡◌, ◌↔◌, IfOk, IsTrue};
ghost use Rattle.bench_core.specs.Replay.{LoadsAccepted};
ghost use Rattle.bench_core.specs.Views.{change_of};
ghost use Rattle.bench_core.specs.inner.Nodes.{KeepsPrograms};

use bpf_verify::VerifiedProgram;
use std::alloc::{AllocError, Global};

/// A change of one node, which the next opened pulse applies. A load keeps the node's memory; `Corrupt` sets it.
#[derive(Drop)]
pub enum Change {
    Load { node: u32, program: VerifiedProgram },
    Unload { node: u32 },
    Corrupt { node: u32, image: Vec<u8> },
}

impl Change {
    /// Returns an equal change.
    pub fn copy(&self, alloc: Global) -> Result<Change, AllocError>
        ensures { IfOk result (λ c. change_of c ≡ change_of self.now) }
    {
        match self {
            Change::Load { node, program } => {
                let program = program.copy()?;
                Ok(Change::Load {
                    node: *node,
                    program,
                })
            }
            Change::Unload { node } => Ok(Change::Unload { node: *node }),
            Change::Corrupt { node, image } => {
                let image = Vec::from_slice(alloc, image)?;
                Ok(Change::Corrupt { node: *node, image })
            }
        }
    }

    /// Returns true if it leaves all programs as they are.
    pub(crate) fn keeps_programs(&self) -> bool
        ensures { IsTrue result → KeepsPrograms (change_of self.now) }
    {
        match self {
            Change::Corrupt { .. } => true,
            Change::Load { .. } | Change::Unload { .. } => false,
        }
    }

    /// States that a program which the change loads is accepted: its type keeps that.
    pub(crate) fn loads_accepted(&self)
        ensures { LoadsAccepted (change_of self.now) }
    {
        match self {
            Change::Load { node: _, program } => {
                let _program = program.program(); // brings its acceptance
            }
            Change::Unload { .. } | Change::Corrupt { .. } => {}
        }
    }

    /// Returns true if the other is equal by all parts, a program by its instructions and shape.
    pub(crate) fn is(&self, other: &Change) -> bool
        ensures { IsTrue result ↔ (change_of self.now ≡ change_of other.now) }
    {
        match (self, other) {
            (
                Change::Load { node, program },
                Change::Load {
                    node: other_node,
                    program: other_program,
                },
            ) => node == other_node && program.same(other_program),
            (Change::Unload { node }, Change::Unload { node: other_node }) => node == other_node,
            (
                Change::Corrupt { node, image },
                Change::Corrupt {
                    node: other_node,
                    image: other_image,
                },
            ) => node == other_node && image.as_slice() == other_image.as_slice(),
            _ => false,
        }
    }
}
