//! The case in which `exec` runs a program.
ghost use Rattle.std.specs.Prelude.{◌≡◌};

use node_env::{Env, Shape};
use std::alloc::{AllocError, Global};

/// Which node the program is, what came to it in the mail, its coin, and what its memory holds.
#[derive(Debug, Drop)]
pub struct Case {
    pub id: u32,
    /// The mail from each node, in their order. From nodes behind the list nothing came.
    pub mail: Vec<Option<u32>>,
    /// Whether the coin is 1.
    pub coin: bool,
    /// The first bytes of the memory. Those behind them are zero.
    pub contents: Vec<u8>,
}

impl Case {
    ghost use Rattle.std.specs.Prelude.{◌≡◌, ◌<◌, [], false, IfOk, length};
    ghost use Rattle.requests.specs.Case.{case_memory, case_setting};

    /// Returns the case of node 0 with zeros in its memory; its coin is 0, and nothing came to it.
    pub fn bare(alloc: Global) -> Case
        ensures id { result.id ≡ 0 }
        ensures mail { result.mail.items ≡ [] }
        ensures coin { result.coin ≡ false }
        ensures contents { result.contents.items ≡ [] }
    {
        Case {
            id: 0,
            mail: Vec::new(alloc),
            coin: false,
            contents: Vec::new(alloc),
        }
    }

    /// Returns what a program sees in this case.
    #[tactic(auto, using(node_env::proofs::Slots::slots))]
    pub fn env(&self, alloc: Global, shape: Shape) -> Result<Env, AllocError>
        requires { self.now.id < shape.nodes }
        ensures { IfOk result (λ env. env ≡ case_setting shape self.now) }
    {
        let mut inbox = Vec::from_slice(alloc, &self.mail)?;
        inbox.resize(shape.nodes() as usize, None)?;
        let coin = if self.coin { 1 } else { 0 };
        Ok(Env::new(shape, self.id, inbox, coin))
    }

    /// Returns the memory in which the run begins.
    pub fn memory(&self, alloc: Global, shape: Shape) -> Result<Vec<u8>, AllocError>
        ensures bytes { IfOk result (λ memory. memory.items ≡ case_memory shape self.now) }
        ensures size { IfOk result (λ memory. length memory.items ≡ shape.memory) }
    {
        let mut memory = Vec::from_slice(alloc, &self.contents)?;
        memory.resize(shape.memory() as usize, 0)?;
        Ok(memory)
    }
}
