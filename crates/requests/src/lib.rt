//! Has what a command line asks for, with the case in which `exec` runs a program (docs/COMMANDS.md).
//!
//! - `Case::bare` returns the case of node 0 with nothing set.
//! - `Case::env` returns what the program sees in the case.
//! - `Case::memory` returns the memory in which the run begins.
//!
//! ```
//! use node_env::Shape;
//! use requests::Case;
//!
//! let shape = Shape::of(4, 8).ok_or("no shape")?;
//! let mut case = Case::bare(rt.alloc());
//! case.contents.push(3)?;
//! let memory = case.memory(rt.alloc(), shape)?;
//! assert_eq!(rt; memory.as_slice(), [3, 0, 0, 0, 0, 0, 0, 0].as_slice());
//! ```
#![tactic(auto)]

mod case;
mod request;

pub use case::Case;
pub use clock_nodes::ClockRule;
pub use explored::{
    AnyStart, ByteSpan, Cells, ExploreOptions, Form, GraphFormat, Mail, MailSpan, Memories,
    Question, Share, Starts,
};
pub use parameters::{Detail, KeySpan, LineFormat, LinesForm, PulseSpan, StressOptions};
pub use request::{
    ClaimedExploreOptions, ClaimedRunOptions, ClaimedSweepOptions, ClockOptions, CompileOptions,
    CompiledForm, ExecOptions, ExplainOptions, LinesOptions, NodeInPulse, NodeProgramOptions,
    ProveOptions, Request, RunOptions, ScenarioRequest, ShapeOptions, SweepOptions,
};
