//! Runs any program with a check at each step, and names the slot where it got stuck (docs/MACHINE.md).
//!
//! - `run_checked` returns how the run ended: with r0, by a trap at a slot, or out of fuel.
//! - `step` makes one step of it.
//! - `State::entry` returns the state in which a run begins.
//!
//! ```
//! use bpf_asm::assemble;
//! use bpf_machine::{Outcome, run_checked};
//! use node_env::{Env, Mail, Outbox, Shape};
//!
//! let program = assemble(rt.alloc(), b"mov64 r0, 7\nexit\n").map_err(|_| "no program")?;
//! let shape = Shape::of(4, 8).ok_or("no shape")?;
//! let mail = Mail::new(rt.alloc(), shape)?;
//! let env = Env::with_mail(rt.alloc(), shape, 0, &mail, 1)?;
//! let mut outbox = Outbox::new(rt.alloc(), shape)?;
//! let outcome = run_checked(&program, &env, &mut [0; 8], &mut outbox, 100);
//! assert_eq!(rt; outcome, Outcome::Ended { r0: 7, steps: 2 });
//! ```
#![tactic(auto)]

mod alu;
mod bytes;
mod calls;
mod laws;
mod run;
mod state;
mod turn;
mod word;

pub use bytes::{number_in, put_number};
pub use laws::{leaves_sound, one_run, runs_compose, stays_sound, stuck_by_traps};
pub use node_env::Region;
pub use run::{run_checked, step};
pub use state::State;
pub use word::{Outcome, TrapKind, Turn, Word};
