//! Makes programs of nodes: the built-in clock, and Byzantine ones (docs/CLOCK.md).
//!
//! - `ClockRule::of` returns the numbers n, f and M of a clock, if they are in range.
//! - `dolev_welch` returns the program of the built-in clock.
//! - `say` returns a program that sends a fixed number to each node.
//!
//! ```
//! use clock_nodes::{ClockRule, dolev_welch};
//! use node_env::Shape;
//!
//! let shape = Shape::of(4, 16).ok_or("no shape")?;
//! let rule = ClockRule::of(4, 1, 8).ok_or("no rule")?;
//! assert_eq!(rt; rule.quorum(), 3);
//! let clock = dolev_welch(rt.alloc(), shape, rule)?;
//! assert_eq!(rt; clock.slot_count(), 55);
//! ```
#![tactic(auto)]

mod clock;
mod hostile;
mod insns;
mod laws;
mod rule;

pub use clock::dolev_welch;
pub use hostile::{echo, say};
pub use laws::{
    clock_ends, clock_is_taken, echo_ends, hostile_is_taken, pair_is_read_back, say_ends,
};
pub use rule::{ClockRule, LEAST_MODULUS, MAX_MODULUS};
