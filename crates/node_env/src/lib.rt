//! Has what a node's program sees in a pulse, and what it leaves: shape, messages, coin and outbox (docs/MACHINE.md).
//!
//! - `Shape::of` returns the shape of nodes and bytes of memory, if both are in range.
//! - `Env::with_mail` returns what a node sees in a pulse.
//! - `Outbox::send` keeps the last number for a receiver; `Outbox::slot` returns it.
//!
//! ```
//! use node_env::{Env, Mail, NO_MAIL, Outbox, Shape};
//!
//! let shape = Shape::of(4, 16).ok_or("no shape")?;
//! let mut outbox = Outbox::new(rt.alloc(), shape)?;
//! outbox.send(2, 7);
//! let mut mail = Mail::new(rt.alloc(), shape)?;
//! mail.fill(0, &outbox);
//! let env = Env::with_mail(rt.alloc(), shape, 2, &mail, 1)?;
//! assert_eq!(rt; (env.recv(0), env.recv(1)), (7, NO_MAIL));
//! ```
#![tactic(auto)]

mod env;
mod helper;
mod mail;
mod outbox;
mod region;
mod shape;
mod word;

pub use env::{Env, InboxRoom, NO_MAIL};
pub use helper::{HELPERS, Helper, arguments_of};
pub use mail::Mail;
pub use outbox::Outbox;
pub use region::{Region, STACK_BYTES, STACK_DWORDS};
pub use shape::{MAX_MEMORY, MAX_NODES, MEMORY_UNIT, Shape};
