//! Has the commands of `clockbed` and their options, with ranges, defaults and help, as `clap` reads them.
//!
//! - `command_line` returns the command line for `clap`.
//! - `command_names` returns the names of the commands.
//! - `options` has a row for each option, as `options::NODES`.
//!
//! ```
//! use command_words::{command_names, options};
//!
//! let names = command_names(rt.alloc())?;
//! assert!(rt; names.as_slice().contains(&"explore"));
//! assert_eq!(rt; (options::NODES.name, options::NODES.most), ("nodes", 64));
//! ```
#![tactic(auto)]

mod arguments;
mod commands;
mod helps;
pub mod options;
pub mod rows;
mod version;
mod words;

pub use helps::Helps;
pub use words::{command_line, command_names};
