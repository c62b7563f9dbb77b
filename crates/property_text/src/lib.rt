//! Reads properties of runs (docs/PROPERTIES.md, "Files"): each line as a form and a term about two nodes.
//!
//! - `read_properties` returns the properties of a text, or its first error with line and column.
//! - `read_property` reads one of them.
//!
//! ```
//! use property_text::read_properties;
//! use rule_syntax::Sizes;
//!
//! let words = [String::from_str(rt.alloc(), "clock")?];
//! let sizes = Sizes {
//!     nodes: 4,
//!     faults: 1,
//!     modulus: 8,
//!     memory: 4,
//! };
//! let text = b"assume n > 3 * f\nalways p.clock == q.clock\n";
//! let properties = read_properties(rt.alloc(), &words, sizes, text).map_err(|_| "no properties")?;
//! assert_eq!(rt; properties.len(), 1);
//! ```
#![tactic(auto)]

mod lines;
mod sizes;
mod terms;

pub use lines::{MAX_PROPERTIES, is_at_property, read_properties, read_property};
