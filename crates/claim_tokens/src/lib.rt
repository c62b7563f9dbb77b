//! Reads texts of claims and of properties token by token (docs/ALL_SIZES.md, "The language"; docs/PROPERTIES.md).
//!
//! - `Reader` has the next token of a text, and goes past it.
//! - `Token::error` returns an error at a token, with line and column.
//! - `ClaimError` says what is wrong.
//!
//! ```
//! use claim_tokens::{Kind, Reader, Sign};
//!
//! let mut reader = Reader::new(b"step any -> any");
//! assert!(rt; reader.take_word("step"));
//! assert!(rt; reader.next().kind == Kind::Name);
//! assert!(rt; reader.is_at(Sign::Arrow));
//! ```
#![tactic(auto)]

mod errors;
mod line;
mod reader;
mod token;

pub use errors::{ClaimError, ClaimsRefusal, ReadClaimsError};
pub use line::in_one_line;
pub use reader::{Bookmark, Reader};
pub use token::{Kind, Sign, Span, Token};
