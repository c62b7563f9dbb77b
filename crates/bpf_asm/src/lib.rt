//! Reads and prints programs as texts (docs/ASSEMBLER.md).
//!
//! - `assemble` returns the program of a text, or the first error with its line.
//! - `disassemble` returns the canonical text of a program.
//! - `list_program` returns the same with slots and bytes.
//!
//! ```
//! use bpf_asm::{assemble, disassemble};
//!
//! let program = assemble(rt.alloc(), b"ja end\nend: exit").map_err(|_| "no program")?;
//! assert_eq!(rt; program.slot_count(), 2);
//! assert_eq!(rt;
//!     disassemble(rt.alloc(), &program)?.as_str(),
//!     "ja +0\nexit\n"
//! );
//! ```
#![tactic(auto)]

mod assembler;
mod forms;
mod labels;
mod line;
mod listing;
mod listing_laws;
mod meaning_laws;
mod numbers;
mod operands;
mod pieces;
mod printing;
mod registers;
mod statements;
mod text_error;
mod word_laws;
mod words;

pub use assembler::assemble;
pub use line::CanonicalLine;
pub use listing::{instruction_lines, list_program, list_text};
pub use listing_laws::listed_slots_are_the_programs;
pub use meaning_laws::{canonical_text_means_its_program, one_meaning, text_round_trip};
pub use printing::disassemble;
pub use registers::register_word;
pub use text_error::TextError;
pub use word_laws::{one_helper_each, one_register_each, one_word_each};
