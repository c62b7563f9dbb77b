//! Makes notes on rejected scenarios and programs, which tell where to look (docs/SCENARIOS.md, "Notes").
//!
//! - `note_on` returns the note on a rejected scenario.
//! - `note_on_text` returns the note on a rejected text of the assembler.
//! - `note_on_program` returns the note on a program that breaks a rule.
//! - `past_limit` returns where a rule goes past a limit of the compiler.
//!
//! ```
//! use scenario_notes::note_on;
//! use scenario_text::parse_scenario;
//!
//! let text = b"nodes = 4\nfalts = 1\n";
//! let rejected = parse_scenario(rt.alloc(), text).err().ok_or("a scenario")?;
//! let note = note_on(rt.alloc(), text, &rejected)?.ok_or("no note")?;
//! let words = note.text(rt.alloc()).ok_or("no text")?;
//! assert!(rt; words.as_str().contains("did you mean faults?"));
//! ```
#![tactic(auto)]

mod advice;
mod asm_advice;
mod asm_words;
mod finding;
mod known;
mod limits;
mod marked;
mod noting;
mod program_words;
mod remark;
mod respelled;
mod scan;
mod slot_line;
mod table;
mod toml_fault;
mod wanted;

pub use asm_advice::note_on_text;
pub use limits::past_limit;
pub use noting::note_on;
pub use program_words::note_on_program;
pub use remark::{Remark, Spot, UnknownKey};
