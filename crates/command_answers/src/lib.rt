//! Has what a command answers: its text, its ending, its fault, and the note beside it (docs/COMMANDS.md).
//!
//! - `read_input` returns what a request reads.
//! - `give` writes a response and its note.
//! - `Ending::status` returns the exit status.
//!
//! ```
//! use command_answers::{Ending, Input, program_input, write_whole};
//! use stream_io::Tracked;
//!
//! assert_eq!(rt; program_input(true), Input::Text);
//! let mut written = Tracked::of(Vec::new(rt.alloc()));
//! let ending = write_whole(&mut written, b"accepted", Ending::Done).map_err(|_| "a fault")?;
//! assert_eq!(rt; (ending.status(), written.stream.len()), (0, 8));
//! ```
#![tactic(auto)]

mod answer;
mod ending;
mod fault;
mod input;
mod left;
mod note;
mod output;
mod rejection;
mod response;
mod trace_note;
mod unfit;

pub use answer::Answer;
pub use ending::Ending;
pub use fault::Fault;
pub use input::{Input, TEXT_BYTES, program_input, read_input, shaped_input};
pub use left::{LeftByRun, add_left, add_mail};
pub use note::{Advice, Kind, advised, place_note};
pub use output::write_whole;
pub use rejection::{Rejection, Uncompiled, Unread, reject, rejected};
pub use response::{Response, give};
pub use unfit::unfit_note;
