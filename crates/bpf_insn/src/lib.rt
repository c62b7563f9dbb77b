//! Has the instructions of BPF (RFC 9669), programs, their images and their arithmetic (docs/INSTRUCTIONS.md).
//!
//! - `decode` returns the program of an image, or its first fault.
//! - `encode` returns the image of a program.
//! - `Program::insn_at` returns the instruction that begins at a slot, if one does.
//!
//! ```
//! use bpf_insn::{Insn, decode, encode};
//!
//! let exit = [0x95, 0, 0, 0, 0, 0, 0, 0];
//! let program = decode(rt.alloc(), &exit).map_err(|_| "no image")?;
//! assert_eq!(rt; program.insn_at(0), Some(Insn::Exit));
//! assert_eq!(rt; encode(rt.alloc(), &program)?.as_slice(), exit.as_slice());
//! ```
#![tactic(auto)]

mod arithmetic;
mod arithmetic_laws;
mod edges;
mod forms;
mod image;
mod laws;
mod listing;
mod opcode;
mod opcode_table;
mod operands;
mod slot;
mod spelling;

pub use arithmetic::{alu, holds, movsx, neg, swap};
pub use arithmetic_laws::{least_by_minus_one, low_bits_decide, results_fit, swap_twice};
pub use edges::{Way, distance, edges_by_distance, first_slot_begins, target};
pub use forms::{AluOp, Cond, Insn, MovsxKind, Operand, Order, Reg, Size, SwapBits, SxSize, Width};
pub use image::{ImageError, decode, encode};
pub use laws::{one_reading, one_spelling, round_trip, spelling_length};
pub use listing::{MAX_SLOTS, Program, ProgramError, program_of};
pub use opcode::{AluCode, FieldUse, Opcode, Source, Uses};
pub use operands::{
    Access, MAX_ARGUMENTS, Reads, access_of, call_of, is_exit, load_of, registers_read, written_by,
};
pub use slot::{Slot, SlotFault};
