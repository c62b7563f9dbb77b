//! Why a text means no program.

ghost use Rattle.std.specs.Prelude.{Some};
ghost use Rattle.bpf_asm.specs.Errors.{text_error_text};

use crate::operands::Fault;
use std::alloc::AllocError;
use std::fmt;

/// Why a text is not assembled, with the line, from 1 on. Of all faults that of the lowest line is told, and of one
/// line the first in this order.
#[derive(Clone, Copy, Debug, PartialEq, Eq)]
pub enum TextError {
    /// No form and no label is named so.
    UnknownWord(usize),
    /// The operands have another form.
    BadOperand(usize),
    /// A number of right form is outside its range.
    OutOfRange(usize),
    /// No line has the label that a jump names.
    UnknownLabel(usize),
    /// A label is given a second time, on this line.
    LabelTwice(usize),
    /// The instruction is the first that ends past the last slot.
    TooLong(usize),
    /// No line has an instruction.
    Empty,
    /// Memory was short.
    Memory,
}

impl TextError {
    ghost use Rattle.std.specs.Prelude.{◌≡◌, ◌⊎◌};
    ghost use Rattle.bpf_asm.specs.Errors.{text_error_line, text_error_name};

    /// Returns the name of the error (docs/ASSEMBLER.md, "Refusals").
    pub fn name(self) -> &'static str
        ensures { result.now ≡ text_error_name self }
    {
        match self {
            TextError::UnknownWord(_) => "UnknownWord",
            TextError::BadOperand(_) => "BadOperand",
            TextError::OutOfRange(_) => "OutOfRange",
            TextError::UnknownLabel(_) => "UnknownLabel",
            TextError::LabelTwice(_) => "LabelTwice",
            TextError::TooLong(_) => "TooLong",
            TextError::Empty => "Empty",
            TextError::Memory => "Memory",
        }
    }

    /// Returns the line of the text that the error names, from 1 on. `Empty` and `Memory` name none.
    pub fn line(self) -> Option<usize>
        ensures { result ≡ text_error_line self }
    {
        match self {
            TextError::UnknownWord(line)
            | TextError::BadOperand(line)
            | TextError::OutOfRange(line)
            | TextError::UnknownLabel(line)
            | TextError::LabelTwice(line)
            | TextError::TooLong(line) => Some(line),
            TextError::Empty | TextError::Memory => None,
        }
    }

    pub(crate) fn at(fault: Fault, line: usize) -> TextError {
        match fault {
            Fault::UnknownWord => TextError::UnknownWord(line),
            Fault::BadOperand => TextError::BadOperand(line),
            Fault::OutOfRange => TextError::OutOfRange(line),
        }
    }

    /// The line and the number: the lower ones are told first.
    fn rank(self) -> (usize, u8) {
        match self {
            TextError::Memory => (0, 0),
            TextError::UnknownWord(line) => (line, 1),
            TextError::BadOperand(line) => (line, 2),
            TextError::OutOfRange(line) => (line, 3),
            TextError::UnknownLabel(line) => (line, 4),
            TextError::LabelTwice(line) => (line, 5),
            TextError::TooLong(line) => (line, 6),
            TextError::Empty => (usize::MAX, 7),
        }
    }

    /// The one of two that is told.
    pub(crate) fn first(self, other: TextError) -> TextError
        ensures { (result ≡ self) ⊎ (result ≡ other) }
    {
        if other.rank() < self.rank() {
            other
        } else {
            self
        }
    }
}

impl fmt::Display for TextError {
    ghost output = { λ error. Some (text_error_text error) };

    fn fmt<W: fmt::Write>(&self, f: &mut fmt::Formatter<W>) -> fmt::Result {
        match *self {
            TextError::Memory => write!(f, "Memory"),
            error => {
                let name = error.name();
                let line = error.line().unwrap_or(0);
                write!(f, "{name} line {line}")
            }
        }
    }
}

impl From<AllocError> for TextError {
    ghost use Rattle.std.specs.Prelude.{◌≡◌};
    ghost use Rattle.bpf_asm.specs.declared.text_error.TextError.TheVariants.{Memory};

    ghost from_gives = { λ _ e. e ≡ Memory };

    fn from(_e: AllocError) -> TextError {
        TextError::Memory
    }
}
