//! An instruction that can't be read, spelled as it may be meant.

use bpf_asm::{TextError, assemble};
use std::alloc::{AllocError, Global};

/// How far an instruction is spelled.
#[derive(Drop)]
struct Spelled {
    text: String,
    /// Whether its word has ended.
    is_past_word: bool,
    /// Whether an operand has ended: a comma comes before the next one.
    is_between: bool,
    is_in_brackets: bool,
    /// Whether an offset has begun in the brackets.
    has_offset: bool,
}

impl Spelled {
    fn new(alloc: Global) -> Spelled {
        Spelled {
            text: String::new(alloc),
            is_past_word: false,
            is_between: false,
            is_in_brackets: false,
            has_offset: false,
        }
    }

    /// Reads a letter.
    fn read(&mut self, letter: char) -> Result<(), AllocError> {
        match letter {
            ' ' | '\t' | ',' => {
                self.end_part();
                Ok(())
            }
            '%' | '$' | ';' => Ok(()),
            '[' | '(' => {
                self.is_in_brackets = true;
                self.has_offset = false;
                self.add('[')
            }
            ']' | ')' => self.close(),
            '+' | '-' => {
                self.has_offset = true;
                self.add(letter)
            }
            _ => self.add(letter.to_ascii_lowercase()),
        }
    }

    /// Ends the word or an operand, except in brackets.
    fn end_part(&mut self) {
        if !self.is_in_brackets {
            self.is_between = true;
        }
    }

    fn close(&mut self) -> Result<(), AllocError> {
        if self.is_in_brackets && !self.has_offset {
            self.text.push_str("+0")?;
        }
        self.is_in_brackets = false;
        self.text.push(']')?;
        Ok(())
    }

    /// Adds a letter, and before it what separates it from the part before.
    fn add(&mut self, letter: char) -> Result<(), AllocError> {
        if self.is_between {
            let mark = if self.is_past_word { ", " } else { " " };
            self.text.push_str(mark)?;
            self.is_between = false;
            self.is_past_word = true;
        }
        self.text.push(letter)?;
        Ok(())
    }
}

/// Returns an instruction with a comma between operands, brackets with an offset, and small letters.
fn respelled(alloc: Global, instruction: &str) -> Result<String, AllocError> {
    let mut spelled = Spelled::new(alloc);
    for letter in instruction.trim().chars() {
        spelled.read(letter)?;
    }
    Ok(spelled.text)
}

/// Returns true if an instruction can be read: its label may be that of another line.
fn is_read(alloc: Global, instruction: &str) -> Result<bool, AllocError> {
    match assemble(alloc, instruction.as_bytes()) {
        Ok(_) | Err(TextError::UnknownLabel(_)) => Ok(true),
        Err(TextError::Memory) => Err(AllocError),
        Err(_) => Ok(false),
    }
}

/// Returns the instruction as it can be read: nothing if that isn't known.
pub(crate) fn readable(alloc: Global, instruction: &str) -> Result<String, AllocError> {
    let spelled = respelled(alloc, instruction)?;
    if is_read(alloc, spelled.as_str())? {
        Ok(spelled)
    } else {
        Ok(String::new(alloc))
    }
}

/// Returns the instruction with this word in place of its own, if it can be read: otherwise nothing.
pub(crate) fn readable_with(
    alloc: Global,
    word: &str,
    operands: &str,
) -> Result<String, AllocError> {
    let whole = format!(in alloc; "{word} {operands}")?;
    if is_read(alloc, whole.as_str().trim())? {
        return Ok(whole);
    }
    readable(alloc, whole.as_str())
}
