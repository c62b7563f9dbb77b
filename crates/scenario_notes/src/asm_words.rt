//! The words of instructions (docs/ASSEMBLER.md, "Words"), and which of them a wrong one is meant for.

use rule_notes::near::nearest;
use std::alloc::{AllocError, Global};

/// The operations whose words end with 32 or 64.
const OPERATIONS: [&str; 15] = [
    "add", "sub", "mul", "div", "sdiv", "or", "and", "lsh", "rsh", "mod", "smod", "xor", "mov",
    "arsh", "neg",
];

/// The conditions of jumps.
const CONDITIONS: [&str; 11] = [
    "jeq", "jgt", "jge", "jset", "jne", "jsgt", "jsge", "jlt", "jle", "jslt", "jsle",
];

/// All other words.
const OTHER_WORDS: [&str; 34] = [
    "sx8_32", "sx16_32", "sx8_64", "sx16_64", "sx32_64", "le16", "le32", "le64", "be16", "be32",
    "be64", "swap16", "swap32", "swap64", "ja", "jal", "call", "exit", "ldxb", "ldxh", "ldxw",
    "ldxdw", "ldsxb", "ldsxh", "ldsxw", "stxb", "stxh", "stxw", "stxdw", "stb", "sth", "stw",
    "stdw", "lddw",
];

/// What the widths of operations are written with.
const DIGITS: [char; 10] = ['0', '1', '2', '3', '4', '5', '6', '7', '8', '9'];

/// Returns the word of an instruction for one of other assemblers: nothing if there is none.
fn same_word(word: &str) -> &'static str {
    match word {
        "jmp" | "goto" | "b" | "br" => "ja",
        "ret" | "return" | "halt" | "end" => "exit",
        "load" | "ldr" | "ld" => "ldxw",
        "store" | "str" | "st" => "stxw",
        "jz" | "je" | "beq" => "jeq",
        "jnz" | "bne" => "jne",
        "set" | "li" | "move" => "mov64",
        "shl" => "lsh64",
        "shr" => "rsh64",
        _ => "",
    }
}

/// Returns the word that an unknown one may be meant for, without its width.
fn known_word(alloc: Global, word: &str) -> Result<Option<&'static str>, AllocError> {
    let same = same_word(word);
    if same.len() > 0 {
        return Ok(Some(same));
    }
    if let Some(near) = word_among(alloc, word, &OTHER_WORDS)? {
        return Ok(Some(near));
    }
    word_among(alloc, word, &CONDITIONS)
}

/// Returns one of the words that is written so, or the nearest one.
fn word_among(
    alloc: Global,
    word: &str,
    words: &[&'static str],
) -> Result<Option<&'static str>, AllocError> {
    match words.iter().find(|other| **other == word) {
        Some(same) => Ok(Some(*same)),
        None => nearest(alloc, word, words),
    }
}

/// Returns a text in small letters.
fn in_small_letters(alloc: Global, text: &str) -> Result<String, AllocError> {
    let mut small = String::new(alloc);
    for letter in text.chars() {
        small.push(letter.to_ascii_lowercase())?;
    }
    Ok(small)
}

/// Returns the word that an unknown one may be meant for: nothing if none is near.
pub(crate) fn meant_word(alloc: Global, unknown: &str) -> Result<String, AllocError> {
    let word = in_small_letters(alloc, unknown)?;
    let word = word.as_str();
    let front = word.trim_end_matches(DIGITS);
    let width = if word.ends_with("32") { "32" } else { "64" };
    if let Some(operation) = word_among(alloc, front, &OPERATIONS)? {
        return format!(in alloc; "{operation}{width}");
    }
    match known_word(alloc, word)? {
        Some(known) => String::from_str(alloc, known),
        None => Ok(String::new(alloc)),
    }
}

/// Returns the form of the operands of an instruction.
pub(crate) fn form_of(word: &str) -> &'static str {
    match word {
        "exit" => "exit has no operand",
        "call" => "a helper is id, recv, send or coin",
        "ja" | "jal" => "the operand is a label or a distance, as +2",
        "lddw" => "the operands are a register and a number, as r1, 5",
        _ => form_of_family(word),
    }
}

fn form_of_family(word: &str) -> &'static str {
    if word.starts_with("j") {
        "the operands are a register, a register or a number, and a label, as r1, 5, next"
    } else if word.starts_with("ld") {
        "the operands are a register and an address, as r1, [r2+0]"
    } else if word.starts_with("stx") {
        "the operands are an address and a register, as [r1+0], r2"
    } else if word.starts_with("st") {
        "the operands are an address and a number, as [r1+0], 5"
    } else if word.starts_with("sx") {
        "the operands are two registers, as r1, r2"
    } else if is_of_one(word) {
        "the operand is a register, as r1"
    } else {
        "the operands are a register, and a register or a number, as r1, 5"
    }
}

/// Returns true for an instruction of one register.
fn is_of_one(word: &str) -> bool {
    word.starts_with("neg")
        || word.starts_with("le")
        || word.starts_with("be")
        || word.starts_with("swap")
}
