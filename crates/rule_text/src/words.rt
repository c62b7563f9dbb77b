//! The names of the words of a rule's memory.
ghost use Rattle.std.specs.Prelude.{◌≡◌, ◌++◌, ◌∷◌, Ok, IfErr, IfOk, OnOk, codes, map, string_bytes};
ghost use Rattle.rule_text.specs.Scopes.{TellsError};
ghost use Rattle.rule_text.specs.Words.{front_word, names_at, word_names};

use crate::errors::ReadRuleError;
use crate::layout::{MAX_LINES, laid_out};
use crate::lexemes::{Class, is_in, lexemes};
use crate::rule::{first_column, header};
use crate::scope::{Entry, is_word};
use crate::tables::Header;
use std::alloc::{AllocError, Global};

/// The name of the first word of a memory.
const CLOCK: &str = "clock";

/// Returns the word at the front of a text.
#[tactic(auto, using(crate::proofs::WordLemmas::front_more, crate::proofs::WordLemmas::front_ends, crate::proofs::WordLemmas::is_ascii))]
fn front_word(alloc: Global, text: &[u8]) -> Result<String, AllocError>
    ensures { IfOk result (λ word. string_bytes word ≡ front_word text.now) }
{
    let mut word = String::new(alloc);
    for byte in text {
        if !is_in(Class::Letters, *byte) {
            return Ok(word);
        }
        word.push(char::from(*byte))?;
    }
    Ok(word)
}

#[tactic(auto, using(crate::proofs::WordLemmas::name_kept, crate::proofs::WordLemmas::name_passed))]
/// Appends the words of the text at which the names of words of the memory begin.
fn push_names(
    alloc: Global,
    text: &[u8],
    names: &[Entry],
    words: &mut Vec<String>,
) -> Result<(), AllocError>
    ensures { OnOk result (map string_bytes words.new.items
        ≡ map string_bytes words.old.items ++ names_at text.now names.now) }
{
    for entry in names {
        if is_word(entry.meaning) {
            let rest = &text[entry.name.from.min(text.len())..];
            words.push(front_word(alloc, rest)?)?;
        }
    }
    Ok(())
}

/// Returns the clock, and the names of the other words of the memory.
fn with_clock(alloc: Global, text: &[u8], names: &[Entry]) -> Result<Vec<String>, AllocError>
    ensures { IfOk result (λ words. map string_bytes words.items ≡ codes "clock" ∷ names_at text.now names.now) }
{
    let mut words = Vec::new(alloc);
    words.push(String::from_str(alloc, CLOCK)?)?;
    push_names(alloc, text, names, &mut words)?;
    Ok(words)
}

/// Returns the names of the words of the memory by their places: the clock, and those after `state`. Errors are those of
/// `read_rule` in these lines.
pub fn word_names(alloc: Global, text: &[u8]) -> Result<Vec<String>, ReadRuleError>
    ensures names { IfOk result (λ words. word_names text.now ≡ Ok (map string_bytes words.items)) }
    ensures error { IfErr result (TellsError (word_names text.now)) }
{
    let found = lexemes(alloc, text)?;
    let tokens = laid_out(alloc, &found)?;
    let column = first_column(&tokens);
    let (found, _rest) = header(alloc, text, Header::new(alloc), &tokens, column, MAX_LINES)?;
    Ok(with_clock(alloc, text, &found.names)?)
}
