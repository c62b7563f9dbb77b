//! The words of the memory that a rule names (docs/RULES.md, "Names"), for the first line of an answer.
ghost use Rattle.std.specs.Prelude.{◌≡◌, IfOk, map, string_bytes};
ghost use Rattle.explored_texts.specs.Words.{names_or_none, state_words};
ghost use Rattle.rule_text.specs.Words.{word_names};

use rule_text::{ReadRuleError, word_names};
use scenario_text::{ProgramText, Scenario};
use std::alloc::{AllocError, Global};

/// Returns the words of a rule.
fn rule_words(alloc: Global, text: &str) -> Result<Vec<String>, AllocError>
    ensures { IfOk result (λ words. map string_bytes words.items ≡ names_or_none (word_names text.now)) }
{
    match word_names(alloc, text.as_bytes()) {
        Ok(words) => Ok(words),
        Err(ReadRuleError::At { .. }) => Ok(Vec::new(alloc)),
        Err(ReadRuleError::Memory) => Err(AllocError),
    }
}

/// Returns the words of the memory by their places; none if the clock isn't a rule of the scenario.
pub fn state_words(alloc: Global, scenario: &Scenario) -> Result<Vec<String>, AllocError>
    ensures { IfOk result (λ words. map string_bytes words.items ≡ state_words scenario.now) }
{
    match &scenario.clock_text {
        Some(ProgramText::Rule(text)) => rule_words(alloc, text.as_str()),
        Some(ProgramText::Assembler(_)) | None => Ok(Vec::new(alloc)),
    }
}
