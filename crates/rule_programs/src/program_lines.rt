//! The program of a rule's text, with the line that made each instruction.
ghost use Rattle.std.specs.Prelude.{◌≡◌, map, slice_index, IfOk, IfErr};
ghost use Rattle.rule_nodes.specs.Ends.{sizes_of};
ghost use Rattle.rule_programs.specs.Programs.{IsProgramOfRule, IsProgramOfText, IsRefusalOfRule, IsRefusalOfText};
ghost use Rattle.rule_programs.specs.ProgramLines.{AreLinesOfRule, AreLinesOfText};

use crate::program::{RuleRefusal, WORD_BYTES};
use bpf_insn::Program;
use node_env::Shape;
use rule_nodes::{CompileError, ProgramWithOwners, compile_with_owners};
use rule_text::{ReadRuleError, Rule, read_rule, statement_lines};
use std::alloc::{AllocError, Global};

/// Returns the line of a statement, by its number.
fn line_of(lines: &[usize], statement: usize) -> usize
    ensures { result ≡ slice_index lines.now statement }
{
    if statement < lines.len() {
        lines[statement]
    } else {
        0
    }
}

/// Returns the line of each statement of a list.
fn lines_of_all(
    alloc: Global,
    lines: &[usize],
    statements: &[usize],
) -> Result<Vec<usize>, AllocError>
    ensures { IfOk result (λ all. all.items ≡ map (slice_index lines.now) statements.now) }
{
    statements
        .iter()
        .map(|statement| line_of(lines, *statement))
        .collect(alloc)
}

/// The program of a rule's text, and which line of the text made each of its instructions.
#[derive(Drop)]
pub struct ProgramWithLines {
    pub program: Program,
    /// The line for each instruction but the first and the last two: entry k is for slot k + 1.
    pub lines: Vec<usize>,
}

/// Returns the program of a rule with its lines, or why it has none.
fn rule_with_lines(
    alloc: Global,
    rule: &Rule,
    lines: &[usize],
    shape: Shape,
    faults: u32,
    modulus: u32,
) -> Result<Result<ProgramWithLines, RuleRefusal>, AllocError>
    ensures program { IfOk result (λ made. IfOk made (λ listed.
        IsProgramOfRule (sizes_of shape faults modulus) rule.now listed.program)) }
    ensures lines { IfOk result (λ made. IfOk made (λ listed.
        AreLinesOfRule (sizes_of shape faults modulus) rule.now lines.now listed.lines.items)) }
    ensures refused { IfOk result (λ made. IfErr made (IsRefusalOfRule (sizes_of shape faults modulus) rule.now)) }
{
    if rule.words > (shape.memory() / WORD_BYTES) as usize {
        return Ok(Err(RuleRefusal::NoRoom));
    }
    match compile_with_owners(alloc, &rule.statement, shape, faults, modulus) {
        Ok(ProgramWithOwners { program, owners }) => {
            let lines = lines_of_all(alloc, lines, &owners)?;
            Ok(Ok(ProgramWithLines { program, lines }))
        }
        Err(CompileError::NoRoom) => Ok(Err(RuleRefusal::NoRoom)),
        Err(CompileError::TooLong) => Ok(Err(RuleRefusal::TooLong)),
        Err(CompileError::Memory) => Err(AllocError),
    }
}

/// Returns the program of the rule that a text is, as `program_of_text` does, with the line of the text that made each
/// instruction: that of its statement. Otherwise returns why the text has no program.
pub fn program_with_lines(
    alloc: Global,
    text: &[u8],
    shape: Shape,
    faults: u32,
    modulus: u32,
) -> Result<Result<ProgramWithLines, RuleRefusal>, AllocError>
    ensures program { IfOk result (λ made. IfOk made (λ listed.
        IsProgramOfText (sizes_of shape faults modulus) text.now listed.program)) }
    ensures lines { IfOk result (λ made. IfOk made (λ listed.
        AreLinesOfText (sizes_of shape faults modulus) text.now listed.lines.items)) }
    ensures refused { IfOk result (λ made. IfErr made (IsRefusalOfText (sizes_of shape faults modulus) text.now)) }
{
    let lines = statement_lines(alloc, text)?;
    match read_rule(alloc, text) {
        Ok(rule) => rule_with_lines(alloc, &rule, &lines, shape, faults, modulus),
        Err(ReadRuleError::Memory) => Err(AllocError),
        Err(
            ReadRuleError::At {
                error,
                line,
                column,
            },
        ) => Ok(Err(RuleRefusal::Text {
            error,
            line,
            column,
        })),
    }
}
