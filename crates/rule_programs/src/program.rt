//! From a text to the program of its rule.
ghost use Rattle.std.specs.Prelude.{List, IfOk, IfErr};
ghost use Rattle.bpf_insn.specs.declared.forms.Insn.{Insn};
ghost use Rattle.bpf_verify.specs.Typable.{Typable};
ghost use Rattle.rule_nodes.specs.Ends.{sizes_of};
ghost use Rattle.rule_programs.specs.Programs.{IsProgramOfText, IsProgramOfRule, IsRefusalOfText, IsRefusalOfRule};

use bpf_insn::Program;
use node_env::Shape;
use rule_nodes::{CompileError, compile_rule};
use rule_text::{ReadRuleError, Rule, RuleError, read_rule};
use std::alloc::{AllocError, Global};

/// The bytes of a word of the memory.
pub const WORD_BYTES: u32 = 4;

/// Why a text has no program.
#[derive(Clone, Copy, Debug, PartialEq, Eq)]
pub enum RuleRefusal {
    /// The text is no rule: its first error. Lines and columns count from 1.
    Text {
        error: RuleError,
        line: usize,
        column: usize,
    },
    /// The rule has more words than the memory, or more numbers in use at once than there are places.
    NoRoom,
    /// The program would have too many instructions.
    TooLong,
}

/// Returns the program of a rule, or why there is none.
fn program_of_rule(
    alloc: Global,
    rule: &Rule,
    shape: Shape,
    faults: u32,
    modulus: u32,
) -> Result<Result<Program, RuleRefusal>, AllocError>
    ensures program { IfOk result (λ made. IfOk made (IsProgramOfRule (sizes_of shape faults modulus) rule.now)) }
    ensures typable { IfOk result (λ made. IfOk made (λ program. Typable program shape)) }
    ensures refused { IfOk result (λ made. IfErr made (IsRefusalOfRule (sizes_of shape faults modulus) rule.now)) }
{
    if rule.words > (shape.memory() / WORD_BYTES) as usize {
        return Ok(Err(RuleRefusal::NoRoom));
    }
    match compile_rule(alloc, &rule.statement, shape, faults, modulus) {
        Ok(program) => Ok(Ok(program)),
        Err(CompileError::NoRoom) => Ok(Err(RuleRefusal::NoRoom)),
        Err(CompileError::TooLong) => Ok(Err(RuleRefusal::TooLong)),
        Err(CompileError::Memory) => Err(AllocError),
    }
}

/// Returns the program of the rule that a text is, for the nodes and the memory of a shape, or why there is none.
pub fn program_of_text(
    alloc: Global,
    text: &[u8],
    shape: Shape,
    faults: u32,
    modulus: u32,
) -> Result<Result<Program, RuleRefusal>, AllocError>
    ensures program { IfOk result (λ made. IfOk made (IsProgramOfText (sizes_of shape faults modulus) text.now)) }
    ensures typable { IfOk result (λ made. IfOk made (λ program. Typable program shape)) }
    ensures refused { IfOk result (λ made. IfErr made (IsRefusalOfText (sizes_of shape faults modulus) text.now)) }
    ensures none { IfOk result (λ made. IfErr made (λ _. (program : List Insn) →
        IsProgramOfText (sizes_of shape faults modulus) text.now program → ⊥)) }
{
    match read_rule(alloc, text) {
        Ok(rule) => program_of_rule(alloc, &rule, shape, faults, modulus),
        Err(ReadRuleError::Memory) => Err(AllocError),
        Err(
            ReadRuleError::At {
                error,
                line,
                column,
            },
        ) => Ok(Err(RuleRefusal::Text {
            error,
            line,
            column,
        })),
    }
}
