//! `compile`: the image of a rule, its listing, or the rule in C.
ghost use Rattle.std.specs.Prelude.{◌≡◌, IfOk, IfErr};
ghost use Rattle.program_commands.specs.Compile.{Compiles, compiled_ending, compiled_text};
ghost use Rattle.command_answers.specs.Faults.{IsFaultOfText, IsOutOfMemory};
ghost use Rattle.command_answers.specs.inner.Responses.{IsNoted, IsResponse};
ghost use Rattle.requests.specs.Shapes.{asked_extent};
ghost use Rattle.requests.specs.declared.request.CompiledForm.TheVariants.{Image, Listing, C};

use crate::program::refuse_too_long;
use bpf_insn::encode;
use clock_nodes::ClockRule;
use command_answers::{Fault, Rejection, Response, Uncompiled, rejected};
use node_env::Shape;
use requests::{CompileOptions, CompiledForm};
use rule_c::rule_in_c;
use rule_listing::list_rule;
use rule_programs::{
    ProgramWithLines, RuleRefusal, WORD_BYTES, program_of_text, program_with_lines,
};
use rule_syntax::Sizes;
use rule_text::{ReadRuleError, read_rule, statement_lines};
use std::alloc::Global;

/// Returns the image of the rule that a text is, its listing, or the rule in C.
pub fn compile(alloc: Global, options: CompileOptions, text: &[u8]) -> Result<Response, Fault>
    ensures response { IfOk result (IsResponse (Compiles options text.now) compiled_text compiled_ending) }
    ensures noted { IfOk result IsNoted }
    ensures fault { IfErr result (IsFaultOfText text.now) }
{
    match compiled(alloc, options, text)? {
        Ok(bytes) => Ok(Response::done(bytes)),
        Err(why) => rejected(alloc, &Rejection::Rule { why, options }, text),
    }
}

/// Returns the image of the rule that a text is, its listing, or the rule in C, or why there is none. A text that is too
/// long is a fault of reading.
fn compiled(
    alloc: Global,
    options: CompileOptions,
    text: &[u8],
) -> Result<Result<Vec<u8>, Uncompiled>, Fault>
    ensures compiled { IfOk result (Compiles options text.now) }
    ensures fault { IfErr result (IsFaultOfText text.now) }
{
    refuse_too_long(text)?;
    let Some(shape) = Shape::of(options.shape.nodes, options.shape.memory) else {
        return Ok(Err(Uncompiled::Shape));
    };
    if ClockRule::of(options.shape.nodes, options.faults, options.modulus).is_none() {
        return Ok(Err(Uncompiled::Sizes));
    }
    match options.form {
        CompiledForm::Image => image(alloc, options, shape, text),
        CompiledForm::Listing => listed(alloc, options, shape, text),
        CompiledForm::C => in_c(alloc, options, shape, text),
    }
}

/// Returns the image of the rule that a text is, or why there is no program.
fn image(
    alloc: Global,
    options: CompileOptions,
    shape: Shape,
    text: &[u8],
) -> Result<Result<Vec<u8>, Uncompiled>, Fault>
    requires form { options.form ≡ Image }
    requires shape { shape ≡ asked_extent options.shape }
    ensures compiled { IfOk result (Compiles options text.now) }
    ensures fault { IfErr result IsOutOfMemory }
{
    match program_of_text(alloc, text, shape, options.faults, options.modulus) {
        Ok(Ok(program)) => Ok(Ok(encode(alloc, &program).map_err(|_| Fault::Memory)?)),
        Ok(Err(refusal)) => Ok(Err(Uncompiled::Rule(refusal))),
        Err(_) => Err(Fault::Memory),
    }
}

/// Returns the listing of the program of the rule that a text is, or why there is no program.
fn listed(
    alloc: Global,
    options: CompileOptions,
    shape: Shape,
    text: &[u8],
) -> Result<Result<Vec<u8>, Uncompiled>, Fault>
    requires form { options.form ≡ Listing }
    requires shape { shape ≡ asked_extent options.shape }
    ensures compiled { IfOk result (Compiles options text.now) }
    ensures fault { IfErr result IsOutOfMemory }
{
    match program_with_lines(alloc, text, shape, options.faults, options.modulus) {
        Ok(Ok(ProgramWithLines { program, lines })) => {
            let listing = list_rule(alloc, text, &lines, &program).map_err(|_| Fault::Memory)?;
            Ok(Ok(listing))
        }
        Ok(Err(refusal)) => Ok(Err(Uncompiled::Rule(refusal))),
        Err(_) => Err(Fault::Memory),
    }
}

/// Returns the rule that a text is as a C function, or why the text is no rule of nodes with such a memory.
fn in_c(
    alloc: Global,
    options: CompileOptions,
    shape: Shape,
    text: &[u8],
) -> Result<Result<Vec<u8>, Uncompiled>, Fault>
    requires form { options.form ≡ C }
    requires shape { shape ≡ asked_extent options.shape }
    ensures compiled { IfOk result (Compiles options text.now) }
    ensures fault { IfErr result IsOutOfMemory }
{
    let rule = match read_rule(alloc, text) {
        Ok(rule) => rule,
        Err(ReadRuleError::Memory) => return Err(Fault::Memory),
        Err(
            ReadRuleError::At {
                error,
                line,
                column,
            },
        ) => {
            let refusal = RuleRefusal::Text {
                error,
                line,
                column,
            };
            return Ok(Err(Uncompiled::Rule(refusal)));
        }
    };
    if rule.words > (shape.memory() / WORD_BYTES) as usize {
        return Ok(Err(Uncompiled::Rule(RuleRefusal::NoRoom)));
    }
    let lines = statement_lines(alloc, text).map_err(|_| Fault::Memory)?;
    let sizes = Sizes {
        nodes: shape.nodes(),
        faults: options.faults,
        modulus: options.modulus,
        memory: shape.memory(),
    };
    let function = rule_in_c(alloc, text, &lines, &rule.statement, sizes);
    Ok(Ok(function.map_err(|_| Fault::Memory)?.into_bytes()))
}
