//! The lines of a node's run in a pulse.
ghost use Rattle.std.specs.Prelude.{◌≡◌, ◌++◌, IfOk, List, OnOk, length, string_bytes, ℕ};
ghost use Rattle.bpf_machine.specs.Run.{CompleteRun, End, RunAnswers};
ghost use Rattle.bpf_verify.specs.Accepted.{IsVerified};
ghost use Rattle.bench_scenario.specs.Inputs.{FitsInput, input_setting};
ghost use Rattle.run_trace.specs.Lines.{trace_text};
ghost use Rattle.run_trace.specs.Steps.{steps_of};
ghost use Rattle.scenario_text.specs.Texts.{ReadsText};
ghost use Rattle.scenario_text.specs.Views.{extent_of, frame_of};
ghost use Rattle.run_commands.specs.TracedRun.{AreRunLines, end_lines, input_lines, place_lines};
ghost use Rattle.run_commands.specs.inner.TracedRun.{AreLinesOfSteps, end_in};

use crate::node_rule::{rule_lines, rule_of};
use bench_scenario::NodeInput;
use bpf_insn::Program;
use bpf_machine::{Outcome, one_run};
use bpf_run::laws::runs_end;
use bpf_verify::VerifiedProgram;
use command_answers::{LeftByRun, add_left, add_mail};
use node_env::{Env, Outbox};
use requests::NodeInPulse;
use run_trace::{ListedRun, RuleCode, listed_trace, more_fuel_tells_no_more, trace};
use scenario_text::Scenario;
use std::alloc::{AllocError, Global};
use std::fmt::Write as _;
use stream_io::Tracked;

/// How a node's run ended, and what it left.
#[derive(Drop)]
pub(crate) struct RunEnd {
    pub r0: u64,
    pub steps: u64,
    pub left: LeftByRun,
}

/// A node's run: how it ended, and the lines of its steps.
#[derive(Drop)]
struct ToldRun {
    end: RunEnd,
    lines: Vec<u8>,
}

/// Returns the lines of a node's run in a pulse of the scenario.
pub(crate) fn lines_of(
    alloc: Global,
    options: NodeInPulse,
    scenario: &Scenario,
    input: NodeInput,
) -> Result<Vec<u8>, AllocError>
    requires reads { (text : List ℕ) × ReadsText text scenario.now }
    requires shape { input.program.shape ≡ extent_of (frame_of scenario.now) }
    requires fits { FitsInput input.program.shape options.node input }
    ensures { IfOk result (λ lines. (end : End)
        × CompleteRun input.program.program
        (input_setting input.program.shape options.node input) input.memory.items end
        × AreRunLines scenario.now input.program.shape options.pulse options.node input end lines.items) }
{
    let text = input_text(alloc, options, &input)?;
    let mut lines = Vec::from_slice(alloc, text.as_bytes())?;
    let NodeInput {
        program,
        memory,
        heard,
        coin,
    } = input;
    let env = Env::new(program.shape(), options.node, heard, coin);
    let told = told_run(alloc, scenario, &program, &env, memory)?;
    lines.extend_from_slice(&told.lines)?;
    add_end(alloc, &mut lines, &told.end)?;
    Ok(lines)
}

/// Returns the lines of what a node runs in a pulse.
fn input_text(alloc: Global, options: NodeInPulse, input: &NodeInput) -> Result<String, AllocError>
    ensures { IfOk result (λ text. string_bytes text ≡ input_lines options.pulse options.node input.now) }
{
    let mut text = place_text(alloc, options, &input.memory)?;
    text.push_str("mail ")?;
    add_mail(&mut text, &input.heard)?;
    let coin = input.coin;
    write!(text, "\ncoin {coin}\n")?;
    Ok(text)
}

/// Returns the pulse, the node and its memory.
fn place_text(alloc: Global, options: NodeInPulse, memory: &[u8]) -> Result<String, AllocError>
    ensures { IfOk result (λ text. string_bytes text ≡ place_lines options.pulse options.node memory.now) }
{
    let NodeInPulse { pulse, node } = options;
    let memory = hex::encode(alloc, memory)?;
    format!(in alloc; "pulse {pulse} node {node}\nmemory {memory}\n")
}

/// Runs a node's program. As it was accepted, it ends within its budget.
fn told_run(
    alloc: Global,
    scenario: &Scenario,
    program: &VerifiedProgram,
    env: &Env,
    memory: Vec<u8>,
) -> Result<ToldRun, AllocError>
    requires reads { (text : List ℕ) × ReadsText text scenario.now }
    requires own { program.now.shape ≡ env.now.shape }
    requires shape { program.now.shape ≡ extent_of (frame_of scenario.now) }
    requires memory { length memory.items ≡ env.now.shape.memory }
    ensures complete { IfOk result (λ told. CompleteRun program.now.program env.now memory.items (end_in told.end)) }
    ensures nodes { IfOk result (λ told. told.end.left.outbox.nodes ≡ env.now.shape.nodes) }
    ensures lines { IfOk result (λ told. AreLinesOfSteps scenario.now program.now.program env.now memory.items
        told.end.steps told.lines.items) }
{
    let mut memory = memory;
    let mut outbox = Outbox::new(alloc, env.shape())?;
    let ran = step_lines(alloc, scenario, program, env, &mut memory, &mut outbox)?;
    runs_end(); // brings that the run of an accepted program ends within its budget
    one_run(); // brings that it has no other end
    more_fuel_tells_no_more(); // brings that these are the lines of its steps
    match ran.outcome {
        Outcome::Ended { r0, steps } => {
            let left = LeftByRun { memory, outbox };
            let end = RunEnd { r0, steps, left };
            let lines = ran.listing;
            Ok(ToldRun { end, lines })
        }
        Outcome::Trap { .. } | Outcome::OutOfFuel => unreachable!(),
    }
}

/// Runs a program with its budget, and returns the lines of its steps: of a rule's program below the lines of the rule.
fn step_lines(
    alloc: Global,
    scenario: &Scenario,
    program: &VerifiedProgram,
    env: &Env,
    memory: &mut [u8],
    outbox: &mut Outbox,
) -> Result<ListedRun, AllocError>
    requires reads { (text : List ℕ) × ReadsText text scenario.now }
    requires shape { program.now.shape ≡ extent_of (frame_of scenario.now) }
    requires memory { length memory.old ≡ env.now.shape.memory }
    requires nodes { outbox.old.nodes ≡ env.now.shape.nodes }
    ensures run { IfOk result (λ ran. RunAnswers program.now.program env.now memory.old program.now.budget memory.new
        outbox.new.sent ran.outcome) }
    ensures nodes { outbox.new.nodes ≡ outbox.old.nodes }
    ensures lines { IfOk result (λ ran. AreLinesOfSteps scenario.now program.now.program env.now memory.old
        program.now.budget ran.listing.items) }
    ensures accepted { IsVerified program.now }
{
    let fuel = u64::from(program.budget());
    let shape = program.shape();
    let program = program.program();
    match rule_of(alloc, scenario, shape, program)? {
        None => plain_lines(alloc, program, env, memory, outbox, fuel),
        Some(text) => {
            let lines = rule_lines(alloc, scenario, shape, program, text)?;
            let code = RuleCode {
                program,
                text,
                lines: &lines,
            };
            listed_trace(alloc, &code, env, memory, outbox, fuel)
        }
    }
}

/// Runs a program, and returns the lines of its steps, and nothing else.
fn plain_lines(
    alloc: Global,
    program: &Program,
    env: &Env,
    memory: &mut [u8],
    outbox: &mut Outbox,
    fuel: u64,
) -> Result<ListedRun, AllocError>
    requires memory { length memory.old ≡ env.now.shape.memory }
    requires nodes { outbox.old.nodes ≡ env.now.shape.nodes }
    ensures run { IfOk result (λ ran. RunAnswers program.now env.now memory.old fuel memory.new outbox.new.sent
        ran.outcome) }
    ensures nodes { outbox.new.nodes ≡ outbox.old.nodes }
    ensures lines { IfOk result (λ ran. ran.listing.items
        ≡ trace_text program.now (steps_of program.now env.now memory.old fuel)) }
{
    let mut listing = Tracked::of(Vec::new(alloc));
    match trace(alloc, program, env, memory, outbox, fuel, &mut listing) {
        Ok(traced) => Ok(ListedRun {
            outcome: traced.outcome,
            listing: listing.stream,
        }),
        Err(_) => Err(AllocError),
    }
}

/// Adds the lines of how a run ended.
fn add_end(alloc: Global, lines: &mut Vec<u8>, end: &RunEnd) -> Result<(), AllocError>
    ensures { OnOk result (lines.new.items ≡ lines.old.items
        ++ end_lines end.now.left.outbox.nodes (end_in end.now)) }
{
    let text = end_text(alloc, end)?;
    lines.extend_from_slice(text.as_bytes())
}

/// Returns the lines of how a run ended.
fn end_text(alloc: Global, end: &RunEnd) -> Result<String, AllocError>
    ensures { IfOk result (λ text. string_bytes text ≡ end_lines end.now.left.outbox.nodes (end_in end.now)) }
{
    let r0 = end.r0;
    let steps = end.steps;
    let mut text = format!(in alloc; "r0 {r0} steps {steps}\n")?;
    add_left(alloc, &mut text, &end.left)?;
    Ok(text)
}
