//! `dis --node`: the text of the program that a node runs in a pulse of a scenario.
ghost use Rattle.std.specs.Prelude.{◌≡◌, IfErr, IfOk, List, Option, codes, ℕ};
ghost use Rattle.scenario_text.specs.Texts.{ReadsText};
ghost use Rattle.scenario_text.specs.Views.{extent_of, frame_of};
ghost use Rattle.command_answers.specs.Faults.{IsOutOfMemory};
ghost use Rattle.run_commands.specs.NodeProgram.{IsNodeProgramText};
ghost use Rattle.run_commands.specs.NodeRule.{IsProgramText, IsRuleOf, sizes_for};
ghost use Rattle.run_commands.specs.NodeText.{IsNodeText, node_output, node_text_ending};
ghost use Rattle.command_answers.specs.inner.Responses.{IsNoted, IsResponse};

use crate::node_rule::{rule_listed, rule_of};
use crate::node_text::{NodeText, input_at, node_response};
use bpf_verify::VerifiedProgram;
use command_answers::{Fault, Response};
use program_commands::dis::text_of;
use requests::NodeProgramOptions;
use scenario_text::Scenario;
use std::alloc::{AllocError, Global};
use std::sync::Wait;
use std::thread::Threads;

/// Returns the canonical text of the program that a node runs in a pulse of a scenario that was read, or its listing, or
/// the line that refuses to.
pub fn node_program<T: Threads + Wait + Sync>(
    rt: &T,
    alloc: Global,
    options: NodeProgramOptions,
    scenario: &Scenario,
) -> Result<Response, Fault>
    requires reads { (text : List ℕ) × ReadsText text scenario.now }
    ensures response { IfOk result
        (IsResponse (IsNodeText (IsNodeProgramText options scenario.now) options.place scenario.now)
        (node_output (codes "program")) node_text_ending) }
    ensures noted { IfOk result IsNoted }
    ensures fault { IfErr result IsOutOfMemory }
{
    let text = text_in(rt, alloc, options, scenario)?;
    node_response(alloc, "program", options.place, scenario, text)
}

/// Returns what a scenario has of the program.
fn text_in<T: Threads + Wait + Sync>(
    rt: &T,
    alloc: Global,
    options: NodeProgramOptions,
    scenario: &Scenario,
) -> Result<NodeText, Fault>
    requires reads { (text : List ℕ) × ReadsText text scenario.now }
    ensures told { IfOk result (IsNodeText (IsNodeProgramText options scenario.now) options.place scenario.now) }
    ensures fault { IfErr result IsOutOfMemory }
{
    let found = input_at(rt, alloc, options.place, scenario)?;
    match found {
        Ok(input) => match program_text(alloc, options.list, scenario, &input.program) {
            Ok(text) => Ok(NodeText::Lines(text)),
            Err(_) => Err(Fault::Memory),
        },
        Err(absent) => Ok(NodeText::Absent(absent)),
    }
}

/// Returns the text of a program, or its listing: of a rule's program below the lines of the rule.
fn program_text(
    alloc: Global,
    list: bool,
    scenario: &Scenario,
    program: &VerifiedProgram,
) -> Result<Vec<u8>, AllocError>
    requires reads { (text : List ℕ) × ReadsText text scenario.now }
    requires shape { program.now.shape ≡ extent_of (frame_of scenario.now) }
    ensures { IfOk result (λ told. (rule : Option (List ℕ)) × IsRuleOf scenario.now program.now.program rule
        × IsProgramText (sizes_for scenario.now) program.now.program rule list told.items) }
{
    let shape = program.shape();
    let program = program.program();
    match rule_of(alloc, scenario, shape, program)? {
        None => text_of(alloc, list, program),
        Some(text) => {
            if list {
                rule_listed(alloc, scenario, shape, program, text)
            } else {
                text_of(alloc, false, program)
            }
        }
    }
}
