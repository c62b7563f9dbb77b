//! `run --trace`: a node's run in a pulse of a scenario.
ghost use Rattle.std.specs.Prelude.{IfErr, IfOk, List, codes, ℕ};
ghost use Rattle.scenario_text.specs.Texts.{ReadsText};
ghost use Rattle.command_answers.specs.Faults.{IsOutOfMemory};
ghost use Rattle.run_commands.specs.NodeText.{IsNodeText, node_output, node_text_ending};
ghost use Rattle.run_commands.specs.TracedRun.{IsTracedRun};
ghost use Rattle.command_answers.specs.inner.Responses.{IsNoted, IsResponse};

use crate::node_lines::lines_of;
use crate::node_text::{NodeText, input_at, node_response};
use command_answers::{Fault, Response};
use requests::NodeInPulse;
use scenario_text::Scenario;
use std::alloc::Global;
use std::sync::Wait;
use std::thread::Threads;

/// Returns the lines of a node's run in a pulse of a scenario that was read, or the line that refuses to.
pub fn traced_run<T: Threads + Wait + Sync>(
    rt: &T,
    alloc: Global,
    place: NodeInPulse,
    scenario: &Scenario,
) -> Result<Response, Fault>
    requires reads { (text : List ℕ) × ReadsText text scenario.now }
    ensures response { IfOk result (IsResponse (IsNodeText (IsTracedRun place scenario.now) place scenario.now)
        (node_output (codes "trace")) node_text_ending) }
    ensures noted { IfOk result IsNoted }
    ensures fault { IfErr result IsOutOfMemory }
{
    let trace = trace_in(rt, alloc, place, scenario)?;
    node_response(alloc, "trace", place, scenario, trace)
}

/// Returns what a scenario has of the run.
fn trace_in<T: Threads + Wait + Sync>(
    rt: &T,
    alloc: Global,
    place: NodeInPulse,
    scenario: &Scenario,
) -> Result<NodeText, Fault>
    requires reads { (text : List ℕ) × ReadsText text scenario.now }
    ensures told { IfOk result (IsNodeText (IsTracedRun place scenario.now) place scenario.now) }
    ensures fault { IfErr result IsOutOfMemory }
{
    let found = input_at(rt, alloc, place, scenario)?;
    match found {
        Ok(input) => match lines_of(alloc, place, scenario, input) {
            Ok(lines) => Ok(NodeText::Lines(lines)),
            Err(_) => Err(Fault::Memory),
        },
        Err(absent) => Ok(NodeText::Absent(absent)),
    }
}
