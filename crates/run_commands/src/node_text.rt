//! What a scenario has of a node in a pulse.
ghost use Rattle.std.specs.Prelude.{◌≡◌, IfErr, IfOk, List, MatchResult, string_bytes, ℕ};
ghost use Rattle.bench_scenario.specs.Inputs.{FitsInput, RunsIn};
ghost use Rattle.bench_scenario.specs.Runs.{bench_of};
ghost use Rattle.scenario_text.specs.Texts.{ReadsText};
ghost use Rattle.command_answers.specs.Faults.{IsOutOfMemory};
ghost use Rattle.run_commands.specs.NodeText.{IsAbsent, absent_text, node_output, node_text_ending};
ghost use Rattle.command_answers.specs.inner.Responses.{IsNoted};

use bench_scenario::{InputFault, NodeInput, node_input};
use command_answers::{Ending, Fault, Response, place_note};
use requests::NodeInPulse;
use scenario_text::Scenario;
use std::alloc::{AllocError, Global};
use std::sync::Wait;
use std::thread::Threads;

/// Why a scenario has nothing of a node in a pulse.
#[derive(Clone, Copy, Debug, PartialEq, Eq)]
pub enum Absent {
    NoPulse,
    NoNode,
    /// The node has no program in the pulse.
    NoProgram,
}

/// What is told of a node in a pulse, or why there is nothing.
#[derive(Drop)]
pub enum NodeText {
    Absent(Absent),
    Lines(Vec<u8>),
}

/// Returns what the node runs in the pulse, or why it runs nothing.
pub(crate) fn input_at<T: Threads + Wait + Sync>(
    rt: &T,
    alloc: Global,
    place: NodeInPulse,
    scenario: &Scenario,
) -> Result<Result<NodeInput, Absent>, Fault>
    requires reads { (text : List ℕ) × ReadsText text scenario.now }
    ensures input { IfOk result (λ found. MatchResult found (RunsIn scenario.now place.pulse place.node)
        (IsAbsent place scenario.now)) }
    ensures fits { IfOk result (λ found. IfOk found (FitsInput (bench_of scenario.now).shape place.node)) }
    ensures fault { IfErr result IsOutOfMemory }
{
    match node_input(rt, alloc, scenario, place.pulse, place.node) {
        Ok(input) => Ok(Ok(input)),
        Err(InputFault::NoPulse) => Ok(Err(Absent::NoPulse)),
        Err(InputFault::NoNode) => Ok(Err(Absent::NoNode)),
        Err(InputFault::NoProgram) => Ok(Err(Absent::NoProgram)),
        Err(InputFault::Memory) => Err(Fault::Memory),
    }
}

/// Returns the lines, or the line of the refusal, which has this word, with the note on it.
pub(crate) fn node_response(
    alloc: Global,
    word: &str,
    place: NodeInPulse,
    scenario: &Scenario,
    text: NodeText,
) -> Result<Response, Fault>
    ensures text { IfOk result (λ response. response.text.items ≡ node_output word.now text) }
    ensures ending { IfOk result (λ response. response.ending ≡ node_text_ending text) }
    ensures noted { IfOk result IsNoted }
    ensures fault { IfErr result IsOutOfMemory }
{
    match text {
        NodeText::Lines(lines) => Ok(Response::done(lines)),
        NodeText::Absent(absent) => {
            let line = absent_line(alloc, word, absent).map_err(|_| Fault::Memory)?;
            Ok(Response {
                text: line.into_bytes(),
                ending: Ending::Refused,
                note: place_note(alloc, place, scenario),
            })
        }
    }
}

fn absent_line(alloc: Global, word: &str, absent: Absent) -> Result<String, AllocError>
    ensures { IfOk result (λ line. string_bytes line ≡ absent_text word.now absent) }
{
    let name = absent.name();
    format!(in alloc; "refused {word} {name}\n")
}

impl Absent {
    ghost use Rattle.std.specs.Prelude.{◌≡◌};
    ghost use Rattle.run_commands.specs.NodeText.{reason_name};

    fn name(self) -> &'static str
        ensures { result.now ≡ reason_name self }
    {
        match self {
            Absent::NoPulse => "NoPulse",
            Absent::NoNode => "NoNode",
            Absent::NoProgram => "NoProgram",
        }
    }
}
