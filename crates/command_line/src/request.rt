//! What a command line asks for, as `clap` reads it.
ghost use Rattle.std.specs.Prelude.{◌≡◌, IfErr, IfOk, IfSome, MatchOption, codes, option_map, string_bytes};
ghost use Rattle.clap.specs.Matches.{found_of};
ghost use Rattle.command_line.specs.Requests.{Asks, AsksCompile, AsksCompiledForm, AsksDetail, AsksFile, AsksFormat, AsksReport};
ghost use Rattle.command_line.specs.Requests.{AsksProve, AsksRule, AsksRun, AsksShape, AsksSpan, AsksStress};
ghost use Rattle.command_line.specs.Requests.{AsksSweep, AsksWithFile, IsAskedWithFile, IsHelp, IsKeys};
ghost use Rattle.command_line.specs.Numbers.{IsNumeralOf};
ghost use Rattle.command_line.specs.Requests.{IsPlace};

use crate::exec_words::{CaseFault, exec_options};
use crate::explore_words::explore_options;
use crate::lists::{MailFault, number_in};
use crate::meant::command_note;
use crate::options::{flag, number, number_if_named};
use clap::error::ErrorKind;
use clap::{ArgMatches, Error};
use command_words::options::{
    ALL, CHECK, CLAIMS_FILE, CLOCK, EXPLAIN, EXPLORED_PROPERTIES, FAULTS, FROM, JSON, KEYS,
    LISTING, LOADERS, LOADS, MEMORY, MODULUS, NODE, NODES, ODDS, PROPERTIES_FILE, PULSES,
    RULE_FILE, RULE_IN_C, RULE_LISTING, STRESS_WORKERS, SWEEPERS, SWEPT_PROPERTIES, TEXT, TRACE,
    UNTIL, WORKERS,
};
use command_words::{Helps, command_line};
use requests::{
    ClaimedExploreOptions, ClaimedRunOptions, ClaimedSweepOptions, ClockOptions, ClockRule,
    CompileOptions, CompiledForm, Detail, ExplainOptions, ExploreOptions, KeySpan, LineFormat,
    LinesForm, LinesOptions, NodeInPulse, NodeProgramOptions, ProveOptions, PulseSpan, Question,
    Request, RunOptions, ScenarioRequest, ShapeOptions, StressOptions, SweepOptions,
};
use std::alloc::{AllocError, Global};
use std::convert::AsStr;
use std::fmt::{InlineText, Write};

/// Why a text names no node's run in a pulse.
const TRACE_REASON: &str =
    "--trace is PULSE:NODE, two numbers such as 3:0: the first pulse is 1, the first node 0";

/// Why a text names no node whose program is asked for.
const NODE_REASON: &str =
    "--node is PULSE:NODE, two numbers such as 3:0: the first pulse is 1, the first node 0";

/// What the words ask for, and the file that they name for it to read.
#[derive(Drop)]
pub struct Invocation {
    pub request: Request,
    pub file: Option<String>,
}

/// Why words ask for nothing.
#[derive(Debug, Drop)]
pub enum WordsFault {
    /// They are no command with its options. The text says why, and its last line ends.
    Rejected { text: String },
    Memory,
}

/// Why the values of options make no request.
pub(crate) enum OptionsFault {
    Reason(&'static str),
    Odds,
    Memory,
}

impl From<AllocError> for OptionsFault {
    fn from(_: AllocError) -> OptionsFault {
        OptionsFault::Memory
    }
}

impl From<CaseFault> for OptionsFault {
    fn from(fault: CaseFault) -> OptionsFault {
        match fault {
            CaseFault::Memory => OptionsFault::Memory,
            CaseFault::Id | CaseFault::Mail | CaseFault::Contents => {
                OptionsFault::Reason(fault.reason())
            }
        }
    }
}

impl From<MailFault> for OptionsFault {
    fn from(fault: MailFault) -> OptionsFault {
        match fault {
            MailFault::Memory => OptionsFault::Memory,
            MailFault::NotNumbers | MailFault::Falls | MailFault::TooMany => {
                OptionsFault::Reason(fault.reason())
            }
        }
    }
}

/// Returns what the words ask for, of which the first is the program's name.
pub fn parse_args<S: AsStr>(alloc: Global, words: &[S]) -> Result<Invocation, WordsFault>
    ensures asked { IfOk result IsAskedWithFile }
{
    match parse(alloc, words) {
        Ok(asked) => Ok(asked),
        Err(error) => said_by(alloc, &error, words.get(1)),
    }
}

fn parse<S: AsStr>(alloc: Global, words: &[S]) -> Result<Invocation, Error>
    ensures { IfOk result IsAskedWithFile }
{
    let helps = Helps::new(alloc)?;
    let mut command = command_line(alloc, &helps)?;
    let matches = command.try_get_matches_from_mut(words)?;
    let Some((name, options)) = matches.subcommand() else {
        return Err(command.error(ErrorKind::MissingSubcommand, "a command is needed")?);
    };
    match asked_of(alloc, name, options) {
        Ok(asked) => Ok(asked),
        Err(OptionsFault::Memory) => Err(Error::from(AllocError)),
        Err(OptionsFault::Reason(reason)) => {
            Err(command.error(ErrorKind::ValueValidation, reason)?)
        }
        Err(OptionsFault::Odds) => {
            let reason = odds_reason();
            Err(command.error(ErrorKind::ValueValidation, reason.as_str())?)
        }
    }
}

/// Returns why a text doesn't say of how many pulses the odds are asked.
fn odds_reason() -> InlineText<128> {
    InlineText::of(format_args!(
        "the odds are of COUNT pulses, or of FIRST..LAST: {} to {}, the first at most the last",
        ODDS.least, ODDS.most
    ))
}

/// Returns what the command of this name is asked for by its options, and the file that it reads.
fn asked_of(alloc: Global, name: &str, options: &ArgMatches<'_>) -> Result<Invocation, OptionsFault>
    ensures { IfOk result (AsksWithFile name.now (found_of options.now)) }
{
    let request = request_in(alloc, name, options)?;
    let file = file_in(alloc, name, options)?;
    Ok(Invocation { request, file })
}

/// Returns what the command of this name is asked for by its options.
fn request_in(alloc: Global, name: &str, options: &ArgMatches<'_>) -> Result<Request, OptionsFault>
    ensures { IfOk result (Asks name.now (found_of options.now)) }
{
    match name {
        "exec" => Ok(Request::Exec(exec_options(alloc, options)?)),
        "asm" => Ok(Request::Asm {
            list: flag(options, &LISTING),
        }),
        "compile" => Ok(Request::Compile(compile_options(options))),
        "dis" => dis_request(options),
        "verify" => Ok(verify_request(options)),
        "run" => run_request(alloc, options),
        "stress" => Ok(Request::Stress(stress_options(options))),
        "prove" => Ok(Request::Prove(prove_options(alloc, options)?)),
        "explore" => explore_request(alloc, options),
        "sweep" => sweep_request(alloc, options),
        _ => Err(OptionsFault::Reason("a command is needed")),
    }
}

/// Returns the file that is named, a dash being none. `stress` and `dis --clock` read nothing.
fn file_in(
    alloc: Global,
    name: &str,
    options: &ArgMatches<'_>,
) -> Result<Option<String>, AllocError>
    ensures { IfOk result (λ file. AsksFile name.now (found_of options.now) (option_map string_bytes file)) }
{
    if name == "stress" || name == "dis" && flag(options, &CLOCK) {
        return Ok(None);
    }
    match options.get_str("file") {
        None | Some("-") => Ok(None),
        Some(path) => Ok(Some(String::from_str(alloc, path)?)),
    }
}

pub(crate) fn shape_options(options: &ArgMatches<'_>) -> ShapeOptions
    ensures { AsksShape (found_of options.now) result }
{
    ShapeOptions {
        nodes: number(options, &NODES),
        memory: number(options, &MEMORY),
    }
}

/// Returns the texts of a rule and of claims about it. Both have to be there.
fn prove_options(alloc: Global, options: &ArgMatches<'_>) -> Result<ProveOptions, OptionsFault>
    ensures { IfOk result (AsksProve (found_of options.now)) }
{
    let Some(rule) = options.get_str(RULE_FILE.name) else {
        return Err(OptionsFault::Reason("--rule names no file of a rule"));
    };
    let Some(claims) = options.get_str(CLAIMS_FILE.name) else {
        return Err(OptionsFault::Reason("--claims names no file of claims"));
    };
    Ok(ProveOptions {
        rule: String::from_str(alloc, rule)?,
        claims: String::from_str(alloc, claims)?,
    })
}

/// Returns what is told of each slot, where that is asked for.
fn detail(options: &ArgMatches<'_>) -> Option<Detail>
    ensures { AsksDetail (found_of options.now) result }
{
    if !flag(options, &EXPLAIN) {
        None
    } else if flag(options, &ALL) {
        Some(Detail::All)
    } else {
        Some(Detail::Read)
    }
}

fn compile_options(options: &ArgMatches<'_>) -> CompileOptions
    ensures { AsksCompile (found_of options.now) result }
{
    CompileOptions {
        shape: shape_options(options),
        faults: number(options, &FAULTS),
        modulus: number(options, &MODULUS),
        form: compiled_form(options),
    }
}

/// Returns what is printed of a rule. The words have at most one of the two options.
fn compiled_form(options: &ArgMatches<'_>) -> CompiledForm
    ensures { AsksCompiledForm (found_of options.now) result }
{
    if flag(options, &RULE_LISTING) {
        CompiledForm::Listing
    } else if flag(options, &RULE_IN_C) {
        CompiledForm::C
    } else {
        CompiledForm::Image
    }
}

/// Returns the text of an image, or that of the clock of a rule.
fn dis_request(options: &ArgMatches<'_>) -> Result<Request, OptionsFault>
    ensures { IfOk result (Asks (codes "dis") (found_of options.now)) }
{
    let list = flag(options, &LISTING);
    if let Some(text) = options.get_str(NODE.name) {
        return match place_in(text) {
            Some(place) => Ok(Request::Scenario(ScenarioRequest::NodeProgram(NodeProgramOptions {
                place,
                list,
            }))),
            None => Err(OptionsFault::Reason(NODE_REASON)),
        };
    }
    if !flag(options, &CLOCK) {
        return Ok(Request::Dis { list });
    }
    if options.get_str("file").is_some() {
        return Err(OptionsFault::Reason("--clock reads no file"));
    }
    match rule_asked(options) {
        Some(rule) => Ok(Request::Clock(ClockOptions { rule, list })),
        None => Err(OptionsFault::Reason("--faults has to be below --nodes")),
    }
}

/// Returns the rule of a clock, if the numbers of its options make one.
fn rule_asked(options: &ArgMatches<'_>) -> Option<ClockRule>
    ensures { IfSome result (λ rule. AsksRule (found_of options.now) rule.nodes rule.faults rule.modulus) }
{
    let nodes = number(options, &NODES);
    let faults = number(options, &FAULTS);
    let modulus = number(options, &MODULUS);
    ClockRule::of(nodes, faults, modulus)
}

fn verify_request(options: &ArgMatches<'_>) -> Request
    ensures { Asks (codes "verify") (found_of options.now) result }
{
    let shape = shape_options(options);
    let text = flag(options, &TEXT);
    let detail = detail(options);
    if !text && detail.is_none() {
        return Request::Verify(shape);
    }
    Request::Explain(ExplainOptions {
        shape,
        text,
        detail,
    })
}

fn run_options(options: &ArgMatches<'_>) -> RunOptions
    ensures { AsksRun (found_of options.now) result }
{
    RunOptions {
        workers: number(options, &WORKERS),
        check: flag(options, &CHECK),
    }
}

/// Returns the pulse and the node of a text PULSE:NODE.
fn place_in(text: &str) -> Option<NodeInPulse>
    ensures { IfSome result (IsPlace text.now) }
{
    let (pulse, node) = text.split_once(':')?;
    Some(NodeInPulse {
        pulse: number_in(pulse)?,
        node: number_in(node)?,
    })
}

/// Returns a report, by properties where some are given, the run of a node in a pulse, or the lines of a span of pulses.
fn run_request(alloc: Global, options: &ArgMatches<'_>) -> Result<Request, OptionsFault>
    ensures { IfOk result (Asks (codes "run") (found_of options.now)) }
{
    if let Some(text) = options.get_str(TRACE.name) {
        return match place_in(text) {
            Some(options) => Ok(Request::Scenario(ScenarioRequest::TracedRun(options))),
            None => Err(OptionsFault::Reason(TRACE_REASON)),
        };
    }
    let run = run_options(options);
    if let Some(claims) = options.get_str(PROPERTIES_FILE.name) {
        let claims = String::from_str(alloc, claims)?;
        return Ok(Request::Scenario(ScenarioRequest::ClaimedRun(ClaimedRunOptions {
            run,
            json: flag(options, &JSON),
            claims,
        })));
    }
    let Some(format) = line_format(options) else {
        return Ok(Request::Scenario(ScenarioRequest::Run(run)));
    };
    let Some(span) = span_asked(options) else {
        return Err(OptionsFault::Reason("--from is past --until"));
    };
    let form = LinesForm { format, span };
    Ok(Request::Scenario(ScenarioRequest::Lines(LinesOptions { run, form })))
}

/// Returns the format of the lines that are told in place of a report.
fn line_format(options: &ArgMatches<'_>) -> Option<LineFormat>
    ensures { MatchOption result (AsksReport (found_of options.now)) (AsksFormat (found_of options.now)) }
{
    if flag(options, &JSON) {
        Some(LineFormat::Json)
    } else {
        None
    }
}

/// Returns the pulses whose lines are told, if there are any.
fn span_asked(options: &ArgMatches<'_>) -> Option<PulseSpan>
    ensures { IfSome result (AsksSpan (found_of options.now)) }
{
    let from = number(options, &FROM);
    let until = number(options, &UNTIL);
    PulseSpan::of(from, until)
}

fn stress_options(options: &ArgMatches<'_>) -> StressOptions
    ensures { AsksStress (found_of options.now) result }
{
    StressOptions {
        loaders: number(options, &LOADERS),
        loads: number(options, &LOADS),
        pulses: number(options, &PULSES),
        workers: number(options, &STRESS_WORKERS),
    }
}

/// Returns an exploration, by properties where some are given.
fn explore_request(alloc: Global, options: &ArgMatches<'_>) -> Result<Request, OptionsFault>
    ensures { IfOk result (Asks (codes "explore") (found_of options.now)) }
{
    let explore = explore_options(alloc, options)?;
    let Some(claims) = options.get_str(EXPLORED_PROPERTIES.name) else {
        return Ok(Request::Scenario(ScenarioRequest::Explore(explore)));
    };
    let claims = String::from_str(alloc, claims)?;
    let explore = ExploreOptions {
        question: Question::Stabilisation,
        ..explore
    };
    Ok(Request::Scenario(ScenarioRequest::ClaimedExplore(ClaimedExploreOptions {
        explore,
        claims,
    })))
}

/// Returns a sweep, by properties where some are given.
fn sweep_request(alloc: Global, options: &ArgMatches<'_>) -> Result<Request, OptionsFault>
    ensures { IfOk result (Asks (codes "sweep") (found_of options.now)) }
{
    let Some(sweep) = sweep_options(options) else {
        return Err(OptionsFault::Reason("the keys are FIRST..LAST, the first at most the last"));
    };
    let Some(claims) = options.get_str(SWEPT_PROPERTIES.name) else {
        return Ok(Request::Scenario(ScenarioRequest::Sweep(sweep)));
    };
    let claims = String::from_str(alloc, claims)?;
    Ok(Request::Scenario(ScenarioRequest::ClaimedSweep(ClaimedSweepOptions { sweep, claims })))
}

/// Returns the options of `sweep`, where the keys are two numbers in order.
fn sweep_options(options: &ArgMatches<'_>) -> Option<SweepOptions>
    ensures { IfSome result (AsksSweep (found_of options.now)) }
{
    Some(SweepOptions {
        keys: keys_in(options.get_str(KEYS.name)?)?,
        workers: number_if_named(options, &SWEEPERS),
    })
}

/// Returns the keys of a text FIRST..LAST, if there are any.
fn keys_in(text: &str) -> Option<KeySpan>
    ensures { IfSome result (IsKeys text.now) }
{
    let (first, last) = text.split_once("..")?;
    KeySpan::of(key_in(first)?, key_in(last)?)
}

/// Returns the key of a text, if it is one below 2 to the 64.
fn key_in(text: &str) -> Option<u64>
    ensures { IfSome result (IsNumeralOf 64 text.now) }
{
    text.parse().ok()
}

/// Returns what `clap` says in place of a request: the help, or why it refuses the words, of which `first` is the first.
fn said_by<S: AsStr>(
    alloc: Global,
    error: &Error,
    first: Option<&S>,
) -> Result<Invocation, WordsFault>
    ensures { IfOk result (λ asked. IsHelp asked.request × (asked.file ≡ None)) }
{
    if error.kind() == ErrorKind::OutOfMemory {
        return Err(WordsFault::Memory);
    }
    let text = text_of(alloc, error).map_err(|_| WordsFault::Memory)?;
    if error.use_stderr() {
        let text = noted(alloc, text, error.kind(), first).map_err(|_| WordsFault::Memory)?;
        Err(WordsFault::Rejected { text })
    } else {
        Ok(Invocation {
            request: Request::Help { text },
            file: None,
        })
    }
}

/// Returns the text of an error, and below it the note on a first word that is no command.
fn noted<S: AsStr>(
    alloc: Global,
    mut text: String,
    kind: ErrorKind,
    first: Option<&S>,
) -> Result<String, AllocError> {
    let note = match (kind, first) {
        (ErrorKind::InvalidSubcommand, Some(word)) => {
            command_note(alloc, word.as_str(), text.as_str().contains("tip:"))?
        }
        _ => None,
    };
    if let Some(note) = note {
        write!(text, "{note}")?;
    }
    Ok(text)
}

/// Returns the text of an error, whose last line ends.
fn text_of(alloc: Global, error: &Error) -> Result<String, AllocError> {
    let mut text = error.to_string(alloc)?;
    if !text.as_bytes().ends_with(b"\n") {
        text.push_str("\n")?;
    }
    Ok(text)
}
