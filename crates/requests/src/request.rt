//! What a command line asks for.
ghost use Rattle.std.specs.Prelude.{◌<◌};

use crate::case::Case;
use clock_nodes::ClockRule;
use explored::ExploreOptions;
use parameters::{Detail, KeySpan, LinesForm, StressOptions};

/// A command with its options, or the help that is asked for in its place.
#[derive(Debug, Drop)]
pub enum Request {
    Exec(ExecOptions),
    /// `asm`: the image of a text, or its listing.
    Asm { list: bool },
    /// `compile`: the image of a rule, its listing, or the rule in C.
    Compile(CompileOptions),
    /// `dis`: the text of an image, or its listing.
    Dis { list: bool },
    /// `dis --clock`: the text of the clock of a rule, or its listing.
    Clock(ClockOptions),
    Verify(ShapeOptions),
    /// `verify --text`, `verify --explain`.
    Explain(ExplainOptions),
    /// A command that reads a scenario.
    Scenario(ScenarioRequest),
    /// `prove`: the steps of claims about a rule, by certificates.
    Prove(ProveOptions),
    Stress(StressOptions),
    /// A text whose last line ends.
    Help { text: String },
}

/// A command that reads a scenario, with its options.
#[derive(Debug, Drop)]
pub enum ScenarioRequest {
    Run(RunOptions),
    /// `run --json`.
    Lines(LinesOptions),
    /// `run --claims`.
    ClaimedRun(ClaimedRunOptions),
    /// `run --trace`.
    TracedRun(NodeInPulse),
    /// `dis --node`.
    NodeProgram(NodeProgramOptions),
    Sweep(SweepOptions),
    /// `sweep --claims`.
    ClaimedSweep(ClaimedSweepOptions),
    Explore(ExploreOptions),
    /// `explore --claims`.
    ClaimedExplore(ClaimedExploreOptions),
}

/// The nodes and the memory that are asked for. They may make no shape.
#[derive(Clone, Copy, Debug, PartialEq, Eq)]
pub struct ShapeOptions {
    pub nodes: u32,
    /// The bytes of a node's memory.
    pub memory: u32,
}

/// What `compile` prints of a rule.
#[derive(Clone, Copy, Debug, PartialEq, Eq)]
pub enum CompiledForm {
    Image,
    Listing,
    /// A function in C.
    C,
}

/// The options of `compile`. They may make no shape and no rule of clocks.
#[derive(Clone, Copy, Debug, PartialEq, Eq)]
pub struct CompileOptions {
    pub shape: ShapeOptions,
    pub faults: u32,
    pub modulus: u32,
    pub form: CompiledForm,
}

/// The options of `dis --clock`.
#[derive(Clone, Copy, Debug, PartialEq, Eq)]
pub struct ClockOptions {
    pub rule: ClockRule,
    /// Whether a listing is asked for.
    pub list: bool,
}

/// The options of `verify` where a text is read, or more is told than the verdict.
#[derive(Clone, Copy, Debug, PartialEq, Eq)]
pub struct ExplainOptions {
    pub shape: ShapeOptions,
    /// Whether a text is read in place of an image.
    pub text: bool,
    /// What is told of each slot, where that is asked for.
    pub detail: Option<Detail>,
}

/// The options of `run`.
#[derive(Clone, Copy, Debug, PartialEq, Eq)]
pub struct RunOptions {
    /// On how many workers at most the tasks of a pulse are run. The report is the same for every number.
    pub workers: u32,
    /// Whether the status tells of a pulse that doesn't agree.
    pub check: bool,
}

/// The options of `run --json`.
#[derive(Clone, Copy, Debug, PartialEq, Eq)]
pub struct LinesOptions {
    pub run: RunOptions,
    pub form: LinesForm,
}

/// The options of `run --claims`.
#[derive(Debug, Drop)]
pub struct ClaimedRunOptions {
    pub run: RunOptions,
    /// Whether verdicts and answers are asked for as lines of JSON, without the report.
    pub json: bool,
    /// The text of the properties by which the run is judged.
    pub claims: String,
}

/// A node in a pulse. A scenario may have no such pulse or node.
#[derive(Clone, Copy, Debug, PartialEq, Eq)]
pub struct NodeInPulse {
    pub pulse: u32,
    pub node: u32,
}

/// The options of `dis --node`.
#[derive(Clone, Copy, Debug, PartialEq, Eq)]
pub struct NodeProgramOptions {
    pub place: NodeInPulse,
    /// Whether a listing is asked for.
    pub list: bool,
}

/// The options of `sweep`.
#[derive(Clone, Copy, Debug, PartialEq, Eq)]
pub struct SweepOptions {
    pub keys: KeySpan,
    /// How many workers run whole scenarios; as many as there are processors where none are named.
    pub workers: Option<u32>,
}

/// The options of `sweep --claims`.
#[derive(Debug, Drop)]
pub struct ClaimedSweepOptions {
    pub sweep: SweepOptions,
    /// The text of the properties whose violations are counted.
    pub claims: String,
}

/// The options of `explore --claims`.
#[derive(Debug, Drop)]
pub struct ClaimedExploreOptions {
    /// It asks about stabilisation, without odds, in lines of text or of JSON.
    pub explore: ExploreOptions,
    /// The text of the properties, each of which is proved or gets a counterexample.
    pub claims: String,
}

/// The options of `prove`: the texts of a rule and of claims about it.
#[derive(Debug, Drop)]
pub struct ProveOptions {
    pub rule: String,
    pub claims: String,
}

/// The options of `exec`.
#[derive(Debug, Drop)]
pub struct ExecOptions {
    pub shape: ShapeOptions,
    /// Whether a text is read in place of an image.
    pub text: bool,
    /// The most steps of the run.
    pub fuel: u64,
    pub case: Case,
    /// Whether memory and what was sent are told too.
    pub show: bool,
    /// Whether each step is told first.
    pub trace: bool,
    ghost node: { case.id < shape.nodes },
}
