//! A scenario.
ghost use Rattle.clock_nodes.specs.Rule.{IsRule};
ghost use Rattle.node_env.specs.Env.{IsExtent};

use crate::limits::CLOCK_VERSION;
use crate::noise::any_noise;
use bpf_verify::VerifiedProgram;
use clock_nodes::ClockRule;
use node_env::Shape;

/// What the coins are before entries replace some: all 0, all 1, or drawn by the key.
#[derive(Clone, Copy, Debug, PartialEq, Eq)]
pub enum Coins {
    Zeros,
    Ones,
    Chacha,
}

/// What a load's program is made of: a listing (docs/CLOCK.md, "The programs"), or a text of the assembler or of a rule.
/// The program of noise sends nothing; others, whose messages are drawn, are loaded for it in each pulse.
#[derive(Clone, Copy, Debug, PartialEq, Eq)]
pub enum Kind {
    Clock,
    Say,
    Echo,
    Asm,
    Rule,
    Noise,
}

impl Kind {
    ghost use Rattle.std.specs.Prelude.{◌≡◌};
    ghost use Rattle.scenario_text.specs.Noise.{is_noise};

    /// Returns true for noise.
    pub fn is_noise(self) -> bool
        ensures { result ≡ is_noise self }
    {
        match self {
            Kind::Clock | Kind::Say | Kind::Echo | Kind::Asm | Kind::Rule => false,
            Kind::Noise => true,
        }
    }
}

/// The key that holds the text of a scenario's clock, if its version and its other keys leave room for one.
#[derive(Clone, Copy, Debug, PartialEq, Eq)]
pub enum ClockKey {
    Absent,
    Clock,
    Rule,
}

/// The text of a program: of the assembler, or of a rule.
#[derive(Debug, Drop)]
pub enum ProgramText {
    Assembler(String),
    Rule(String),
}

/// The numbers of the top keys, on which the ranges of the entries rest. `zero_agrees` is true if a clock of 0 of the
/// scenario's own clock agrees with every clock, as that of the built-in clock does.
#[derive(Clone, Copy, Debug, PartialEq, Eq)]
pub struct Frame {
    pub version: u32,
    pub nodes: u32,
    pub faults: u32,
    pub modulus: u32,
    pub memory: u32,
    pub pulses: u32,
    pub zero_agrees: bool,
}

/// One `[[load]]`: before this pulse the program, of the kind that its table names, comes into each of the nodes.
/// `text` is there exactly if the program is that of a text.
#[derive(Drop)]
pub struct Load {
    pub pulse: u32,
    pub nodes: Vec<u32>,
    pub kind: Kind,
    pub text: Option<String>,
    pub program: VerifiedProgram,
}

/// One `[[unload]]`: before this pulse the node's program goes.
#[derive(Clone, Copy, Debug, PartialEq, Eq)]
pub struct Unload {
    pub pulse: u32,
    pub node: u32,
}

/// One `[[corrupt]]`: before this pulse the node's memory becomes the image.
#[derive(Debug, Drop)]
pub struct Corrupt {
    pub pulse: u32,
    pub node: u32,
    pub image: Vec<u8>,
}

/// One `[[coin]]`: in this pulse the node has this coin.
#[derive(Clone, Copy, Debug, PartialEq, Eq)]
pub struct CoinEntry {
    pub pulse: u32,
    pub node: u32,
    pub value: u32,
}

/// A scenario: docs/SCENARIOS.md has each key. `clock_text` is the text under `clock` or `rule`. `clock` is there if
/// its program isn't that of docs/CLOCK.md. `corruptions` are those of `corrupt`, `entries` those of `coin`.
#[derive(Drop)]
pub struct Scenario {
    pub version: u32,
    pub nodes: u32,
    pub faults: u32,
    pub modulus: u32,
    pub memory: u32,
    pub pulses: u32,
    pub zero_agrees: bool,
    pub coins: Coins,
    pub key: Option<u64>,
    pub clock_text: Option<ProgramText>,
    pub clock: Option<VerifiedProgram>,
    pub loads: Vec<Load>,
    pub unloads: Vec<Unload>,
    pub corruptions: Vec<Corrupt>,
    pub entries: Vec<CoinEntry>,
    pub ghost extent: { IsExtent nodes memory },
    pub ghost allowed: { IsRule nodes faults modulus },
}

impl Scenario {
    ghost use Rattle.std.specs.Prelude.{◌≡◌, map};
    ghost use Rattle.scenario_text.specs.Noise.{any_noise};
    ghost use Rattle.scenario_text.specs.Spelling.{clock_rule_of};
    ghost use Rattle.std.specs.Prelude.{is_some};
    ghost use Rattle.scenario_text.specs.Views.{extent_of, frame_of, is_judged, is_strict, load_draft};

    /// Returns the shape of the nodes.
    pub fn shape(&self) -> Shape
        ensures { result ≡ extent_of (frame_of self.now) }
    {
        match Shape::of(self.nodes, self.memory) {
            Some(shape) => shape,
            None => unreachable!(),
        }
    }

    /// Returns the rule of the clock.
    pub fn rule(&self) -> ClockRule
        ensures { result ≡ clock_rule_of (frame_of self.now) }
    {
        match ClockRule::of(self.nodes, self.faults, self.modulus) {
            Some(rule) => rule,
            None => unreachable!(),
        }
    }

    /// Returns true if the report judges whether clocks count, and says whose clock it is.
    pub fn is_judged(&self) -> bool
        ensures { result ≡ is_judged self.now.version }
    {
        self.version as u64 >= CLOCK_VERSION
    }

    /// Returns true if clocks agree only if they are one number below the modulus: the clock is the scenario's own, and
    /// the scenario doesn't say that 0 agrees with every clock.
    pub fn is_strict(&self) -> bool
        ensures { result ≡ is_strict (frame_of self.now) (is_some self.now.clock) }
    {
        self.clock.is_some() && !self.zero_agrees
    }

    /// Returns true if a load is one of noise.
    #[tactic(auto, using(crate::proofs::NoiseLemmas::any_loads))]
    pub fn has_noise(&self) -> bool
        ensures { result ≡ any_noise (map load_draft self.now.loads.items) }
    {
        any_noise(&self.loads)
    }
}
