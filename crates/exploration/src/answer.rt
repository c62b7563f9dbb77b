//! What exploring a bench found.
ghost use Rattle.std.specs.Prelude.{◌≡◌, Some};
ghost use Rattle.exploration.specs.Answers.{is_alone, mark_text, shown_of, unfit_name};

use explored::{Cause, MailSpan, Odds, Recovery, Share};
use std::fmt;

/// What of a scenario can't be explored.
#[derive(Clone, Copy, Debug, PartialEq, Eq)]
pub enum Unfit {
    /// A load after pulse 1.
    Load,
    Unload,
    Corrupt,
    /// A coin for a node.
    Coin,
    /// No node is loaded.
    Unloaded,
    /// The start names a byte past the memory.
    Byte,
    /// An image of the start isn't as long as a memory.
    Image,
    /// Any message is named, and some loaded node doesn't run the built-in clock.
    AnyMessage,
    /// Every start is named, and no law covers this byte of a memory.
    NoLaw { byte: u32 },
}

/// Who is who, and what was tried beside both coins.
#[derive(Debug, Drop)]
pub struct Tried {
    pub correct: Vec<u32>,
    /// Whether the correct nodes run the clock. Otherwise no node does, and they are all that are loaded.
    pub has_clock: bool,
    /// Whether 0 agrees only with 0: the clock is one of the scenario's own, or no load is of the built-in clock.
    pub is_strict: bool,
    /// The Byzantine nodes that have programs.
    pub programmed: Vec<u32>,
    /// Those that have none.
    pub liars: Vec<u32>,
    /// How many faults the rule allows for.
    pub faults: u32,
    /// Whether nodes without a program send any number.
    pub any: bool,
    /// The numbers that they send.
    pub mail: Vec<MailSpan>,
    /// The words of the memory that have names, by their places: those of a rule, the clock first.
    pub words: Vec<String>,
    /// The numbers that nodes with programs may have sent before the start.
    pub said: Vec<MailSpan>,
}

/// The least number of pulses after which at least this share has stabilised, if there is one among the odds.
#[derive(Clone, Copy, Debug, PartialEq, Eq)]
pub struct Reach {
    pub share: Share,
    pub pulses: Option<u64>,
}

/// What was found.
#[derive(Debug, Drop)]
pub enum Found {
    /// Every transition was tried. Whether agreement was asked, and so holds; if it was asked, how the clocks
    /// stabilise, with the text of a counterexample if that can be prevented and one was made; and the odds that were
    /// asked.
    Closed {
        agrees: bool,
        states: u64,
        moves: u64,
        /// Whether these are states and transitions up to renaming of nodes.
        renamed: bool,
        /// After how many pulses the clocks agree for good, if agreement wasn't asked and that was found.
        agreed: Option<u64>,
        recovery: Option<Recovery>,
        odds: Option<Odds>,
        /// When the share that was asked has stabilised, if the odds are known.
        reach: Option<Reach>,
        /// The text of the state space, if it was asked and isn't too large. Nothing is promised of it.
        graph: Option<String>,
        shown: Option<String>,
    },
    /// Agreement is violated in this pulse of the counterexample of this text.
    Parts {
        pulse: u64,
        states: u64,
        shown: String,
    },
    /// The theorem on the built-in clock for all n > 3f answers, where a limit ended the search: that agreement holds, if
    /// it was asked, and within how many pulses the clocks may stabilise, if that was asked.
    Theorem {
        agrees: bool,
        pulses: Option<u64>,
    },
    /// After this many states, and why.
    Unfinished {
        states: u64,
        cause: Cause,
    },
}

/// Why nothing is explored, or what was tried and found.
#[derive(Debug, Drop)]
pub enum Finding {
    Unfit(Unfit),
    Searched { tried: Tried, found: Found },
}

impl fmt::Display for Unfit {
    ghost output = { λ unfit. Some (unfit_name unfit) };

    fn fmt<W: fmt::Write>(&self, f: &mut fmt::Formatter<W>) -> fmt::Result {
        match self {
            Unfit::Load => write!(f, "load"),
            Unfit::Unload => write!(f, "unload"),
            Unfit::Corrupt => write!(f, "corrupt"),
            Unfit::Coin => write!(f, "coin"),
            Unfit::Unloaded => write!(f, "NoCorrectNode"),
            Unfit::Byte => write!(f, "NoByte"),
            Unfit::Image => write!(f, "Image"),
            Unfit::AnyMessage => write!(f, "AnyMessage"),
            Unfit::NoLaw { byte } => write!(f, "NoLaw {byte}"),
        }
    }
}

/// The fewest correct nodes between which agreement is judged.
const FEWEST: usize = 2;

impl Tried {
    /// Returns true if there are fewer correct nodes than agreement is between.
    pub fn is_alone(&self) -> bool
        ensures { result ≡ is_alone self.now }
    {
        self.correct.len() < FEWEST
    }
}

impl Found {
    /// Returns the counterexample, if there is one.
    pub(crate) fn shown(&self) -> &str
        ensures { result.now ≡ shown_of self.now }
    {
        match self {
            Found::Parts { shown, .. } => shown.as_str(),
            Found::Closed { shown, .. } => match shown {
                Some(shown) => shown.as_str(),
                None => "",
            },
            Found::Theorem { .. } | Found::Unfinished { .. } => "",
        }
    }

    /// Returns what makes a line a comment of the counterexample, if there is one.
    pub(crate) fn mark(&self) -> &str
        ensures { result.now ≡ mark_text (shown_of self.now) }
    {
        if self.shown().len() == 0 { "" } else { "# " }
    }
}
