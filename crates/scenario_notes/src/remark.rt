//! What a note says, and its words.
ghost use Rattle.std.specs.Prelude.{Some, option_map};
ghost use Rattle.scenario_notes.specs.Words.{key_words, line_words, nearest_words, remark_words, rule_words, spot_words};
ghost use Rattle.bpf_verify.specs.Rules.{rule_name};

use bpf_verify::Rule;
use std::fmt;

/// A line of a text.
#[derive(Debug, Drop)]
pub struct Spot {
    /// The line of the file where it occurs, from 1 on, if it can be told.
    pub file: Option<usize>,
    /// Its number in the text, from 1 on.
    pub line: usize,
    /// The line as it is shown.
    pub shown: String,
}

/// A key that isn't known.
#[derive(Debug, Drop)]
pub struct UnknownKey {
    /// The line of the file where it occurs, from 1 on, if it can be told.
    pub line: Option<usize>,
    /// The key as it is shown.
    pub key: String,
    /// The known key that is nearest, if one is near.
    pub nearest: Option<&'static str>,
}

/// What a note says.
#[derive(Debug, Drop)]
pub enum Remark {
    /// Where and why the parser of the file stops.
    NotToml {
        line: usize,
        /// From 1 on, in characters.
        column: usize,
        message: String,
    },
    OfKey {
        unknown: UnknownKey,
    },
    /// A line of the file.
    OfLine {
        line: usize,
        shown: String,
    },
    /// A line of a text.
    OfText {
        spot: Spot,
    },
    /// The instruction at a slot, which breaks a rule.
    OfSlot {
        spot: Spot,
        slot: u32,
        rule: Rule,
    },
    /// The same where its line can't be told.
    OfSlotAlone {
        slot: u32,
        rule: Rule,
    },
    /// No place.
    OfNothing,
}

#[derive(Clone, Copy)]
struct LineWords(Option<usize>);

impl fmt::Display for LineWords {
    ghost output = { λ line. Some (line_words line.0) };

    fn fmt<W: fmt::Write>(&self, f: &mut fmt::Formatter<W>) -> fmt::Result {
        match self.0 {
            None => Ok(()),
            Some(line) => write!(f, "line {line}: "),
        }
    }
}

#[derive(Clone, Copy)]
struct NearestWords(Option<&'static str>);

impl fmt::Display for NearestWords {
    ghost output = { λ nearest. Some (nearest_words (option_map (λ name. name.now) nearest.0)) };

    fn fmt<W: fmt::Write>(&self, f: &mut fmt::Formatter<W>) -> fmt::Result {
        match self.0 {
            None => Ok(()),
            Some(name) => write!(f, "; did you mean {name}?"),
        }
    }
}

#[derive(Clone, Copy)]
struct KeyWords<'a>(&'a UnknownKey);

impl fmt::Display for KeyWords<'_> {
    ghost output = { λ key. Some (key_words key.0.now) };

    fn fmt<W: fmt::Write>(&self, f: &mut fmt::Formatter<W>) -> fmt::Result {
        let key = self.0.key.as_str();
        let nearest = NearestWords(self.0.nearest);
        write!(f, "unknown key {key}{nearest}")
    }
}

#[derive(Clone, Copy)]
struct SpotWords<'a>(&'a Spot);

impl fmt::Display for SpotWords<'_> {
    ghost output = { λ spot. Some (spot_words spot.0.now) };

    fn fmt<W: fmt::Write>(&self, f: &mut fmt::Formatter<W>) -> fmt::Result {
        let file = LineWords(self.0.file);
        let line = self.0.line;
        write!(f, "{file}line {line} of the text: ")
    }
}

#[derive(Clone, Copy)]
struct RuleName(Rule);

impl fmt::Display for RuleName {
    ghost output = { λ name. Some (rule_name name.0) };

    fn fmt<W: fmt::Write>(&self, f: &mut fmt::Formatter<W>) -> fmt::Result {
        write!(f, "{}", self.0.name())
    }
}

#[derive(Clone, Copy)]
struct RuleWords(Rule);

impl fmt::Display for RuleWords {
    ghost output = { λ rule. Some (rule_words rule.0) };

    fn fmt<W: fmt::Write>(&self, f: &mut fmt::Formatter<W>) -> fmt::Result {
        let number = self.0.number();
        let name = RuleName(self.0);
        write!(f, "rule {number}, {name} (docs/VERIFIER.md)")
    }
}

impl fmt::Display for Remark {
    ghost output = { λ note. Some (remark_words note) };

    fn fmt<W: fmt::Write>(&self, f: &mut fmt::Formatter<W>) -> fmt::Result {
        match self {
            Remark::NotToml {
                line,
                column,
                message,
            } => write!(f, "line {line}, column {column}: {message}"),
            Remark::OfKey { unknown } => {
                let line = LineWords(unknown.line);
                write!(f, "{line}{}", KeyWords(unknown))
            }
            Remark::OfLine { line, shown } => write!(f, "line {line}: {shown}"),
            Remark::OfText { spot } => {
                let shown = spot.shown.as_str();
                write!(f, "{}{shown}", SpotWords(spot))
            }
            Remark::OfSlot { spot, slot, rule } => {
                let shown = spot.shown.as_str();
                let rule = RuleWords(*rule);
                write!(f, "{}slot {slot}: {shown}: {rule}", SpotWords(spot))
            }
            Remark::OfSlotAlone { slot, rule } => write!(f, "slot {slot}: {}", RuleWords(*rule)),
            Remark::OfNothing => Ok(()),
        }
    }
}
