//! The line of a refusal.
ghost use Rattle.std.specs.Prelude.{◌≡◌, Some, string_bytes};
ghost use Rattle.scenario_text.specs.Lines.{path_text, text_of_place, refusal_line, rule_fault, text_fault};

use crate::refusal::{Place, ScenarioError};
use bpf_asm::TextError;
use rule_programs::RuleRefusal;
use std::fmt;

#[derive(Clone, Copy)]
struct PlaceText(Place);

impl fmt::Display for PlaceText {
    ghost output = { λ place. Some (text_of_place place.0) };

    fn fmt<W: fmt::Write>(&self, f: &mut fmt::Formatter<W>) -> fmt::Result {
        match self.0 {
            Place::Top => write!(f, "top"),
            Place::Load(index) => write!(f, "load[{index}]"),
            Place::Unload(index) => write!(f, "unload[{index}]"),
            Place::Corrupt(index) => write!(f, "corrupt[{index}]"),
            Place::Coin(index) => write!(f, "coin[{index}]"),
        }
    }
}

#[derive(Clone, Copy)]
struct Path(Place, &'static str);

impl fmt::Display for Path {
    ghost output = { λ path. Some (path_text path.0 path.1.now) };

    fn fmt<W: fmt::Write>(&self, f: &mut fmt::Formatter<W>) -> fmt::Result {
        let key = self.1;
        match self.0 {
            Place::Top => write!(f, "{key}"),
            place => write!(f, "{}.{key}", PlaceText(place)),
        }
    }
}

#[derive(Clone, Copy)]
struct TextFault(TextError);

impl fmt::Display for TextFault {
    ghost output = { λ fault. Some (text_fault fault.0) };

    fn fmt<W: fmt::Write>(&self, f: &mut fmt::Formatter<W>) -> fmt::Result {
        let name = self.0.name();
        let line = self.0.line().unwrap_or(0);
        write!(f, "line {line} {name}")
    }
}

#[derive(Clone, Copy)]
struct RuleFault(RuleRefusal);

impl fmt::Display for RuleFault {
    ghost output = { λ fault. Some (rule_fault fault.0) };

    fn fmt<W: fmt::Write>(&self, f: &mut fmt::Formatter<W>) -> fmt::Result {
        match self.0 {
            RuleRefusal::Text {
                error,
                line,
                column,
            } => {
                let name = error.name();
                write!(f, "line {line} column {column} {name}")
            }
            RuleRefusal::NoRoom => write!(f, "NoRoom"),
            RuleRefusal::TooLong => write!(f, "TooLong"),
        }
    }
}

/// The line of a refusal, without its end.
#[derive(Clone, Copy)]
pub struct RefusalLine<'a>(pub &'a ScenarioError);

impl fmt::Display for RefusalLine<'_> {
    ghost output = { λ line. Some (refusal_line line.0.now) };

    fn fmt<W: fmt::Write>(&self, f: &mut fmt::Formatter<W>) -> fmt::Result {
        match self.0 {
            ScenarioError::TooLong => write!(f, "refused scenario TooLong"),
            ScenarioError::NotToml => write!(f, "refused scenario NotToml"),
            ScenarioError::UnknownKey { place } => {
                write!(f, "refused scenario UnknownKey {}", PlaceText(*place))
            }
            ScenarioError::MissingKey { place, key } => {
                write!(f, "refused scenario MissingKey {}", Path(*place, key))
            }
            ScenarioError::WrongKind { place, key } => {
                write!(f, "refused scenario WrongKind {}", Path(*place, key))
            }
            ScenarioError::OutOfRange { place, key } => {
                write!(f, "refused scenario OutOfRange {}", Path(*place, key))
            }
            ScenarioError::UnknownProgram { load } => {
                let path = Path(Place::Load(*load), "program");
                write!(f, "refused scenario UnknownProgram {path}")
            }
            ScenarioError::BadText { place, key, error } => {
                let path = Path(*place, key);
                write!(f, "refused scenario BadText {path} {}", TextFault(*error))
            }
            ScenarioError::BadRule { place, key, error } => {
                let path = Path(*place, key);
                write!(f, "refused scenario BadRule {path} {}", RuleFault(*error))
            }
            ScenarioError::NotAccepted {
                place,
                key,
                slot,
                rule,
            } => {
                let path = Path(*place, key);
                let number = rule.number();
                write!(
                    f,
                    "refused scenario NotAccepted {path} rule {number} slot {slot}"
                )
            }
            ScenarioError::Memory(_) => write!(f, "refused scenario Memory"),
        }
    }
}
