//! The lines of an answer.
ghost use Rattle.std.specs.Prelude.{◌≡◌, IfOk, Some, codes, string_bytes};
ghost use Rattle.exploration.specs.Answers.{agreed_text, agreement_text, cause_text, chances_text, crowded_text, finding_text, finding_with, found_text, holds_text, odds_lines, optional_line, reach_text, recovery_text, renamed_text, stability_text, theorem_agreement_line, theorem_agreement_text, theorem_text, tried_with, unfinished_text, violation_text};

use crate::answer::{Finding, Found, Reach, Tried};
use crate::nodes::{Byzantine, Correct};
use crate::odds::{Counted, MeanText, OddsText, ReachText, last_pulses, pulses};
use crate::start::{StartText, digits_of};
use explored::{Cause, MAX_INBOXES, Odds, Recovery, Starts};
use std::alloc::{AllocError, Global};
use std::fmt;

/// Returns the text of a number of states.
fn states(count: u64) -> Counted
    ensures count { result.count ≡ count }
    ensures word { result.word.now ≡ codes "state" }
{
    Counted {
        count,
        word: "state",
    }
}

/// That agreement holds, or that there is none to judge.
#[derive(Clone, Copy)]
struct HoldsText(bool);

impl fmt::Display for HoldsText {
    ghost output = { λ text. Some (holds_text text.0) };

    fn fmt<W: fmt::Write>(&self, f: &mut fmt::Formatter<W>) -> fmt::Result {
        match self.0 {
            true => write!(f, "agreement none (fewer than two correct nodes)"),
            false => write!(f, "agreement holds"),
        }
    }
}

/// Whether states and transitions are those up to renaming of nodes.
#[derive(Clone, Copy)]
struct RenamedText(bool);

impl fmt::Display for RenamedText {
    ghost output = { λ text. Some (renamed_text text.0) };

    fn fmt<W: fmt::Write>(&self, f: &mut fmt::Formatter<W>) -> fmt::Result {
        match self.0 {
            true => write!(f, ", up to renaming of nodes"),
            false => Ok(()),
        }
    }
}

/// That agreement holds, or that there is none to judge, or that it wasn't asked.
#[derive(Clone, Copy)]
struct AgreementText {
    alone: bool,
    agrees: bool,
    states: u64,
    moves: u64,
    renamed: bool,
}

impl fmt::Display for AgreementText {
    ghost output = { λ text. Some (agreement_text text.alone text.agrees text.states text.moves text.renamed) };

    fn fmt<W: fmt::Write>(&self, f: &mut fmt::Formatter<W>) -> fmt::Result {
        let states = states(self.states);
        let moves = Counted {
            count: self.moves,
            word: "transition",
        };
        let renamed = RenamedText(self.renamed);
        if self.agrees {
            let holds = HoldsText(self.alone);
            write!(f, "{holds}: {states}, {moves}{renamed}")
        } else {
            write!(f, "agreement not asked: {states}, {moves}{renamed}")
        }
    }
}

/// How the clocks stabilise.
#[derive(Clone, Copy)]
struct RecoveryText(Recovery);

impl fmt::Display for RecoveryText {
    ghost output = { λ text. Some (recovery_text text.0) };

    fn fmt<W: fmt::Write>(&self, f: &mut fmt::Formatter<W>) -> fmt::Result {
        match self.0 {
            Recovery::InStep { pulses: count } => {
                let pulses = pulses(count);
                write!(f, "stabilises within {pulses}")
            }
            Recovery::Luck { pulses: count } => {
                let pulses = pulses(count);
                write!(
                    f,
                    "may stabilise within {pulses}: from every reachable state some coins lead there"
                )
            }
            Recovery::HeldOff => write!(f, "stabilisation can be prevented for ever"),
            Recovery::Unbounded => write!(
                f,
                "stabilises, with no bound on the pulses: the adversary can keep the power to break synchrony"
            ),
            Recovery::Unknown { memory: true } => {
                write!(f, "stabilisation not decided: --memory allows no more")
            }
            Recovery::Unknown { memory: false } => write!(
                f,
                "stabilisation not decided: a state has more choices of coins than --states allows"
            ),
        }
    }
}

/// That a node has too many choices to try.
#[derive(Clone, Copy)]
struct CrowdedText {
    node: u32,
    choices: u64,
}

impl fmt::Display for CrowdedText {
    ghost output = { λ text. Some (crowded_text text.node text.choices) };

    fn fmt<W: fmt::Write>(&self, f: &mut fmt::Formatter<W>) -> fmt::Result {
        let CrowdedText { node, choices } = *self;
        write!(
            f,
            "node {node} has at least {choices} choices of memory and inbox"
        )
    }
}

/// Why a search isn't finished.
#[derive(Clone, Copy)]
pub(crate) struct CauseText(pub(crate) Cause);

impl fmt::Display for CauseText {
    ghost output = { λ text. Some (cause_text text.0) };

    fn fmt<W: fmt::Write>(&self, f: &mut fmt::Formatter<W>) -> fmt::Result {
        match self.0 {
            Cause::States => write!(f, "--states allows no more"),
            Cause::Transitions => write!(f, "a state has more transitions than --states allows"),
            Cause::Pulses => write!(f, "--depth allows no more pulses"),
            Cause::Inboxes { node, choices } => {
                let crowded = CrowdedText { node, choices };
                write!(
                    f,
                    "{crowded}, and {MAX_INBOXES} are tried: name fewer with --mail, --said or --cells"
                )
            }
            Cause::Counterexample => write!(
                f,
                "agreement is violated, but no counterexample was made"
            ),
            Cause::Memory => write!(f, "--memory allows no more"),
        }
    }
}

/// How the clocks stabilise, behind the mark, if that was asked.
#[derive(Clone, Copy)]
struct RecoveryLine<'a> {
    mark: &'a str,
    recovery: Option<Recovery>,
}

impl fmt::Display for RecoveryLine<'_> {
    ghost output = { λ line. Some (optional_line line.mark.now recovery_text line.recovery) };

    fn fmt<W: fmt::Write>(&self, f: &mut fmt::Formatter<W>) -> fmt::Result {
        let mark = self.mark;
        match self.recovery {
            Some(recovery) => write!(f, "{mark}{}\n", RecoveryText(recovery)),
            None => Ok(()),
        }
    }
}

/// After how many pulses the clocks agree for good.
#[derive(Clone, Copy)]
struct AgreedText(u64);

impl fmt::Display for AgreedText {
    ghost output = { λ text. Some (agreed_text text.0) };

    fn fmt<W: fmt::Write>(&self, f: &mut fmt::Formatter<W>) -> fmt::Result {
        let pulses = pulses(self.0);
        write!(f, "agreement holds after {pulses}")
    }
}

/// The same behind the mark, if that is told.
#[derive(Clone, Copy)]
struct AgreedLine<'a> {
    mark: &'a str,
    agreed: Option<u64>,
}

impl fmt::Display for AgreedLine<'_> {
    ghost output = { λ line. Some (optional_line line.mark.now agreed_text line.agreed) };

    fn fmt<W: fmt::Write>(&self, f: &mut fmt::Formatter<W>) -> fmt::Result {
        let mark = self.mark;
        match self.agreed {
            Some(count) => write!(f, "{mark}{}\n", AgreedText(count)),
            None => Ok(()),
        }
    }
}

/// How likely the clocks stabilise, and after how many pulses on average, behind the mark.
#[derive(Clone, Copy)]
struct OddsLines<'a> {
    mark: &'a str,
    odds: &'a Odds,
}

impl fmt::Display for OddsLines<'_> {
    ghost output = { λ lines. Some (odds_lines lines.mark.now lines.odds.now) };

    fn fmt<W: fmt::Write>(&self, f: &mut fmt::Formatter<W>) -> fmt::Result {
        let mark = self.mark;
        let first = OddsText(self.odds);
        match self.odds {
            Odds::Known {
                mean,
                least_mean,
                ..
            } => {
                let second = MeanText {
                    most: *mean,
                    least: *least_mean,
                };
                write!(f, "{mark}{first}\n{mark}{second}\n")
            }
            Odds::Unknown { .. } => write!(f, "{mark}{first}\n"),
        }
    }
}

/// When a share has stabilised, behind the mark, if that is told.
#[derive(Clone, Copy)]
struct ReachLine<'a> {
    mark: &'a str,
    last: u64,
    reach: Option<Reach>,
}

impl fmt::Display for ReachLine<'_> {
    ghost output = { λ line. Some (optional_line line.mark.now (reach_text line.last) line.reach) };

    fn fmt<W: fmt::Write>(&self, f: &mut fmt::Formatter<W>) -> fmt::Result {
        let ReachLine { mark, last, reach } = *self;
        match reach {
            Some(reach) => write!(f, "{mark}{}\n", ReachText { last, reach }),
            None => Ok(()),
        }
    }
}

/// How likely the clocks stabilise, and when a share of the ways of the coins has, behind the mark, if that was asked.
#[derive(Clone, Copy)]
struct ChanceLines<'a> {
    mark: &'a str,
    odds: &'a Option<Odds>,
    reach: Option<Reach>,
}

impl fmt::Display for ChanceLines<'_> {
    ghost output = { λ lines. Some (chances_text lines.mark.now lines.odds.now lines.reach) };

    fn fmt<W: fmt::Write>(&self, f: &mut fmt::Formatter<W>) -> fmt::Result {
        let mark = self.mark;
        let last = last_pulses(self.odds);
        let reach = ReachLine {
            mark,
            last,
            reach: self.reach,
        };
        match self.odds {
            Some(odds) => write!(f, "{}{reach}", OddsLines { mark, odds }),
            None => write!(f, "{reach}"),
        }
    }
}

/// That agreement is violated.
#[derive(Clone, Copy)]
struct ViolationText {
    pulse: u64,
    states: u64,
}

impl fmt::Display for ViolationText {
    ghost output = { λ text. Some (violation_text text.pulse text.states) };

    fn fmt<W: fmt::Write>(&self, f: &mut fmt::Formatter<W>) -> fmt::Result {
        let pulse = self.pulse;
        let states = states(self.states);
        write!(
            f,
            "agreement violated in pulse {pulse} ({states}); a counterexample follows"
        )
    }
}

/// That the search isn't finished.
#[derive(Clone, Copy)]
struct UnfinishedText {
    states: u64,
    cause: Cause,
}

impl fmt::Display for UnfinishedText {
    ghost output = { λ text. Some (unfinished_text text.states text.cause) };

    fn fmt<W: fmt::Write>(&self, f: &mut fmt::Formatter<W>) -> fmt::Result {
        let states = states(self.states);
        let cause = CauseText(self.cause);
        write!(f, "not finished: {states}; {cause}")
    }
}

/// That agreement holds, by the theorem.
#[derive(Clone, Copy)]
struct TheoremAgreement(bool);

impl fmt::Display for TheoremAgreement {
    ghost output = { λ text. Some (theorem_agreement_text text.0) };

    fn fmt<W: fmt::Write>(&self, f: &mut fmt::Formatter<W>) -> fmt::Result {
        let holds = HoldsText(self.0);
        write!(f, "{holds}, by the theorem for all n > 3f")
    }
}

/// The same behind the mark, if that was asked.
#[derive(Clone, Copy)]
struct TheoremAgreementLine<'a> {
    alone: bool,
    mark: &'a str,
    agrees: bool,
}

impl fmt::Display for TheoremAgreementLine<'_> {
    ghost output = { λ line. Some (theorem_agreement_line line.alone line.mark.now line.agrees) };

    fn fmt<W: fmt::Write>(&self, f: &mut fmt::Formatter<W>) -> fmt::Result {
        let mark = self.mark;
        match self.agrees {
            true => write!(f, "{mark}{}\n", TheoremAgreement(self.alone)),
            false => Ok(()),
        }
    }
}

/// How the clocks stabilise, by the theorem.
#[derive(Clone, Copy)]
struct TheoremText(u64);

impl fmt::Display for TheoremText {
    ghost output = { λ text. Some (theorem_text text.0) };

    fn fmt<W: fmt::Write>(&self, f: &mut fmt::Formatter<W>) -> fmt::Result {
        let pulses = pulses(self.0);
        write!(
            f,
            "may stabilise within {pulses}, by the theorem for all n > 3f: from every reachable state some coins lead there"
        )
    }
}

/// The same behind the mark, if that was asked.
#[derive(Clone, Copy)]
struct TheoremLine<'a> {
    mark: &'a str,
    pulses: Option<u64>,
}

impl fmt::Display for TheoremLine<'_> {
    ghost output = { λ line. Some (optional_line line.mark.now theorem_text line.pulses) };

    fn fmt<W: fmt::Write>(&self, f: &mut fmt::Formatter<W>) -> fmt::Result {
        let mark = self.mark;
        match self.pulses {
            Some(count) => write!(f, "{mark}{}\n", TheoremText(count)),
            None => Ok(()),
        }
    }
}

/// What was found, line by line, each behind the mark.
#[derive(Clone, Copy)]
struct FoundLines<'a> {
    alone: bool,
    mark: &'a str,
    found: &'a Found,
}

impl fmt::Display for FoundLines<'_> {
    ghost output = { λ lines. Some (found_text lines.alone lines.mark.now lines.found.now) };

    fn fmt<W: fmt::Write>(&self, f: &mut fmt::Formatter<W>) -> fmt::Result {
        let FoundLines { alone, mark, .. } = *self;
        match self.found {
            Found::Closed {
                agrees,
                states,
                moves,
                renamed,
                agreed,
                recovery,
                odds,
                reach,
                ..
            } => {
                let agreement = AgreementText {
                    alone,
                    agrees: *agrees,
                    states: *states,
                    moves: *moves,
                    renamed: *renamed,
                };
                let recovery = RecoveryLine {
                    mark,
                    recovery: *recovery,
                };
                let agreed = AgreedLine {
                    mark,
                    agreed: *agreed,
                };
                let chances = ChanceLines {
                    mark,
                    odds,
                    reach: *reach,
                };
                write!(f, "{mark}{agreement}\n{recovery}{agreed}{chances}")
            }
            Found::Theorem { agrees, pulses } => {
                let line = TheoremLine {
                    mark,
                    pulses: *pulses,
                };
                let agreement = TheoremAgreementLine {
                    alone,
                    mark,
                    agrees: *agrees,
                };
                write!(f, "{agreement}{line}")
            }
            Found::Parts { pulse, states, .. } => {
                let violation = ViolationText {
                    pulse: *pulse,
                    states: *states,
                };
                write!(f, "{mark}{violation}\n")
            }
            Found::Unfinished { states, cause } => {
                let unfinished = UnfinishedText {
                    states: *states,
                    cause: *cause,
                };
                write!(f, "{mark}{unfinished}\n")
            }
        }
    }
}

/// Who is who and where the bench begins, with the text of whole memories.
#[derive(Clone, Copy)]
pub(crate) struct TriedText<'a> {
    pub(crate) digits: &'a str,
    pub(crate) start: &'a Starts,
    pub(crate) tried: &'a Tried,
}

impl fmt::Display for TriedText<'_> {
    ghost output = { λ text. Some (tried_with text.digits.now text.start.now text.tried.now) };

    fn fmt<W: fmt::Write>(&self, f: &mut fmt::Formatter<W>) -> fmt::Result {
        let correct = Correct(self.tried);
        let byzantine = Byzantine(self.tried);
        let start = StartText {
            words: &self.tried.words,
            digits: self.digits,
            said: &self.tried.said,
            start: self.start,
        };
        write!(f, "{correct}{byzantine}{start}")
    }
}

/// All lines of an answer, with the text of whole memories, and the counterexample if there is one.
#[derive(Clone, Copy)]
struct FindingText<'a> {
    digits: &'a str,
    start: &'a Starts,
    finding: &'a Finding,
}

impl fmt::Display for FindingText<'_> {
    ghost output = { λ text. Some (finding_with text.digits.now text.start.now text.finding.now) };

    fn fmt<W: fmt::Write>(&self, f: &mut fmt::Formatter<W>) -> fmt::Result {
        let FindingText { digits, start, .. } = *self;
        match self.finding {
            Finding::Unfit(unfit) => write!(f, "refused explore {unfit}\n"),
            Finding::Searched { tried, found } => {
                let mark = found.mark();
                let lines = FoundLines {
                    alone: tried.is_alone(),
                    mark,
                    found,
                };
                let tried = TriedText {
                    digits,
                    start,
                    tried,
                };
                write!(f, "{mark}{tried}\n{lines}{}", found.shown())
            }
        }
    }
}

/// Returns the lines of an answer about this start, with their ends, and the counterexample if there is one.
pub fn finding_text(alloc: Global, start: &Starts, finding: &Finding) -> Result<String, AllocError>
    ensures { IfOk result (λ text. string_bytes text ≡ finding_text start.now finding.now) }
{
    let digits = digits_of(alloc, start)?;
    let text = FindingText {
        digits: digits.as_str(),
        start,
        finding,
    };
    format!(in alloc; "{text}")
}
