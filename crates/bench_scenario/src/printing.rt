//! The report of a run: the text, and whether no pulse disagrees.
ghost use Rattle.std.specs.Prelude.{◌≡◌, ◌++◌, IfOk, OnOk, IfSome, is_some, string_bytes, codes, count_by};
ghost use Rattle.std.specs.Fmt.{decimal};
ghost use Rattle.bench_scenario.specs.Reports.{agreed, agreement_judged, all_agree, clock_end, clock_name, clock_text};
ghost use Rattle.bench_scenario.specs.Reports.{clocks_text, counted_end, counts_end, head_line, is_past, is_yes, last_line};
ghost use Rattle.bench_scenario.specs.Reports.{record_line, record_lines, report_of, report_text, shape_text, verdict_text};
ghost use Rattle.bench_scenario.specs.Reports.{version_text, zero_text};
ghost use Rattle.scenario_text.specs.Views.{frame_of};

use crate::verdicts::{Judged, judged_of, none_disagrees};
use bench_core::PulseRecord;
use bench_workers::Run;
use itoa::Buffer;
use scenario_text::{CLOCK_VERSION, FIRST_VERSION, Scenario};
use std::alloc::{AllocError, Global};
use std::fmt::Write;

fn add(report: &mut String, part: &str) -> Result<(), AllocError>
    ensures { OnOk result (string_bytes report.new ≡ string_bytes report.old ++ part.now) }
{
    report.push_str(part)
}

fn add_number(report: &mut String, number: u32) -> Result<(), AllocError>
    ensures { OnOk result (string_bytes report.new ≡ string_bytes report.old ++ decimal number) }
{
    let mut digits = Buffer::new();
    add(report, digits.format(number))
}

// ---- the first line

/// Adds the version, but for the first one.
fn add_version(report: &mut String, scenario: &Scenario) -> Result<(), AllocError>
    ensures { OnOk result (string_bytes report.new
        ≡ string_bytes report.old ++ version_text (frame_of scenario.now)) }
{
    if scenario.version as u64 == FIRST_VERSION {
        return Ok(());
    }
    add(report, "version ")?;
    add_number(report, scenario.version)?;
    add(report, " ")
}

fn add_shape(report: &mut String, scenario: &Scenario) -> Result<(), AllocError>
    ensures { OnOk result (string_bytes report.new
        ≡ string_bytes report.old ++ shape_text (frame_of scenario.now)) }
{
    add(report, "nodes ")?;
    add_number(report, scenario.nodes)?;
    add(report, " faults ")?;
    add_number(report, scenario.faults)?;
    add(report, " modulus ")?;
    add_number(report, scenario.modulus)
}

/// Returns whose clock it is: the scenario's own, or this project's, by the name that the version has for it.
pub fn clock_name(version: u32, own: bool) -> &'static str
    ensures { result.now ≡ clock_name version own }
{
    if own {
        "own"
    } else if version as u64 == CLOCK_VERSION {
        "rule"
    } else {
        "bed"
    }
}

/// Returns the words that say whether a clock of 0 of one's own agrees with every clock.
fn zero_text(scenario: &Scenario) -> &'static str
    ensures { result.now ≡ zero_text (frame_of scenario.now) (is_some scenario.now.clock) }
{
    if scenario.clock.is_some() && scenario.zero_agrees {
        " zero agrees"
    } else {
        ""
    }
}

fn add_clock_end(report: &mut String, scenario: &Scenario) -> Result<(), AllocError>
    ensures { OnOk result (string_bytes report.new
        ≡ string_bytes report.old ++ clock_end (frame_of scenario.now) (is_some scenario.now.clock)) }
{
    if scenario.is_judged() {
        add(report, " clock ")?;
        add(
            report,
            clock_name(scenario.version, scenario.clock.is_some()),
        )?;
        add(report, zero_text(scenario))?;
    }
    add(report, "\n")
}

fn add_head(report: &mut String, scenario: &Scenario) -> Result<(), AllocError>
    ensures { OnOk result (string_bytes report.new
        ≡ string_bytes report.old ++ head_line (frame_of scenario.now) (is_some scenario.now.clock)) }
{
    add_version(report, scenario)?;
    add_shape(report, scenario)?;
    add_clock_end(report, scenario)
}

// ---- the lines of pulses

/// Returns a clock of one digit, as most are, with the space before it.
#[tactic(auto, using(std::proofs::lemmas::Fmt::decimal_digit))]
fn short_clock(clock: u32) -> Option<&'static str>
    ensures { IfSome result (λ text. text.now ≡ codes " " ++ decimal clock) }
{
    match clock {
        0 => Some(" 0"),
        1 => Some(" 1"),
        2 => Some(" 2"),
        3 => Some(" 3"),
        4 => Some(" 4"),
        5 => Some(" 5"),
        6 => Some(" 6"),
        7 => Some(" 7"),
        8 => Some(" 8"),
        9 => Some(" 9"),
        _ => None,
    }
}

/// Adds a clock that has a value, with the space before it.
fn add_value(report: &mut String, clock: u32) -> Result<(), AllocError>
    ensures { OnOk result (string_bytes report.new ≡ string_bytes report.old ++ (codes " " ++ decimal clock)) }
{
    match short_clock(clock) {
        Some(text) => add(report, text),
        None => {
            add(report, " ")?;
            add_number(report, clock)
        }
    }
}

/// Returns true if a clock has no value.
fn is_past(scenario: &Scenario, clock: u32) -> bool
    ensures { result ≡ is_past (frame_of scenario.now) clock }
{
    scenario.is_judged() && scenario.modulus <= clock
}

fn add_clock(report: &mut String, scenario: &Scenario, clock: Option<u32>) -> Result<(), AllocError>
    ensures { OnOk result (string_bytes report.new
        ≡ string_bytes report.old ++ clock_text (frame_of scenario.now) clock) }
{
    match clock {
        None => add(report, " -"),
        Some(clock) => {
            if is_past(scenario, clock) {
                add(report, " !")
            } else {
                add_value(report, clock)
            }
        }
    }
}

fn add_clocks(
    report: &mut String,
    scenario: &Scenario,
    clocks: &[Option<u32>],
) -> Result<(), AllocError>
    ensures { OnOk result (string_bytes report.new
        ≡ string_bytes report.old ++ clocks_text (frame_of scenario.now) clocks.now) }
{
    for clock in clocks {
        add_clock(report, scenario, *clock)?;
    }
    Ok(())
}

/// Adds the line up to its clocks.
fn add_front(report: &mut String, pulse: u32) -> Result<(), AllocError>
    ensures { OnOk result (string_bytes report.new
        ≡ string_bytes report.old ++ (codes "pulse " ++ (decimal pulse ++ codes " clocks"))) }
{
    add(report, "pulse ")?;
    add_number(report, pulse)?;
    add(report, " clocks")
}

/// Adds what is between the clocks and the verdicts.
fn add_counts(report: &mut String, settled: u32, steps: u32) -> Result<(), AllocError>
    ensures { OnOk result (string_bytes report.new
        ≡ string_bytes report.old ++ (codes " settled " ++ (decimal settled ++ (codes " steps "
        ++ decimal steps)))) }
{
    add(report, " settled ")?;
    add_number(report, settled)?;
    add(report, " steps ")?;
    add_number(report, steps)
}

fn verdict_text(verdict: Option<bool>) -> &'static str
    ensures { result.now ≡ verdict_text verdict }
{
    match verdict {
        None => "none",
        Some(true) => "yes",
        Some(false) => "no",
    }
}

/// Returns the end of a line that has no verdict on counting.
fn agree_end(verdict: Option<bool>) -> &'static str
    ensures { result.now ≡ codes " agree " ++ (verdict_text verdict ++ codes "\n") }
{
    match verdict {
        None => " agree none\n",
        Some(true) => " agree yes\n",
        Some(false) => " agree no\n",
    }
}

fn add_verdicts(report: &mut String, scenario: &Scenario, judged: Judged) -> Result<(), AllocError>
    ensures { OnOk result (string_bytes report.new ≡ string_bytes report.old
        ++ (codes " agree " ++ (verdict_text judged.agree ++ counts_end (frame_of scenario.now) judged.counts))) }
{
    if !scenario.is_judged() {
        return add(report, agree_end(judged.agree));
    }
    add(report, " agree ")?;
    add(report, verdict_text(judged.agree))?;
    add(report, " counts ")?;
    add(report, verdict_text(judged.counts))?;
    add(report, "\n")
}

fn add_record(
    report: &mut String,
    scenario: &Scenario,
    one: &PulseRecord,
    judged: Judged,
) -> Result<(), AllocError>
    ensures { OnOk result (string_bytes report.new
        ≡ string_bytes report.old ++ record_line (frame_of scenario.now) one.now judged) }
{
    add_front(report, one.row.pulse)?;
    add_clocks(report, scenario, one.clocks.as_slice())?;
    add_counts(report, one.row.settled, one.steps)?;
    add_verdicts(report, scenario, judged)
}

fn add_records(
    report: &mut String,
    scenario: &Scenario,
    records: &[PulseRecord],
    judged: &[Judged],
) -> Result<(), AllocError>
    ensures { OnOk result (string_bytes report.new
        ≡ string_bytes report.old ++ record_lines (frame_of scenario.now) records.now judged.now) }
{
    let count = records.len().min(judged.len());
    for pulse in 0..count {
        let one = &records[pulse];
        add_record(report, scenario, one, judged[pulse])?;
    }
    Ok(())
}

// ---- the last line

fn is_yes(verdict: Option<bool>) -> bool
    ensures { result ≡ is_yes verdict }
{
    verdict.unwrap_or(false)
}

/// Returns how many pulses agree.
pub(crate) fn agreed(judged: &[Judged]) -> usize
    ensures { result ≡ agreed judged.now }
{
    judged.iter().filter(|one| is_yes(one.agree)).count()
}

/// Returns of how many pulses it is judged whether they agree.
pub(crate) fn agreement_judged(judged: &[Judged]) -> usize
    ensures { result ≡ agreement_judged judged.now }
{
    judged.iter().filter(|one| one.agree.is_some()).count()
}

fn counted(judged: &[Judged]) -> usize
    ensures { result ≡ count_by (λ j. is_yes j.counts) judged.now }
{
    judged.iter().filter(|one| is_yes(one.counts)).count()
}

fn counting_judged(judged: &[Judged]) -> usize
    ensures { result ≡ count_by (λ j. is_some j.counts) judged.now }
{
    judged.iter().filter(|one| one.counts.is_some()).count()
}

fn counted_end(alloc: Global, scenario: &Scenario, judged: &[Judged]) -> Result<String, AllocError>
    ensures { IfOk result (λ text. string_bytes text ≡ counted_end (frame_of scenario.now) judged.now) }
{
    if !scenario.is_judged() {
        return String::from_str(alloc, "\n");
    }
    let counted = counted(judged);
    let counting = counting_judged(judged);
    format!(in alloc; " counted {counted} of {counting}\n")
}

fn last_line(alloc: Global, scenario: &Scenario, judged: &[Judged]) -> Result<String, AllocError>
    ensures { IfOk result (λ text. string_bytes text ≡ last_line (frame_of scenario.now) judged.now) }
{
    let agreed = agreed(judged);
    let agreement = agreement_judged(judged);
    let end = counted_end(alloc, scenario, judged)?;
    format!(in alloc; "agreed {agreed} of {agreement}{end}")
}

// ---- the report

/// Returns the report of these records, of which this is judged.
fn report_text(
    alloc: Global,
    scenario: &Scenario,
    records: &[PulseRecord],
    judged: &[Judged],
) -> Result<String, AllocError>
    ensures { IfOk result (λ text. string_bytes text
        ≡ report_text (frame_of scenario.now) (is_some scenario.now.clock) records.now judged.now) }
{
    let mut text = String::new(alloc);
    add_head(&mut text, scenario)?;
    add_records(&mut text, scenario, records, judged)?;
    let last = last_line(alloc, scenario, judged)?;
    add(&mut text, last.as_str())?;
    Ok(text)
}

/// The report of a run, and whether no pulse's verdict on agreement is no.
#[derive(Drop)]
pub struct RunReport {
    pub text: String,
    pub agrees: bool,
}

/// Returns the report of a scenario's run: a line for the scenario, one for each closed pulse, and one for all. Each
/// pulse is judged once.
pub fn report(alloc: Global, scenario: &Scenario, run: &Run) -> Result<RunReport, AllocError>
    ensures text { IfOk result (λ report. string_bytes report.text
        ≡ report_of (frame_of scenario.now) (is_some scenario.now.clock) run.now.records.items) }
    ensures agrees { IfOk result (λ report. report.agrees
        ≡ all_agree (frame_of scenario.now) (is_some scenario.now.clock) run.now.records.items) }
{
    let records = run.records.as_slice();
    let judged = judged_of(alloc, scenario, records)?;
    let text = report_text(alloc, scenario, records, judged.as_slice())?;
    let agrees = none_disagrees(judged.as_slice());
    Ok(RunReport { text, agrees })
}
