//! Laws of reports.

ghost use Rattle.bench_scenario.specs.Laws.{PulsesAreCounted, CountsNothing, OwnAgrees};
ghost use Rattle.bench_scenario.specs.RuleRuns.{RulesRun};

/// States what the verdicts of a report say of its records (docs/SCENARIOS.md, "Verdicts").
pub fn verdicts()
    ensures agree { OwnAgrees }
    ensures counts { PulsesAreCounted }
    ensures nothing { CountsNothing }
{}

/// States that in every closed pulse of every list of steps each node whose program is that of a rule does what the
/// rule means: its memory afterwards and its messages are those that the rule gives for its memory, inbox, coin and
/// number.
pub fn rules_run()
    ensures { RulesRun }
{}
