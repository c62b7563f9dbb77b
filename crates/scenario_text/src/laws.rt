//! Laws of scenarios.

ghost use Rattle.scenario_text.specs.Laws.{FrontIsDueAsWhole, FrontReadsAsWhole, OneScenario, RefusedReadsAsNone};

/// States that a table of which a program is refused reads as no scenario, like one that spells none.
pub fn refused_reads_as_none()
    ensures { RefusedReadsAsNone }
{}

/// States that the first bytes of a text, one more than a text may have, serve as well as the whole.
pub fn front_reads_as_whole()
    ensures reads { FrontReadsAsWhole }
    ensures due { FrontIsDueAsWhole }
{}

/// States that a text reads as at most one scenario: two have the same plain data and the same accepted programs, with
/// their announced counts.
pub fn one_scenario()
    ensures { OneScenario }
{}
