//! Laws of lines.

ghost use Rattle.run_lines.specs.Laws.{JudgesAsTheReport, OneLineOnePulse, TellsItsPulse};

/// States what the lines of pulses let their reader know (docs/OUTPUT.md, "JSON lines").
pub fn lines()
    ensures tells { TellsItsPulse }
    ensures apart { OneLineOnePulse }
    ensures judges { JudgesAsTheReport }
{}
