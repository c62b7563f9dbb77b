//! What a run comes to, in numbers.
ghost use Rattle.std.specs.Prelude.{◌≡◌};
ghost use Rattle.bench_scenario.specs.Summary.{SumsUp, first_no, is_no, most_steps};

use crate::in_step::in_step_since;
use crate::printing::{agreed, agreement_judged};
use crate::verdicts::Judged;
use bench_core::PulseRecord;

/// What a run comes to: the pulses that agree, those that are judged, the first that disagrees, the one from which on
/// the clocks are in step, and the greatest number of steps. Pulses are counted from 1 on.
#[derive(Clone, Copy, Debug, PartialEq, Eq)]
pub struct RunSummary {
    pub agreed: usize,
    pub judged: usize,
    pub first_disagreement: Option<usize>,
    pub in_step_since: Option<usize>,
    pub steps: u32,
}

fn is_no(verdict: Option<bool>) -> bool
    ensures { result ≡ is_no verdict }
{
    match verdict {
        Some(verdict) => !verdict,
        None => false,
    }
}

/// Returns the first pulse that disagrees.
fn first_no(judged: &[Judged]) -> Option<usize>
    ensures { result ≡ first_no 1 judged.now }
{
    for place in 0..judged.len() {
        if is_no(judged[place].agree) {
            return Some(place + 1);
        }
    }
    None
}

fn most_steps(records: &[PulseRecord]) -> u32
    ensures { result ≡ most_steps records.now }
{
    let mut most = 0;
    for one in records {
        most = one.steps.max(most);
    }
    most
}

/// Returns what a run results in, of which these are the records and what is judged of them.
pub fn summary_of(modulus: u32, records: &[PulseRecord], judged: &[Judged]) -> RunSummary
    ensures { SumsUp modulus records.now judged.now result }
{
    RunSummary {
        agreed: agreed(judged),
        judged: agreement_judged(judged),
        first_disagreement: first_no(judged),
        in_step_since: in_step_since(modulus, records),
        steps: most_steps(records),
    }
}
