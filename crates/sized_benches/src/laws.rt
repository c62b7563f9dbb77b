//! Laws of all benches whose loaded nodes run the built-in clock, and of whose nodes fewer than a third are not loaded.
ghost use Rattle.sized_benches.specs.Claimed.{ClaimsHold};
ghost use Rattle.sized_benches.specs.Benches.{ClockBenchesExist, ClockBenchesAgree, ClocksAgreeInRuns, CommonLasts, CommonLastsInRuns, FirstMessagesAreUniform, LiarsMayBeSilent, ClockBenchesMayStabilise, MayStabiliseInRuns, TransitionsAreSteps, TransitionsByAreSteps, ClockTransitionsLeadOn};

/// States that there are benches of which the laws below speak: of every setup with n > 3f.
pub fn clock_benches_exist()
    ensures { ClockBenchesExist }
{}

/// States that after every transition each loaded node sent one number to all.
pub fn first_messages_are_uniform()
    ensures { FirstMessagesAreUniform }
{}

/// States that from then on every transition is a step of the clock's rule, in the sense of `rule_steps`, for the set of
/// the loaded nodes.
pub fn transitions_are_steps()
    ensures steps { TransitionsAreSteps }
    ensures coins { TransitionsByAreSteps }
{}

/// States that the laws below speak of something: from every configuration some transition leads on, whatever comes from
/// the other nodes and however coins fall.
pub fn transitions_lead_on()
    ensures some { ClockTransitionsLeadOn }
    ensures inboxes { LiarsMayBeSilent }
{}

/// States that from every start the clocks of correct nodes agree after each pulse but the first.
pub fn clocks_agree()
    ensures paths { ClockBenchesAgree }
    ensures runs { ClocksAgreeInRuns }
{}

/// States that the bench may stabilise within M + 2 pulses from every start: that many pulses with the right coins lead
/// to lasting synchrony, whatever the other nodes send.
pub fn may_stabilise()
    ensures paths { ClockBenchesMayStabilise }
    ensures runs { MayStabiliseInRuns }
{}

/// States that a clock that all loaded nodes have and sent, with its mark, advances in every further pulse.
pub fn a_common_clock_lasts()
    ensures paths { CommonLasts }
    ensures runs { CommonLastsInRuns }
{}

/// States that a claim that holds of a rule for all sizes, in the sense of `rule_steps`, holds of the transitions of every
/// bench whose loaded nodes run the code of the rule.
pub fn claims_hold_of_benches()
    ensures { ClaimsHold }
{}
