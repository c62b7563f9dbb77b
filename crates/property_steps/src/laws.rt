//! What the step of a property says of runs.
ghost use Rattle.rule_syntax.specs.declared.syntax.Statement.{Statement};
ghost use Rattle.rule_syntax.specs.declared.syntax.Term.{Term};
ghost use Rattle.step_searches.specs.declared.claims.Step.{Step};
ghost use Rattle.property_steps.specs.Always.{AlwaysHolds, StepHolds};
ghost use Rattle.property_steps.specs.Steps.{IsPropertyStep};

/// States that a property always holds in runs of a rule if its step holds of the rule.
pub fn a_step_says_always()
    ensures { (rule : Statement) (t : Term) (step : Step) → IsPropertyStep t step → StepHolds rule step → AlwaysHolds rule t step }
{}
