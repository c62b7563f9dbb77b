//! What a search that finds nothing proves.
ghost use Rattle.std.specs.Prelude.{ℕ, List, IsTrue};
ghost use Rattle.rule_syntax.specs.declared.syntax.Statement.{Statement};
ghost use Rattle.rule_steps.specs.Steps as steps;
ghost use Rattle.rule_paths.specs.Relations.{Numbers, RelationHolds};
ghost use Rattle.rule_paths.specs.Covered.{RuleIsCovered, always_sends};
ghost use Rattle.step_searches.specs.declared.claims.Step.{Step};
ghost use Rattle.step_searches.specs.declared.uses.Use.{Use};
ghost use Rattle.step_searches.specs.Claims.{claim_of, StepIsCovered};
ghost use Rattle.step_searches.specs.Searches.{begun, both_paths};

/// States that a step holds for all sizes if no numbers begin it, take two paths and leave it, with any laws of quorums.
pub fn a_search_proves_a_step()
    ensures { (rule : Statement) (step : Step) (uses : List Use) → RuleIsCovered step.words rule → IsTrue (always_sends rule) →
        StepIsCovered step → ((v : Numbers) → RelationHolds v (begun step) → RelationHolds v (both_paths rule step uses) → ⊥) →
        (free : ℕ → ℕ) → steps.Holds rule (claim_of step free) }
{}
