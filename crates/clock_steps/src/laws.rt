//! Laws of the rule of the built-in clock, for all numbers of nodes, of which fewer than a third are Byzantine.
ghost use Rattle.std.specs.Prelude.{◌≡◌, ℕ, suc, ◌+◌, ◌%◌, ◌^◌, ◌<◌, ◌≤◌, Bool, false, Some, IsTrue};
ghost use Rattle.std.specs.FinMap.{get};
ghost use Rattle.node_env.specs.Env.{Setting};
ghost use Rattle.rule_syntax.specs.declared.syntax.Sizes.{Sizes};
ghost use Rattle.rule_syntax.specs.declared.syntax.Statement.{Statement};
ghost use Rattle.rule_text.specs.Forms.{statement_form};
ghost use Rattle.clock_rule.specs.Clock.{clock_statement};
ghost use Rattle.quorums.specs.Counts.{HasFewFaults};
ghost use Rattle.rule_steps.specs.Steps.{Between, IsBetween, EachCorrect, EachTwo, AreSmall, Holds, IsRuleRun};
ghost use Rattle.clock_steps.specs.Claims.{is_clock_size, common, agreement_claim, next, around, agreement_by_halves};

/// States the steps of the clock: after every pulse each two clocks agree, unless one is 0. If all correct nodes have
/// and sent the clock c, with the mark, all have and send the next one.
pub fn the_clock_holds_for_all_sizes()
    ensures agreement { (rule : Statement) → statement_form rule ≡ clock_statement → Holds rule agreement_claim }
    ensures next { (rule : Statement) (c : ℕ) → statement_form rule ≡ clock_statement → Holds rule (next c) }
    ensures around { (rule : Statement) → statement_form rule ≡ clock_statement → Holds rule around }
{}

/// States that a clock that all have, with the mark, advances by one in every further pulse of a run.
pub fn a_common_clock_advances_for_good()
    ensures { (rule : Statement) (z : Sizes) (correct : ℕ → Bool) (env : ℕ → ℕ → Setting) (nodes : ℕ → ℕ → Between)
        (first c : ℕ) → statement_form rule ≡ clock_statement → AreSmall z → IsTrue (is_clock_size z) →
        HasFewFaults z.nodes z.faults correct → IsRuleRun rule z correct env nodes → c < z.modulus →
        EachTwo z.nodes correct (common c) (nodes first) →
        (k : ℕ) → EachTwo z.nodes correct (common ((c + k) % z.modulus)) (nodes (first + k)) }
{}

/// States that the clock may stabilise within M + 2 pulses from every start. After the first pulse there is a number, at
/// most M, that its nodes alone determine. If all coins of the next pulses, of this number, are 0, and then all are 1,
/// each correct node has the clock 1 with its mark, whatever the others send.
pub fn the_clock_may_stabilise()
    ensures { (rule : Statement) (z : Sizes) (correct : ℕ → Bool) → statement_form rule ≡ clock_statement →
        AreSmall z → IsTrue (is_clock_size z) → HasFewFaults z.nodes z.faults correct →
        (zeros : (ℕ → Between) → ℕ) × ((one : ℕ → Between) → zeros one ≤ z.modulus) ×
        ((env : ℕ → ℕ → Setting) (nodes : ℕ → ℕ → Between) → IsRuleRun rule z correct env nodes →
        ((k : ℕ) → k < zeros (nodes 1) → EachCorrect z.nodes correct (λ i. (env (suc k) i).coin ≡ 0)) →
        EachCorrect z.nodes correct (λ i. (env (suc (zeros (nodes 1))) i).coin ≡ 1) →
        EachTwo z.nodes correct (common 1) (nodes (suc (suc (zeros (nodes 1)))))) }
{}

/// States that the laws above speak of something: from every start there is a run with any coins and any messages of the
/// other nodes.
pub fn every_start_has_a_run()
    ensures { (rule : Statement) (z : Sizes) (correct : ℕ → Bool) → statement_form rule ≡ clock_statement →
        AreSmall z → IsTrue (is_clock_size z) → (start : ℕ → Between) →
        EachCorrect z.nodes correct (λ i. IsBetween z (start i)) →
        (coins : ℕ → ℕ → ℕ) → ((k i : ℕ) → coins k i < 2) →
        (told : ℕ → ℕ → ℕ → ℕ) → ((k i j : ℕ) → told k i j < 2 ^ 32) →
        (env : ℕ → ℕ → Setting) × (nodes : ℕ → ℕ → Between) × IsRuleRun rule z correct env nodes ×
        (nodes 0 ≡ start) × ((k i : ℕ) → (env k i).coin ≡ coins k i) ×
        ((k i j : ℕ) → j < z.nodes → correct j ≡ false → get (env k i).inbox j ≡ Some (told k i j)) }
{}

/// States that n > 2f isn't enough: a Byzantine node among three splits the clocks.
pub fn half_the_nodes_are_too_few()
    ensures { (rule : Statement) → statement_form rule ≡ clock_statement → Holds rule agreement_by_halves → ⊥ }
{}
