//! Laws of steps.
ghost use Rattle.std.specs.Prelude.{◌≡◌, ℕ, suc, ◌+◌, ◌==◌, ◌&&◌, ◌<◌, ◌≤◌, Bool, true, false, IsTrue};
ghost use Rattle.std.specs.Prelude.{nat_le};
ghost use Rattle.node_env.specs.Env.{Setting};
ghost use Rattle.rule_syntax.specs.declared.syntax.Sizes.{Sizes};
ghost use Rattle.rule_syntax.specs.declared.syntax.Statement.{Statement};
ghost use Rattle.rule_syntax.specs.declared.syntax.Statement.TheVariants.{SendAll};
ghost use Rattle.rule_syntax.specs.declared.syntax.Term.TheVariants.{Word};
ghost use Rattle.rule_meaning.specs.Meaning.{truth, count_below, word_at, message_from};
ghost use Rattle.quorums.specs.Counts.{count, SomeNode, SomeCorrect, HasFewFaults};
ghost use Rattle.rule_steps.specs.Steps.{Between, Sees, EachCorrect, EachTwo, StepLeads, Claim, Holds, IsRuleRun};

/// States that the count of a rule's meaning is a count of the laws of `quorums`.
pub fn a_count_is_of_marks()
    ensures { (n : ℕ) (holds : ℕ → ℕ) → count_below n holds ≡ count n (λ j. truth (holds j)) }
{}

/// States the laws of `quorums` of the counts of a rule's meaning: `below`, that a count is at most n, `more_than_f`,
/// `one_inbox`, and `two_inboxes`, whose `p` and `q` are what two nodes test of the message of each node.
pub fn counts_of_the_meaning()
    ensures below { (n : ℕ) (p : ℕ → ℕ) → count_below n p ≤ n }
    ensures more_than_f { (n f : ℕ) (correct : ℕ → Bool) (p : ℕ → ℕ) → HasFewFaults n f correct →
        f < count_below n p → SomeCorrect n correct (λ w. IsTrue (truth (p w))) }
    ensures one_inbox { (n : ℕ) (p q : ℕ → ℕ) → n < count_below n p + count_below n q →
        SomeNode n (λ w. IsTrue (truth (p w)) × IsTrue (truth (q w))) }
    ensures two_inboxes { (n f : ℕ) (correct : ℕ → Bool) (p q : ℕ → ℕ) → HasFewFaults n f correct →
        n + f < count_below n p + count_below n q →
        SomeCorrect n correct (λ w. IsTrue (truth (p w)) × IsTrue (truth (q w))) }
{}

/// States that two correct nodes have the same message of each correct node.
pub fn correct_messages_agree()
    ensures { (z : Sizes) (correct : ℕ → Bool) (nodes : ℕ → Between) (p q j : ℕ) (at_p at_q : Setting) →
        Sees z correct nodes p at_p → Sees z correct nodes q at_q → j < z.nodes → IsTrue (correct j) →
        (message_from z at_p j ≡ (nodes j).sent) × (message_from z at_p j ≡ message_from z at_q j) }
{}

/// States that where no node is correct, each step holds.
pub fn any_step_of_nobody_holds()
    ensures { (rule : Statement) (z : Sizes) (fixed : Setting → Bool) (A B : Between → Between → Bool) →
        StepLeads rule z (λ j. false) fixed A B }
{}

/// States that a step is one of every run: a pulse of a run whose nodes are in the first set before it has them in the
/// second after it. So what leads from a set to itself is kept for good.
pub fn a_step_is_of_every_run()
    ensures step { (rule : Statement) (z : Sizes) (correct : ℕ → Bool) (fixed : Setting → Bool)
        (A B : Between → Between → Bool) (env : ℕ → ℕ → Setting) (nodes : ℕ → ℕ → Between) (k : ℕ) →
        StepLeads rule z correct fixed A B → IsRuleRun rule z correct env nodes →
        EachCorrect z.nodes correct (λ i. IsTrue (fixed (env k i))) → EachTwo z.nodes correct A (nodes k) →
        EachTwo z.nodes correct B (nodes (suc k)) }
    ensures kept { (rule : Statement) (z : Sizes) (correct : ℕ → Bool) (A : ℕ → Between → Between → Bool)
        (env : ℕ → ℕ → Setting) (nodes : ℕ → ℕ → Between) →
        ((k : ℕ) → StepLeads rule z correct (λ at. true) (A k) (A (suc k))) → IsRuleRun rule z correct env nodes →
        EachTwo z.nodes correct (A 0) (nodes 0) → (k : ℕ) → EachTwo z.nodes correct (A k) (nodes k) }
{}

/// States of the rule `send clock`, where the clock is the word 0: after every pulse each correct node has sent its
/// clock. So it is kept.
pub fn sending_the_clock_is_kept()
    ensures from_any { Holds (SendAll (Word 0)) (record {
      covers = λ z. nat_le 4 z.memory;
      fixed = λ at. true;
      before = λ z correct p q. true;
      after = λ z correct p q. p.sent == word_at 0 p.memory;
    }) }
    ensures kept { Holds (SendAll (Word 0)) (record {
      covers = λ z. nat_le 4 z.memory;
      fixed = λ at. true;
      before = λ z correct p q. p.sent == word_at 0 p.memory;
      after = λ z correct p q. p.sent == word_at 0 p.memory;
    }) }
{}
