//! What each pulse of a rule makes hold.
ghost use Rattle.std.specs.Prelude.{◌≡◌, ℕ, ◌*◌, ◌<◌, ◌≤◌, Bool, All, Some, List, [], ◌∷◌, length, IsTrue};
ghost use Rattle.node_env.specs.Env.{Setting};
ghost use Rattle.rule_syntax.specs.declared.syntax.Sizes.{Sizes};
ghost use Rattle.rule_syntax.specs.declared.syntax.Statement.{Statement};
ghost use Rattle.rule_meaning.specs.Meaning.{pulse, value, truth, message_from};
ghost use Rattle.rule_paths.specs.Relations.{Numbers, Relation, AgreeBelow, IsSettled, CanHold};
ghost use Rattle.rule_paths.specs.Covered.{RuleIsCovered, always_sends};
ghost use Rattle.rule_paths.specs.Stores.{Count, CanSee, IsNode, IsCounted, LeavesNode};
ghost use Rattle.rule_paths.specs.Paths.{Around, Place, IsAtPlace, HasAnswer, found_term, rule_place, passed};

/// States that each pulse of a covered rule takes a path: what the path makes hold can hold, if what comes behind the
/// rule can hold at each place that says what the pulse leaves. The counts there are the true ones.
pub fn a_pulse_is_a_path()
    ensures { (rule : Statement) (words : ℕ) (z : Sizes) (env : Setting) (memory : List ℕ) (start next : ℕ) (v : Numbers)
        (behind : Place → Relation) → CanSee z env → RuleIsCovered words rule → IsNode words z env next v start memory →
        ((to : Place) (w : Numbers) → next ≤ to.next → AgreeBelow next w v →
        IsAtPlace words z env w to (pulse rule z env memory) → CanHold to.next w (behind to)) →
        CanHold next v (passed rule 0 (rule_place start next) behind) }
{}

/// States that a rule which sends to all on each path sends one number to all, and that memories keep their length.
pub fn a_pulse_leaves_a_node()
    ensures { (rule : Statement) (words : ℕ) (z : Sizes) (env : Setting) (memory : List ℕ) → CanSee z env →
        RuleIsCovered words rule → IsTrue (always_sends rule) → 4 * words ≤ length memory → All (λ byte. byte < 256) memory →
        LeavesNode z.nodes memory (pulse rule z env memory) }
{}

/// States of a count on a path: if its test has an answer at a node j, the relation of that answer holds with some
/// further variables, from n on. `around` has variables of the node and of the message from it.
pub fn a_count_is_tested()
    ensures { (words : ℕ) (z : Sizes) (env : Setting) (n : ℕ) (v : Numbers) (count : Count) (around : Around) (j : ℕ)
        (answer : Bool) (is : IsCounted words z env n v count) → CanSee z env → j < z.nodes →
        IsSettled n v around.node j → IsSettled n v around.message (message_from z env j) →
        truth (value count.test z env (j ∷ []) is.state) ≡ answer →
        HasAnswer n v (found_term (Some around) count.test count.store n) answer }
{}
