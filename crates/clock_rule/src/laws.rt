//! Laws of the rule of the built-in clock: its text says what the definition of the pair says, which was written apart.
ghost use Rattle.std.specs.Prelude.{◌≡◌, ◌≤◌, ℕ, List, Some, Ok, length};
ghost use Rattle.node_env.specs.Env.{IsSetting, Setting};
ghost use Rattle.clock_nodes.specs.Rule.{IsRule, pair_after, with_pair};
ghost use Rattle.clock_nodes.specs.Ends.{IsSentTo};
ghost use Rattle.rule_syntax.specs.declared.syntax.Statement.{Statement};
ghost use Rattle.rule_meaning.specs.Meaning.{pulse};
ghost use Rattle.rule_nodes.specs.Ends.{sizes_of};
ghost use Rattle.rule_text.specs.Forms.{statement_form};
ghost use Rattle.rule_text.specs.Statements.{rule_read};
ghost use Rattle.clock_rule.specs.declared.text.TheConstants.{CLOCK_RULE};
ghost use Rattle.clock_rule.specs.Clock.{clock_statement, clock_rule};

/// States that the rule of the built-in clock, in the language of rules, means the pair of `clock_nodes`. It leaves
/// this pair in the memory, keeps all other bytes, and sends the new clock to each node and to no other.
pub fn the_clock_rule_means_the_pair()
    ensures memory { (rule : Statement) (faults modulus : ℕ) (env : Setting) (before : List ℕ) →
        statement_form rule ≡ clock_statement → IsRule env.shape.nodes faults modulus → 8 ≤ length before →
        (pulse rule (sizes_of env.shape faults modulus) env before).memory
        ≡ with_pair (pair_after faults modulus env before) before }
    ensures sent { (rule : Statement) (faults modulus : ℕ) (env : Setting) (before : List ℕ) →
        statement_form rule ≡ clock_statement → IsRule env.shape.nodes faults modulus → IsSetting env →
        8 ≤ length before →
        IsSentTo env.shape.nodes (λ j. Some (pair_after faults modulus env before).0)
        (pulse rule (sizes_of env.shape faults modulus) env before).sent }
{}

/// States that the text of the rule is read as this rule, so that each rule that `read_rule` of `rule_text` returns for
/// it means the pair.
pub fn the_text_reads_as_the_rule()
    ensures reads { rule_read CLOCK_RULE.now ≡ Ok clock_rule }
{}
