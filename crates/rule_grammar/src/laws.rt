//! Laws of the grammar of rules, for those who hold only a text.
ghost use Rattle.std.specs.Prelude.{◌≡◌, ◌⊎◌, ℕ, List, Ok, Err};
ghost use Rattle.rule_text.specs.declared.errors.RuleError.{RuleError};
ghost use Rattle.rule_text.specs.declared.errors.ReadRuleError.TheVariants.{At};
ghost use Rattle.rule_text.specs.Spelling.{Spells};
ghost use Rattle.rule_text.specs.Statements.{RuleForm, rule_read};
ghost use Rattle.rule_grammar.specs.Limits.{IsLimit, IsPastLimit};

/// States that a text that spells a rule, by the grammar of docs/RULES.md, is read as this rule, unless it is past a
/// limit of the reader. So a text that is rejected for another reason spells no rule, and a text within the limits
/// spells one rule at most.
pub fn what_is_spelled_is_read()
    ensures read { (text : List ℕ) (rule : RuleForm) → Spells text rule →
        (rule_read text ≡ Ok rule) ⊎ IsPastLimit (rule_read text) }
    ensures rejected { (text : List ℕ) (error : RuleError) (line column : ℕ) →
        rule_read text ≡ Err (At error line column) → (IsLimit error → ⊥) → (rule : RuleForm) → Spells text rule → ⊥ }
    ensures one { (text : List ℕ) (a b : RuleForm) → Spells text a → Spells text b →
        (IsPastLimit (rule_read text) → ⊥) → a ≡ b }
{}
