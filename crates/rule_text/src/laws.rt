//! Laws of the definition of reading, for those who hold only a text.
ghost use Rattle.std.specs.Prelude.{◌≡◌, ℕ, List, Ok, length};
ghost use Rattle.rule_text.specs.Lines.{statement_lines, form_statements};
ghost use Rattle.rule_text.specs.Spelling.{Spells};
ghost use Rattle.rule_text.specs.Statements.{RuleForm, rule_read};

/// States that a text that is read as a rule spells this rule, by the grammar of docs/RULES.md.
pub fn what_is_read_is_spelled()
    ensures { (text : List ℕ) (rule : RuleForm) → rule_read text ≡ Ok rule → Spells text rule }
{}

/// States that a text that is read as a rule has as many lines of statements as the rule has statements.
pub fn each_statement_has_a_line()
    ensures { (text : List ℕ) (rule : RuleForm) → rule_read text ≡ Ok rule →
        length (statement_lines text) ≡ form_statements rule.statement }
{}
