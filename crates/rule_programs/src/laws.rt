//! Laws of the texts of rules, for those who read only a text.
ghost use Rattle.std.specs.Prelude.{◌≡◌, ℕ, List};
ghost use Rattle.node_env.specs.Env.{Setting};
ghost use Rattle.rule_meaning.specs.Meaning.{NodeState, value};
ghost use Rattle.rule_syntax.specs.declared.syntax.Sizes.{Sizes};
ghost use Rattle.rule_syntax.specs.declared.syntax.Term.{Term};
ghost use Rattle.rule_text.specs.Forms.{term_form};
ghost use Rattle.rule_text.specs.Tables.{cell_at, table_term};

/// States that the term that is read for a lookup in a table has the number of the cell at the place, and that of no
/// message past the end of the table.
pub fn what_a_table_means()
    ensures { (cells : List ℕ) (t x : Term) (z : Sizes) (env : Setting) (J : List ℕ) (u : NodeState) →
        term_form t ≡ table_term cells (term_form x) → value t z env J u ≡ cell_at cells (value x z env J u) }
{}
