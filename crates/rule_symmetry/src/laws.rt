//! Laws of symmetric rules, for those who hold only a rule's meaning.
ghost use Rattle.std.specs.Prelude.{◌≡◌, ◌<◌, ℕ, List, true};
ghost use Rattle.node_env.specs.Env.{Setting};
ghost use Rattle.rule_syntax.specs.declared.syntax.Sizes.{Sizes};
ghost use Rattle.rule_syntax.specs.declared.syntax.Statement.{Statement};
ghost use Rattle.rule_meaning.specs.Meaning.{message_from, pulse};
ghost use Rattle.rule_symmetry.specs.Symmetry.{is_symmetric};
ghost use Rattle.rule_symmetry.specs.Inboxes.{IsRenaming, IsSorting, IsToAll, SeeAlike};

/// States that what a symmetric rule does depends on its messages only by how many nodes sent each number. So nodes
/// may be renamed. It sends each node the same number, or each nothing.
pub fn a_symmetric_rule_reads_a_multiset()
    ensures multiset { (rule : Statement) (z : Sizes) (env other : Setting) (memory : List ℕ) →
        is_symmetric rule ≡ true → SeeAlike z env other → pulse rule z env memory ≡ pulse rule z other memory }
    ensures renamed { (rule : Statement) (z : Sizes) (env other : Setting) (memory : List ℕ) (name back : ℕ → ℕ) →
        is_symmetric rule ≡ true → IsRenaming z.nodes name back → env.coin ≡ other.coin →
        ((j : ℕ) → j < z.nodes → message_from z env j ≡ message_from z other (name j)) →
        pulse rule z env memory ≡ pulse rule z other memory }
    ensures sends { (rule : Statement) (z : Sizes) (env : Setting) (memory : List ℕ) → is_symmetric rule ≡ true →
        IsToAll z.nodes (pulse rule z env memory).sent }
{}

/// States that nodes can be renamed within their kinds so that any numbers of theirs are in order.
pub fn names_can_be_sorted()
    ensures { (n : ℕ) (kind number : ℕ → ℕ) → (was : ℕ → ℕ) × (is : ℕ → ℕ) × IsSorting n kind number was is }
{}
