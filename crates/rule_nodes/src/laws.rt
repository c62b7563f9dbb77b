//! Laws of the code of rules, for those who hold only its instructions.
ghost use Rattle.std.specs.Prelude.{ℕ, List};
ghost use Rattle.std.specs.List.Sorted.{IsNonDecreasing, IsPermutation};
ghost use Rattle.node_env.specs.Env.{Extent, IsExtent};
ghost use Rattle.bpf_verify.specs.Typable.{Typable};
ghost use Rattle.clock_nodes.specs.Ends.{HasRuns, EndsBy};
ghost use Rattle.rule_syntax.specs.declared.syntax.Sizes.{Sizes};
ghost use Rattle.rule_syntax.specs.declared.syntax.Statement.{Statement};
ghost use Rattle.rule_meaning.specs.Meaning.{in_order};
ghost use Rattle.rule_nodes.specs.Fits.{BlockFits};
ghost use Rattle.rule_nodes.specs.Code.{rule_code};
ghost use Rattle.rule_nodes.specs.Ends.{AreSizes, IsRuleEnd};

/// States that the code of a rule has a complete run from every memory, with all messages, both coins and each node
/// number. Every complete run leaves the memory and sends the messages that the rule means.
pub fn rule_ends()
    ensures runs { (rule : Statement) (z : Sizes) (shape : Extent) → AreSizes z shape → BlockFits rule z 0 0 →
        HasRuns (rule_code rule z) shape }
    ensures ends { (rule : Statement) (z : Sizes) (shape : Extent) → AreSizes z shape → BlockFits rule z 0 0 →
        EndsBy (rule_code rule z) shape (IsRuleEnd z rule) }
{}

/// States that the code of a rule is typable for every shape, so `verify` of `bpf_verify` rejects none.
pub fn rule_is_taken()
    ensures { (rule : Statement) (z : Sizes) (shape : Extent) → AreSizes z shape →
        IsExtent shape.nodes shape.memory → BlockFits rule z 0 0 → Typable (rule_code rule z) shape }
{}

/// States that the numbers of `in_order` rise, and are the numbers that were given.
pub fn order_rises()
    ensures rises { (vs : List ℕ) → IsNonDecreasing (in_order vs) }
    ensures same { (vs : List ℕ) → IsPermutation vs (in_order vs) }
{}
