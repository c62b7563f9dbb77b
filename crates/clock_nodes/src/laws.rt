//! Laws of the programs, for those who hold only their instructions, and of the pair.
ghost use Rattle.std.specs.Prelude.{◌≡◌, ◌≤◌, ◌<◌, ◌+◌, ◌*◌, ◌^◌, ℕ, List, Option, All, length};
ghost use Rattle.node_env.specs.declared.shape.TheConstants.{MAX_NODES};
ghost use Rattle.node_env.specs.Env.{Extent, IsExtent, IsSetting, Setting};
ghost use Rattle.node_env.specs.Slots.{IsSlot};
ghost use Rattle.bpf_insn.specs.Programs.{IsProgram, slots_of};
ghost use Rattle.bpf_verify.specs.Typable.{Typable};
ghost use Rattle.bpf_verify.specs.Paths.{IsLongestPath};
ghost use Rattle.clock_nodes.specs.Rule.{Rule, IsRule, clock_of, mark_of, pair_after, with_pair};
ghost use Rattle.clock_nodes.specs.Listings.{listing, clock_listing, say_listing, echo_listing};
ghost use Rattle.clock_nodes.specs.Ends.{HasRuns, EndsBy, IsClockEnd, IsSayEnd, IsEchoEnd};

/// States that the clock's instructions are a program, however they were made. It has a complete run from every memory,
/// with all messages and coins, and every complete run ends as the rule says.
pub fn clock_ends()
    ensures slots { (nodes quorum modulus : ℕ) → slots_of (listing nodes quorum modulus) ≡ 27 + 7 * nodes }
    ensures program { (rule : Rule) → IsRule rule.nodes rule.faults rule.modulus → IsProgram (clock_listing rule) }
    ensures runs { (rule : Rule) (shape : Extent) → IsRule rule.nodes rule.faults rule.modulus →
        rule.nodes ≡ shape.nodes → HasRuns (clock_listing rule) shape }
    ensures ends { (rule : Rule) (shape : Extent) → IsRule rule.nodes rule.faults rule.modulus →
        rule.nodes ≡ shape.nodes → EndsBy (clock_listing rule) shape (IsClockEnd rule.faults rule.modulus) }
{}

/// States that every clock is accepted: its listing is typable for every shape of its nodes, so `verify` of
/// `bpf_verify` refuses no clock, and it announces 17 + 7n.
pub fn clock_is_taken()
    ensures typable { (rule : Rule) (shape : Extent) → IsRule rule.nodes rule.faults rule.modulus →
        IsExtent shape.nodes shape.memory → rule.nodes ≡ shape.nodes → Typable (clock_listing rule) shape }
    ensures longest { (rule : Rule) → IsLongestPath (clock_listing rule) (17 + 7 * rule.nodes) }
{}

/// States of `say`, for a value or none for each node, what `clock_ends` states of the clock.
pub fn say_ends()
    ensures slots { (values : List (Option ℕ)) → slots_of (say_listing values) ≤ 2 + 3 * length values }
    ensures program { (values : List (Option ℕ)) → length values ≤ MAX_NODES →
        All IsSlot values → IsProgram (say_listing values) }
    ensures runs { (values : List (Option ℕ)) (shape : Extent) → length values ≡ shape.nodes → All IsSlot values →
        HasRuns (say_listing values) shape }
    ensures ends { (values : List (Option ℕ)) (shape : Extent) → length values ≡ shape.nodes → All IsSlot values →
        EndsBy (say_listing values) shape (IsSayEnd values) }
{}

/// States the same of `echo`.
pub fn echo_ends()
    ensures slots { (nodes : ℕ) → slots_of (echo_listing nodes) ≡ 2 + 5 * nodes }
    ensures program { (nodes : ℕ) → nodes ≤ MAX_NODES → IsProgram (echo_listing nodes) }
    ensures runs { (shape : Extent) → HasRuns (echo_listing shape.nodes) shape }
    ensures ends { (shape : Extent) → EndsBy (echo_listing shape.nodes) shape IsEchoEnd }
{}

/// States that the listings of `say` and `echo` are accepted, too.
pub fn hostile_is_taken()
    ensures say { (values : List (Option ℕ)) (shape : Extent) → IsExtent shape.nodes shape.memory →
        length values ≡ shape.nodes → Typable (say_listing values) shape }
    ensures echo { (shape : Extent) → IsExtent shape.nodes shape.memory → Typable (echo_listing shape.nodes) shape }
{}

/// States that a clock and a mark that are written are read back, and that those of the rule fit their places.
pub fn pair_is_read_back()
    ensures clock { (pair : ℕ × ℕ) (memory : List ℕ) → pair.0 < 2 ^ 32 → clock_of (with_pair pair memory) ≡ pair.0 }
    ensures mark { (pair : ℕ × ℕ) (memory : List ℕ) → pair.1 < 2 ^ 32 → mark_of (with_pair pair memory) ≡ pair.1 }
    ensures fits { (rule : Rule) (env : Setting) (memory : List ℕ) → IsRule rule.nodes rule.faults rule.modulus →
        IsSetting env → ((pair_after rule.faults rule.modulus env memory).0 < rule.modulus) ×
        ((pair_after rule.faults rule.modulus env memory).1 < 2) }
{}
