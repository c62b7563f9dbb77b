//! Laws of the rules: what is told of a program is told once, and what more is known of keeps every rule.

ghost use Rattle.std.specs.Prelude.{◌≡◌, ℕ, Some, IsSomeAnd, List};
ghost use Rattle.node_env.specs.Env.{Extent};
ghost use Rattle.bpf_insn.specs.declared.forms.Insn.{Insn};
ghost use Rattle.bpf_insn.specs.declared.edges.Way.{Way};
ghost use Rattle.bpf_verify.specs.States.{AbstractState, IsContainedIn, IsProper, joined_state};
ghost use Rattle.bpf_verify.specs.Rules.{KeepsRules};
ghost use Rattle.bpf_verify.specs.Outcomes.{outcome};
ghost use Rattle.bpf_verify.specs.Typable.{Typable};
ghost use Rattle.bpf_verify.specs.Paths.{IsLongestPath};
ghost use Rattle.bpf_verify.specs.Accepted.{IsFirstBroken};

/// States that a program that is refused at a slot isn't typable, and there is one such slot at most; it has one
/// longest path at most.
pub fn one_verdict()
    ensures untypable { (program : List Insn) (shape : Extent) (slot : ℕ) →
        IsFirstBroken program shape slot → Typable program shape → ⊥ }
    ensures slot { (program : List Insn) (shape : Extent) (slot other : ℕ) →
        IsFirstBroken program shape slot → IsFirstBroken program shape other → slot ≡ other }
    ensures longest { (program : List Insn) (count other : ℕ) →
        IsLongestPath program count → IsLongestPath program other → count ≡ other }
{}

/// States that an instruction keeps the rules that it kept if more is known before it, and that more is known after it.
/// At a join the least that is known on both edges is known.
pub fn more_keeps_rules()
    ensures rules { (program : List Insn) (shape : Extent) (slot : ℕ) (insn : Insn) (A C : AbstractState) →
        IsProper A → IsContainedIn A C → KeepsRules program shape slot insn (Some C) →
        KeepsRules program shape slot insn (Some A) }
    ensures outcome { (program : List Insn) (shape : Extent) (slot : ℕ) (insn : Insn) (way : Way)
        (A C D : AbstractState) →
        IsProper A → IsContainedIn A C → KeepsRules program shape slot insn (Some C) →
        outcome shape insn A way ≡ Some D → IsSomeAnd (outcome shape insn C way) (λ E. IsContainedIn D E) }
    ensures first { (A C : AbstractState) → IsContainedIn A (joined_state A C) }
    ensures second { (A C : AbstractState) → IsContainedIn C (joined_state A C) }
    ensures least { (A C E : AbstractState) → IsContainedIn A E → IsContainedIn C E →
        IsContainedIn (joined_state A C) E }
{}
