//! Each call keeps the order of ranges: what it gives of smaller ranges is inside what it gives of
//! larger ones.

ghost use Rattle.std.specs.Prelude.{Bool};
ghost use Rattle.bpf_insn.specs.declared.forms.Width.{Width};
ghost use Rattle.bpf_insn.specs.declared.forms.AluOp.{AluOp};
ghost use Rattle.bpf_insn.specs.declared.forms.MovsxKind.{MovsxKind};
ghost use Rattle.bpf_insn.specs.declared.forms.Order.{Order};
ghost use Rattle.bpf_insn.specs.declared.forms.SwapBits.{SwapBits};
ghost use Rattle.bpf_insn.specs.declared.forms.Cond.{Cond};
ghost use Rattle.value_range.specs.Span.{Span, HasMembers, IsInside, hull_of, meet_of};
ghost use Rattle.value_range.specs.Results.{alu_of, neg_of, movsx_of, swap_of};
ghost use Rattle.value_range.specs.Conditions.{branch_of, ArePairsInside, IsOptionInside};

/// States that arithmetic and byte swaps of smaller ranges give a smaller range.
pub fn results_grow()
    ensures alu { (op : AluOp) (width : Width) (a b c d : Span) → HasMembers a → HasMembers b →
        IsInside a c → IsInside b d → IsInside (alu_of op width a b) (alu_of op width c d) }
    ensures neg { (width : Width) (a c : Span) → HasMembers a →
        IsInside a c → IsInside (neg_of width a) (neg_of width c) }
    ensures movsx { (kind : MovsxKind) (a c : Span) → HasMembers a →
        IsInside a c → IsInside (movsx_of kind a) (movsx_of kind c) }
    ensures swap { (order : Order) (bits : SwapBits) (a c : Span) → HasMembers a →
        IsInside a c → IsInside (swap_of order bits a) (swap_of order bits c) }
{}

/// States that the hull of smaller ranges is smaller, and that their meet is smaller or none.
pub fn joins_grow()
    ensures hull { (a b c d : Span) → IsInside a c → IsInside b d →
        IsInside (hull_of a b) (hull_of c d) }
    ensures meet { (a b c d : Span) → IsInside a c → IsInside b d →
        IsOptionInside (meet_of a b) (meet_of c d) }
{}

/// States that a condition leaves smaller ranges of smaller ones, or none.
pub fn branches_grow()
    ensures { (cond : Cond) (width : Width) (a b c d : Span) (taken : Bool) →
        HasMembers a → HasMembers b → IsInside a c → IsInside b d →
        ArePairsInside (branch_of cond width a b taken) (branch_of cond width c d taken) }
{}
