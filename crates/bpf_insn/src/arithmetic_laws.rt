//! What holds of every result.

ghost use Rattle.std.specs.Prelude.{◌≡◌, ◌<◌, ◌-◌, ◌%◌, ◌^◌, ℕ};
ghost use Rattle.bpf_insn.specs.Arithmetic.{bits_of, swap_bit_count, movsx_width};
ghost use Rattle.bpf_insn.specs.Arithmetic.{alu_result, neg_result, movsx_result, swap_result, holds};
ghost use Rattle.bpf_insn.specs.declared.forms.Width.{Width};
ghost use Rattle.bpf_insn.specs.declared.forms.AluOp.{AluOp};
ghost use Rattle.bpf_insn.specs.declared.forms.AluOp.TheVariants.{Sdiv, Smod};
ghost use Rattle.bpf_insn.specs.declared.forms.MovsxKind.{MovsxKind};
ghost use Rattle.bpf_insn.specs.declared.forms.Cond.{Cond};
ghost use Rattle.bpf_insn.specs.declared.forms.Order.{Order};
ghost use Rattle.bpf_insn.specs.declared.forms.SwapBits.{SwapBits};

/// States that each result fits its width.
pub fn results_fit()
    ensures alu { (op : AluOp) (width : Width) (a b : ℕ) → alu_result op width a b < 2 ^ bits_of width }
    ensures neg { (width : Width) (a : ℕ) → neg_result width a < 2 ^ bits_of width }
    ensures movsx { (kind : MovsxKind) (a : ℕ) → movsx_result kind a < 2 ^ bits_of (movsx_width kind) }
    ensures swap { (order : Order) (bits : SwapBits) (a : ℕ) →
        swap_result order bits a < 2 ^ swap_bit_count bits }
{}

/// States that putting bytes in an order twice gives back the low bits.
pub fn swap_twice()
    ensures { (order : Order) (bits : SwapBits) (a : ℕ) →
        swap_result order bits (swap_result order bits a) ≡ a % 2 ^ swap_bit_count bits }
{}

/// States the least signed number by -1: the quotient is the least again, the remainder 0.
pub fn least_by_minus_one()
    ensures quotient { (width : Width) → let least = 2 ^ (bits_of width - 1) in
        alu_result Sdiv width least (2 ^ bits_of width - 1) ≡ least }
    ensures remainder { (width : Width) → let least = 2 ^ (bits_of width - 1) in
        alu_result Smod width least (2 ^ bits_of width - 1) ≡ 0 }
{}

/// Results and conditions see the low bits of their operands alone.
pub fn low_bits_decide()
    ensures alu { (op : AluOp) (width : Width) (a b : ℕ) →
        alu_result op width (a % 2 ^ bits_of width) (b % 2 ^ bits_of width) ≡ alu_result op width a b }
    ensures holds { (cond : Cond) (width : Width) (a b : ℕ) →
        holds cond width (a % 2 ^ bits_of width) (b % 2 ^ bits_of width) ≡ holds cond width a b }
{}
