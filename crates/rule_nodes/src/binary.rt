//! The code of operators between two terms.
ghost use Rattle.std.specs.Prelude.{◌≡◌, ◌≤◌, ◌++◌, [], IfOk};
ghost use Rattle.rule_nodes.specs.declared.numbers.Source.TheVariants.{Constant, FromLocal, Computed};
ghost use Rattle.rule_nodes.specs.Operands.{term_source, IsSourceWithin};
ghost use Rattle.rule_nodes.specs.Code.{far_of, by_operator, left_code, right_code, beside_code, binary_code};

use crate::insns::{
    copy_of, jump_by_of, jump_on_of, jump_register_of, mirror_of, operation_of, place_of,
    set_number_of,
};
use crate::numbers::{Place, Purpose, Source};
use crate::operands::{get_of, operand_of, source, with_load};
use crate::parts::{behind_test_of, by_value_of, far_for, joined, kept_then, single, when_for};
use bpf_insn::{Insn, MAX_SLOTS, Operand, Reg, Width};
use rule_meaning::operate_of;
use rule_syntax::{Comparison, Operator, Sizes, Term};
use std::alloc::{AllocError, Global};

/// Returns the code of an operator on r0 and an operand, for a purpose.
fn by_operator_of(
    operator: Operator,
    src: Operand,
    code: Vec<Insn>,
    purpose: Purpose,
) -> Result<Vec<Insn>, AllocError>
    requires { far_of purpose ≤ MAX_SLOTS }
    ensures { IfOk result (λ c. c.items ≡ by_operator operator src purpose code.items) }
{
    match operator {
        Operator::Compute(op) => {
            let act = Insn::Alu {
                op: operation_of(op),
                width: Width::W32,
                dst: Reg::R0,
                src,
            };
            by_value_of(joined(code, &[act])?, purpose)
        }
        Operator::Compare(comparison) => {
            let on = jump_on_of(when_for(purpose), comparison);
            let jump = jump_by_of(on, src, far_for(purpose));
            behind_test_of(joined(code, &[jump])?, purpose)
        }
    }
}

/// Returns the code of an operator whose right number is found.
pub fn right_found(
    operator: Operator,
    y: Source,
    left: Vec<Insn>,
    purpose: Purpose,
) -> Result<Vec<Insn>, AllocError>
    requires near { far_of purpose ≤ MAX_SLOTS }
    requires within { IsSourceWithin y 256 }
    ensures { IfOk result (λ c. c.items ≡ right_code operator y purpose left.items) }
{
    by_operator_of(operator, operand_of(y), with_load(left, y)?, purpose)
}

/// Returns the code of an operator whose left number is found and whose right one is computed.
fn left_found(
    operator: Operator,
    x: Source,
    right: Vec<Insn>,
    purpose: Purpose,
) -> Result<Vec<Insn>, AllocError>
    requires near { far_of purpose ≤ MAX_SLOTS }
    requires within { IsSourceWithin x 256 }
    ensures { IfOk result (λ c. c.items ≡ left_code operator x purpose right.items) }
{
    match operator {
        Operator::Compute(_) => {
            let both = joined(right, &[copy_of(Reg::R1, Reg::R0), get_of(Reg::R0, x)])?;
            by_operator_of(operator, Operand::Reg(Reg::R1), both, purpose)
        }
        Operator::Compare(comparison) => {
            right_found(Operator::Compare(mirror_of(comparison)), x, right, purpose)
        }
    }
}

/// Returns the code of an operator whose right number is computed.
fn right_computed(
    operator: Operator,
    x: Source,
    depth: u32,
    left: Vec<Insn>,
    right: Vec<Insn>,
    purpose: Purpose,
) -> Result<Vec<Insn>, AllocError>
    requires near { far_of purpose ≤ MAX_SLOTS }
    requires within { IsSourceWithin x 256 }
    ensures { IfOk result (λ c. c.items ≡ binary_code Computed x operator depth purpose left.items right.items) }
{
    match x {
        Source::Computed => {
            let beside = left_found(operator, Source::FromLocal(depth), right, purpose)?;
            kept_then(left, depth, &beside)
        }
        Source::Constant(_) => left_found(operator, x, right, purpose),
        Source::FromLocal(_) => left_found(operator, x, right, purpose),
        Source::FromWord(_) => left_found(operator, x, right, purpose),
    }
}

/// Returns the code that compares a place with a constant.
fn place_beside(
    alloc: Global,
    place: Place,
    comparison: Comparison,
    c: u32,
    left: Vec<Insn>,
    purpose: Purpose,
) -> Result<Vec<Insn>, AllocError>
    requires { far_of purpose ≤ MAX_SLOTS }
    ensures { IfOk result (λ a. a.items ≡ beside_code place comparison c purpose left.items) }
{
    match place {
        Place::InRegister(register) => {
            let on = jump_on_of(when_for(purpose), comparison);
            let jump = jump_register_of(register, on, c, far_for(purpose));
            behind_test_of(single(alloc, jump)?, purpose)
        }
        Place::OnStack(_) => {
            right_found(
                Operator::Compare(comparison),
                Source::Constant(c),
                left,
                purpose,
            )
        }
    }
}

/// Returns the code of an operator between a local and a constant.
fn local_beside(
    alloc: Global,
    operator: Operator,
    k: u32,
    c: u32,
    left: Vec<Insn>,
    purpose: Purpose,
) -> Result<Vec<Insn>, AllocError>
    requires { far_of purpose ≤ MAX_SLOTS }
    ensures { IfOk result (λ a. a.items ≡ binary_code (Constant c) (FromLocal k) operator 0 purpose left.items []) }
{
    match operator {
        Operator::Compute(_) => right_found(operator, Source::Constant(c), left, purpose),
        Operator::Compare(comparison) => {
            place_beside(alloc, place_of(k), comparison, c, left, purpose)
        }
    }
}

/// Returns the code of an operator whose right number is a constant.
fn beside_constant(
    alloc: Global,
    operator: Operator,
    x: Source,
    c: u32,
    left: Vec<Insn>,
    purpose: Purpose,
) -> Result<Vec<Insn>, AllocError>
    requires near { far_of purpose ≤ MAX_SLOTS }
    requires within { IsSourceWithin x 256 }
    ensures { IfOk result (λ a. a.items ≡ binary_code (Constant c) x operator 0 purpose left.items []) }
{
    match x {
        Source::FromLocal(k) => local_beside(alloc, operator, k, c, left, purpose),
        Source::Constant(b) => {
            let insn = set_number_of(Reg::R0, operate_of(operator, b, c));
            by_value_of(single(alloc, insn)?, purpose)
        }
        Source::FromWord(_) => right_found(operator, Source::Constant(c), left, purpose),
        Source::Computed => right_found(operator, Source::Constant(c), left, purpose),
    }
}

fn by_sources(
    alloc: Global,
    operator: Operator,
    x: Source,
    y: Source,
    depth: u32,
    left: Vec<Insn>,
    right: Vec<Insn>,
    purpose: Purpose,
) -> Result<Vec<Insn>, AllocError>
    requires near { far_of purpose ≤ MAX_SLOTS }
    requires left { IsSourceWithin x 256 }
    requires right { IsSourceWithin y 256 }
    ensures { IfOk result (λ c. c.items ≡ binary_code y x operator depth purpose left.items right.items) }
{
    match y {
        Source::Computed => right_computed(operator, x, depth, left, right, purpose),
        Source::Constant(c) => beside_constant(alloc, operator, x, c, left, purpose),
        Source::FromLocal(_) => right_found(operator, y, left, purpose),
        Source::FromWord(_) => right_found(operator, y, left, purpose),
    }
}

/// Returns the code of an operator between two terms, from the code of either side.
pub fn binary_of(
    alloc: Global,
    operator: Operator,
    a: &Term,
    b: &Term,
    sizes: Sizes,
    loops: &[u32],
    depth: u32,
    left: Vec<Insn>,
    right: Vec<Insn>,
    purpose: Purpose,
) -> Result<Vec<Insn>, AllocError>
    requires near { far_of purpose ≤ MAX_SLOTS }
    requires left { IsSourceWithin (term_source a.now sizes loops.now) 256 }
    requires right { IsSourceWithin (term_source b.now sizes loops.now) 256 }
    ensures { IfOk result (λ c. c.items ≡ binary_code (term_source b.now sizes loops.now)
        (term_source a.now sizes loops.now) operator depth purpose left.items right.items) }
{
    let x = source(a, sizes, loops);
    let y = source(b, sizes, loops);
    by_sources(alloc, operator, x, y, depth, left, right, purpose)
}
