//! Formulas of relations.
ghost use Rattle.std.specs.Prelude.{◌≡◌, ℕ, ◌^◌, ◌⊎◌, IfOk};
ghost use Rattle.linear_certificates.specs.Meaning.{Assignment};
ghost use Rattle.linear_certificates.specs.Meaning as linear;
ghost use Rattle.rule_syntax.specs.declared.syntax.Comparison.TheVariants.{NotEqual};
ghost use Rattle.rule_syntax.specs.declared.syntax.Operation.TheVariants as operations;
ghost use Rattle.rule_nodes.specs.Code.{opposite};
ghost use Rattle.rule_paths.specs.Relations.{Constant, Relation, Always, IsAtMost, IsEqual, IsLess};
ghost use Rattle.rule_paths.specs.Paths as paths;
ghost use Rattle.rule_formulas.specs.Numbers.{expression, sum_expression, Implies};

use crate::numbers::{Number, Sum, Unformed, at_most};
use linear_certificates::Formula;
use rule_syntax::{Comparison, Operation};
use std::alloc::{AllocError, Global};

/// Returns the formula that two formulas hold.
pub fn both(alloc: Global, a: Formula, b: Formula) -> Result<Formula, AllocError>
    ensures { IfOk result (λ f. (v : Assignment) → linear.FormulaHolds v a → linear.FormulaHolds v b → linear.FormulaHolds v f) }
{
    Ok(Formula::Both(Box::new(alloc, a)?, Box::new(alloc, b)?))
}

/// Returns the formula that one of two formulas holds.
pub fn either(alloc: Global, a: Formula, b: Formula) -> Result<Formula, AllocError>
    ensures { IfOk result (λ f. (v : Assignment) → linear.FormulaHolds v a ⊎ linear.FormulaHolds v b → linear.FormulaHolds v f) }
{
    Ok(Formula::Either(Box::new(alloc, a)?, Box::new(alloc, b)?))
}

/// Returns the formula that two sums are one number.
pub fn equal(alloc: Global, a: Sum, b: Sum) -> Result<Formula, Unformed>
    ensures { IfOk result (λ f. Implies (IsEqual (sum_expression a) (sum_expression b)) f) }
{
    let low = at_most(alloc, a, b)?;
    let high = at_most(alloc, b, a)?;
    Ok(both(alloc, low, high)?)
}

/// Returns the formula that a number is below a sum.
pub fn less(alloc: Global, a: Number, b: Sum) -> Result<Formula, Unformed>
    ensures { IfOk result (λ f. Implies (IsLess (expression a) (sum_expression b)) f) }
{
    at_most(alloc, Sum::Two(a, Number::Constant(1)), b)
}

/// Returns the formula that two numbers differ.
fn unequal(alloc: Global, a: Number, b: Number) -> Result<Formula, Unformed>
    ensures { IfOk result (λ f. Implies (paths.compared NotEqual (expression a) (expression b)) f) }
{
    let below = less(alloc, a, Sum::Only(b))?;
    let above = less(alloc, b, Sum::Only(a))?;
    Ok(either(alloc, below, above)?)
}

/// Returns the formula of a comparison.
pub fn compared(alloc: Global, r: Comparison, a: Number, b: Number) -> Result<Formula, Unformed>
    ensures { IfOk result (λ f. Implies (paths.compared r (expression a) (expression b)) f) }
{
    match r {
        Comparison::Equal => equal(alloc, Sum::Only(a), Sum::Only(b)),
        Comparison::NotEqual => unequal(alloc, a, b),
        Comparison::Less => less(alloc, a, Sum::Only(b)),
        Comparison::AtMost => at_most(alloc, Sum::Only(a), Sum::Only(b)),
        Comparison::Greater => less(alloc, b, Sum::Only(a)),
        Comparison::AtLeast => at_most(alloc, Sum::Only(b), Sum::Only(a)),
    }
}

/// Returns a formula that always holds.
pub fn always(alloc: Global) -> Result<Formula, Unformed>
    ensures { IfOk result (λ f. (r : Relation) → Implies r f) }
{
    at_most(
        alloc,
        Sum::Only(Number::Constant(0)),
        Sum::Only(Number::Constant(0)),
    )
}

/// Returns a formula that never holds.
pub fn never(alloc: Global) -> Result<Formula, Unformed>
    ensures { IfOk result (λ f. Implies (IsAtMost (Constant 1) (Constant 0)) f) }
{
    at_most(
        alloc,
        Sum::Only(Number::Constant(1)),
        Sum::Only(Number::Constant(0)),
    )
}

/// Returns the formula of a sum modulo 2 to the power of 32.
fn summed(alloc: Global, a: Number, b: Number, r: Number) -> Result<Formula, Unformed>
    ensures { IfOk result (λ f. Implies (paths.computed operations.Sum (expression a) (expression b) (expression r)) f) }
{
    let exact = equal(alloc, Sum::Only(r), Sum::Two(a, b))?;
    let wrapped = equal(
        alloc,
        Sum::Two(r, Number::Constant(4_294_967_296)),
        Sum::Two(a, b),
    )?;
    Ok(either(alloc, exact, wrapped)?)
}

/// Returns the formula of a difference modulo 2 to the power of 32.
fn differing(alloc: Global, a: Number, b: Number, r: Number) -> Result<Formula, Unformed>
    ensures { IfOk result (λ f. Implies (paths.computed operations.Difference (expression a) (expression b) (expression r)) f) }
{
    let exact = equal(alloc, Sum::Two(r, b), Sum::Only(a))?;
    let wrapped = equal(
        alloc,
        Sum::Two(r, b),
        Sum::Two(a, Number::Constant(4_294_967_296)),
    )?;
    Ok(either(alloc, exact, wrapped)?)
}

/// Returns the formula of a remainder.
fn remaining(alloc: Global, a: Number, b: Number, r: Number) -> Result<Formula, Unformed>
    ensures { IfOk result (λ f. Implies (paths.computed operations.Remainder (expression a) (expression b) (expression r)) f) }
{
    let zero = at_most(alloc, Sum::Only(b), Sum::Only(Number::Constant(0)))?;
    let kept = equal(alloc, Sum::Only(r), Sum::Only(a))?;
    let none = both(alloc, zero, kept)?;
    let below = less(alloc, a, Sum::Only(b))?;
    let same = equal(alloc, Sum::Only(r), Sum::Only(a))?;
    let low = both(alloc, below, same)?;
    let few = less(alloc, a, Sum::Two(b, b))?;
    let once = equal(alloc, Sum::Two(r, b), Sum::Only(a))?;
    let next = both(alloc, few, once)?;
    let far = at_most(alloc, Sum::Two(b, b), Sum::Only(a))?;
    let rest = less(alloc, r, Sum::Only(b))?;
    let last = both(alloc, far, rest)?;
    let high = either(alloc, next, last)?;
    let some = either(alloc, low, high)?;
    Ok(either(alloc, none, some)?)
}

/// Returns the formula of a product modulo 2 to the power of 32, of which nothing is said.
fn product(alloc: Global, _a: Number, _b: Number, _r: Number) -> Result<Formula, Unformed>
    ensures { IfOk result (λ f. Implies Always f) }
{
    always(alloc)
}

/// Returns the formula of an operation.
pub fn computed(
    alloc: Global,
    op: Operation,
    a: Number,
    b: Number,
    r: Number,
) -> Result<Formula, Unformed>
    ensures { IfOk result (λ f. Implies (paths.computed op (expression a) (expression b) (expression r)) f) }
{
    match op {
        Operation::Sum => summed(alloc, a, b, r),
        Operation::Difference => differing(alloc, a, b, r),
        Operation::Product => product(alloc, a, b, r),
        Operation::Quotient => at_most(alloc, Sum::Only(r), Sum::Only(a)),
        Operation::Remainder => remaining(alloc, a, b, r),
    }
}

/// Returns the formula that a number is 1 where a formula holds, or 0 where another one does.
pub fn is_bit(alloc: Global, so: Formula, not_so: Formula, r: Number) -> Result<Formula, Unformed>
    ensures { IfOk result (λ f. (p q : Relation) → Implies p so → Implies q not_so →
        Implies (paths.is_bit p q (expression r)) f) }
{
    let one = equal(alloc, Sum::Only(r), Sum::Only(Number::Constant(1)))?;
    let none = equal(alloc, Sum::Only(r), Sum::Only(Number::Constant(0)))?;
    let first = both(alloc, so, one)?;
    let second = both(alloc, not_so, none)?;
    Ok(either(alloc, first, second)?)
}

/// Returns the opposite of a comparison.
pub fn opposite_of(r: Comparison) -> Comparison
    ensures { result ≡ opposite r }
{
    match r {
        Comparison::Equal => Comparison::NotEqual,
        Comparison::NotEqual => Comparison::Equal,
        Comparison::Less => Comparison::AtLeast,
        Comparison::AtMost => Comparison::Greater,
        Comparison::Greater => Comparison::AtMost,
        Comparison::AtLeast => Comparison::Less,
    }
}

/// Returns the formula that a number is above 0.
pub fn succeeds(alloc: Global, a: Number) -> Result<Formula, Unformed>
    ensures { IfOk result (λ f. Implies (paths.succeeds (expression a)) f) }
{
    at_most(alloc, Sum::Only(Number::Constant(1)), Sum::Only(a))
}

/// Returns the formula that a number is 0.
pub fn fails(alloc: Global, a: Number) -> Result<Formula, Unformed>
    ensures { IfOk result (λ f. Implies (paths.fails (expression a)) f) }
{
    at_most(alloc, Sum::Only(a), Sum::Only(Number::Constant(0)))
}

/// Returns the formula that a number has 32 bits.
pub fn is_number(alloc: Global, a: Number) -> Result<Formula, Unformed>
    ensures { IfOk result (λ f. Implies (paths.has_32_bits (expression a)) f) }
{
    let low = at_most(alloc, Sum::Only(Number::Constant(0)), Sum::Only(a))?;
    let high = less(alloc, a, Sum::Only(Number::Constant(4_294_967_296)))?;
    Ok(both(alloc, low, high)?)
}
