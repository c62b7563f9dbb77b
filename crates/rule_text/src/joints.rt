//! Operators and what they join.
ghost use Rattle.std.specs.Prelude.{◌≡◌, IfOk, Ok, Err, IfErr, Some, None, MatchOption};
ghost use Rattle.rule_text.specs.Forms.{term_form, message, inverse, choice};
ghost use Rattle.rule_text.specs.Forms.{binary as binary_form, logical as logical_form};
ghost use Rattle.rule_text.specs.Terms.{is_of_sign, rest_after, wanted, joint_in, comparison_in, product_joint, sum_joint};
ghost use Rattle.rule_text.specs.Terms.{joint_by};
ghost use Rattle.rule_text.specs.Terms.{joint_of, comparison_by, comparison_of, join};

use crate::errors::{ReadRuleError, RuleError};
use crate::lexemes::{Kind, Token};
use crate::scope::error_in;
use crate::signs::{Sign, is_same};
use rule_syntax::{Comparison, Connective, Operation, Operator, Term};
use std::alloc::{AllocError, Global};

/// Operators of one precedence, the tightest first.
#[derive(Clone, Copy)]
pub enum Chain {
    Product,
    Sum,
    Both,
    Either,
}

/// What joins two operands of a chain.
#[derive(Clone, Copy)]
pub enum Joint {
    By(Operator),
    With(Connective),
}

fn is_marked(sign: Sign, kind: Kind) -> bool
    ensures { result ≡ is_of_sign sign kind }
{
    match kind {
        Kind::Mark(found) => is_same(sign, found),
        _ => false,
    }
}

/// Returns the tokens after a sign, if it is the first token.
pub fn after(sign: Sign, tokens: &[Token]) -> Option<&[Token]>
    ensures { MatchOption result (rest_after sign tokens.now ≡ None) (λ rest. rest_after sign tokens.now
        ≡ Some rest.now) }
{
    let (first, rest) = tokens.split_first()?;
    if is_marked(sign, first.kind) {
        Some(rest)
    } else {
        None
    }
}

/// Returns the tokens after a sign that must be the first token.
pub fn wanted(sign: Sign, tokens: &[Token]) -> Result<&[Token], ReadRuleError>
    ensures rest { IfOk result (λ rest. wanted sign tokens.now ≡ Ok rest.now) }
    ensures error { IfErr result (λ e. wanted sign tokens.now ≡ Err e) }
{
    match after(sign, tokens) {
        Some(rest) => Ok(rest),
        None => Err(error_in(RuleError::Expected, tokens)),
    }
}

fn product_joint(sign: Sign) -> Option<Joint>
    ensures { result ≡ product_joint sign }
{
    match sign {
        Sign::Times => Some(Joint::By(Operator::Compute(Operation::Product))),
        Sign::Over => Some(Joint::By(Operator::Compute(Operation::Quotient))),
        Sign::Modulo => Some(Joint::By(Operator::Compute(Operation::Remainder))),
        _ => None,
    }
}

fn sum_joint(sign: Sign) -> Option<Joint>
    ensures { result ≡ sum_joint sign }
{
    match sign {
        Sign::Plus => Some(Joint::By(Operator::Compute(Operation::Sum))),
        Sign::Minus => Some(Joint::By(Operator::Compute(Operation::Difference))),
        _ => None,
    }
}

fn joint_by(chain: Chain, sign: Sign) -> Option<Joint>
    ensures { result ≡ joint_by chain sign }
{
    match chain {
        Chain::Product => product_joint(sign),
        Chain::Sum => sum_joint(sign),
        Chain::Both => match sign {
            Sign::And => Some(Joint::With(Connective::And)),
            _ => None,
        },
        Chain::Either => match sign {
            Sign::Or => Some(Joint::With(Connective::Or)),
            _ => None,
        },
    }
}

/// Returns what a token of a chain joins, if it is an operator of it.
fn joint_of(chain: Chain, kind: Kind) -> Option<Joint>
    ensures { result ≡ joint_of chain kind }
{
    match kind {
        Kind::Mark(sign) => joint_by(chain, sign),
        _ => None,
    }
}

fn comparison_by(sign: Sign) -> Option<Comparison>
    ensures { result ≡ comparison_by sign }
{
    match sign {
        Sign::Equal => Some(Comparison::Equal),
        Sign::NotEqual => Some(Comparison::NotEqual),
        Sign::Less => Some(Comparison::Less),
        Sign::AtMost => Some(Comparison::AtMost),
        Sign::Greater => Some(Comparison::Greater),
        Sign::AtLeast => Some(Comparison::AtLeast),
        _ => None,
    }
}

fn comparison_of(kind: Kind) -> Option<Comparison>
    ensures { result ≡ comparison_of kind }
{
    match kind {
        Kind::Mark(sign) => comparison_by(sign),
        _ => None,
    }
}

/// Returns the operator that is the first token, and the tokens after it.
pub fn joint_in(chain: Chain, tokens: &[Token]) -> Option<(Joint, &[Token])>
    ensures { MatchOption result (joint_in chain tokens.now ≡ None)
        (λ x. joint_in chain tokens.now ≡ Some (x.0, x.1.now)) }
{
    let (first, rest) = tokens.split_first()?;
    match joint_of(chain, first.kind) {
        Some(joint) => Some((joint, rest)),
        None => None,
    }
}

/// Returns the comparison that is the first token, and the tokens after it.
pub fn comparison_in(tokens: &[Token]) -> Option<(Comparison, &[Token])>
    ensures { MatchOption result (comparison_in tokens.now ≡ None)
        (λ x. comparison_in tokens.now ≡ Some (x.0, x.1.now)) }
{
    let (first, rest) = tokens.split_first()?;
    match comparison_of(first.kind) {
        Some(comparison) => Some((comparison, rest)),
        None => None,
    }
}

// ---- terms of parts

pub fn binary_of(alloc: Global, operator: Operator, a: Term, b: Term) -> Result<Term, AllocError>
    ensures { IfOk result (λ t. term_form t ≡ binary_form operator (term_form a) (term_form b)) }
{
    let left = Box::new(alloc, a)?;
    let right = Box::new(alloc, b)?;
    Ok(Term::Binary(operator, left, right))
}

fn logical_of(alloc: Global, connective: Connective, a: Term, b: Term) -> Result<Term, AllocError>
    ensures { IfOk result (λ t. term_form t ≡ logical_form connective (term_form a) (term_form b)) }
{
    let left = Box::new(alloc, a)?;
    let right = Box::new(alloc, b)?;
    Ok(Term::Logical(connective, left, right))
}

/// Returns the term that joins two.
pub fn joined(alloc: Global, joint: Joint, a: Term, b: Term) -> Result<Term, AllocError>
    ensures { IfOk result (λ t. term_form t ≡ join joint (term_form a) (term_form b)) }
{
    match joint {
        Joint::By(operator) => binary_of(alloc, operator, a, b),
        Joint::With(connective) => logical_of(alloc, connective, a, b),
    }
}

pub fn message_of(alloc: Global, a: Term) -> Result<Term, AllocError>
    ensures { IfOk result (λ t. term_form t ≡ message (term_form a)) }
{
    let node = Box::new(alloc, a)?;
    Ok(Term::Message(node))
}

pub fn inverse_of(alloc: Global, a: Term) -> Result<Term, AllocError>
    ensures { IfOk result (λ t. term_form t ≡ inverse (term_form a)) }
{
    let condition = Box::new(alloc, a)?;
    Ok(Term::Not(condition))
}

/// Returns `x if t else y`.
pub fn choice_of(alloc: Global, t: Term, x: Term, y: Term) -> Result<Term, AllocError>
    ensures { IfOk result (λ c. term_form c ≡ choice (term_form t) (term_form x) (term_form y)) }
{
    let test = Box::new(alloc, t)?;
    let first = Box::new(alloc, x)?;
    let second = Box::new(alloc, y)?;
    Ok(Term::Choice(test, first, second))
}
