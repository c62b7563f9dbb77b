//! Statements of parts.
ghost use Rattle.std.specs.Prelude.{◌≡◌, IfOk};
ghost use Rattle.rule_text.specs.Forms.{term_form, statement_form, sequence, let_in, branch, each};

use rule_syntax::{Statement, Term};
use std::alloc::{AllocError, Global};

pub fn sequence_of(alloc: Global, a: Statement, b: Statement) -> Result<Statement, AllocError>
    ensures { IfOk result (λ s. statement_form s ≡ sequence (statement_form a) (statement_form b)) }
{
    let first = Box::new(alloc, a)?;
    let second = Box::new(alloc, b)?;
    Ok(Statement::Then(first, second))
}

pub fn let_of(alloc: Global, e: Term, rest: Statement) -> Result<Statement, AllocError>
    ensures { IfOk result (λ s. statement_form s ≡ let_in (term_form e) (statement_form rest)) }
{
    let behind = Box::new(alloc, rest)?;
    Ok(Statement::Let(e, behind))
}

pub fn branch_of(
    alloc: Global,
    t: Term,
    a: Statement,
    b: Statement,
) -> Result<Statement, AllocError>
    ensures { IfOk result (λ s. statement_form s
        ≡ branch (term_form t) (statement_form a) (statement_form b)) }
{
    let first = Box::new(alloc, a)?;
    let second = Box::new(alloc, b)?;
    Ok(Statement::If(t, first, second))
}

pub fn each_of(alloc: Global, body: Statement) -> Result<Statement, AllocError>
    ensures { IfOk result (λ s. statement_form s ≡ each (statement_form body)) }
{
    let inside = Box::new(alloc, body)?;
    Ok(Statement::For(inside))
}
