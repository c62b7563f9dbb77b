//! Copies of terms about two nodes.
ghost use Rattle.std.specs.Prelude.{◌≡◌, IfOk, true};
ghost use Rattle.properties.specs.Pairs.{is_pair_term};
ghost use Rattle.scenario_explorer.specs.Claims.{SayTheSame};

use properties::PairTerm;
use rule_syntax::Term;
use std::alloc::{AllocError, Global};

/// Returns a term that says the same of any two nodes. Forms that a term about two nodes doesn't have become 0.
fn copy_of(alloc: Global, term: &Term) -> Result<Term, AllocError>
    requires { is_pair_term term.now ≡ true }
    ensures pair { IfOk result (λ copy. is_pair_term copy ≡ true) }
    ensures alike { IfOk result (λ copy. SayTheSame copy term.now) }
{
    match term {
        Term::Number(number) => Ok(Term::Number(*number)),
        Term::Nodes => Ok(Term::Nodes),
        Term::Faults => Ok(Term::Faults),
        Term::Modulus => Ok(Term::Modulus),
        Term::Local(local) => Ok(Term::Local(*local)),
        Term::Binary(operator, a, b) => {
            let first = Box::new(alloc, copy_of(alloc, a)?)?;
            let second = Box::new(alloc, copy_of(alloc, b)?)?;
            Ok(Term::Binary(*operator, first, second))
        }
        Term::Logical(connective, a, b) => {
            let first = Box::new(alloc, copy_of(alloc, a)?)?;
            let second = Box::new(alloc, copy_of(alloc, b)?)?;
            Ok(Term::Logical(*connective, first, second))
        }
        Term::Not(a) => Ok(Term::Not(Box::new(alloc, copy_of(alloc, a)?)?)),
        Term::Choice(t, a, b) => {
            let condition = Box::new(alloc, copy_of(alloc, t)?)?;
            let first = Box::new(alloc, copy_of(alloc, a)?)?;
            let second = Box::new(alloc, copy_of(alloc, b)?)?;
            Ok(Term::Choice(condition, first, second))
        }
        Term::Me | Term::Coin | Term::LoopNode(_) | Term::Word(_) => Ok(Term::Number(0)),
        Term::Message(_) | Term::Count(_) | Term::Least(_) | Term::Sorted(_, _) => {
            Ok(Term::Number(0))
        }
    }
}

/// Returns a term that says the same of any two nodes, as what a bench's pulses are to keep.
pub(crate) fn aim_of(alloc: Global, holds: &PairTerm) -> Result<PairTerm, AllocError>
    ensures { IfOk result (λ aim. SayTheSame aim.term holds.now.term) }
{
    let term = copy_of(alloc, &holds.term)?;
    Ok(PairTerm { term })
}
