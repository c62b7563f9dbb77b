//! Which terms are about two nodes, and which of them look back.
ghost use Rattle.std.specs.Prelude.{◌≡◌};
ghost use Rattle.properties.specs.Pairs.{has_before, is_before, is_pair_term};

use crate::names::{PairName, name_of};
use rule_syntax::Term;

/// Returns true if a term has the forms of a property's term alone.
pub fn is_pair_term(t: &Term) -> bool
    ensures { result ≡ is_pair_term t.now }
{
    match t {
        Term::Number(_) | Term::Nodes | Term::Faults | Term::Modulus | Term::Local(_) => true,
        Term::Me | Term::Coin | Term::LoopNode(_) | Term::Word(_) => false,
        Term::Message(_) | Term::Count(_) | Term::Least(_) | Term::Sorted(_, _) => false,
        Term::Binary(_, a, b) | Term::Logical(_, a, b) => is_pair_term(a) && is_pair_term(b),
        Term::Not(a) => is_pair_term(a),
        Term::Choice(t, a, b) => is_pair_term(t) && (is_pair_term(a) && is_pair_term(b)),
    }
}

fn is_before(name: PairName) -> bool
    ensures { result ≡ is_before name }
{
    match name {
        PairName::Number(_) | PairName::After(_, _) => false,
        PairName::Before(_, _) => true,
    }
}

/// Returns true if a term has a word of a memory before the pulse.
pub fn has_before(t: &Term) -> bool
    ensures { result ≡ has_before t.now }
{
    match t {
        Term::Number(_) | Term::Nodes | Term::Faults | Term::Modulus => false,
        Term::Me | Term::Coin | Term::LoopNode(_) | Term::Word(_) => false,
        Term::Local(k) => is_before(name_of(*k)),
        Term::Message(a) | Term::Not(a) | Term::Count(a) | Term::Least(a) => has_before(a),
        Term::Binary(_, a, b) | Term::Logical(_, a, b) => has_before(a) || has_before(b),
        Term::Sorted(a, b) => has_before(a) || has_before(b),
        Term::Choice(t, a, b) => has_before(t) || (has_before(a) || has_before(b)),
    }
}
