//! The test of whether a rule is symmetric.
ghost use Rattle.std.specs.Prelude.{◌≡◌};
ghost use Rattle.rule_symmetry.specs.Symmetry.{is_counted, is_symmetric_term, are_symmetric, is_symmetric};

use rule_syntax::{Assignment, Statement, Term};

fn is_counted_of(t: &Term, counts: u32) -> bool
    ensures { result ≡ is_counted t.now counts }
{
    match t {
        Term::LoopNode(i) => *i < counts,
        _ => false,
    }
}

fn is_symmetric_term_of(t: &Term, counts: u32) -> bool
    ensures { result ≡ is_symmetric_term t.now counts }
{
    match t {
        Term::Number(_) | Term::Nodes | Term::Faults | Term::Modulus => true,
        Term::Coin | Term::Local(_) | Term::Word(_) => true,
        Term::Me | Term::LoopNode(_) => false,
        Term::Message(a) => is_counted_of(a, counts),
        Term::Binary(_, a, b) => is_symmetric_term_of(a, counts) && is_symmetric_term_of(b, counts),
        Term::Logical(_, a, b) => is_symmetric_term_of(a, counts)
            && is_symmetric_term_of(b, counts),
        Term::Not(a) => is_symmetric_term_of(a, counts),
        Term::Choice(t, a, b) => {
            is_symmetric_term_of(t, counts)
                && is_symmetric_term_of(a, counts)
                && is_symmetric_term_of(b, counts)
        }
        Term::Count(t) | Term::Least(t) => counts < 3 && is_symmetric_term_of(t, counts + 1),
        Term::Sorted(k, e) => {
            counts < 3 && is_symmetric_term_of(k, counts) && is_symmetric_term_of(e, counts + 1)
        }
    }
}

fn are_symmetric_of(assignment: &Assignment) -> bool
    ensures { result ≡ are_symmetric assignment.now }
{
    match assignment {
        Assignment::One(_, e) => is_symmetric_term_of(e, 0),
        Assignment::Also(front, _, e) => are_symmetric_of(front) && is_symmetric_term_of(e, 0),
    }
}

/// Returns whether a rule is symmetric.
pub fn is_symmetric_rule(rule: &Statement) -> bool
    ensures { result ≡ is_symmetric rule.now }
{
    match rule {
        Statement::Nothing => true,
        Statement::Then(a, b) => is_symmetric_rule(a) && is_symmetric_rule(b),
        Statement::Let(e, rest) => is_symmetric_term_of(e, 0) && is_symmetric_rule(rest),
        Statement::Assign(a) => are_symmetric_of(a),
        Statement::If(t, a, b) => {
            is_symmetric_term_of(t, 0) && is_symmetric_rule(a) && is_symmetric_rule(b)
        }
        Statement::For(_) => false,
        Statement::SendAll(e) => is_symmetric_term_of(e, 0),
        Statement::SendTo(_, _) => false,
    }
}
