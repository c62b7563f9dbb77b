//! Whether a rule and a step are covered.
ghost use Rattle.std.specs.Prelude.{◌≡◌, ◌<◌, IfOk};
ghost use Rattle.rule_paths.specs.Covered as covered;
ghost use Rattle.rule_paths.specs.Covered.{TermIsCovered, TargetIsCovered, AssignmentIsCovered, RuleIsCovered};
ghost use Rattle.step_searches.specs.Claims.{QuantityIsCovered, TotalIsCovered, ConditionIsCovered, CoinsAreCovered, StepIsCovered};

use crate::claims::{Coins, Condition, Quantity, Step, Total};
use rule_syntax::{Assignment, Statement, Target, Term};

/// Why a rule or a step isn't covered.
#[derive(Clone, Copy, Debug, PartialEq, Eq)]
pub enum Uncovered {
    /// The rule has a loop.
    Loop,
    /// The rule sends to one node.
    Receiver,
    /// The rule has a least message.
    Least,
    /// The rule sorts numbers.
    Sorted,
    /// There is a word or a free name beyond those of the step.
    Name,
}

/// Fails if the first number isn't less than the second.
fn needs_less(k: u32, limit: u32) -> Result<(), Uncovered>
    ensures { IfOk result (λ _. k < limit) }
{
    if k < limit {
        Ok(())
    } else {
        Err(Uncovered::Name)
    }
}

/// Fails if a term isn't covered in so many counts.
fn cover_term(t: &Term, words: u32, loops: u32) -> Result<(), Uncovered>
    ensures { IfOk result (λ _. TermIsCovered words loops t.now) }
{
    match t {
        Term::Number(v) => {
            let _value = *v; // brings its range
            Ok(())
        }
        Term::Nodes | Term::Faults | Term::Modulus | Term::Me | Term::Coin => Ok(()),
        Term::LoopNode(k) => needs_less(*k, loops),
        Term::Local(_) => Ok(()),
        Term::Word(k) => needs_less(*k, words),
        Term::Message(a) => cover_term(a, words, loops),
        Term::Binary(_, a, b) => {
            cover_term(a, words, loops)?;
            cover_term(b, words, loops)
        }
        Term::Logical(_, a, b) => {
            cover_term(a, words, loops)?;
            cover_term(b, words, loops)
        }
        Term::Not(a) => cover_term(a, words, loops),
        Term::Choice(c, a, b) => {
            cover_term(c, words, loops)?;
            cover_term(a, words, loops)?;
            cover_term(b, words, loops)
        }
        Term::Count(c) => {
            if loops == u32::MAX {
                return Err(Uncovered::Name);
            }
            cover_term(c, words, loops + 1)
        }
        Term::Least(_) => Err(Uncovered::Least),
        Term::Sorted(_, _) => Err(Uncovered::Sorted),
    }
}

/// Fails if a target is no word of the step.
fn cover_target(target: Target, words: u32) -> Result<(), Uncovered>
    ensures { IfOk result (λ _. TargetIsCovered words target) }
{
    match target {
        Target::ToLocal(_) => Ok(()),
        Target::ToWord(k) => needs_less(k, words),
    }
}

/// Fails if an assignment isn't covered.
fn cover_assignment(a: &Assignment, words: u32) -> Result<(), Uncovered>
    ensures { IfOk result (λ _. AssignmentIsCovered words a.now) }
{
    match a {
        Assignment::One(target, e) => {
            cover_target(*target, words)?;
            cover_term(e, words, 0)
        }
        Assignment::Also(front, target, e) => {
            cover_assignment(front, words)?;
            cover_target(*target, words)?;
            cover_term(e, words, 0)
        }
    }
}

/// Fails if a rule isn't covered.
pub fn cover_rule(rule: &Statement, words: u32) -> Result<(), Uncovered>
    ensures { IfOk result (λ _. RuleIsCovered words rule.now) }
{
    match rule {
        Statement::Nothing => Ok(()),
        Statement::Then(a, b) => {
            cover_rule(a, words)?;
            cover_rule(b, words)
        }
        Statement::Let(e, rest) => {
            cover_term(e, words, 0)?;
            cover_rule(rest, words)
        }
        Statement::Assign(a) => cover_assignment(a, words),
        Statement::If(t, a, b) => {
            cover_term(t, words, 0)?;
            cover_rule(a, words)?;
            cover_rule(b, words)
        }
        Statement::For(_) => Err(Uncovered::Loop),
        Statement::SendAll(e) => cover_term(e, words, 0),
        Statement::SendTo(_, _) => Err(Uncovered::Receiver),
    }
}

/// Returns true if a rule sends a number to all on each path.
pub fn always_sends(rule: &Statement) -> bool
    ensures { result ≡ covered.always_sends rule.now }
{
    match rule {
        Statement::Nothing => false,
        Statement::Then(a, b) => always_sends(a) || always_sends(b),
        Statement::Let(_, rest) => always_sends(rest),
        Statement::Assign(_) => false,
        Statement::If(_, a, b) => always_sends(a) && always_sends(b),
        Statement::For(_) => false,
        Statement::SendAll(_) => true,
        Statement::SendTo(_, _) => false,
    }
}

fn cover_quantity(x: Quantity, names: u32, words: u32) -> Result<(), Uncovered>
    ensures { IfOk result (λ _. QuantityIsCovered names words x) }
{
    match x {
        Quantity::Number(_) => Ok(()),
        Quantity::Nodes => Ok(()),
        Quantity::Faults => Ok(()),
        Quantity::Modulus => Ok(()),
        Quantity::Free(k) => needs_less(k, names),
        Quantity::FirstSent => Ok(()),
        Quantity::FirstWord(k) => needs_less(k, words),
        Quantity::SecondSent => Ok(()),
        Quantity::SecondWord(k) => needs_less(k, words),
    }
}

fn cover_total(total: &Total, names: u32, words: u32) -> Result<(), Uncovered>
    ensures { IfOk result (λ _. TotalIsCovered names words total.now) }
{
    match total {
        Total::Zero => Ok(()),
        Total::Plus(x, rest) => {
            cover_quantity(*x, names, words)?;
            cover_total(rest, names, words)
        }
    }
}

fn cover_condition(c: &Condition, names: u32, words: u32) -> Result<(), Uncovered>
    ensures { IfOk result (λ _. ConditionIsCovered names words c.now) }
{
    match c {
        Condition::Anything => Ok(()),
        Condition::AtMost(a, b) => {
            cover_total(a, names, words)?;
            cover_total(b, names, words)
        }
        Condition::Both(a, b) => {
            cover_condition(a, names, words)?;
            cover_condition(b, names, words)
        }
        Condition::Either(a, b) => {
            cover_condition(a, names, words)?;
            cover_condition(b, names, words)
        }
    }
}

fn cover_coins(c: Coins, names: u32) -> Result<(), Uncovered>
    ensures { IfOk result (λ _. CoinsAreCovered names c) }
{
    match c {
        Coins::Any => Ok(()),
        Coins::Fixed(_) => Ok(()),
        Coins::Named(k) => needs_less(k, names),
    }
}

/// Fails if a step has a name or a word beyond its own.
pub fn cover_step(step: &Step) -> Result<(), Uncovered>
    ensures { IfOk result (λ _. StepIsCovered step.now) }
{
    cover_condition(&step.before, step.names, step.words)?;
    cover_condition(&step.after, step.names, step.words)?;
    cover_coins(step.coins, step.names)
}
