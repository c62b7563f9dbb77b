//! Formulas of terms.
ghost use Rattle.std.specs.Prelude.{◌≡◌, IfOk, IfSome};
ghost use Rattle.rule_syntax.specs.declared.syntax.Operator.TheVariants.{Compute, Compare};
ghost use Rattle.rule_paths.specs.Relations.{Expression, Variable, Relation, AllOf, IsEqual};
ghost use Rattle.rule_paths.specs.Paths as paths;
ghost use Rattle.rule_formulas.specs.Numbers.{expression, Implies};
ghost use Rattle.rule_formulas.specs.Stores.{written_store};
ghost use Rattle.rule_formulas.specs.Forms.{around_of, IsFormedWhat, IsFormed, IsValued};

use crate::numbers::{MAX_VARIABLES, Number, Sum, Unformed, at_most};
use crate::relations::{
    always, both, compared, computed, either, equal, fails, is_bit, is_number, opposite_of,
    succeeds,
};
use crate::stores::{Store, coin_now, local_now, me_now, word_now};
use linear_certificates::Formula;
use rule_syntax::{Comparison, Connective, Operation, Operator, Term};
use std::alloc::Global;

/// The number of nodes, the variable 0.
const NODES: Number = Number::Variable(0);
/// The bound on faults, the variable 1.
const FAULTS: Number = Number::Variable(1);
/// The modulus, the variable 2.
const MODULUS: Number = Number::Variable(2);

/// The node of the count around a term, and the message from it.
#[derive(Clone, Copy, Debug, PartialEq, Eq)]
pub struct Around {
    pub node: Number,
    pub message: Number,
}

/// What a term is: a number, or a test with a formula for each answer, or the node of a count with its message.
#[derive(Drop)]
pub enum What {
    Value(Number),
    Truth(Formula, Formula),
    Sender(Number, Number),
}

/// What a term is, the formula that says so, and from which on the variables are free.
#[derive(Drop)]
pub struct Formed {
    pub facts: Formula,
    pub what: What,
    pub next: u32,
}

/// The same of a term that is a number.
#[derive(Drop)]
pub struct Valued {
    pub facts: Formula,
    pub number: Number,
    pub next: u32,
}

/// A test's formulas: that it holds, and that it doesn't.
#[derive(Drop)]
pub struct Answers {
    pub holds: Formula,
    pub fails: Formula,
}

/// Returns a term that is known.
fn as_is(alloc: Global, what: What, k: u32) -> Result<Formed, Unformed>
    ensures { IfOk result (λ m. (w : paths.What) → IsFormedWhat what w → IsFormed m (paths.as_is w k)) }
{
    let facts = always(alloc)?;
    Ok(Formed {
        facts,
        what,
        next: k,
    })
}

/// Returns a number that is known.
fn known(alloc: Global, number: Option<Number>, k: u32) -> Result<Formed, Unformed>
    ensures { IfOk result (λ m. (e : Expression) → IfSome number (λ x. expression x ≡ e) →
        IsFormed m (paths.as_is (paths.Value e) k)) }
{
    match number {
        Some(x) => as_is(alloc, What::Value(x), k),
        None => Err(Unformed::TooMany),
    }
}

/// Returns the variable k, of which a formula says what it is.
fn fresh(alloc: Global, facts: Formula, k: u32, is: Formula) -> Result<Formed, Unformed>
    ensures { IfOk result (λ m. (p : Relation) (q : Expression → Relation) → Implies p facts →
        Implies (q (Variable k)) is → IsFormed m (paths.with_fresh p k q)) }
{
    if k >= MAX_VARIABLES {
        return Err(Unformed::TooMany);
    }
    let small = is_number(alloc, Number::Variable(k))?;
    let said = both(alloc, small, is)?;
    let whole = both(alloc, facts, said)?;
    Ok(Formed {
        facts: whole,
        what: What::Value(Number::Variable(k)),
        next: k + 1,
    })
}

/// Returns the formulas of both answers.
pub fn both_answers(alloc: Global, what: What) -> Result<Answers, Unformed>
    ensures holds { IfOk result (λ a. (w : paths.What) → IsFormedWhat what w → Implies (paths.holds_of w) a.holds) }
    ensures fails { IfOk result (λ a. (w : paths.What) → IsFormedWhat what w → Implies (paths.fails_of w) a.fails) }
{
    match what {
        What::Value(number) => number_answers(alloc, number),
        What::Truth(holds, fails) => Ok(Answers { holds, fails }),
        What::Sender(number, _message) => number_answers(alloc, number),
    }
}

/// Returns the formulas that a number is above 0, and that it is 0.
fn number_answers(alloc: Global, number: Number) -> Result<Answers, Unformed>
    ensures holds { IfOk result (λ a. Implies (paths.succeeds (expression number)) a.holds) }
    ensures fails { IfOk result (λ a. Implies (paths.fails (expression number)) a.fails) }
{
    let holds = succeeds(alloc, number)?;
    let fails = fails(alloc, number)?;
    Ok(Answers { holds, fails })
}

/// Returns a term as a number: a test is 1 if it holds, and otherwise 0.
pub fn as_number(alloc: Global, x: Formed) -> Result<Valued, Unformed>
    ensures { IfOk result (λ m. (f : paths.Found) → IsFormed x f → IsValued m (paths.numbered f)) }
{
    let Formed { facts, what, next } = x;
    match what {
        What::Value(number) => Ok(Valued {
            facts,
            number,
            next,
        }),
        What::Sender(number, _message) => Ok(Valued {
            facts,
            number,
            next,
        }),
        What::Truth(holds, fails) => {
            if next >= MAX_VARIABLES {
                return Err(Unformed::TooMany);
            }
            let number = Number::Variable(next);
            let bit = is_bit(alloc, holds, fails, number)?;
            let facts = both(alloc, facts, bit)?;
            Ok(Valued {
                facts,
                number,
                next: next + 1,
            })
        }
    }
}

/// Returns the message from a node.
fn message(alloc: Global, x: Formed) -> Result<Formed, Unformed>
    ensures { IfOk result (λ m. (f : paths.Found) → IsFormed x f → IsFormed m (paths.message_as f.what f)) }
{
    let Formed { facts, what, next } = x;
    match what {
        What::Sender(_node, message) => Ok(Formed {
            facts,
            what: What::Value(message),
            next,
        }),
        What::Value(_number) => {
            let is = always(alloc)?;
            fresh(alloc, facts, next, is)
        }
        What::Truth(_holds, _fails) => {
            let is = always(alloc)?;
            fresh(alloc, facts, next, is)
        }
    }
}

/// Returns the result of an operation.
fn operation(alloc: Global, op: Operation, x: Valued, y: Valued) -> Result<Formed, Unformed>
    ensures { IfOk result (λ m. (f g : paths.Numbered) → IsValued x f → IsValued y g →
        IsFormed m (paths.operated (Compute op) f g)) }
{
    let k = y.next;
    let is = computed(alloc, op, x.number, y.number, Number::Variable(k))?;
    let facts = both(alloc, x.facts, y.facts)?;
    fresh(alloc, facts, k, is)
}

/// Returns a comparison.
fn comparison(alloc: Global, c: Comparison, x: Valued, y: Valued) -> Result<Formed, Unformed>
    ensures { IfOk result (λ m. (f g : paths.Numbered) → IsValued x f → IsValued y g →
        IsFormed m (paths.operated (Compare c) f g)) }
{
    let holds = compared(alloc, c, x.number, y.number)?;
    let fails = compared(alloc, opposite_of(c), x.number, y.number)?;
    let facts = both(alloc, x.facts, y.facts)?;
    Ok(Formed {
        facts,
        what: What::Truth(holds, fails),
        next: y.next,
    })
}

/// Returns what an operator makes of two numbers.
fn binary(alloc: Global, o: Operator, x: Valued, y: Valued) -> Result<Formed, Unformed>
    ensures { IfOk result (λ m. (f g : paths.Numbered) → IsValued x f → IsValued y g → IsFormed m (paths.operated o f g)) }
{
    match o {
        Operator::Compute(op) => operation(alloc, op, x, y),
        Operator::Compare(c) => comparison(alloc, c, x, y),
    }
}

/// Returns two conditions combined.
fn logical(alloc: Global, c: Connective, x: Formed, y: Formed) -> Result<Formed, Unformed>
    ensures { IfOk result (λ m. (f g : paths.Found) → IsFormed x f → IsFormed y g → IsFormed m (paths.combined c f g)) }
{
    let first = both_answers(alloc, x.what)?;
    let second = both_answers(alloc, y.what)?;
    let facts = both(alloc, x.facts, y.facts)?;
    let what = connected(alloc, c, first, second)?;
    Ok(Formed {
        facts,
        what,
        next: y.next,
    })
}

/// Returns the answers of two conditions combined.
fn connected(alloc: Global, c: Connective, x: Answers, y: Answers) -> Result<What, Unformed>
    ensures { IfOk result (λ m. (a b : paths.What) → Implies (paths.holds_of a) x.holds → Implies (paths.fails_of a) x.fails →
        Implies (paths.holds_of b) y.holds → Implies (paths.fails_of b) y.fails →
        IsFormedWhat m (paths.combined_as c a b)) }
{
    match c {
        Connective::And => {
            let holds = both(alloc, x.holds, y.holds)?;
            let fails = either(alloc, x.fails, y.fails)?;
            Ok(What::Truth(holds, fails))
        }
        Connective::Or => {
            let holds = either(alloc, x.holds, y.holds)?;
            let fails = both(alloc, x.fails, y.fails)?;
            Ok(What::Truth(holds, fails))
        }
    }
}

/// Returns a negation.
fn negated(alloc: Global, x: Formed) -> Result<Formed, Unformed>
    ensures { IfOk result (λ m. (f : paths.Found) → IsFormed x f → IsFormed m (paths.negated f)) }
{
    let Answers { holds, fails } = both_answers(alloc, x.what)?;
    Ok(Formed {
        facts: x.facts,
        what: What::Truth(fails, holds),
        next: x.next,
    })
}

/// Returns the number of nodes that pass a test, of which no more is said than that it is at most n.
fn counting(alloc: Global, k: u32) -> Result<Formed, Unformed>
    ensures { IfOk result (λ m. IsFormed m (paths.counted k)) }
{
    let facts = always(alloc)?;
    let is = at_most(alloc, Sum::Only(Number::Variable(k)), Sum::Only(NODES))?;
    fresh(alloc, facts, k, is)
}

/// Returns a number of which nothing is said, as a least message.
fn any_number(alloc: Global, k: u32) -> Result<Formed, Unformed>
    ensures { IfOk result (λ m. IsFormed m (paths.any_number k)) }
{
    let facts = always(alloc)?;
    let is = always(alloc)?;
    fresh(alloc, facts, k, is)
}

/// Returns the formula of one side of a choice.
fn side(alloc: Global, test: Formula, y: Valued, r: Number) -> Result<Formula, Unformed>
    ensures { IfOk result (λ m. (p : Relation) (g : paths.Numbered) → Implies p test → IsValued y g →
        Implies (AllOf p (AllOf g.facts (IsEqual (expression r) g.number))) m) }
{
    let same = equal(alloc, Sum::Only(r), Sum::Only(y.number))?;
    let made = both(alloc, y.facts, same)?;
    Ok(both(alloc, test, made)?)
}

/// Returns a choice.
fn choice(alloc: Global, x: Formed, y: Valued, w: Valued) -> Result<Formed, Unformed>
    ensures { IfOk result (λ m. (f : paths.Found) (g h : paths.Numbered) → IsFormed x f → IsValued y g → IsValued w h →
        IsFormed m (paths.found_choice f g h)) }
{
    let k = w.next;
    let Answers { holds, fails } = both_answers(alloc, x.what)?;
    let first = side(alloc, holds, y, Number::Variable(k))?;
    let second = side(alloc, fails, w, Number::Variable(k))?;
    let is = either(alloc, first, second)?;
    fresh(alloc, x.facts, k, is)
}

/// Returns the node of the count around a term.
fn loop_node(alloc: Global, around: Option<Around>, k: u32) -> Result<Formed, Unformed>
    ensures { IfOk result (λ m. IsFormed m (paths.as_is (paths.loop_node (around_of around)) k)) }
{
    match around {
        Some(a) => as_is(alloc, What::Sender(a.node, a.message), k),
        None => as_is(alloc, What::Value(Number::Constant(0)), k),
    }
}

/// Returns a term, where `around` is the node of the count around it.
pub fn form<'a>(
    alloc: Global,
    t: &'a Term,
    store: &'a Store<'a>,
    around: Option<Around>,
    k: u32,
) -> Result<Formed, Unformed>
    ensures { IfOk result (λ m. IsFormed m (paths.found_term (around_of around) t.now (written_store store.now) k)) }
{
    match t {
        Term::Number(v) => known(alloc, Some(Number::Constant(u64::from(*v))), k),
        Term::Nodes => known(alloc, Some(NODES), k),
        Term::Faults => known(alloc, Some(FAULTS), k),
        Term::Modulus => known(alloc, Some(MODULUS), k),
        Term::Me => known(alloc, Some(me_now(store)), k),
        Term::Coin => known(alloc, coin_now(store), k),
        Term::LoopNode(_i) => loop_node(alloc, around, k),
        Term::Local(i) => known(alloc, Some(local_now(store, *i)), k),
        Term::Word(i) => known(alloc, word_now(store, *i), k),
        Term::Message(a) => {
            let x = form(alloc, a, store, around, k)?;
            message(alloc, x)
        }
        Term::Binary(o, a, b) => {
            let f = form(alloc, a, store, around, k)?;
            let x = as_number(alloc, f)?;
            let g = form(alloc, b, store, around, x.next)?;
            let y = as_number(alloc, g)?;
            binary(alloc, *o, x, y)
        }
        Term::Logical(c, a, b) => {
            let x = form(alloc, a, store, around, k)?;
            let y = form(alloc, b, store, around, x.next)?;
            logical(alloc, *c, x, y)
        }
        Term::Not(a) => {
            let x = form(alloc, a, store, around, k)?;
            negated(alloc, x)
        }
        Term::Choice(test, a, b) => {
            let x = form(alloc, test, store, around, k)?;
            let f = form(alloc, a, store, around, x.next)?;
            let y = as_number(alloc, f)?;
            let g = form(alloc, b, store, around, y.next)?;
            let w = as_number(alloc, g)?;
            choice(alloc, x, y, w)
        }
        Term::Count(_test) => counting(alloc, k),
        Term::Least(_test) => any_number(alloc, k),
        Term::Sorted(_place, _item) => any_number(alloc, k),
    }
}
