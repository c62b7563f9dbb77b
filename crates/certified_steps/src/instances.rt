//! Formulas of the laws of quorums.
ghost use Rattle.std.specs.Prelude.{◌≡◌, ◌+◌, ◌-◌, ◌<◌, Bool, if◌then◌else◌, Option, Some, slice_get, IfOk};
ghost use Rattle.rule_paths.specs.Relations.{Always, AllOf};
ghost use Rattle.rule_paths.specs.Paths as paths;
ghost use Rattle.rule_formulas.specs.Numbers.{expression, Implies};
ghost use Rattle.step_searches.specs.Views as views;
ghost use Rattle.step_searches.specs.Views.{start_view};
ghost use Rattle.step_searches.specs.Laws as laws;
ghost use Rattle.step_searches.specs.Searches as searches;
ghost use Rattle.step_searches.specs.Searches.{pair_of};
ghost use Rattle.certified_steps.specs.Instances.{IsInstance, answer_count, counts_of, few_of_two};

use crate::errors::Unproved;
use crate::views::{View, stated};
use linear_certificates::{Formula, Linear};
use rule_formulas::{
    Answers, Around, MAX_VARIABLES, Number, Store, Sum, always, at_most, both, both_answers,
    either, form, is_number, less, with_added, with_taken,
};
use rule_syntax::Term;
use std::alloc::Global;
use step_searches::{Step, Tested, Use};

/// A formula, and from which on the variables are free.
#[derive(Drop)]
pub struct Instance {
    pub facts: Formula,
    pub next: u32,
}

/// The counts of a path, the latest first: a variable is how many nodes there are for which a test holds in a store.
#[derive(Clone, Copy)]
pub enum Counts<'a> {
    Nothing,
    More(u32, &'a Term, &'a Store<'a>, &'a Counts<'a>),
}

/// A count, and an answer of its test.
#[derive(Clone, Copy)]
pub struct Answer<'a> {
    pub variable: u32,
    pub test: &'a Term,
    pub store: &'a Store<'a>,
    pub tested: Tested,
}

/// The counts of a path, and which answer is used.
#[derive(Clone, Copy)]
struct Picked<'a> {
    counts: &'a Counts<'a>,
    tested: Tested,
}

/// The counts of two paths.
#[derive(Clone, Copy)]
pub struct BothCounts<'a> {
    pub first: &'a Counts<'a>,
    pub second: &'a Counts<'a>,
}

/// Returns the first variable beyond those of the node at k.
pub fn beyond_node(k: u32, words: u32) -> Result<u32, Unproved>
    ensures { IfOk result (λ n. n ≡ k + 3 + words) }
{
    if k < MAX_VARIABLES && words < MAX_VARIABLES {
        Ok(k + 3 + words)
    } else {
        Err(Unproved::TooMany)
    }
}

/// Returns the first variable of the first node.
pub fn first_of(step: &Step) -> Result<u32, Unproved>
    ensures { IfOk result (λ n. n ≡ searches.first_start step.now) }
{
    if step.names < MAX_VARIABLES {
        Ok(3 + step.names)
    } else {
        Err(Unproved::TooMany)
    }
}

/// Returns the first variable of the second node.
pub fn second_of(step: &Step) -> Result<u32, Unproved>
    ensures { IfOk result (λ n. n ≡ searches.second_start step.now) }
{
    let first = first_of(step)?;
    beyond_node(first, step.words)
}

/// Returns the formula that the words of the node at k have 32 bits.
fn words_are_numbers(alloc: Global, n: u32, k: u32) -> Result<Formula, Unproved>
    ensures { IfOk result (λ f. Implies (laws.words_are_numbers n k) f) }
{
    if n == 0 {
        return Ok(always(alloc)?);
    }
    let before = words_are_numbers(alloc, n - 1, k)?;
    let variable = beyond_node(k, n - 1)?;
    let last = is_number(alloc, Number::Variable(variable))?;
    Ok(both(alloc, before, last)?)
}

/// Returns the formula of the node at k.
pub fn is_node(alloc: Global, words: u32, k: u32) -> Result<Formula, Unproved>
    ensures { IfOk result (λ f. Implies (laws.is_node words k) f) }
{
    let end = beyond_node(k, 0)?;
    let zero = Sum::Only(Number::Constant(0));
    let me = Number::Variable(k);
    let coin = Sum::Only(Number::Variable(end - 2));
    let numbers = words_are_numbers(alloc, words, k)?;
    let sent = is_number(alloc, Number::Variable(end - 1))?;
    let some = at_most(alloc, zero, Sum::Only(me))?;
    let few = less(alloc, me, Sum::Only(Number::Variable(0)))?;
    let one = both(alloc, some, few)?;
    let low = at_most(alloc, zero, coin)?;
    let high = at_most(alloc, coin, Sum::Only(Number::Constant(1)))?;
    let flip = both(alloc, low, high)?;
    let last = both(alloc, one, flip)?;
    let rest = both(alloc, sent, last)?;
    Ok(both(alloc, numbers, rest)?)
}

/// Returns the formula that the node at k meets the first condition with both nodes and with itself.
pub fn is_correct(alloc: Global, step: &Step, k: u32) -> Result<Formula, Unproved>
    ensures { IfOk result (λ f. Implies (laws.is_correct (pair_of step.now) k) f) }
{
    let first = first_of(step)?;
    let second = second_of(step)?;
    let own = met_alone(alloc, step, k)?;
    let with_first = met(alloc, step, k, first)?;
    let with_second = met(alloc, step, k, second)?;
    let rest = both(alloc, with_first, with_second)?;
    Ok(both(alloc, own, rest)?)
}

/// Returns the formula that the node at k meets the first condition with itself.
pub fn met_alone(alloc: Global, step: &Step, k: u32) -> Result<Formula, Unproved>
    ensures { IfOk result (λ f. Implies (views.stated (start_view k) (start_view k) step.now.before) f) }
{
    let store = Store::Start(k);
    let sent = Number::Variable(beyond_node(k, 0)? - 1);
    let node = View {
        store: &store,
        sent,
    };
    stated(alloc, &step.before, &node, &node)
}

/// Returns the formula that the nodes at k and at j meet the first condition, in both orders.
fn met(alloc: Global, step: &Step, k: u32, j: u32) -> Result<Formula, Unproved>
    ensures { IfOk result (λ f. Implies (AllOf (views.stated (start_view k) (start_view j) step.now.before)
        (views.stated (start_view j) (start_view k) step.now.before)) f) }
{
    let store = Store::Start(k);
    let other = Store::Start(j);
    let sent = Number::Variable(beyond_node(k, 0)? - 1);
    let other_sent = Number::Variable(beyond_node(j, 0)? - 1);
    let node = View {
        store: &store,
        sent,
    };
    let beside = View {
        store: &other,
        sent: other_sent,
    };
    let first = stated(alloc, &step.before, &node, &beside)?;
    let second = stated(alloc, &step.before, &beside, &node)?;
    Ok(both(alloc, first, second)?)
}

/// Returns the formula that the node at k has an answer. From m on the variables are free.
fn answered<'a>(alloc: Global, a: &'a Answer<'a>, k: u32, m: u32) -> Result<Instance, Unproved>
    ensures { IfOk result (λ i. IsInstance i (laws.answered (answer_count a.now) a.now.tested.answer k m)) }
{
    let around = Around {
        node: Number::Variable(k),
        message: Number::Variable(beyond_node(k, 0)? - 1),
    };
    let x = form(alloc, a.test, a.store, Some(around), m)?;
    let both_ways = both_answers(alloc, x.what)?;
    let answer = answer_of(both_ways, a.tested.answer);
    Ok(Instance {
        facts: both(alloc, x.facts, answer)?,
        next: x.next,
    })
}

/// Returns the formula of an answer.
fn answer_of(answers: Answers, answer: bool) -> Formula
    ensures { (w : paths.What) → Implies (paths.holds_of w) answers.holds → Implies (paths.fails_of w) answers.fails →
        Implies (paths.answer_of w answer) result }
{
    let Answers { holds, fails } = answers;
    if answer { holds } else { fails }
}

/// Returns the number from which the second one is taken to have how many messages have an answer.
fn more<'a>(a: &'a Answer<'a>) -> Number
    ensures { expression result ≡ laws.more (answer_count a.now) a.now.tested.answer }
{
    if a.tested.answer {
        Number::Variable(a.variable)
    } else {
        Number::Variable(0)
    }
}

/// Returns the number that is taken.
fn fewer<'a>(a: &'a Answer<'a>) -> Number
    ensures { expression result ≡ laws.less_number (answer_count a.now) a.now.tested.answer }
{
    if a.tested.answer {
        Number::Constant(0)
    } else {
        Number::Variable(a.variable)
    }
}

/// Returns the law of one count: if more than f messages have the answer, that of a correct node has it.
fn one_count<'a>(
    alloc: Global,
    step: &Step,
    a: &'a Answer<'a>,
    k: u32,
) -> Result<Instance, Unproved>
    ensures { IfOk result (λ i. IsInstance i (laws.one_count (pair_of step.now) (answer_count a.now) a.now.tested.answer k)) }
{
    let m = beyond_node(k, step.words)?;
    let w = answered(alloc, a, k, m)?;
    let few = at_most(
        alloc,
        Sum::Only(more(a)),
        Sum::Two(Number::Variable(1), fewer(a)),
    )?;
    let node = is_node(alloc, step.words, k)?;
    let correct = is_correct(alloc, step, k)?;
    let sender = both(alloc, node, correct)?;
    let heard = both(alloc, sender, w.facts)?;
    Ok(Instance {
        facts: either(alloc, few, heard)?,
        next: w.next,
    })
}

/// Returns the formula that the answers of two counts are few.
fn few_of_two<'a>(
    alloc: Global,
    same: bool,
    a: &'a Answer<'a>,
    b: &'a Answer<'a>,
) -> Result<Formula, Unproved>
    ensures { IfOk result (λ f. Implies (few_of_two same (answer_count a.now) a.now.tested.answer (answer_count b.now) b.now.tested.answer) f) }
{
    let nothing = Linear {
        terms: Vec::new(alloc),
        constant: 0,
    };
    let limit = if same {
        Number::Constant(0)
    } else {
        Number::Variable(1)
    };
    let one = with_added(nothing, more(a))?;
    let two = with_added(one, more(b))?;
    let three = with_taken(two, Number::Variable(0))?;
    let four = with_taken(three, limit)?;
    let five = with_taken(four, fewer(a))?;
    Ok(Formula::Atom(with_taken(five, fewer(b))?))
}

/// Returns the law of two counts.
fn two_counts<'a>(
    alloc: Global,
    step: &Step,
    a: &'a Answer<'a>,
    b: &'a Answer<'a>,
    k: u32,
) -> Result<Instance, Unproved>
    ensures { IfOk result (λ i. IsInstance i (laws.two_counts (pair_of step.now) (laws.same_node a.now.tested b.now.tested)
        (answer_count a.now) a.now.tested.answer (answer_count b.now) b.now.tested.answer k)) }
{
    let same = is_same_node(a.tested, b.tested);
    let m = beyond_node(k, step.words)?;
    let u = answered(alloc, a, k, m)?;
    let w = answered(alloc, b, k, u.next)?;
    let few = few_of_two(alloc, same, a, b)?;
    let node = is_node(alloc, step.words, k)?;
    let correct = sender_of(alloc, step, same, k)?;
    let sender = both(alloc, node, correct)?;
    let tested = both(alloc, u.facts, w.facts)?;
    let heard = both(alloc, sender, tested)?;
    Ok(Instance {
        facts: either(alloc, few, heard)?,
        next: w.next,
    })
}

/// Returns true if two answers are of one node's counts.
fn is_same_node(t: Tested, u: Tested) -> bool
    ensures { result ≡ laws.same_node t u }
{
    if t.is_second {
        u.is_second
    } else {
        !u.is_second
    }
}

/// Returns the formula that the node at k is correct, if it has to be.
fn sender_of(alloc: Global, step: &Step, same: bool, k: u32) -> Result<Formula, Unproved>
    ensures { IfOk result (λ f. Implies (if same then Always else laws.is_correct (pair_of step.now) k) f) }
{
    if same {
        Ok(always(alloc)?)
    } else {
        is_correct(alloc, step, k)
    }
}

/// Returns an instance that says nothing.
fn nothing(alloc: Global, k: u32) -> Result<Instance, Unproved>
    ensures { IfOk result (λ i. IsInstance i (laws.nothing k)) }
{
    Ok(Instance {
        facts: always(alloc)?,
        next: k,
    })
}

/// Returns the law of the count at a place.
fn one_used<'a>(
    alloc: Global,
    step: &Step,
    counts: &'a Counts<'a>,
    t: Tested,
    k: u32,
) -> Result<Instance, Unproved>
    ensures { IfOk result (λ i. IsInstance i
        (laws.one_used (pair_of step.now) (slice_get (counts_of counts.now) t.count) t.answer k)) }
{
    match counts {
        Counts::Nothing => nothing(alloc, k),
        Counts::More(variable, test, store, rest) => {
            if t.count == 0 {
                let a = Answer {
                    variable: *variable,
                    test,
                    store,
                    tested: t,
                };
                one_count(alloc, step, &a, k)
            } else {
                one_used(alloc, step, rest, earlier(t), k)
            }
        }
    }
}

/// Returns the same answer of the count before.
fn earlier(t: Tested) -> Tested
    requires { 0 < t.count }
    ensures count { result.count ≡ t.count - 1 }
    ensures answer { result.answer ≡ t.answer }
    ensures second { result.is_second ≡ t.is_second }
{
    Tested {
        is_second: t.is_second,
        count: t.count - 1,
        answer: t.answer,
    }
}

/// Returns the law of an answer and of the count at a place.
fn second_used<'a>(
    alloc: Global,
    step: &Step,
    a: &'a Answer<'a>,
    picked: &'a Picked<'a>,
    k: u32,
) -> Result<Instance, Unproved>
    ensures { IfOk result (λ i. IsInstance i (laws.two_used (pair_of step.now) (laws.same_node a.now.tested picked.now.tested)
        (Some (answer_count a.now)) a.now.tested.answer
        (slice_get (counts_of picked.now.counts.now) picked.now.tested.count) picked.now.tested.answer k)) }
{
    match picked.counts {
        Counts::Nothing => nothing(alloc, k),
        Counts::More(variable, test, store, rest) => {
            if picked.tested.count == 0 {
                let b = Answer {
                    variable: *variable,
                    test,
                    store,
                    tested: picked.tested,
                };
                two_counts(alloc, step, &*a, &b, k)
            } else {
                let later = Picked {
                    counts: rest,
                    tested: earlier(picked.tested),
                };
                second_used(alloc, step, &*a, &later, k)
            }
        }
    }
}

/// Returns the law of the counts at two places.
fn two_used<'a>(
    alloc: Global,
    step: &Step,
    first: &'a Picked<'a>,
    second: &'a Picked<'a>,
    k: u32,
) -> Result<Instance, Unproved>
    ensures { IfOk result (λ i. IsInstance i
        (laws.two_used (pair_of step.now) (laws.same_node first.now.tested second.now.tested)
        (slice_get (counts_of first.now.counts.now) first.now.tested.count) first.now.tested.answer
        (slice_get (counts_of second.now.counts.now) second.now.tested.count) second.now.tested.answer k)) }
{
    match first.counts {
        Counts::Nothing => nothing(alloc, k),
        Counts::More(variable, test, store, rest) => {
            if first.tested.count == 0 {
                let a = Answer {
                    variable: *variable,
                    test,
                    store,
                    tested: first.tested,
                };
                second_used(alloc, step, &a, &*second, k)
            } else {
                let later = Picked {
                    counts: rest,
                    tested: earlier(first.tested),
                };
                two_used(alloc, step, &later, &*second, k)
            }
        }
    }
}

/// Returns the law that is used.
fn used<'a>(
    alloc: Global,
    step: &Step,
    counts: &'a BothCounts<'a>,
    law: Use,
    k: u32,
) -> Result<Instance, Unproved>
    ensures { IfOk result (λ i. IsInstance i
        (laws.used (pair_of step.now) (counts_of counts.now.first.now) (counts_of counts.now.second.now) law k)) }
{
    match law {
        Use::One(t) => {
            if t.is_second {
                one_used(alloc, step, counts.second, t, k)
            } else {
                one_used(alloc, step, counts.first, t, k)
            }
        }
        Use::Two(t, u) => {
            let a = Picked {
                counts: if t.is_second {
                    counts.second
                } else {
                    counts.first
                },
                tested: t,
            };
            let b = Picked {
                counts: if u.is_second {
                    counts.second
                } else {
                    counts.first
                },
                tested: u,
            };
            two_used(alloc, step, &a, &b, k)
        }
    }
}

/// Returns all laws that are used, from the law i on.
pub fn all_used<'a>(
    alloc: Global,
    step: &Step,
    counts: &'a BothCounts<'a>,
    uses: &[Use],
    k: u32,
) -> Result<Instance, Unproved>
    ensures { IfOk result (λ i. IsInstance i
        (laws.all_used (pair_of step.now) (counts_of counts.now.first.now) (counts_of counts.now.second.now) uses.now k)) }
{
    match uses.split_first() {
        None => nothing(alloc, k),
        Some((law, rest)) => {
            let x = used(alloc, step, counts, *law, k)?;
            let y = all_used(alloc, step, counts, rest, x.next)?;
            Ok(Instance {
                facts: both(alloc, x.facts, y.facts)?,
                next: y.next,
            })
        }
    }
}
