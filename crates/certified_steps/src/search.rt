//! The search through the paths of two nodes.
ghost use Rattle.std.specs.Prelude.{◌≡◌, Some, None, IfOk, IfSome, IsTrue};
ghost use Rattle.linear_certificates.specs.Meaning as linear;
ghost use Rattle.linear_certificates.specs.Facts.{AllHold};
ghost use Rattle.step_searches.specs.Searches.{paths_end, second_paths};
ghost use Rattle.certified_steps.specs.Searching.{counted_test, path_place, behind, let_behind, assign_behind, send_behind, if_behind, Refuted, IsAssigned};

use crate::errors::Unproved;
use crate::instances::{BothCounts, Counts, all_used, second_of};
use crate::proofs::Plan;
use crate::views::{View, denied};
use linear_certificates::{Formula, Known, contradicts};
use rule_formulas::{Answers, Number, Store, Write, as_number, both, both_answers, form};
use rule_syntax::{Assignment, Statement, Target, Term};
use std::alloc::Global;
use step_searches::{Step, Use};

/// The depth to which a rule is read.
pub const MAX_DEPTH: u32 = 4000;

/// What is proved, and the laws that are used.
#[derive(Clone, Copy)]
pub struct Task<'a> {
    pub rule: &'a Statement,
    pub step: &'a Step,
    pub uses: &'a [Use],
}

/// A place of a path: what the node's words are, the number that it sent, its counts, and from which on the variables
/// are free.
#[derive(Clone, Copy)]
pub struct Place<'a> {
    pub store: &'a Store<'a>,
    pub sent: Option<Number>,
    pub counts: &'a Counts<'a>,
    pub next: u32,
}

/// What comes behind a place: a statement with so many lets in scope, then the pulse of the second node, whose end has
/// the end of the first one.
#[derive(Clone, Copy)]
pub enum Rest<'a> {
    Then(&'a Statement, u32, &'a Rest<'a>),
    Second,
    End(&'a Place<'a>),
}

/// The facts that are known, the plan from there on, and how deep it may go.
#[derive(Clone, Copy)]
pub struct Goal<'a> {
    pub known: &'a Known<'a>,
    pub plan: &'a Plan,
    pub depth: u32,
}

/// A term, and the let that is it.
#[derive(Clone, Copy)]
struct Bound<'a> {
    term: &'a Term,
    local: u32,
}

/// A test, and what comes behind each answer.
#[derive(Clone, Copy)]
struct Branches<'a> {
    test: &'a Term,
    first: &'a Rest<'a>,
    second: &'a Rest<'a>,
}

/// What an assignment says, the numbers that it assigns, and from which on the variables are free.
#[derive(Drop)]
struct Assigned {
    facts: Formula,
    writes: Vec<Write>,
    next: u32,
}

/// Returns the test of a term that is a count.
fn count_of<'a>(e: &'a Term) -> Option<&'a Term>
    ensures some { IfSome result (λ test. counted_test e.now ≡ Some test.now) }
    ensures none { result ≡ None → counted_test e.now ≡ None }
{
    match e {
        Term::Count(test) => Some(test),
        Term::Number(_) | Term::LoopNode(_) | Term::Local(_) | Term::Word(_) => None,
        Term::Nodes | Term::Faults | Term::Modulus | Term::Me | Term::Coin => None,
        Term::Message(_) | Term::Not(_) | Term::Least(_) | Term::Sorted(_, _) => None,
        Term::Binary(_, _, _) | Term::Logical(_, _, _) | Term::Choice(_, _, _) => None,
    }
}

/// Returns what an assignment says.
fn assign<'a>(
    alloc: Global,
    a: &'a Assignment,
    store: &'a Store<'a>,
    k: u32,
) -> Result<Assigned, Unproved>
    ensures { IfOk result (λ m. IsAssigned m a.now store.now k) }
{
    match a {
        Assignment::One(target, e) => {
            let f = form(alloc, e, store, None, k)?;
            let x = as_number(alloc, f)?;
            let mut writes = Vec::new(alloc);
            writes.push(Write {
                target: *target,
                number: x.number,
            })?;
            Ok(Assigned {
                facts: x.facts,
                writes,
                next: x.next,
            })
        }
        Assignment::Also(front, target, e) => {
            let Assigned {
                facts,
                mut writes,
                next,
            } = assign(alloc, front, store, k)?;
            let f = form(alloc, e, store, None, next)?;
            let x = as_number(alloc, f)?;
            writes.push(Write {
                target: *target,
                number: x.number,
            })?;
            Ok(Assigned {
                facts: both(alloc, facts, x.facts)?,
                writes,
                next: x.next,
            })
        }
    }
}

/// Returns true if a certificate shows that the known facts can't hold.
fn refute<'a>(alloc: Global, known: &'a Known<'a>, plan: &'a Plan) -> Result<bool, Unproved>
    ensures { IfOk result (λ yes. IsTrue yes → (v : linear.Assignment) → AllHold v known.now → ⊥) }
{
    match plan {
        Plan::Refute(certificate) => Ok(contradicts(alloc, known, certificate)?),
        Plan::Follow(_, _) => Ok(false),
    }
}

/// Returns true if the plan proves the step at the end of both paths.
fn close<'a>(
    alloc: Global,
    task: &'a Task<'a>,
    first: &'a Place<'a>,
    at: &'a Place<'a>,
    goal: &'a Goal<'a>,
) -> Result<bool, Unproved>
    ensures { IfOk result (λ yes. IsTrue yes → Refuted goal.now.known.now
        (paths_end task.now.step.now task.now.uses.now (path_place first.now) (path_place at.now))) }
{
    let Some(sent) = first.sent else {
        return Ok(false);
    };
    let Some(other_sent) = at.sent else {
        return Ok(false);
    };
    let counts = BothCounts {
        first: first.counts,
        second: at.counts,
    };
    let laws = all_used(alloc, task.step, &counts, task.uses, at.next)?;
    let p = View {
        store: first.store,
        sent,
    };
    let q = View {
        store: at.store,
        sent: other_sent,
    };
    let left = denied(alloc, &task.step.after, &p, &q)?;
    let lawful = Known::Fact(&laws.facts, goal.known);
    let known = Known::Fact(&left, &lawful);
    refute(alloc, &known, goal.plan)
}

/// Returns the goal of the paths of the second node.
#[cycle(walks)]
fn walk_second<'a>(
    alloc: Global,
    task: &'a Task<'a>,
    at: &'a Place<'a>,
    goal: &'a Goal<'a>,
) -> Result<bool, Unproved>
    ensures { IfOk result (λ yes. IsTrue yes → Refuted goal.now.known.now
        (second_paths task.now.rule.now task.now.step.now task.now.uses.now (path_place at.now))) }
{
    if goal.depth == 0 {
        return Err(Unproved::TooDeep);
    }
    let start = second_of(task.step)?;
    let store = Store::Start(start);
    let counts = Counts::Nothing;
    let place = Place {
        store: &store,
        sent: None,
        counts: &counts,
        next: at.next,
    };
    let end = Rest::End(at);
    let all = Rest::Then(task.rule, 0, &end);
    let lower = Goal {
        known: goal.known,
        plan: goal.plan,
        depth: goal.depth - 1,
    };
    walk(alloc, &*task, &place, &all, &lower)
}

/// Returns true if the plan proves the step on all paths from a place on.
#[cycle(walks)]
pub fn walk<'a>(
    alloc: Global,
    task: &'a Task<'a>,
    at: &'a Place<'a>,
    rest: &'a Rest<'a>,
    goal: &'a Goal<'a>,
) -> Result<bool, Unproved>
    ensures { IfOk result (λ yes. IsTrue yes → Refuted goal.now.known.now (behind task.now rest.now (path_place at.now))) }
{
    if goal.depth == 0 {
        return Err(Unproved::TooDeep);
    }
    let lower = Goal {
        known: goal.known,
        plan: goal.plan,
        depth: goal.depth - 1,
    };
    match rest {
        Rest::Second => walk_second(alloc, &*task, &*at, &lower),
        Rest::End(first) => close(alloc, &*task, first, &*at, &*goal),
        Rest::Then(p, d, more) => match p {
            Statement::Nothing => walk(alloc, &*task, &*at, more, &lower),
            Statement::Then(a, b) => {
                let later = Rest::Then(b, *d, more);
                let now = Rest::Then(a, *d, &later);
                walk(alloc, &*task, &*at, &now, &lower)
            }
            Statement::Let(e, body) => {
                if *d == u32::MAX {
                    return Err(Unproved::TooDeep);
                }
                let inner = Rest::Then(body, *d + 1, more);
                let bound = Bound { term: e, local: *d };
                walk_let(alloc, &*task, &*at, &bound, &inner, &lower)
            }
            Statement::Assign(a) => walk_assign(alloc, &*task, &*at, a, more, &lower),
            Statement::If(t, a, b) => {
                let first = Rest::Then(a, *d, more);
                let second = Rest::Then(b, *d, more);
                let branches = Branches {
                    test: t,
                    first: &first,
                    second: &second,
                };
                walk_if(alloc, &*task, &*at, &branches, &lower)
            }
            Statement::SendAll(e) => walk_send(alloc, &*task, &*at, e, more, &lower),
            Statement::For(_) => Ok(false),
            Statement::SendTo(_, _) => Ok(false),
        },
    }
}

/// Returns true if the plan proves the step behind a `let`.
#[cycle(walks)]
fn walk_let<'a>(
    alloc: Global,
    task: &'a Task<'a>,
    at: &'a Place<'a>,
    bound: &'a Bound<'a>,
    rest: &'a Rest<'a>,
    goal: &'a Goal<'a>,
) -> Result<bool, Unproved>
    ensures { IfOk result (λ yes. IsTrue yes → Refuted goal.now.known.now
        (let_behind bound.now.term.now bound.now.local (behind task.now rest.now) (path_place at.now))) }
{
    if goal.depth == 0 {
        return Err(Unproved::TooDeep);
    }
    let f = form(alloc, bound.term, at.store, None, at.next)?;
    let x = as_number(alloc, f)?;
    let writes = [Write {
        target: Target::ToLocal(bound.local),
        number: x.number,
    }];
    let store = Store::Written(&writes, at.store);
    let known = Known::Fact(&x.facts, goal.known);
    let lower = Goal {
        known: &known,
        plan: goal.plan,
        depth: goal.depth - 1,
    };
    match count_of(bound.term) {
        Some(test) => {
            let counts = Counts::More(at.next, test, at.store, at.counts);
            let place = Place {
                store: &store,
                sent: at.sent,
                counts: &counts,
                next: x.next,
            };
            walk(alloc, &*task, &place, &*rest, &lower)
        }
        None => {
            let place = Place {
                store: &store,
                sent: at.sent,
                counts: at.counts,
                next: x.next,
            };
            walk(alloc, &*task, &place, &*rest, &lower)
        }
    }
}

/// Returns true if the plan proves the step behind an assignment.
#[cycle(walks)]
fn walk_assign<'a>(
    alloc: Global,
    task: &'a Task<'a>,
    at: &'a Place<'a>,
    a: &'a Assignment,
    rest: &'a Rest<'a>,
    goal: &'a Goal<'a>,
) -> Result<bool, Unproved>
    ensures { IfOk result (λ yes. IsTrue yes → Refuted goal.now.known.now
        (assign_behind a.now (behind task.now rest.now) (path_place at.now))) }
{
    if goal.depth == 0 {
        return Err(Unproved::TooDeep);
    }
    let x = assign(alloc, a, at.store, at.next)?;
    let store = Store::Written(&x.writes, at.store);
    let known = Known::Fact(&x.facts, goal.known);
    let lower = Goal {
        known: &known,
        plan: goal.plan,
        depth: goal.depth - 1,
    };
    let place = Place {
        store: &store,
        sent: at.sent,
        counts: at.counts,
        next: x.next,
    };
    walk(alloc, &*task, &place, &*rest, &lower)
}

/// Returns true if the plan proves the step behind a number that is sent.
#[cycle(walks)]
fn walk_send<'a>(
    alloc: Global,
    task: &'a Task<'a>,
    at: &'a Place<'a>,
    e: &'a Term,
    rest: &'a Rest<'a>,
    goal: &'a Goal<'a>,
) -> Result<bool, Unproved>
    ensures { IfOk result (λ yes. IsTrue yes → Refuted goal.now.known.now
        (send_behind e.now (behind task.now rest.now) (path_place at.now))) }
{
    if goal.depth == 0 {
        return Err(Unproved::TooDeep);
    }
    let f = form(alloc, e, at.store, None, at.next)?;
    let x = as_number(alloc, f)?;
    let known = Known::Fact(&x.facts, goal.known);
    let lower = Goal {
        known: &known,
        plan: goal.plan,
        depth: goal.depth - 1,
    };
    let place = Place {
        store: at.store,
        sent: Some(x.number),
        counts: at.counts,
        next: x.next,
    };
    walk(alloc, &*task, &place, &*rest, &lower)
}

/// Returns true if the plan proves the step for both cases of an `if`.
#[cycle(walks)]
fn walk_if<'a>(
    alloc: Global,
    task: &'a Task<'a>,
    at: &'a Place<'a>,
    branches: &'a Branches<'a>,
    goal: &'a Goal<'a>,
) -> Result<bool, Unproved>
    ensures { IfOk result (λ yes. IsTrue yes → Refuted goal.now.known.now
        (if_behind branches.now.test.now (behind task.now branches.now.first.now) (behind task.now branches.now.second.now)
        (path_place at.now))) }
{
    if goal.depth == 0 {
        return Err(Unproved::TooDeep);
    }
    match goal.plan {
        Plan::Refute(certificate) => Ok(contradicts(alloc, goal.known, certificate)?),
        Plan::Follow(left, right) => {
            let x = form(alloc, branches.test, at.store, None, at.next)?;
            let Answers { holds, fails } = both_answers(alloc, x.what)?;
            let place = Place {
                store: at.store,
                sent: at.sent,
                counts: at.counts,
                next: x.next,
            };
            let known = Known::Fact(&x.facts, goal.known);
            let other = Known::Fact(&x.facts, goal.known);
            let with_test = Known::Fact(&holds, &known);
            let without = Known::Fact(&fails, &other);
            let first = Goal {
                known: &with_test,
                plan: left,
                depth: goal.depth - 1,
            };
            let second = Goal {
                known: &without,
                plan: right,
                depth: goal.depth - 1,
            };
            if walk(alloc, &*task, &place, branches.first, &first)? {
                walk(alloc, &*task, &place, branches.second, &second)
            } else {
                Ok(false)
            }
        }
    }
}
