//! Assignments of a rule in C.

use crate::names::OWN;
use crate::page::{Indent, Page};
use crate::terms::{Place, Scope, add_made, add_term, add_word};
use rule_syntax::{Assignment, Target, Term};
use std::alloc::{AllocError, Global};

/// Returns true if the term names the target.
fn names_target(term: &Term, target: Target) -> bool {
    match term {
        Term::Local(place) => target == Target::ToLocal(*place),
        Term::Word(word) => target == Target::ToWord(*word),
        Term::Message(a) | Term::Not(a) | Term::Count(a) => names_target(a, target),
        Term::Binary(_, a, b) | Term::Logical(_, a, b) => {
            names_target(a, target) || names_target(b, target)
        }
        Term::Choice(t, a, b) => {
            names_target(t, target) || names_target(a, target) || names_target(b, target)
        }
        _ => false,
    }
}

/// Returns true if the term names one of the targets.
fn names_one(assignment: &Assignment, term: &Term) -> bool {
    match assignment {
        Assignment::One(target, _) => names_target(term, *target),
        Assignment::Also(front, target, _) => {
            names_target(term, *target) || names_one(front, term)
        }
    }
}

/// Returns true if each number may be set before those after it are computed.
fn is_in_order(assignment: &Assignment) -> bool {
    match assignment {
        Assignment::One(_, _) => true,
        Assignment::Also(front, _, number) => !names_one(front, number) && is_in_order(front),
    }
}

/// Adds the name of a target.
fn add_target(page: &mut Page<'_>, target: Target, scope: Scope<'_>) -> Result<(), AllocError> {
    match target {
        Target::ToLocal(place) => add_made(page, scope.lets.get(place as usize)),
        Target::ToWord(word) => add_word(page, word),
    }
}

/// Adds the statement that sets a target to the number of a term.
fn add_one(
    alloc: Global,
    page: &mut Page<'_>,
    (target, number): (Target, &Term),
    scope: Scope<'_>,
    depth: usize,
) -> Result<(), AllocError> {
    let indent = Indent(depth);
    write!(page.text, "{indent}")?;
    add_target(page, target, scope)?;
    page.add(" = ")?;
    add_term(alloc, page, number, scope, Place::Whole)?;
    page.add(";\n")
}

/// Adds a statement for each target.
fn add_each(
    alloc: Global,
    page: &mut Page<'_>,
    assignment: &Assignment,
    scope: Scope<'_>,
    depth: usize,
) -> Result<(), AllocError> {
    match assignment {
        Assignment::One(target, number) => add_one(alloc, page, (*target, number), scope, depth),
        Assignment::Also(front, target, number) => {
            add_each(alloc, page, front, scope, depth)?;
            add_one(alloc, page, (*target, number), scope, depth)
        }
    }
}

/// Adds a variable that has the number of a term.
fn add_number(
    alloc: Global,
    page: &mut Page<'_>,
    (place, number): (usize, &Term),
    scope: Scope<'_>,
    depth: usize,
) -> Result<(), AllocError> {
    let indent = Indent(depth);
    write!(page.text, "{indent}u32 {OWN}{place} = ")?;
    add_term(alloc, page, number, scope, Place::Whole)?;
    page.add(";\n")
}

/// Adds a variable for each number. Returns how many there are.
fn add_numbers(
    alloc: Global,
    page: &mut Page<'_>,
    assignment: &Assignment,
    scope: Scope<'_>,
    depth: usize,
) -> Result<usize, AllocError> {
    match assignment {
        Assignment::One(_, number) => {
            add_number(alloc, page, (0, number), scope, depth)?;
            Ok(1)
        }
        Assignment::Also(front, _, number) => {
            let place = add_numbers(alloc, page, front, scope, depth)?;
            add_number(alloc, page, (place, number), scope, depth)?;
            Ok(place.saturating_add(1))
        }
    }
}

/// Adds the statement that sets a target to a variable.
fn add_variable(
    page: &mut Page<'_>,
    (target, place): (Target, usize),
    scope: Scope<'_>,
    depth: usize,
) -> Result<(), AllocError> {
    let indent = Indent(depth);
    write!(page.text, "{indent}")?;
    add_target(page, target, scope)?;
    write!(page.text, " = {OWN}{place};\n")
}

/// Sets each target to its variable. Returns how many there are.
fn add_variables(
    page: &mut Page<'_>,
    assignment: &Assignment,
    scope: Scope<'_>,
    depth: usize,
) -> Result<usize, AllocError> {
    match assignment {
        Assignment::One(target, _) => {
            add_variable(page, (*target, 0), scope, depth)?;
            Ok(1)
        }
        Assignment::Also(front, target, _) => {
            let place = add_variables(page, front, scope, depth)?;
            add_variable(page, (*target, place), scope, depth)?;
            Ok(place.saturating_add(1))
        }
    }
}

/// Adds an assignment. All numbers are computed before the first is set.
pub(crate) fn add_assignment(
    alloc: Global,
    page: &mut Page<'_>,
    assignment: &Assignment,
    scope: Scope<'_>,
    depth: usize,
) -> Result<(), AllocError> {
    if is_in_order(assignment) {
        return add_each(alloc, page, assignment, scope, depth);
    }
    let indent = Indent(depth);
    let inner = depth.saturating_add(1);
    write!(page.text, "{indent}{{\n")?;
    let _numbers = add_numbers(alloc, page, assignment, scope, inner)?;
    let _variables = add_variables(page, assignment, scope, inner)?;
    write!(page.text, "{indent}}}\n")
}
