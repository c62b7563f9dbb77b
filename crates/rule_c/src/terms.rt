//! Terms of a rule as expressions of C. Each one is of the type u32, but for a condition that is no operand.

use crate::page::Page;
use rule_syntax::{Comparison, Connective, Operation, Operator, Term};
use std::alloc::{AllocError, Global};

/// The names around a term, by their places among the names that the rule makes: its lets and the nodes of its loops.
#[derive(Clone, Copy)]
pub(crate) struct Scope<'a> {
    pub(crate) lets: &'a [usize],
    pub(crate) loops: &'a [usize],
}

/// Where an expression is.
#[derive(Clone, Copy)]
pub(crate) enum Place {
    /// A whole right side, or an argument.
    Whole,
    /// A whole condition: every number but 0 holds.
    Condition,
    /// A condition beside others.
    PartOfCondition,
    /// An operand that may be a sum.
    OfComparison,
    /// An operand that may be a product.
    OfSum,
    /// An operand that may be neither.
    OfProduct,
}

/// What an expression is made of.
#[derive(Clone, Copy)]
enum Shape {
    Atom,
    Product,
    Sum,
    Comparison,
    Combined,
    Choice,
}

/// The parts of an expression with two operands.
#[derive(Clone, Copy)]
struct Form {
    front: &'static str,
    first: Place,
    middle: &'static str,
    second: Place,
    end: &'static str,
}

/// Returns true if the number is never 0, whatever the sizes are.
fn is_positive(term: &Term) -> bool {
    match term {
        Term::Number(number) => *number != 0,
        Term::Nodes | Term::Modulus => true,
        _ => false,
    }
}

fn shape_of_binary(operator: Operator, second: &Term) -> Shape {
    match operator {
        Operator::Compute(Operation::Sum | Operation::Difference) => Shape::Sum,
        Operator::Compute(Operation::Product) => Shape::Product,
        Operator::Compute(Operation::Quotient | Operation::Remainder) => {
            if is_positive(second) {
                Shape::Product
            } else {
                Shape::Atom
            }
        }
        Operator::Compare(_) => Shape::Comparison,
    }
}

fn shape_of(term: &Term) -> Shape {
    match term {
        Term::Binary(operator, _, second) => shape_of_binary(*operator, second),
        Term::Logical(_, _, _) => Shape::Combined,
        Term::Not(_) => Shape::Comparison,
        Term::Choice(_, _, _) => Shape::Choice,
        _ => Shape::Atom,
    }
}

/// Returns what is before an expression at a place. If there is something, a bracket closes it.
fn opening_of_shape(shape: Shape, place: Place) -> &'static str {
    match (place, shape) {
        (Place::Whole | Place::Condition, _) => "",
        (Place::PartOfCondition, Shape::Atom | Shape::Comparison) => "",
        (Place::PartOfCondition, _) => "(",
        (_, Shape::Comparison | Shape::Combined) => "(u32)(",
        (_, Shape::Choice) => "(",
        (_, Shape::Atom) => "",
        (Place::OfComparison, _) => "",
        (Place::OfSum, Shape::Product) => "",
        (_, _) => "(",
    }
}

/// Returns the same of a term. The helpers of a node give 64 bits.
fn opening(term: &Term, place: Place) -> &'static str {
    match (term, place) {
        (Term::Coin, Place::OfComparison | Place::OfSum | Place::OfProduct) => "(u32)(",
        _ => opening_of_shape(shape_of(term), place),
    }
}

fn operation_form(operation: Operation, second: &Term) -> Form {
    let (front, first, middle, second, end) = match operation {
        Operation::Sum => ("", Place::OfComparison, " + ", Place::OfSum, ""),
        Operation::Difference => ("", Place::OfComparison, " - ", Place::OfSum, ""),
        Operation::Product => ("", Place::OfSum, " * ", Place::OfProduct, ""),
        Operation::Quotient => {
            if is_positive(second) {
                ("", Place::OfSum, " / ", Place::OfProduct, "")
            } else {
                ("quotient(", Place::Whole, ", ", Place::Whole, ")")
            }
        }
        Operation::Remainder => {
            if is_positive(second) {
                ("", Place::OfSum, " % ", Place::OfProduct, "")
            } else {
                ("modulo(", Place::Whole, ", ", Place::Whole, ")")
            }
        }
    };
    Form {
        front,
        first,
        middle,
        second,
        end,
    }
}

fn comparison_sign(comparison: Comparison) -> &'static str {
    match comparison {
        Comparison::Equal => " == ",
        Comparison::NotEqual => " != ",
        Comparison::Less => " < ",
        Comparison::AtMost => " <= ",
        Comparison::Greater => " > ",
        Comparison::AtLeast => " >= ",
    }
}

fn connective_sign(connective: Connective) -> &'static str {
    match connective {
        Connective::And => " && ",
        Connective::Or => " || ",
    }
}

fn form_of(operator: Operator, second: &Term) -> Form {
    match operator {
        Operator::Compute(operation) => operation_form(operation, second),
        Operator::Compare(comparison) => Form {
            front: "",
            first: Place::OfComparison,
            middle: comparison_sign(comparison),
            second: Place::OfComparison,
            end: "",
        },
    }
}

/// Returns how many names the aggregates of a term make.
fn names_made(term: &Term) -> usize {
    match term {
        Term::Message(a) | Term::Not(a) => names_made(a),
        Term::Count(a) | Term::Least(a) => names_made(a).saturating_add(1),
        Term::Sorted(_, item) => names_made(item).saturating_add(1),
        Term::Binary(_, a, b) | Term::Logical(_, a, b) => {
            names_made(a).saturating_add(names_made(b))
        }
        Term::Choice(t, a, b) => {
            let first = names_made(t).saturating_add(names_made(a));
            first.saturating_add(names_made(b))
        }
        _ => 0,
    }
}

/// Returns the places with one more.
pub(crate) fn within(
    alloc: Global,
    places: &[usize],
    place: usize,
) -> Result<Vec<usize>, AllocError> {
    let mut more = Vec::from_slice(alloc, places)?;
    more.push(place)?;
    Ok(more)
}

/// Adds the name at a place among those that the rule makes.
pub(crate) fn add_made(page: &mut Page<'_>, place: Option<&usize>) -> Result<(), AllocError> {
    let source = page.source;
    match place {
        Some(place) => match source.names.made.get(*place) {
            Some(name) => page.add(name.as_str()),
            None => page.add("unnamed"),
        },
        None => page.add("unnamed"),
    }
}

/// Adds the name of a word of the memory.
pub(crate) fn add_word(page: &mut Page<'_>, word: u32) -> Result<(), AllocError> {
    let source = page.source;
    match source.names.words.get(word as usize) {
        Some(name) => page.add(name.as_str()),
        None => page.add("unnamed"),
    }
}

/// Adds a term without parts.
fn add_leaf(page: &mut Page<'_>, term: &Term, scope: Scope<'_>) -> Result<(), AllocError> {
    match term {
        Term::Number(u32::MAX) => page.add("NO_MAIL"),
        Term::Number(number) => {
            let number = *number;
            write!(page.text, "{number}u")
        }
        Term::Nodes => page.add("NODES"),
        Term::Faults => page.add("FAULTS"),
        Term::Modulus => page.add("MODULUS"),
        Term::Me => page.add("me"),
        Term::Coin => page.add("coin()"),
        Term::LoopNode(place) => add_made(page, scope.loops.get(*place as usize)),
        Term::Local(place) => add_made(page, scope.lets.get(*place as usize)),
        Term::Word(word) => add_word(page, *word),
        _ => Ok(()),
    }
}

/// Adds an aggregate over the nodes up to its condition. Returns the place of its name.
fn add_aggregate(page: &mut Page<'_>, front: &str) -> Result<usize, AllocError> {
    let name = page.take_made();
    page.add(front)?;
    add_made(page, Some(&name))?;
    page.add(", ")?;
    Ok(name)
}

fn aggregate_front(term: &Term) -> &'static str {
    match term {
        Term::Least(_) => "LEAST(",
        _ => "COUNT(",
    }
}

/// Returns the places of nodes with one more.
fn with_node<'a>(scope: Scope<'a>, loops: &'a [usize]) -> Scope<'a> {
    Scope {
        lets: scope.lets,
        loops,
    }
}

/// Adds the expression of a term at a place.
pub(crate) fn add_term(
    alloc: Global,
    page: &mut Page<'_>,
    term: &Term,
    scope: Scope<'_>,
    place: Place,
) -> Result<(), AllocError> {
    let front = opening(term, place);
    page.add(front)?;
    match term {
        Term::Message(a) => {
            page.add("mail(")?;
            add_term(alloc, page, a, scope, Place::Whole)?;
            page.add(")")?;
        }
        Term::Binary(operator, a, b) => {
            let form = form_of(*operator, b);
            page.add(form.front)?;
            add_term(alloc, page, a, scope, form.first)?;
            page.add(form.middle)?;
            add_term(alloc, page, b, scope, form.second)?;
            page.add(form.end)?;
        }
        Term::Logical(connective, a, b) => {
            add_term(alloc, page, a, scope, Place::PartOfCondition)?;
            page.add(connective_sign(*connective))?;
            add_term(alloc, page, b, scope, Place::PartOfCondition)?;
        }
        Term::Not(a) => {
            page.add("!(")?;
            add_term(alloc, page, a, scope, Place::Condition)?;
            page.add(")")?;
        }
        Term::Choice(test, a, b) => {
            // The rule's text has the first number before the condition.
            let first = page.made;
            page.made = first.saturating_add(names_made(a));
            add_term(alloc, page, test, scope, Place::PartOfCondition)?;
            let second = page.made;
            page.made = first;
            page.add(" ? ")?;
            add_term(alloc, page, a, scope, Place::OfComparison)?;
            page.made = second;
            page.add(" : ")?;
            add_term(alloc, page, b, scope, Place::OfComparison)?;
        }
        Term::Count(a) | Term::Least(a) => {
            let name = add_aggregate(page, aggregate_front(term))?;
            let loops = within(alloc, scope.loops, name)?;
            add_term(alloc, page, a, with_node(scope, &loops), Place::Condition)?;
            page.add(")")?;
        }
        Term::Sorted(at, item) => {
            page.add("SORTED(")?;
            add_term(alloc, page, at, scope, Place::Whole)?;
            let name = add_aggregate(page, ", ")?;
            let loops = within(alloc, scope.loops, name)?;
            add_term(alloc, page, item, with_node(scope, &loops), Place::Whole)?;
            page.add(")")?;
        }
        _ => add_leaf(page, term, scope)?,
    }
    if front.is_empty() {
        Ok(())
    } else {
        page.add(")")
    }
}

/// Adds the numbers of a message and of its receiver, the receiver first, as the arguments of a call.
pub(crate) fn add_receiver_first(
    alloc: Global,
    page: &mut Page<'_>,
    number: &Term,
    receiver: &Term,
    scope: Scope<'_>,
) -> Result<(), AllocError> {
    // The rule's text has the number first.
    let first = page.made;
    page.made = first.saturating_add(names_made(number));
    add_term(alloc, page, receiver, scope, Place::Whole)?;
    let end = page.made;
    page.made = first;
    page.add(", ")?;
    add_term(alloc, page, number, scope, Place::Whole)?;
    page.made = end;
    Ok(())
}
