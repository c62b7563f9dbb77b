//! The code of terms.
ghost use Rattle.std.specs.Prelude.{◌≡◌, ◌≤◌, ◌<◌, ◌+◌, ◌*◌, ◌++◌, [], ◌∷◌, pos, true, length, IfOk, IfErr};
ghost use Rattle.bpf_insn.specs.declared.forms.Reg.TheVariants.{R0, R6};
ghost use Rattle.bpf_insn.specs.declared.forms.Size.TheVariants as size;
ghost use Rattle.bpf_insn.specs.declared.forms.Insn.TheVariants as i;
ghost use Rattle.rule_nodes.specs.Operands.{shares_side, constant_number, term_source};
ghost use Rattle.rule_nodes.specs.Fits.{Fits, TallyFits};
ghost use Rattle.rule_nodes.specs.Code.{set_number, far_of, beyond_purpose, by_value, message_by, right_code, tests_code, tally_code, tally_test, sorted_code, term_code, over_code};
ghost use Rattle.rule_nodes.specs.declared.numbers.Purpose.TheVariants.{Value};
ghost use Rattle.rule_nodes.specs.declared.numbers.Source.TheVariants.{FromLocal};
ghost use Rattle.rule_nodes.specs.Refusals.{IsUnmade};

use crate::binary::{binary_of, right_found};
use crate::errors::CompileError;
use crate::insns::{fetch_of, place_of, set_number_of, word_offset};
use crate::numbers::{PLACES, Purpose, Source, Tally};
use crate::operands::{beside_operand, constant_of, depth_behind_of, shares_side_of, source};
use crate::parts::{
    behind_test_of, by_value_of, chosen, first_test, joined, kept_then, message_by_of, near,
    opposite_test, short, single, skip_test, test_of, within,
};
use crate::sorts::{sorted_of, with_item};
use crate::tallies::{tallied, tally_of, tally_test_of};
use bpf_insn::{Insn, MAX_SLOTS, Reg, Size};
use node_env::NO_MAIL;
use rule_syntax::{Operator, Sizes, Term};
use std::alloc::{AllocError, Global};

/// Returns the code of a constant.
fn number(alloc: Global, v: u32, purpose: Purpose) -> Result<Vec<Insn>, AllocError>
    requires { far_of purpose ≤ MAX_SLOTS }
    ensures { IfOk result (λ c. c.items ≡ by_value purpose (set_number R0 v ∷ [])) }
{
    by_value_of(single(alloc, set_number_of(Reg::R0, v))?, purpose)
}

/// Returns the code of a number that one instruction gives.
fn given_by(alloc: Global, insn: Insn, purpose: Purpose) -> Result<Vec<Insn>, AllocError>
    requires { far_of purpose ≤ MAX_SLOTS }
    ensures { IfOk result (λ c. c.items ≡ by_value purpose (insn ∷ [])) }
{
    by_value_of(single(alloc, insn)?, purpose)
}

/// Returns the load of a word of the memory into r0.
fn load_of(k: u32) -> Insn
    requires { 4 * k + 4 ≤ 256 }
    ensures { result ≡ i.Load size.W R0 R6 (pos (4 * k)) }
{
    Insn::Load {
        size: Size::W,
        dst: Reg::R0,
        base: Reg::R6,
        off: word_offset(k),
    }
}

/// Returns the code that asks for the last message from the node that a term names.
fn message(
    alloc: Global,
    node: &Term,
    sizes: Sizes,
    loops: &[u32],
    code: Vec<Insn>,
    purpose: Purpose,
) -> Result<Vec<Insn>, AllocError>
    requires few { sizes.nodes ≤ 64 }
    requires near { far_of purpose ≤ MAX_SLOTS }
    ensures { IfOk result (λ c. c.items ≡
        by_value purpose (message_by (term_source node.now sizes loops.now) sizes.nodes code.items)) }
{
    let from = source(node, sizes, loops);
    by_value_of(message_by_of(alloc, from, sizes.nodes, code)?, purpose)
}

/// Returns the code of a term at a depth, with `lets` lets in scope. Fails if it is longer than a program.
#[tactic(auto, using(crate::proofs::Shared::count_needs, crate::proofs::Shared::least_needs))]
#[cycle(terms)]
pub fn term(
    alloc: Global,
    t: &Term,
    sizes: Sizes,
    loops: &[u32],
    lets: u32,
    depth: u32,
    purpose: Purpose,
) -> Result<Vec<Insn>, CompileError>
    requires some { 1 ≤ sizes.nodes }
    requires few { sizes.nodes ≤ 64 }
    requires memory { sizes.memory ≤ 256 }
    requires deep { depth ≤ PLACES }
    requires fits { Fits t.now sizes (length loops.now) lets depth }
    ensures code { IfOk result (λ c. c.items ≡ term_code t.now sizes loops.now depth purpose) }
    ensures short { IfOk result (λ c. length c.items ≤ MAX_SLOTS) }
    ensures long { IfErr result (IsUnmade (length
        (term_code t.now sizes loops.now depth purpose) + beyond_purpose purpose)) }
{
    near(purpose)?;
    match t {
        Term::Number(v) => short(number(alloc, *v, purpose)?),
        Term::Nodes => short(number(alloc, sizes.nodes, purpose)?),
        Term::Faults => short(number(alloc, sizes.faults, purpose)?),
        Term::Modulus => short(number(alloc, sizes.modulus, purpose)?),
        Term::Me => short(given_by(alloc, Insn::Call { id: 1 }, purpose)?),
        Term::Coin => short(given_by(alloc, Insn::Call { id: 4 }, purpose)?),
        Term::LoopNode(k) => short(number(alloc, loops[*k as usize], purpose)?),
        Term::Local(k) => short(given_by(alloc, fetch_of(Reg::R0, place_of(*k)), purpose)?),
        Term::Word(k) => short(given_by(alloc, load_of(*k), purpose)?),
        Term::Message(a) => {
            let index = term(alloc, a, sizes, loops, lets, depth, Purpose::Value)?;
            short(message(alloc, a, sizes, loops, index, purpose)?)
        }
        Term::Binary(op, a, b) => {
            let behind = depth_behind_of(beside_operand(a, b), depth);
            let right = term(alloc, b, sizes, loops, lets, behind, Purpose::Value)?;
            let left = term(alloc, a, sizes, loops, lets, depth, Purpose::Value)?;
            short(binary_of(alloc, *op, a, b, sizes, loops, depth, left, right, purpose)?)
        }
        Term::Logical(connective, a, b) => {
            let right = term(alloc, b, sizes, loops, lets, depth, test_of(purpose))?;
            let first = first_test(*connective, &right, purpose);
            let left = term(alloc, a, sizes, loops, lets, depth, first)?;
            short(behind_test_of(joined(left, &right)?, purpose)?)
        }
        Term::Not(a) => {
            let code = term(alloc, a, sizes, loops, lets, depth, opposite_test(purpose))?;
            short(behind_test_of(code, purpose)?)
        }
        Term::Choice(c, a, b) => {
            let second = term(alloc, b, sizes, loops, lets, depth, Purpose::Value)?;
            let first = term(alloc, a, sizes, loops, lets, depth, Purpose::Value)?;
            let test = term(alloc, c, sizes, loops, lets, depth, skip_test(&first))?;
            short(by_value_of(chosen(test, &first, &second)?, purpose)?)
        }
        Term::Count(c) => {
            let code = tally_over(alloc, Tally::HowMany, c, sizes, loops, lets, depth)?;
            short(by_value_of(code, purpose)?)
        }
        Term::Least(c) => {
            let code = tally_over(alloc, Tally::LeastMessage, c, sizes, loops, lets, depth)?;
            short(by_value_of(code, purpose)?)
        }
        Term::Sorted(k, e) => {
            let place = constant_of(k, sizes, loops);
            let code = sorted_at(alloc, place, e, sizes, loops, lets, depth)?;
            short(by_value_of(code, purpose)?)
        }
    }
}

/// Returns the code of a tally over the nodes at which a term holds, at a depth.
#[cycle(terms)]
fn tally_over(
    alloc: Global,
    kind: Tally,
    c: &Term,
    sizes: Sizes,
    loops: &[u32],
    lets: u32,
    depth: u32,
) -> Result<Vec<Insn>, CompileError>
    requires some { 1 ≤ sizes.nodes }
    requires few { sizes.nodes ≤ 64 }
    requires memory { sizes.memory ≤ 256 }
    requires deep { depth ≤ PLACES }
    requires fits { TallyFits c.now sizes (length loops.now) lets depth }
    ensures code { IfOk result (λ made. made.items
        ≡ tally_code kind depth (over_code kind c.now sizes loops.now depth)) }
    ensures long { IfErr result (IsUnmade (length
        (tally_code kind depth (over_code kind c.now sizes loops.now depth)))) }
{
    let tests = if shares_side_of(c, loops.len()) {
        shared_over(alloc, kind, c, sizes, loops, lets, depth)?
    } else {
        tests_over(alloc, kind, c, sizes, loops, lets, depth)?
    };
    Ok(tally_of(alloc, kind, place_of(depth), &tests)?)
}

/// Returns the tests and steps of a tally over the nodes at which a term holds.
#[cycle(terms)]
fn tests_over(
    alloc: Global,
    kind: Tally,
    c: &Term,
    sizes: Sizes,
    loops: &[u32],
    lets: u32,
    depth: u32,
) -> Result<Vec<Insn>, CompileError>
    requires some { 1 ≤ sizes.nodes }
    requires few { sizes.nodes ≤ 64 }
    requires memory { sizes.memory ≤ 256 }
    requires deep { depth < PLACES }
    requires fits { Fits c.now sizes (length loops.now + 1) lets (depth + 1) }
    ensures code { IfOk result (λ made. made.items ≡ tests_code kind depth sizes.nodes
        (λ j. term_code c.now sizes (loops.now ++ j ∷ []) (depth + 1) (tally_test kind depth))) }
    ensures long { IfErr result (IsUnmade (length (tests_code kind depth sizes.nodes
        (λ j. term_code c.now sizes (loops.now ++ j ∷ []) (depth + 1) (tally_test kind depth))))) }
{
    let place = place_of(depth);
    let skip = tally_test_of(kind, depth);
    let mut codes = Vec::new(alloc);
    for node in 0..sizes.nodes {
        let inner = within(alloc, loops, node)?;
        let test = term(alloc, c, sizes, &inner, lets, depth + 1, skip)?;
        codes = short(tallied(codes, &test, kind, place, node)?)?;
    }
    Ok(codes)
}

/// Returns the tests and steps of a tally over the nodes at which a comparison holds, with its right side computed once.
#[cycle(terms)]
fn shared_over(
    alloc: Global,
    kind: Tally,
    c: &Term,
    sizes: Sizes,
    loops: &[u32],
    lets: u32,
    depth: u32,
) -> Result<Vec<Insn>, CompileError>
    requires some { 1 ≤ sizes.nodes }
    requires few { sizes.nodes ≤ 64 }
    requires memory { sizes.memory ≤ 256 }
    requires fits { TallyFits c.now sizes (length loops.now) lets depth }
    requires shared { shares_side c.now (length loops.now) ≡ true }
    ensures code { IfOk result (λ made. made.items ≡ over_code kind c.now sizes loops.now depth) }
    ensures long { IfErr result (IsUnmade (length (over_code kind c.now sizes loops.now depth))) }
{
    match c {
        Term::Binary(operator, a, b) => {
            let first = within(alloc, loops, 0)?;
            let right = term(alloc, b, sizes, &first, lets, depth + 1, Purpose::Value)?;
            let tests = lefts_over(alloc, kind, *operator, a, sizes, loops, lets, depth)?;
            Ok(kept_then(right, depth + 1, &tests)?)
        }
        _ => unreachable!(),
    }
}

/// Returns the tests and steps of a tally that compare a term with the place behind the tally.
#[cycle(terms)]
fn lefts_over(
    alloc: Global,
    kind: Tally,
    operator: Operator,
    a: &Term,
    sizes: Sizes,
    loops: &[u32],
    lets: u32,
    depth: u32,
) -> Result<Vec<Insn>, CompileError>
    requires some { 1 ≤ sizes.nodes }
    requires few { sizes.nodes ≤ 64 }
    requires memory { sizes.memory ≤ 256 }
    requires deep { depth + 1 < PLACES }
    requires fits { Fits a.now sizes (length loops.now + 1) lets (depth + 2) }
    ensures code { IfOk result (λ made. made.items ≡ tests_code kind depth sizes.nodes
        (λ j. right_code operator (FromLocal (depth + 1)) (tally_test kind depth)
        (term_code a.now sizes (loops.now ++ j ∷ []) (depth + 2) Value))) }
    ensures long { IfErr result (IsUnmade (length (tests_code kind depth sizes.nodes
        (λ j. right_code operator (FromLocal (depth + 1)) (tally_test kind depth)
        (term_code a.now sizes (loops.now ++ j ∷ []) (depth + 2) Value))))) }
{
    let place = place_of(depth);
    let skip = tally_test_of(kind, depth);
    let mut codes = Vec::new(alloc);
    for number in 0..sizes.nodes {
        let inner = within(alloc, loops, number)?;
        let left = term(alloc, a, sizes, &inner, lets, depth + 2, Purpose::Value)?;
        let test = right_found(operator, Source::FromLocal(depth + 1), left, skip)?;
        codes = short(tallied(codes, &test, kind, place, number)?)?;
    }
    Ok(codes)
}

/// Returns the code of the number at a place among the numbers of a term at all nodes in rising order, at a depth.
#[cycle(terms)]
fn sorted_at(
    alloc: Global,
    place: u32,
    e: &Term,
    sizes: Sizes,
    loops: &[u32],
    lets: u32,
    depth: u32,
) -> Result<Vec<Insn>, CompileError>
    requires some { 1 ≤ sizes.nodes }
    requires few { sizes.nodes ≤ 64 }
    requires memory { sizes.memory ≤ 256 }
    requires deep { depth + sizes.nodes ≤ PLACES }
    requires fits { Fits e.now sizes (length loops.now + 1) lets (depth + sizes.nodes) }
    ensures code { IfOk result (λ made. made.items ≡ sorted_code place depth sizes.nodes
        (λ j. term_code e.now sizes (loops.now ++ j ∷ []) (depth + j) Value)) }
    ensures long { IfErr result (IsUnmade (length (sorted_code place depth sizes.nodes
        (λ j. term_code e.now sizes (loops.now ++ j ∷ []) (depth + j) Value)))) }
{
    if place >= sizes.nodes {
        return Ok(single(alloc, set_number_of(Reg::R0, NO_MAIL))?);
    }
    let mut items = Vec::new(alloc);
    for index in 0..sizes.nodes {
        let inner = within(alloc, loops, index)?;
        let item = term(alloc, e, sizes, &inner, lets, depth + index, Purpose::Value)?;
        items = short(with_item(items, &item, depth + index)?)?;
    }
    Ok(sorted_of(items, place, depth, sizes.nodes)?)
}
