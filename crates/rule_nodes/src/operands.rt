//! Where numbers are found: constants, locals and words of the memory.
ghost use Rattle.std.specs.Prelude.{◌≡◌, ◌≤◌, ◌++◌, ◌||◌, slice_index, IfOk};
ghost use Rattle.rule_nodes.specs.Operands.{is_constant, is_operand, is_free, is_shared, shares_side, constant_number, depth_behind, fetched_source, term_source, IsSourceWithin};
ghost use Rattle.rule_nodes.specs.Fits.{HasPlace};
ghost use Rattle.rule_nodes.specs.Code.{load_place, get_code, operand_code, load_code};

use crate::insns::{copy_of, fetch_of, place_of, place_operand_of, set_number_of, word_offset};
use crate::numbers::{PLACES, Place, Source};
use crate::parts::joined;
use bpf_insn::{Insn, Operand, Reg, Size};
use rule_meaning::operate_of;
use rule_syntax::{Operator, Sizes, Term};
use std::alloc::AllocError;

/// Returns whether a source is a constant.
pub fn is_constant_of(t: &Term) -> bool
    ensures { result ≡ is_constant t.now }
{
    match t {
        Term::Number(_) | Term::Nodes | Term::Faults | Term::Modulus | Term::LoopNode(_) => true,
        Term::Binary(_, a, b) => is_constant_of(a) && is_constant_of(b),
        _ => false,
    }
}

/// Returns whether a source is an operand: its number isn't computed.
pub fn is_operand_of(t: &Term) -> bool
    ensures { result ≡ is_operand t.now }
{
    match t {
        Term::Local(_) | Term::Word(_) => true,
        _ => is_constant_of(t),
    }
}

/// Returns true if a term has the same number for all nodes of a loop.
fn is_free_of(t: &Term, level: usize) -> bool
    ensures { result ≡ is_free t.now level }
{
    match t {
        Term::Number(_) | Term::Nodes | Term::Faults | Term::Modulus | Term::Me | Term::Coin =>
            true,
        Term::LoopNode(k) => *k as usize != level,
        Term::Local(_) | Term::Word(_) => true,
        Term::Message(a) | Term::Not(a) | Term::Count(a) | Term::Least(a) => is_free_of(a, level),
        Term::Binary(_, a, b) | Term::Logical(_, a, b) | Term::Sorted(a, b) => {
            is_free_of(a, level) && is_free_of(b, level)
        }
        Term::Choice(c, a, b) => {
            is_free_of(c, level) && (is_free_of(a, level) && is_free_of(b, level))
        }
    }
}

/// Returns true if the right side is computed once for all nodes of a loop.
pub fn is_shared_of(operator: Operator, left: &Term, right: &Term, level: usize) -> bool
    ensures { result ≡ is_shared operator left.now right.now level }
{
    match operator {
        Operator::Compute(_) => false,
        Operator::Compare(_) => !beside_operand(left, right) && is_free_of(right, level),
    }
}

/// Returns true if a term is a comparison whose right side is computed once for all nodes of a loop.
pub fn shares_side_of(t: &Term, level: usize) -> bool
    ensures { result ≡ shares_side t.now level }
{
    match t {
        Term::Binary(operator, a, b) => is_shared_of(*operator, a, b, level),
        _ => false,
    }
}

fn node_of(loops: &[u32], level: u32) -> u32
    ensures { result ≡ slice_index loops.now level }
{
    let place = level as usize;
    if place < loops.len() { loops[place] } else { 0 }
}

/// Returns the number of a constant, and 0 for any other term.
pub fn constant_of(t: &Term, sizes: Sizes, loops: &[u32]) -> u32
    ensures { result ≡ constant_number t.now sizes loops.now }
{
    match t {
        Term::Number(v) => *v,
        Term::Nodes => sizes.nodes,
        Term::Faults => sizes.faults,
        Term::Modulus => sizes.modulus,
        Term::LoopNode(k) => node_of(loops, *k),
        Term::Binary(operator, a, b) => {
            operate_of(
                *operator,
                constant_of(a, sizes, loops),
                constant_of(b, sizes, loops),
            )
        }
        _ => 0,
    }
}

fn fetched(t: &Term) -> Source
    ensures { result ≡ fetched_source t.now }
{
    match t {
        Term::Local(k) => Source::FromLocal(*k),
        Term::Word(k) => Source::FromWord(*k),
        _ => Source::Computed,
    }
}

/// Returns where the number of a term is found.
pub fn source(t: &Term, sizes: Sizes, loops: &[u32]) -> Source
    ensures { result ≡ term_source t.now sizes loops.now }
{
    if is_constant_of(t) {
        Source::Constant(constant_of(t, sizes, loops))
    } else {
        fetched(t)
    }
}

/// Returns the instruction that puts a found number into a register.
pub fn get_of(dst: Reg, source: Source) -> Insn
    requires { IsSourceWithin source 256 }
    ensures { result ≡ get_code dst source }
{
    match source {
        Source::Constant(v) => set_number_of(dst, v),
        Source::FromLocal(k) => fetch_of(dst, place_of(k)),
        Source::FromWord(k) => Insn::Load {
            size: Size::W,
            dst,
            base: Reg::R6,
            off: word_offset(k),
        },
        Source::Computed => copy_of(dst, Reg::R0),
    }
}

/// Returns a found number as the operand of an instruction.
pub fn operand_of(source: Source) -> Operand
    ensures { result ≡ operand_code source }
{
    match source {
        Source::Constant(v) => Operand::Imm(v.cast_signed()),
        Source::FromLocal(k) => place_operand_of(place_of(k)),
        Source::FromWord(_) | Source::Computed => Operand::Reg(Reg::R1),
    }
}

/// Returns the code, with the load of a place that is an operand and not in a register.
pub fn with_place(code: Vec<Insn>, place: Place) -> Result<Vec<Insn>, AllocError>
    ensures { IfOk result (λ c. c.items ≡ code.items ++ load_place place) }
{
    match place {
        Place::InRegister(_) => joined(code, &[]),
        Place::OnStack(_) => joined(code, &[fetch_of(Reg::R1, place)]),
    }
}

/// Returns the code, with the load of an operand that is not in a register.
pub fn with_load(code: Vec<Insn>, source: Source) -> Result<Vec<Insn>, AllocError>
    requires { IsSourceWithin source 256 }
    ensures { IfOk result (λ c. c.items ≡ code.items ++ load_code source) }
{
    match source {
        Source::FromWord(_) => joined(code, &[get_of(Reg::R1, source)]),
        Source::Constant(_) => joined(code, &[]),
        Source::FromLocal(k) => with_place(code, place_of(k)),
        Source::Computed => joined(code, &[]),
    }
}

/// Returns whether one of two sides is an operand, so that none is kept.
pub fn beside_operand(left: &Term, right: &Term) -> bool
    ensures { result ≡ is_operand left.now || is_operand right.now }
{
    is_operand_of(left) || is_operand_of(right)
}

/// Returns the depth behind a number that isn't kept if it is simple.
pub fn depth_behind_of(simple: bool, depth: u32) -> u32
    requires deep { depth ≤ PLACES }
    requires place { HasPlace simple depth }
    ensures is { result ≡ depth_behind simple depth }
    ensures deep { result ≤ PLACES }
{
    if simple { depth } else { depth + 1 }
}
