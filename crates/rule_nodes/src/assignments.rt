//! The code of assignments.
ghost use Rattle.std.specs.Prelude.{◌≡◌, ◌≤◌, ◌+◌, ◌++◌, ◌*◌, [], ◌∷◌, pos, length, IfOk, IfErr};
ghost use Rattle.bpf_insn.specs.declared.forms.Reg.TheVariants.{R0, R6};
ghost use Rattle.bpf_insn.specs.declared.forms.Size.TheVariants as size;
ghost use Rattle.bpf_insn.specs.declared.forms.Insn.TheVariants as i;
ghost use Rattle.rule_syntax.specs.declared.syntax.Target.TheVariants.{ToWord};
ghost use Rattle.rule_nodes.specs.Operands.{is_local, is_steady, IsSourceWithin, IsTargetInMemory};
ghost use Rattle.rule_nodes.specs.Fits.{AssignmentFits};
ghost use Rattle.rule_nodes.specs.Code.{number_place, fetch_code, keep_code, assign_code, place_code, word_code, set_code, given_code, change_place, change_by, changing_insn, one_code, also_code, assignment_code};
ghost use Rattle.rule_nodes.specs.Refusals.{IsUnmade};

use crate::errors::CompileError;
use crate::insns::{fetch_of, keep_of, operation_of, place_of, word_offset};
use crate::numbers::{PLACES, Place, Purpose, Source};
use crate::operands::{constant_of, depth_behind_of, get_of, is_constant_of, source};
use crate::parts::{joined, short, single};
use crate::terms::term;
use bpf_insn::{Insn, MAX_SLOTS, Operand, Reg, Size, Width};
use rule_syntax::{Assignment, Operation, Operator, Sizes, Target, Term};
use std::alloc::{AllocError, Global};

/// Returns the instruction that sets a word to the number in a register.
fn store_of(k: u32, src: Reg) -> Insn
    requires { 4 * k + 4 ≤ 256 }
    ensures { result ≡ i.StoreReg size.W R6 (pos (4 * k)) src }
{
    Insn::StoreReg {
        size: Size::W,
        base: Reg::R6,
        off: word_offset(k),
        src,
    }
}

/// Returns the instruction that sets a target to the number in r0.
fn assign_of(target: Target) -> Insn
    requires { IsTargetInMemory target 256 }
    ensures { result ≡ assign_code target }
{
    match target {
        Target::ToLocal(k) => keep_of(place_of(k)),
        Target::ToWord(k) => store_of(k, Reg::R0),
    }
}

/// Returns true if no assignment changes the number of a term.
pub fn is_steady_of(t: &Term) -> bool
    ensures { result ≡ is_steady t.now }
{
    match t {
        Term::Me | Term::Coin => true,
        _ => is_constant_of(t),
    }
}

/// Returns the code that puts a found number into a place.
pub fn placed_of(alloc: Global, place: Place, source: Source) -> Result<Vec<Insn>, AllocError>
    requires { IsSourceWithin source 256 }
    ensures { IfOk result (λ c. c.items ≡ place_code place source) }
{
    match place {
        Place::InRegister(register) => single(alloc, get_of(register, source)),
        Place::OnStack(_) => {
            let get = get_of(Reg::R0, source);
            joined(Vec::new(alloc), &[get, keep_of(place)])
        }
    }
}

/// Returns the code that sets a word to the number in a place.
fn word_of(alloc: Global, k: u32, place: Place) -> Result<Vec<Insn>, AllocError>
    requires { 4 * k + 4 ≤ 256 }
    ensures { IfOk result (λ c. c.items ≡ word_code k place) }
{
    match place {
        Place::InRegister(register) => single(alloc, store_of(k, register)),
        Place::OnStack(_) => {
            joined(
                Vec::new(alloc),
                &[fetch_of(Reg::R0, place), store_of(k, Reg::R0)],
            )
        }
    }
}

/// Returns the code that sets a word to a found number.
fn set_word(alloc: Global, k: u32, source: Source) -> Result<Vec<Insn>, AllocError>
    requires target { 4 * k + 4 ≤ 256 }
    requires within { IsSourceWithin source 256 }
    ensures { IfOk result (λ c. c.items ≡ set_code (ToWord k) source) }
{
    match source {
        Source::Constant(v) => single(
            alloc,
            Insn::StoreImm {
                size: Size::W,
                base: Reg::R6,
                off: word_offset(k),
                imm: v.cast_signed(),
            },
        ),
        Source::FromLocal(j) => word_of(alloc, k, place_of(j)),
        Source::FromWord(_) => {
            let get = get_of(Reg::R0, source);
            joined(Vec::new(alloc), &[get, store_of(k, Reg::R0)])
        }
        Source::Computed => {
            let get = get_of(Reg::R0, source);
            joined(Vec::new(alloc), &[get, store_of(k, Reg::R0)])
        }
    }
}

/// Returns the code that sets a target to a found number.
fn set_of(alloc: Global, target: Target, source: Source) -> Result<Vec<Insn>, AllocError>
    requires target { IsTargetInMemory target 256 }
    requires within { IsSourceWithin source 256 }
    ensures { IfOk result (λ c. c.items ≡ set_code target source) }
{
    match target {
        Target::ToLocal(k) => placed_of(alloc, place_of(k), source),
        Target::ToWord(k) => set_word(alloc, k, source),
    }
}

/// Returns the code that sets a target to a number that is found, or that the code computes.
fn given(
    alloc: Global,
    source: Source,
    target: Target,
    set: Insn,
    code: Vec<Insn>,
) -> Result<Vec<Insn>, AllocError>
    requires set { set ≡ assign_code target }
    requires target { IsTargetInMemory target 256 }
    requires within { IsSourceWithin source 256 }
    ensures { IfOk result (λ c. c.items ≡ given_code source target code.items) }
{
    match source {
        Source::Computed => joined(code, &[set]),
        Source::Constant(_) => set_of(alloc, target, source),
        Source::FromLocal(_) => set_of(alloc, target, source),
        Source::FromWord(_) => set_of(alloc, target, source),
    }
}

/// Returns whether a term is this local.
fn is_local_of(t: &Term, k: u32) -> bool
    ensures { result ≡ is_local t.now k }
{
    match t {
        Term::Local(j) => *j == k,
        _ => false,
    }
}

/// Returns the instruction that changes a local in its place by an operator and a constant, if a target is set so.
fn changed_by(
    target: Target,
    operator: Operator,
    a: &Term,
    b: &Term,
    sizes: Sizes,
    loops: &[u32],
) -> Option<Insn>
    ensures { result ≡ change_by target operator a.now b.now sizes loops.now }
{
    match target {
        Target::ToLocal(k) => {
            match operator {
                Operator::Compute(op) => {
                    if is_local_of(a, k) && is_constant_of(b) {
                        change_of(place_of(k), op, constant_of(b, sizes, loops))
                    } else {
                        None
                    }
                }
                Operator::Compare(_) => None,
            }
        }
        Target::ToWord(_) => None,
    }
}

/// Returns an operation on a place and a constant, if the place is a register.
fn change_of(place: Place, op: Operation, v: u32) -> Option<Insn>
    ensures { result ≡ change_place place op v }
{
    match place {
        Place::InRegister(register) => Some(Insn::Alu {
            op: operation_of(op),
            width: Width::W32,
            dst: register,
            src: Operand::Imm(v.cast_signed()),
        }),
        Place::OnStack(_) => None,
    }
}

/// Returns the instruction that changes a local in its place, if a target is set to an operation on itself.
fn changed(target: Target, e: &Term, sizes: Sizes, loops: &[u32]) -> Option<Insn>
    ensures { result ≡ changing_insn target e.now sizes loops.now }
{
    match e {
        Term::Binary(operator, a, b) => changed_by(target, *operator, a, b, sizes, loops),
        _ => None,
    }
}

/// Returns the one instruction that does the same as the code, if there is one.
fn one_of(alloc: Global, insn: Option<Insn>, code: Vec<Insn>) -> Result<Vec<Insn>, AllocError>
    ensures { IfOk result (λ c. c.items ≡ one_code insn code.items) }
{
    match insn {
        Some(insn) => single(alloc, insn),
        None => Ok(code),
    }
}

/// Returns the code that keeps a number in a place, sets the targets before, and then sets this one.
fn kept(depth: u32, set: Insn, code: Vec<Insn>, first: Vec<Insn>) -> Result<Vec<Insn>, AllocError>
    ensures { IfOk result (λ c. c.items ≡
        code.items ++ (keep_code (number_place depth) ∷ (first.items ++ fetch_code R0 (number_place depth) ∷ set ∷ []))) }
{
    let place = place_of(depth);
    let held = joined(code, &[keep_of(place)])?;
    let others = joined(first, &[fetch_of(Reg::R0, place), set])?;
    joined(held, &others)
}

/// Returns the code of an assignment at a depth, with `lets` lets in scope. Fails if it is longer than a program.
pub fn assignment(
    alloc: Global,
    a: &Assignment,
    sizes: Sizes,
    loops: &[u32],
    lets: u32,
    depth: u32,
) -> Result<Vec<Insn>, CompileError>
    requires some { 1 ≤ sizes.nodes }
    requires few { sizes.nodes ≤ 64 }
    requires memory { sizes.memory ≤ 256 }
    requires deep { depth ≤ PLACES }
    requires fits { AssignmentFits a.now sizes (length loops.now) lets depth }
    ensures code { IfOk result (λ c. c.items ≡ assignment_code a.now sizes loops.now depth) }
    ensures short { IfOk result (λ c. length c.items ≤ MAX_SLOTS) }
    ensures long { IfErr result (IsUnmade (length (assignment_code a.now sizes loops.now depth) + 1)) }
{
    match a {
        Assignment::One(target, e) => {
            let set = assign_of(*target);
            let value = term(alloc, e, sizes, loops, lets, depth, Purpose::Value)?;
            let code = given(alloc, source(e, sizes, loops), *target, set, value)?;
            short(one_of(alloc, changed(*target, e, sizes, loops), code)?)
        }
        Assignment::Also(front, target, e) => {
            let steady = is_steady_of(e);
            let set = assign_of(*target);
            let behind = depth_behind_of(steady, depth);
            let first = assignment(alloc, front, sizes, loops, lets, behind)?;
            let value = term(alloc, e, sizes, loops, lets, depth, Purpose::Value)?;
            let at = source(e, sizes, loops);
            short(also_of(alloc, steady, depth, at, *target, set, value, first)?)
        }
    }
}

/// Returns the code of a steady number after the targets before, or of any other number before them.
fn also_of(
    alloc: Global,
    steady: bool,
    depth: u32,
    source: Source,
    target: Target,
    set: Insn,
    code: Vec<Insn>,
    first: Vec<Insn>,
) -> Result<Vec<Insn>, AllocError>
    requires set { set ≡ assign_code target }
    requires target { IsTargetInMemory target 256 }
    requires within { IsSourceWithin source 256 }
    ensures { IfOk result (λ c. c.items ≡ also_code steady depth source target code.items first.items) }
{
    if steady {
        let number = given(alloc, source, target, set, code)?;
        joined(first, &number)
    } else {
        kept(depth, set, code, first)
    }
}
