//! Whether a rule fits: its numbers, names, words and places.
ghost use Rattle.std.specs.Prelude.{◌≡◌, ◌≤◌, ◌<◌, ◌+◌, ◌*◌, ◌^◌, ◌||◌, true, IfOk, IfErr};
ghost use Rattle.rule_nodes.specs.Operands.{is_constant, is_operand, is_steady, is_shared};
ghost use Rattle.rule_nodes.specs.Fits.{HasPlace, SidesFit, Fits, TallyFits, TargetFits, AssignmentFits, BlockFits};
ghost use Rattle.rule_nodes.specs.Refusals.{IsUnfit};

use crate::assignments::is_steady_of;
use crate::errors::CompileError;
use crate::insns::has_word;
use crate::numbers::PLACES;
use crate::operands::{
    beside_operand, depth_behind_of, is_constant_of, is_operand_of, is_shared_of,
};
use rule_syntax::{Assignment, Sizes, Statement, Target, Term};

/// Fails if a number needs a place, and there is none at the depth.
fn needs_place(simple: bool, depth: u32) -> Result<(), CompileError>
    ensures fits { IfOk result (λ _. HasPlace simple depth) }
    ensures unfit { IfErr result (IsUnfit (HasPlace simple depth)) }
{
    if simple || depth < PLACES {
        Ok(())
    } else {
        Err(CompileError::NoRoom)
    }
}

/// Fails if the word is not in the memory.
fn needs_word(k: u32, memory: u32) -> Result<(), CompileError>
    ensures fits { IfOk result (λ _. 4 * k + 4 ≤ memory) }
    ensures unfit { IfErr result (IsUnfit (4 * k + 4 ≤ memory)) }
{
    if has_word(k, memory) {
        Ok(())
    } else {
        Err(CompileError::NoRoom)
    }
}

/// Fails if the first number isn't less than the second.
fn needs_less(k: u32, limit: u32) -> Result<(), CompileError>
    ensures fits { IfOk result (λ _. k < limit) }
    ensures unfit { IfErr result (IsUnfit (k < limit)) }
{
    if k < limit {
        Ok(())
    } else {
        Err(CompileError::NoRoom)
    }
}

/// Fails if there is no loop of this number.
fn needs_loop(k: u32, loops: usize) -> Result<(), CompileError>
    ensures fits { IfOk result (λ _. k < loops) }
    ensures unfit { IfErr result (IsUnfit (k < loops)) }
{
    if (k as usize) < loops {
        Ok(())
    } else {
        Err(CompileError::NoRoom)
    }
}

/// Fails if there are fewer places from the depth on.
fn needs_places(count: u32, depth: u32) -> Result<(), CompileError>
    requires { depth ≤ PLACES }
    ensures fits { IfOk result (λ _. depth + count ≤ PLACES) }
    ensures unfit { IfErr result (IsUnfit (depth + count ≤ PLACES)) }
{
    if count <= PLACES - depth {
        Ok(())
    } else {
        Err(CompileError::NoRoom)
    }
}

/// Fails if a term is no constant.
fn needs_constant(t: &Term) -> Result<(), CompileError>
    ensures fits { IfOk result (λ _. is_constant t.now ≡ true) }
    ensures unfit { IfErr result (IsUnfit (is_constant t.now ≡ true)) }
{
    if is_constant_of(t) {
        Ok(())
    } else {
        Err(CompileError::NoRoom)
    }
}

/// Returns the number of loops with one more around. No memory holds a rule with so many that they can't be counted.
pub fn one_more(loops: usize) -> Result<usize, CompileError>
    ensures more { IfOk result (λ n. n ≡ loops + 1) }
    ensures memory { IfErr result (λ e. e ≡ CompileError.Memory) }
{
    if loops == usize::MAX {
        return Err(CompileError::Memory);
    }
    Ok(loops + 1)
}

/// Fails if a term doesn't fit at a depth, in a number of loops and with `lets` lets in scope.
#[tactic(auto, using(crate::proofs::Shared::count_ok, crate::proofs::Shared::least_ok, crate::proofs::Shared::count_unfit, crate::proofs::Shared::least_unfit))]
#[cycle(fits)]
fn term_fits(
    t: &Term,
    sizes: Sizes,
    loops: usize,
    lets: u32,
    depth: u32,
) -> Result<(), CompileError>
    requires { depth ≤ PLACES }
    ensures fits { IfOk result (λ _. Fits t.now sizes loops lets depth) }
    ensures unfit { IfErr result (IsUnfit (Fits t.now sizes loops lets depth)) }
{
    match t {
        Term::Number(v) => {
            let _value = *v; // brings its range
            Ok(())
        }
        Term::Nodes | Term::Faults | Term::Modulus | Term::Me | Term::Coin => Ok(()),
        Term::LoopNode(k) => needs_loop(*k, loops),
        Term::Local(k) => needs_less(*k, lets),
        Term::Word(k) => needs_word(*k, sizes.memory),
        Term::Message(a) => term_fits(a, sizes, loops, lets, depth),
        Term::Binary(_, a, b) => {
            let found = beside_operand(a, b);
            needs_place(found, depth)?;
            term_fits(a, sizes, loops, lets, depth)?;
            term_fits(b, sizes, loops, lets, depth_behind_of(found, depth))
        }
        Term::Logical(_, a, b) => {
            term_fits(a, sizes, loops, lets, depth)?;
            term_fits(b, sizes, loops, lets, depth)
        }
        Term::Not(a) => term_fits(a, sizes, loops, lets, depth),
        Term::Choice(c, a, b) => {
            term_fits(c, sizes, loops, lets, depth)?;
            term_fits(a, sizes, loops, lets, depth)?;
            term_fits(b, sizes, loops, lets, depth)
        }
        Term::Count(c) => tally_fits(c, sizes, loops, lets, depth),
        Term::Least(c) => tally_fits(c, sizes, loops, lets, depth),
        Term::Sorted(k, e) => {
            needs_constant(k)?;
            term_fits(k, sizes, loops, lets, depth)?;
            needs_places(sizes.nodes, depth)?;
            let inner = one_more(loops)?;
            term_fits(e, sizes, inner, lets, depth + sizes.nodes)
        }
    }
}

/// Fails if the tests of a tally don't fit at a depth.
#[cycle(fits)]
fn tally_fits(
    c: &Term,
    sizes: Sizes,
    loops: usize,
    lets: u32,
    depth: u32,
) -> Result<(), CompileError>
    requires { depth ≤ PLACES }
    ensures fits { IfOk result (λ _. TallyFits c.now sizes loops lets depth) }
    ensures unfit { IfErr result (IsUnfit (TallyFits c.now sizes loops lets depth)) }
{
    needs_less(depth, PLACES)?;
    let inner = one_more(loops)?;
    match c {
        Term::Binary(operator, a, b) => {
            if is_shared_of(*operator, a, b, loops) {
                needs_less(depth + 1, PLACES)?;
                term_fits(b, sizes, inner, lets, depth + 1)?;
                term_fits(a, sizes, inner, lets, depth + 2)
            } else {
                let found = beside_operand(a, b);
                needs_place(found, depth + 1)?;
                term_fits(a, sizes, inner, lets, depth + 1)?;
                term_fits(b, sizes, inner, lets, depth_behind_of(found, depth + 1))
            }
        }
        _ => term_fits(c, sizes, inner, lets, depth + 1),
    }
}

fn target_fits(target: Target, memory: u32, lets: u32) -> Result<(), CompileError>
    ensures fits { IfOk result (λ _. TargetFits target memory lets) }
    ensures unfit { IfErr result (IsUnfit (TargetFits target memory lets)) }
{
    match target {
        Target::ToLocal(k) => needs_less(k, lets),
        Target::ToWord(k) => needs_word(k, memory),
    }
}

fn assignment_fits(
    a: &Assignment,
    sizes: Sizes,
    loops: usize,
    lets: u32,
    depth: u32,
) -> Result<(), CompileError>
    requires { depth ≤ PLACES }
    ensures fits { IfOk result (λ _. AssignmentFits a.now sizes loops lets depth) }
    ensures unfit { IfErr result (IsUnfit (AssignmentFits a.now sizes loops lets depth)) }
{
    match a {
        Assignment::One(target, e) => {
            target_fits(*target, sizes.memory, lets)?;
            term_fits(e, sizes, loops, lets, depth)
        }
        Assignment::Also(front, target, e) => {
            let steady = is_steady_of(e);
            target_fits(*target, sizes.memory, lets)?;
            term_fits(e, sizes, loops, lets, depth)?;
            needs_place(steady, depth)?;
            assignment_fits(front, sizes, loops, lets, depth_behind_of(steady, depth))
        }
    }
}

/// Fails if a statement doesn't fit in a number of loops, with `depth` lets in scope.
pub fn block_fits(
    statement: &Statement,
    sizes: Sizes,
    loops: usize,
    depth: u32,
) -> Result<(), CompileError>
    requires { depth ≤ PLACES }
    ensures fits { IfOk result (λ _. BlockFits statement.now sizes loops depth) }
    ensures unfit { IfErr result (IsUnfit (BlockFits statement.now sizes loops depth)) }
{
    match statement {
        Statement::Nothing => Ok(()),
        Statement::Then(a, b) => {
            block_fits(a, sizes, loops, depth)?;
            block_fits(b, sizes, loops, depth)
        }
        Statement::Let(e, rest) => {
            needs_less(depth, PLACES)?;
            term_fits(e, sizes, loops, depth, depth)?;
            block_fits(rest, sizes, loops, depth + 1)
        }
        Statement::Assign(a) => assignment_fits(a, sizes, loops, depth, depth),
        Statement::If(t, a, b) => {
            term_fits(t, sizes, loops, depth, depth)?;
            block_fits(a, sizes, loops, depth)?;
            block_fits(b, sizes, loops, depth)
        }
        Statement::For(body) => block_fits(body, sizes, one_more(loops)?, depth),
        Statement::SendAll(e) => {
            needs_place(is_operand_of(e), depth)?;
            term_fits(e, sizes, loops, depth, depth)
        }
        Statement::SendTo(e, k) => {
            let simple = is_constant_of(k) || is_operand_of(e);
            needs_place(simple, depth)?;
            term_fits(e, sizes, loops, depth, depth)?;
            term_fits(k, sizes, loops, depth, depth_behind_of(simple, depth))
        }
    }
}
