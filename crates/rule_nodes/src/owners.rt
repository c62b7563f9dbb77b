//! Which statement made each instruction of a rule's program.
ghost use Rattle.std.specs.Prelude.{◌≡◌, ◌≤◌, ◌+◌, ◌++◌, [], length, replicate, IfOk, IfErr};
ghost use Rattle.bpf_insn.specs.declared.listing.TheConstants.{MAX_SLOTS};
ghost use Rattle.rule_nodes.specs.Fits.{BlockFits};
ghost use Rattle.rule_nodes.specs.Code.{rule_code};
ghost use Rattle.rule_nodes.specs.Ends.{sizes_of};
ghost use Rattle.rule_nodes.specs.Owners.{statements_in, jump_slots, owners_of};
ghost use Rattle.rule_nodes.specs.Refusals.{RefusesRule};

use crate::compile::compile_rule;
use crate::errors::CompileError;
use crate::fits::one_more;
use crate::numbers::{PLACES, Purpose};
use crate::parts::within;
use crate::statements::{block, is_nothing_of, let_of};
use crate::terms::term;
use bpf_insn::Program;
use node_env::Shape;
use rule_syntax::{Sizes, Statement};
use std::alloc::{AllocError, Global};

/// Returns a sum. No memory holds a rule with so many statements that they can't be counted.
fn sum_of(a: usize, b: usize) -> Result<usize, CompileError>
    ensures sum { IfOk result (λ n. n ≡ a + b) }
    ensures memory { IfErr result (λ e. e ≡ CompileError.Memory) }
{
    a.checked_add(b).ok_or(CompileError::Memory)
}

/// Returns how many statements there are.
fn statements_of(statement: &Statement) -> Result<usize, CompileError>
    ensures count { IfOk result (λ n. n ≡ statements_in statement.now) }
    ensures memory { IfErr result (λ e. e ≡ CompileError.Memory) }
{
    match statement {
        Statement::Nothing => Ok(0),
        Statement::Then(a, b) => sum_of(statements_of(a)?, statements_of(b)?),
        Statement::Let(_, rest) => one_more(statements_of(rest)?),
        Statement::Assign(_) => Ok(1),
        Statement::If(_, a, b) => one_more(sum_of(statements_of(a)?, statements_of(b)?)?),
        Statement::For(body) => one_more(statements_of(body)?),
        Statement::SendAll(_) => Ok(1),
        Statement::SendTo(_, _) => Ok(1),
    }
}

fn repeated(alloc: Global, number: usize, slots: usize) -> Result<Vec<usize>, AllocError>
    ensures { IfOk result (λ v. v.items ≡ replicate slots number) }
{
    vec![in alloc; number; slots]
}

fn followed(mut first: Vec<usize>, second: &[usize]) -> Result<Vec<usize>, AllocError>
    ensures { IfOk result (λ v. v.items ≡ first.items ++ second.now) }
{
    first.extend_from_slice(second)?;
    Ok(first)
}

fn jump_of(second: &Statement) -> usize
    ensures { result ≡ jump_slots second.now }
{
    if is_nothing_of(second) { 0 } else { 1 }
}

/// Returns for each instruction of a block the number of its statement, where the first statement has `number`.
fn owners(
    alloc: Global,
    statement: &Statement,
    sizes: Sizes,
    loops: &[u32],
    depth: u32,
    number: usize,
) -> Result<Vec<usize>, CompileError>
    requires some { 1 ≤ sizes.nodes }
    requires few { sizes.nodes ≤ 64 }
    requires memory { sizes.memory ≤ 256 }
    requires deep { depth ≤ PLACES }
    requires fits { BlockFits statement.now sizes (length loops.now) depth }
    ensures { IfOk result (λ v. v.items ≡ owners_of statement.now sizes loops.now depth number) }
{
    match statement {
        Statement::Nothing => Ok(Vec::new(alloc)),
        Statement::Then(a, b) => {
            let next = sum_of(number, statements_of(a)?)?;
            let first = owners(alloc, a, sizes, loops, depth, number)?;
            let second = owners(alloc, b, sizes, loops, depth, next)?;
            Ok(followed(first, &second)?)
        }
        Statement::Let(e, rest) => {
            let behind = owners(alloc, rest, sizes, loops, depth + 1, one_more(number)?)?;
            let value = term(alloc, e, sizes, loops, depth, depth, Purpose::Value)?;
            let own = let_of(alloc, e, sizes, loops, value, depth, &[])?;
            Ok(followed(repeated(alloc, number, own.len())?, &behind)?)
        }
        Statement::If(_, a, b) => {
            let next = one_more(number)?;
            let behind = sum_of(next, statements_of(a)?)?;
            let all = block(alloc, statement, sizes, loops, depth)?;
            let first = block(alloc, a, sizes, loops, depth)?;
            let second = block(alloc, b, sizes, loops, depth)?;
            let jump = jump_of(b);
            let test = all.len().saturating_sub(first.len() + jump + second.len());
            let before = owners(alloc, a, sizes, loops, depth, next)?;
            let after = owners(alloc, b, sizes, loops, depth, behind)?;
            let rest = followed(repeated(alloc, number, jump)?, &after)?;
            let blocks = followed(before, &rest)?;
            Ok(followed(repeated(alloc, number, test)?, &blocks)?)
        }
        Statement::For(body) => {
            let next = one_more(number)?;
            let mut all = Vec::new(alloc);
            for node in 0..sizes.nodes {
                let inner = within(alloc, loops, node)?;
                let one = owners(alloc, body, sizes, &inner, depth, next)?;
                all = followed(all, &one)?;
            }
            Ok(all)
        }
        Statement::Assign(_) | Statement::SendAll(_) | Statement::SendTo(_, _) => {
            let code = block(alloc, statement, sizes, loops, depth)?;
            Ok(repeated(alloc, number, code.len())?)
        }
    }
}

/// The program of a rule, and which statement made each of its instructions.
#[derive(Drop)]
pub struct ProgramWithOwners {
    pub program: Program,
    /// The number of a statement for each instruction, in the order of the text from 0 on. The first instruction and the
    /// last two are of no statement, and left out: entry k is for slot k + 1.
    pub owners: Vec<usize>,
}

/// Compiles a rule as `compile_rule` does, and returns with its program the statement of each instruction. Fails as
/// `compile_rule` does.
#[tactic(auto, using(crate::proofs::OwnerLengths::rule_owners_long))]
pub fn compile_with_owners(
    alloc: Global,
    rule: &Statement,
    shape: Shape,
    faults: u32,
    modulus: u32,
) -> Result<ProgramWithOwners, CompileError>
    ensures fits { IfOk result (λ _. BlockFits rule.now (sizes_of shape faults modulus) 0 0) }
    ensures code { IfOk result (λ made. made.program ≡ rule_code rule.now (sizes_of shape faults modulus)) }
    ensures short { IfOk result (λ made. length made.program ≤ MAX_SLOTS) }
    ensures owners { IfOk result (λ made. made.owners.items
        ≡ owners_of rule.now (sizes_of shape faults modulus) [] 0 0) }
    ensures whole { IfOk result (λ made. length made.owners.items + 3 ≡ length made.program) }
    ensures refusal { IfErr result (RefusesRule rule.now (sizes_of shape faults modulus)) }
{
    let program = compile_rule(alloc, rule, shape, faults, modulus)?;
    let sizes = Sizes {
        nodes: shape.nodes(),
        faults,
        modulus,
        memory: shape.memory(),
    };
    match owners(alloc, rule, sizes, &[], 0, 0) {
        Ok(owners) => Ok(ProgramWithOwners { program, owners }),
        Err(_) => Err(CompileError::Memory),
    }
}
