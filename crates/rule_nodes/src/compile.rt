//! From a rule to the program of a node.
ghost use Rattle.std.specs.Prelude.{◌≡◌, ◌≤◌, length, IfOk, IfErr};
ghost use Rattle.bpf_verify.specs.Typable.{Typable};
ghost use Rattle.clock_nodes.specs.Ends.{HasRuns, EndsBy};
ghost use Rattle.rule_nodes.specs.Fits.{BlockFits};
ghost use Rattle.rule_nodes.specs.Code.{rule_code};
ghost use Rattle.rule_nodes.specs.Ends.{sizes_of, IsRuleEnd};
ghost use Rattle.rule_nodes.specs.Refusals.{RefusesRule, IsUnmade};

use crate::errors::CompileError;
use crate::fits::block_fits;
use crate::parts::{joined, short, single};
use crate::statements::block;
use bpf_insn::{AluOp, Insn, MAX_SLOTS, Operand, Program, ProgramError, Reg, Width, program_of};
use node_env::Shape;
use rule_syntax::{Sizes, Statement};
use std::alloc::Global;

fn whole(alloc: Global, rule: &Statement, sizes: Sizes) -> Result<Vec<Insn>, CompileError>
    requires some { 1 ≤ sizes.nodes }
    requires few { sizes.nodes ≤ 64 }
    requires memory { sizes.memory ≤ 256 }
    requires fits { BlockFits rule.now sizes 0 0 }
    ensures code { IfOk result (λ c. c.items ≡ rule_code rule.now sizes) }
    ensures short { IfOk result (λ c. length c.items ≤ MAX_SLOTS) }
    ensures long { IfErr result (IsUnmade (length (rule_code rule.now sizes))) }
{
    let body = block(alloc, rule, sizes, &[], 0)?;
    let start = Insn::Alu {
        op: AluOp::Mov,
        width: Width::W64,
        dst: Reg::R6,
        src: Operand::Reg(Reg::R1),
    };
    let end = Insn::Alu {
        op: AluOp::Mov,
        width: Width::W64,
        dst: Reg::R0,
        src: Operand::Imm(0),
    };
    let begun = joined(single(alloc, start)?, &body)?;
    short(joined(begun, &[end, Insn::Exit])?)
}

/// Compiles a rule for the nodes and the memory of a shape. Fails with `NoRoom` if the rule doesn't fit; with `TooLong`
/// if it fits and its code is longer than `MAX_SLOTS`; with `Memory` if memory is short. Every complete run of the
/// program leaves the memory and sends the messages that the rule means, and `verify` of `bpf_verify` rejects no such
/// program.
pub fn compile_rule(
    alloc: Global,
    rule: &Statement,
    shape: Shape,
    faults: u32,
    modulus: u32,
) -> Result<Program, CompileError>
    ensures fits { IfOk result (λ _. BlockFits rule.now (sizes_of shape faults modulus) 0 0) }
    ensures code { IfOk result (λ p. p ≡ rule_code rule.now (sizes_of shape faults modulus)) }
    ensures short { IfOk result (λ p. length p ≤ MAX_SLOTS) }
    ensures refusal { IfErr result (RefusesRule rule.now (sizes_of shape faults modulus)) }
    ensures runs { IfOk result (λ p. HasRuns p shape) }
    ensures ends { IfOk result (λ p. EndsBy p shape (IsRuleEnd (sizes_of shape faults modulus) rule.now)) }
    ensures typable { IfOk result (λ p. Typable p shape) }
{
    let sizes = Sizes {
        nodes: shape.nodes(),
        faults,
        modulus,
        memory: shape.memory(),
    };
    block_fits(rule, sizes, 0, 0)?;
    let insns = whole(alloc, rule, sizes)?;
    match program_of(alloc, insns) {
        Ok(program) => Ok(program),
        Err((_, ProgramError::Memory)) => Err(CompileError::Memory),
        Err((_, ProgramError::Empty)) => unreachable!(),
        Err((_, ProgramError::TooLong)) => unreachable!(),
    }
}
