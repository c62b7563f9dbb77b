//! The clock program.
ghost use Rattle.std.specs.Prelude.{◌≡◌, ◌≤◌, ◌<◌, ◌++◌, IfOk, OnOk};
ghost use Rattle.node_env.specs.declared.shape.TheConstants.{MAX_NODES};
ghost use Rattle.clock_nodes.specs.declared.rule.TheConstants.{MAX_MODULUS};
ghost use Rattle.clock_nodes.specs.Listings.{head, count_block, count_blocks, choice, store_listing, send_block, send_blocks};
ghost use Rattle.clock_nodes.specs.Listings.{listing, clock_listing};
ghost use Rattle.clock_nodes.specs.Ends.{HasRuns, EndsBy, IsClockEnd};

use crate::insns as i;
use crate::insns::{COIN, RECV, SEND, alu, branch, copy, load, mov, program, tail};
use crate::rule::ClockRule;
use bpf_insn::{AluOp, Cond, Insn, Operand, Program, Reg};
use node_env::Shape;
use std::alloc::{AllocError, Global};

/// Where the memory has the clock and the mark.
const CLOCK: i16 = 0;

const MARK: i16 = 4;

/// The clock into r7, or 0 if it is the modulus or more; nothing is counted in r8 yet.
fn head(modulus: u32) -> [Insn; 5]
    requires { modulus ≤ MAX_MODULUS }
    ensures { result ≡ head modulus }
{
    let limit = Operand::Imm(modulus as i32);
    [
        copy(Reg::R6, Reg::R1),
        load(Reg::R7, Reg::R6, CLOCK),
        branch(Cond::Lt, Reg::R7, limit, 1),
        mov(Reg::R7, 0),
        mov(Reg::R8, 0),
    ]
}

/// One more in r8 if the node sent the clock.
fn count_block(sender: u32) -> [Insn; 4]
    requires { sender < MAX_NODES }
    ensures { result ≡ count_block sender }
{
    [
        mov(Reg::R1, sender as i32),
        Insn::Call { id: RECV },
        branch(Cond::Ne, Reg::R0, Operand::Reg(Reg::R7), 1),
        alu(AluOp::Add, Reg::R8, Operand::Imm(1)),
    ]
}

/// The new clock into r7 and the new mark into r9.
fn choice(quorum: u32, modulus: u32) -> [Insn; 18]
    requires quorum { quorum ≤ MAX_NODES }
    requires modulus { modulus ≤ MAX_MODULUS }
    ensures { result ≡ choice quorum modulus }
{
    let enough = Operand::Imm(quorum as i32);
    let top = Operand::Imm(modulus as i32);
    let zero = Operand::Imm(0);
    let marked = mov(Reg::R9, 1);
    [
        branch(Cond::Ge, Reg::R8, enough, 3),
        mov(Reg::R7, 0),
        mov(Reg::R9, 0),
        Insn::Ja { off: 14 },
        branch(Cond::Ne, Reg::R7, zero, 9),
        load(Reg::R9, Reg::R6, MARK),
        branch(Cond::Ne, Reg::R9, zero, 4),
        Insn::Call { id: COIN },
        copy(Reg::R7, Reg::R0),
        copy(Reg::R9, Reg::R0),
        Insn::Ja { off: 7 },
        mov(Reg::R7, 1),
        marked,
        Insn::Ja { off: 4 },
        alu(AluOp::Add, Reg::R7, Operand::Imm(1)),
        marked,
        branch(Cond::Lt, Reg::R7, top, 1),
        mov(Reg::R7, 0),
    ]
}

/// Both into the memory.
fn store() -> [Insn; 2]
    ensures { result ≡ store_listing }
{
    [
        i::store(Reg::R6, CLOCK, Reg::R7),
        i::store(Reg::R6, MARK, Reg::R9),
    ]
}

/// The clock to the node.
fn send_block(receiver: u32) -> [Insn; 3]
    requires { receiver < MAX_NODES }
    ensures { result ≡ send_block receiver }
{
    [
        mov(Reg::R1, receiver as i32),
        copy(Reg::R2, Reg::R7),
        Insn::Call { id: SEND },
    ]
}

fn add_count_blocks(insns: &mut Vec<Insn>, nodes: u32) -> Result<(), AllocError>
    requires { nodes ≤ MAX_NODES }
    ensures { OnOk result (insns.new.items ≡ insns.old.items ++ count_blocks nodes 0) }
{
    for sender in 0..nodes {
        insns.extend_from_slice(&count_block(sender))?;
    }
    Ok(())
}

fn add_send_blocks(insns: &mut Vec<Insn>, nodes: u32) -> Result<(), AllocError>
    requires { nodes ≤ MAX_NODES }
    ensures { OnOk result (insns.new.items ≡ insns.old.items ++ send_blocks nodes 0) }
{
    for receiver in 0..nodes {
        insns.extend_from_slice(&send_block(receiver))?;
    }
    Ok(())
}

fn clock_insns(
    alloc: Global,
    nodes: u32,
    quorum: u32,
    modulus: u32,
) -> Result<Vec<Insn>, AllocError>
    requires nodes { nodes ≤ MAX_NODES }
    requires quorum { quorum ≤ MAX_NODES }
    requires modulus { modulus ≤ MAX_MODULUS }
    ensures { IfOk result (λ insns. insns.items ≡ listing nodes quorum modulus) }
{
    let mut insns = Vec::new(alloc);
    insns.extend_from_slice(&head(modulus))?;
    add_count_blocks(&mut insns, nodes)?;
    insns.extend_from_slice(&choice(quorum, modulus))?;
    insns.extend_from_slice(&store())?;
    add_send_blocks(&mut insns, nodes)?;
    insns.extend_from_slice(&tail())?;
    Ok(insns)
}

/// Returns the clock of a rule, for the nodes of a shape: docs/CLOCK.md has its listing. It is named for the authors of
/// the digital clock that the rule is written after.
pub fn dolev_welch(alloc: Global, shape: Shape, rule: ClockRule) -> Result<Program, AllocError>
    requires nodes { rule.nodes ≡ shape.nodes }
    ensures listing { IfOk result (λ p. p ≡ clock_listing rule) }
    ensures runs { IfOk result (λ p. HasRuns p shape) }
    ensures ends { IfOk result (λ p. EndsBy p shape (IsClockEnd rule.faults rule.modulus)) }
{
    let insns = clock_insns(alloc, shape.nodes(), rule.quorum(), rule.modulus())?;
    program(alloc, insns)
}
