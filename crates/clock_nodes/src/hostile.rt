//! Programs that don't keep to the rule.
ghost use Rattle.std.specs.Prelude.{◌≡◌, ◌≤◌, ◌<◌, ◌++◌, ℕ, List, IfOk, OnOk, All, length};
ghost use Rattle.node_env.specs.declared.shape.TheConstants.{MAX_NODES};
ghost use Rattle.node_env.specs.Slots.{IsSlot};
ghost use Rattle.clock_nodes.specs.Listings.{say_block, say_blocks, say_listing, echo_block, echo_blocks, echo_listing};
ghost use Rattle.clock_nodes.specs.Ends.{HasRuns, EndsBy, IsSayEnd, IsEchoEnd};

use crate::insns::{RECV, SEND, copy, mov, program, tail};
use bpf_insn::{AluOp, Insn, Operand, Program, Reg, Width};
use node_env::Shape;
use std::alloc::{AllocError, Global};

/// Contracts see a value as any number; this says that it has 32 bits.
fn value_fits(value: Option<u32>)
    ensures { IsSlot value }
{}

/// Says the same of each.
fn values_fit(values: &[Option<u32>])
    ensures { All IsSlot values.now }
{
    for value in values {
        value_fits(*value);
    }
}

/// The value to the node.
fn say_block(receiver: u32, value: u32) -> [Insn; 3]
    requires { receiver < MAX_NODES }
    ensures { result ≡ say_block receiver value }
{
    let said = Insn::Alu {
        op: AluOp::Mov,
        width: Width::W32,
        dst: Reg::R2,
        src: Operand::Imm(value.cast_signed()),
    };
    [mov(Reg::R1, receiver as i32), said, Insn::Call { id: SEND }]
}

fn add_say_blocks(
    insns: &mut Vec<Insn>,
    nodes: u32,
    values: &[Option<u32>],
) -> Result<(), AllocError>
    requires nodes { nodes ≤ MAX_NODES }
    requires values { length values.now ≡ nodes }
    ensures { OnOk result (insns.new.items ≡ insns.old.items ++ say_blocks 0 values.now) }
{
    for receiver in 0..nodes {
        if let Some(value) = values[receiver as usize] {
            insns.extend_from_slice(&say_block(receiver, value))?;
        }
    }
    Ok(())
}

fn say_insns(alloc: Global, nodes: u32, values: &[Option<u32>]) -> Result<Vec<Insn>, AllocError>
    requires nodes { nodes ≤ MAX_NODES }
    requires values { length values.now ≡ nodes }
    ensures { IfOk result (λ insns. insns.items ≡ say_listing values.now) }
{
    let mut insns = Vec::new(alloc);
    add_say_blocks(&mut insns, nodes, values)?;
    insns.extend_from_slice(&tail())?;
    Ok(insns)
}

/// Returns a program that sends each node its value, if there is one, whatever messages, coin and memory say. It keeps
/// the memory.
pub fn say(alloc: Global, shape: Shape, values: &[Option<u32>]) -> Result<Program, AllocError>
    requires values { length values.now ≡ shape.nodes }
    ensures listing { IfOk result (λ p. p ≡ say_listing values.now) }
    ensures runs { IfOk result (λ p. HasRuns p shape) }
    ensures ends { IfOk result (λ p. EndsBy p shape (IsSayEnd values.now)) }
{
    values_fit(values);
    let insns = say_insns(alloc, shape.nodes(), values)?;
    program(alloc, insns)
}

/// The node's mail back to it.
fn echo_block(node: u32) -> [Insn; 5]
    requires { node < MAX_NODES }
    ensures { result ≡ echo_block node }
{
    let from = mov(Reg::R1, node as i32);
    let to = mov(Reg::R1, node as i32);
    [
        from,
        Insn::Call { id: RECV },
        copy(Reg::R2, Reg::R0),
        to,
        Insn::Call { id: SEND },
    ]
}

fn add_echo_blocks(insns: &mut Vec<Insn>, nodes: u32) -> Result<(), AllocError>
    requires { nodes ≤ MAX_NODES }
    ensures { OnOk result (insns.new.items ≡ insns.old.items ++ echo_blocks nodes 0) }
{
    for node in 0..nodes {
        insns.extend_from_slice(&echo_block(node))?;
    }
    Ok(())
}

fn echo_insns(alloc: Global, nodes: u32) -> Result<Vec<Insn>, AllocError>
    requires { nodes ≤ MAX_NODES }
    ensures { IfOk result (λ insns. insns.items ≡ echo_listing nodes) }
{
    let mut insns = Vec::new(alloc);
    add_echo_blocks(&mut insns, nodes)?;
    insns.extend_from_slice(&tail())?;
    Ok(insns)
}

/// Returns a program that sends each node what came from it, and 4294967295 if nothing came. It keeps the memory.
pub fn echo(alloc: Global, shape: Shape) -> Result<Program, AllocError>
    ensures listing { IfOk result (λ p. p ≡ echo_listing shape.nodes) }
    ensures runs { IfOk result (λ p. HasRuns p shape) }
    ensures ends { IfOk result (λ p. EndsBy p shape IsEchoEnd) }
{
    let insns = echo_insns(alloc, shape.nodes())?;
    program(alloc, insns)
}
