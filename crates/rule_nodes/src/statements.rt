//! The code of statements.
ghost use Rattle.std.specs.Prelude.{◌≡◌, ◌≤◌, ◌<◌, ◌+◌, ◌-◌, ◌++◌, [], ◌∷◌, pos, length, take, IfOk, IfErr};
ghost use Rattle.rule_nodes.specs.declared.numbers.Purpose.TheVariants.{Value};
ghost use Rattle.bpf_insn.specs.declared.forms.Reg.TheVariants.{R1};
ghost use Rattle.bpf_insn.specs.declared.forms.Insn.TheVariants as i;
ghost use Rattle.rule_syntax.specs.declared.syntax.Statement.TheVariants.{SendAll, SendTo};
ghost use Rattle.rule_nodes.specs.Operands.{term_source, IsSourceWithin};
ghost use Rattle.rule_nodes.specs.Fits.{Fits, BlockFits};
ghost use Rattle.rule_nodes.specs.Code.{set_node, term_code, stored_code, let_code, send_codes, send_all_code, passed_code, send_to_constant_code, receiver_code, send_to_code, is_nothing, block_code};
ghost use Rattle.rule_nodes.specs.Refusals.{IsUnmade};

use crate::assignments::{assignment, placed_of};
use crate::errors::CompileError;
use crate::insns::{copy_of, jump_at_of, place_of, set_node_of, set_number_of};
use crate::numbers::{PLACES, Purpose, Source};
use crate::operands::{
    constant_of, depth_behind_of, get_of, is_constant_of, is_operand_of, source,
};
use crate::parts::{if_of, if_test, joined, kept_then, short, single, within};
use crate::terms::term;
use bpf_insn::{Insn, MAX_SLOTS, Reg};
use rule_syntax::{Comparison, Sizes, Statement, Term};
use std::alloc::{AllocError, Global};

/// Returns the code that sends a found number to a node.
fn send_of(node: u32, get: Insn) -> [Insn; 3]
    requires { node < 64 }
    ensures { result ≡ set_node R1 node ∷ get ∷ i.Call (pos 3) ∷ [] }
{
    [set_node_of(node), get, Insn::Call { id: 3 }]
}

/// Returns the code that sends a found number to each node.
fn sends_of(alloc: Global, source: Source, nodes: u32) -> Result<Vec<Insn>, AllocError>
    requires few { nodes ≤ 64 }
    requires within { IsSourceWithin source 256 }
    ensures { IfOk result (λ c. c.items ≡ send_codes source nodes) }
{
    let mut sends = Vec::new(alloc);
    for node in 0..nodes {
        let get = get_of(Reg::R2, source);
        sends = joined(sends, &send_of(node, get))?;
    }
    Ok(sends)
}

/// Returns the code that sends a found number to the node in r0.
fn receiver_of(source: Source, nodes: u32) -> [Insn; 4]
    requires few { nodes ≤ 64 }
    requires within { IsSourceWithin source 256 }
    ensures { result ≡ receiver_code source nodes }
{
    [
        jump_at_of(Comparison::AtLeast, nodes, 3),
        copy_of(Reg::R1, Reg::R0),
        get_of(Reg::R2, source),
        Insn::Call { id: 3 },
    ]
}

/// Returns the code that puts a number, found or computed by the code, into a place, and what follows.
fn stored_from(
    alloc: Global,
    source: Source,
    depth: u32,
    code: Vec<Insn>,
    rest: &[Insn],
) -> Result<Vec<Insn>, AllocError>
    requires { IsSourceWithin source 256 }
    ensures { IfOk result (λ c. c.items ≡ stored_code source depth code.items rest.now) }
{
    match source {
        Source::Computed => kept_then(code, depth, rest),
        Source::Constant(_) => joined(placed_of(alloc, place_of(depth), source)?, rest),
        Source::FromLocal(_) => joined(placed_of(alloc, place_of(depth), source)?, rest),
        Source::FromWord(_) => joined(placed_of(alloc, place_of(depth), source)?, rest),
    }
}

/// Returns the code without its last instruction.
fn without_last(mut code: Vec<Insn>) -> Vec<Insn>
    requires { 1 ≤ length code.items }
    ensures { result.items ≡ take (length code.items - 1) code.items }
{
    code.truncate(code.len() - 1);
    code
}

/// Returns the code of a let and of what follows. A count and a least message stay where they were made.
pub fn let_of(
    alloc: Global,
    e: &Term,
    sizes: Sizes,
    loops: &[u32],
    code: Vec<Insn>,
    depth: u32,
    rest: &[Insn],
) -> Result<Vec<Insn>, AllocError>
    requires code { code.items ≡ term_code e.now sizes loops.now depth Value }
    requires within { IsSourceWithin (term_source e.now sizes loops.now) 256 }
    ensures { IfOk result (λ c. c.items ≡ let_code e.now sizes loops.now depth rest.now) }
{
    match e {
        Term::Count(_) => joined(without_last(code), rest),
        Term::Least(_) => joined(without_last(code), rest),
        _ => stored_from(alloc, source(e, sizes, loops), depth, code, rest),
    }
}

fn send_all(
    alloc: Global,
    e: &Term,
    sizes: Sizes,
    loops: &[u32],
    depth: u32,
) -> Result<Vec<Insn>, CompileError>
    requires some { 1 ≤ sizes.nodes }
    requires few { sizes.nodes ≤ 64 }
    requires memory { sizes.memory ≤ 256 }
    requires deep { depth ≤ PLACES }
    requires fits { BlockFits (SendAll e.now) sizes (length loops.now) depth }
    ensures code { IfOk result (λ c. c.items ≡ block_code (SendAll e.now) sizes loops.now depth) }
    ensures short { IfOk result (λ c. length c.items ≤ MAX_SLOTS) }
    ensures long { IfErr result (IsUnmade (length (block_code (SendAll e.now) sizes loops.now depth) + 1)) }
{
    let value = term(alloc, e, sizes, loops, depth, depth, Purpose::Value)?;
    short(send_all_of(alloc, source(e, sizes, loops), depth, sizes.nodes, value)?)
}

/// Returns the code that sends each node a number that is found, or that the code computes.
fn send_all_of(
    alloc: Global,
    source: Source,
    depth: u32,
    nodes: u32,
    code: Vec<Insn>,
) -> Result<Vec<Insn>, AllocError>
    requires few { nodes ≤ 64 }
    requires within { IsSourceWithin source 256 }
    ensures { IfOk result (λ c. c.items ≡ send_all_code source depth nodes code.items) }
{
    match source {
        Source::Computed => {
            let sends = sends_of(alloc, Source::FromLocal(depth), nodes)?;
            kept_then(code, depth, &sends)
        }
        Source::Constant(_) => sends_of(alloc, source, nodes),
        Source::FromLocal(_) => sends_of(alloc, source, nodes),
        Source::FromWord(_) => sends_of(alloc, source, nodes),
    }
}

/// Returns the code that sends a node a number, found or computed by the code.
fn passed(
    alloc: Global,
    source: Source,
    node: u32,
    code: Vec<Insn>,
) -> Result<Vec<Insn>, AllocError>
    requires node { node < 64 }
    requires within { IsSourceWithin source 256 }
    ensures { IfOk result (λ c. c.items ≡ passed_code source node code.items) }
{
    let send = send_of(node, get_of(Reg::R2, source));
    match source {
        Source::Computed => joined(code, &send),
        Source::Constant(_) => joined(Vec::new(alloc), &send),
        Source::FromLocal(_) => joined(Vec::new(alloc), &send),
        Source::FromWord(_) => joined(Vec::new(alloc), &send),
    }
}

/// Returns the code that sends a number to the node of a constant. It has no effect if there is no such node.
fn send_to_constant(
    alloc: Global,
    e: &Term,
    node: u32,
    sizes: Sizes,
    loops: &[u32],
    depth: u32,
) -> Result<Vec<Insn>, CompileError>
    requires some { 1 ≤ sizes.nodes }
    requires few { sizes.nodes ≤ 64 }
    requires memory { sizes.memory ≤ 256 }
    requires deep { depth ≤ PLACES }
    requires fits { Fits e.now sizes (length loops.now) depth depth }
    ensures code { IfOk result (λ c. c.items ≡ send_to_constant_code
        (term_source e.now sizes loops.now) node sizes.nodes
        (term_code e.now sizes loops.now depth Value)) }
    ensures short { IfOk result (λ c. length c.items ≤ MAX_SLOTS) }
    ensures long { IfErr result (IsUnmade (length (send_to_constant_code
        (term_source e.now sizes loops.now) node sizes.nodes
        (term_code e.now sizes loops.now depth Value)) + 1)) }
{
    if node >= sizes.nodes {
        return Ok(single(alloc, set_number_of(Reg::R0, 0))?);
    }
    let value = term(alloc, e, sizes, loops, depth, depth, Purpose::Value)?;
    short(passed(alloc, source(e, sizes, loops), node, value)?)
}

/// Returns the code that sends a number, found or computed by the code, to the node that the receiver's code computes.
fn send_to_of(
    source: Source,
    depth: u32,
    nodes: u32,
    code: Vec<Insn>,
    receiver: Vec<Insn>,
) -> Result<Vec<Insn>, AllocError>
    requires few { nodes ≤ 64 }
    requires within { IsSourceWithin source 256 }
    ensures { IfOk result (λ c. c.items ≡ send_to_code source depth nodes code.items receiver.items) }
{
    match source {
        Source::Computed => {
            let send = joined(receiver, &receiver_of(Source::FromLocal(depth), nodes))?;
            kept_then(code, depth, &send)
        }
        Source::Constant(_) => joined(receiver, &receiver_of(source, nodes)),
        Source::FromLocal(_) => joined(receiver, &receiver_of(source, nodes)),
        Source::FromWord(_) => joined(receiver, &receiver_of(source, nodes)),
    }
}

fn send_to(
    alloc: Global,
    e: &Term,
    k: &Term,
    sizes: Sizes,
    loops: &[u32],
    depth: u32,
) -> Result<Vec<Insn>, CompileError>
    requires some { 1 ≤ sizes.nodes }
    requires few { sizes.nodes ≤ 64 }
    requires memory { sizes.memory ≤ 256 }
    requires deep { depth ≤ PLACES }
    requires fits { BlockFits (SendTo e.now k.now) sizes (length loops.now) depth }
    ensures code { IfOk result (λ c. c.items ≡ block_code (SendTo e.now k.now) sizes loops.now depth) }
    ensures short { IfOk result (λ c. length c.items ≤ MAX_SLOTS) }
    ensures long { IfErr result (IsUnmade (length (block_code (SendTo e.now k.now) sizes loops.now depth) + 1)) }
{
    if is_constant_of(k) {
        return send_to_constant(alloc, e, constant_of(k, sizes, loops), sizes, loops, depth);
    }
    let deep = depth_behind_of(is_operand_of(e), depth);
    let receiver = term(alloc, k, sizes, loops, depth, deep, Purpose::Value)?;
    let value = term(alloc, e, sizes, loops, depth, depth, Purpose::Value)?;
    let found = source(e, sizes, loops);
    short(send_to_of(found, depth, sizes.nodes, value, receiver)?)
}

/// Returns whether a statement does nothing.
pub fn is_nothing_of(statement: &Statement) -> bool
    ensures { result ≡ is_nothing statement.now }
{
    match statement {
        Statement::Nothing => true,
        _ => false,
    }
}

/// Returns the code of a statement, with `depth` lets in scope. Fails if it is longer than a program.
pub fn block(
    alloc: Global,
    statement: &Statement,
    sizes: Sizes,
    loops: &[u32],
    depth: u32,
) -> Result<Vec<Insn>, CompileError>
    requires some { 1 ≤ sizes.nodes }
    requires few { sizes.nodes ≤ 64 }
    requires memory { sizes.memory ≤ 256 }
    requires deep { depth ≤ PLACES }
    requires fits { BlockFits statement.now sizes (length loops.now) depth }
    ensures code { IfOk result (λ c. c.items ≡ block_code statement.now sizes loops.now depth) }
    ensures short { IfOk result (λ c. length c.items ≤ MAX_SLOTS) }
    ensures long { IfErr result (IsUnmade (length (block_code statement.now sizes loops.now depth) + 1)) }
{
    match statement {
        Statement::Nothing => Ok(Vec::new(alloc)),
        Statement::Then(a, b) => {
            let second = block(alloc, b, sizes, loops, depth)?;
            let first = block(alloc, a, sizes, loops, depth)?;
            short(joined(first, &second)?)
        }
        Statement::Let(e, rest) => {
            let behind = block(alloc, rest, sizes, loops, depth + 1)?;
            let value = term(alloc, e, sizes, loops, depth, depth, Purpose::Value)?;
            short(let_of(alloc, e, sizes, loops, value, depth, &behind)?)
        }
        Statement::Assign(a) => assignment(alloc, a, sizes, loops, depth, depth),
        Statement::If(t, a, b) => {
            let second = block(alloc, b, sizes, loops, depth)?;
            let first = block(alloc, a, sizes, loops, depth)?;
            let alone = is_nothing_of(b);
            let test = term(alloc, t, sizes, loops, depth, depth, if_test(alone, &first))?;
            short(if_of(alone, test, &first, &second)?)
        }
        Statement::For(body) => {
            let mut all = Vec::new(alloc);
            for node in 0..sizes.nodes {
                let inner = within(alloc, loops, node)?;
                let one = block(alloc, body, sizes, &inner, depth)?;
                all = short(joined(all, &one)?)?;
            }
            Ok(all)
        }
        Statement::SendAll(e) => send_all(alloc, e, sizes, loops, depth),
        Statement::SendTo(e, k) => send_to(alloc, e, k, sizes, loops, depth),
    }
}
