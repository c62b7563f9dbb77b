//! How the code of a term or a statement is put together of the code of its parts.
ghost use Rattle.std.specs.Prelude.{◌≡◌, ◌≤◌, ◌+◌, ◌++◌, [], ◌∷◌, pos, not, false, length, if◌then◌else◌, IfOk, IfErr};
ghost use Rattle.bpf_insn.specs.declared.forms.Reg.TheVariants.{R0};
ghost use Rattle.bpf_insn.specs.declared.forms.Insn.TheVariants as i;
ghost use Rattle.rule_nodes.specs.declared.numbers.Purpose.TheVariants.{Jump};
ghost use Rattle.rule_nodes.specs.declared.numbers.Source.TheVariants.{Constant};
ghost use Rattle.rule_nodes.specs.Code.{when_of, far_of, beyond_purpose, number_place, keep_code, behind_test, by_value, message_code, message_by, decides, both_far};
ghost use Rattle.rule_nodes.specs.Refusals.{IsUnmade};

use crate::errors::CompileError;
use crate::insns::{
    copy_of, jump_at_of, jump_on_of, keep_of, place_of, set_node_of, set_number_of, skip_of,
};
use crate::numbers::{Purpose, Source};
use bpf_insn::{Insn, MAX_SLOTS, Reg};
use node_env::NO_MAIL;
use rule_syntax::{Comparison, Connective};
use std::alloc::{AllocError, Global};

/// Appends the second code to the first.
pub fn joined(mut first: Vec<Insn>, second: &[Insn]) -> Result<Vec<Insn>, AllocError>
    ensures { IfOk result (λ c. c.items ≡ first.items ++ second.now) }
{
    first.extend_from_slice(second)?;
    Ok(first)
}

/// Returns a list of one instruction.
pub fn single(alloc: Global, insn: Insn) -> Result<Vec<Insn>, AllocError>
    ensures { IfOk result (λ c. c.items ≡ insn ∷ []) }
{
    joined(Vec::new(alloc), &[insn])
}

/// Returns the code if a program can be so long.
pub fn short(code: Vec<Insn>) -> Result<Vec<Insn>, CompileError>
    ensures code { IfOk result (λ c. c.items ≡ code.items) }
    ensures short { IfOk result (λ c. length c.items ≤ MAX_SLOTS) }
    ensures long { IfErr result (IsUnmade (length code.items)) }
{
    if code.len() > MAX_SLOTS {
        return Err(CompileError::TooLong);
    }
    Ok(code)
}

// ---- purposes

/// Fails if the jump of a purpose is longer than a program.
pub fn near(purpose: Purpose) -> Result<(), CompileError>
    ensures near { IfOk result (λ _. far_of purpose ≤ MAX_SLOTS) }
    ensures far { IfErr result (IsUnmade (beyond_purpose purpose)) }
{
    if far_for(purpose) > MAX_SLOTS {
        return Err(CompileError::TooLong);
    }
    Ok(())
}

/// Returns the code of a number, for a purpose.
pub fn by_value_of(code: Vec<Insn>, purpose: Purpose) -> Result<Vec<Insn>, AllocError>
    requires { far_of purpose ≤ MAX_SLOTS }
    ensures { IfOk result (λ c. c.items ≡ by_value purpose code.items) }
{
    match purpose {
        Purpose::Value => Ok(code),
        Purpose::Jump(when, far) => {
            let jump = jump_at_of(jump_on_of(when, Comparison::NotEqual), 0, far);
            joined(code, &[jump])
        }
    }
}

/// Returns whether the jump of a purpose is taken if the term holds.
pub fn when_for(purpose: Purpose) -> bool
    ensures { result ≡ when_of purpose }
{
    match purpose {
        Purpose::Value => false,
        Purpose::Jump(when, _) => when,
    }
}

/// Returns the distance of the jump of a purpose.
pub fn far_for(purpose: Purpose) -> usize
    ensures { result ≡ far_of purpose }
{
    match purpose {
        Purpose::Value => 2,
        Purpose::Jump(_, far) => far,
    }
}

/// Returns the jump of a test that is made for a purpose.
pub fn test_of(purpose: Purpose) -> Purpose
    ensures { result ≡ Jump (when_of purpose) (far_of purpose) }
{
    Purpose::Jump(when_for(purpose), far_for(purpose))
}

/// Returns the jump of the opposite test.
pub fn opposite_test(purpose: Purpose) -> Purpose
    ensures { result ≡ Jump (not (when_of purpose)) (far_of purpose) }
{
    Purpose::Jump(!when_for(purpose), far_for(purpose))
}

/// Returns the code of a test, and what comes after it for a purpose.
pub fn behind_test_of(code: Vec<Insn>, purpose: Purpose) -> Result<Vec<Insn>, AllocError>
    ensures { IfOk result (λ c. c.items ≡ behind_test purpose code.items) }
{
    match purpose {
        Purpose::Value => joined(
            code,
            &[
                set_number_of(Reg::R0, 1),
                Insn::Ja { off: 1 },
                set_number_of(Reg::R0, 0),
            ],
        ),
        Purpose::Jump(_, _) => Ok(code),
    }
}

// ---- two sides

/// Returns the code of a number, its copy into the place of a depth, and what follows.
pub fn kept_then(code: Vec<Insn>, depth: u32, rest: &[Insn]) -> Result<Vec<Insn>, AllocError>
    ensures { IfOk result (λ c. c.items ≡ code.items ++ (keep_code (number_place depth) ∷ rest.now)) }
{
    let kept = joined(code, &[keep_of(place_of(depth))])?;
    joined(kept, rest)
}

fn decides_of(connective: Connective) -> bool
    ensures { result ≡ decides connective }
{
    match connective {
        Connective::And => false,
        Connective::Or => true,
    }
}

fn both_far_of(alone: bool, when: bool, n: usize, far: usize) -> usize
    requires short { n ≤ MAX_SLOTS }
    requires near { far ≤ MAX_SLOTS }
    ensures { result ≡ both_far alone when n far }
{
    if alone == when { n + far } else { n }
}

/// Returns the jump of the first of two conditions, over the code of the second or beyond it.
pub fn first_test(connective: Connective, second: &[Insn], purpose: Purpose) -> Purpose
    requires short { length second.now ≤ MAX_SLOTS }
    requires near { far_of purpose ≤ MAX_SLOTS }
    ensures { result ≡ Jump (decides connective)
        (both_far (decides connective) (when_of purpose) (length second.now) (far_of purpose)) }
{
    let alone = decides_of(connective);
    let far = both_far_of(alone, when_for(purpose), second.len(), far_for(purpose));
    Purpose::Jump(alone, far)
}

// ---- choices

/// Returns the jump over these instructions and one more if a test doesn't hold.
pub fn skip_test(code: &[Insn]) -> Purpose
    requires { length code.now ≤ MAX_SLOTS }
    ensures { result ≡ Jump false (length code.now + 1) }
{
    Purpose::Jump(false, code.len() + 1)
}

/// Returns the jump over these instructions if a test doesn't hold, and over one more if there is another case.
pub fn if_test(alone: bool, code: &[Insn]) -> Purpose
    requires { length code.now ≤ MAX_SLOTS }
    ensures { result ≡ Jump false (if alone then length code.now else length code.now + 1) }
{
    if alone {
        Purpose::Jump(false, code.len())
    } else {
        skip_test(code)
    }
}

/// Returns a test and the code for the case that it holds, and the code for the other case unless there is none.
pub fn if_of(
    alone: bool,
    test: Vec<Insn>,
    first: &[Insn],
    second: &[Insn],
) -> Result<Vec<Insn>, AllocError>
    requires { length second.now ≤ MAX_SLOTS }
    ensures { IfOk result (λ c. c.items ≡ (if alone then test.items ++ first.now
        else test.items ++ (first.now ++ i.Ja (pos (length second.now)) ∷ second.now))) }
{
    if alone {
        joined(test, first)
    } else {
        chosen(test, first, second)
    }
}

/// Returns a test, the code for the case that it holds, and the code for the case that it doesn't.
pub fn chosen(test: Vec<Insn>, first: &[Insn], second: &[Insn]) -> Result<Vec<Insn>, AllocError>
    requires { length second.now ≤ MAX_SLOTS }
    ensures { IfOk result (λ c. c.items ≡ test.items ++ (first.now ++ i.Ja (pos (length second.now)) ∷ second.now)) }
{
    let tested = joined(test, first)?;
    let skipped = joined(tested, &[skip_of(second)])?;
    joined(skipped, second)
}

// ---- messages

/// Returns the code that asks for the last message from the node in r0.
fn message_of(nodes: u32) -> [Insn; 5]
    requires { nodes ≤ 64 }
    ensures { result ≡ message_code nodes }
{
    [
        jump_at_of(Comparison::Less, nodes, 2),
        set_number_of(Reg::R0, NO_MAIL),
        Insn::Ja { off: 2 },
        copy_of(Reg::R1, Reg::R0),
        Insn::Call { id: 2 },
    ]
}

/// Returns the code that asks for the last message from a node whose number is found or computed.
pub fn message_by_of(
    alloc: Global,
    source: Source,
    nodes: u32,
    code: Vec<Insn>,
) -> Result<Vec<Insn>, AllocError>
    requires { nodes ≤ 64 }
    ensures { IfOk result (λ c. c.items ≡ message_by source nodes code.items) }
{
    match source {
        Source::Constant(node) => message_from_node(alloc, node, nodes),
        Source::FromLocal(_) => joined(code, &message_of(nodes)),
        Source::FromWord(_) => joined(code, &message_of(nodes)),
        Source::Computed => joined(code, &message_of(nodes)),
    }
}

fn message_from_node(alloc: Global, node: u32, nodes: u32) -> Result<Vec<Insn>, AllocError>
    requires { nodes ≤ 64 }
    ensures { IfOk result (λ c. c.items ≡ message_by (Constant node) nodes []) }
{
    if node < nodes {
        joined(Vec::new(alloc), &[set_node_of(node), Insn::Call { id: 2 }])
    } else {
        single(alloc, set_number_of(Reg::R0, NO_MAIL))
    }
}

/// Returns the nodes of the loops around, with one more.
pub fn within(alloc: Global, loops: &[u32], node: u32) -> Result<Vec<u32>, AllocError>
    ensures { IfOk result (λ v. v.items ≡ loops.now ++ node ∷ []) }
{
    let mut inner = Vec::new(alloc);
    inner.extend_from_slice(loops)?;
    inner.extend_from_slice(&[node])?;
    Ok(inner)
}
