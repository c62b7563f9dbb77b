//! The code of tallies: a count, or the least message, over the nodes at which a test holds.
ghost use Rattle.std.specs.Prelude.{◌≡◌, ◌<◌, ◌++◌, [], ◌∷◌, pos, IfOk};
ghost use Rattle.bpf_insn.specs.declared.forms.Width.TheVariants.{W32};
ghost use Rattle.bpf_insn.specs.declared.forms.AluOp.TheVariants.{Add};
ghost use Rattle.bpf_insn.specs.declared.forms.Reg.TheVariants.{R0};
ghost use Rattle.bpf_insn.specs.declared.forms.Operand.TheVariants as operand;
ghost use Rattle.bpf_insn.specs.declared.forms.Insn.TheVariants as i;
ghost use Rattle.rule_nodes.specs.Code.{fetch_code, start_code, increment_code, lower_code, tally_start, tally_step, tally_test};

use crate::insns::{
    fetch_of, jump_by_of, keep_of, place_of, place_operand_of, set_node_of, start_of,
};
use crate::numbers::{Place, Purpose, Tally};
use crate::operands::with_place;
use crate::parts::{joined, single};
use bpf_insn::{AluOp, Insn, Operand, Reg, Width};
use node_env::NO_MAIL;
use rule_syntax::Comparison;
use std::alloc::{AllocError, Global};

/// Returns the instruction that adds 1 in a register.
fn add_one(register: Reg) -> Insn
    ensures { result ≡ i.Alu Add W32 register (operand.Imm (pos 1)) }
{
    Insn::Alu {
        op: AluOp::Add,
        width: Width::W32,
        dst: register,
        src: Operand::Imm(1),
    }
}

/// Appends the code that adds 1 in a place.
fn incremented(code: Vec<Insn>, place: Place) -> Result<Vec<Insn>, AllocError>
    ensures { IfOk result (λ c. c.items ≡ code.items ++ increment_code place) }
{
    match place {
        Place::InRegister(register) => joined(code, &[add_one(register)]),
        Place::OnStack(_) => {
            joined(
                code,
                &[fetch_of(Reg::R0, place), add_one(Reg::R0), keep_of(place)],
            )
        }
    }
}

/// Appends the code that puts the message from a node into a place if it is less than the number there.
fn lowered(code: Vec<Insn>, place: Place, node: u32) -> Result<Vec<Insn>, AllocError>
    requires { node < 64 }
    ensures { IfOk result (λ c. c.items ≡ code.items ++ lower_code place node) }
{
    let asked = joined(code, &[set_node_of(node), Insn::Call { id: 2 }])?;
    let loaded = with_place(asked, place)?;
    let skip = jump_by_of(Comparison::AtLeast, place_operand_of(place), 1);
    joined(loaded, &[skip, keep_of(place)])
}

/// Appends what a tally does in its place for a node.
fn stepped(code: Vec<Insn>, tally: Tally, place: Place, node: u32) -> Result<Vec<Insn>, AllocError>
    requires { node < 64 }
    ensures { IfOk result (λ c. c.items ≡ code.items ++ tally_step tally place node) }
{
    match tally {
        Tally::HowMany => incremented(code, place),
        Tally::LeastMessage => lowered(code, place, node),
    }
}

/// Appends the test of a node and the step that it jumps over if it doesn't hold.
pub fn tallied(
    codes: Vec<Insn>,
    test: &[Insn],
    tally: Tally,
    place: Place,
    node: u32,
) -> Result<Vec<Insn>, AllocError>
    requires { node < 64 }
    ensures { IfOk result (λ c. c.items ≡ codes.items ++ (test.now ++ tally_step tally place node)) }
{
    stepped(joined(codes, test)?, tally, place, node)
}

/// Returns the jump of the tests of a tally, over the step of a node in the place of a depth.
pub fn tally_test_of(tally: Tally, depth: u32) -> Purpose
    ensures { result ≡ tally_test tally depth }
{
    match place_of(depth) {
        Place::InRegister(_) => match tally {
            Tally::HowMany => Purpose::Jump(false, 1),
            Tally::LeastMessage => Purpose::Jump(false, 4),
        },
        Place::OnStack(_) => match tally {
            Tally::HowMany => Purpose::Jump(false, 3),
            Tally::LeastMessage => Purpose::Jump(false, 5),
        },
    }
}

/// Returns the number that a tally begins with.
fn first_of(tally: Tally) -> u32
    ensures { result ≡ tally_start tally }
{
    match tally {
        Tally::HowMany => 0,
        Tally::LeastMessage => NO_MAIL,
    }
}

/// Returns the code that makes a tally in a place, and puts its number into r0.
pub fn tally_of(
    alloc: Global,
    tally: Tally,
    place: Place,
    codes: &[Insn],
) -> Result<Vec<Insn>, AllocError>
    ensures { IfOk result (λ c. c.items ≡
        start_code place (tally_start tally) ∷ (codes.now ++ fetch_code R0 place ∷ [])) }
{
    let head = single(alloc, start_of(place, first_of(tally)))?;
    let all = joined(head, codes)?;
    joined(all, &[fetch_of(Reg::R0, place)])
}
