//! One walk over the slots, from the first to the last: what is known comes to each slot before the walk does, since no
//! jump goes back.

ghost use Rattle.std.specs.Prelude.{◌≡◌, ℕ, ◌+◌, ◌<◌, ◌≤◌, ◌==◌, Some, None, false, IfSome, IfOk, IfErr, OnOk, vec_len, length, slice_get, if◌then◌else◌};
ghost use Rattle.bpf_insn.specs.Programs.{insn_at, slots_of};
ghost use Rattle.bpf_verify.specs.inner.Walk.{come_of, row_state, table_of, met_state, with_come, sent_on, rows_after, front_after, RefusesInsn, IsStop, Walks};
ghost use Rattle.bpf_verify.specs.inner.Rows.{abstract_of};
ghost use Rattle.bpf_verify.specs.Rules.{may_leave_regions, lowest_broken, KeepsRules};
ghost use Rattle.bpf_verify.specs.Outcomes.{outcome};
ghost use Rattle.bpf_insn.specs.declared.edges.Way.TheVariants.{Jumping};
ghost use Rattle.bpf_insn.specs.Edges.{target};
ghost use Rattle.bpf_insn.specs.Encoding.{slots_taken};
ghost use Rattle.bpf_verify.specs.Typable.{Typable};
ghost use Rattle.bpf_verify.specs.Accepted.{IsRefusal};

use crate::abstract_state::AbstractState;
use crate::outcomes::apply;
use crate::refusal::VerifyError;
use crate::rule::Rule;
use crate::rules::{broken_reached, broken_unreached};
use bpf_insn::{Insn, Program, Way, target};
use node_env::Shape;
use std::alloc::{AllocError, Global};
use std::mem;

/// What comes to the next instruction from the one before it, where anything does.
#[derive(Drop)]
pub(crate) struct Front {
    pub(crate) known: AbstractState,
    pub(crate) reached: bool,
}

/// What has come to each slot by jumps.
pub(crate) type Rows = Vec<Option<Box<AbstractState>>>;

pub(crate) fn no_rows(alloc: Global, count: usize) -> Result<Rows, AllocError>
    ensures long { IfOk result (λ rows. vec_len rows ≡ count) }
    ensures empty { IfOk result (λ rows. (slot : ℕ) → table_of rows.items slot ≡ None) }
{
    let mut rows = Vec::with_capacity(alloc, count)?;
    for _slot in 0..count {
        rows.push(None)?;
    }
    Ok(rows)
}

/// Joins what comes to a slot by a jump to what has come there.
fn propagate(
    alloc: Global,
    rows: &mut Rows,
    to: usize,
    known: AbstractState,
) -> Result<(), AllocError>
    requires { to < vec_len rows.old }
    ensures long { vec_len rows.new ≡ vec_len rows.old }
    ensures come { OnOk result ((slot : ℕ) → table_of rows.new.items slot
        ≡ with_come (table_of rows.old.items) to (abstract_of known) slot) }
{
    match &mut rows[to] {
        Some(row) => row.join(&known),
        empty => *empty = Some(Box::new(alloc, known)?),
    }
    Ok(())
}

/// Takes what has come to a slot by jumps.
fn take_row(rows: &mut Rows, slot: usize) -> Option<Box<AbstractState>>
    requires { slot < vec_len rows.old }
    ensures long { vec_len rows.new ≡ vec_len rows.old }
    ensures row { row_state result ≡ table_of rows.old.items slot }
    ensures ahead { (other : ℕ) → slot < other → table_of rows.new.items other ≡ table_of rows.old.items other }
{
    rows[slot].take()
}

impl Front {
    ghost use Rattle.std.specs.Prelude.{◌≡◌};
    ghost use Rattle.bpf_verify.specs.inner.Walk.{come_of, row_state, met_state};

    /// Joins what has come by jumps to what comes from the instruction before.
    pub(crate) fn join_incoming(&mut self, row: Option<Box<AbstractState>>)
        ensures { come_of self.new ≡ met_state (row_state row) (come_of self.old) }
    {
        if let Some(mut known) = row {
            if self.reached {
                self.known.join(&known);
            } else {
                mem::swap(&mut self.known, &mut *known);
            }
            self.reached = true;
        }
    }
}

/// Sends what is known after an instruction on by its jump.
fn jump(
    alloc: Global,
    shape: Shape,
    rows: &mut Rows,
    slot: u32,
    insn: &Insn,
    known: &AbstractState,
) -> Result<(), AllocError>
    requires inside { may_leave_regions shape insn.now (abstract_of known.now) ≡ false }
    requires target { IfSome (target insn.now slot Jumping) (λ to. (slot < to) × (to < vec_len rows.old)) }
    ensures long { vec_len rows.new ≡ vec_len rows.old }
    ensures sent { OnOk result ((other : ℕ) → table_of rows.new.items other
        ≡ sent_on (table_of rows.old.items) (target insn.now slot Jumping)
        (outcome shape insn.now (abstract_of known.now) Jumping) other) }
{
    let Some(to) = target(insn, slot, Way::Jumping) else {
        return Ok(());
    };
    let mut after = known.copied(alloc)?;
    if !apply(alloc, shape, insn, &mut after, Way::Jumping)? {
        return Ok(());
    }
    propagate(alloc, rows, to as usize, after)
}

impl Front {
    ghost use Rattle.std.specs.Prelude.{◌≡◌, false, OnOk};
    ghost use Rattle.bpf_insn.specs.declared.edges.Way.TheVariants.{Onward};
    ghost use Rattle.bpf_insn.specs.Edges.{target};
    ghost use Rattle.bpf_verify.specs.inner.Rows.{abstract_of};
    ghost use Rattle.bpf_verify.specs.Rules.{may_leave_regions};
    ghost use Rattle.bpf_verify.specs.Outcomes.{outcome};
    ghost use Rattle.bpf_verify.specs.inner.Walk.{come_of, come_after};

    /// Goes on to the next instruction.
    fn go_on(
        &mut self,
        alloc: Global,
        shape: Shape,
        slot: u32,
        insn: &Insn,
    ) -> Result<(), AllocError>
        requires { may_leave_regions shape insn.now (abstract_of self.old.known) ≡ false }
        ensures { OnOk result (come_of self.new ≡ come_after (target insn.now slot Onward)
            (outcome shape insn.now (abstract_of self.old.known) Onward)) }
    {
        match target(insn, slot, Way::Onward) {
            None => self.reached = false,
            Some(_next) => {
                let taken = apply(alloc, shape, insn, &mut self.known, Way::Onward)?;
                self.reached = taken;
            }
        }
        Ok(())
    }
}

/// The lowest rule that an instruction breaks.
pub(crate) fn broken(
    program: &Program,
    shape: Shape,
    slot: u32,
    insn: &Insn,
    front: &Front,
) -> Option<Rule>
    requires { insn_at program.now slot ≡ Some insn.now }
    ensures { result ≡ lowest_broken program.now shape slot insn.now (come_of front.now) }
{
    if front.reached {
        broken_reached(program, shape, slot, insn, &front.known)
    } else {
        broken_unreached(program, shape, slot, insn)
    }
}

/// Sends on what is known after an instruction that keeps the rules.
pub(crate) fn send(
    alloc: Global,
    program: &Program,
    shape: Shape,
    rows: &mut Rows,
    slot: u32,
    insn: &Insn,
    front: &mut Front,
) -> Result<(), AllocError>
    requires kept { KeepsRules program.now shape slot insn.now (come_of front.old) }
    requires long { vec_len rows.old ≡ slots_of program.now }
    ensures long { vec_len rows.new ≡ vec_len rows.old }
    ensures rows { OnOk result ((other : ℕ) → table_of rows.new.items other
        ≡ rows_after shape insn.now slot (come_of front.old) (table_of rows.old.items) other) }
    ensures front { OnOk result (come_of front.new ≡ front_after shape insn.now slot (come_of front.old)) }
{
    if !front.reached {
        return Ok(());
    }
    jump(alloc, shape, rows, slot, insn, &front.known)?;
    front.go_on(alloc, shape, slot, insn)
}

/// Takes an instruction into the walk: it keeps the rules, and what is known after it is sent on.
fn pass(
    alloc: Global,
    program: &Program,
    shape: Shape,
    rows: &mut Rows,
    slot: u32,
    insn: &Insn,
    front: &mut Front,
) -> Result<(), VerifyError>
    requires here { insn_at program.now slot ≡ Some insn.now }
    requires long { vec_len rows.old ≡ slots_of program.now }
    ensures long { vec_len rows.new ≡ vec_len rows.old }
    ensures kept { OnOk result (KeepsRules program.now shape slot insn.now (come_of front.old)) }
    ensures refused { IfErr result (RefusesInsn program.now shape slot insn.now (come_of front.old)) }
    ensures rows { OnOk result ((other : ℕ) → table_of rows.new.items other
        ≡ rows_after shape insn.now slot (come_of front.old) (table_of rows.old.items) other) }
    ensures front { OnOk result (come_of front.new ≡ front_after shape insn.now slot (come_of front.old)) }
{
    match broken(program, shape, slot, insn, front) {
        Some(rule) => Err(VerifyError::Refused { slot, rule }),
        None => match send(alloc, program, shape, rows, slot, insn, front) {
            Ok(()) => Ok(()),
            Err(_) => Err(VerifyError::Memory),
        },
    }
}

/// Takes the instruction at a slot into the walk.
fn walk_slot(
    alloc: Global,
    program: &Program,
    shape: Shape,
    rows: &mut Rows,
    slot: u32,
    insn: &Insn,
    front: &mut Front,
) -> Result<(), VerifyError>
    requires here { insn_at program.now slot ≡ Some insn.now }
    requires long { vec_len rows.old ≡ slots_of program.now }
    requires walks { Walks program.now shape slot (come_of front.old) (table_of rows.old.items) }
    ensures long { vec_len rows.new ≡ vec_len rows.old }
    ensures walks { OnOk result (Walks program.now shape (slot + slots_taken insn.now) (come_of front.new)
        (table_of rows.new.items)) }
    ensures refused { IfErr result (IsRefusal program.now shape) }
{
    let row = take_row(rows, slot as usize);
    front.join_incoming(row);
    pass(alloc, program, shape, rows, slot, insn, front)
}

/// Walks over all slots, and ends at the first whose instruction breaks a rule.
pub(crate) fn walk(alloc: Global, program: &Program, shape: Shape) -> Result<(), VerifyError>
    ensures typable { OnOk result (Typable program.now shape) }
    ensures refused { IfErr result (IsRefusal program.now shape) }
{
    let Ok(mut rows) = no_rows(alloc, program.slot_count() as usize) else {
        return Err(VerifyError::Memory);
    };
    let mut front = Front {
        known: AbstractState::entry(shape),
        reached: true,
    };
    let mut slot = 0;
    while let Some(insn) = program.insn_at(slot) {
        walk_slot(alloc, program, shape, &mut rows, slot, &insn, &mut front)?;
        slot += insn.slots() as u32;
    }
    Ok(())
}
