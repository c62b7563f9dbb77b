//! What the verifier finds out about a program: the verdict, and what is known at each slot up to it. The walk is that
//! of [`crate::check`], and keeps what it knew.

ghost use Rattle.std.specs.Prelude.{◌≡◌, ℕ, ◌+◌, ◌<◌, Some, IfOk, OnOk, vec_len};
ghost use Rattle.bpf_insn.specs.Programs.{insn_at, slots_of};
ghost use Rattle.bpf_verify.specs.inner.Walk.{come_of, table_of, met_state, with_row, Keeps, IsStep};
ghost use Rattle.bpf_verify.specs.Findings.{AreFindings};

use crate::abstract_state::AbstractState;
use crate::longest::longest;
use crate::rule::Rule;
use crate::walk::{Front, Rows, broken, no_rows, send};
use bpf_insn::{Insn, Program};
use node_env::Shape;
use std::alloc::{AllocError, Global};

/// What is told of a program.
#[derive(Clone, Copy, Debug, PartialEq, Eq)]
pub enum Verdict {
    /// It is accepted, and its longest path has this many instructions.
    Accepted { announced: u32 },
    /// The instruction at the slot is the first that breaks a rule, and the rule is the lowest that it breaks.
    Refused { slot: u32, rule: Rule },
}

/// The verdict on a program, and what is known at each slot where an instruction begins, up to the one that is refused.
#[derive(Drop)]
pub struct Findings {
    states: Rows,
    verdict: Verdict,
}

impl Findings {
    ghost use Rattle.std.specs.Prelude.{◌≡◌, option_map};
    ghost use Rattle.bpf_verify.specs.Findings.{abstract_of, table_in};

    /// Returns the verdict.
    pub fn verdict(&self) -> Verdict
        ensures { result ≡ self.now.verdict }
    {
        self.verdict
    }

    /// Returns what is known at a slot; none if no path reaches it.
    pub fn known_at(&self, slot: u32) -> Option<&AbstractState>
        ensures { option_map (λ known. abstract_of known.now) result ≡ table_in self.now slot }
    {
        match self.states.get(slot as usize) {
            Some(row) => row.as_deref(),
            None => None,
        }
    }
}

/// Joins what has come to a slot by jumps to what comes from the instruction before, and leaves it there too.
fn settle(alloc: Global, rows: &mut Rows, slot: usize, front: &mut Front) -> Result<(), AllocError>
    requires { slot < vec_len rows.old }
    ensures long { vec_len rows.new ≡ vec_len rows.old }
    ensures met { come_of front.new ≡ met_state (table_of rows.old.items slot) (come_of front.old) }
    ensures left { OnOk result ((other : ℕ) → table_of rows.new.items other
        ≡ with_row (table_of rows.old.items) slot (come_of front.new) other) }
{
    let row = rows[slot].take();
    front.join_incoming(row);
    if front.reached {
        let known = front.known.copied(alloc)?;
        rows[slot] = Some(Box::new(alloc, known)?);
    }
    Ok(())
}

/// Takes the instruction at a slot into the walk, unless it breaks a rule.
fn step(
    alloc: Global,
    program: &Program,
    shape: Shape,
    rows: &mut Rows,
    slot: u32,
    insn: &Insn,
    front: &mut Front,
) -> Result<Option<Rule>, AllocError>
    requires here { insn_at program.now slot ≡ Some insn.now }
    requires long { vec_len rows.old ≡ slots_of program.now }
    requires keeps { Keeps program.now shape slot (come_of front.old) (table_of rows.old.items) }
    ensures long { vec_len rows.new ≡ vec_len rows.old }
    ensures step { IfOk result (IsStep program.now shape slot insn.now (come_of front.new) (table_of rows.new.items)) }
{
    settle(alloc, rows, slot as usize, front)?;
    match broken(program, shape, slot, insn, front) {
        Some(rule) => Ok(Some(rule)),
        None => {
            send(alloc, program, shape, rows, slot, insn, front)?;
            Ok(None)
        }
    }
}

/// Returns the verdict of [`crate::check`], and what is known at each slot up to the one that is refused.
pub fn explain(alloc: Global, program: &Program, shape: Shape) -> Result<Findings, AllocError>
    ensures { IfOk result (AreFindings program.now shape) }
{
    let mut states = no_rows(alloc, program.slot_count() as usize)?;
    let mut front = Front {
        known: AbstractState::entry(shape),
        reached: true,
    };
    let mut slot = 0;
    while let Some(insn) = program.insn_at(slot) {
        if let Some(rule) = step(alloc, program, shape, &mut states, slot, &insn, &mut front)? {
            let verdict = Verdict::Refused { slot, rule };
            return Ok(Findings { states, verdict });
        }
        slot += insn.slots() as u32;
    }
    let announced = longest(alloc, program, shape)?;
    let verdict = Verdict::Accepted { announced };
    Ok(Findings { states, verdict })
}
