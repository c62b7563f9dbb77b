//! The longest path through a program, counted from the last slot down.

ghost use Rattle.std.specs.Prelude.{◌≡◌, ℕ, ◌+◌, ◌<◌, ◌≤◌, Some, IfOk, length, vec_len};
ghost use Rattle.bpf_insn.specs.Programs.{insn_at, slots_of};
ghost use Rattle.bpf_insn.specs.declared.listing.TheConstants.{MAX_SLOTS};
ghost use Rattle.bpf_insn.specs.Edges.{target};
ghost use Rattle.bpf_verify.specs.Typable.{Typable};
ghost use Rattle.bpf_verify.specs.Paths.{IsLongestFrom, IsLongestPath};
ghost use Rattle.bpf_verify.specs.inner.Lengths.{IsLongestOn, HasLongest};

use bpf_insn::{Insn, Program, Way, target};
use node_env::Shape;
use std::alloc::{AllocError, Global};

/// The instructions on the longest path that begins with a way, 0 if there is no such way.
fn count_on(
    program: &Program,
    shape: Shape,
    counts: &[u32],
    slot: u32,
    insn: &Insn,
    way: Way,
) -> u32
    requires typable { Typable program.now shape }
    requires small { slots_of program.now ≤ MAX_SLOTS }
    requires here { insn_at program.now slot ≡ Some insn.now }
    requires long { length counts.now ≡ slots_of program.now }
    requires known { HasLongest program.now (slot + 1) counts.now }
    ensures value { IsLongestOn program.now (target insn.now slot way) result }
    ensures few { result + slot < slots_of program.now }
{
    match target(insn, slot, way) {
        Some(to) => counts[to as usize],
        None => 0,
    }
}

/// The instructions on the longest path from a slot where an instruction begins.
fn count_from(program: &Program, shape: Shape, counts: &[u32], slot: u32, insn: &Insn) -> u32
    requires typable { Typable program.now shape }
    requires small { slots_of program.now ≤ MAX_SLOTS }
    requires here { insn_at program.now slot ≡ Some insn.now }
    requires long { length counts.now ≡ slots_of program.now }
    requires known { HasLongest program.now (slot + 1) counts.now }
    ensures value { IsLongestFrom program.now slot result }
    ensures few { result + slot ≤ slots_of program.now }
{
    let onward = count_on(program, shape, counts, slot, insn, Way::Onward);
    let jumping = count_on(program, shape, counts, slot, insn, Way::Jumping);
    1 + onward.max(jumping)
}

/// The greatest number of instructions on a path from slot 0.
pub(crate) fn longest(alloc: Global, program: &Program, shape: Shape) -> Result<u32, AllocError>
    requires { Typable program.now shape }
    ensures { IfOk result (IsLongestPath program.now) }
{
    let count = program.slot_count() as usize;
    let mut counts: Vec<u32> = Vec::with_capacity(alloc, count)?;
    'fill: for _slot in 0..count {
        counts.push(0)?;
    }
    'down: for slot in (0..count).rev() {
        if let Some(insn) = program.insn_at(slot as u32) {
            counts[slot] = count_from(program, shape, &counts, slot as u32, &insn);
        }
    }
    Ok(counts[0])
}
