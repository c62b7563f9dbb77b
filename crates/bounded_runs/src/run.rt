//! One run for all inputs that are alike.
ghost use Rattle.std.specs.Prelude.{◌≡◌, ◌≢◌, ◌+◌, ◌<◌, ℕ, All, List, Some, IsTrue, false, length};
ghost use Rattle.std.specs.FinMap.{empty};
ghost use Rattle.bpf_insn.specs.declared.forms.Insn.TheVariants.{Exit};
ghost use Rattle.bpf_insn.specs.Programs.{insn_at};
ghost use Rattle.bpf_machine.specs.Machine.{entry, entry_frame, state_of};
ghost use Rattle.bounded_runs.specs.declared.ends.Ends.{Ends as EndsValue};
ghost use Rattle.bounded_runs.specs.Bounded.{EndsSo, is_known};
ghost use Rattle.bounded_runs.specs.inner.Run.{bound_of_run, bound_of_tries};
ghost use Rattle.bounded_runs.specs.inner.Similar.{AreFollowed};

use crate::all::Tries;
use crate::ends::Ends;
use crate::marks::{Marks, StepView};
use bpf_insn::{Insn, Program};
use bpf_machine::{State, Turn, step};
use bpf_verify::VerifiedProgram;
use node_env::{Env, Outbox};

/// A run, and what may be other numbers in runs from alike inputs.
#[derive(Drop)]
struct MarkedRun {
    state: State,
    marks: Marks,
}

/// What is known after a step.
#[derive(Clone, Copy, Debug, PartialEq, Eq)]
enum Followed {
    /// Runs from alike inputs go on alike.
    Next,
    /// They have ended so.
    Ended(Ends),
}

/// What a run is of.
#[derive(Clone, Copy)]
struct RunView<'a> {
    program: &'a Program,
    env: &'a Env,
    bound: u32,
    /// Whether each word of memory is kept.
    kept: &'a [bool],
}

/// Ends a run at an exit. Returns how runs from alike inputs end with it.
fn follow_exit(view: RunView, run: &mut MarkedRun, memory: &mut [u8], outbox: &mut Outbox) -> Ends
    requires memory { length memory.old ≡ view.env.now.shape.memory }
    requires nodes { outbox.old.nodes ≡ view.env.now.shape.nodes }
    requires exits { insn_at view.program.now run.old.state.slot ≡ Some Exit }
    ensures nodes { outbox.new.nodes ≡ outbox.old.nodes }
    ensures ends { (before : List ℕ) (count : ℕ)
        → AreFollowed view.entry.program.now (bound_of_run view.entry) view.entry.env.now before count
        (state_of run.old.state memory.old outbox.old.sent) run.old.marks
        → EndsSo result view.entry.program.now (bound_of_run view.entry) view.entry.env.now before }
{
    if run.marks.is_answer_marked() {
        return Ends::Unknown;
    }
    let marked = run.marks.marked_byte(view.kept, view.env.shape().memory());
    match (
        step(view.program, view.env, &mut run.state, memory, outbox),
        marked,
    ) {
        (Turn::Ended(_), None) => Ends::AsOne,
        (Turn::Ended(_), Some(byte)) => Ends::ByMemory { byte },
        (Turn::Next | Turn::Trap(_), _) => Ends::Unknown,
    }
}

/// Returns that it isn't known how runs end, and whether that is for a kept word.
fn unknown_at(marks: &Marks, view: StepView, insn: &Insn) -> Ends
    ensures { is_known result ≡ false }
{
    match marks.kept_byte(view, insn) {
        Some(byte) => Ends::Touches { byte },
        None => Ends::Unknown,
    }
}

/// Takes a step of an instruction that leads to another. Returns whether runs from alike inputs follow it.
fn follow_step(
    view: RunView,
    run: &mut MarkedRun,
    insn: &Insn,
    memory: &mut [u8],
    outbox: &mut Outbox,
) -> Followed
    requires memory { length memory.old ≡ view.env.now.shape.memory }
    requires nodes { outbox.old.nodes ≡ view.env.now.shape.nodes }
    requires at { insn_at view.program.now run.old.state.slot ≡ Some insn.now }
    ensures nodes { outbox.new.nodes ≡ outbox.old.nodes }
    ensures goes_on { (ends : EndsValue) → result ≡ Followed.Ended ends → is_known ends ≡ false }
    ensures next { result ≡ Followed.Next → (before : List ℕ) (count : ℕ)
        → AreFollowed view.entry.program.now (bound_of_run view.entry) view.entry.env.now before count
        (state_of run.old.state memory.old outbox.old.sent) run.old.marks
        → AreFollowed view.entry.program.now (bound_of_run view.entry) view.entry.env.now before (count + 1)
        (state_of run.new.state memory.new outbox.new.sent) run.new.marks }
{
    let _shape = view.env.shape(); // brings what a node sees
    let step_view = StepView {
        env: view.env,
        state: &run.state,
        bound: view.bound,
        kept: view.kept,
    };
    if !run.marks.keep(step_view, insn) {
        return Followed::Ended(unknown_at(&run.marks, step_view, insn));
    }
    match step(view.program, view.env, &mut run.state, memory, outbox) {
        Turn::Next => Followed::Next,
        Turn::Ended(_) | Turn::Trap(_) => Followed::Ended(Ends::Unknown),
    }
}

/// Takes a step. Returns whether runs from alike inputs follow it.
fn follow(view: RunView, run: &mut MarkedRun, memory: &mut [u8], outbox: &mut Outbox) -> Followed
    requires memory { length memory.old ≡ view.env.now.shape.memory }
    requires nodes { outbox.old.nodes ≡ view.env.now.shape.nodes }
    ensures nodes { outbox.new.nodes ≡ outbox.old.nodes }
    ensures next { result ≡ Followed.Next → (before : List ℕ) (count : ℕ)
        → AreFollowed view.entry.program.now (bound_of_run view.entry) view.entry.env.now before count
        (state_of run.old.state memory.old outbox.old.sent) run.old.marks
        → AreFollowed view.entry.program.now (bound_of_run view.entry) view.entry.env.now before (count + 1)
        (state_of run.new.state memory.new outbox.new.sent) run.new.marks }
    ensures ends { (ends : EndsValue) → result ≡ Followed.Ended ends → (before : List ℕ) (count : ℕ)
        → AreFollowed view.entry.program.now (bound_of_run view.entry) view.entry.env.now before count
        (state_of run.old.state memory.old outbox.old.sent) run.old.marks
        → EndsSo ends view.entry.program.now (bound_of_run view.entry) view.entry.env.now before }
{
    match view.program.at(run.state.slot()) {
        None => Followed::Ended(Ends::Unknown),
        Some(Insn::Exit) => Followed::Ended(follow_exit(view, run, memory, outbox)),
        Some(insn) => follow_step(view, run, insn, memory, outbox),
    }
}

/// States that a memory has bytes.
fn are_bytes(memory: &[u8])
    ensures { All (λ byte. byte < 256) memory.now }
{}

/// Returns the run as it begins.
fn begun(view: RunView, memory: &[u8]) -> MarkedRun
    requires { length memory.now ≡ view.env.now.shape.memory }
    ensures state { result.state ≡ entry_frame view.entry.env.now }
    ensures followed { AreFollowed view.entry.program.now (bound_of_run view.entry) view.entry.env.now memory.now 0
        (entry view.entry.env.now memory.now) result.marks }
{
    let _memory = view.env.shape().memory(); // brings its range
    are_bytes(memory);
    MarkedRun {
        state: State::entry(view.env),
        marks: Marks::at_entry(memory, view.bound, view.kept),
    }
}

/// Returns how runs from inputs that are alike to this one end, if it ends in at most `fuel` steps.
fn all_follow(view: RunView, fuel: u32, memory: &mut [u8], outbox: &mut Outbox) -> Ends
    requires memory { length memory.old ≡ view.env.now.shape.memory }
    requires nodes { outbox.old.nodes ≡ view.env.now.shape.nodes }
    requires empty { outbox.old.sent ≡ empty }
    ensures ends { EndsSo result view.entry.program.now (bound_of_run view.entry) view.entry.env.now memory.old }
    ensures nodes { outbox.new.nodes ≡ outbox.old.nodes }
{
    let mut run = begun(view, memory);
    for _taken in 0..fuel {
        match follow(view, &mut run, memory, outbox) {
            Followed::Next => {}
            Followed::Ended(ends) => return ends,
        }
    }
    Ends::Unknown
}

/// Returns how runs from inputs that are alike to this one end: of this memory, which is one of those that are tried. What
/// is left in memory and outbox promises nothing.
pub(crate) fn ends_from(
    program: &VerifiedProgram,
    env: &Env,
    tries: Tries,
    memory: &mut [u8],
    outbox: &mut Outbox,
) -> Ends
    requires memory { length memory.old ≡ env.now.shape.memory }
    requires nodes { outbox.old.nodes ≡ env.now.shape.nodes }
    ensures ends { EndsSo result program.now.program (bound_of_tries tries.entry) env.now memory.old }
    ensures nodes { outbox.new.nodes ≡ outbox.old.nodes }
{
    outbox.clear();
    let view = RunView {
        program: program.program(),
        env,
        bound: tries.bound,
        kept: tries.kept,
    };
    all_follow(view, program.budget(), memory, outbox)
}
