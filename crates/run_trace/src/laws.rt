//! Laws of traces.

ghost use Rattle.std.specs.Prelude.{◌≡◌, ◌<◌, ◌≤◌, ◌+◌, ℕ, List, Some, length, slice_get};
ghost use Rattle.std.specs.Ordering.{nat_cmp};
ghost use Rattle.std.specs.FinMap.{FinMap};
ghost use Rattle.node_env.specs.Env.{Setting};
ghost use Rattle.bpf_insn.specs.declared.forms.Insn.{Insn};
ghost use Rattle.bpf_machine.specs.declared.word.Outcome.TheVariants.{Ended, OutOfFuel};
ghost use Rattle.bpf_machine.specs.declared.word.TrapKind.{TrapKind};
ghost use Rattle.bpf_machine.specs.Machine.{MachineState};
ghost use Rattle.bpf_machine.specs.Run.{GetsStuck, RunAnswers, RunsTo};
ghost use Rattle.bpf_machine.specs.Step.{step};
ghost use Rattle.run_trace.specs.Steps.{TracedStep, steps_of};

/// States that a run that ends has a line for each of its steps, that one whose fuel runs out has as many as its fuel,
/// and that one that gets stuck has one more than its steps.
pub fn as_many_lines_as_steps()
    ensures ended { (program : List Insn) (env : Setting) (memory : List ℕ) (fuel : ℕ) (left : List ℕ)
        (sent : FinMap nat_cmp ℕ) (r0 steps : ℕ) → RunAnswers program env memory fuel left sent (Ended r0 steps)
        → length (steps_of program env memory fuel) ≡ steps }
    ensures out_of_fuel { (program : List Insn) (env : Setting) (memory : List ℕ) (fuel : ℕ) (left : List ℕ)
        (sent : FinMap nat_cmp ℕ) → RunAnswers program env memory fuel left sent OutOfFuel
        → length (steps_of program env memory fuel) ≡ fuel }
    ensures stuck { (program : List Insn) (env : Setting) (memory : List ℕ) (fuel count : ℕ) (s : MachineState)
        (kind : TrapKind) → count < fuel → GetsStuck program env memory count s kind
        → length (steps_of program env memory fuel) ≡ count + 1 }
{}

/// States that the step of a place is that of the state to which as many steps lead.
pub fn tells_the_run()
    ensures { (program : List Insn) (env : Setting) (memory : List ℕ) (fuel place : ℕ) (s : TracedStep)
        → slice_get (steps_of program env memory fuel) place ≡ Some s
        → RunsTo program env memory place s.state × (s.gives ≡ step program env s.state) }
{}

/// States that a run that ends has the same steps with as much fuel as it takes steps.
pub fn more_fuel_tells_no_more()
    ensures { (program : List Insn) (env : Setting) (memory : List ℕ) (fuel : ℕ) (left : List ℕ)
        (sent : FinMap nat_cmp ℕ) (r0 steps : ℕ) → RunAnswers program env memory fuel left sent (Ended r0 steps)
        → steps_of program env memory fuel ≡ steps_of program env memory steps }
{}
