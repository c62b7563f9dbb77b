//! Laws of steps and runs.

ghost use Rattle.std.specs.Prelude.{◌≡◌, ◌↔◌, ◌+◌, List, ℕ, All, ◌<◌, false, length};
ghost use Rattle.std.specs.Ordering.{nat_cmp};
ghost use Rattle.std.specs.FinMap.{FinMap};
ghost use Rattle.node_env.specs.Env.{IsSetting, Setting};
ghost use Rattle.bpf_insn.specs.declared.forms.Insn.{Insn};
ghost use Rattle.bpf_insn.specs.Edges.{BeginsAt};
ghost use Rattle.bpf_insn.specs.Programs.{IsProgram};
ghost use Rattle.bpf_machine.specs.declared.word.Outcome.{Outcome};
ghost use Rattle.bpf_machine.specs.declared.word.TrapKind.{TrapKind};
ghost use Rattle.bpf_machine.specs.Machine.{MachineState, Phase, Running, entry};
ghost use Rattle.bpf_machine.specs.Traps.{IsLowestTrap, applies};
ghost use Rattle.bpf_machine.specs.Run.{CompleteRun, End, HasNoSuccessor, HasTrap, IsStuck, Leads, RunAnswers, Steps};
ghost use Rattle.bpf_machine.specs.Sound.{IsSound, IsSoundEnd};

/// States that a state has at most one successor, and a program at most one complete run and, with given fuel, one
/// answer.
pub fn one_run()
    ensures successor { (program : List Insn) (env : Setting) (s t u : Phase) → Steps program env s t
        → Steps program env s u → t ≡ u }
    ensures complete { (program : List Insn) (env : Setting) (memory : List ℕ) (first second : End)
        → CompleteRun program env memory first → CompleteRun program env memory second → first ≡ second }
    ensures answer { (program : List Insn) (env : Setting) (memory : List ℕ) (fuel : ℕ) (left right : List ℕ)
        (sent gone : FinMap nat_cmp ℕ) (first second : Outcome) → RunAnswers program env memory fuel left sent first
        → RunAnswers program env memory fuel right gone second → (first ≡ second) × (left ≡ right) × (sent ≡ gone) }
{}

/// States that a state has no successor exactly if a trap applies, and that the lowest is reported.
pub fn stuck_by_traps()
    ensures exactly { (program : List Insn) (env : Setting) (s : MachineState) → length s.memory ≡ env.shape.memory →
        (HasNoSuccessor program env s ↔ HasTrap program env s) }
    ensures stuck { (program : List Insn) (env : Setting) (s : MachineState) (kind : TrapKind)
        → length s.memory ≡ env.shape.memory → IsLowestTrap program env s kind → IsStuck program env s kind }
    ensures free { (program : List Insn) (env : Setting) (s : MachineState) → length s.memory ≡ env.shape.memory
        → ((kind : TrapKind) → applies kind program env s ≡ false) → (t : Phase) × Steps program env (Running s) t }
{}

/// States what every state of a run is: memory of the shape's length, bytes, words and numbers sent in their ranges,
/// and a slot where an instruction begins.
pub fn stays_sound()
    ensures entry { (env : Setting) (memory : List ℕ) → IsSetting env → length memory ≡ env.shape.memory
        → All (λ byte. byte < 256) memory → IsSound env (entry env memory) }
    ensures step { (program : List Insn) (env : Setting) (s t : MachineState) → IsProgram program → IsSetting env
        → IsSound env s → Steps program env (Running s) (Running t) → IsSound env t }
    ensures begins { (program : List Insn) (env : Setting) (s t : MachineState)
        → Steps program env (Running s) (Running t) → BeginsAt program t.frame.slot }
{}

/// States that the steps of two runs in a row are as many as both together.
pub fn runs_compose()
    ensures { (program : List Insn) (env : Setting) (first then : ℕ) (s t u : Phase) →
        Leads program env first s t → Leads program env then t u → Leads program env (first + then) s u }
{}

/// States what a complete run leaves: memory of the shape's length, bytes, and numbers of 32 bits sent to nodes of the
/// shape.
pub fn leaves_sound()
    ensures { (program : List Insn) (env : Setting) (memory : List ℕ) (end : End) → IsProgram program → IsSetting env →
        length memory ≡ env.shape.memory → All (λ byte. byte < 256) memory → CompleteRun program env memory end →
        IsSoundEnd env end }
{}
