//! Laws of answers, listings, verdicts, reports and faults.
ghost use Rattle.std.specs.Prelude.{◌≡◌, Bool, List, Ok, Result, ℕ, false};
ghost use Rattle.bpf_insn.specs.declared.forms.Insn.{Insn};
ghost use Rattle.bpf_insn.specs.declared.image.ImageError.{ImageError};
ghost use Rattle.command_answers.specs.declared.answer.Answer.{Answer};
ghost use Rattle.command_answers.specs.declared.rejection.Unread.{Unread};
ghost use Rattle.requests.specs.declared.request.ExecOptions.{ExecOptions};
ghost use Rattle.requests.specs.declared.request.ShapeOptions.{ShapeOptions};
ghost use Rattle.program_commands.specs.declared.verdict.Verdict.{Verdict};
ghost use Rattle.command_answers.specs.Answer.{Answers, AnswersLeaving, SameAnswer};
ghost use Rattle.command_answers.specs.Left.{Left};
ghost use Rattle.command_answers.specs.Image.{ReadsImage};
ghost use Rattle.program_commands.specs.Verdict.{Judges, SameJudgement};
ghost use Rattle.bench_scenario.specs.Runs.{Reports, ReportsRun, ReportsVerdict};
ghost use Rattle.key_sweep.specs.Sweeps.{Lines};
ghost use Rattle.parameters.specs.declared.lines.LinesForm.{LinesForm};
ghost use Rattle.run_lines.specs.Telling.{IsWholeText};
ghost use Rattle.explored.specs.declared.options.ExploreOptions.{ExploreOptions};
ghost use Rattle.exploration.specs.declared.answer.Found.{Found};
ghost use Rattle.scenario_text.specs.declared.scenario.Scenario.{Scenario};
ghost use Rattle.scenario_text.specs.Texts.{ReadsText};
ghost use Rattle.scenario_explorer.specs.Explore.{Begins, IsFindingOf, bed_of};
ghost use Rattle.scenario_explorer.specs.OneExploration.{AreConsistent, AskOfSame};
ghost use Rattle.commands.specs.Causes.{ReadingHasCause, StartingHasCause, ThreadsHaveCause, UnshapedReadsNothing, WritingHasCause};

use bpf_asm::one_meaning;
use bpf_insn::one_reading;
use bpf_machine::one_run;
use scenario_explorer::one_exploration;
use scenario_text::laws::one_scenario;

/// Bytes have at most one answer under given options, but for the error of a text that means no program.
pub fn one_answer()
    ensures same { (options : ExecOptions) (bytes : List ℕ) (answer other : Result Answer Unread)
        → Answers options bytes answer → Answers options bytes other → SameAnswer answer other }
    ensures image { (options : ExecOptions) (bytes : List ℕ) (answer other : Result Answer Unread)
        → options.text ≡ false → Answers options bytes answer → Answers options bytes other → answer ≡ other }
{
    one_reading();
    one_meaning();
    one_run();
}

/// States that a run leaves one memory, and sends one number or none to each node.
pub fn one_left()
    ensures { (options : ExecOptions) (bytes : List ℕ) (answer : Answer) (left other : Left)
        → AnswersLeaving options bytes (Ok answer) left → AnswersLeaving options bytes (Ok answer) other
        → left ≡ other }
{
    one_reading();
    one_meaning();
    one_run();
}

/// Bytes are the image of one program, which `dis` prints, or have one refusal.
pub fn one_listing()
    ensures { (bytes : List ℕ) (read other : Result (List Insn) ImageError) → ReadsImage bytes read
        → ReadsImage bytes other → read ≡ other }
{
    one_reading();
}

/// Bytes have at most one verdict under given options, but for the rule that a refusal names.
pub fn one_verdict()
    ensures { (options : ShapeOptions) (bytes : List ℕ) (verdict other : Result Verdict Unread)
        → Judges options bytes verdict → Judges options bytes other → SameJudgement verdict other }
{
    one_reading();
    bpf_verify::one_verdict();
}

/// A scenario has at most one report, and one verdict on agreement.
pub fn one_report()
    ensures { (s : Scenario) (line other : List ℕ) (agrees verdict : Bool) → ReportsRun s line agrees
        → ReportsRun s other verdict → (line ≡ other) × (agrees ≡ verdict) }
{
    bench_workers::laws::one_run();
}

/// A scenario has at most one text of JSON lines in a form, and one verdict on agreement.
pub fn one_text_of_lines()
    ensures { (s : Scenario) (form : LinesForm) (text other : List ℕ) (agrees verdict : Bool)
        → IsWholeText s form text agrees → IsWholeText s form other verdict → (text ≡ other) × (agrees ≡ verdict) }
{
    bench_workers::laws::one_showing();
}

/// The seeds of a sweep of a scenario have at most one text of lines.
pub fn one_sweep()
    ensures { (s : Scenario) (first count : ℕ) (text other : List ℕ) → Lines s first count text
        → Lines s first count other → text ≡ other }
{
    bench_workers::laws::one_run();
}

/// A text has at most one report, and one verdict on agreement: it reads as at most one scenario.
pub fn one_report_of_text()
    ensures line { (text line other : List ℕ) → Reports text line → Reports text other → line ≡ other }
    ensures verdict { (text line other : List ℕ) (agrees verdict : Bool) → ReportsVerdict text line agrees
        → ReportsVerdict text other verdict → (line ≡ other) × (agrees ≡ verdict) }
{
    one_scenario();
    one_report();
}

/// A text has at most one text of JSON lines in a form, and one verdict on agreement.
pub fn one_json_of_text()
    ensures { (text : List ℕ) (s t : Scenario) (form : LinesForm) (told other : List ℕ) (agrees verdict : Bool)
        → ReadsText text s → ReadsText text t → IsWholeText s form told agrees → IsWholeText t form other verdict
        → (told ≡ other) × (agrees ≡ verdict) }
{
    one_scenario();
    one_text_of_lines();
}

/// The seeds of a sweep of a text have at most one text of lines.
pub fn one_sweep_of_text()
    ensures { (text : List ℕ) (s t : Scenario) (first count : ℕ) (told other : List ℕ) → ReadsText text s
        → ReadsText text t → Lines s first count told → Lines t first count other → told ≡ other }
{
    one_scenario();
    one_sweep();
}

/// Two answers of `explore` on one text are consistent, if the adversary's messages and the starts are the same, as
/// `scenario_explorer::one_exploration` says of two answers on one scenario.
pub fn one_exploration_of_text()
    ensures { (text : List ℕ) (asked other : ExploreOptions) (s t : Scenario) (mine theirs : Found)
        → AskOfSame asked other → ReadsText text s → ReadsText text t
        → IsFindingOf asked (bed_of asked s) (Begins asked s) mine
        → IsFindingOf other (bed_of other t) (Begins other t) theirs → AreConsistent mine theirs }
{
    one_scenario();
    one_exploration();
}

/// Each fault has its cause: `fault thread` is of a command that needs threads, and of a start that failed, `fault read` of
/// a call of `read` that failed or of a text that is too long, and `fault write` of a call of `write` that failed or took nothing. A command
/// that has no shape, and so reads nothing, ends with no `fault read` and no `fault thread`.
pub fn faults_have_causes()
    ensures thread { ThreadsHaveCause }
    ensures start { StartingHasCause }
    ensures read { ReadingHasCause }
    ensures write { WritingHasCause }
    ensures unshaped { UnshapedReadsNothing }
{}
