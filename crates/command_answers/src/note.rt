//! What is said after a refusal: where it comes from, and what to do.
ghost use Rattle.rule_notes.specs.Words.{IsNote};
ghost use Rattle.command_answers.specs.Said.{SaysNote};
ghost use Rattle.command_answers.specs.inner.Rejections.{IsRejectionOf};

use crate::rejection::{Rejection, Uncompiled, Unread};
use crate::trace_note::words_on_trace;
use bpf_asm::assemble;
use bpf_insn::decode;
use requests::{CompileOptions, NodeInPulse};
use rule_notes::{Note, line_parted, note_on_rule};
use rule_programs::RuleRefusal;
use rule_syntax::{Sizes, Statement};
use rule_text::read_rule;
use scenario_notes::{note_on, note_on_text, past_limit};
use scenario_text::Scenario;
use std::alloc::Global;
use std::str;
use stream_io::{Sink, write_fully};

/// How an ELF file begins.
const ELF_BEGINNING: &[u8] = b"\x7fELF";

/// What an input seems to be.
#[derive(Clone, Copy, Debug, PartialEq, Eq)]
pub enum Kind {
    Scenario,
    Rule,
    Assembler,
    Image,
}

impl Kind {
    /// Returns what to do with an input of this kind.
    fn words(self) -> &'static str {
        match self {
            Kind::Scenario => "this seems to be a scenario; clockbed run FILE runs it",
            Kind::Rule => "this seems to be a rule; clockbed compile FILE prints its image",
            Kind::Assembler =>
                "this seems to be assembler text; clockbed asm FILE prints its image, and verify --text FILE verifies it",
            Kind::Image =>
                "this seems to be an image; clockbed verify FILE verifies it, and dis FILE prints its text",
        }
    }
}

/// What is said in fixed words.
#[derive(Clone, Copy, Debug, PartialEq, Eq)]
pub enum Advice {
    /// An ELF file is in place of an image (docs/NODES_IN_C.md).
    Elf,
    /// A text is in place of an image.
    Text,
    /// It seems to be of another kind than what the command reads.
    Kind(Kind),
    /// The nodes and the memory are no shape.
    Shape,
    /// The numbers are no rule of clocks.
    Sizes,
    /// A rule has more words than the memory.
    Words,
    /// A rule has more numbers at once than there are places.
    Numbers,
    /// A rule is too long.
    Long,
    /// A scenario has no seed, and `sweep` needs one.
    Seed,
}

impl Advice {
    /// Returns the words of the note.
    fn words(self) -> &'static str {
        match self {
            Advice::Elf =>
                "this is an ELF file; an image is its .text alone: llvm-objcopy -O binary --only-section=.text FILE IMAGE",
            Advice::Text =>
                "this is a text; clockbed exec --text runs it, verify --text verifies it, and asm prints its image",
            Advice::Kind(kind) => kind.words(),
            Advice::Shape =>
                "--memory is a multiple of 8, from 8 to 256, and --nodes is from 1 to 64",
            Advice::Sizes => "--faults is less than --nodes, and --modulus is from 2 to 65536",
            Advice::Words =>
                "clock and each name of state take 4 bytes of the memory: use a greater --memory, or fewer names",
            Advice::Numbers =>
                "at most 131 numbers are in use at once, of let, count and unfinished terms: keep one in a name of state, or split a term",
            Advice::Long =>
                "a program has at most 2048 slots, and for and count are written out for each node: use fewer of both, or fewer --nodes",
            Advice::Seed =>
                "sweep runs a scenario once for each seed: it needs a key, and coins = \"chacha\" or a load of noise",
        }
    }
}

/// Returns the note with these words, if there is memory for it.
pub fn advised(alloc: Global, advice: Advice) -> Option<Note> {
    let words = String::from_str(alloc, advice.words()).ok()?;
    Note::of(alloc, words)
}

/// Returns the note on a rejection of these bytes, if there is something to say. If they seem to be of another kind than
/// what the command reads, the note says so.
pub(crate) fn rejection_note(alloc: Global, rejection: &Rejection, bytes: &[u8]) -> Option<Note>
    requires { IsRejectionOf bytes.now rejection.now }
{
    if let Some(kind) = other_kind(alloc, rejection, bytes) {
        return advised(alloc, Advice::Kind(kind));
    }
    match rejection {
        Rejection::Program(Unread::Image(_)) => advised(alloc, image_advice(bytes)?),
        Rejection::Program(Unread::Shape) => advised(alloc, Advice::Shape),
        Rejection::Program(Unread::Text(error)) => note_on_text(alloc, bytes, *error).ok()?,
        Rejection::Rule { why, options } => uncompiled_note(alloc, *options, bytes, *why),
        Rejection::Scenario(rejected) => note_on(alloc, bytes, rejected).ok()?,
    }
}

/// Returns what the bytes seem to be, if that isn't what the command reads. Where an image is read a text of the assembler
/// has advice of its own.
fn other_kind(alloc: Global, rejection: &Rejection, bytes: &[u8]) -> Option<Kind> {
    let kind = kind_of(alloc, bytes)?;
    let is_other = match rejection {
        Rejection::Program(Unread::Image(_)) => kind == Kind::Scenario || kind == Kind::Rule,
        Rejection::Program(Unread::Text(_)) => kind != Kind::Assembler,
        Rejection::Program(Unread::Shape) => false,
        Rejection::Rule {
            why: Uncompiled::Rule(RuleRefusal::Text { .. }),
            ..
        } => kind != Kind::Rule,
        Rejection::Rule { .. } => false,
        Rejection::Scenario(_) => kind != Kind::Scenario,
    };
    if is_other { Some(kind) } else { None }
}

/// Returns what an input seems to be: a text with a line of `nodes`, or what can be read.
fn kind_of(alloc: Global, bytes: &[u8]) -> Option<Kind> {
    if !is_text(bytes) {
        return decode(alloc, bytes).ok().map(|_program| Kind::Image);
    }
    if str::from_utf8(bytes)
        .ok()?
        .lines()
        .any(|line| sets_nodes(line))
    {
        return Some(Kind::Scenario);
    }
    if assemble(alloc, bytes).is_ok() {
        return Some(Kind::Assembler);
    }
    let rule = read_rule(alloc, bytes).ok()?;
    match rule.statement {
        Statement::Nothing => None,
        _ => Some(Kind::Rule),
    }
}

/// Returns true for a line that says how many nodes there are.
fn sets_nodes(line: &str) -> bool {
    match line.trim_start().strip_prefix("nodes") {
        Some(rest) => rest.trim_start().starts_with('='),
        None => false,
    }
}

/// Returns the note on a rule that has no program.
fn uncompiled_note(
    alloc: Global,
    options: CompileOptions,
    text: &[u8],
    why: Uncompiled,
) -> Option<Note> {
    match why {
        Uncompiled::Shape => advised(alloc, Advice::Shape),
        Uncompiled::Sizes => advised(alloc, Advice::Sizes),
        Uncompiled::Rule(
            RuleRefusal::Text {
                error,
                line,
                column,
            },
        ) => note_on_rule(alloc, text, error, line, column).ok()?,
        Uncompiled::Rule(RuleRefusal::NoRoom) => {
            match room_advice(alloc, options.shape.memory, text)? {
                Advice::Numbers => limit_note(alloc, options, text, Advice::Numbers),
                advice => advised(alloc, advice),
            }
        }
        Uncompiled::Rule(RuleRefusal::TooLong) => limit_note(alloc, options, text, Advice::Long),
    }
}

/// Returns the note on a rule past a limit, with a mark under the first statement that is.
fn limit_note(alloc: Global, options: CompileOptions, text: &[u8], advice: Advice) -> Option<Note> {
    let sizes = Sizes {
        nodes: options.shape.nodes,
        faults: options.faults,
        modulus: options.modulus,
        memory: options.shape.memory,
    };
    let Some((line, column)) = past_limit(alloc, text, sizes).ok()? else {
        return advised(alloc, advice);
    };
    let advice = advice.words();
    let words = format!(in alloc; "line {line}, column {column}: {advice}").ok()?;
    Note::marked(alloc, words, line_parted(text, line, column))
}

/// Returns what a rule has no room for.
fn room_advice(alloc: Global, memory: u32, text: &[u8]) -> Option<Advice> {
    let rule = read_rule(alloc, text).ok()?;
    if rule.words > (memory / 4) as usize {
        Some(Advice::Words)
    } else {
        Some(Advice::Numbers)
    }
}

/// Returns what bytes are that are no image, if that is known.
fn image_advice(bytes: &[u8]) -> Option<Advice> {
    if bytes.starts_with(ELF_BEGINNING) {
        Some(Advice::Elf)
    } else if is_text(bytes) {
        Some(Advice::Text)
    } else {
        None
    }
}

/// Returns true if the bytes are UTF-8, not empty, and without control characters that texts don't have.
fn is_text(bytes: &[u8]) -> bool {
    bytes.len() > 0
        && str::from_utf8(bytes).is_ok()
        && bytes.iter().all(|byte| may_be_of_text(*byte))
}

fn may_be_of_text(byte: u8) -> bool {
    !byte.is_ascii_control() || byte.is_ascii_whitespace()
}

/// Returns the note on what a scenario has in place of a node in a pulse.
pub fn place_note(alloc: Global, place: NodeInPulse, scenario: &Scenario) -> Option<Note> {
    let words = words_on_trace(alloc, place, scenario).ok()?;
    Note::of(alloc, words)
}

/// Says a note, if there is memory for its text, up to the first call of `write` that fails or takes nothing.
pub(crate) fn say<E: Sink>(alloc: Global, note: &Note, err: &mut E)
    ensures { SaysNote (E.contents err.old) (E.contents err.new) }
{
    if let Some(text) = note.text(alloc) {
        say_text(text.as_str().as_bytes(), err);
    }
}

fn say_text<E: Sink>(text: &[u8], err: &mut E)
    requires note { IsNote text.now }
    ensures { SaysNote (E.contents err.old) (E.contents err.new) }
{
    let _ = write_fully(err, text);
}
