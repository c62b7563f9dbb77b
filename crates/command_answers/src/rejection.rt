//! Why a request has nothing to work on, and how that is said.
ghost use Rattle.std.specs.Prelude.{◌≡◌, ◌++◌, Some, IfErr, IfOk, codes};
ghost use Rattle.command_answers.specs.declared.ending.Ending.TheVariants.{Refused};
ghost use Rattle.command_answers.specs.inner.Rejections.{IsRejectionOf, rejection_line};
ghost use Rattle.command_answers.specs.inner.Responses.{IsNoted};
ghost use Rattle.command_answers.specs.Faults.{HasWriteCause, IsOutOfMemory};
ghost use Rattle.command_answers.specs.Output.{Leaves};
ghost use Rattle.command_answers.specs.Said.{SaysAt};
ghost use Rattle.command_answers.specs.Rejections.{uncompiled_line, unread_line};

use crate::ending::Ending;
use crate::fault::Fault;
use crate::note::rejection_note;
use crate::response::{Response, give};
use bpf_asm::TextError;
use bpf_insn::ImageError;
use requests::CompileOptions;
use rule_programs::RuleRefusal;
use scenario_text::{RefusalLine, Rejected};
use std::alloc::Global;
use std::fmt;
use stream_io::Sink;

/// Why there is no program to work on. Its text is the line of the refusal, without its end.
#[derive(Clone, Copy, Debug, PartialEq, Eq)]
pub enum Unread {
    /// The nodes and the memory that are asked for make no shape.
    Shape,
    /// The bytes are the image of no program.
    Image(ImageError),
    /// The text means no program.
    Text(TextError),
}

/// Why a rule has no program. Its text is the line of the refusal, without its end.
#[derive(Clone, Copy, Debug, PartialEq, Eq)]
pub enum Uncompiled {
    /// The nodes and the memory that are asked for make no shape.
    Shape,
    /// The nodes, the faults and the modulus make no rule of clocks.
    Sizes,
    /// The text has no program.
    Rule(RuleRefusal),
}

/// Why a request has nothing to work on, whatever it reads. Its text is the line of the refusal, without its end.
#[derive(Debug, Drop)]
pub enum Rejection {
    Program(Unread),
    /// The rule was to be compiled with these options.
    Rule {
        why: Uncompiled,
        options: CompileOptions,
    },
    Scenario(Rejected),
}

/// Returns the line of a rejection of these bytes, and the note on it.
pub fn rejected(alloc: Global, rejection: &Rejection, bytes: &[u8]) -> Result<Response, Fault>
    requires { IsRejectionOf bytes.now rejection.now }
    ensures text { IfOk result (λ response. response.text.items ≡ rejection_line rejection.now ++ codes "\n") }
    ensures ending { IfOk result (λ response. response.ending ≡ Refused) }
    ensures noted { IfOk result IsNoted }
    ensures fault { IfErr result IsOutOfMemory }
{
    let line = format!(in alloc; "{rejection}\n").map_err(|_| Fault::Memory)?;
    Ok(Response {
        text: line.into_bytes(),
        ending: Ending::Refused,
        note: rejection_note(alloc, rejection, bytes),
    })
}

/// Writes the line of a rejection of these bytes, and says the note on it on `err`.
pub fn reject<W: Sink, E: Sink>(
    alloc: Global,
    rejection: &Rejection,
    bytes: &[u8],
    out: &mut W,
    err: &mut E,
) -> Result<Ending, Fault>
    requires { IsRejectionOf bytes.now rejection.now }
    ensures left { Leaves (W.contents out.old) (W.contents out.new) (rejection_line rejection.now ++ codes "\n") Refused
        result }
    ensures said { IfOk result (λ ending. SaysAt ending (E.contents err.old) (E.contents err.new)) }
    ensures unsaid { IfErr result (λ fault. E.contents err.new ≡ E.contents err.old) }
    ensures cause { IfErr result (HasWriteCause (W.has_failed out.new)) }
{
    give(alloc, rejected(alloc, rejection, bytes), out, err)
}

impl fmt::Display for Unread {
    ghost output = { λ unread. Some (unread_line unread) };

    fn fmt<W: fmt::Write>(&self, f: &mut fmt::Formatter<W>) -> fmt::Result {
        match self {
            Unread::Shape => write!(f, "refused shape"),
            Unread::Image(error) => write!(f, "refused image {error}"),
            Unread::Text(error) => write!(f, "refused text {error}"),
        }
    }
}

impl fmt::Display for Uncompiled {
    ghost output = { λ why. Some (uncompiled_line why) };

    fn fmt<W: fmt::Write>(&self, f: &mut fmt::Formatter<W>) -> fmt::Result {
        match self {
            Uncompiled::Shape => write!(f, "refused shape"),
            Uncompiled::Sizes => write!(f, "refused sizes"),
            Uncompiled::Rule(
                RuleRefusal::Text {
                    error,
                    line,
                    column,
                },
            ) => {
                let name = error.name();
                write!(f, "refused rule {name} line {line} column {column}")
            }
            Uncompiled::Rule(RuleRefusal::NoRoom) => write!(f, "refused rule NoRoom"),
            Uncompiled::Rule(RuleRefusal::TooLong) => write!(f, "refused rule TooLong"),
        }
    }
}

impl fmt::Display for Rejection {
    ghost output = { λ rejection. Some (rejection_line rejection) };

    fn fmt<W: fmt::Write>(&self, f: &mut fmt::Formatter<W>) -> fmt::Result {
        match self {
            Rejection::Program(unread) => write!(f, "{unread}"),
            Rejection::Rule { why, .. } => write!(f, "{why}"),
            Rejection::Scenario(rejected) => write!(f, "{}", RefusalLine(&rejected.error)),
        }
    }
}
