//! What a command answers, and how that is written.
ghost use Rattle.std.specs.Prelude.{◌≡◌, false, IfErr, IfOk};
ghost use Rattle.command_answers.specs.Faults.{HasWriteCause};
ghost use Rattle.command_answers.specs.Said.{SaysAt};
ghost use Rattle.command_answers.specs.inner.Responses.{Gives, IsNoted, Writes};

use crate::ending::Ending;
use crate::fault::Fault;
use crate::note::say;
use crate::output::write_text;
use rule_notes::Note;
use std::alloc::Global;
use stream_io::Sink;

/// The text of an answer, how the command ends, and the note on it.
#[derive(Drop)]
pub struct Response {
    pub text: Vec<u8>,
    pub ending: Ending,
    pub note: Option<Note>,
}

impl Response {
    ghost use Rattle.std.specs.Prelude.{◌≡◌, None};
    ghost use Rattle.command_answers.specs.declared.ending.Ending.TheVariants.{Done};

    /// Returns the text of a result.
    pub fn done(text: Vec<u8>) -> Response
        ensures text { result.text.items ≡ text.items }
        ensures ending { result.ending ≡ Done }
        ensures note { result.note ≡ None }
    {
        Response::without_note(text, Ending::Done)
    }

    /// Returns a text on which there is no note.
    pub fn without_note(text: Vec<u8>, ending: Ending) -> Response
        ensures text { result.text.items ≡ text.items }
        ensures ending { result.ending ≡ ending }
        ensures note { result.note ≡ None }
    {
        Response {
            text,
            ending,
            note: None,
        }
    }
}

/// Writes the text of a response, and then says its note on `err`.
#[tactic(auto, using(crate::proofs::SaidLemmas::said_at))]
fn write_response<W: Sink, E: Sink>(
    alloc: Global,
    response: &Response,
    out: &mut W,
    err: &mut E,
) -> Result<Ending, Fault>
    requires { IsNoted response.now }
    ensures left { Writes (W.contents out.old) (W.contents out.new) response.now.text.items response.now.ending result }
    ensures said { IfOk result (λ ending. SaysAt ending (E.contents err.old) (E.contents err.new)) }
    ensures unsaid { IfErr result (λ fault. E.contents err.new ≡ E.contents err.old) }
    ensures cause { IfErr result (HasWriteCause (W.has_failed out.new)) }
{
    write_text(out, &response.text)?;
    if let Some(note) = &response.note {
        say(alloc, note, err);
    }
    Ok(response.ending)
}

/// Writes the response, if there is one.
pub fn give<W: Sink, E: Sink>(
    alloc: Global,
    given: Result<Response, Fault>,
    out: &mut W,
    err: &mut E,
) -> Result<Ending, Fault>
    requires { IfOk given IsNoted }
    ensures left { Gives (W.contents out.old) (W.contents out.new) given result }
    ensures said { IfOk result (λ ending. SaysAt ending (E.contents err.old) (E.contents err.new)) }
    ensures unsaid { IfErr result (λ fault. E.contents err.new ≡ E.contents err.old) }
    ensures cause { IfErr given (HasWriteCause false) → IfErr result (HasWriteCause (W.has_failed out.new)) }
{
    match given {
        Ok(response) => write_response(alloc, &response, out, err),
        Err(fault) => Err(fault),
    }
}
