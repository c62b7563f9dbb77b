//! What the words of `explore` ask for.
ghost use Rattle.std.specs.Prelude.{◌≡◌, ◌⊎◌, IfErr, IfOk, IfSome, IsTrue, List, Ok, Some, map, ℕ};
ghost use Rattle.command_line.specs.declared.request.OptionsFault.TheVariants.{Memory};
ghost use Rattle.clap.specs.Matches.{found_of};
ghost use Rattle.command_line.specs.Explore.{AreImages, AsksExplore, AsksForm, AsksGraph, AsksMail, AsksMemories};
ghost use Rattle.command_line.specs.Explore.{ArePulses, AsksOdds, AsksQuestion, AsksReach, AsksStart, HasMail, IsMemoryImage, IsOddsText, IsShareText};

use crate::lists::{bytes_in, cells_in, mail_in, number_in};
use crate::options::{flag, number};
use crate::request::OptionsFault;
use clap::ArgMatches;
use command_words::options::{
    ASK, BYTES, CELLS, DEPTH, GRAPH, IMAGES, JSON_ANSWER, MAIL, MEBIBYTES, ODDS, REACH, SAID,
    START, STATES,
};
use hex::FromHexError;
use requests::{
    AnyStart, Cells, ExploreOptions, Form, GraphFormat, Mail, MailSpan, Memories, Question, Share,
    Starts,
};
use std::alloc::{AllocError, Global};

/// Why a text is no list of bytes.
const BYTES_REASON: &str =
    "the bytes are a list such as 0,254..255: numbers below 256, and ranges of them that rise";

/// Why a text doesn't say what bytes may be.
const CELLS_REASON: &str =
    "the cells are places and bytes such as 0=0..7,4=0,1: places and bytes below 256, and ranges that rise";

/// Why a text is no list of memories.
const IMAGES_REASON: &str =
    "the images are memories with commas between, each as pairs of hexadecimal digits";

/// Why a text is no share.
const REACH_REASON: &str =
    "the share is PARTS/WHOLE, as 99/100: at least 1, the parts at most the whole";

/// Why the state space isn't printed.
const GRAPH_REASON: &str =
    "--graph names the states from which clocks are synchronised: use --ask stabilisation or both";

/// Why a table has no least number of pulses.
const TABLE_REASON: &str =
    "a table of --odds FIRST..LAST has each number of pulses: use --odds LAST with --reach";

/// Returns what explore is asked for.
pub(crate) fn explore_options(
    alloc: Global,
    options: &ArgMatches<'_>,
) -> Result<ExploreOptions, OptionsFault>
    ensures { IfOk result (AsksExplore (found_of options.now)) }
{
    let question = question(options)?;
    let odds = odds_asked(options, question)?;
    let form = form_asked(options, odds)?;
    if is_graph(form) && !question.asks_stabilisation() {
        return Err(OptionsFault::Reason(GRAPH_REASON));
    }
    let mail = mail_asked(alloc, options)?;
    let start = start_asked(alloc, options)?;
    let reach = reach_asked(options)?;
    if is_table(form) && reach.is_some() {
        return Err(OptionsFault::Reason(TABLE_REASON));
    }
    Ok(ExploreOptions {
        question,
        mail,
        start,
        states: number(options, &STATES),
        depth: number(options, &DEPTH),
        memory: number(options, &MEBIBYTES),
        odds: odds.last,
        reach,
        form,
    })
}

/// Returns what is asked of a bench.
fn question(options: &ArgMatches<'_>) -> Result<Question, OptionsFault>
    ensures { IfOk result (AsksQuestion (found_of options.now)) }
{
    match options.get_str(ASK.name).unwrap_or("both") {
        "agreement" => Ok(Question::Agreement),
        "stabilisation" => Ok(Question::Stabilisation),
        "both" => Ok(Question::Both),
        _ => Err(OptionsFault::Reason("--ask is agreement, stabilisation or both")),
    }
}

/// The numbers of pulses whose odds are asked.
#[derive(Clone, Copy)]
pub(crate) struct OddsAsked {
    /// The first, if a table is asked.
    pub(crate) first: Option<u32>,
    /// The last, if any odds are asked.
    pub(crate) last: Option<u32>,
}

/// Returns the numbers of a text COUNT or FIRST..LAST.
fn odds_in(text: &str) -> Option<OddsAsked>
    ensures { IfSome result (IsOddsText text.now) }
{
    let odds = match text.split_once("..") {
        Some((first, last)) => OddsAsked {
            first: Some(number_in(first)?),
            last: Some(number_in(last)?),
        },
        None => OddsAsked {
            first: None,
            last: Some(number_in(text)?),
        },
    };
    Some(odds)
}

/// Returns true if the numbers of pulses are within their range, and rise.
fn are_pulses(odds: OddsAsked) -> bool
    ensures { IsTrue result → ArePulses odds }
{
    let last = odds.last.unwrap_or(1);
    let first = odds.first.unwrap_or(1);
    ODDS.least <= first && first <= last && last <= ODDS.most
}

/// Returns the numbers of pulses whose odds are asked, if the question is how clocks stabilise.
fn odds_asked(options: &ArgMatches<'_>, question: Question) -> Result<OddsAsked, OptionsFault>
    ensures { IfOk result (AsksOdds (found_of options.now)) }
{
    let Some(text) = options.get_str(ODDS.name) else {
        return Ok(OddsAsked {
            first: None,
            last: None,
        });
    };
    if !question.asks_stabilisation() {
        return Err(OptionsFault::Reason(
            "--odds asks how likely clocks stabilise: use --ask stabilisation or both",
        ));
    }
    match odds_in(text) {
        Some(odds) if are_pulses(odds) => Ok(odds),
        Some(_) | None => Err(OptionsFault::Odds),
    }
}

/// Returns the share of a text PARTS/WHOLE.
fn share_in(text: &str) -> Option<Share>
    ensures { IfSome result (IsShareText text.now) }
{
    let (parts, of) = text.split_once('/')?;
    Some(Share {
        parts: number_in(parts)?,
        of: number_in(of)?,
    })
}

/// Returns the share for which the least number of pulses is asked, if any is.
fn reach_asked(options: &ArgMatches<'_>) -> Result<Option<Share>, OptionsFault>
    ensures { IfOk result (AsksReach (found_of options.now)) }
{
    let Some(text) = options.get_str(REACH.name) else {
        return Ok(None);
    };
    match share_in(text) {
        Some(share) if 1 <= share.parts && share.parts <= share.of => Ok(Some(share)),
        Some(_) | None => Err(OptionsFault::Reason(REACH_REASON)),
    }
}

/// Returns true if a table of odds is asked.
fn is_table(form: Form) -> bool {
    match form {
        Form::OddsTable { .. } => true,
        Form::Text | Form::Json | Form::Graph(_) => false,
    }
}

/// Returns true if the state space is asked.
fn is_graph(form: Form) -> bool {
    match form {
        Form::Graph(_) => true,
        Form::Text | Form::Json | Form::OddsTable { .. } => false,
    }
}

/// Returns the format of a name, if there is one.
fn graph_in(name: &str) -> Option<GraphFormat>
    ensures { IfSome result (AsksGraph name.now) }
{
    match name {
        "dot" => Some(GraphFormat::Dot),
        "tra" => Some(GraphFormat::Transitions),
        "lab" => Some(GraphFormat::Labels),
        _ => None,
    }
}

/// Returns the form of the answer. A table of odds is a form of its own, and so is the state space.
fn form_asked(options: &ArgMatches<'_>, odds: OddsAsked) -> Result<Form, OptionsFault>
    ensures { IfOk result (AsksForm (found_of options.now) odds.first) }
{
    let json = flag(options, &JSON_ANSWER);
    let graph = options.get_str(GRAPH.name);
    match (odds.first, graph) {
        (None, None) if json => Ok(Form::Json),
        (None, None) => Ok(Form::Text),
        (Some(first), None) if !json => Ok(Form::OddsTable { first }),
        (None, Some(name)) if !json => match graph_in(name) {
            Some(format) => Ok(Form::Graph(format)),
            None => Err(OptionsFault::Reason("--graph is dot, tra or lab")),
        },
        _ => Err(OptionsFault::Reason(
            "--json, --graph and --odds FIRST..LAST are forms of the answer: take one of them",
        )),
    }
}

/// Returns the list of numbers of the option of this name, if it is there.
fn list_asked(
    alloc: Global,
    options: &ArgMatches<'_>,
    name: &str,
) -> Result<Option<Vec<MailSpan>>, OptionsFault>
    ensures { IfOk result (HasMail (found_of options.now) name.now) }
{
    match options.get_str(name) {
        Some(text) => Ok(Some(mail_in(alloc, text)?)),
        None => Ok(None),
    }
}

/// Returns the messages of nodes without a program, if they are named.
fn mail_asked(alloc: Global, options: &ArgMatches<'_>) -> Result<Option<Mail>, OptionsFault>
    ensures { IfOk result (AsksMail (found_of options.now)) }
{
    match options.get_str(MAIL.name) {
        None => Ok(None),
        Some("all") => Ok(Some(Mail::All)),
        Some(text) => Ok(Some(Mail::Listed(mail_in(alloc, text)?))),
    }
}

/// Returns the entries of the bytes of a text.
fn cells_named(
    named: Result<Option<Vec<Cells>>, AllocError>,
    reason: &'static str,
) -> Result<Vec<Cells>, OptionsFault>
    ensures { IfOk result (λ cells. named ≡ Ok (Some cells)) }
{
    match named {
        Ok(Some(cells)) => Ok(cells),
        Ok(None) => Err(OptionsFault::Reason(reason)),
        Err(_) => Err(OptionsFault::Memory),
    }
}

/// Returns the memory of a part of a list.
fn image_in(alloc: Global, part: &str) -> Result<Vec<u8>, OptionsFault>
    ensures image { IfOk result (λ image. IsMemoryImage part.now image.items) }
    ensures other { IfErr result (λ fault. (fault ≡ Memory) ⊎ ((image : List ℕ) → IsMemoryImage part.now image → ⊥)) }
{
    match hex::decode(alloc, part) {
        Ok(bytes) => Ok(bytes),
        Err(FromHexError::OutOfMemory) => Err(OptionsFault::Memory),
        Err(_) => Err(OptionsFault::Reason(IMAGES_REASON)),
    }
}

/// Returns the memories of a list.
fn images_in(alloc: Global, text: &str) -> Result<Vec<Vec<u8>>, OptionsFault>
    ensures images { IfOk result (λ images. AreImages text.now (map (λ v. v.items) images.items)) }
    ensures rejected { IfErr result (λ fault. (fault ≡ Memory)
        ⊎ ((images : List (List ℕ)) → AreImages text.now images → ⊥)) }
{
    let mut images = Vec::new(alloc);
    for part in text.split(',') {
        let image = match image_in(alloc, part) {
            Ok(image) => image,
            Err(fault) => return Err(fault),
        };
        if images.push(image).is_err() {
            return Err(OptionsFault::Memory);
        }
    }
    Ok(images)
}

/// Returns what memories may be at the start, if that is named.
fn memories_asked(alloc: Global, options: &ArgMatches<'_>) -> Result<Option<Memories>, OptionsFault>
    ensures { IfOk result (AsksMemories (found_of options.now)) }
{
    let bytes = options.get_str(BYTES.name);
    let cells = options.get_str(CELLS.name);
    let images = options.get_str(IMAGES.name);
    match (bytes, cells, images) {
        (None, None, None) => Ok(None),
        (Some(text), None, None) => {
            let cells = cells_named(bytes_in(alloc, text), BYTES_REASON)?;
            Ok(Some(Memories::Cells(cells)))
        }
        (None, Some(text), None) => {
            let cells = cells_named(cells_in(alloc, text), CELLS_REASON)?;
            Ok(Some(Memories::Cells(cells)))
        }
        (None, None, Some(text)) => Ok(Some(Memories::Images(images_in(alloc, text)?))),
        _ => Err(OptionsFault::Reason(
            "--bytes, --cells and --images name the same memories: take one of them",
        )),
    }
}

/// Returns the memories and messages at the start.
fn start_asked(alloc: Global, options: &ArgMatches<'_>) -> Result<Starts, OptionsFault>
    ensures { IfOk result (AsksStart (found_of options.now)) }
{
    let memories = memories_asked(alloc, options)?;
    let said = list_asked(alloc, options, SAID.name)?;
    let word = options.get_str(START.name).unwrap_or("zero");
    if word == "any" {
        return match memories {
            Some(memories) => Ok(Starts::Any(AnyStart { memories, said })),
            None => Err(OptionsFault::Reason(
                "--start any needs --bytes LIST, --cells LIST or --images LIST",
            )),
        };
    }
    if memories.is_some() || said.is_some() {
        return Err(OptionsFault::Reason(
            "--bytes, --cells, --images and --said go with --start any",
        ));
    }
    match word {
        "zero" => Ok(Starts::Zero),
        "every" => Ok(Starts::Every),
        _ => Err(OptionsFault::Reason("--start is zero, any or every")),
    }
}
