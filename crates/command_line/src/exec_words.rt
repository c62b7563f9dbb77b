//! What the words of `exec` ask for.
ghost use Rattle.std.specs.Prelude.{◌≡◌, ◌↔◌, ℕ, IfErr, IfOk, IsTrue, Option, codes};
ghost use Rattle.clap.specs.Matches.{found_of};
ghost use Rattle.command_line.specs.Lists.{AreContents, AreMailSlots, AreNoContents, IsMailSlot, IsNoMail};
ghost use Rattle.command_line.specs.declared.exec_words.CaseFault.TheVariants.{Mail};
ghost use Rattle.command_line.specs.Requests.{AsksCase, AsksExec, HasContents, HasSlots};
ghost use Rattle.command_line.specs.Numbers.{OptionHasNumber};

use crate::options::{flag, long_number, number, number_if_named};
use crate::request::shape_options;
use clap::ArgMatches;
use command_words::options::{COIN, CONTENTS, FUEL, ID, INBOX, SHOW, STEPS, TEXT};
use hex::FromHexError;
use requests::{Case, ExecOptions, ShapeOptions};
use std::alloc::Global;

/// Why the values of options make no case.
#[derive(Clone, Copy)]
pub(crate) enum CaseFault {
    Id,
    Mail,
    Contents,
    Memory,
}

/// Returns what `exec` is asked for, where the values make a case of the shape.
pub(crate) fn exec_options(
    alloc: Global,
    options: &ArgMatches<'_>,
) -> Result<ExecOptions, CaseFault>
    ensures { IfOk result (AsksExec (found_of options.now)) }
{
    let shape = shape_options(options);
    let case = case_in(alloc, options, shape)?;
    if case.id >= shape.nodes {
        return Err(CaseFault::Id);
    }
    Ok(ExecOptions {
        shape,
        text: flag(options, &TEXT),
        fuel: long_number(options, &FUEL),
        case,
        show: flag(options, &SHOW),
        trace: flag(options, &STEPS),
    })
}

fn case_in(alloc: Global, options: &ArgMatches<'_>, shape: ShapeOptions) -> Result<Case, CaseFault>
    ensures { IfOk result (AsksCase (found_of options.now) shape) }
{
    let mut case = Case::bare(alloc);
    case.id = number(options, &ID);
    case.coin = coin_asked(options);
    case.mail = mail_asked(alloc, options, shape.nodes)?;
    case.contents = contents_asked(alloc, options, shape.memory)?;
    Ok(case)
}

/// Returns true if the coin is 1.
fn coin_asked(options: &ArgMatches<'_>) -> bool
    ensures { IsTrue result ↔ OptionHasNumber 32 (found_of options.now) COIN.name.now (Some 1) }
{
    number_if_named(options, &COIN) == Some(1)
}

/// Returns the mail, which is empty if none is named.
fn mail_asked(
    alloc: Global,
    options: &ArgMatches<'_>,
    nodes: u32,
) -> Result<Vec<Option<u32>>, CaseFault>
    ensures { IfOk result (λ mail. HasSlots (found_of options.now) nodes mail.items) }
{
    match options.get_str(INBOX.name) {
        Some(list) => mail_in(alloc, list, nodes),
        None => Ok(Vec::new(alloc)),
    }
}

/// Returns the contents of the memory, which are empty if none are named.
fn contents_asked(alloc: Global, options: &ArgMatches<'_>, room: u32) -> Result<Vec<u8>, CaseFault>
    ensures { IfOk result (λ contents. HasContents (found_of options.now) room contents.items) }
{
    match options.get_str(CONTENTS.name) {
        Some(text) => contents_in(alloc, text, room),
        None => Ok(Vec::new(alloc)),
    }
}

/// Returns the mail of a list that has as many places as there are nodes.
fn mail_in(alloc: Global, list: &str, nodes: u32) -> Result<Vec<Option<u32>>, CaseFault>
    ensures mail { IfOk result (λ mail. AreMailSlots nodes list.now mail.items) }
    ensures rejected { IfErr result (IsNoMail nodes list.now) }
{
    let mut mail = Vec::new(alloc);
    for word in list.split(',') {
        let slot = match slot_in(word) {
            Ok(slot) => slot,
            Err(fault) => return Err(fault),
        };
        if mail.push(slot).is_err() {
            return Err(CaseFault::Memory);
        }
    }
    if mail.len() == nodes as usize {
        Ok(mail)
    } else {
        Err(CaseFault::Mail)
    }
}

/// Returns a number, or a dash for none.
fn slot_in(word: &str) -> Result<Option<u32>, CaseFault>
    ensures slot { IfOk result (IsMailSlot word.now) }
    ensures other { IfErr result (λ fault. (fault ≡ Mail) × ((slot : Option ℕ) → IsMailSlot word.now slot → ⊥)) }
{
    if word == "-" {
        return Ok(None);
    }
    match word.parse() {
        Ok(number) => Ok(Some(number)),
        Err(_) => Err(CaseFault::Mail),
    }
}

/// Bytes for which there is room.
fn contents_in(alloc: Global, text: &str, room: u32) -> Result<Vec<u8>, CaseFault>
    ensures contents { IfOk result (λ contents. AreContents room text.now contents.items) }
    ensures rejected { IfErr result (AreNoContents room text.now) }
{
    match hex::decode(alloc, text) {
        Ok(bytes) if bytes.len() <= room as usize => Ok(bytes),
        Err(FromHexError::OutOfMemory) => Err(CaseFault::Memory),
        Ok(_) | Err(_) => Err(CaseFault::Contents),
    }
}

impl CaseFault {
    /// Returns why, to one who wrote the words.
    pub(crate) fn reason(self) -> &'static str {
        match self {
            CaseFault::Id => "the id is a node's: below the number of nodes",
            CaseFault::Mail => {
                "the mail is a list with a place for each node: a number below 4294967296, or - for none"
            }
            CaseFault::Contents => {
                "the contents are pairs of hexadecimal digits, at most as many as the memory has bytes"
            }
            CaseFault::Memory => "memory ran out",
        }
    }
}
