//! `--images @FILE`: the memories that a file lists, in place of the word that names it (docs/EXPLORE_REFERENCE.md).
//! `--rule FILE` and `--claims FILE`, also as one word with `=`: the text of a file, likewise (docs/ALL_SIZES.md).
ghost use Rattle.std.specs.Prelude.{◌≡◌, ◌↔◌, ◌≤◌, IfErr, IfOk, IsTrue, List, MatchOption, None, OnOk, length, map, option_map, string_bytes, ℕ};
ghost use Rattle.clockbed.specs.Words.{AreWordsFor, FollowsOption, FollowsTextOption, IsFaultOfWords, IsListInFile, IsListWordFor};
ghost use Rattle.clockbed.specs.Words.{IsTextInFile, IsTextWordFor, IsWordFor, JoinsFile, NamesAny, NamesFile, NamesSome};
ghost use Rattle.clockbed.specs.Words.{line_image, list_of_text, with_image, with_line};
ghost use Rattle.clockbed.specs.declared.images.TheConstants.{MAX_FILE_BYTES};
ghost use Rattle.command_answers.specs.Faults.{IsOfCommandLine};

use crate::failed::Failed;
use crate::outside::Opener;
use crate::source::FailureReason;
use command_answers::Fault;
use std::alloc::{AllocError, Global};
use std::convert::AsStr;
use std::str;
use stream_io::{ReadFault, read_at_most};

/// The option whose value can name a file.
const OPTION: &str = "--images";

/// The option and the name of a file in one word, up to the name.
const OPTION_WITH_FILE: &str = "--images=@";

/// The options whose values are the text of a file.
const RULE_OPTION: &str = "--rule";

const CLAIMS_OPTION: &str = "--claims";

/// Such an option and the name of a file in one word, up to the name.
const RULE_WITH_FILE: &str = "--rule=";

const CLAIMS_WITH_FILE: &str = "--claims=";

/// These options, as a fault names them.
const TEXT_OPTION_NAMES: &str = "--rule or --claims";

/// What stands before the name of a file.
const MARK: char = '@';

/// The most bytes of such a file that are read, and the most calls of `read`.
const MAX_FILE_BYTES: usize = 1_048_576;

const MAX_FILE_CALLS: usize = 65_536;

/// Returns true if the word before is the option.
fn follows_option(before: Option<&str>) -> bool
    ensures { IsTrue result ↔ FollowsOption (option_map (λ word. word.now) before.entry) }
{
    match before {
        Some(word) => word == OPTION,
        None => false,
    }
}

/// Returns the path of the file that a word names.
fn file_named<'a>(before: Option<&str>, word: &'a str) -> Option<&'a str>
    ensures { MatchOption result
        ((path : List ℕ) → NamesFile (option_map (λ word. word.now) before.entry) word.now path → ⊥)
        (λ path. NamesFile (option_map (λ word. word.now) before.entry) word.now path.now) }
{
    if follows_option(before) {
        word.strip_prefix(MARK)
    } else {
        word.strip_prefix(OPTION_WITH_FILE)
    }
}

/// Returns the memory of a line. What follows a `#` is a comment.
fn image_of(line: &str) -> &str
    ensures { result.now ≡ line_image line.now }
{
    match line.split_once('#') {
        Some((image, _comment)) => image.trim(),
        None => line.trim(),
    }
}

/// Adds a memory to the list, if there is one.
fn add_image(list: &mut String, image: &str) -> Result<(), AllocError>
    ensures { OnOk result (string_bytes list.new ≡ with_image (string_bytes list.old) image.now) }
{
    if image.is_empty() {
        return Ok(());
    }
    if !list.is_empty() {
        list.push_str(",")?;
    }
    list.push_str(image)
}

/// Returns the memories of a text, a line each, with commas between.
fn listed(alloc: Global, text: &str) -> Result<String, AllocError>
    ensures { IfOk result (λ list. string_bytes list ≡ list_of_text text.now) }
{
    let mut list = String::new(alloc);
    for line in text.lines() {
        add_image(&mut list, image_of(line))?;
    }
    Ok(list)
}

/// Returns the fault of a file of too many bytes.
fn too_long(alloc: Global, option: &str) -> Fault
    ensures { IsOfCommandLine result }
{
    match format!(in alloc; "error: a file of {option} has at most {MAX_FILE_BYTES} bytes\n") {
        Ok(text) => Fault::CommandLine { text },
        Err(_) => Fault::Memory,
    }
}

/// Returns the list of a file's bytes.
fn list_in(alloc: Global, bytes: &[u8]) -> Result<String, Fault>
    ensures list { IfOk result (λ list. string_bytes list ≡ list_of_text bytes.now) }
    ensures fault { IfErr result IsOfCommandLine }
{
    match str::from_utf8(bytes) {
        Ok(text) => listed(alloc, text).map_err(|_| Fault::Memory),
        Err(_) => Err(Fault::of_command_line(alloc, "error: a file of --images is not UTF-8\n")),
    }
}

/// Returns the bytes of the file at this path, which an option names.
fn bytes_at<O: Opener>(
    alloc: Global,
    opener: &O,
    path: &str,
    option: &str,
) -> Result<Vec<u8>, Failed>
    ensures bytes { IfOk result (λ read. IsTextInFile (O.files opener.now path.now) read.items) }
    ensures fault { IfErr result (λ failed. IsFaultOfWords (Unit {0}) failed.fault) }
{
    let owned = String::from_str(alloc, path)?;
    let mut file = match opener.open(path) {
        Ok(file) => file,
        Err(error) => return Err(Failed::at(owned, Some(error))),
    };
    match read_at_most(alloc, &mut file, MAX_FILE_BYTES + 1, MAX_FILE_CALLS) {
        Ok(bytes) => {
            if bytes.len() > MAX_FILE_BYTES {
                return Err(Failed::of(too_long(alloc, option)));
            }
            Ok(bytes)
        }
        Err(ReadFault::Memory) => Err(Failed::of(Fault::Memory)),
        Err(ReadFault::Stream) => Err(Failed::at(owned, file.reason())),
    }
}

/// Returns the list of the file at this path.
fn list_at<O: Opener>(alloc: Global, opener: &O, path: &str) -> Result<String, Failed>
    ensures list { IfOk result (λ list. IsListInFile (O.files opener.now path.now) (string_bytes list)) }
    ensures fault { IfErr result (λ failed. IsFaultOfWords (Unit {0}) failed.fault) }
{
    let bytes = bytes_at(alloc, opener, path, OPTION)?;
    list_in(alloc, bytes.as_slice()).map_err(|fault| Failed::of(fault))
}

/// Returns the text of a file's bytes.
fn text_in(alloc: Global, bytes: &[u8]) -> Result<String, Fault>
    ensures text { IfOk result (λ text. string_bytes text ≡ bytes.now) }
    ensures fault { IfErr result IsOfCommandLine }
{
    match str::from_utf8(bytes) {
        Ok(text) => String::from_str(alloc, text).map_err(|_| Fault::Memory),
        Err(_) => Err(Fault::of_command_line(
            alloc,
            "error: a file of --rule or --claims is not UTF-8\n",
        )),
    }
}

/// Returns the text of the file at this path.
fn text_at<O: Opener>(alloc: Global, opener: &O, path: &str) -> Result<String, Failed>
    ensures text { IfOk result (λ text. IsTextInFile (O.files opener.now path.now) (string_bytes text)) }
    ensures fault { IfErr result (λ failed. IsFaultOfWords (Unit {0}) failed.fault) }
{
    let bytes = bytes_at(alloc, opener, path, TEXT_OPTION_NAMES)?;
    text_in(alloc, bytes.as_slice()).map_err(|fault| Failed::of(fault))
}

/// Returns true if the word before is an option whose value is the text of a file.
fn follows_text_option(before: Option<&str>) -> bool
    ensures { IsTrue result ↔ FollowsTextOption (option_map (λ word. word.now) before.entry) }
{
    match before {
        Some(word) => word == RULE_OPTION || word == CLAIMS_OPTION,
        None => false,
    }
}

/// Returns the word itself, the text of the file that it names, or the option with the list of that file.
fn word_for<O: Opener>(
    alloc: Global,
    opener: &O,
    before: Option<&str>,
    word: &str,
) -> Result<String, Failed>
    ensures word { IfOk result (λ made.
        IsWordFor (O.files opener.now) (option_map (λ word. word.now) before.entry) word.now (string_bytes made)) }
    ensures fault { IfErr result (λ failed.
        IsFaultOfWords (NamesAny (option_map (λ word. word.now) before.entry) word.now) failed.fault) }
{
    if follows_text_option(before) {
        text_at(alloc, opener, word)
    } else {
        text_word_for(alloc, opener, before, word)
    }
}

/// An option of a text and the path of its file, from one word.
#[derive(Clone, Copy)]
struct JoinedFile<'a> {
    option: &'a str,
    path: &'a str,
}

/// Returns the option and the path that a word joins, if it does.
fn joined_file(word: &str) -> Option<JoinedFile<'_>>
    ensures { MatchOption result ((option path : List ℕ) → JoinsFile word.now option path → ⊥)
        (λ joined. JoinsFile word.now joined.option.now joined.path.now) }
{
    if let Some(path) = word.strip_prefix(RULE_WITH_FILE) {
        let option = RULE_WITH_FILE;
        return Some(JoinedFile { option, path });
    }
    let path = word.strip_prefix(CLAIMS_WITH_FILE)?;
    let option = CLAIMS_WITH_FILE;
    Some(JoinedFile { option, path })
}

/// Returns the word itself, or the option with the text or the list of the file that the word names.
fn text_word_for<O: Opener>(
    alloc: Global,
    opener: &O,
    before: Option<&str>,
    word: &str,
) -> Result<String, Failed>
    ensures word { IfOk result (λ made.
        IsTextWordFor (O.files opener.now) (option_map (λ word. word.now) before.entry) word.now (string_bytes made)) }
    ensures fault { IfErr result (λ failed.
        IsFaultOfWords (NamesAny (option_map (λ word. word.now) before.entry) word.now) failed.fault) }
{
    let Some(JoinedFile { option, path }) = joined_file(word) else {
        return list_word_for(alloc, opener, before, word);
    };
    let text = text_at(alloc, opener, path)?;
    Ok(format!(in alloc; "{option}{text}")?)
}

/// Returns the word itself, or the option with the list of the file that the word names.
fn list_word_for<O: Opener>(
    alloc: Global,
    opener: &O,
    before: Option<&str>,
    word: &str,
) -> Result<String, Failed>
    ensures word { IfOk result (λ made.
        IsListWordFor (O.files opener.now) (option_map (λ word. word.now) before.entry) word.now (string_bytes made)) }
    ensures fault { IfErr result (λ failed. IsFaultOfWords
        ((path : List ℕ) × NamesFile (option_map (λ word. word.now) before.entry) word.now path) failed.fault) }
{
    let Some(path) = file_named(before, word) else {
        return Ok(String::from_str(alloc, word)?);
    };
    let list = list_at(alloc, opener, path)?;
    if follows_option(before) {
        Ok(list)
    } else {
        Ok(format!(in alloc; "{OPTION}={list}")?)
    }
}

/// Returns the words, with what a file lists in place of its name.
pub fn with_lists<O: Opener, S: AsStr>(
    alloc: Global,
    opener: &O,
    words: &[S],
) -> Result<Vec<String>, Failed>
    ensures words { IfOk result (λ made. AreWordsFor (O.files opener.now) None (map S.text words.now)
        (map (λ word. string_bytes word) made.items)) }
    ensures fault { IfErr result (λ failed. IsFaultOfWords (NamesSome None (map S.text words.now)) failed.fault) }
{
    let mut all = Vec::new(alloc);
    let mut before: Option<&str> = None;
    for word in words {
        let text = word.as_str();
        let made = word_for(alloc, opener, before, text)?;
        all.push(made).map_err(|_| Failed::of(Fault::Memory))?;
        before = Some(text);
    }
    Ok(all)
}
