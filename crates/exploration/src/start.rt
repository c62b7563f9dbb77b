//! The memories and messages at the start, as text.
ghost use Rattle.std.specs.Prelude.{◌≡◌, ◌++◌, IfOk, OnOk, Some, flat_map, map, string_bytes, take};
ghost use Rattle.exploration.specs.Answers.{byte_span_text, cells_text, image_text, images_shown, images_text, memories_with, start_images, start_with, state_word_text};

use crate::nodes::{Range, Spans};
use explored::{ByteSpan, Cells, MailSpan, Memories, Starts};
use std::alloc::{AllocError, Global};
use std::fmt;

/// How many bytes a word of a memory has.
const WORD_BYTES: u32 = 4;

/// The most whole memories that a line has.
const IMAGES_SHOWN: usize = 8;

/// The bytes of spans, each span after a blank.
#[derive(Clone, Copy)]
struct ByteSpans<'a>(&'a [ByteSpan]);

impl fmt::Display for ByteSpans<'_> {
    ghost output = { λ spans. Some (flat_map byte_span_text spans.0.now) };

    fn fmt<W: fmt::Write>(&self, f: &mut fmt::Formatter<W>) -> fmt::Result {
        for span in self.0 {
            let range = Range {
                first: u32::from(span.first),
                last: u32::from(span.last),
            };
            write!(f, "{range}")?;
        }
        Ok(())
    }
}

/// Places of a memory whose words may have names.
#[derive(Clone, Copy)]
struct Places<'a> {
    words: &'a [String],
    cells: &'a Cells,
}

/// The name of the word in which the places lie, if it has one.
#[derive(Clone, Copy)]
struct WordName<'a>(Places<'a>);

impl fmt::Display for WordName<'_> {
    ghost output = { λ name. Some (state_word_text (map string_bytes name.0.words.now) name.0.cells.now) };

    fn fmt<W: fmt::Write>(&self, f: &mut fmt::Formatter<W>) -> fmt::Result {
        let Places { words, cells } = self.0;
        let number = cells.first / WORD_BYTES;
        if number != cells.last / WORD_BYTES {
            return Ok(());
        }
        match words.get(number as usize) {
            Some(word) => write!(f, " ({word})"),
            None => Ok(()),
        }
    }
}

impl fmt::Display for Places<'_> {
    ghost output = { λ places. Some (cells_text (map string_bytes places.words.now) places.cells.now) };

    fn fmt<W: fmt::Write>(&self, f: &mut fmt::Formatter<W>) -> fmt::Result {
        let name = WordName(*self);
        let range = Range {
            first: self.cells.first,
            last: self.cells.last,
        };
        let values = ByteSpans(&self.cells.values);
        if self.cells.first == self.cells.last {
            write!(f, " byte{range}{name} of{values},")
        } else {
            write!(f, " bytes{range}{name} of{values},")
        }
    }
}

/// The entries of a start.
#[derive(Clone, Copy)]
struct AllPlaces<'a> {
    words: &'a [String],
    all: &'a [Cells],
}

impl fmt::Display for AllPlaces<'_> {
    ghost output = { λ places. Some (flat_map (cells_text (map string_bytes places.words.now)) places.all.now) };

    fn fmt<W: fmt::Write>(&self, f: &mut fmt::Formatter<W>) -> fmt::Result {
        let words = self.words;
        for cells in self.all {
            let places = Places { words, cells };
            write!(f, "{places}")?;
        }
        Ok(())
    }
}

/// The memories at the start, with the text of whole memories.
#[derive(Clone, Copy)]
struct MemoriesText<'a> {
    words: &'a [String],
    digits: &'a str,
    memories: &'a Memories,
}

impl fmt::Display for MemoriesText<'_> {
    ghost output = { λ text. Some (memories_with (map string_bytes text.words.now) text.digits.now text.memories.now) };

    fn fmt<W: fmt::Write>(&self, f: &mut fmt::Formatter<W>) -> fmt::Result {
        let MemoriesText { words, digits, .. } = *self;
        match self.memories {
            Memories::Cells(all) => write!(f, "{}", AllPlaces { words, all }),
            Memories::Images(_) => write!(f, " memories of{digits},"),
        }
    }
}

/// The memories and messages at the start, with the text of whole memories.
#[derive(Clone, Copy)]
pub(crate) struct StartText<'a> {
    pub(crate) words: &'a [String],
    pub(crate) digits: &'a str,
    pub(crate) said: &'a [MailSpan],
    pub(crate) start: &'a Starts,
}

impl fmt::Display for StartText<'_> {
    ghost output = { λ text.
        Some (start_with (map string_bytes text.words.now) text.digits.now text.said.now text.start.now) };

    fn fmt<W: fmt::Write>(&self, f: &mut fmt::Formatter<W>) -> fmt::Result {
        match self.start {
            Starts::Zero => Ok(()),
            Starts::Any(any) => {
                let memories = MemoriesText {
                    words: self.words,
                    digits: self.digits,
                    memories: &any.memories,
                };
                let spans = Spans(self.said);
                write!(f, ", any start:{memories} messages none{spans}")
            }
            Starts::Every => write!(f, ", every start"),
        }
    }
}

/// Returns the whole memories that a line has.
fn shown_images(images: &[Vec<u8>]) -> &[Vec<u8>]
    ensures { result.now ≡ take images_shown images.now }
{
    if images.len() <= IMAGES_SHOWN {
        images
    } else {
        &images[..IMAGES_SHOWN]
    }
}

/// Adds whole memories, each after a blank.
fn add_images(alloc: Global, text: &mut String, images: &[Vec<u8>]) -> Result<(), AllocError>
    ensures { OnOk result (string_bytes text.new
        ≡ string_bytes text.old ++ flat_map image_text (map (λ v. v.items) images.now)) }
{
    for image in images {
        let digits = hex::encode(alloc, image.as_slice())?;
        text.push(' ')?;
        text.push_str(digits.as_str())?;
    }
    Ok(())
}

/// Returns the first of whole memories, and how many more there are.
fn images_line(alloc: Global, images: &[Vec<u8>]) -> Result<String, AllocError>
    ensures { IfOk result (λ text. string_bytes text ≡ images_text (map (λ v. v.items) images.now)) }
{
    let mut shown = String::new(alloc);
    add_images(alloc, &mut shown, shown_images(images))?;
    if images.len() <= IMAGES_SHOWN {
        return Ok(shown);
    }
    let more = images.len() - IMAGES_SHOWN;
    format!(in alloc; "{shown} and {more} more")
}

/// Returns the text of the whole memories of a start: nothing if it names none.
pub(crate) fn digits_of(alloc: Global, start: &Starts) -> Result<String, AllocError>
    ensures { IfOk result (λ text. string_bytes text ≡ images_text (start_images start.now)) }
{
    match start {
        Starts::Any(any) => match &any.memories {
            Memories::Images(images) => images_line(alloc, images),
            Memories::Cells(_) => Ok(String::new(alloc)),
        },
        Starts::Zero | Starts::Every => Ok(String::new(alloc)),
    }
}
