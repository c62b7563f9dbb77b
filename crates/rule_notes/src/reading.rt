//! What is known at the token of an error.

use crate::names::Maker;
use crate::place::{Place, rest_of_line};
use crate::token::tokens_of;
use crate::walk::{Grade, Next, Part, TableNext, Walk};
use std::alloc::{AllocError, Global};

/// A token, and what is known before it.
#[derive(Drop)]
pub(crate) struct Reading<'a> {
    pub(crate) walk: Walk<'a>,
    /// How the token is written: nothing at the end of a line or of the text.
    pub(crate) here: &'a str,
    pub(crate) line: usize,
    pub(crate) column: usize,
    pub(crate) begins_line: bool,
    /// Whether no token is there or later.
    pub(crate) is_text_end: bool,
    /// How the token before it is written: nothing at the beginning of the text.
    pub(crate) last: &'a str,
    /// The line from the token on, without its comment.
    pub(crate) rest: &'a str,
}

/// Returns what is known at a token of this line and column.
pub(crate) fn reading_at<'a>(
    alloc: Global,
    place: Place<'a>,
    line: usize,
    column: usize,
) -> Result<Reading<'a>, AllocError> {
    let tokens = tokens_of(alloc, place.through)?;
    let later = tokens_of(alloc, place.rest)?;
    let mut reading = Reading {
        walk: Walk::new(alloc),
        here: "",
        line,
        column,
        begins_line: false,
        is_text_end: later.is_empty(),
        last: "",
        rest: rest_of_line(place),
    };
    for token in &tokens {
        if token.line == line && token.column == column {
            reading.here = token.text;
            reading.begins_line = token.begins_line;
        } else {
            reading.walk.read(*token)?;
            reading.last = token.text;
        }
    }
    Ok(reading)
}

impl<'a> Reading<'a> {
    /// Begins the token's line, if it is the first of it.
    pub(crate) fn begin(&mut self) -> Result<(), AllocError> {
        if self.begins_line {
            self.walk.begin_line(self.column)?;
        }
        Ok(())
    }

    /// Returns true if the next line has to be deeper.
    pub(crate) fn is_before_block(&self) -> bool {
        self.here.len() == 0 && !self.is_text_end && matches!(self.walk.next, Next::Block)
    }

    /// Returns the column of the last line before the token.
    pub(crate) fn block_column(&self) -> usize {
        self.walk.columns.last().copied().unwrap_or_default()
    }

    /// Returns the columns of open blocks on both sides of the token's.
    pub(crate) fn columns_near(&self) -> (Option<usize>, Option<usize>) {
        let mut least = usize::MAX;
        let mut below: Option<usize> = None;
        let mut above: Option<usize> = None;
        for column in self.walk.columns.iter().rev() {
            if *column < least {
                least = *column;
                if *column > self.column {
                    above = Some(*column);
                } else if *column < self.column && below.is_none() {
                    below = Some(*column);
                }
            }
        }
        (below, above)
    }

    /// Returns the line of the last name in scope that is written like the token, and what made it.
    pub(crate) fn declared(&self) -> Option<(usize, Maker)> {
        for declared in self.walk.names.iter().rev() {
            if declared.is_in_scope() && declared.name == self.here {
                return Some((declared.line, declared.maker));
            }
        }
        None
    }

    /// Returns the words and names in scope that can be at the token's place.
    pub(crate) fn known(&self, alloc: Global) -> Result<Vec<&'a str>, AllocError> {
        let is_place = self.is_in_place();
        let is_operand = matches!(self.walk.next, Next::Operand(_)) && !is_place;
        let is_index = matches!(self.walk.next, Next::OfTable(TableNext::Index));
        let mut known = Vec::new(alloc);
        for declared in self.walk.names.iter() {
            let maker = declared.maker;
            let is_known = if is_place {
                is_constant(maker)
            } else {
                is_operand || is_assignable(maker) || (is_index && is_number(maker))
            };
            if declared.is_in_scope() && is_known {
                known.push(declared.name)?;
            }
        }
        let words: &'static [&'static str] = if is_place {
            &["none"]
        } else {
            words_at(self.walk.next)
        };
        for word in words {
            known.push(*word)?;
        }
        Ok(known)
    }

    /// Returns true for an operand of the place after `sorted`, which has to be a constant.
    pub(crate) fn is_in_place(&self) -> bool {
        let is_operand = matches!(self.walk.next, Next::Operand(_));
        is_operand && matches!(self.walk.part(), Some(Part::Place { .. }))
    }
}

/// Returns true if the name is the node of a loop.
fn is_constant(maker: Maker) -> bool {
    matches!(maker, Maker::For | Maker::Aggregate)
}

fn is_assignable(maker: Maker) -> bool {
    match maker {
        Maker::State | Maker::Let => true,
        Maker::Table | Maker::For | Maker::Aggregate => false,
    }
}

/// Returns true if the name is a number, and so can be an index.
fn is_number(maker: Maker) -> bool {
    !matches!(maker, Maker::Table)
}

/// Returns the reserved words of more than two letters that can come next.
fn words_at(next: Next) -> &'static [&'static str] {
    match next {
        Next::Statement => {
            &[
                "clock", "let", "send", "for", "elif", "else", "state", "table",
            ]
        }
        Next::Block => &["clock", "let", "send"],
        Next::Target(_) => &["clock"],
        Next::Operand(Grade::Whole) => {
            &[
                "clock", "coin", "none", "mail", "count", "least", "sorted", "not",
            ]
        }
        Next::Operand(Grade::Inverse) => &["clock", "coin", "none", "mail", "not"],
        Next::Operand(Grade::Atom) => &["clock", "coin", "none", "mail"],
        Next::OfTable(next) => next.words(),
        Next::Name(_)
        | Next::MoreNames
        | Next::Becomes
        | Next::MoreTargets(_)
        | Next::BlockColon
        | Next::AggregateColon
        | Next::Square
        | Next::PlaceSquare
        | Next::AfterTerm
        | Next::Unknown => &[],
    }
}
