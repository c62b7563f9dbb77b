//! What may follow the first tokens of a rule, by its grammar (docs/RULES.md, "Terms" and "Statements"), and the names
//! that are in scope there. Nothing is promised of it.

use crate::names::{Declared, Maker};
use crate::token::{Kind, Token, kind_of};
use std::alloc::{AllocError, Global};

/// The words that are terms by themselves.
const LEAVES: [&str; 7] = ["n", "f", "M", "me", "coin", "none", "clock"];

/// What can begin an operand: `not` no operand of arithmetic, and an aggregate only a whole term.
#[derive(Clone, Copy)]
pub(crate) enum Grade {
    Whole,
    Inverse,
    Atom,
}

/// What has to come next.
#[derive(Clone, Copy)]
pub(crate) enum Next {
    /// The first word of a line.
    Statement,
    /// A block after its colon.
    Block,
    Name(Maker),
    /// A comma or the end of the line, after a name of `state`.
    MoreNames,
    /// The `=` of a `let`.
    Becomes,
    /// A target of an assignment, after this many.
    Target(usize),
    /// A comma or `=`, after this many targets.
    MoreTargets(usize),
    BlockColon,
    AggregateColon,
    /// The bracket after `mail`.
    Square,
    /// The bracket after `sorted`.
    PlaceSquare,
    /// A token of a table's line, after its name, or of a lookup.
    OfTable(TableNext),
    Operand(Grade),
    /// An operator, or the end of the term.
    AfterTerm,
    /// Nothing is known.
    Unknown,
}

/// What has to come next in a table's line, after its name, or in a lookup, after the name of its table.
#[derive(Clone, Copy)]
pub(crate) enum TableNext {
    /// The `=` of a table.
    Becomes,
    /// The bracket before the cells.
    CellSquare,
    Cell,
    /// A comma or the bracket after the cells.
    MoreCells,
    /// The end of the line.
    End,
    /// The bracket before an index.
    IndexSquare,
    Index,
    /// The bracket after an index.
    IndexEnd,
}

/// What a term is part of.
#[derive(Clone, Copy)]
pub(crate) enum Part {
    /// Round brackets with their line. `compared` is true if the term around them has its comparison.
    Round { line: usize, compared: bool },
    Square { line: usize, compared: bool },
    /// The place after `sorted`, with the line of its bracket.
    Place { line: usize },
    /// The test of a choice: `else` ends it.
    Test,
    /// What follows `if` or `elif`: a colon ends it.
    Condition,
    /// What is sent: `to` can follow.
    Sent,
    /// A value: this many further ones follow.
    Value(usize),
}

/// What is known after the first tokens of a rule.
#[derive(Drop)]
pub(crate) struct Walk<'a> {
    pub(crate) next: Next,
    /// The parts that the term is in, the innermost last.
    pub(crate) parts: Vec<Part>,
    /// Whether the term has its comparison.
    pub(crate) compared: bool,
    /// Whether the term so far is `least`: a word if a name follows, and otherwise a name.
    is_least: bool,
    pub(crate) names: Vec<Declared<'a>>,
    /// The columns of the lines.
    pub(crate) columns: Vec<usize>,
    /// Whether the statement is on the line of its block's colon.
    is_inside: bool,
}

impl<'a> Walk<'a> {
    /// Returns the walk at the beginning of a text.
    pub(crate) fn new(alloc: Global) -> Walk<'a> {
        Walk {
            next: Next::Statement,
            parts: Vec::new(alloc),
            compared: false,
            is_least: false,
            names: Vec::new(alloc),
            columns: Vec::new(alloc),
            is_inside: false,
        }
    }

    /// Returns the innermost part.
    pub(crate) fn part(&self) -> Option<Part> {
        self.parts.last().copied()
    }

    /// Returns what makes a new name that can come next.
    pub(crate) fn maker(&self) -> Option<Maker> {
        match self.next {
            Next::Name(maker) => Some(maker),
            Next::AfterTerm if self.is_least => Some(Maker::Aggregate),
            Next::Statement
            | Next::Block
            | Next::MoreNames
            | Next::Becomes
            | Next::Target(_)
            | Next::MoreTargets(_)
            | Next::BlockColon
            | Next::AggregateColon
            | Next::Square
            | Next::PlaceSquare
            | Next::OfTable(_)
            | Next::Operand(_)
            | Next::AfterTerm
            | Next::Unknown => None,
        }
    }

    /// Returns true if the line may end here.
    pub(crate) fn may_end(&self) -> bool {
        match self.next {
            Next::Statement | Next::Block | Next::MoreNames => true,
            Next::OfTable(next) => matches!(next, TableNext::End),
            Next::AfterTerm => matches!(self.part(), Some(Part::Sent | Part::Value(0))),
            Next::Name(_)
            | Next::Becomes
            | Next::Target(_)
            | Next::MoreTargets(_)
            | Next::BlockColon
            | Next::AggregateColon
            | Next::Square
            | Next::PlaceSquare
            | Next::Operand(_)
            | Next::Unknown => false,
        }
    }

    /// Begins a line in a column.
    pub(crate) fn begin_line(&mut self, column: usize) -> Result<(), AllocError> {
        self.next = if self.may_end() {
            Next::Statement
        } else {
            Next::Unknown
        };
        self.parts.clear();
        self.compared = false;
        self.is_inside = false;
        for declared in self.names.iter_mut() {
            declared.begin_line(column);
        }
        self.columns.push(column)?;
        Ok(())
    }

    /// Reads a token.
    pub(crate) fn read(&mut self, token: Token<'a>) -> Result<(), AllocError> {
        if token.begins_line {
            self.begin_line(token.column)?;
        }
        let is_least = self.is_least;
        self.is_least = matches!(self.next, Next::Operand(Grade::Whole)) && token.text == "least";
        self.next = match self.next {
            Next::AfterTerm if is_least && is_name(token.text) => {
                self.after_name(Maker::Aggregate, token)?
            }
            Next::Statement => self.after_first(token.text)?,
            Next::Block => self.after_simple(token.text)?,
            Next::Name(maker) => self.after_name(maker, token)?,
            Next::MoreNames => on(token.text, ",", Next::Name(Maker::State)),
            Next::Becomes if token.text == "=" => self.enter(Part::Value(0))?,
            Next::Target(count) => after_target(token.text, count),
            Next::MoreTargets(count) => self.after_targets(token.text, count)?,
            Next::BlockColon if token.text == ":" => self.into_block(),
            Next::AggregateColon => on(token.text, ":", Next::Operand(Grade::Whole)),
            Next::Square if token.text == "[" => self.enter(Part::Square {
                line: token.line,
                compared: self.compared,
            })?,
            Next::PlaceSquare if token.text == "[" => {
                self.enter(Part::Place { line: token.line })?
            }
            Next::Operand(grade) => self.after_operand(grade, token)?,
            Next::AfterTerm => self.after_term(token.text)?,
            Next::OfTable(next) => next.after(token.text),
            Next::Becomes | Next::BlockColon | Next::Square | Next::PlaceSquare | Next::Unknown =>
                Next::Unknown,
        };
        Ok(())
    }

    fn after_first(&mut self, text: &str) -> Result<Next, AllocError> {
        match text {
            "state" => Ok(Next::Name(Maker::State)),
            "table" => Ok(Next::Name(Maker::Table)),
            "for" => Ok(Next::Name(Maker::For)),
            "if" | "elif" => self.enter(Part::Condition),
            "else" => Ok(Next::BlockColon),
            _ => self.after_simple(text),
        }
    }

    fn after_simple(&mut self, text: &str) -> Result<Next, AllocError> {
        match text {
            "let" => Ok(Next::Name(Maker::Let)),
            "send" => self.enter(Part::Sent),
            _ => Ok(after_target(text, 0)),
        }
    }

    fn after_name(&mut self, maker: Maker, token: Token<'a>) -> Result<Next, AllocError> {
        if !is_name(token.text) {
            return Ok(Next::Unknown);
        }
        let column = self.columns.last().copied().unwrap_or_default();
        self.names.push(Declared {
            name: token.text,
            line: token.line,
            maker,
            column: maker.column(column, self.is_inside),
            depth: self.parts.len(),
            is_visible: maker.is_visible(),
            is_ended: false,
        })?;
        match maker {
            Maker::State => Ok(Next::MoreNames),
            Maker::Table => Ok(Next::OfTable(TableNext::Becomes)),
            Maker::Let => Ok(Next::Becomes),
            Maker::For => Ok(Next::BlockColon),
            Maker::Aggregate => Ok(Next::AggregateColon),
        }
    }

    fn after_targets(&mut self, text: &str, count: usize) -> Result<Next, AllocError> {
        match text {
            "," => Ok(Next::Target(count)),
            "=" => self.enter(Part::Value(count.saturating_sub(1))),
            _ => Ok(Next::Unknown),
        }
    }

    fn after_operand(&mut self, grade: Grade, token: Token<'a>) -> Result<Next, AllocError> {
        match token.text {
            "(" => self.enter(Part::Round {
                line: token.line,
                compared: self.compared,
            }),
            "mail" => Ok(Next::Square),
            "not" if !matches!(grade, Grade::Atom) => Ok(Next::Operand(Grade::Inverse)),
            "count" if matches!(grade, Grade::Whole) => Ok(Next::Name(Maker::Aggregate)),
            "sorted" if matches!(grade, Grade::Whole) => Ok(Next::PlaceSquare),
            text if self.is_table(text) => Ok(Next::OfTable(TableNext::IndexSquare)),
            text if is_operand(text) => Ok(Next::AfterTerm),
            _ => Ok(Next::Unknown),
        }
    }

    /// Returns true for the name of a table.
    fn is_table(&self, text: &str) -> bool {
        self.names
            .iter()
            .any(|it| matches!(it.maker, Maker::Table) && it.name == text)
    }

    fn after_term(&mut self, text: &str) -> Result<Next, AllocError> {
        match text {
            "+" | "-" | "*" | "/" | "%" => Ok(Next::Operand(Grade::Atom)),
            "==" | "!=" | "<" | "<=" | ">" | ">=" if !self.compared => {
                self.compared = true;
                Ok(Next::Operand(Grade::Atom))
            }
            "and" | "or" => {
                self.compared = false;
                Ok(Next::Operand(Grade::Inverse))
            }
            "if" if !matches!(self.part(), Some(Part::Test)) => {
                self.enter(Part::Test)?;
                Ok(Next::Operand(Grade::Inverse))
            }
            _ => self.after_part(text),
        }
    }

    /// Returns what follows the end of the innermost part.
    fn after_part(&mut self, text: &str) -> Result<Next, AllocError> {
        match self.part() {
            Some(Part::Round { compared, .. }) if text == ")" => Ok(self.close(compared)),
            Some(Part::Square { compared, .. }) if text == "]" => Ok(self.close(compared)),
            Some(Part::Place { .. }) if text == "]" => {
                self.leave();
                Ok(Next::Name(Maker::Aggregate))
            }
            Some(Part::Test) if text == "else" => {
                self.leave();
                Ok(Next::Operand(Grade::Whole))
            }
            Some(Part::Condition) if text == ":" => {
                self.leave();
                Ok(self.into_block())
            }
            Some(Part::Sent) if text == "to" => {
                self.leave();
                self.enter(Part::Value(0))
            }
            Some(Part::Value(count)) if text == "," && count > 0 => {
                self.leave();
                self.enter(Part::Value(count.saturating_sub(1)))
            }
            Some(_) | None => Ok(Next::Unknown),
        }
    }

    fn into_block(&mut self) -> Next {
        self.is_inside = true;
        Next::Block
    }

    /// Begins a part, with a whole term.
    fn enter(&mut self, part: Part) -> Result<Next, AllocError> {
        self.parts.push(part)?;
        self.compared = false;
        Ok(Next::Operand(Grade::Whole))
    }

    /// Ends the innermost part, and the names of aggregates in it.
    fn leave(&mut self) {
        let _ = self.parts.pop();
        self.compared = false;
        let depth = self.parts.len();
        for declared in self.names.iter_mut() {
            declared.leave(depth);
        }
    }

    fn close(&mut self, compared: bool) -> Next {
        self.leave();
        self.compared = compared;
        Next::AfterTerm
    }
}

/// Returns the next if the token is the wanted one.
fn on(text: &str, wanted: &str, next: Next) -> Next {
    if text == wanted { next } else { Next::Unknown }
}

impl TableNext {
    /// Returns what follows a token.
    fn after(self, text: &str) -> Next {
        let next = match (self, text) {
            (TableNext::Becomes, "=") => TableNext::CellSquare,
            (TableNext::CellSquare, "[") | (TableNext::MoreCells, ",") => TableNext::Cell,
            (TableNext::Cell, text) if is_cell(text) => TableNext::MoreCells,
            (TableNext::MoreCells, "]") => TableNext::End,
            (TableNext::IndexSquare, "[") => TableNext::Index,
            (TableNext::Index, text) if is_operand(text) => TableNext::IndexEnd,
            (TableNext::IndexEnd, "]") => return Next::AfterTerm,
            _ => return Next::Unknown,
        };
        Next::OfTable(next)
    }

    /// Returns the words of more than two letters that can come next.
    pub(crate) fn words(self) -> &'static [&'static str] {
        match self {
            TableNext::Cell => &["none"],
            TableNext::Index => &["clock", "coin", "none"],
            _ => &[],
        }
    }

    /// Returns what may follow.
    pub(crate) fn expected(self) -> &'static str {
        match self {
            TableNext::Becomes => "\"=\"",
            TableNext::CellSquare | TableNext::IndexSquare => "\"[\"",
            TableNext::Cell => "a number or \"none\"",
            TableNext::MoreCells => "\",\" or \"]\"",
            TableNext::End => "the end of the line",
            TableNext::Index => "a number, a name or a word such as \"me\"",
            TableNext::IndexEnd => "\"]\"",
        }
    }

    /// Returns the fix for a token that can't follow: nothing if it isn't known.
    pub(crate) fn fix(self) -> &'static str {
        match self {
            TableNext::Cell => "a cell is written as a number",
            TableNext::Index | TableNext::IndexEnd => "name the index with \"let\" first",
            _ => "",
        }
    }
}

/// Returns true for a token that is a cell of a table.
fn is_cell(text: &str) -> bool {
    text == "none" || matches!(kind_of(text), Kind::Number)
}

fn is_name(text: &str) -> bool {
    matches!(kind_of(text), Kind::Name)
}

fn after_target(text: &str, before: usize) -> Next {
    if text == "clock" || is_name(text) {
        Next::MoreTargets(before.saturating_add(1))
    } else {
        Next::Unknown
    }
}

/// Returns true for a token that is a term by itself.
fn is_operand(text: &str) -> bool {
    match kind_of(text) {
        Kind::Number | Kind::Name => true,
        Kind::Reserved => LEAVES.iter().any(|word| *word == text),
        Kind::Sign => false,
    }
}
