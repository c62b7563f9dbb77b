//! Terms about two nodes.

use crate::lines::BEFORE;
use claim_tokens::{ClaimError, Kind, ReadClaimsError, Reader, Sign, Token};
use node_env::NO_MAIL;
use properties::{MAX_NAMED_WORDS, PairName, Side, local_of};
use rule_syntax::{Comparison, Connective, Operation, Operator, Term};
use std::alloc::{AllocError, Global};

/// How deep a term may be: a part in another one takes a few levels of this.
const MAX_DEPTH: u32 = 1000;

/// A layer of the grammar, from the loosest to the tightest.
#[derive(Clone, Copy, PartialEq, Eq)]
enum Layer {
    Choice,
    Either,
    Both,
    Inverse,
    Compare,
    Sum,
    Product,
    Atom,
}

impl Layer {
    /// Returns the layer of the parts of this one.
    fn inner(self) -> Layer {
        match self {
            Layer::Choice => Layer::Either,
            Layer::Either => Layer::Both,
            Layer::Both => Layer::Inverse,
            Layer::Inverse => Layer::Compare,
            Layer::Compare => Layer::Sum,
            Layer::Sum => Layer::Product,
            Layer::Product | Layer::Atom => Layer::Atom,
        }
    }
}

/// What is between two parts of a term.
#[derive(Clone, Copy)]
enum Joint {
    Combine(Connective),
    Operate(Operator),
}

/// What a term speaks of.
#[derive(Clone, Copy, PartialEq, Eq)]
pub(crate) enum Scope {
    /// The sizes of a bench alone, in claims' operations.
    Sizes,
    /// Two nodes, too.
    Nodes,
}

/// A reader of terms about a memory with these words, by their places.
#[derive(Clone, Copy)]
pub(crate) struct Terms<'a> {
    pub(crate) alloc: Global,
    pub(crate) words: &'a [String],
    pub(crate) scope: Scope,
}

/// Returns the comparison that a sign is.
fn comparison_of(sign: Sign) -> Option<Joint> {
    let comparison = match sign {
        Sign::Equal => Comparison::Equal,
        Sign::NotEqual => Comparison::NotEqual,
        Sign::Less => Comparison::Less,
        Sign::AtMost => Comparison::AtMost,
        Sign::Greater => Comparison::Greater,
        Sign::AtLeast => Comparison::AtLeast,
        _ => return None,
    };
    Some(Joint::Operate(Operator::Compare(comparison)))
}

/// Returns the operation of a layer that a sign is.
fn operation_of(layer: Layer, sign: Sign) -> Option<Joint> {
    let operation = match (layer, sign) {
        (Layer::Sum, Sign::Plus) => Operation::Sum,
        (Layer::Sum, Sign::Minus) => Operation::Difference,
        (Layer::Product, Sign::Times) => Operation::Product,
        (Layer::Product, Sign::Over) => Operation::Quotient,
        (Layer::Product, Sign::Modulo) => Operation::Remainder,
        _ => return None,
    };
    Some(Joint::Operate(Operator::Compute(operation)))
}

/// Returns what joins the parts of a layer, if that is next.
fn joint_at(reader: &Reader<'_>, layer: Layer) -> Option<Joint> {
    match (layer, reader.now.kind) {
        (Layer::Either, _) if reader.is_at_word("or") => Some(Joint::Combine(Connective::Or)),
        (Layer::Both, _) if reader.is_at_word("and") => Some(Joint::Combine(Connective::And)),
        (Layer::Compare, Kind::Mark(sign)) => comparison_of(sign),
        (_, Kind::Mark(sign)) => operation_of(layer, sign),
        _ => None,
    }
}

/// Returns true for / and %.
fn is_division(joint: Joint) -> bool {
    match joint {
        Joint::Operate(Operator::Compute(operation)) => {
            operation == Operation::Quotient || operation == Operation::Remainder
        }
        _ => false,
    }
}

impl<'a> Terms<'a> {
    ghost use Rattle.std.specs.Prelude.{◌<◌, IfOk};

    /// Reads a term.
    pub(crate) fn term(&self, reader: &mut Reader<'_>) -> Result<Term, ReadClaimsError> {
        self.part(reader, Layer::Choice, MAX_DEPTH)
    }

    /// Reads a part of a term.
    fn part(
        &self,
        reader: &mut Reader<'_>,
        layer: Layer,
        depth: u32,
    ) -> Result<Term, ReadClaimsError> {
        if depth == 0 {
            return Err(reader.now.error(ClaimError::TooDeep));
        }
        if layer == Layer::Atom {
            if !reader.take(Sign::Open) {
                return self.leaf(reader);
            }
            let whole = self.part(reader, Layer::Choice, depth - 1)?;
            reader.expect(Sign::Close)?;
            return Ok(whole);
        }
        if layer == Layer::Inverse && reader.take_word("not") {
            let part = self.part(reader, Layer::Inverse, depth - 1)?;
            return Ok(Term::Not(Box::new(self.alloc, part)?));
        }
        let mut term = self.part(reader, layer.inner(), depth - 1)?;
        if layer == Layer::Choice && self.takes_if(reader)? {
            let test = self.part(reader, Layer::Either, depth - 1)?;
            reader.expect_word("else")?;
            let other = self.part(reader, Layer::Choice, depth - 1)?;
            return Ok(self.choice(test, term, other)?);
        }
        for _ in 0..reader.text.len() {
            let Some(joint) = self.joint(reader, layer)? else {
                break;
            };
            let other = self.part(reader, layer.inner(), depth - 1)?;
            term = self.joined(joint, term, other)?;
            if layer == Layer::Compare {
                break;
            }
        }
        Ok(term)
    }

    /// Goes past the `if` of a choice, if it is next. Claims about sizes have none.
    fn takes_if(&self, reader: &mut Reader<'_>) -> Result<bool, ReadClaimsError> {
        if self.scope == Scope::Sizes && reader.is_at_word("if") {
            return Err(reader.now.error(ClaimError::NotCovered));
        }
        Ok(reader.take_word("if"))
    }

    /// Goes past what joins the parts of a layer, if it is next. Claims about sizes have no division.
    fn joint(
        &self,
        reader: &mut Reader<'_>,
        layer: Layer,
    ) -> Result<Option<Joint>, ReadClaimsError> {
        let Some(joint) = joint_at(reader, layer) else {
            return Ok(None);
        };
        let sign = reader.next();
        if self.scope == Scope::Sizes && is_division(joint) {
            return Err(sign.error(ClaimError::NotCovered));
        }
        Ok(Some(joint))
    }

    /// Returns the term that is the first of two if the test holds.
    fn choice(&self, test: Term, first: Term, other: Term) -> Result<Term, AllocError> {
        let test = Box::new(self.alloc, test)?;
        let first = Box::new(self.alloc, first)?;
        Ok(Term::Choice(test, first, Box::new(self.alloc, other)?))
    }

    /// Returns two parts as one.
    fn joined(&self, joint: Joint, left: Term, right: Term) -> Result<Term, AllocError> {
        let left = Box::new(self.alloc, left)?;
        let right = Box::new(self.alloc, right)?;
        Ok(match joint {
            Joint::Combine(connective) => Term::Logical(connective, left, right),
            Joint::Operate(operator) => Term::Binary(operator, left, right),
        })
    }

    /// Reads a number or a name.
    fn leaf(&self, reader: &mut Reader<'_>) -> Result<Term, ReadClaimsError> {
        let token = reader.next();
        match token.kind {
            Kind::Number(number) => Ok(Term::Number(number)),
            Kind::Name => self.named(reader, token),
            _ => Err(token.error(ClaimError::Expected)),
        }
    }

    /// Returns what a name is.
    fn named(&self, reader: &mut Reader<'_>, token: Token) -> Result<Term, ReadClaimsError> {
        match reader.text_of(token) {
            b"n" => Ok(Term::Nodes),
            b"f" => Ok(Term::Faults),
            b"M" => Ok(Term::Modulus),
            b"none" => Ok(Term::Number(NO_MAIL)),
            b"p" | b"q" if self.scope == Scope::Sizes => Err(token.error(ClaimError::Expected)),
            b"p" => self.field(reader, Side::First),
            b"q" => self.field(reader, Side::Second),
            b"mail" | b"me" | b"coin" | b"clock" | b"count" | b"least" | b"sorted" => {
                Err(token.error(ClaimError::NotCovered))
            }
            b"if" | b"else" | b"or" | b"and" | b"not" => Err(token.error(ClaimError::Expected)),
            _ => Err(token.error(ClaimError::UnknownName)),
        }
    }

    /// Reads what follows a node's name: its number, or a word of its memory.
    fn field(&self, reader: &mut Reader<'_>, side: Side) -> Result<Term, ReadClaimsError> {
        reader.expect(Sign::Dot)?;
        let token = reader.expect_name()?;
        let name = reader.text_of(token);
        if name == b"me".as_slice() {
            return Ok(Term::Local(local_of(PairName::Number(side))));
        }
        if name != BEFORE.as_bytes() {
            let word = self.word(reader, token)?;
            return Ok(Term::Local(local_of(PairName::After(side, word))));
        }
        reader.expect(Sign::Dot)?;
        let token = reader.expect_name()?;
        let word = self.word(reader, token)?;
        Ok(Term::Local(local_of(PairName::Before(side, word))))
    }

    /// Returns the place of a word in the memory.
    fn word(&self, reader: &Reader<'_>, token: Token) -> Result<u32, ReadClaimsError>
        ensures { IfOk result (λ word. word < MAX_NAMED_WORDS) }
    {
        let name = reader.text_of(token);
        let place = self.words.iter().position(|word| word.as_bytes() == name);
        match place {
            Some(place) if place < MAX_NAMED_WORDS as usize => Ok(place as u32),
            _ => Err(token.error(ClaimError::UnknownName)),
        }
    }
}
