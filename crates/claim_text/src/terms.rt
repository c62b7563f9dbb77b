//! Terms of claims.

use crate::amounts::{Amount, NoAmount};
use crate::conditions::{Comparison, Test, Value, and, as_test, compared, not, or};
use claim_tokens::{ClaimError, Kind, ReadClaimsError, Reader, Sign, Span, Token};
use std::alloc::Global;
use step_searches::Quantity;

/// How deep a term may be: a part in another one takes a few levels of this.
pub(crate) const MAX_DEPTH: u32 = 1000;

/// The most free names of a step.
const MAX_FREE: usize = 100;

/// The number that stands for none.
const NONE: i64 = 4_294_967_295;

/// The words of a node's memory, by their names in the rule's text, the clock aside.
#[derive(Clone, Copy)]
pub(crate) struct Words<'a> {
    pub(crate) rule: &'a [u8],
    pub(crate) names: &'a [Span],
}

/// A number that a set is used with.
#[derive(Drop)]
pub(crate) struct Parameter {
    pub(crate) name: Span,
    pub(crate) amount: Amount,
}

/// What names may be in a term.
#[derive(Clone, Copy, PartialEq, Eq)]
pub(crate) enum Scope {
    /// The sizes alone.
    Sizes,
    /// The sizes, the words of two nodes, and parameters.
    Set,
    /// The sizes and free names.
    Step,
}

/// A layer of the grammar, from the loosest to the tightest.
#[derive(Clone, Copy, PartialEq, Eq)]
enum Layer {
    Either,
    Both,
    Inverse,
    Compare,
    Sum,
    Product,
    Atom,
}

/// A reader of terms.
#[derive(Clone, Copy)]
pub(crate) struct Terms<'a, 'p> {
    pub(crate) alloc: Global,
    pub(crate) words: Words<'a>,
    pub(crate) parameters: &'p [Parameter],
    pub(crate) scope: Scope,
}

/// Returns the error of a sum at a token.
fn at<T>(token: Token, made: Result<T, NoAmount>) -> Result<T, ReadClaimsError> {
    match made {
        Ok(made) => Ok(made),
        Err(NoAmount::Memory) => Err(ReadClaimsError::Memory),
        Err(NoAmount::Error(error)) => Err(token.error(error)),
    }
}

/// Returns the comparison that a token is.
fn comparison_of(token: Token) -> Option<Comparison> {
    match token.kind {
        Kind::Mark(Sign::Equal) => Some(Comparison::Equal),
        Kind::Mark(Sign::NotEqual) => Some(Comparison::NotEqual),
        Kind::Mark(Sign::Less) => Some(Comparison::Less),
        Kind::Mark(Sign::AtMost) => Some(Comparison::AtMost),
        Kind::Mark(Sign::Greater) => Some(Comparison::Greater),
        Kind::Mark(Sign::AtLeast) => Some(Comparison::AtLeast),
        _ => None,
    }
}

/// Returns a term that has to be a number.
fn number(token: Token, value: Value) -> Result<Amount, ReadClaimsError> {
    match value {
        Value::Number(amount) => Ok(amount),
        Value::Truth(_test) => Err(token.error(ClaimError::NotCovered)),
    }
}

impl<'a, 'p> Terms<'a, 'p> {
    /// Reads a term that has to be a number.
    pub(crate) fn amount(
        &self,
        reader: &mut Reader<'a>,
        free: &mut Vec<Span>,
    ) -> Result<Amount, ReadClaimsError> {
        let token = reader.now;
        let value = self.part(reader, free, Layer::Either, MAX_DEPTH)?;
        number(token, value)
    }

    /// Reads a term as a test.
    pub(crate) fn test(
        &self,
        reader: &mut Reader<'a>,
        free: &mut Vec<Span>,
    ) -> Result<Test, ReadClaimsError> {
        let token = reader.now;
        let value = self.part(reader, free, Layer::Either, MAX_DEPTH)?;
        at(token, as_test(self.alloc, value))
    }

    /// Reads a part of a term.
    fn part(
        &self,
        reader: &mut Reader<'a>,
        free: &mut Vec<Span>,
        layer: Layer,
        depth: u32,
    ) -> Result<Value, ReadClaimsError> {
        if depth == 0 {
            return Err(reader.now.error(ClaimError::TooDeep));
        }
        let inner = match layer {
            Layer::Either => Layer::Both,
            Layer::Both => Layer::Inverse,
            Layer::Inverse => Layer::Compare,
            Layer::Compare => Layer::Sum,
            Layer::Sum => Layer::Product,
            Layer::Product | Layer::Atom => Layer::Atom,
        };
        if layer == Layer::Inverse && reader.take_word("not") {
            let token = reader.now;
            let value = self.part(reader, free, Layer::Inverse, depth - 1)?;
            return Ok(Value::Truth(not(at(token, as_test(self.alloc, value))?)));
        }
        if layer == Layer::Atom {
            if !reader.take(Sign::Open) {
                return self.leaf(reader, free);
            }
            let value = self.part(reader, free, Layer::Either, depth - 1)?;
            reader.expect(Sign::Close)?;
            return Ok(value);
        }
        let first = reader.now;
        let mut value = self.part(reader, free, inner, depth - 1)?;
        for _ in 0..reader.text.len() {
            let token = reader.now;
            if !self.takes_sign(reader, layer) {
                return Ok(value);
            }
            let next = reader.now;
            let other = self.part(reader, free, inner, depth - 1)?;
            value = self.joined(layer, token, (first, value), (next, other))?;
            if layer == Layer::Compare {
                return Ok(value);
            }
        }
        Ok(value)
    }

    /// Goes past a sign that joins the parts of a layer, if one is next.
    fn takes_sign(&self, reader: &mut Reader<'a>, layer: Layer) -> bool {
        match layer {
            Layer::Either => reader.take_word("or"),
            Layer::Both => reader.take_word("and"),
            Layer::Compare => match comparison_of(reader.now) {
                Some(_) => {
                    let _sign = reader.next();
                    true
                }
                None => false,
            },
            Layer::Sum => reader.take(Sign::Plus) || reader.take(Sign::Minus),
            Layer::Product => {
                reader.take(Sign::Times) || reader.take(Sign::Over) || reader.take(Sign::Modulo)
            }
            Layer::Inverse | Layer::Atom => false,
        }
    }

    /// Returns two parts with a sign between them. Each part comes with its first token.
    fn joined(
        &self,
        layer: Layer,
        sign: Token,
        left: (Token, Value),
        right: (Token, Value),
    ) -> Result<Value, ReadClaimsError> {
        match layer {
            Layer::Either | Layer::Both => {
                let one = at(left.0, as_test(self.alloc, left.1))?;
                let other = at(right.0, as_test(self.alloc, right.1))?;
                let made = if layer == Layer::Both {
                    and(self.alloc, one, other)
                } else {
                    or(self.alloc, one, other)
                };
                Ok(Value::Truth(at(sign, made)?))
            }
            _ => {
                let one = number(left.0, left.1)?;
                let other = number(right.0, right.1)?;
                self.computed(sign, one, other)
            }
        }
    }

    /// Returns two numbers with a sign between them.
    fn computed(&self, sign: Token, one: Amount, other: Amount) -> Result<Value, ReadClaimsError> {
        if let Some(comparison) = comparison_of(sign) {
            let test = at(sign, compared(self.alloc, comparison, &one, &other))?;
            return Ok(Value::Truth(test));
        }
        match sign.kind {
            Kind::Mark(Sign::Plus) => self.added(sign, one, &other, 1),
            Kind::Mark(Sign::Minus) => self.added(sign, one, &other, -1),
            Kind::Mark(Sign::Times) => self.multiplied(sign, &one, &other),
            _ => Err(sign.error(ClaimError::NotCovered)),
        }
    }

    fn added(
        &self,
        sign: Token,
        one: Amount,
        other: &Amount,
        times: i64,
    ) -> Result<Value, ReadClaimsError> {
        let mut sum = one;
        at(sign, sum.add(other, times))?;
        Ok(Value::Number(sum))
    }

    /// Returns a product of which one side is a constant.
    fn multiplied(
        &self,
        sign: Token,
        one: &Amount,
        other: &Amount,
    ) -> Result<Value, ReadClaimsError> {
        let (times, whole) = match (one.known(), other.known()) {
            (Some(times), _) => (times, other),
            (None, Some(times)) => (times, one),
            (None, None) => return Err(sign.error(ClaimError::NotCovered)),
        };
        self.added(sign, Amount::constant(self.alloc, 0), whole, times)
    }

    /// Reads a number or a name.
    fn leaf(
        &self,
        reader: &mut Reader<'a>,
        free: &mut Vec<Span>,
    ) -> Result<Value, ReadClaimsError> {
        let token = reader.next();
        match token.kind {
            Kind::Number(number) => {
                let amount = Amount::constant(self.alloc, i64::from(number));
                Ok(Value::Number(amount))
            }
            Kind::Name => Ok(Value::Number(self.named(reader, token, free)?)),
            _ => Err(token.error(ClaimError::Expected)),
        }
    }

    /// Returns the number that a name is.
    fn named(
        &self,
        reader: &mut Reader<'a>,
        token: Token,
        free: &mut Vec<Span>,
    ) -> Result<Amount, ReadClaimsError> {
        let name = reader.text_of(token);
        let size = match name {
            b"n" => Quantity::Nodes,
            b"f" => Quantity::Faults,
            b"M" => Quantity::Modulus,
            b"none" => return Ok(Amount::constant(self.alloc, NONE)),
            b"p" | b"q" => return self.field(reader, token, name == b"q".as_slice()),
            b"count" | b"mail" | b"me" | b"coin" | b"clock" | b"if" | b"else" => {
                return Err(token.error(ClaimError::Expected));
            }
            _ => return self.given(reader, token, free),
        };
        Ok(Amount::of(self.alloc, size)?)
    }

    /// Returns a parameter, or a free name.
    fn given(
        &self,
        reader: &Reader<'a>,
        token: Token,
        free: &mut Vec<Span>,
    ) -> Result<Amount, ReadClaimsError> {
        let name = reader.text_of(token);
        for parameter in self.parameters {
            if parameter.name.of(reader.text) == name {
                let mut amount = Amount::constant(self.alloc, 0);
                at(token, amount.add(&parameter.amount, 1))?;
                return Ok(amount);
            }
        }
        if self.scope != Scope::Step {
            return Err(token.error(ClaimError::UnknownName));
        }
        let place = match free.iter().position(|other| other.of(reader.text) == name) {
            Some(place) => place,
            None => {
                free.push(token.span)?;
                free.len().saturating_sub(1)
            }
        };
        if place >= MAX_FREE {
            return Err(token.error(ClaimError::TooDeep));
        }
        Ok(Amount::of(self.alloc, Quantity::Free(place as u32))?)
    }

    /// Reads the word of a node after its name.
    fn field(
        &self,
        reader: &mut Reader<'a>,
        token: Token,
        is_second: bool,
    ) -> Result<Amount, ReadClaimsError> {
        if self.scope != Scope::Set {
            return Err(token.error(ClaimError::Expected));
        }
        reader.expect(Sign::Dot)?;
        let word = reader.expect_name()?;
        let name = reader.text_of(word);
        if name == b"sent".as_slice() {
            let sent = if is_second {
                Quantity::SecondSent
            } else {
                Quantity::FirstSent
            };
            return Ok(Amount::of(self.alloc, sent)?);
        }
        match self.word(name) {
            Some(k) if is_second => Ok(Amount::of(self.alloc, Quantity::SecondWord(k))?),
            Some(k) => Ok(Amount::of(self.alloc, Quantity::FirstWord(k))?),
            None => Err(word.error(ClaimError::UnknownName)),
        }
    }

    /// Returns the place of a word in the memory.
    fn word(&self, name: &[u8]) -> Option<u32> {
        if name == b"clock".as_slice() {
            return Some(0);
        }
        let place = self
            .words
            .names
            .iter()
            .position(|other| other.of(self.words.rule) == name)?;
        match u32::try_from(place) {
            Ok(k) => k.checked_add(1),
            Err(_) => None,
        }
    }
}
