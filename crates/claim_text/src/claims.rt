//! Lines of claims, and the steps that they claim.
ghost use Rattle.std.specs.Prelude.{All, IfOk, OnOk};
ghost use Rattle.claim_text.specs.Claims.{IsMeant};

use crate::amounts::{Amount, NoAmount};
use crate::conditions::{at_most, both};
use crate::terms::{Parameter, Scope, Terms, Words};
use claim_tokens::{
    Bookmark, ClaimError, Kind, ReadClaimsError, Reader, Sign, Span, Token, in_one_line,
};
use properties::{PairTerm, Property};
use property_steps::step_of_property;
use property_text::{is_at_property, read_property};
use std::alloc::{AllocError, Global};
use std::str;
use step_searches::{Coins, Condition, Quantity, Step};

/// What a line claims.
#[derive(Drop)]
pub enum Claim {
    Step(Step),
    /// A property of runs, and the step from any state to where its term holds.
    Property(PairTerm, Step),
    /// A property of runs whose term isn't made of comparisons of words, sizes and numbers alone.
    Uncovered,
}

/// A claim of a text, with its line and its text there.
#[derive(Drop)]
pub struct ClaimedLine {
    pub line: usize,
    pub text: String,
    pub claim: Claim,
}

/// A set: its name, those of its parameters, and where its term begins.
#[derive(Drop)]
struct Definition {
    name: Span,
    parameters: Vec<Span>,
    body: Bookmark,
}

/// What is read of a text so far: its sets, and where the terms begin that are premises.
#[derive(Drop)]
struct Known {
    premises: Vec<Bookmark>,
    sets: Vec<Definition>,
}

/// What a step says of coins and of the free names.
#[derive(Drop)]
struct Restriction {
    asked: Option<Condition>,
    coins: Coins,
}

/// A text of claims about a rule with some words.
#[derive(Clone, Copy)]
struct Claims<'a> {
    alloc: Global,
    words: Words<'a>,
}

/// Returns the steps and the properties of a text of claims about the rule of another text, in their order.
pub fn read_claims(
    alloc: Global,
    rule: &[u8],
    text: &[u8],
) -> Result<Vec<ClaimedLine>, ReadClaimsError>
    ensures { IfOk result (λ claims. All IsMeant claims.items) }
{
    let names = word_names(alloc, rule)?;
    // p.sent is what p sent
    if names.iter().any(|name| name.of(rule) == b"sent".as_slice()) {
        return Err(Reader::new(text).now.error(ClaimError::NameTwice));
    }
    claims_in(alloc, rule, &names, text)
}

/// Returns the claims of a text about a rule whose words have these names.
fn claims_in<'a>(
    alloc: Global,
    rule: &'a [u8],
    names: &'a [Span],
    text: &'a [u8],
) -> Result<Vec<ClaimedLine>, ReadClaimsError>
    ensures { IfOk result (λ claims. All IsMeant claims.items) }
{
    let claims = Claims {
        alloc,
        words: Words { rule, names },
    };
    let mut reader = Reader::new(text);
    claims.lines(&mut reader)
}

/// Returns the names of a rule's words, the clock aside: those of its first lines, which begin with `state`.
fn word_names(alloc: Global, rule: &[u8]) -> Result<Vec<Span>, ReadClaimsError> {
    let mut reader = Reader::new(rule);
    let mut names = Vec::new(alloc);
    for _ in 0..rule.len() {
        if !reader.take_word("state") {
            break;
        }
        add_names(&mut reader, &mut names)?;
        reader.expect_end()?;
    }
    Ok(names)
}

/// Adds names with commas between them.
fn add_names(reader: &mut Reader<'_>, names: &mut Vec<Span>) -> Result<(), ReadClaimsError> {
    for _ in 0..reader.text.len() {
        let name = reader.expect_name()?;
        if names
            .iter()
            .any(|other| other.of(reader.text) == name.span.of(reader.text))
        {
            return Err(name.error(ClaimError::NameTwice));
        }
        names.push(name.span)?;
        if !reader.take(Sign::Comma) {
            break;
        }
    }
    Ok(())
}

/// Returns the error of a sum at a token.
fn at<T>(token: Token, made: Result<T, NoAmount>) -> Result<T, ReadClaimsError> {
    match made {
        Ok(made) => Ok(made),
        Err(NoAmount::Memory) => Err(ReadClaimsError::Memory),
        Err(NoAmount::Error(error)) => Err(token.error(error)),
    }
}

/// Returns the condition of the sizes of a bench: f < n, and 2 is at most M.
fn sizes(alloc: Global) -> Result<Condition, NoAmount> {
    let nodes = Amount::of(alloc, Quantity::Nodes)?;
    let faults = Amount::of(alloc, Quantity::Faults)?;
    let modulus = Amount::of(alloc, Quantity::Modulus)?;
    let two = Amount::constant(alloc, 2);
    let few = at_most(alloc, &faults, &nodes, 1)?;
    let wide = at_most(alloc, &two, &modulus, 0)?;
    both(alloc, few, wide)
}

/// Returns the conditions as one, the first outermost.
fn all_of(alloc: Global, mut parts: Vec<Condition>) -> Result<Condition, NoAmount> {
    let Some(mut joined) = parts.pop() else {
        return Ok(Condition::Anything);
    };
    while let Some(part) = parts.pop() {
        joined = both(alloc, part, joined)?;
    }
    Ok(joined)
}

impl<'a> Claims<'a> {
    /// Returns the reader of terms of a scope.
    fn terms<'p>(&self, parameters: &'p [Parameter], scope: Scope) -> Terms<'a, 'p> {
        Terms {
            alloc: self.alloc,
            words: self.words,
            parameters,
            scope,
        }
    }

    /// Reads all lines.
    fn lines(&self, reader: &mut Reader<'a>) -> Result<Vec<ClaimedLine>, ReadClaimsError>
        ensures { IfOk result (λ claims. All IsMeant claims.items) }
    {
        let mut claims = Vec::new(self.alloc);
        let mut known = Known {
            premises: Vec::new(self.alloc),
            sets: Vec::new(self.alloc),
        };
        for _ in 0..reader.text.len() {
            if reader.now.kind == Kind::TextEnd {
                break;
            }
            self.line(reader, &mut known, &mut claims)?;
            reader.expect_end()?;
        }
        if claims.is_empty() {
            return Err(reader.now.error(ClaimError::Expected));
        }
        Ok(claims)
    }

    /// Reads a line, which adds a claim, or to what is known.
    fn line(
        &self,
        reader: &mut Reader<'a>,
        known: &mut Known,
        claims: &mut Vec<ClaimedLine>,
    ) -> Result<(), ReadClaimsError>
        ensures { OnOk result (All IsMeant claims.old.items → All IsMeant claims.new.items) }
    {
        let token = reader.now;
        if reader.take_word("assume") {
            known.premises.push(reader.mark())?;
            let _test = self.term(reader, Scope::Sizes)?;
        } else if reader.take_word("set") {
            let set = self.definition(reader, known)?;
            known.sets.push(set)?;
        } else if reader.take_word("step") {
            claims.push(self.step(reader, known, token.line)?)?;
        } else if is_at_property(reader) {
            claims.push(self.property(reader, known)?)?;
        } else {
            return Err(token.error(ClaimError::Expected));
        }
        Ok(())
    }

    /// Reads a term without parameters.
    fn term(&self, reader: &mut Reader<'a>, scope: Scope) -> Result<Condition, ReadClaimsError> {
        let mut free = Vec::new(self.alloc);
        Ok(self.terms(&[], scope).test(reader, &mut free)?.holds)
    }

    /// Reads a set after its first word.
    fn definition(
        &self,
        reader: &mut Reader<'a>,
        known: &Known,
    ) -> Result<Definition, ReadClaimsError> {
        let name = reader.expect_name()?;
        if reader.text_of(name) == b"any".as_slice()
            || self.set_named(reader, known, name).is_some()
        {
            return Err(name.error(ClaimError::NameTwice));
        }
        let mut parameters = Vec::new(self.alloc);
        if reader.take(Sign::OpenSquare) {
            add_names(reader, &mut parameters)?;
            reader.expect(Sign::CloseSquare)?;
        }
        reader.expect(Sign::Colon)?;
        let body = reader.mark();
        let mut numbers = Vec::new(self.alloc);
        for parameter in &parameters {
            numbers.push(Parameter {
                name: *parameter,
                amount: Amount::constant(self.alloc, 0),
            })?;
        }
        let mut free = Vec::new(self.alloc);
        let _test = self.terms(&numbers, Scope::Set).test(reader, &mut free)?;
        Ok(Definition {
            name: name.span,
            parameters,
            body,
        })
    }

    /// Returns the place of a set.
    fn set_named(&self, reader: &Reader<'a>, known: &Known, name: Token) -> Option<usize> {
        known
            .sets
            .iter()
            .position(|set| set.name.of(reader.text) == reader.text_of(name))
    }

    /// Reads a set with its numbers. Nothing is meant by `any`.
    fn used(
        &self,
        reader: &mut Reader<'a>,
        known: &Known,
        free: &mut Vec<Span>,
    ) -> Result<Option<Condition>, ReadClaimsError> {
        let name = reader.expect_name()?;
        if reader.text_of(name) == b"any".as_slice() {
            return Ok(None);
        }
        let Some(place) = self.set_named(reader, known, name) else {
            return Err(name.error(ClaimError::UnknownName));
        };
        let Some(set) = known.sets.get(place) else {
            return Err(name.error(ClaimError::UnknownName));
        };
        let mut numbers = Vec::new(self.alloc);
        let terms = self.terms(&[], Scope::Step);
        for (k, parameter) in set.parameters.iter().enumerate() {
            let sign = if k == 0 {
                Sign::OpenSquare
            } else {
                Sign::Comma
            };
            if !reader.take(sign) {
                return Err(name.error(ClaimError::Expected));
            }
            numbers.push(Parameter {
                name: *parameter,
                amount: terms.amount(reader, free)?,
            })?;
        }
        if set.parameters.len() > 0 {
            reader.expect(Sign::CloseSquare)?;
        }
        let mut body = reader.back(set.body);
        let mut none = Vec::new(self.alloc);
        let test = self.terms(&numbers, Scope::Set).test(&mut body, &mut none)?;
        Ok(Some(test.holds))
    }

    /// Reads a step after its first word.
    fn step(
        &self,
        reader: &mut Reader<'a>,
        known: &Known,
        line: usize,
    ) -> Result<ClaimedLine, ReadClaimsError>
        ensures { IfOk result IsMeant }
    {
        let first = reader.now;
        let mut free = Vec::new(self.alloc);
        let before = self.used(reader, known, &mut free)?;
        reader.expect(Sign::Arrow)?;
        let after = self.used(reader, known, &mut free)?;
        let Restriction { asked, coins } = self.restriction(reader, &mut free)?;
        let from = first.span.from;
        let whole = Span {
            from,
            bytes: reader.past.saturating_sub(from),
        };
        let text = in_one_line(self.alloc, whole.of(reader.text))?;
        let before = self.beginning(reader, known, asked, before)?;
        let step = Step {
            words: self.word_count(),
            names: counted(free.len()),
            coins,
            before,
            after: after.unwrap_or(Condition::Anything),
        };
        Ok(ClaimedLine {
            line,
            text,
            claim: Claim::Step(step),
        })
    }

    /// Reads a property.
    fn property(
        &self,
        reader: &mut Reader<'a>,
        known: &Known,
    ) -> Result<ClaimedLine, ReadClaimsError>
        ensures { IfOk result IsMeant }
    {
        let names = self.word_texts()?;
        let property = read_property(self.alloc, names.as_slice(), reader)?;
        let sizes = self.beginning(reader, known, None, None)?;
        let Property {
            line,
            text,
            form: _form,
            holds,
        } = property;
        let step = step_of_property(self.alloc, self.word_count(), sizes, &holds)?;
        let claim = match step {
            Some(step) => Claim::Property(holds, step),
            None => Claim::Uncovered,
        };
        Ok(ClaimedLine {
            line: line as usize,
            text,
            claim,
        })
    }

    /// Returns the number of a rule's words, the clock among them.
    fn word_count(&self) -> u32 {
        counted(self.words.names.len()).saturating_add(1)
    }

    /// Returns the names of the words by their places.
    fn word_texts(&self) -> Result<Vec<String>, AllocError> {
        let mut texts = Vec::new(self.alloc);
        texts.push(String::from_str(self.alloc, "clock")?)?;
        for name in self.words.names {
            let name = str::from_utf8(name.of(self.words.rule)).unwrap_or("");
            texts.push(String::from_str(self.alloc, name)?)?;
        }
        Ok(texts)
    }

    /// Reads what follows the sets of a step.
    fn restriction(
        &self,
        reader: &mut Reader<'a>,
        free: &mut Vec<Span>,
    ) -> Result<Restriction, ReadClaimsError> {
        let terms = self.terms(&[], Scope::Step);
        let asked = if reader.take_word("if") {
            Some(terms.test(reader, free)?.holds)
        } else {
            None
        };
        if reader.is_at_word("correct") {
            return Err(reader.now.error(ClaimError::NotCovered));
        }
        let coins = if reader.take_word("coin") {
            let token = reader.now;
            let amount = terms.amount(reader, free)?;
            match coins_of(&amount) {
                Some(coins) => coins,
                None => return Err(token.error(ClaimError::NotCovered)),
            }
        } else {
            Coins::Any
        };
        Ok(Restriction { asked, coins })
    }

    /// Returns what two nodes meet before a step: the sizes, the premises, what is asked, and the set.
    fn beginning(
        &self,
        reader: &Reader<'a>,
        known: &Known,
        asked: Option<Condition>,
        set: Option<Condition>,
    ) -> Result<Condition, ReadClaimsError> {
        let token = reader.now;
        let mut parts = Vec::new(self.alloc);
        parts.push(at(token, sizes(self.alloc))?)?;
        for premise in &known.premises {
            let mut body = reader.back(*premise);
            parts.push(self.term(&mut body, Scope::Sizes)?)?;
        }
        if let Some(asked) = asked {
            parts.push(asked)?;
        }
        if let Some(set) = set {
            parts.push(set)?;
        }
        at(token, all_of(self.alloc, parts))
    }
}

/// Returns a number of names, which is far below the greatest of 32 bits.
fn counted(names: usize) -> u32 {
    u32::try_from(names).unwrap_or(u32::MAX)
}

/// Returns the coins that a number is.
fn coins_of(amount: &Amount) -> Option<Coins> {
    match (amount.known(), amount.only()) {
        (Some(coin), _) => match u32::try_from(coin) {
            Ok(coin) => Some(Coins::Fixed(coin)),
            Err(_) => None,
        },
        (None, Some(Quantity::Free(name))) => Some(Coins::Named(name)),
        (None, _) => None,
    }
}
