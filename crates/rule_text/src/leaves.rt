//! Terms of one token.
ghost use Rattle.std.specs.Prelude.{◌≡◌, Ok, Err, IfOk, IfErr, option_map};
ghost use Rattle.rule_text.specs.Forms.{term_form, leaf_form};
ghost use Rattle.rule_text.specs.Terms.{named_term, leaf_of, leaf, named_leaf, leaf_by, leaf_read};

use crate::errors::{ReadRuleError, RuleError};
use crate::lexemes::{Kind, Token};
use crate::scope::{Entry, Meaning, error_at, error_in, meaning_of};
use crate::signs::Sign;
use node_env::NO_MAIL;
use rule_syntax::Term;

/// A term of one token, which a lookup in a table repeats.
#[derive(Clone, Copy)]
pub enum Leaf {
    Number(u32),
    Nodes,
    Faults,
    Modulus,
    Me,
    Coin,
    LoopNode(u32),
    Local(u32),
    Word(u32),
}

pub fn leaf_term(leaf: Leaf) -> Term
    ensures { term_form result ≡ leaf_form leaf }
{
    match leaf {
        Leaf::Number(v) => Term::Number(v),
        Leaf::Nodes => Term::Nodes,
        Leaf::Faults => Term::Faults,
        Leaf::Modulus => Term::Modulus,
        Leaf::Me => Term::Me,
        Leaf::Coin => Term::Coin,
        Leaf::LoopNode(i) => Term::LoopNode(i),
        Leaf::Local(k) => Term::Local(k),
        Leaf::Word(k) => Term::Word(k),
    }
}

/// Returns the term that a name means, if it is no table's.
fn named_term(meaning: Meaning) -> Option<Leaf>
    ensures { option_map leaf_form result ≡ named_term meaning }
{
    match meaning {
        Meaning::Local(k) => Some(Leaf::Local(k)),
        Meaning::LoopNode(k) => Some(Leaf::LoopNode(k)),
        Meaning::Word(k) => Some(Leaf::Word(k)),
        Meaning::Table(_) => None,
    }
}

/// Returns the term that a word is by itself.
pub fn leaf_of(sign: Sign) -> Option<Leaf>
    ensures { option_map leaf_form result ≡ leaf_of sign }
{
    match sign {
        Sign::Nodes => Some(Leaf::Nodes),
        Sign::Faults => Some(Leaf::Faults),
        Sign::Modulus => Some(Leaf::Modulus),
        Sign::Me => Some(Leaf::Me),
        Sign::Coin => Some(Leaf::Coin),
        Sign::NoMessage => Some(Leaf::Number(NO_MAIL)),
        Sign::Clock => Some(Leaf::Word(0)),
        _ => None,
    }
}

/// Returns a term that was found at a token.
pub fn found_leaf(found: Option<Leaf>, t: Token) -> Result<Leaf, ReadRuleError>
    ensures read { IfOk result (λ x. leaf (option_map leaf_form found) t ≡ Ok (leaf_form x)) }
    ensures error { IfErr result (λ e. leaf (option_map leaf_form found) t ≡ Err e) }
{
    match found {
        Some(x) => Ok(x),
        None => Err(error_at(RuleError::Expected, t)),
    }
}

/// Returns the term that a name means.
pub fn named_leaf(meaning: Option<Meaning>, t: Token) -> Result<Leaf, ReadRuleError>
    ensures read { IfOk result (λ x. named_leaf meaning t ≡ Ok (leaf_form x)) }
    ensures error { IfErr result (λ e. named_leaf meaning t ≡ Err e) }
{
    match meaning {
        Some(meaning) => found_leaf(named_term(meaning), t),
        None => Err(error_at(RuleError::UnknownName, t)),
    }
}

fn leaf_at(text: &[u8], names: &[Entry], t: Token) -> Result<Leaf, ReadRuleError>
    ensures read { IfOk result (λ x. leaf_by text.now names.now t.kind t ≡ Ok (leaf_form x)) }
    ensures error { IfErr result (λ e. leaf_by text.now names.now t.kind t ≡ Err e) }
{
    match t.kind {
        Kind::Number(v) => Ok(Leaf::Number(v)),
        Kind::Named(name) => named_leaf(meaning_of(text, names, name), t),
        Kind::Mark(sign) => found_leaf(leaf_of(sign), t),
        _ => Err(error_at(RuleError::Expected, t)),
    }
}

/// Reads a term of one token.
pub fn leaf_in<'a>(
    text: &[u8],
    names: &[Entry],
    tokens: &'a [Token],
) -> Result<(Leaf, &'a [Token]), ReadRuleError>
    ensures read { IfOk result (λ x. leaf_read text.now names.now tokens.now ≡ Ok (leaf_form x.0, x.1.now)) }
    ensures error { IfErr result (λ e. leaf_read text.now names.now tokens.now ≡ Err e) }
{
    match tokens {
        [first, rest @ ..] => Ok((leaf_at(text, names, *first)?, rest)),
        [] => Err(error_in(RuleError::Expected, tokens)),
    }
}
