//! The lines of the statements of a text.
ghost use Rattle.std.specs.Prelude.{◌≡◌, ◌++◌, IfOk, OnOk};
ghost use Rattle.rule_text.specs.Lines.{spot_after, begins_statement, token_line, token_lines_from, statement_lines};

use crate::layout::laid_out;
use crate::lexemes::{Kind, Token, lexemes};
use crate::signs::Sign;
use std::alloc::{AllocError, Global};

/// Where a token is: where a statement can begin, in an aggregate before its colon, where a name would be the node of an
/// aggregate (after another name, `least`, or after the bracket of `sorted`), or elsewhere.
#[derive(Clone, Copy)]
pub enum Spot {
    Front,
    Counting,
    BeforeNode,
    Inside,
}

/// Returns where the token after one is.
fn spot_after(spot: Spot, kind: Kind) -> Spot
    ensures { result ≡ spot_after spot kind }
{
    match kind {
        Kind::Mark(Sign::Colon) => match spot {
            Spot::Counting => Spot::Inside,
            _ => Spot::Front,
        },
        Kind::Mark(Sign::Count) => Spot::Counting,
        Kind::LineStart => Spot::Front,
        Kind::Named(_) => match spot {
            Spot::Counting => Spot::Counting,
            Spot::BeforeNode => Spot::Counting,
            _ => Spot::BeforeNode,
        },
        Kind::Mark(Sign::CloseSquare) => match spot {
            Spot::Counting => Spot::Counting,
            _ => Spot::BeforeNode,
        },
        _ => match spot {
            Spot::Counting => Spot::Counting,
            _ => Spot::Inside,
        },
    }
}

fn begins_statement(kind: Kind) -> bool
    ensures { result ≡ begins_statement kind }
{
    match kind {
        Kind::LineStart => false,
        Kind::TextEnd => false,
        Kind::Mark(Sign::State) => false,
        Kind::Mark(Sign::Table) => false,
        Kind::Mark(Sign::Else) => false,
        _ => true,
    }
}

/// Appends the line of the statement that begins with a token, if one does.
fn push_line(lines: &mut Vec<usize>, spot: Spot, t: Token) -> Result<(), AllocError>
    ensures { OnOk result (lines.new.items ≡ lines.old.items ++ token_line spot t) }
{
    match spot {
        Spot::Front => {
            if begins_statement(t.kind) {
                lines.push(t.line)?;
            }
            Ok(())
        }
        _ => Ok(()),
    }
}

/// Returns the lines of the statements that begin with these tokens.
#[tactic(auto, using(crate::proofs::LineLemmas::next_line))]
fn lines_of(alloc: Global, tokens: &[Token]) -> Result<Vec<usize>, AllocError>
    ensures { IfOk result (λ lines. lines.items ≡ token_lines_from Spot.Inside tokens.now) }
{
    let mut lines = Vec::new(alloc);
    let mut spot = Spot::Inside;
    for t in tokens {
        push_line(&mut lines, spot, *t)?;
        spot = spot_after(spot, t.kind);
    }
    Ok(lines)
}

/// Returns the line of each statement of a text, in the order of the text. If the text is read as a rule, these are as
/// many as the rule has statements: entry k is for the statement that `owners_of` of `rule_nodes` calls k.
pub fn statement_lines(alloc: Global, text: &[u8]) -> Result<Vec<usize>, AllocError>
    ensures { IfOk result (λ lines. lines.items ≡ statement_lines text.now) }
{
    let found = lexemes(alloc, text)?;
    let tokens = laid_out(alloc, &found)?;
    lines_of(alloc, &tokens)
}
