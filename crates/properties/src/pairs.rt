//! The number of a term for two nodes in a pulse.
ghost use Rattle.std.specs.Prelude.{◌≡◌, ◌<◌, ◌^◌, All, slice_index, true};
ghost use Rattle.rule_meaning.specs.Meaning.{word_at};
ghost use Rattle.properties.specs.Pairs.{is_pair_term, node_on_side, number_of_name, pair_number};
ghost use Rattle.properties.specs.Views.{node_in_view};

use crate::names::{PairName, Side, name_of};
use rule_meaning::{combined, number_of_bit, operate_of, truth_of};
use rule_syntax::{Sizes, Term};

/// A node in a pulse: its number, and its memory after the pulse and before it.
#[derive(Clone, Copy)]
pub struct NodeView<'a> {
    pub node: u32,
    pub after: &'a [u8],
    pub before: &'a [u8],
}

/// Two nodes in a pulse, p and q.
#[derive(Clone, Copy)]
pub struct PairView<'a> {
    pub first: NodeView<'a>,
    pub second: NodeView<'a>,
}

fn byte_at(memory: &[u8], place: usize) -> u32
    ensures is { result ≡ slice_index memory.now place }
    ensures byte { result < 256 }
{
    if place < memory.len() {
        u32::from(memory[place])
    } else {
        0
    }
}

/// Returns a word of a memory: four bytes, the lowest first.
fn memory_word(memory: &[u8], word: u32) -> u32
    ensures { result ≡ word_at word memory.now }
{
    let first = 4 * word as usize;
    let upper = byte_at(memory, first + 2) + 256 * byte_at(memory, first + 3);
    byte_at(memory, first) + 256 * (byte_at(memory, first + 1) + 256 * upper)
}

fn node_on<'a>(side: Side, pair: &PairView<'a>) -> NodeView<'a>
    ensures { node_in_view result
        ≡ node_on_side side (node_in_view pair.now.first) (node_in_view pair.now.second) }
{
    match side {
        Side::First => pair.first,
        Side::Second => pair.second,
    }
}

/// Returns the number that a name is for two nodes.
fn named_number(name: PairName, pair: &PairView<'_>) -> u32
    ensures { result ≡ number_of_name name (node_in_view pair.now.first) (node_in_view pair.now.second) }
{
    match name {
        PairName::Number(side) => {
            let seen = node_on(side, pair);
            seen.node
        }
        PairName::After(side, word) => {
            let seen = node_on(side, pair);
            memory_word(seen.after, word)
        }
        PairName::Before(side, word) => {
            let seen = node_on(side, pair);
            memory_word(seen.before, word)
        }
    }
}

/// Returns the number of a term for two nodes in a pulse.
pub fn number_of(t: &Term, sizes: Sizes, pair: &PairView<'_>) -> u32
    requires { is_pair_term t.now ≡ true }
    ensures { result ≡ pair_number t.now sizes (node_in_view pair.now.first) (node_in_view pair.now.second) }
{
    match t {
        Term::Number(number) => *number,
        Term::Nodes => sizes.nodes,
        Term::Faults => sizes.faults,
        Term::Modulus => sizes.modulus,
        Term::Local(local) => named_number(name_of(*local), pair),
        Term::Binary(operator, a, b) => {
            operate_of(
                *operator,
                number_of(a, sizes, pair),
                number_of(b, sizes, pair),
            )
        }
        Term::Logical(connective, a, b) => {
            let first = truth_of(number_of(a, sizes, pair));
            let second = truth_of(number_of(b, sizes, pair));
            number_of_bit(combined(*connective, first, second))
        }
        Term::Not(a) => number_of_bit(!truth_of(number_of(a, sizes, pair))),
        Term::Choice(t, a, b) => {
            if truth_of(number_of(t, sizes, pair)) {
                number_of(a, sizes, pair)
            } else {
                number_of(b, sizes, pair)
            }
        }
        Term::Me | Term::Coin | Term::LoopNode(_) | Term::Word(_) => 0,
        Term::Message(_) | Term::Count(_) | Term::Least(_) | Term::Sorted(_, _) => 0,
    }
}
