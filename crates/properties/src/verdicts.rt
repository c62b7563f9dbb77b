//! Whether a term holds in a pulse.
ghost use Rattle.std.specs.Prelude.{◌≡◌, map, true};
ghost use Rattle.properties.specs.Pairs.{is_pair_term};
ghost use Rattle.properties.specs.Verdicts.{first_violated, verdict_of_pulse, violated_with};
ghost use Rattle.properties.specs.Views.{node_in_view};

use crate::pairs::{NodeView, PairView, number_of};
use rule_meaning::truth_of;
use rule_syntax::{Sizes, Term};

/// What a property's term says of a pulse: nothing if no node is judged; otherwise that it holds for any two of them,
/// or the first two for which it doesn't.
#[derive(Clone, Copy, Debug, PartialEq, Eq)]
pub enum PropertyVerdict {
    NotJudged,
    Holds,
    Violated { first: u32, second: u32 },
}

/// Returns the verdict on a node with each of these.
fn violated_with(
    t: &Term,
    sizes: Sizes,
    first: &NodeView<'_>,
    nodes: &[NodeView<'_>],
) -> PropertyVerdict
    requires { is_pair_term t.now ≡ true }
    ensures { result ≡ violated_with t.now sizes (node_in_view first.now) (map node_in_view nodes.now) }
{
    for second in nodes {
        let pair = PairView {
            first: *first,
            second: *second,
        };
        if !truth_of(number_of(t, sizes, &pair)) {
            return PropertyVerdict::Violated {
                first: first.node,
                second: second.node,
            };
        }
    }
    PropertyVerdict::Holds
}

/// Returns the first verdict that isn't that the term holds.
fn first_violated(t: &Term, sizes: Sizes, nodes: &[NodeView<'_>]) -> PropertyVerdict
    requires { is_pair_term t.now ≡ true }
    ensures { result ≡ first_violated t.now sizes (map node_in_view nodes.now) (map node_in_view nodes.now) }
{
    for first in nodes {
        let verdict = violated_with(t, sizes, first, nodes);
        match verdict {
            PropertyVerdict::Violated { .. } => return verdict,
            PropertyVerdict::NotJudged | PropertyVerdict::Holds => {}
        }
    }
    PropertyVerdict::Holds
}

/// Returns the verdict on a term in a pulse in which these nodes are judged.
pub fn verdict_of(t: &Term, sizes: Sizes, nodes: &[NodeView<'_>]) -> PropertyVerdict
    requires { is_pair_term t.now ≡ true }
    ensures { result ≡ verdict_of_pulse t.now sizes (map node_in_view nodes.now) }
{
    if nodes.is_empty() {
        PropertyVerdict::NotJudged
    } else {
        first_violated(t, sizes, nodes)
    }
}
