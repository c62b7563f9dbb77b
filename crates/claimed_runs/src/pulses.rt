//! The verdicts on properties in a pulse.
ghost use Rattle.std.specs.Prelude.{◌≡◌, Bool, IfOk, List, false, map, true};
ghost use Rattle.bench_workers.specs.Watching.{seen_of};
ghost use Rattle.properties.specs.Claims.{claims_in_view};
ghost use Rattle.properties.specs.Pairs.{JudgedNode, has_before};
ghost use Rattle.properties.specs.Verdicts.{verdict_of_pulse};
ghost use Rattle.properties.specs.Views.{node_in_view};
ghost use Rattle.claimed_runs.specs.Claims.{claimed_pulse, judged_nodes, property_verdict};
ghost use Rattle.claimed_runs.specs.Views.{memory_lists};

use crate::nodes::judged_nodes;
use bench_workers::Shown;
use properties::{NodeView, Property, PropertyVerdict, PulseClaims, has_before, verdict_of};
use rule_syntax::Sizes;
use std::alloc::{AllocError, Global};

/// The nodes of a pulse: those of which properties speak that don't look back, and those of which others do.
#[derive(Drop)]
struct PulseNodes<'a> {
    settled: Vec<NodeView<'a>>,
    settled_before: Vec<NodeView<'a>>,
}

/// Returns the verdict on a property in a pulse.
fn property_verdict(sizes: Sizes, nodes: &PulseNodes<'_>, property: &Property) -> PropertyVerdict
    ensures { (ns : Bool → List JudgedNode) → map node_in_view nodes.now.settled.items ≡ ns false
        → map node_in_view nodes.now.settled_before.items ≡ ns true → result
        ≡ verdict_of_pulse property.now.holds.term sizes (ns (has_before property.now.holds.term)) }
{
    let term = &property.holds.term;
    if has_before(term) {
        verdict_of(term, sizes, nodes.settled_before.as_slice())
    } else {
        verdict_of(term, sizes, nodes.settled.as_slice())
    }
}

/// Returns the verdicts on properties in a pulse that was shown, with the memories that the pulse before left.
pub fn pulse_claims(
    alloc: Global,
    properties: &[Property],
    sizes: Sizes,
    shown: &Shown,
    before: &[Vec<u8>],
) -> Result<PulseClaims, AllocError>
    ensures { IfOk result (λ claims. claims_in_view claims ≡ claimed_pulse properties.now sizes
        (memory_lists before.now) (seen_of shown.now)) }
{
    let nodes = PulseNodes {
        settled: judged_nodes(alloc, shown, before, false)?,
        settled_before: judged_nodes(alloc, shown, before, true)?,
    };
    let mut verdicts = Vec::new(alloc);
    for property in properties {
        verdicts.push(property_verdict(sizes, &nodes, property))?;
    }
    let told = shown.told;
    Ok(PulseClaims {
        pulse: told.row.pulse,
        verdicts,
    })
}
