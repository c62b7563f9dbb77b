//! The bench that is stressed.

ghost use Rattle.std.specs.Prelude.{◌≡◌};
ghost use Rattle.bench_core.specs.Views.{setup_of};
ghost use Rattle.bench_stress.specs.Stressed.{stressed_setup};

use clock_nodes::ClockRule;
use node_env::Shape;

/// The nodes of the bench that is stressed.
pub const NODES: u32 = 4;

/// How many of them may be faulty.
pub const FAULTS: u32 = 1;

/// The modulus of their clocks.
pub const MODULUS: u32 = 16;

/// The bytes of a node's memory.
pub const MEMORY: u32 = 8;

/// Returns the shape of the nodes, and the rule of their clocks.
pub(crate) fn setup() -> (Shape, ClockRule)
    ensures nodes { result.1.nodes ≡ result.0.nodes }
    ensures setup { setup_of result.0 result.1 ≡ stressed_setup }
{
    match (
        Shape::of(NODES, MEMORY),
        ClockRule::of(NODES, FAULTS, MODULUS),
    ) {
        (Some(shape), Some(rule)) => (shape, rule),
        _ => unreachable!(),
    }
}
