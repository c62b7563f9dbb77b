//! A clock for each node, without a list if there are few.
ghost use Rattle.std.specs.Prelude.{◌≡◌, ◌<◌, ◌≤◌, All, IfOk, length, map};
ghost use Rattle.bench_core.specs.Told.{told_clock};
ghost use Rattle.bench_core.specs.inner.Told.{HoldsClocks};

use crate::node::NodeSlot;
use std::alloc::{AllocError, Global};
use std::marker::Model;

/// As many clocks as this lie in the record of a pulse, so that a pulse of few nodes requests one list less.
pub(crate) const FEW: usize = 8;

/// The clocks of few nodes.
#[derive(Drop)]
struct FewClocks {
    clocks: [Option<u32>; FEW],
    count: usize,
}

impl Model for FewClocks {
    ghost use Rattle.std.specs.Prelude.{◌≤◌, ℕ, List, Option, take};
    ghost use Rattle.bench_core.specs.declared.node_clocks.TheConstants.{FEW};

    ghost Value = { List (Option ℕ) };

    ghost view = { λ f. take f.count f.clocks };

    ghost invariant = { λ f. f.count ≤ FEW };
}

impl FewClocks {
    ghost use Rattle.bench_core.specs.declared.node_clocks.TheConstants.{FEW};

    /// Returns the clocks of nodes that ran the clock program.
    fn told(nodes: &[NodeSlot]) -> FewClocks
        requires few { length nodes.now ≤ FEW }
        requires room { All (λ x. 4 ≤ length x.memory) nodes.now }
        ensures { result ≡ map told_clock nodes.now }
    {
        let count = nodes.len();
        let mut clocks = [None; FEW];
        tell_clocks(&mut clocks[..count], nodes);
        FewClocks { clocks, count }
    }

    /// Returns the clocks, in the order of the nodes.
    fn as_slice(&self) -> &[Option<u32>]
        ensures { result.now ≡ self.now }
    {
        &self.clocks[..self.count]
    }
}

/// Where clocks are: in the record itself, or in a list.
#[derive(Drop)]
enum Held {
    Few(FewClocks),
    Many(Vec<Option<u32>>),
}

/// A clock for each node that ran the bench's clock.
#[derive(Drop)]
pub struct NodeClocks {
    held: Held,
}

impl Model for NodeClocks {
    ghost use Rattle.std.specs.Prelude.{ℕ, List, Option};
    ghost use Rattle.bench_core.specs.inner.Told.{clocks_in};

    ghost Value = { List (Option ℕ) };

    ghost view = { λ c. clocks_in c.held };
}

impl NodeClocks {
    /// Returns the clocks, in the order of the nodes.
    pub fn as_slice(&self) -> &[Option<u32>]
        ensures value { result.now ≡ self.now }
    {
        match &self.held {
            Held::Few(few) => few.as_slice(),
            Held::Many(list) => list,
        }
    }

    /// Returns a list that the clocks of this many nodes need, empty if they are few.
    pub(crate) fn room(alloc: Global, count: usize) -> Result<Vec<Option<u32>>, AllocError>
        ensures { IfOk result (λ list. HoldsClocks count list.items) }
    {
        if count <= FEW {
            return Ok(Vec::new(alloc));
        }
        vec![in alloc; None; count]
    }

    /// Returns the clocks of nodes that ran the clock program, in this list if it is needed.
    pub(crate) fn told(list: Vec<Option<u32>>, nodes: &[NodeSlot]) -> NodeClocks
        requires list { HoldsClocks (length nodes.now) list.items }
        requires room { All (λ x. 4 ≤ length x.memory) nodes.now }
        ensures { result ≡ map told_clock nodes.now }
    {
        if nodes.len() <= FEW {
            return NodeClocks {
                held: Held::Few(FewClocks::told(nodes)),
            };
        }
        let mut clocks = list;
        tell_clocks(&mut clocks, nodes);
        NodeClocks {
            held: Held::Many(clocks),
        }
    }
}

/// Tells the clocks of nodes that ran the clock program.
fn tell_clocks(clocks: &mut [Option<u32>], nodes: &[NodeSlot])
    requires count { length clocks.old ≡ length nodes.now }
    requires room { All (λ x. 4 ≤ length x.memory) nodes.now }
    ensures { clocks.new ≡ map told_clock nodes.now }
{
    for i in 0..nodes.len() {
        let node = &nodes[i];
        clocks[i] = node.told_clock();
    }
}
