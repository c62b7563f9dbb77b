//! A flag for each node, without a list.
ghost use Rattle.std.specs.Prelude.{◌≡◌, ◌≤◌, length, map};
ghost use Rattle.bench_core.specs.inner.Told.{both_marked};

use crate::found::PLACES;
use crate::node::NodeSlot;
use std::marker::Model;

/// A flag for each node. The flags lie in the record of a pulse, so that a pulse requests one list less.
#[derive(Drop)]
pub struct NodeFlags {
    flags: [bool; PLACES],
    count: usize,
}

impl Model for NodeFlags {
    ghost use Rattle.std.specs.Prelude.{◌≤◌, Bool, List, take};
    ghost use Rattle.bench_core.specs.declared.found.TheConstants.{PLACES};

    ghost Value = { List Bool };

    ghost view = { λ f. take f.count f.flags };

    ghost invariant = { λ f. f.count ≤ PLACES };
}

impl NodeFlags {
    ghost use Rattle.bench_core.specs.declared.found.TheConstants.{PLACES};

    /// Returns the flags, in the order of the nodes.
    pub fn as_slice(&self) -> &[bool]
        ensures { result.now ≡ self.now }
    {
        &self.flags[..self.count]
    }

    /// Returns the marks of nodes.
    pub(crate) fn marks(nodes: &[NodeSlot]) -> NodeFlags
        requires { length nodes.now ≤ PLACES }
        ensures { result ≡ map (λ x. x.mark) nodes.now }
    {
        let count = nodes.len();
        let mut flags = [false; PLACES];
        mark(&mut flags[..count], nodes);
        NodeFlags { flags, count }
    }

    /// Returns those marks that the nodes have again.
    pub(crate) fn kept(self, nodes: &[NodeSlot]) -> NodeFlags
        requires { length self ≡ length nodes.now }
        ensures marks { result ≡ both_marked self nodes.now }
        ensures count { length result ≡ length nodes.now }
    {
        let NodeFlags { mut flags, count } = self;
        settle(&mut flags[..count], nodes);
        NodeFlags { flags, count }
    }
}

/// Takes the marks of nodes.
fn mark(marks: &mut [bool], nodes: &[NodeSlot])
    requires { length marks.old ≡ length nodes.now }
    ensures { marks.new ≡ map (λ x. x.mark) nodes.now }
{
    for i in 0..nodes.len() {
        let node = &nodes[i];
        marks[i] = node.mark;
    }
}

/// Leaves those marks that the nodes have again.
fn settle(marks: &mut [bool], nodes: &[NodeSlot])
    requires { length marks.old ≡ length nodes.now }
    ensures { marks.new ≡ both_marked marks.old nodes.now }
{
    for i in 0..nodes.len() {
        let node = &nodes[i];
        marks[i] = marks[i] && node.mark;
    }
}
