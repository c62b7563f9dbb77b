//! The numbers of the clocks' rule.
ghost use Rattle.std.specs.Prelude.{◌≡◌, IfSome, IsSome, ◌↔◌};
ghost use Rattle.clock_nodes.specs.Rule.{IsRule, quorum_of};

use node_env::MAX_NODES;
use std::marker::Model;

/// The least modulus of a rule: a clock needs two numbers.
pub const LEAST_MODULUS: u32 = 2;

/// The most.
pub const MAX_MODULUS: u32 = 65_536;

/// The rule of the clocks (docs/CLOCK.md, "The rule") for this many nodes, of which this many may be faulty, with
/// clocks below the modulus.
#[derive(Clone, Copy, Debug, PartialEq, Eq)]
pub struct ClockRule {
    nodes: u32,
    faults: u32,
    modulus: u32,
}

impl Model for ClockRule {
    ghost use Rattle.clock_nodes.specs.Rule.{Rule, IsRule};

    ghost Value = { Rule };

    ghost view = { λ r. record { nodes = r.nodes; faults = r.faults; modulus = r.modulus } };

    ghost invariant = { λ r. IsRule r.nodes r.faults r.modulus };

    ghost inverse = { λ r. record { nodes = r.nodes; faults = r.faults; modulus = r.modulus } };
}

impl ClockRule {
    /// Returns the rule, or none if a number is out of range: 1 to `MAX_NODES` nodes, fewer faults than nodes, and a
    /// modulus from `LEAST_MODULUS` to `MAX_MODULUS`. It doesn't ask n > 3f; agreement is proved if n > 2f + t, where
    /// t nodes aren't settled (docs/CLOCK.md, "Why it holds").
    pub fn of(nodes: u32, faults: u32, modulus: u32) -> Option<ClockRule>
        ensures value { IfSome result (λ r. r ≡ record { nodes = nodes; faults = faults; modulus = modulus }) }
        ensures some { IsSome result ↔ IsRule nodes faults modulus }
    {
        if nodes < 1 || nodes > MAX_NODES || faults >= nodes {
            return None;
        }
        if modulus < LEAST_MODULUS || modulus > MAX_MODULUS {
            return None;
        }
        Some(ClockRule {
            nodes,
            faults,
            modulus,
        })
    }

    /// Returns the number of nodes.
    pub fn nodes(self) -> u32
        ensures value { result ≡ self.nodes }
        ensures rule { IsRule self.nodes self.faults self.modulus }
    {
        self.nodes
    }

    /// Returns how many nodes may be faulty.
    pub fn faults(self) -> u32
        ensures value { result ≡ self.faults }
        ensures rule { IsRule self.nodes self.faults self.modulus }
    {
        self.faults
    }

    /// Returns the modulus of the clocks.
    pub fn modulus(self) -> u32
        ensures value { result ≡ self.modulus }
        ensures rule { IsRule self.nodes self.faults self.modulus }
    {
        self.modulus
    }

    /// Returns how many messages make a clock go on: one from each node but the faulty ones.
    pub fn quorum(self) -> u32
        ensures value { result ≡ quorum_of self }
        ensures rule { IsRule self.nodes self.faults self.modulus }
    {
        self.nodes - self.faults
    }
}
