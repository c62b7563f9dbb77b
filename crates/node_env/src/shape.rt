//! How many nodes there are, and how much memory each has.
ghost use Rattle.std.specs.Prelude.{◌≡◌, ◌≤◌, IsSome, IfSome, ◌↔◌};
ghost use Rattle.node_env.specs.Env.{IsExtent, region_size};

use crate::region::{Region, STACK_BYTES};
use std::marker::Model;

/// The most nodes of a shape.
pub const MAX_NODES: u32 = 64;

/// The most bytes of memory of a node.
pub const MAX_MEMORY: u32 = 256;

/// A node's memory is a multiple of this many bytes, and not empty.
pub const MEMORY_UNIT: u32 = 8;

/// The number of nodes, and of bytes of memory of each.
#[derive(Clone, Copy, Debug, PartialEq, Eq)]
pub struct Shape {
    nodes: u32,
    memory: u32,
}

impl Model for Shape {
    ghost use Rattle.node_env.specs.Env.{Extent, IsExtent};

    ghost Value = { Extent };

    ghost view = { λ s. record { nodes = s.nodes; memory = s.memory } };

    ghost invariant = { λ s. IsExtent s.nodes s.memory };

    ghost inverse = { λ e. record { nodes = e.nodes; memory = e.memory } };
}

impl Shape {
    /// Returns the shape of 1 to `MAX_NODES` nodes with `MEMORY_UNIT` to `MAX_MEMORY` bytes each, a multiple of
    /// `MEMORY_UNIT`.
    pub fn of(nodes: u32, memory: u32) -> Option<Shape>
        ensures value { IfSome result (λ shape. (shape.nodes ≡ nodes) × (shape.memory ≡ memory)) }
        ensures some { IsSome result ↔ IsExtent nodes memory }
    {
        if nodes < 1 || nodes > MAX_NODES {
            return None;
        }
        if memory < MEMORY_UNIT || memory > MAX_MEMORY || memory % MEMORY_UNIT != 0 {
            return None;
        }
        Some(Shape { nodes, memory })
    }

    /// Returns the number of nodes.
    pub fn nodes(self) -> u32
        ensures value { result ≡ self.nodes }
        ensures extent { IsExtent self.nodes self.memory }
    {
        self.nodes
    }

    /// Returns the bytes of each node's memory.
    pub fn memory(self) -> u32
        ensures value { result ≡ self.memory }
        ensures extent { IsExtent self.nodes self.memory }
    {
        self.memory
    }

    /// Returns the bytes of a region.
    pub fn region_size(self, region: Region) -> u32
        ensures value { result ≡ region_size self region }
        ensures small { result ≤ STACK_BYTES }
    {
        match region {
            Region::Mem => self.memory,
            Region::Stack => STACK_BYTES,
        }
    }
}
