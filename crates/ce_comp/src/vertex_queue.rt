// A priority queue of vertices.
ghost use Rattle.std.specs.Prelude.{◌≡◌, ◌≤◌, ◌∷◌, [], ℕ, List, map, All, IfOk, OnOk, IfSome, IfNone, IsPermutation};
ghost use Rattle.std.specs.BinaryHeap.{IsHeap, heap_items};
ghost use Rattle.std.specs.Ordering.{nat_cmp};

use std::alloc::{AllocError, Global};
use std::cmp::Reverse;
use std::collections::BinaryHeap;
use std::marker::Model;

/// A priority queue of vertices, of which the least comes first.
#[derive(Drop)]
pub(crate) struct VertexQueue {
    heap: BinaryHeap<Reverse<u32>>,
}

impl Model for VertexQueue {
    ghost Value = { List ℕ };

    ghost view = { λ q. map (λ v. v.0) (heap_items q.heap) };

    ghost invariant = { λ q. IsHeap (λ x y. nat_cmp y.0 x.0) (heap_items q.heap) };
}

impl VertexQueue {
    /// An empty queue, with room for a number of vertices.
    pub(crate) fn with_capacity(alloc: Global, capacity: usize) -> Result<VertexQueue, AllocError>
        ensures { IfOk result (λ q. q ≡ []) }
    {
        let heap = BinaryHeap::with_capacity(alloc, capacity)?;
        Ok(VertexQueue { heap })
    }

    /// Adds a vertex.
    pub(crate) fn push(&mut self, vertex: u32) -> Result<(), AllocError>
        ensures { OnOk result (IsPermutation (vertex ∷ self.old) self.new) }
    {
        self.heap.push(Reverse(vertex))?;
        Ok(())
    }

    /// Takes the least vertex out.
    pub(crate) fn pop(&mut self) -> Option<u32>
        ensures least { IfSome result (λ v. All (λ x. v ≤ x) self.new) }
        ensures taken { IfSome result (λ v. IsPermutation self.old (v ∷ self.new)) }
        ensures none { IfNone result (self.old ≡ []) }
    {
        let top = self.heap.pop()?;
        Some(top.0)
    }
}
