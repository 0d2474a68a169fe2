// The edges between different components.
ghost use Rattle.std.specs.Prelude.{◌≡◌, ◌<◌, ◌+◌, length, slice_index, IfOk, OnOk};
ghost use Rattle.ce_comp.specs.SettlingInside.{AreEdges, IsAdded};

use ce_rows::{Row, Rows};
use std::alloc::{AllocError, Global};

/// The edges of rows between different components: the component that each starts from, and the
/// one that it leads to.
#[derive(Drop)]
pub(crate) struct Edges {
    pub(crate) sources: Vec<u32>,
    pub(crate) targets: Vec<u32>,
}

impl Edges {
    // Adds the edge from a vertex to another one, unless both are in one component.
    fn add(&mut self, of_vertex: &[u32], from: u32, to: u32) -> Result<(), AllocError>
        requires from { from < length of_vertex.now }
        requires to { to < length of_vertex.now }
        ensures { OnOk result (IsAdded self.old.sources.items self.old.targets.items
            self.new.sources.items self.new.targets.items (slice_index of_vertex.now from)
            (slice_index of_vertex.now to)) }
    {
        let source = of_vertex[from as usize];
        let target = of_vertex[to as usize];
        if source != target {
            self.sources.push(source)?;
            self.targets.push(target)?;
        }
        Ok(())
    }

    // Adds the edges of the next vertex.
    fn add_row(&mut self, rows: &Rows, of_vertex: &[u32], vertex: u32) -> Result<(), AllocError>
        requires each { length of_vertex.now ≡ length rows.now.list }
        requires vertex { vertex < length rows.now.list }
        requires edges { AreEdges rows.now.list of_vertex.now self.old.sources.items
            self.old.targets.items vertex }
        ensures { OnOk result (AreEdges rows.now.list of_vertex.now self.new.sources.items
            self.new.targets.items (vertex + 1)) }
    {
        match rows.row(vertex) {
            Row::One(x) => self.add(of_vertex, vertex, x),
            Row::Two(x, y) => {
                self.add(of_vertex, vertex, x)?;
                self.add(of_vertex, vertex, y)
            }
        }
    }

    /// The edges, by the components of the vertices.
    pub(crate) fn of(alloc: Global, rows: &Rows, of_vertex: &[u32]) -> Result<Edges, AllocError>
        requires { length of_vertex.now ≡ length rows.now.list }
        ensures { IfOk result (λ e.
            AreEdges rows.now.list of_vertex.now e.sources.items e.targets.items (length rows.now.list)) }
    {
        let mut edges = Edges {
            sources: Vec::with_capacity(alloc, of_vertex.len())?,
            targets: Vec::with_capacity(alloc, of_vertex.len())?,
        };
        for vertex in 0..rows.len() {
            edges.add_row(rows, of_vertex, vertex)?;
        }
        Ok(edges)
    }
}
