// The copied arcs.
ghost use Rattle.std.specs.Prelude.{◌≡◌, ℕ, ◌<◌, false, slice_index_or};
ghost use Rattle.graph.specs.Copied.{fed, Copied};

use super::Arcs;
use crate::Graph;

/// Which nodes a node feeds.
fn row<G: Graph>(graph: &G, feeder: usize) -> [bool; 64]
    ensures { (v : ℕ) → v < G.size graph.now → slice_index_or result v false ≡ G.arc graph.now feeder v }
{
    let mut row = [false; 64];
    for node in 0..graph.nodes() {
        row[node] = graph.feeds(feeder, node);
    }
    row
}

impl Arcs {
    /// Copies a graph's arcs.
    pub(crate) fn copy<G: Graph>(graph: &G) -> Arcs
        ensures { Copied (G.arc graph.now) (G.size graph.now) result }
    {
        let count = graph.nodes();
        let mut rows = [[false; 64]; 64];
        for feeder in 0..count {
            rows[feeder] = row(graph, feeder);
        }
        Arcs { rows, count }
    }

    /// Whether a node feeds another.
    pub(crate) fn feeds(&self, feeder: usize, node: usize) -> bool
        requires { (feeder < self.now.count) × (node < self.now.count) }
        ensures { result ≡ fed self.now feeder node }
    {
        self.rows[feeder][node]
    }
}
