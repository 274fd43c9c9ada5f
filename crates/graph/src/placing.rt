// Places the nodes one by one.
ghost use Rattle.std.specs.Prelude.{◌≡◌, ℕ, ◌<◌, ◌≤◌, ◌≢◌, length, replicate, slice_index, MatchOption};
ghost use Rattle.graph.specs.Copied.{fed};
ghost use Rattle.graph.specs.Order.{IsOrder};
ghost use Rattle.graph.specs.Placing.{Feeder, Closed, FirstReady, NoneReady, LeftOver};

use crate::arcs::Arcs;
use crate::marks::{OPEN, PLACED};

/// The lowest-numbered node that feeds this one and is not placed.
pub(crate) fn open_feeder(arcs: &Arcs, marks: &[u8], node: usize) -> Option<usize>
    requires { (node < arcs.now.count) × (length marks.now ≡ 64) }
    ensures { MatchOption result (Closed (fed arcs.now) arcs.now.count marks.now node) (λ u. Feeder (fed arcs.now) arcs.now.count marks.now node u) }
{
    (0..arcs.count).find(|&feeder| marks[feeder] != PLACED && arcs.feeds(feeder, node))
}

/// The lowest-numbered node that is open and whose feeders are all placed.
fn first_ready(arcs: &Arcs, marks: &[u8]) -> Option<usize>
    requires { length marks.now ≡ 64 }
    ensures { MatchOption result (NoneReady (fed arcs.now) arcs.now.count marks.now arcs.now.count) (λ v. FirstReady (fed arcs.now) arcs.now.count marks.now v) }
{
    (0..arcs.count).find(|&node| marks[node] == OPEN && open_feeder(arcs, marks, node).is_none())
}

/// The lowest-numbered of the first `count` nodes that is open.
fn first_open(marks: &[u8], count: usize) -> Option<usize>
    requires { count ≤ length marks.now }
    ensures { MatchOption result ((v : ℕ) → v < count → slice_index marks.now v ≢ 0) (λ v. (v < count) × (slice_index marks.now v ≡ 0)) }
{
    marks.iter().take(count).position(|mark| *mark == OPEN)
}

/// Places node after node, each time the lowest-numbered that is ready. Some node is left over where there is a circle.
pub(crate) fn place_all(arcs: &Arcs, marks: &mut [u8], order: &mut [u8]) -> Option<usize>
    requires { (marks.old ≡ replicate 64 0) × (length order.old ≡ 64) }
    ensures { MatchOption result (IsOrder (fed arcs.now) arcs.now.count order.new) (λ v. LeftOver (fed arcs.now) arcs.now.count marks.new v) }
{
    let mut placed = 0;
    while let Some(node) = first_ready(arcs, marks) {
        marks[node] = PLACED;
        order[placed] = node as u8;
        placed += 1;
    }
    first_open(marks, arcs.count)
}
