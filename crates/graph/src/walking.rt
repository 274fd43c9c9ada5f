// Walks from a node that is left over back to a circle.
ghost use Rattle.std.specs.Prelude.{◌≡◌, ℕ, ◌<◌, ◌≤◌, length, slice_index, MatchOption};
ghost use Rattle.graph.specs.Copied.{fed};
ghost use Rattle.graph.specs.Order.{Shown};
ghost use Rattle.graph.specs.Placing.{Lacks, LeftOver, Taken};

use crate::arcs::Arcs;
use crate::marks::ON_PATH;
use crate::placing::open_feeder;

/// Where a node first stands in a list.
fn place_of(node: usize, list: &[u8]) -> Option<usize>
    ensures { MatchOption result (Lacks list.now node) (λ k. (k < length list.now) × (slice_index list.now k ≡ node)) }
{
    list.iter().position(|other| *other as usize == node)
}

/// Copies the path up to where this node stands to the front of the circle list.
fn copy_until(node: usize, path: &[u8], circle: &mut [u8]) -> usize
    requires lengths { (length path.now ≤ 64) × (length circle.old ≡ 64) }
    requires met { Lacks path.now node → ⊥ }
    ensures { Taken path.now node circle.old circle.new result }
{
    let Some(place) = place_of(node, path) else {
        unreachable()
    };
    let count = place + 1;
    circle[..count].copy_from_slice(&path[..count]);
    count
}

/// Walks back over feeders that are not placed until a node comes again, and shows the circle.
pub(crate) fn walk(arcs: &Arcs, start: usize, marks: &mut [u8], circle: &mut [u8]) -> usize
    requires lengths { (length circle.old ≡ 64) × (length marks.old ≡ 64) }
    requires start { LeftOver (fed arcs.now) arcs.now.count marks.old start }
    ensures { Shown (fed arcs.now) arcs.now.count circle.old circle.new result }
{
    let mut path = [0u8; 64];
    let mut top = 64;
    let mut node = start;
    loop {
        marks[node] = ON_PATH;
        top -= 1;
        path[top] = node as u8;
        let Some(feeder) = open_feeder(arcs, marks, node) else {
            unreachable()
        };
        if marks[feeder] == ON_PATH {
            return copy_until(feeder, &path[top..], circle);
        }
        node = feeder;
    }
}
