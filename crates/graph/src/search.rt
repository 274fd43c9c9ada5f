// An order of a graph's nodes, or a circle among them.
ghost use Rattle.std.specs.Prelude.{◌≡◌, length, replicate};
ghost use Rattle.graph.specs.Copied.{fed};
ghost use Rattle.graph.specs.Found.{Answered, Searched};

use crate::Graph;
use crate::arcs::Arcs;
use crate::fault::ListFault;
use crate::found::{Found, NodeOrder};
use crate::marks::{Marks, OPEN};
use crate::placing::place_all;
use crate::walking::walk;

/// Searches copied arcs, by marks that are clear.
fn find(arcs: &Arcs, circle: &mut [u8], marks: &mut [u8]) -> Found
    requires { (length circle.old ≡ 64) × (marks.old ≡ replicate 64 0) }
    ensures { Answered (fed arcs.now) arcs.now.count circle.old circle.new result }
{
    let mut nodes = [0; 64];
    match place_all(arcs, marks, &mut nodes) {
        None => Found::Order(NodeOrder {
            nodes,
            count: arcs.count,
        }),
        Some(start) => Found::Circle(walk(arcs, start, marks, circle)),
    }
}

/// An order of the nodes, or a circle at the front of the circle list. Refused, both lists unchanged, where one of them is not 64 bytes long; else the marks are clear at the end, whatever they held.
#[tactic(auto, using(crate::proofs::Copies::answered))]
pub fn search<G: Graph>(graph: &G, circle: &mut [u8], marks: &mut [u8]) -> Result<Found, ListFault>
    ensures { Searched (G.arc graph.now) (G.size graph.now) circle.old circle.new marks.old marks.new result }
{
    if circle.len() != 64 {
        return Err(ListFault::CircleLength(circle.len()));
    }
    if marks.len() != 64 {
        return Err(ListFault::MarksLength(marks.len()));
    }
    let arcs = Arcs::copy(graph);
    marks.fill(OPEN);
    let held = Marks { bytes: marks };
    Ok(find(&arcs, circle, held.bytes))
}
