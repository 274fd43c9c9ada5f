ghost use Rattle.std.specs.Prelude.{◌≡◌, ℕ, ◌+◌, ◌*◌, ◌≤◌, Bool, ◌&&◌, nat_lt, slice_index_or, false};
ghost use Rattle.std.proofs.Common.{rules};

use graph::Graph;

/// A graph of at most 8 nodes by a cell for each pair of nodes: whether the first feeds the second, at 8 times the first and the second.
#[derive(Drop)]
pub(crate) struct Table {
    cells: [bool; 64],
    count: usize,
    ghost few: { count ≤ 8 },
}

impl Graph for Table {
    ghost size = { λ t. t.count };

    ghost arc = { λ t a b. nat_lt a t.count && (nat_lt b t.count && slice_index_or t.cells (a * 8 + b) false) };

    ghost few = { Prim.search rules };

    fn nodes(&self) -> usize {
        self.count
    }

    fn feeds(&self, feeder: usize, node: usize) -> bool {
        feeder < self.count && node < self.count && self.cells[feeder * 8 + node]
    }
}

impl Table {
    /// A graph of so many nodes, at most 8, with these arcs.
    pub(crate) fn new(arcs: &[(usize, usize)], count: usize) -> Table {
        let mut cells = [false; 64];
        for (feeder, node) in arcs {
            if *feeder < 8 && *node < 8 {
                cells[*feeder * 8 + *node] = true;
            }
        }
        Table {
            cells,
            count: count.min(8),
        }
    }
}
