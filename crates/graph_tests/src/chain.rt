ghost use Rattle.std.specs.Prelude.{◌≡◌, ℕ, ◌+◌, ◌≤◌, Bool, nat_eq, if◌then◌else◌};
ghost use Rattle.std.proofs.Common.{rules};

use graph::Graph;

/// So many nodes, at most 64, each feeding the one after it, or the one before it.
#[derive(Drop)]
pub(crate) struct Chain {
    count: usize,
    backwards: bool,
    ghost few: { count ≤ 64 },
}

impl Graph for Chain {
    ghost size = { λ t. t.count };

    ghost arc = { λ t a b. (if t.backwards then nat_eq a (b + 1) else nat_eq b (a + 1)) };

    ghost few = { Prim.search rules };

    fn nodes(&self) -> usize {
        self.count
    }

    fn feeds(&self, feeder: usize, node: usize) -> bool {
        if self.backwards {
            node.checked_add(1) == Some(feeder)
        } else {
            feeder.checked_add(1) == Some(node)
        }
    }
}

impl Chain {
    pub(crate) fn new(count: usize, backwards: bool) -> Chain {
        Chain {
            count: count.min(64),
            backwards,
        }
    }
}
