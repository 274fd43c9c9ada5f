ghost use Rattle.std.specs.Prelude.{ℕ, ◌≤◌, length};

/// All nodes of a graph in an order, at most 64.
#[derive(Clone, Copy)]
pub struct NodeOrder {
    pub(crate) nodes: [u8; 64],
    pub(crate) count: usize,
    ghost room: { count ≤ length nodes },
}

/// What a search found.
#[derive(Clone, Copy)]
pub enum Found {
    /// An order of all nodes.
    Order(NodeOrder),
    /// A circle of so many nodes, which stand at the front of the circle list.
    Circle(usize),
}

pub mod listing;
