// One search for an order of a graph's nodes, or a circle among them.
#![tactic(auto)]

ghost use Rattle.std.specs.Prelude.{◌≡◌, ℕ, ◌≤◌, Bool};

mod arcs;
pub mod fault;
pub mod found;
mod marks;
mod placing;
pub mod search;
mod walking;

/// A graph of at most 64 nodes, numbered from 0. Of numbers from `nodes()` on nothing is asked.
pub trait Graph {
    ghost size: { Self → ℕ };

    ghost arc: { Self → ℕ → ℕ → Bool };

    /// How many nodes there are.
    fn nodes(&self) -> usize
        ensures { result ≡ size self.now };

    /// Whether a node feeds another.
    fn feeds(&self, feeder: usize, node: usize) -> bool
        ensures { result ≡ arc self.now feeder node };

    ghost few: { (g : Self) → size g ≤ 64 };
}
