ghost use Rattle.std.specs.Prelude.{ℕ, ◌≤◌};

/// The arcs of a graph, copied once: a row for each feeder, with a place for each node that it may feed.
#[derive(Drop)]
pub(crate) struct Arcs {
    rows: [[bool; 64]; 64],
    pub(crate) count: usize,
    ghost few: { count ≤ 64 },
}

pub mod calls;
