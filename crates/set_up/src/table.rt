ghost use Rattle.std.specs.Prelude.{◌≡◌, ℕ, ◌≤◌, length};

use wiring::port::Port;

/// An output, and which inputs it may read at the same instant.
#[derive(Clone, Copy)]
pub(crate) struct Output {
    pub(crate) port: Port,
    pub(crate) mask: u8,
}

/// The outputs of a rig by their numbers.
#[derive(Clone, Copy)]
pub(crate) struct Outputs {
    pub(crate) list: [Output; 64],
    pub(crate) count: usize,
    ghost full: { length list ≡ 64 },
    ghost few: { count ≤ 64 },
}

pub mod listing;
