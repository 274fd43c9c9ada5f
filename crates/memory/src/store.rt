ghost use Rattle.std.specs.Prelude.{◌≡◌, ℕ, length};

/// The contents of a unit, none while it is loose, and its four places.
#[derive(Drop)]
pub struct Memory<T> {
    pub held: Option<T>,
    pub places: [Option<T>; 4],
    ghost four: { length places ≡ 4 },
}
