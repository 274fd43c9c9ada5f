ghost use Rattle.std.specs.Prelude.{◌≡◌, length, replicate};

/// The mark of a node that is not placed yet.
pub(crate) const OPEN: u8 = 0;

/// The mark of a node that is placed.
pub(crate) const PLACED: u8 = 1;

/// The mark of a node on the path back.
pub(crate) const ON_PATH: u8 = 2;

/// Holds the marks bytes, and clears them at its end.
pub(crate) struct Marks<'a> {
    pub(crate) bytes: &'a mut [u8],
}

impl Drop for Marks<'_> {
    fn drop(self)
        ensures { self.exit.0.now ≡ replicate (length self.entry.bytes.now) 0 }
    {
        let Marks { bytes } = self;
        bytes.fill(OPEN);
    }
}
