// What a line of a wires file says of the ends of its wire.
ghost use Rattle.std.specs.Prelude.{◌≡◌};
ghost use Rattle.lines.specs.WireLines.{end_said, source_said, target_said};

use super::{End, WireLine};

impl<'a> WireLine<'a> {
    /// The unit's name and the output that the wire comes from.
    pub fn source(&self) -> End<'a>
        ensures { end_said result ≡ source_said self.now }
    {
        let WireLine::Wire { from, .. } = *self;
        from
    }

    /// The unit's name and the input that the wire leads to.
    pub fn target(&self) -> End<'a>
        ensures { end_said result ≡ target_said self.now }
    {
        let WireLine::Wire { to, .. } = *self;
        to
    }
}
