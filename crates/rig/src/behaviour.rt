// What a unit does with what it holds, whoever keeps it.
ghost use Rattle.std.specs.Prelude.{◌≡◌, Bool, true, length};
ghost use Rattle.std.specs.List.{slice_get};
ghost use Rattle.rig.specs.Units.{Rules, Held};
ghost use Rattle.rig.specs.Behaving.{OutOf, BoundOf, NextOf, FedFrom};
ghost use Rattle.rig.specs.Laws.{SoundRules, Suits};

/// The rules of one unit, and what they make of its contents. Nothing is promised of contents that are not the unit's own.
// Each clause asks `owns` of its contents: they are values of a type of their own, which others keep, so no invariant can say it.
pub trait Behaviour {
    /// What ports carry.
    type Signal: Copy;

    /// What a unit in place holds: its state and its inputs.
    type Contents: Copy;

    ghost rules: { Self → Rules Self.Signal };

    ghost read: { Self → Self.Contents → Held Self.Signal };

    ghost owns: { Self → Self.Contents → Bool };

    /// Whether contents are the unit's own.
    fn fits(&self, contents: Self::Contents) -> bool
        ensures { result ≡ owns self.now contents };

    /// How many inputs the unit has.
    fn inputs(&self) -> usize
        ensures { result ≡ (rules self.now).inputs };

    /// How many outputs the unit has.
    fn outputs(&self) -> usize
        ensures { result ≡ length (rules self.now).masks };

    /// The mask of an output, where there is such an output.
    fn mask(&self, port: usize) -> Option<u8>
        ensures { result ≡ slice_get (rules self.now).masks port };

    /// OUT of an output.
    fn out(&self, contents: Self::Contents, port: usize) -> Self::Signal
        ensures { owns self.now contents ≡ true → OutOf (rules self.now) (read self.now contents) port result };

    /// BOUND.
    fn bound(&self, contents: Self::Contents) -> u32
        ensures { owns self.now contents ≡ true → BoundOf (rules self.now) (read self.now contents) result };

    /// NEXT by h ticks, unless BOUND is less.
    fn next(&self, contents: Self::Contents, h: u32) -> Option<Self::Contents>
        ensures { owns self.now contents ≡ true → NextOf (rules self.now) (owns self.now) (read self.now) contents h result };

    /// One input set; a port that is no input sets none.
    fn feed(&self, contents: Self::Contents, port: usize, value: Self::Signal) -> Self::Contents
        ensures { owns self.now contents ≡ true → FedFrom (owns self.now) (read self.now) contents port value result };

    ghost sound: { (unit : Self) → SoundRules (rules unit) };

    ghost suits: { (unit : Self) (contents : Self.Contents) → owns unit contents ≡ true → Suits (rules unit) (read unit contents) };
}
