// What a unit of a kind does with what it holds: a body of that kind.
ghost use Rattle.kinds.specs.Contents.{rules_of, held_of};
ghost use Rattle.kinds.specs.Owning.{of_kind};
ghost use Rattle.kinds.specs.Soundness.{sound_kind, suits_own};

use super::super::body::Body;
use super::Kind;
use rig::behaviour::Behaviour;

// Six calls hand on to public methods of `Kind` and `Body`, whose promises are to stay.
impl Behaviour for Kind {
    type Signal = i32;

    type Contents = Body;

    ghost rules = { rules_of };

    ghost read = { λ _ body. held_of body };

    ghost owns = { of_kind };

    /// Those of a body of the kind.
    fn fits(&self, contents: Body) -> bool {
        *self == contents.kind()
    }

    /// As many as the kind has.
    fn inputs(&self) -> usize {
        Kind::inputs(*self)
    }

    /// Each kind has one.
    fn outputs(&self) -> usize {
        1
    }

    /// That of the one output; there is no other.
    fn mask(&self, port: usize) -> Option<u8> {
        (port == 0).then_some(Kind::mask(*self))
    }

    /// OUT of the body.
    fn out(&self, contents: Body, _port: usize) -> i32 {
        contents.out()
    }

    /// BOUND of the body.
    fn bound(&self, contents: Body) -> u32 {
        contents.bound()
    }

    /// NEXT of the body.
    fn next(&self, contents: Body, h: u32) -> Option<Body> {
        contents.next(h)
    }

    /// The body with one input set.
    fn feed(&self, contents: Body, port: usize, value: i32) -> Body {
        contents.put(port, value)
    }

    ghost sound = { sound_kind };

    ghost suits = { suits_own };
}
