// OUT, BOUND and NEXT of a unit by its kind. A trait of the three kinds would leave these matches and add its three impls.
ghost use Rattle.std.specs.Prelude.{◌≡◌, ℕ, ◌≤◌};
ghost use Rattle.kinds.specs.Contents.{kind_of, out_by, bound_body, fed_by, Becomes, Nexts};

use super::super::kind::Kind;
use super::Body;

impl Body {
    /// The kind of the unit.
    pub fn kind(&self) -> Kind
        ensures { result ≡ kind_of self.now }
    {
        match self {
            Body::Integrator(_) => Kind::Integrator,
            Body::Gain(_) => Kind::Gain,
            Body::Constant(_) => Kind::Constant,
        }
    }

    /// OUT of the one output.
    pub fn out(&self) -> i32
        ensures { result ≡ out_by self.now }
    {
        match self {
            Body::Integrator(integrator) => integrator.out(),
            Body::Gain(gain) => gain.out(),
            Body::Constant(constant) => constant.out(),
        }
    }

    /// BOUND.
    pub fn bound(&self) -> u32
        ensures { result ≡ bound_body self.now }
    {
        match self {
            Body::Integrator(integrator) => integrator.bound(),
            Body::Gain(_) | Body::Constant(_) => 1_000_000,
        }
    }

    /// NEXT by h ticks, unless BOUND is less.
    #[tactic(auto, using(crate::proofs::Stops::body_takes, crate::proofs::Stops::body_stays))]
    pub fn next(&self, h: u32) -> Option<Body>
        ensures { Nexts self.now h result }
    {
        match self {
            // `?` and no `map`, over which a goal stayed open.
            Body::Integrator(integrator) => Some(Body::Integrator(integrator.next(h)?)),
            Body::Gain(_) | Body::Constant(_) => (h <= 1_000_000).then_some(*self),
        }
    }

    /// One input set; a port that is no input sets none.
    pub fn put(&self, port: usize, value: i32) -> Body
        ensures { Becomes self.now (fed_by self.now port value) result }
    {
        match self {
            Body::Integrator(integrator) => Body::Integrator(integrator.put(port, value)),
            Body::Gain(gain) => Body::Gain(gain.put(port, value)),
            Body::Constant(constant) => Body::Constant(*constant),
        }
    }
}
