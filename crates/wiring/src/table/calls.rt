// Wires by the inputs that they lead to.
ghost use Rattle.std.specs.Prelude.{◌≡◌, ℕ, ◌≤◌, None, Decides};
ghost use Rattle.wiring.specs.Wires.{source_of, InRange, OneMore, Added};

use super::Wiring;
use crate::fault::WireFault;
use crate::port::Port;

/// Whether a port is within 16 units of 8 ports.
fn in_range(port: Port) -> bool
    ensures { Decides result ((port.unit ≤ 15) × (port.port ≤ 7)) }
{
    port.unit <= 15 && port.port <= 7
}

impl Wiring {
    /// No input is wired.
    pub fn new() -> Wiring
        ensures { (u i : ℕ) → source_of result u i ≡ None }
    {
        Wiring {
            rows: [[None; 8]; 16],
        }
    }

    /// Takes every wire away.
    pub fn clear(&mut self)
        ensures { (u i : ℕ) → source_of self.new u i ≡ None }
    {
        *self = Wiring::new();
    }

    /// Writes a wire into the table, over any earlier one.
    #[tactic(auto, using(crate::proofs::Rows::still_full))]
    fn put(&mut self, from: Port, to: Port)
        requires { InRange from to }
        ensures { OneMore self.old from to self.new }
    {
        self.rows[to.unit][to.port] = Some(from);
    }

    /// Adds a wire from an output to an input. Refused, the wiring unchanged, where an end is out of range, then where the input has a wire.
    pub fn add(&mut self, from: Port, to: Port) -> Result<(), WireFault>
        ensures { Added self.old from to result self.new }
    {
        if !(in_range(from) && in_range(to)) {
            return Err(WireFault::OutOfRange(to));
        }
        if self.source(to).is_some() {
            return Err(WireFault::WiredTwice(to));
        }
        self.put(from, to);
        Ok(())
    }

    /// The output that supplies an input: none where it has no wire, or where there is no such input.
    pub fn source(&self, to: Port) -> Option<Port>
        ensures { result ≡ source_of self.now to.unit to.port }
    {
        *self.rows.get(to.unit)?.get(to.port)?
    }
}
