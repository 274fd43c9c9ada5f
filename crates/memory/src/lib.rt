// What a unit holds and its four places, for every rig that keeps units of its own.
#![tactic(auto)]

ghost use Rattle.std.specs.Prelude.{◌≡◌, ℕ, ◌≤◌, Some};
ghost use Rattle.memory.specs.Kept.{Fresh, Saved, Restored, Freed};
ghost use Rattle.rig.specs.Calls.{status_of};

use rig::cause::Cause;
use rig::shape::Status;

pub mod store;

use store::Memory;

impl<T: Copy> Memory<T> {
    /// In place with these contents, all places empty.
    pub fn new(contents: T) -> Memory<T>
        ensures { Fresh contents result }
    {
        Memory {
            held: Some(contents),
            places: [None; 4],
        }
    }

    /// Whether the unit is loose, and which places are filled.
    pub fn status(&self) -> Status
        ensures { result ≡ status_of self.now.held self.now.places }
    {
        // Taken apart by hand: the check does not cover `map` on an array whose items are of a type parameter.
        let [a, b, c, d] = self.places;
        Status {
            loose: self.held.is_none(),
            filled: [a.is_some(), b.is_some(), c.is_some(), d.is_some()],
        }
    }

    /// Copies the contents into an empty place.
    // By index at the end, here and in `free`: with `get_mut` the goals at each way out stayed open.
    pub fn save(&mut self, place: usize) -> Result<(), Cause>
        ensures { Saved place self.old result self.new }
    {
        let kept = *self.places.get(place).ok_or(Cause::NoSuch)?;
        let contents = self.held.ok_or(Cause::Loose)?;
        if kept.is_some() {
            return Err(Cause::Filled);
        }
        self.places[place] = Some(contents);
        Ok(())
    }

    /// Takes the contents of a filled place, which stays filled.
    pub fn restore(&mut self, place: usize) -> Result<(), Cause>
        ensures { Restored place self.old result self.new }
    {
        let kept = *self.places.get(place).ok_or(Cause::NoSuch)?;
        self.held = Some(kept.ok_or(Cause::Empty)?);
        Ok(())
    }

    /// Empties a filled place.
    pub fn free(&mut self, place: usize) -> Result<(), Cause>
        ensures { Freed place self.old result self.new }
    {
        let kept = *self.places.get(place).ok_or(Cause::NoSuch)?;
        kept.ok_or(Cause::Empty)?;
        self.places[place] = None;
        Ok(())
    }
}
