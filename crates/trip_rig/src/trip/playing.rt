// A trip as the behaviour of a unit: what it holds is where it stands.
ghost use Rattle.std.specs.Prelude.{true};
ghost use Rattle.trip_rig.specs.Playing.{trip};
ghost use Rattle.trip_rig.specs.Trips.{held_at};
ghost use Rattle.trip_rig.specs.Soundness.{sound_rules, suits_trip};

use super::{Position, Segment, Trip};
use rig::behaviour::Behaviour;

/// One output, the present value, and no input.
impl Behaviour for Trip {
    type Signal = i32;

    type Contents = Position;

    ghost rules = { λ t. trip };

    ghost read = { λ t p. held_at t.segments.items p };

    ghost owns = { λ t p. true };

    ghost sound = { λ t. sound_rules };

    ghost suits = { λ t p own. suits_trip t.segments.items p };

    fn fits(&self, _: Position) -> bool {
        true
    }

    fn inputs(&self) -> usize {
        0
    }

    fn outputs(&self) -> usize {
        1
    }

    fn mask(&self, port: usize) -> Option<u8> {
        (port == 0).then_some(0)
    }

    fn out(&self, position: Position, _: usize) -> i32 {
        position.present.value
    }

    fn bound(&self, position: Position) -> u32 {
        position.present.ticks
    }

    /// h ticks further, or none where fewer are left in the pair. Where none is left the next pair is at once the present one.
    fn next(&self, position: Position, h: u32) -> Option<Position> {
        let Segment { ticks, value } = position.present;
        if h > ticks {
            return None;
        }
        let left = Position {
            present: Segment {
                ticks: ticks - h,
                value,
            },
            ..position
        };
        if h < ticks {
            return Some(left);
        }
        Some(match self.segments.get(position.later) {
            Some(next) => Position {
                present: *next,
                later: position.later + 1,
            },
            None => left,
        })
    }

    fn feed(&self, position: Position, _: usize, _: i32) -> Position {
        position
    }
}
