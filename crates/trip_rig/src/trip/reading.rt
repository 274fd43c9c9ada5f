// A trip read from a caller's list.
ghost use Rattle.std.specs.Prelude.{◌≡◌, IfOk};
ghost use Rattle.trip_rig.specs.Reading.{read_pairs, new_trip};
ghost use Rattle.trip_rig.specs.Trips.{flat, FirstPair, StartsAt};
ghost use Rattle.trip_rig.specs.Rigs.{units_of};

use super::{Position, Segment, Trip, TripRig};
use std::alloc::{AllocError, Global};
use unit_rig::unit::Unit;

/// A trip plays at most this many pairs.
const MOST_PAIRS: usize = 4096;

/// The first pair of a list and what follows it; none before a half pair, and before ticks that are not 1 to 1,000,000.
fn first_pair(numbers: &[i32]) -> Option<(Segment, &[i32])>
    ensures { FirstPair numbers.now result }
{
    match numbers {
        [ticks, value, later @ ..] if (1..=1_000_000).contains(ticks) => {
            let segment = Segment {
                ticks: ticks.unsigned_abs(),
                value: *value,
            };
            Some((segment, later))
        }
        _ => None,
    }
}

/// The pairs of a list, at most so many, up to the first that is none.
#[tactic(auto, using(crate::proofs::Pairs::one_more))]
fn read(heap: Global, numbers: &[i32], most: usize) -> Result<Vec<Segment>, AllocError>
    ensures { IfOk result (λ v. flat v.items ≡ read_pairs most numbers.now) }
{
    // No `as_chunks`, `take` and `map_while`: what they return was not proved.
    let mut segments = Vec::new(heap);
    let mut rest = numbers;
    while segments.len() < most
        && let Some((segment, later)) = first_pair(rest)
    {
        segments.push(segment)?;
        rest = later;
    }
    Ok(segments)
}

/// Where a trip of these pairs starts: at the first.
fn start(segments: &[Segment]) -> Option<Position>
    ensures { StartsAt segments.now result }
{
    let present = *segments.first()?;
    Some(Position { present, later: 1 })
}

impl TripRig {
    /// The trip that a list of numbers describes, ticks then value.
    pub fn new(heap: Global, numbers: &[i32]) -> Result<TripRig, AllocError>
        ensures { IfOk result (λ t. units_of t ≡ new_trip (read_pairs 4096 numbers.now)) }
    {
        let segments = read(heap, numbers, MOST_PAIRS)?;
        let unit = start(&segments).and_then(|position| Unit::new((), Trip { segments }, position));
        Ok(TripRig { unit })
    }
}
