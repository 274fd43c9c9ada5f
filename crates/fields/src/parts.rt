// Text parted by a separator: where it stands, how many parts there are, and each part.
ghost use Rattle.std.specs.Prelude.{◌≡◌, ◌-◌, [], length, slice_index_or};
ghost use Rattle.std.specs.List.{slice_get};
ghost use Rattle.std.specs.Option.{option_copied};
ghost use Rattle.fields.specs.Parts.{parts, FirstAt, PartsLaw};

/// Where the first separator of a text stands.
// Text and separator stand apart, here and below, as in `split`: a struct of both would be made anew for each call.
pub fn first_at(text: &[u8], sep: u8) -> Option<usize>
    ensures { FirstAt sep text.now result }
{
    text.iter().position(|b| *b == sep)
}

/// How many parts a text has.
#[tactic(auto, using(crate::proofs::Parting::count_parts))]
pub fn count(text: &[u8], sep: u8) -> usize
    ensures value { result ≡ length (parts sep text.now) }
    ensures law { PartsLaw sep text.now }
{
    text.iter().filter(|b| **b == sep).count() + 1
}

/// The part of a text at an index, if there is one.
fn part_at(text: &[u8], sep: u8, index: usize) -> Option<&[u8]>
    ensures { option_copied result ≡ slice_get (parts sep text.now) index }
{
    text.split(|b| *b == sep).nth(index)
}

/// One part of a text by its number, from 1; empty where there is none.
#[tactic(auto, using(crate::proofs::Parting::part_or_empty))]
pub fn part(text: &[u8], sep: u8, number: usize) -> &[u8]
    ensures { result.now ≡ slice_index_or (parts sep text.now) (number - 1) [] }
{
    part_at(text, sep, number.saturating_sub(1)).unwrap_or(&[])
}
