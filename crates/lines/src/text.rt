// The fields of a line, and names among those that are known.
ghost use Rattle.std.specs.Prelude.{◌≡◌, true, false, length, ◌≤ℤ◌, IfSome, MatchOption};
ghost use Rattle.file_rig.specs.Table.{names_of};
ghost use Rattle.names.specs.Naming.{is_name};
ghost use Rattle.numerals.specs.Numbers.{number_of};
ghost use Rattle.lines.specs.Known.{unit_named};
ghost use Rattle.lines.specs.Fields.{field, fields, within};

use fields::parts::{count, part};
use file_rig::table::FileRig;
use names::name::reading::is_name;
use numerals::number::number;

/// One field of a line by its number, from 1; empty where there is none.
pub(crate) fn field(line: &[u8], number: usize) -> &[u8]
    ensures { result.now ≡ field number line.now }
{
    part(line, b',', number)
}

/// How many fields a line has.
pub(crate) fn field_count(line: &[u8]) -> usize
    ensures { result ≡ length (fields line.now) }
{
    count(line, b',')
}

/// One field of a line, where it is a name.
pub(crate) fn name_in(line: &[u8], number: usize) -> Option<&[u8]>
    ensures { MatchOption result (is_name (field number line.now) ≡ false) (λ t. (is_name (field number line.now) ≡ true) × (t.now ≡ field number line.now)) }
{
    let text = field(line, number);
    is_name(text).then_some(text)
}

/// The number that a field writes, where it is from low to high.
pub(crate) fn number_within(text: &[u8], low: i32, high: i32) -> Option<i32>
    ensures value { result ≡ within low high (number_of text.now) }
    ensures range { IfSome result (λ n. (low ≤ℤ n) × (n ≤ℤ high)) }
{
    let n = number(text)?;
    (low..=high).contains(&n).then_some(n)
}

/// The unit with this name.
// Not `find` itself: each caller would have to put its promise into the words of the grammar.
#[tactic(auto, using(crate::proofs::Naming::found_is))]
pub(crate) fn unit_named(known: &FileRig, name: &[u8]) -> Option<usize>
    ensures { result ≡ unit_named (names_of known.now) name.now }
{
    known.find(name)
}
