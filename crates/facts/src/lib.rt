// Worked cases of the rules, proved of the definitions that the contracts of the code cite.
#![tactic(auto)]

ghost use Rattle.std.specs.Prelude.{◌≡◌};
ghost use Rattle.facts.specs.Worked.{WorkedCases};
ghost use Rattle.facts.specs.Reading.{ReadingCases};

/// Stands for the proof of the worked cases.
fn cases_hold()
    ensures { WorkedCases }
{}

/// Every worked case holds. Answers how many there are.
pub fn worked_cases() -> usize
    ensures count { result ≡ 6 }
    ensures hold { WorkedCases }
{
    cases_hold();
    6
}

/// Stands for the proof of the worked cases of reading.
fn reading_holds()
    ensures { ReadingCases }
{}

/// Every worked case of reading holds. Answers how many there are.
pub fn reading_cases() -> usize
    ensures count { result ≡ 8 }
    ensures hold { ReadingCases }
{
    reading_holds();
    8
}
