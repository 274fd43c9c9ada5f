// Numbers as files write them.
ghost use Rattle.std.specs.Prelude.{◌≡◌, ◌-◌, [], ◌∷◌, pos, negsuc};
ghost use Rattle.std.specs.Option.{option_map};
ghost use Rattle.numerals.specs.Numbers.{Says, number_of, whole_in, read_in};

/// The number that a text writes.
#[tactic(auto, using(crate::proofs::Texts::says_so, crate::proofs::Texts::number_minus))]
pub fn number(text: &[u8]) -> Option<i32>
    ensures value { result ≡ number_of text.now }
    ensures law { Says text.now result }
{
    match text {
        [b'-', digits @ ..] => negative(digits),
        _ => positive(text),
    }
}

/// The number below 0 with these digits after its minus sign.
// The casts here and below are proved to lose nothing; `try_from` would bring a case that never comes. Nor `parse`, which takes
// a plus sign, leading zeros and -0: with tests against these it would be no plainer.
fn negative(digits: &[u8]) -> Option<i32>
    ensures { result ≡ option_map (λ n. negsuc (n - 1)) (whole_in 1 2147483648 digits.now) }
{
    whole(digits, 1, 2_147_483_648).map(|n| -i64::from(n) as i32)
}

/// The number from 0 on with these digits.
fn positive(digits: &[u8]) -> Option<i32>
    ensures { result ≡ option_map pos (whole_in 0 2147483647 digits.now) }
{
    whole(digits, 0, 2_147_483_647).map(|n| n as i32)
}

/// The number that digits write without a leading zero, where it is from `least` to `most`.
fn whole(digits: &[u8], least: u32, most: u32) -> Option<u32>
    ensures { result ≡ whole_in least most digits.now }
{
    match digits {
        [] | [b'0', _, ..] => None,
        _ => read(digits, most).filter(|n| *n >= least),
    }
}

/// The number that digits write, where it is at most `most`.
#[tactic(auto, using(crate::proofs::Texts::read_more, crate::proofs::Texts::read_stop, crate::proofs::Texts::read_all))]
fn read(digits: &[u8], most: u32) -> Option<u32>
    ensures { result ≡ read_in most 0 digits.now }
{
    // No `try_fold`: tried, and what it returns was not proved.
    let mut n = 0;
    for b in digits {
        n = with_digit(n, *b, most)?;
    }
    Some(n)
}

/// The number that one digit more makes of `n`, where it is at most `most`.
fn with_digit(n: u32, b: u8, most: u32) -> Option<u32>
    ensures { result ≡ read_in most n (b ∷ []) }
{
    if !b.is_ascii_digit() {
        return None;
    }
    n.checked_mul(10)?
        .checked_add(u32::from(b - b'0'))
        .filter(|longer| *longer <= most)
}
