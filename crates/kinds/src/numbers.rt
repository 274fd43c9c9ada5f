// Arithmetic on signals, exact in 64 bits.
ghost use Rattle.std.specs.Prelude.{◌≡◌, ℕ, ◌≤◌, pos, ◌+ℤ◌, ◌-ℤ◌, ◌*ℤ◌, ◌≤ℤ◌, MatchOption};
ghost use Rattle.kinds.specs.Rules.{room, to_signal, Between};

/// How far `high` lies above `low`; 0 where it does not.
pub(crate) fn gap(low: i32, high: i32) -> u32
    ensures { result ≡ room (high -ℤ low) }
{
    high.max(low).abs_diff(low)
}

/// Where h ticks of u lead from x.
pub(crate) fn advance(x: i32, u: i32, h: u32) -> i64
    ensures { result ≡ x +ℤ u *ℤ pos h }
{
    i64::from(x) + i64::from(u) * i64::from(h)
}

/// x where it lies within lo and hi.
pub(crate) fn between(lo: i32, x: i64, hi: i32) -> Option<i32>
    ensures { MatchOption result (Between lo x hi → ⊥) (λ y. (y ≡ x) × Between lo x hi) }
{
    i32::try_from(x).ok().filter(|y| (lo..=hi).contains(y))
}

/// The nearest number of the signal range.
pub(crate) fn saturate(x: i64) -> i32
    ensures { result ≡ to_signal x }
{
    // Proved to lose nothing; `try_from` would bring a case that never comes.
    x.clamp(i32::MIN.into(), i32::MAX.into()) as i32
}
