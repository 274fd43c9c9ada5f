// An `if` in each `new`, and no `then`: a closure would have to prove the bounds without the test.
ghost use Rattle.std.specs.Prelude.{◌≡◌, ℕ, ◌≤◌, ◌*ℤ◌, unsigned_abs, is_some, IfSome};
ghost use Rattle.kinds.specs.Designs.{is_factor, is_step_limit};

use super::{Factor, StepLimit};

impl Factor {
    /// The factor of this value, where it is one.
    pub(crate) fn new(value: i32) -> Option<Factor>
        ensures some { is_some result ≡ is_factor value }
        ensures value { IfSome result (λ factor. factor.value ≡ value) }
    {
        if (-1000..=1000).contains(&value) {
            Some(Factor { value })
        } else {
            None
        }
    }

    /// A signal, multiplied by the factor.
    pub(crate) fn times(self, signal: i32) -> i64
        ensures product { result ≡ self.value *ℤ signal }
        ensures small { unsigned_abs result ≤ 2147483648000 }
    {
        i64::from(self.value) * i64::from(signal)
    }
}

impl StepLimit {
    /// The limit of this many ticks, where it is one.
    pub(crate) fn new(ticks: u32) -> Option<StepLimit>
        ensures some { is_some result ≡ is_step_limit ticks }
        ensures value { IfSome result (λ limit. limit.ticks ≡ ticks) }
    {
        if (1..=1_000_000).contains(&ticks) {
            Some(StepLimit { ticks })
        } else {
            None
        }
    }
}
