ghost use Rattle.std.specs.Prelude.{◌≡◌, true};
ghost use Rattle.names.specs.Naming.{is_name};

use arrayvec::ArrayString;

/// The name of a unit: 1 to 8 of the letters a to z and the digits 0 to 9.
#[derive(Clone, Copy, PartialEq, Eq, Debug)]
pub struct Name {
    text: ArrayString<8>,
    ghost proper: { is_name text.bytes ≡ true },
}

pub mod reading;
