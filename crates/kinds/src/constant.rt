/// A constant's state: its value.
#[derive(Clone, Copy, PartialEq, Eq, Debug)]
pub struct Constant {
    v: i32,
}

pub mod rules;
