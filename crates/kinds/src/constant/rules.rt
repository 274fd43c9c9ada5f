ghost use Rattle.std.specs.Prelude.{◌≡◌};

use super::super::design::Design;
use super::Constant;

impl Constant {
    /// A constant of value v.
    pub(crate) fn new(v: i32) -> Constant
        ensures { result.v ≡ v }
    {
        Constant { v }
    }

    /// The design of the constant.
    pub(crate) fn design(&self) -> Design
        ensures { result ≡ Design.Constant self.now.v }
    {
        Design::Constant { v: self.v }
    }

    /// OUT: the value.
    pub(crate) fn out(&self) -> i32
        ensures { result ≡ self.now.v }
    {
        self.v
    }
}
