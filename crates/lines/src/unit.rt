/// A line of a units file. Its name is a part of the file's bytes.
// An enum and no struct of a name and a `Design`: that lines are an enum whose names borrow the file is a rule of the project.
#[derive(Clone, Copy)]
pub enum UnitLine<'a> {
    Integrator {
        name: &'a [u8],
        x: i32,
        lo: i32,
        hi: i32,
        m: u32,
    },
    Gain {
        name: &'a [u8],
        a: i32,
        b: i32,
        c: i32,
    },
    Constant {
        name: &'a [u8],
        v: i32,
    },
}

pub mod reading;
pub mod saying;
