//! One point: something holds, or it does not.
ghost use Rattle.grades.specs.Plain.{plain};
ghost use Rattle.grades.specs.Laws.{plain_lawful};

use crate::kind::GradeKind;

/// The kind with one point: code 0 holds nothing, code 1 the point.
#[derive(Clone, Copy)]
pub struct Plain;

impl GradeKind for Plain {
    ghost kind = { plain };

    ghost lawful = { plain_lawful };

    fn points() -> u8 {
        1
    }

    fn count() -> u32 {
        2
    }

    fn all() -> u16 {
        1
    }

    fn none() -> u16 {
        0
    }

    fn holds(code: u16, point: u8) -> bool {
        code == 1 && point == 0
    }

    fn join(a: u16, b: u16) -> u16 {
        u16::from(a == 1 || b == 1)
    }

    fn meet(a: u16, b: u16) -> u16 {
        u16::from(a == 1 && b == 1)
    }
}
