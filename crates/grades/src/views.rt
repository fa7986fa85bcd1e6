//! Views: what holds in any set of sixteen views.
ghost use Rattle.grades.specs.Views.{views};
ghost use Rattle.grades.specs.Laws.{views_lawful};

use crate::kind::GradeKind;

/// The kind with 16 points: bit p of the code, the lowest being 0, says whether point p is held.
#[derive(Clone, Copy)]
pub struct Views;

impl GradeKind for Views {
    ghost kind = { views };

    ghost lawful = { views_lawful };

    fn points() -> u8 {
        16
    }

    fn count() -> u32 {
        65536
    }

    fn all() -> u16 {
        65535
    }

    fn none() -> u16 {
        0
    }

    fn holds(code: u16, point: u8) -> bool {
        point < 16 && (code >> point) % 2 == 1
    }

    fn join(a: u16, b: u16) -> u16 {
        a | b
    }

    fn meet(a: u16, b: u16) -> u16 {
        a & b
    }
}
