//! Releases: what holds from one release on.
ghost use Rattle.grades.specs.Releases.{releases};
ghost use Rattle.grades.specs.Laws.{releases_lawful};

use crate::kind::GradeKind;

/// The kind with the points 0 to 63: code e below 64 holds each point from e on, code 64 holds nothing.
#[derive(Clone, Copy)]
pub struct Releases;

impl GradeKind for Releases {
    ghost kind = { releases };

    ghost lawful = { releases_lawful };

    fn points() -> u8 {
        64
    }

    fn count() -> u32 {
        65
    }

    fn all() -> u16 {
        0
    }

    fn none() -> u16 {
        64
    }

    fn holds(code: u16, point: u8) -> bool {
        code <= u16::from(point) && point < 64
    }

    fn join(a: u16, b: u16) -> u16 {
        a.min(b).min(64)
    }

    fn meet(a: u16, b: u16) -> u16 {
        a.max(b).min(64)
    }
}
