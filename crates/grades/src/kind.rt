//! What every kind of grade offers, and the laws that it keeps.
ghost use Rattle.std.specs.Prelude.{◌≡◌};
ghost use Rattle.grades.specs.Kinds.{Kind, Lawful};

/// A kind of grade: the field's term is a finite lattice of annotations, here given by the sets of points that its codes hold.
/// A code that is not below the count holds nothing, and a join or a meet takes it as `none`.
pub trait GradeKind: Copy {
    ghost kind: { Kind };

    /// How many points there are: they are the numbers below this.
    fn points() -> u8
        ensures { result ≡ kind.points };

    /// How many codes there are: they are the numbers below this.
    fn count() -> u32
        ensures { result ≡ kind.codes };

    /// The code that holds every point.
    fn all() -> u16
        ensures { result ≡ kind.all };

    /// The code that holds no point.
    fn none() -> u16
        ensures { result ≡ kind.none };

    /// Whether the code holds the point.
    fn holds(code: u16, point: u8) -> bool
        ensures { result ≡ kind.holds code point };

    /// The code of the points that at least one of the two holds.
    fn join(a: u16, b: u16) -> u16
        ensures { result ≡ kind.join a b };

    /// The code of the points that both hold.
    fn meet(a: u16, b: u16) -> u16
        ensures { result ≡ kind.meet a b };

    ghost lawful: { Lawful kind };
}
