//! What is wrong with a sheet, and where.
ghost use Rattle.std.specs.Prelude.{◌≡◌};
ghost use Rattle.sheet.specs.Faults.{placed, on_line, in_sheet, blamed};

use rejections::Rejection;
use terms::entry::Blame;

/// The layer that a fault belongs to.
#[derive(Clone, Copy, PartialEq, Eq, Debug)]
pub enum Layer {
    Field,
    Line,
    Sheet,
}

/// A field is not blank, or no number, where it must be.
#[derive(Clone, Copy, PartialEq, Eq, Debug)]
pub struct FieldFault;

/// What is wrong with a line, and in which column, from 1.
#[derive(Clone, Copy, PartialEq, Eq, Debug)]
pub struct LineFault {
    pub layer: Layer,
    pub rejection: Rejection,
    pub column: usize,
}

/// What is wrong with a sheet, and in which line and column, from 1.
#[derive(Clone, Copy, PartialEq, Eq, Debug)]
pub struct Fault {
    pub layer: Layer,
    pub rejection: Rejection,
    pub line: usize,
    pub column: usize,
}

/// An error, and the column or the line at which it was met.
#[derive(Clone, Copy)]
pub struct Located<E> {
    pub error: E,
    pub place: usize,
}

/// The same result, with its place if it is an error.
pub fn at<T, E>(res: Result<T, E>, place: usize) -> Result<T, Located<E>>
    ensures { result ≡ placed place res }
{
    res.map_err(|error| Located { error, place })
}

/// A field's fault becomes its line's, at the field's first column.
impl From<Located<FieldFault>> for LineFault {
    ghost from_gives = { λ x y. y ≡ on_line x };

    fn from(fault: Located<FieldFault>) -> LineFault {
        LineFault {
            layer: Layer::Field,
            rejection: Rejection::BadField,
            column: fault.place,
        }
    }
}

/// A line's fault becomes the sheet's, at the line's number.
impl From<Located<LineFault>> for Fault {
    ghost from_gives = { λ x y. y ≡ in_sheet x };

    fn from(fault: Located<LineFault>) -> Fault {
        Fault {
            layer: fault.error.layer,
            rejection: fault.error.rejection,
            line: fault.place,
            column: fault.error.column,
        }
    }
}

/// What keeps an entry from being added becomes a fault at its line: of the field that names nothing earlier, or of the sheet.
impl From<Located<Blame>> for Fault {
    ghost from_gives = { λ x y. y ≡ blamed x };

    fn from(fault: Located<Blame>) -> Fault {
        let (layer, rejection, column) = match fault.error {
            Blame::First => (Layer::Field, Rejection::UnknownName, 2),
            Blame::Second => (Layer::Field, Rejection::UnknownName, 8),
            Blame::Room => (Layer::Sheet, Rejection::BeyondLimit, 1),
        };
        Fault {
            layer,
            rejection,
            line: fault.place,
            column,
        }
    }
}
