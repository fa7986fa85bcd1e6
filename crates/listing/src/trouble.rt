//! Why a text has no listing, and the line that says so.
ghost use Rattle.std.specs.Prelude.{◌≡◌, min};
ghost use Rattle.listing.specs.declared.trouble.Trouble.TheVariants.{Reading, Check};
ghost use Rattle.listing.specs.Troubles.{trouble_bytes};

use crate::page::line;
use rejections::Rejection;
use sheet::fault::Fault;

/// Why a text has no listing, by the part of the work that turned it down.
#[derive(Clone, Copy)]
pub enum Trouble {
    /// The text is no sheet.
    Reading(Fault),
    /// The sheet's vocabulary has no board.
    Check(Rejection),
}

/// A sheet's fault is a trouble in reading.
impl From<Fault> for Trouble {
    ghost from_gives = { λ x y. y ≡ Reading x };

    fn from(fault: Fault) -> Trouble {
        Trouble::Reading(fault)
    }
}

/// A rejection is a trouble of the check before the board is made.
impl From<Rejection> for Trouble {
    ghost from_gives = { λ x y. y ≡ Check x };

    fn from(rejection: Rejection) -> Trouble {
        Trouble::Check(rejection)
    }
}

/// A number of a line or a column, as far as 16 bits go.
fn short(n: usize) -> u16
    ensures { result ≡ min n 65535 }
{
    u16::try_from(n).unwrap_or(u16::MAX)
}

impl Trouble {
    /// The line that says it: `!` and the number, the line and the column in six columns each. Outside reading, line and column are 0.
    // Bytes and no `Display`: a listing and its trouble are written as they are specified, column by column.
    pub fn line(self) -> [u8; 20]
        ensures { result ≡ trouble_bytes self }
    {
        let line = match self {
            Trouble::Reading(fault) => line(
                fault.rejection.number(),
                short(fault.line),
                short(fault.column),
            ),
            Trouble::Check(rejection) => line(rejection.number(), 0, 0),
        };
        let mut bytes = [b'!'; 20];
        bytes[1..].copy_from_slice(&line);
        bytes
    }
}
