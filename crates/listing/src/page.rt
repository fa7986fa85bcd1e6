//! The bytes of a listing: a line for each row, in six columns a number, and the page that they fill from the front.
ghost use Rattle.std.specs.Prelude.{◌≡◌, ◌+◌, ◌≤◌, [], ◌∷◌, length};
ghost use Rattle.listing.specs.Pages.{three_columns};

use sheet::columns::columns;

/// One line of a listing: the first concept lies under the second at the points of the code.
#[derive(Clone, Copy)]
pub struct Row {
    pub sub: u16,
    pub sup: u16,
    pub code: u16,
}

/// A page, of which the first `filled` bytes are written.
// Lent, with its count beside it, since the library asks for no heap.
#[derive(Drop)]
pub(crate) struct Page<'p> {
    bytes: &'p mut [u8],
    filled: usize,
    ghost within: { filled ≤ length bytes.now },
}

/// Three numbers, in six columns each, and a line feed.
pub(crate) fn line(first: u16, second: u16, third: u16) -> [u8; 19]
    ensures { result ≡ three_columns first second third }
{
    let columns = [columns(first), columns(second), columns(third)];
    let mut bytes = [b' '; 19];
    bytes[..18].copy_from_slice(columns.as_flattened());
    bytes[18] = b'\n';
    bytes
}

impl<'p> Page<'p> {
    ghost use Rattle.listing.specs.Pages.{RowsAt};

    /// A page of which nothing is written.
    pub(crate) fn new(bytes: &'p mut [u8]) -> Self
        ensures bytes { result.bytes.now ≡ bytes.old }
        ensures filled { result.filled ≡ 0 }
        ensures lent { result.bytes.ghost_name ≡ bytes.entry.ghost_name }
    {
        Page { bytes, filled: 0 }
    }

    /// How many bytes are written.
    pub(crate) fn filled(&self) -> usize
        ensures { result ≡ self.now.filled }
    {
        self.filled
    }

    /// Writes the line of a row behind what is written.
    pub(crate) fn push(&mut self, row: Row)
        requires { self.old.filled + 19 ≤ length self.old.bytes.now }
        ensures printed { RowsAt (row ∷ []) self.old.filled self.new.filled 19 self.old.bytes.now
            self.new.bytes.now }
        ensures lent { self.new.bytes.ghost_name ≡ self.old.bytes.ghost_name }
    {
        let end = self.filled + 19;
        self.bytes[self.filled..end].copy_from_slice(&line(row.sub, row.sup, row.code));
        self.filled = end;
    }
}
