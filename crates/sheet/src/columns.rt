//! Numbers in six columns.
ghost use Rattle.std.specs.Prelude.{◌≡◌};
ghost use Rattle.sheet.specs.Columns.{six_columns};

/// A number right-justified in six columns.
pub fn columns(n: u16) -> [u8; 6]
    ensures { result ≡ six_columns n }
{
    let mut bytes = [b' '; 6];
    let mut rest = n;
    // By place, since the invariant says which columns are written; over `iter_mut().rev()` it would have to count them.
    for place in (0..6).rev() {
        bytes[place] = b'0' + (rest % 10) as u8;
        rest /= 10;
        if rest == 0 {
            break;
        }
    }
    bytes
}
