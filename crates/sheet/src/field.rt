//! A field of six columns.
ghost use Rattle.std.specs.Prelude.{◌≡◌};
ghost use Rattle.sheet.specs.Field.{column_of, field_of};
ghost use Rattle.sheet.specs.Written.{FieldLaw};

use crate::fault::FieldFault;

// One column more, after what the columns before it say.
fn column(before: Option<u16>, c: u8) -> Result<Option<u16>, FieldFault>
    ensures { result ≡ column_of before c }
{
    match (before, c) {
        (None, b' ') => Ok(None),
        (None, b'0'..=b'9') => Ok(Some(u16::from(c - b'0'))),
        (Some(n), b'0'..=b'9') if n > 0 => {
            let wide = u32::from(n) * 10 + u32::from(c - b'0');
            u16::try_from(wide).map(Some).map_err(|_| FieldFault)
        }
        _ => Err(FieldFault),
    }
}

/// What the columns of a field say: nothing, or a number.
pub fn field(columns: &[u8]) -> Result<Option<u16>, FieldFault>
    ensures value { result ≡ field_of columns.now }
    ensures law { FieldLaw columns.now result }
{
    let mut value = None;
    for c in columns {
        value = column(value, *c)?;
    }
    Ok(value)
}
