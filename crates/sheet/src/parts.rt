//! A line of twenty columns taken apart.
ghost use Rattle.std.specs.Prelude.{◌≡◌, length, take, drop, slice_index};

/// A line in its three parts: the letter, 18 columns of fields, and the line feed.
#[derive(Clone, Copy)]
pub struct Line<'a> {
    pub letter: u8,
    pub fields: &'a [u8],
    pub feed: u8,
}

// Takes the line apart by one pattern, with a part between two elements. The columns come as a slice, since at an array of 20 the
// checker refuses its own part of the proof of such a pattern.
pub(crate) fn line_parts(columns: &[u8]) -> Line
    requires { length columns.now ≡ 20 }
    ensures letter { result.letter ≡ slice_index columns.now 0 }
    ensures fields { result.fields.now ≡ take 18 (drop 1 columns.now) }
    ensures feed { result.feed ≡ slice_index columns.now 19 }
{
    let [letter, fields @ .., feed] = columns else {
        unreachable();
    };
    Line {
        letter: *letter,
        fields,
        feed: *feed,
    }
}
