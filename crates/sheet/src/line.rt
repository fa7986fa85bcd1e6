//! A line of twenty columns.
ghost use Rattle.std.specs.Prelude.{◌≡◌, length};
ghost use Rattle.sheet.specs.Faults.{and_then};
ghost use Rattle.sheet.specs.Field.{field_of};
ghost use Rattle.sheet.specs.Line.{kind_of, as_wanted, numbers_of, entry_of, ended_by, kind_line, line_of};
ghost use Rattle.sheet.specs.Written.{LineLaw};

use crate::fault::{FieldFault, Layer, LineFault, at};
use crate::field::field;
use crate::kind::LineKind;
use crate::parts::{Line, line_parts};
use rejections::Rejection;
use terms::entry::Entry;
use terms::records::{Concept, Inclusion};

/// The numbers of a line, 0 where a field is blank.
// 0 and no `Option`: the sort of line says which fields have numbers, and no other is read.
#[derive(Clone, Copy)]
pub(crate) struct Numbers {
    first: u16,
    second: u16,
    third: u16,
}

/// What a line of twenty columns states.
pub fn line(columns: &[u8; 20]) -> Result<Entry, LineFault>
    ensures value { result ≡ line_of columns.now }
    ensures law { LineLaw columns.now result }
{
    stated(line_parts(columns))
}

// What the parts of a line state.
fn stated(parts: Line) -> Result<Entry, LineFault>
    requires { length parts.fields.now ≡ 18 }
    ensures { result ≡ kind_line (kind_of parts.entry.letter) parts.entry.fields.now
        parts.entry.feed }
{
    let kind = LineKind::of(char::from(parts.letter)).ok_or(LineFault {
        layer: Layer::Line,
        rejection: Rejection::UnknownLetter,
        column: 1,
    })?;
    let numbers = read_numbers(parts.fields, kind.count())?;
    ended(entry(kind, numbers), parts.feed)
}

// What a line states, if it ends with a line feed.
fn ended(entry: Entry, feed: u8) -> Result<Entry, LineFault>
    ensures { result ≡ ended_by feed entry }
{
    if feed == b'\n' {
        Ok(entry)
    } else {
        Err(LineFault {
            layer: Layer::Line,
            rejection: Rejection::NoLineFeed,
            column: 20,
        })
    }
}

// The number of a field that is to have one, or 0 for a field that is to be blank.
fn wanted(columns: &[u8], number: bool) -> Result<u16, FieldFault>
    ensures { result ≡ and_then (field_of columns.now) (as_wanted number) }
{
    match (field(columns)?, number) {
        (Some(n), true) => Ok(n),
        (None, false) => Ok(0),
        _ => Err(FieldFault),
    }
}

// The three fields, of which the first `count` have a number. Three lines, as an array of results would need a loop and its proof to say the same.
fn read_numbers(fields: &[u8], count: u8) -> Result<Numbers, LineFault>
    requires { length fields.now ≡ 18 }
    ensures { result ≡ numbers_of count fields.now }
{
    let first = at(wanted(&fields[0..6], count > 0), 2)?;
    let second = at(wanted(&fields[6..12], count > 1), 8)?;
    let third = at(wanted(&fields[12..18], count > 2), 14)?;
    Ok(Numbers {
        first,
        second,
        third,
    })
}

fn entry(kind: LineKind, numbers: Numbers) -> Entry
    ensures { result ≡ entry_of kind numbers }
{
    let Numbers {
        first,
        second,
        third,
    } = numbers;
    match kind {
        LineKind::Atomic => Entry::Concept(Concept::Atomic),
        LineKind::Top => Entry::Concept(Concept::Top),
        LineKind::Conjunction => Entry::Concept(Concept::Conjunction(first, second)),
        LineKind::Restriction => Entry::Concept(Concept::Restriction(first, second)),
        LineKind::Role => Entry::Role,
        LineKind::Order => Entry::Order(first, second),
        LineKind::Transitive => Entry::Transitive(first),
        LineKind::Inclusion => Entry::Inclusion(Inclusion {
            sub: first,
            sup: second,
            code: third,
        }),
    }
}
