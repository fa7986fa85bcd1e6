//! Reading a sheet into terms.
ghost use Rattle.std.specs.Prelude.{◌≡◌, ◌+◌, ◌/◌, ◌%◌, length, Err, MatchResult, ◌≢◌};
ghost use Rattle.terms.specs.Lent.{room_of, WrittenOver};
ghost use Rattle.terms.specs.Views.{contents_of, terms_of};
ghost use Rattle.sheet.specs.Faults.{unfinished};
ghost use Rattle.sheet.specs.Sheet.{lines_in, line_step, count_lines, sheet_of, TookLine, TookLines, contents_in};
ghost use Rattle.sheet.specs.Written.{ReadAs, ReadAsNone};

use crate::fault::{Fault, Layer, at};
use crate::line::line;
use rejections::Rejection;
use terms::collector::Collector;
use terms::tally::Tally;
use terms::terms::Terms;

/// Reads a sheet into terms, in place of what they held, and answers the number of its lines. A sheet with a fault leaves the terms
/// and their lists as they were.
pub fn read(text: &[u8], terms: &mut Terms) -> Result<usize, Fault>
    ensures result { result ≡ sheet_of (room_of terms.old) text.now }
    ensures terms { MatchResult result
        (λ _. (contents_of terms.new ≡ contents_in text.now) × WrittenOver terms.old terms.new)
        (λ _. terms.new ≡ terms.old) }
    ensures law { MatchResult result
        (λ n. ReadAs (room_of terms.old) text.now n (terms_of terms.new))
        (λ _. ReadAsNone (room_of terms.old) text.now) }
{
    let lines = whole_lines(text)?;
    let mut tally = Tally::none(terms.tally().room);
    take_lines(lines, &mut tally)?;
    terms.clear();
    take_lines(lines, terms)?;
    Ok(lines.len())
}

// The lines of a text that has whole lines alone.
fn whole_lines(text: &[u8]) -> Result<&[[u8; 20]], Fault>
    ensures { MatchResult result
        (λ lines. (length text.now % 20 ≡ 0) × (lines.now ≡ lines_in text.now))
        (λ f. (length text.now % 20 ≢ 0) × (f ≡ unfinished (length text.now / 20 + 1))) }
{
    let (lines, rest) = text.as_chunks::<20>();
    if !rest.is_empty() {
        return Err(Fault {
            layer: Layer::Sheet,
            rejection: Rejection::UnfinishedLine,
            line: lines.len() + 1,
            column: 1,
        });
    }
    Ok(lines)
}

// Takes what one line states.
fn take_line<C: Collector>(columns: &[u8; 20], number: usize, into: &mut C) -> Result<(), Fault>
    ensures { MatchResult result
        (λ _. TookLine C.counts C.grows number columns.now into.old into.new)
        (λ f. (line_step number columns.now (C.counts into.old) ≡ Err f) × (into.new ≡ into.old)) }
{
    let entry = at(line(columns), number)?;
    at(into.add(entry), number)?;
    Ok(())
}

// Takes what each line states, up to the first fault.
fn take_lines<C: Collector>(lines: &[[u8; 20]], into: &mut C) -> Result<(), Fault>
    ensures { MatchResult result (λ _. TookLines C.counts C.grows lines.now into.old into.new)
        (λ f. count_lines 1 lines.now (C.counts into.old) ≡ Err f) }
{
    for (i, columns) in lines.iter().enumerate() {
        take_line(columns, i + 1, into)?;
    }
    Ok(())
}
