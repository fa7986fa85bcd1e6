//! From an input to an output: a text is read to its end, and its listing, or the line that says why there is none, is written.
#![tactic(auto)]

ghost use Rattle.std.specs.Prelude.{◌≤◌, ◌<◌, length, IfOk, OnOk};
ghost use Rattle.std.specs.Io.KnownBytes.{Consumes, IsAtEnd};
ghost use Rattle.console.specs.Printing.{Printing};

use listing::classification::{PAGE, list};
use std::io;
use std::io::{Read, Write};

/// One byte more than the longest text that is read, so that a longer one is seen to be too long.
const BUFFER: usize = 4001;

/// Reads into the buffer until the input ends or the buffer is full, and answers the part that is filled.
fn fill<'b, R: Read>(input: &mut R, buffer: &'b mut [u8]) -> io::Result<&'b [u8]>
    ensures bound { IfOk result (λ text. length text.now ≤ length buffer.old) }
    ensures bytes { IfOk result (λ text. Consumes (R.remaining input.old) (R.remaining input.new)
        text.now) }
    ensures end { IfOk result (λ text. length text.now < length buffer.old → IsAtEnd
        (R.remaining input.new)) }
{
    // By hand: `read_to_end` asks for a heap, and `read_exact` refuses a shorter input.
    let mut filled = 0;
    while filled < buffer.len() {
        let got = input.read(&mut buffer[filled..])?;
        if got == 0 {
            break;
        }
        filled += got;
    }
    Ok(&buffer[..filled])
}

/// Reads a term sheet and writes the listing of its classification, or the line that says why there is none. Of a text above 4,001 bytes
/// no more than these are read; an error of the input or the output is handed on.
pub fn print_listing<R: Read, W: Write>(input: &mut R, output: &mut W) -> io::Result<()>
    ensures { OnOk result (Printing (R.remaining input.old) (R.remaining input.new)
        (W.contents output.old) (W.contents output.new)) }
{
    let mut buffer = [0; BUFFER];
    let text = fill(input, &mut buffer)?;
    let mut page = [0; PAGE];
    match list(text, &mut page) {
        Ok(size) => output.write_all(&page[..size]),
        Err(trouble) => output.write_all(&trouble.line()),
    }
}
