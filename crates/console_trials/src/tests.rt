//! Inputs, and what is written for them.
use console::print_listing;
use reference::{expected_output, padded, push_line};
use std::alloc::{AllocError, Global};
use std::io;
use std::io::Read;
use std::process::Abort;
use std::test::Fail;

/// A text that comes in pieces of at most so many bytes.
#[derive(Clone, Copy)]
struct Pieces<'a> {
    text: &'a [u8],
    most: usize,
}

impl<'a> Read for Pieces<'a> {
    fn read(&mut self, buf: &mut [u8]) -> io::Result<usize> {
        let n = self.most.min(self.text.len()).min(buf.len());
        buf[0..n].copy_from_slice(&self.text[0..n]);
        self.text = &self.text[n..];
        Ok(n)
    }
}

/// What is written for a text in pieces is the same bytes.
fn check_written(
    rt: &impl Abort,
    heap: Global,
    text: &[u8],
    most: usize,
    expected: &[u8],
) -> Result<(), Fail> {
    let mut output = Vec::new(heap);
    let mut input = Pieces { text, most };
    print_listing(&mut input, &mut output)?;
    assert!(rt; output.as_slice() == expected);
    Ok(())
}

/// A sheet of so many roles, 40 atomic concepts, and so many inclusions of the first in itself.
fn long_sheet(heap: Global, roles: usize, inclusions: usize) -> Result<Vec<u8>, AllocError> {
    let mut text = Vec::new(heap);
    for _ in 0..roles {
        push_line(&mut text, b"R", &[])?;
    }
    for _ in 0..40usize {
        push_line(&mut text, b"A", &[])?;
    }
    for _ in 0..inclusions {
        push_line(&mut text, b"S", &[0, 0, 0])?;
    }
    Ok(text)
}

#[test]
fn pieces_make_the_whole(rt: HostRuntime) -> Result<(), Fail> {
    let heap = rt.alloc();
    let text = padded(heap, b"A\nA\nA\nS     0     1     3\nS     1     2     5\n")?;
    let expected = expected_output(heap, &text)?;
    assert!(rt; expected.len() == 57);
    for most in [1, 7, 20, 99, 5000] {
        check_written(&rt, heap, &text, most, &expected)?;
    }
    Ok(())
}

#[test]
fn trouble_is_written(rt: HostRuntime) -> Result<(), Fail> {
    let heap = rt.alloc();
    check_written(&rt, heap, b"", 9, b"")?;
    check_written(&rt, heap, b"A", 9, b"!     1     1     1\n")?;
    let last = padded(heap, b"A\nS     0     0    64\n")?;
    check_written(&rt, heap, &last, 9, b"")?;
    let foreign = padded(heap, b"A\nS     0     0    65\n")?;
    check_written(&rt, heap, &foreign, 9, b"!     8     0     0\n")
}

#[test]
fn forty_concepts_have_at_most_four_roles(rt: HostRuntime) -> Result<(), Fail> {
    let heap = rt.alloc();
    let four = long_sheet(heap, 4, 0)?;
    check_written(&rt, heap, &four, 4096, b"")?;
    let five = long_sheet(heap, 5, 0)?;
    check_written(&rt, heap, &five, 4096, b"!     9     0     0\n")
}

#[test]
fn the_longest_text_has_4000_bytes(rt: HostRuntime) -> Result<(), Fail> {
    let heap = rt.alloc();
    let mut text = long_sheet(heap, 0, 160)?;
    assert_eq!(rt; text.len(), 4000);
    check_written(&rt, heap, &text, 4096, b"")?;
    text.push(b'A')?;
    check_written(&rt, heap, &text, 4096, b"!     6   201     1\n")?;
    check_written(&rt, heap, &text, 13, b"!     6   201     1\n")
}
