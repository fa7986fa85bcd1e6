//! The other classifier on sheets whose answers are known, and the generator of random sheets.
#![tactic(auto)]

#[cfg(test)]
mod tests {
    use random_sheets::{Random, Size, damaged, random_sheet};
    use reference::{
        AtPoint, Fault, Kind, Layer, Reason, Room, Unread, Vocabulary, expected_output,
        first_fault, padded, push_line, read, saturate,
    };
    use std::alloc::{AllocError, Global};
    use std::iter;
    use std::test::Fail;

    // Sheets, whose lines may be short, and what is printed for them.
    const PRINTED: [(&[u8], &[u8]); 11] = [
        // A transitive role with a role below it, a chain of two restrictions, and what lies above its end.
        (
            b"R\nR\nI     0     1\nP     1\nA\nA\nA\nA\nE     0     1\nE     1     2\nS     0     4     0\nS     1     5     2\nS     5     3     1\n",
            b"     0     3     2\n     1     3     2\n",
        ),
        // The same, and the upper role is not transitive.
        (
            b"R\nR\nI     0     1\nA\nA\nA\nA\nE     0     1\nE     1     2\nS     0     4     0\nS     1     5     2\nS     5     3     1\n",
            b"     1     3     2\n",
        ),
        // A transitive role below another that is not: nothing is carried on along the upper one.
        (
            b"R\nR\nI     0     1\nP     0\nA\nA\nA\nA\nE     1     1\nE     0     2\nE     1     2\nS     0     4     0\nS     1     5     0\nS     6     3     0\n",
            b"     1     3     0\n",
        ),
        (b"", b""),
        (b"A\nA", b"!     1     2     1\n"),
        (b"A\nB\n", b"!     2     2     1\n"),
        (b"A\nS     0     0 65536\n", b"!     3     2    14\n"),
        (b"A\nS     0    07     0\n", b"!     3     2     8\n"),
        (b"A\nS     0     1     0\n", b"!     5     2     8\n"),
        (b"A\nA\nS     0     1    64\n", b""),
        (b"A\nA\nS     0     1    65\n", b"!     8     0     0\n"),
    ];

    // How many A lines and R lines follow each other, and what is printed for them.
    const COUNTED: [(usize, usize, &[u8]); 4] = [
        (41, 0, b"!     6    41     1\n"),
        (40, 4, b""),
        (40, 5, b"!     9     0     0\n"),
        (1, 200, b"!     6   201     1\n"),
    ];

    // Room for what the program reads, for what any sheet has at most, and for more.
    const USUAL: Room = Room {
        concepts: 40,
        inclusions: 200,
    };

    const LIMITS: Room = Room {
        concepts: 1024,
        inclusions: 4096,
    };

    const BEYOND_LIMITS: Room = Room {
        concepts: 2000,
        inclusions: 5000,
    };

    // A sheet of so many atomic concepts and roles.
    fn bare(heap: Global, concepts: usize, roles: usize) -> Result<Vec<u8>, AllocError> {
        let mut text = Vec::new(heap);
        let letters = iter::repeat_n(b'A', concepts).chain(iter::repeat_n(b'R', roles));
        for letter in letters {
            push_line(&mut text, &[letter], &[])?;
        }
        Ok(text)
    }

    #[test]
    fn listings_and_rejections(rt: HostRuntime) -> Result<(), Fail> {
        let heap = rt.alloc();
        for (sheet, output) in PRINTED.iter() {
            let text = padded(heap, sheet)?;
            assert!(rt; expected_output(heap, &text)?.as_slice() == *output);
        }
        for (concepts, roles, output) in COUNTED.iter() {
            let text = bare(heap, *concepts, *roles)?;
            assert!(rt; expected_output(heap, &text)?.as_slice() == *output);
        }
        Ok(())
    }

    #[test]
    fn faults(rt: HostRuntime) -> Result<(), Fail> {
        let heap = rt.alloc();
        assert!(rt; first_fault(&bare(heap, 1024, 32)?, BEYOND_LIMITS).is_none());
        let beyond = Fault {
            layer: Layer::Sheet,
            reason: Reason::BeyondLimit,
            line: 1025,
            column: 1,
        };
        assert!(rt; first_fault(&bare(heap, 1025, 0)?, BEYOND_LIMITS) == Some(beyond));
        assert!(rt; beyond.number() == 6);
        let feedless = Fault {
            layer: Layer::Line,
            reason: Reason::NoLineFeed,
            line: 1,
            column: 20,
        };
        assert!(rt; first_fault(b"A                  A", USUAL) == Some(feedless));
        assert!(rt; feedless.number() == 4);
        Ok(())
    }

    // The vocabulary of the sheet, whose lines may be short.
    fn vocabulary(heap: Global, sheet: &[u8]) -> Result<Vocabulary, Unread> {
        read(heap, &padded(heap, sheet)?, LIMITS)
    }

    #[test]
    fn grades(rt: HostRuntime) -> Result<(), Fail> {
        let heap = rt.alloc();
        let twice = vocabulary(heap, b"A\nN     0     0\n")?;
        let table = saturate(heap, &twice, Kind::Releases)?;
        assert!(rt; Kind::Releases.code(table.under(0, 1)) == Some(0));
        let views = vocabulary(heap, b"A\nA\nA\nS     0     1     5\nS     1     2     6\n")?;
        let table = saturate(heap, &views, Kind::Views)?;
        assert!(rt; Kind::Views.code(table.under(0, 2)) == Some(4));
        Ok(())
    }

    #[test]
    fn mates_and_parents(rt: HostRuntime) -> Result<(), Fail> {
        let heap = rt.alloc();
        let child = vocabulary(heap, b"A\nA\nS     0     1     1\n")?;
        let table = saturate(heap, &child, Kind::Plain)?;
        assert!(rt; table.job_points(&child) == 3);
        let at = AtPoint {
            table: &table,
            vocabulary: &child,
            point: 0,
        };
        assert!(rt; at.mates(heap, 0)?.is_empty());
        assert!(rt; at.parents(heap, 0)?.as_slice() == [1].as_slice());
        let mate = vocabulary(heap, b"A\nA\nS     0     1     1\nS     1     0     1\n")?;
        let table = saturate(heap, &mate, Kind::Plain)?;
        let at = AtPoint {
            table: &table,
            vocabulary: &mate,
            point: 0,
        };
        assert!(rt; at.mates(heap, 0)?.as_slice() == [1].as_slice());
        assert!(rt; at.parents(heap, 0)?.is_empty());
        Ok(())
    }

    #[test]
    fn random_sheets_have_no_fault(rt: HostRuntime) -> Result<(), Fail> {
        let heap = rt.alloc();
        let mut random = Random::seeded(1);
        // Counted in the loop, since each sheet may ask for memory in vain, which a closure of `filter` cannot answer.
        let mut faulty = 0u32;
        for concepts in 0..40usize {
            let size = Size {
                concepts,
                roles: concepts % 4,
                inclusions: concepts,
                most_code: 64,
            };
            let room = Room {
                concepts,
                inclusions: concepts,
            };
            let sheet = random_sheet(heap, &mut random, size)?;
            assert!(rt; first_fault(&sheet, room).is_none());
            if first_fault(&damaged(heap, &mut random, &sheet)?, room).is_some() {
                faulty = faulty.saturating_add(1);
            }
        }
        assert!(rt; faulty > 10);
        Ok(())
    }
}
