//! Playing the scripts on boards over a sheet, one with a concept more and one with a role more.
use crate::lines::ScriptLine;
use crate::playing::{Hands, Sheets};
use crate::score::Score;
use crate::scripts::{EXCHANGED, NOT_HELD, OWN_LEASE, TOO_HIGH};
use piles::marks::Marks;
use piles::pile::Pile;
use piles::ring::Ring;
use staging::sheets::with_terms;
use staging::trouble::Trouble;
use std::alloc::Global;
use std::test::*;

/// Two atomic concepts, a top and a role, and the first concept inside the second.
const SHEET: &[u8] = b"R\nA\nA\nT\nS     0     1     1\n";

/// One concept more.
const WIDER: &[u8] = b"R\nA\nA\nT\nA\nS     0     1     1\n";

/// One role more.
const DEEPER: &[u8] = b"R\nR\nA\nA\nT\nS     0     1     1\n";

/// The concepts of the sheet, and the words of its board.
const CONCEPTS: usize = 3;

const WORDS: usize = 48;

/// How many concepts and inclusions the lists have room for.
const MOST: usize = 4;

/// Plays the script without the calls that are to be rejected, and then with them, also with a pile of the other sort: the words and the count
/// of steps are the same.
fn compare(
    script: &[ScriptLine],
    sheets: &Sheets,
    score: &mut Score,
) -> Result<(), Trouble<Hands>> {
    let mut list = [0; CONCEPTS];
    let mut chain = [0; CONCEPTS];
    let mut marks = Marks::new(&mut list);
    let mut ring = Ring::new(&mut chain);
    let mut expected = [0; WORDS];
    let mut words = [0; WORDS];
    let bare = sheets.play(script, false, &mut expected, &mut marks, score)?;
    let full = sheets.play(script, true, &mut words, &mut ring, score)?;
    score.expect(words == expected && full == bare && ring.count() == marks.count());
    let mut list = [0; CONCEPTS];
    let mut marks = Marks::new(&mut list);
    let again = sheets.play(script, true, &mut words, &mut marks, score)?;
    score.expect(words == expected && again == bare && ring.count() == marks.count());
    Ok(())
}

/// Plays the scripts.
fn compare_all(sheets: &Sheets, score: &mut Score) -> Result<(), Trouble<Hands>> {
    compare(&OWN_LEASE, sheets, score)?;
    compare(&TOO_HIGH, sheets, score)?;
    compare(&NOT_HELD, sheets, score)?;
    compare(&EXCHANGED, sheets, score)
}

/// Reads the three sheets, and plays the scripts with them.
fn read_and_compare(heap: Global, score: &mut Score) -> Result<(), Trouble<Hands>> {
    with_terms(heap, MOST, SHEET, |plain| {
        with_terms(heap, MOST, WIDER, |wider| {
            with_terms(heap, MOST, DEEPER, |deeper| {
                compare_all(
                    &Sheets {
                        plain,
                        wider,
                        deeper,
                    },
                    score,
                )
            })
        })
    })
}

/// A token that no board accepts may not be let go, so the test stops with it.
#[test]
fn each_call_answers_as_the_script_says(rt: HostRuntime) -> Result<(), Fail> {
    let mut score = Score::default();
    if let Err(trouble) = read_and_compare(rt.alloc(), &mut score) {
        panic!(rt; "{trouble}");
    }
    assert_eq!(rt; score.wrong, None);
    let count = score.count;
    println!(rt; "checks: {count}")?;
    assert_eq!(rt; count, 199);
    Ok(())
}
