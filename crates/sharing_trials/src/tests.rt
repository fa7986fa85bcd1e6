//! Sharing a board and asking it.
use grades::kind::GradeKind;
use grades::releases::Releases;
use piles::pile::Pile;
use piles::ring::Ring;
use rejections::Rejection;
use sharing::share_and_ask;
use staging::sheets::with_terms;
use std::process::Abort;
use std::test::Fail;
use terms::terms::Terms;

/// A transitive role with a role below it, and a chain of two restrictions.
pub const SHEET: &[u8] =
    b"R\nR\nI     0     1\nP     1\nA\nA\nA\nA\nE     0     1\nE     1     2\nS     0     4     0\nS     1     5     2\nS     5     3     1\n";

/// The words of its board, which has six concepts and two roles.
pub const WORDS: usize = 258;

/// What was answered to "0 under 3", what the board answers to that again, how many steps it took, and how many numbers the pile then holds.
#[derive(Clone, Copy, PartialEq, Debug)]
struct End {
    answer: Result<u16, Rejection>,
    under: Result<u16, Rejection>,
    steps: u64,
    piled: usize,
}

/// So many workers share a board over the words.
fn shared<K: GradeKind>(terms: &Terms, words: &mut [u16], kind: K, workers: u16) -> End {
    let mut list = [0; 6];
    let mut ring = Ring::new(&mut list);
    let end = share_and_ask(terms, words, &mut ring, kind, workers, 0, 3);
    End {
        answer: end.answer,
        under: end.board.under(terms, 0, 3),
        steps: end.board.steps(),
        piled: ring.count(),
    }
}

/// However many workers share, the words and what is found are those of one run, and too few words stay as they are.
fn check_workers(rt: &impl Abort, terms: &Terms) -> Result<(), Fail> {
    let mut alone = [9; WORDS + 1];
    let end = shared(terms, &mut alone, Releases, 0);
    assert_eq!(rt; (end.answer, end.under, end.piled), (Ok(2), Ok(2), 0));
    assert_eq!(rt; alone[WORDS], 9);
    for workers in [1, 2, 3, 4, 5, 1000] {
        let mut words = [9; WORDS + 1];
        let end = shared(terms, &mut words, Releases, workers);
        assert_eq!(rt; (end.answer, end.under, end.piled), (Ok(2), Ok(2), 0));
        assert!(rt; words == alone);
    }
    let mut few = [9; WORDS - 1];
    let end = shared(terms, &mut few, Releases, 3);
    assert_eq!(rt; (end.answer, end.steps), (Err(Rejection::TooFewWords), 0));
    assert_eq!(rt; end.under, Err(Rejection::OtherTerms));
    assert!(rt; few == [9; WORDS - 1]);
    Ok(())
}

/// On the empty sheet there is nothing to find and nothing to do.
fn check_empty(rt: &impl Abort, terms: &Terms) -> Result<(), Fail> {
    let end = shared(terms, &mut [], Releases, 2);
    assert_eq!(rt; (end.steps, end.piled), (0, 0));
    assert_eq!(rt; end.answer, Err(Rejection::NoSuchConcept));
    assert_eq!(rt; end.under, Err(Rejection::NoSuchConcept));
    Ok(())
}

#[test]
fn the_number_of_workers_decides_nothing(rt: HostRuntime) -> Result<(), Fail> {
    with_terms(rt.alloc(), 6, SHEET, |terms| check_workers(&rt, terms))
}

#[test]
fn the_empty_sheet_needs_no_words(rt: HostRuntime) -> Result<(), Fail> {
    with_terms(rt.alloc(), 0, b"", |terms| check_empty(&rt, terms))
}
