//! Rejections of putting and checking, and makings where a check rejects.
use crate::MOST;
use board::board::OpenBoard;
use board::checking;
use grades::kind::GradeKind;
use grades::plain::Plain;
use grades::releases::Releases;
use grades::views::Views;
use piles::marks::Marks;
use piles::pile::Pile;
use piles::ring::Ring;
use rejections::Rejection;
use saturation::Outcome;
use staging::sheets::with_terms;
use std::alloc::Global;
use std::process::Abort;
use std::test::Fail;
use terms::terms::Terms;

/// The greatest words of a case.
const WORDS: usize = 60;

/// The greatest size of a pile.
const SIZE: usize = 8;

/// What the words are before a making.
const BEFORE: u16 = 9;

/// What a check answers.
type Answer = Result<(), Rejection>;

/// What is handed over for a board, and the answer: a sheet, whose lines are filled up, how many words there are, the pile's size and a
/// number that it holds. The fields have no names: the cases are tables, which names would make no plainer.
#[derive(Clone, Copy)]
struct Case(&'static [u8], usize, usize, Option<u16>, Answer);

const FINE: Answer = Ok(());

const FOREIGN_CODE: Answer = Err(Rejection::ForeignCode);

const TOO_FEW: Answer = Err(Rejection::TooFewWords);

const UNFIT_PILE: Answer = Err(Rejection::UnfitPile);

// Two concepts need 14 words, one needs 4, three and a role need 48.
static PLAIN: [Case; 18] = [
    Case(b"A\nA\nS     0     0     1\n", 14, 2, None, FINE),
    Case(b"A\nA\nS     0     0     2\n", 14, 2, None, FOREIGN_CODE),
    Case(b"A\n", 4, 1, None, FINE),
    Case(b"A\n", 3, 1, None, TOO_FEW),
    Case(b"A\nA\n", 13, 2, None, TOO_FEW),
    Case(b"R\nA\nT\nA\n", 48, 3, None, FINE),
    Case(b"R\nA\nT\nA\n", 47, 3, None, TOO_FEW),
    Case(b"", 0, 0, None, FINE),
    Case(b"R\nR\n", 0, 0, None, FINE),
    Case(b"A\nA\n", 14, 1, None, UNFIT_PILE),
    Case(b"A\nA\n", 14, 8, None, FINE),
    Case(b"A\nA\n", 14, 2, Some(1), UNFIT_PILE),
    Case(b"A\nA\n", 14, 8, Some(7), UNFIT_PILE),
    Case(b"", 0, 1, Some(0), UNFIT_PILE),
    // The first of several.
    Case(b"A\nA\nS     0     0     2\n", 13, 2, None, FOREIGN_CODE),
    Case(b"A\nA\nS     0     0     2\n", 14, 1, None, FOREIGN_CODE),
    Case(b"A\nA\nS     0     0     1\n", 13, 1, None, TOO_FEW),
    Case(b"A\nA\nS     0     0     2\n", 13, 2, Some(1), FOREIGN_CODE),
];

static RELEASES: [Case; 2] = [
    Case(b"A\nA\nS     0     0    64\n", 14, 2, None, FINE),
    Case(b"A\nA\nS     0     0    65\n", 14, 2, None, FOREIGN_CODE),
];

static VIEWS: [Case; 2] = [
    Case(b"A\nA\nS     0     0 65535\n", 14, 2, None, FINE),
    Case(b"A\nA\nS     0     0 65535\n", 13, 2, None, TOO_FEW),
];

/// How many concepts are named.
fn named(terms: &Terms) -> usize {
    (0..MOST as u16).filter(|c| terms.is_named(*c)).count()
}

/// Checking answers as it must. A making that is in order queues the named concepts, and any other leaves the pile and makes a board
/// without concepts and roles, on which no job waits.
// `rt`, `terms` and `kind` go on one by one: a struct of them would bring a lifetime and a type for the host, and be no plainer.
fn check_making<K: GradeKind, P: Pile>(
    rt: &impl Abort,
    terms: &Terms,
    words: &mut [u16],
    pile: &mut P,
    kind: K,
    answer: Answer,
) -> Result<(), Fail> {
    assert_eq!(rt; checking::check(terms, words, pile, kind), answer);
    let held = P::count(pile);
    let mut board = OpenBoard::make(terms, words, pile, kind);
    assert_eq!(rt; board.steps(), 0);
    if answer.is_ok() {
        assert_eq!(rt; P::count(pile), named(terms));
        return Ok(());
    }
    assert_eq!(rt; P::count(pile), held);
    let ran = board.run(&Terms::empty(&mut [], &mut []), pile, 0)?;
    assert_eq!(rt; (ran.outcome, ran.steps), (Outcome::Finished, 0));
    Ok(())
}

/// The words are as before a rejected making, and an accepted one has queued the first concept, if there is one.
fn check_words(
    rt: &impl Abort,
    words: &[u16; WORDS],
    sheet: &[u8],
    rejected: bool,
) -> Result<(), Fail> {
    if rejected || sheet.is_empty() {
        assert_eq!(rt; *words, [BEFORE; WORDS]);
        return Ok(());
    }
    if sheet.starts_with(b"A") {
        assert_eq!(rt; words[0], 1);
    }
    assert_eq!(rt; words[WORDS - 1], BEFORE);
    Ok(())
}

/// The case with an empty pile of its size.
fn check_with<K: GradeKind, P: Pile>(
    rt: &impl Abort,
    terms: &Terms,
    case: Case,
    pile: &mut P,
    kind: K,
) -> Result<(), Fail> {
    let Case(sheet, count, _, held, answer) = case;
    if let Some(x) = held {
        pile.put(x)?;
    }
    let mut words = [BEFORE; WORDS];
    assert!(rt; count <= WORDS);
    check_making(rt, terms, &mut words[0..count], pile, kind, answer)?;
    check_words(rt, &words, sheet, answer.is_err())
}

/// The case with a pile of each sort.
fn check_piles<K: GradeKind>(
    rt: &impl Abort,
    terms: &Terms,
    case: Case,
    kind: K,
) -> Result<(), Fail> {
    let Case(_, _, size, _, _) = case;
    assert!(rt; size <= SIZE);
    let mut list = [0; SIZE];
    check_with(rt, terms, case, &mut Marks::new(&mut list[0..size]), kind)?;
    let mut chain = [0; SIZE];
    check_with(rt, terms, case, &mut Ring::new(&mut chain[0..size]), kind)
}

/// All the cases.
fn check_cases<K: GradeKind>(
    rt: &impl Abort,
    heap: Global,
    cases: &[Case],
    kind: K,
) -> Result<(), Fail> {
    for case in cases {
        let Case(sheet, _, _, _, _) = *case;
        with_terms(
            heap,
            MOST,
            sheet,
            |terms| check_piles(rt, terms, *case, kind),
        )?;
    }
    Ok(())
}

#[test]
fn checks_and_makings(rt: HostRuntime) -> Result<(), Fail> {
    check_cases(&rt, rt.alloc(), &PLAIN, Plain)?;
    check_cases(&rt, rt.alloc(), &RELEASES, Releases)?;
    check_cases(&rt, rt.alloc(), &VIEWS, Views)
}

/// The last number below the size is held then, and a rejected one alters nothing.
fn check_put<P: Pile>(rt: &impl Abort, pile: &mut P, size: u16) {
    assert_eq!(rt; pile.put(size), Err(Rejection::NotBelowSize));
    assert_eq!(rt; (P::count(pile), P::holds(pile, size)), (0, false));
    assert_eq!(rt; pile.put(size.saturating_sub(1)), Ok(()));
    assert_eq!(rt; pile.put(u16::MAX), Err(Rejection::NotBelowSize));
    assert_eq!(rt;
        (P::count(pile), P::holds(pile, size.saturating_sub(1))),
        (1, true)
    );
}

#[test]
fn puts_below_the_size(rt: HostRuntime) {
    let mut list = [0; SIZE];
    check_put(&rt, &mut Marks::new(&mut list), 8);
    check_put(&rt, &mut Ring::new(&mut list), 8);
}
