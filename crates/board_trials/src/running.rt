//! Rejections of running, and the edges of a budget.
use crate::MOST;
use board::board::OpenBoard;
use board::board::running::Ran;
use grades::kind::GradeKind;
use grades::plain::Plain;
use piles::marks::Marks;
use piles::pile::Pile;
use piles::ring::Ring;
use rejections::Rejection;
use saturation::Outcome;
use staging::sheets::with_terms;
use std::alloc::Global;
use std::process::Abort;
use std::test::Fail;
use terms::terms::Terms;

/// How a run ended, and its steps.
fn parts(answer: Result<Ran, Rejection>) -> Result<(Outcome, u64), Rejection> {
    answer.map(|ran| (ran.outcome, ran.steps))
}

/// Numbers that are taken out of the pile, a budget, how a run with it ends and its steps, and the same of a second run without a limit. The
/// fields have no names, as those of a table's line.
#[derive(Clone, Copy)]
struct Case(&'static [u16], u64, (Outcome, u64), (Outcome, u64));

// The sheet has two atomic concepts and 0 inside 1, which takes three steps.
static RUNS: [Case; 9] = [
    Case(&[], 0, (Outcome::Spent, 0), (Outcome::Finished, 3)),
    Case(&[], 1, (Outcome::Spent, 1), (Outcome::Finished, 2)),
    Case(&[], 2, (Outcome::Spent, 2), (Outcome::Finished, 1)),
    Case(&[], 3, (Outcome::Finished, 3), (Outcome::Finished, 0)),
    Case(&[], 4, (Outcome::Finished, 3), (Outcome::Finished, 0)),
    Case(&[0, 1], 3, (Outcome::Left, 0), (Outcome::Left, 0)),
    Case(&[0, 1], 0, (Outcome::Spent, 0), (Outcome::Left, 0)),
    Case(&[1], 3, (Outcome::Left, 2), (Outcome::Left, 0)),
    Case(&[0], 3, (Outcome::Left, 1), (Outcome::Left, 0)),
];

/// Takes the numbers out of the pile, which has at most two.
fn take_out<P: Pile>(pile: &mut P, gone: &[u16]) {
    let drawn = [pile.draw(), pile.draw()];
    for x in drawn.iter().flatten() {
        if !gone.contains(x) {
            let _ = pile.put(*x);
        }
    }
}

/// A run of a fresh board ends as the case says, and so does a second one.
// For any kind, though one is tried: at `Plain` the check says "a bug in rattle leaves only a proof by hand".
fn check_run<K: GradeKind>(rt: &impl Abort, terms: &Terms, kind: K, case: Case) {
    let Case(gone, budget, first, second) = case;
    let mut words = [0; 14];
    let mut list = [0; 2];
    let mut marks = Marks::new(&mut list);
    let mut board = OpenBoard::make(terms, &mut words, &mut marks, kind);
    take_out(&mut marks, gone);
    assert_eq!(rt; parts(board.run(terms, &mut marks, budget)), Ok(first));
    assert_eq!(rt; board.steps(), first.1);
    assert_eq!(rt; parts(board.run(terms, &mut marks, u64::MAX)), Ok(second));
    let closed = board.close();
    assert_eq!(rt; closed.steps(), first.1.saturating_add(second.1));
}

/// The runs on boards over the terms.
fn check_runs(rt: &impl Abort, terms: &Terms) -> Result<(), Fail> {
    for case in RUNS.iter() {
        check_run(rt, terms, Plain, *case);
    }
    Ok(())
}

#[test]
fn budgets(rt: HostRuntime) -> Result<(), Fail> {
    with_terms(
        rt.alloc(),
        MOST,
        b"A\nA\nS     0     1     1\n",
        |terms| check_runs(&rt, terms),
    )
}

/// The sheet of other terms, the size of another pile, and the rejection of a run with both. The fields have no names, as those of a table's
/// line.
#[derive(Clone, Copy)]
struct Refusal(&'static [u8], usize, Rejection);

// The board has two atomic concepts, a top and a role.
static REFUSALS: [Refusal; 6] = [
    Refusal(b"R\nA\nA\nT\nA\n", 3, Rejection::OtherTerms),
    Refusal(b"R\nA\nA\n", 3, Rejection::OtherTerms),
    Refusal(b"R\nR\nA\nA\nT\n", 3, Rejection::OtherTerms),
    Refusal(b"A\nA\nT\n", 3, Rejection::OtherTerms),
    Refusal(b"R\nA\nA\nT\n", 2, Rejection::SmallPile),
    Refusal(b"R\nR\nA\nA\nT\n", 2, Rejection::OtherTerms),
];

/// A run with the other terms and the other pile is rejected, and leaves that pile.
fn check_refusal(
    rt: &impl Abort,
    board: &mut OpenBoard<Plain>,
    others: &Terms,
    refusal: Refusal,
) -> Result<(), Fail> {
    let Refusal(_, size, rejection) = refusal;
    let mut chain = [0; MOST];
    let mut ring = Ring::new(&mut chain[0..size.min(MOST)]);
    ring.put(1)?;
    assert_eq!(rt; parts(board.run(others, &mut ring, 5)), Err(rejection));
    assert_eq!(rt; (ring.count(), ring.holds(1)), (1, true));
    Ok(())
}

/// Runs for two steps, with a refusal in between, if there is one, and answers how many numbers the pile then holds.
fn run_twice(
    rt: &impl Abort,
    heap: Global,
    terms: &Terms,
    words: &mut [u16],
    refusal: Option<Refusal>,
) -> Result<usize, Fail> {
    let mut list = [0; 3];
    let mut marks = Marks::new(&mut list);
    let mut board = OpenBoard::make(terms, words, &mut marks, Plain);
    let spent = Ok((Outcome::Spent, 1));
    assert_eq!(rt; parts(board.run(terms, &mut marks, 1)), spent);
    if let Some(refusal) = refusal {
        let Refusal(sheet, _, _) = refusal;
        with_terms(
            heap,
            MOST,
            sheet,
            |others| check_refusal(rt, &mut board, others, refusal),
        )?;
    }
    assert_eq!(rt; parts(board.run(terms, &mut marks, 1)), spent);
    Ok(marks.count())
}

/// The words and the pile end as without the refusals.
fn check_refusals(rt: &impl Abort, heap: Global, terms: &Terms) -> Result<(), Fail> {
    let mut expected = [0; 48];
    let count = run_twice(rt, heap, terms, &mut expected, None)?;
    for refusal in REFUSALS.iter() {
        let mut words = [0; 48];
        let again = run_twice(rt, heap, terms, &mut words, Some(*refusal))?;
        assert!(rt; again == count && words == expected);
    }
    Ok(())
}

#[test]
fn rejected_runs_alter_nothing(rt: HostRuntime) -> Result<(), Fail> {
    let heap = rt.alloc();
    with_terms(
        heap,
        MOST,
        b"R\nA\nA\nT\nS     0     1     1\n",
        |terms| check_refusals(&rt, heap, terms),
    )
}
