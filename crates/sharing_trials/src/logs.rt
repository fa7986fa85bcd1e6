//! What takes, runs and workers note in a log.
use crate::tests::{SHEET, WORDS};
use board::board::OpenBoard;
use grades::kind::GradeKind;
use grades::releases::Releases;
use piles::log::Log;
use piles::pile::Pile;
use piles::ring::Ring;
use rejections::Rejection;
use saturation::Outcome;
use sharing::logs::{any_order_over_logs, run_noted, run_watched, share_noted, take_noted};
use staging::sheets::with_terms;
use std::process::Abort;
use std::test::Fail;
use terms::terms::Terms;

/// The five latest numbers drawn, the latest first, and the greatest number of 16 bits where none is kept.
fn kept<P>(log: &Log<P>) -> [u16; 5] {
    [0, 1, 2, 3, 4].map(|i| log.drawn(i).unwrap_or(u16::MAX))
}

/// Takes a concept, gives it back, and answers it.
fn take_and_return<K: GradeKind, P: Pile>(
    rt: &impl Abort,
    board: &mut OpenBoard<K>,
    terms: &Terms,
    log: &mut Log<P>,
) -> Result<u16, Rejection> {
    let lease = take_noted(board, log)?;
    let concept = lease.concept();
    let lowered = match board.lower(lease) {
        Ok(lowered) => lowered,
        Err(_kept) => panic!(rt; "the lease of {concept} is refused"),
    };
    match board.recheck(terms, log, lowered) {
        Ok(()) => Ok(concept),
        Err(_kept) => panic!(rt; "the lowered lease of {concept} is refused"),
    }
}

/// What is leased is noted, and so is what is put back; a run whose pile begins with a number that is not queued ends as left, and notes that.
fn check_takes(rt: &impl Abort, terms: &Terms) -> Result<(), Fail> {
    let (mut words, mut list) = ([9; WORDS], [0; 6]);
    let mut log = Log::new(Ring::new(&mut list));
    let mut board = OpenBoard::make(terms, &mut words, &mut log, Releases);
    assert_eq!(rt; (log.draws(), log.count()), (0, 4));
    assert_eq!(rt; take_and_return(rt, &mut board, terms, &mut log), Ok(0));
    assert_eq!(rt; [log.draw(), log.draw()], [Some(1), Some(2)]);
    assert_eq!(rt;
        [log.draw(), log.draw(), log.draw()],
        [Some(3), Some(0), None]
    );
    assert_eq!(rt; (log.draws(), kept(&log)), (5, [0, 3, 2, 1, 0]));
    assert_eq!(rt;
        take_and_return(rt, &mut board, terms, &mut log),
        Err(Rejection::EmptyPile)
    );
    assert_eq!(rt; log.put(5), Ok(()));
    assert_eq!(rt;
        take_and_return(rt, &mut board, terms, &mut log),
        Err(Rejection::NotQueued)
    );
    assert_eq!(rt;
        (log.draws(), log.holds(5), kept(&log)),
        (6, true, [5, 0, 3, 2, 1])
    );
    let ran = run_noted(&mut board, terms, &mut log, u64::MAX)?;
    assert_eq!(rt; (ran.outcome, ran.steps), (Outcome::Left, 0));
    assert_eq!(rt;
        (log.draws(), log.holds(5), kept(&log)),
        (7, true, [5, 5, 0, 3, 2])
    );
    Ok(())
}

/// A run over a ring notes first the concepts that were queued at the making, in their order.
fn check_run(rt: &impl Abort, terms: &Terms) -> Result<(), Fail> {
    let (mut words, mut list) = ([9; WORDS], [0; 6]);
    let mut log = Log::new(Ring::new(&mut list));
    let mut board = OpenBoard::make(terms, &mut words, &mut log, Releases);
    let ran = run_noted(&mut board, terms, &mut log, u64::MAX)?;
    assert_eq!(rt; (ran.outcome, log.count()), (Outcome::Finished, 0));
    let draws = log.draws() as usize;
    let oldest = [4, 3, 2, 1].map(|i| log.drawn(draws.saturating_sub(i)));
    assert_eq!(rt; oldest, [Some(3), Some(2), Some(1), Some(0)]);
    assert_eq!(rt; log.drawn(draws), None);
    Ok(())
}

/// A log that is made over a borrowed pile for one run notes what that run draws, and the pile is then its owner's again.
fn check_watching(rt: &impl Abort, terms: &Terms) {
    let (mut words, mut list) = ([9; WORDS], [0; 6]);
    let mut ring = Ring::new(&mut list);
    let mut board = OpenBoard::make(terms, &mut words, &mut ring, Releases);
    let first = run_watched(&mut board, terms, &mut ring, 1);
    assert_eq!(rt; first.ran.map(|ran| ran.outcome), Ok(Outcome::Spent));
    assert_eq!(rt; (first.log.draws(), first.log.drawn(0)), (1, Some(0)));
    assert_eq!(rt; ring.draw(), Some(1));
    assert_eq!(rt; ring.put(1), Ok(()));
    let second = run_watched(&mut board, terms, &mut ring, u64::MAX);
    assert_eq!(rt; second.ran.map(|ran| ran.outcome), Ok(Outcome::Finished));
    let draws = second.log.draws() as usize;
    assert_eq!(rt; second.log.drawn(draws.saturating_sub(1)), Some(2));
    assert_eq!(rt; second.log.drawn(draws), None);
    assert_eq!(rt; ring.count(), 0);
}

/// Whatever workers draw, a log and the log below it note the same.
fn check_sharing(rt: &impl Abort, terms: &Terms) {
    let (mut words, mut list) = ([9; WORDS], [0; 6]);
    let mut log = Log::new(Log::new(Ring::new(&mut list)));
    let board = share_noted(terms, &mut words, &mut log, Releases, 3);
    assert_eq!(rt; board.under(terms, 0, 3), Ok(2));
    assert!(rt; log.draws() > 4);
    assert_eq!(rt;
        (log.draws(), kept(&log)),
        (log.pile().draws(), kept(log.pile()))
    );
}

#[test]
fn takes_runs_and_workers_note_what_they_draw(rt: HostRuntime) -> Result<(), Fail> {
    any_order_over_logs::<Ring, Ring>();
    with_terms(rt.alloc(), 6, SHEET, |terms| {
        check_takes(&rt, terms)?;
        check_run(&rt, terms)?;
        check_watching(&rt, terms);
        check_sharing(&rt, terms);
        Ok(())
    })
}
