//! One sheet with two shared boards and a third, of one single run, and their comparison.
use crate::comparing::Truth;
use crate::history::{Course, count, work};
use crate::slots::{Side, Slot, Slots};
use board::board::OpenBoard;
use board::tokens::{Lease, Refused};
use grades::kind::GradeKind;
use piles::marks::Marks;
use piles::pile::Pile;
use piles::ring::Ring;
use reference::Kind;
use rejections::Rejection;
use saturation::Outcome;
use staging::hands::{Hand, Session, Shown};
use staging::sheets::with_terms;
use staging::trouble::Trouble;
use std::alloc::Global;
use terms::terms::Terms;

/// The most concepts of a sheet.
pub const CONCEPTS: usize = 10;

/// The most inclusions of a sheet.
pub const INCLUSIONS: usize = 12;

/// The words of a board for so many concepts and two roles.
const WORDS: usize = 710;

/// A kind of grade that is tried: the library's, the other classifier's, and the greatest code of its sheets.
#[derive(Clone, Copy)]
pub struct Tried<K> {
    pub kind: K,
    pub known: Kind,
    pub most_code: u16,
}

/// A sheet of which all is compared: what the other classifier says of it, and the kind of grade.
#[derive(Drop)]
struct Trial<'t, K> {
    truth: Truth<'t>,
    kind: K,
}

/// Does all the jobs at the lease's concept. The board comes without a session: with one the checker finds the pile at another lifetime.
fn exhaust<K: GradeKind, Q: Pile>(
    board: &mut OpenBoard<K>,
    pile: &mut Q,
    terms: &Terms,
    lease: &Lease,
) {
    // A loop, since `any` over a range would hide that each call acts.
    for _ in 0..1000u16 {
        if board.step(terms, pile, lease).is_err() {
            break;
        }
    }
}

/// Lowers the lease on a board, and shows the lowered lease in a session of another.
fn lend<K: GradeKind, P: Pile>(
    board: &mut OpenBoard<K>,
    lease: Lease,
    session: &mut Session<K, P>,
) -> Hand {
    match board.lower(lease) {
        Ok(lowered) => {
            let Shown { hand, answer: _ } = session.recheck(Hand::Owing(lowered));
            hand
        }
        Err(
            Refused {
                rejection: _,
                token,
            },
        ) => Hand::Holding(token),
    }
}

/// Brings back into sight what a recheck on another board left waiting: a fresh board is worked through, and each of its lowered leases,
/// which it does not need itself, is shown to the board.
fn heal<K: GradeKind, P: Pile>(session: &mut Session<K, P>, kind: K) -> Result<(), Trouble<Slots>> {
    let mut words = [0; WORDS];
    let mut list = [0; CONCEPTS];
    let mut marks = Marks::new(&mut list);
    let mut board = OpenBoard::make(session.terms, &mut words, &mut marks, kind);
    for _ in 0..10000u16 {
        let Ok(lease) = board.take(&mut marks) else {
            return Ok(());
        };
        exhaust(&mut board, &mut marks, session.terms, &lease);
        match lend(&mut board, lease, session) {
            Hand::Empty => {}
            hand => {
                let kept = Slot {
                    hand,
                    side: Side::First,
                };
                return Err(Trouble::Kept(Slots([kept, Slot::free(), Slot::free()])));
            }
        }
    }
    Ok(())
}

/// How a run without a limit ends; one that is rejected has left a job.
fn run_all<K: GradeKind, P: Pile>(session: &mut Session<K, P>) -> Outcome {
    session
        .board
        .run(session.terms, session.pile, u64::MAX)
        .map_or(Outcome::Left, |ran| ran.outcome)
}

/// Runs to the end. Where a recheck went astray, a job may be out of sight, and is brought back first: only a run that ends as left says so.
fn finish<K: GradeKind, P: Pile>(
    session: &mut Session<K, P>,
    kind: K,
    course: &mut Course,
) -> Result<(), Trouble<Slots>> {
    let mut outcome = run_all(session);
    if outcome == Outcome::Left && course.astray {
        count(&mut course.tally.healed);
        heal(session, kind)?;
        outcome = run_all(session);
    }
    match outcome {
        Outcome::Finished => Ok(()),
        Outcome::Spent | Outcome::Left => Err(Trouble::Differs("a run did not finish")),
    }
}

impl<'t, K: GradeKind> Trial<'t, K> {
    /// Closes the board and asks for a grade, which is rejected just where a job waits, and else is the true one. Then goes on.
    fn pause<'a, P: Pile>(
        &self,
        board: OpenBoard<'a, K>,
        pile: &mut P,
        course: &mut Course,
    ) -> OpenBoard<'a, K> {
        let mut open = board;
        let waits = !open
            .run(self.truth.terms, pile, 0)
            .is_ok_and(|ran| ran.outcome == Outcome::Finished);
        let a = course.random.below(CONCEPTS).min(CONCEPTS) as u16;
        let closed = open.close();
        match closed.under(self.truth.terms, a, a) {
            Ok(code) => course.expect(!waits && self.truth.under(a, a) == Some(code)),
            Err(Rejection::JobWaits) => {
                count(&mut course.tally.waiting);
                course.expect(waits);
            }
            Err(Rejection::NoSuchConcept) => course.expect(!waits && !self.truth.is_named(a)),
            Err(_) => course.expect(false),
        }
        closed.reopen()
    }

    /// One single run on a board of its own says what the other classifier says.
    fn compare_single(&self, course: &mut Course) -> Result<[u16; WORDS], Trouble<Slots>> {
        let mut words = [0; WORDS];
        let mut list = [0; CONCEPTS];
        let mut ring = Ring::new(&mut list);
        let terms = self.truth.terms;
        let mut board = OpenBoard::make(terms, &mut words, &mut ring, self.kind);
        let mut session = Session::new(&mut board, &mut ring, terms);
        finish(&mut session, self.kind, course)?;
        self.truth.check_board(&board.close(), course)?;
        Ok(words)
    }

    /// Three workers share two boards, which then say what the other classifier says.
    fn compare_shared(&self, course: &mut Course) -> Result<[[u16; WORDS]; 2], Trouble<Slots>> {
        let mut first_words = [0; WORDS];
        let mut second_words = [0; WORDS];
        let mut list = [0; CONCEPTS];
        let mut marks = Marks::new(&mut list);
        let mut chain = [0; CONCEPTS];
        let mut ring = Ring::new(&mut chain);
        let terms = self.truth.terms;
        let mut first = OpenBoard::make(terms, &mut first_words, &mut marks, self.kind);
        let mut second = OpenBoard::make(terms, &mut second_words, &mut ring, self.kind);
        let mut slots = Slots::free();
        for _ in 0..3u8 {
            let mut here = Session::new(&mut first, &mut marks, terms);
            let mut there = Session::new(&mut second, &mut ring, terms);
            slots = work(&mut here, &mut there, slots, course);
            first = self.pause(first, &mut marks, course);
            second = self.pause(second, &mut ring, course);
        }
        let mut here = Session::new(&mut first, &mut marks, terms);
        let mut there = Session::new(&mut second, &mut ring, terms);
        let rest = slots.spend(&mut here, Side::First);
        rest.spend(&mut there, Side::Second).end()?;
        finish(&mut here, self.kind, course)?;
        finish(&mut there, self.kind, course)?;
        self.truth.check_board(&first.close(), course)?;
        self.truth.check_board(&second.close(), course)?;
        Ok([first_words, second_words])
    }

    /// Compares the shared boards of a vocabulary, a single run and the other classifier: all grades of the boards, found and done, are the
    /// same, whatever the order of the work.
    fn compare_boards(&self, course: &mut Course) -> Result<(), Trouble<Slots>> {
        let single = self.compare_single(course)?;
        let [first, second] = self.compare_shared(course)?;
        let concepts = self.truth.terms.concepts().len();
        if concepts > CONCEPTS
            || single[concepts..] != first[concepts..]
            || single[concepts..] != second[concepts..]
        {
            return Err(Trouble::Differs("other words"));
        }
        Ok(())
    }
}

/// Compares all that is said of a sheet.
pub fn compare<K: GradeKind>(
    heap: Global,
    tried: Tried<K>,
    text: &[u8],
    course: &mut Course,
) -> Result<(), Trouble<Slots>> {
    with_terms(heap, INCLUSIONS, text, |terms| {
        let truth = Truth::of(heap, text, terms, tried.known)?;
        let kind = tried.kind;
        Trial { truth, kind }.compare_boards(course)
    })?;
    if course.wrong {
        return Err(Trouble::Differs("an answer is not as it must be"));
    }
    Ok(())
}
