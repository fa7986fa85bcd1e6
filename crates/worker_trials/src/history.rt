//! One history: workers take, step, lower and recheck at random on two boards, with small runs in between.
use crate::slots::{Side, Slot, Slots};
use grades::kind::GradeKind;
use piles::pile::Pile;
use random_sheets::Random;
use rejections::Rejection;
use saturation::Outcome;
use staging::hands::{Hand, Refusal, Session, Shown};
use std::fmt;

/// What happened in some histories.
#[derive(Clone, Copy, Default)]
pub struct Tally {
    /// Leases taken.
    pub taken: u64,
    /// Steps of workers.
    pub steps: u64,
    /// Leases that the board to which they were shown refused.
    pub refused: u64,
    /// Lowered leases that were rechecked on the other board.
    pub astray: u64,
    /// Boards that had a job out of sight at the end.
    pub healed: u64,
    /// Questions that were rejected, since a job waited.
    pub waiting: u64,
}

/// The course of a history: chance, whether lowered leases may go to the other board, what happened so far, and whether an answer was not as
/// it must be. Such an answer is only noted and ends nothing, since the workers then have tokens in their hands.
#[derive(Clone, Copy)]
pub struct Course {
    pub random: Random,
    pub astray: bool,
    pub tally: Tally,
    pub wrong: bool,
}

/// One more. It stops at the greatest number, so that no count needs a proof that it fits.
pub fn count(number: &mut u64) {
    *number = number.saturating_add(1);
}

impl fmt::Display for Tally {
    fn fmt<W: fmt::Write>(&self, f: &mut fmt::Formatter<W>) -> fmt::Result {
        let Tally {
            taken,
            steps,
            refused,
            astray,
            healed,
            waiting,
        } = self;
        write!(
            f,
            "{taken} takes, {steps} steps, {refused} leases refused, {astray} rechecks astray, {healed} boards healed, {waiting} questions too early"
        )
    }
}

impl Course {
    /// Notes an answer that is not as it must be.
    pub fn expect(&mut self, holds: bool) {
        if !holds {
            self.wrong = true;
        }
    }
}

/// Takes a concept into the empty hand, if one is queued.
fn take_one<K: GradeKind, P: Pile>(
    session: &mut Session<K, P>,
    hand: Hand,
    course: &mut Course,
) -> Hand {
    let Shown { hand, answer } = session.take(hand);
    match answer {
        Ok(()) => count(&mut course.tally.taken),
        Err(Refusal::Rejected(Rejection::EmptyPile)) => {}
        Err(_) => course.expect(false),
    }
    hand
}

/// Shows the lease in hand to the board for a step.
fn step_one<K: GradeKind, P: Pile>(session: &mut Session<K, P>, hand: &Hand, course: &mut Course) {
    match session.step(hand) {
        Ok(()) => count(&mut course.tally.steps),
        Err(Refusal::Rejected(Rejection::UnfitLease)) => count(&mut course.tally.refused),
        Err(Refusal::Rejected(Rejection::NothingWaits)) => {}
        Err(_) => course.expect(false),
    }
}

/// Shows the lease in hand to the board for a lowering.
fn lower_one<K: GradeKind, P: Pile>(
    session: &mut Session<K, P>,
    hand: Hand,
    course: &mut Course,
) -> Hand {
    let Shown { hand, answer } = session.lower(hand);
    if let Err(refusal) = answer {
        count(&mut course.tally.refused);
        course.expect(refusal == Refusal::Rejected(Rejection::UnfitLease));
    }
    hand
}

/// Shows the lowered lease in hand to the board, if it is owed to it or may go astray.
fn recheck_one<K: GradeKind, P: Pile>(
    session: &mut Session<K, P>,
    hand: Hand,
    owed_here: bool,
    course: &mut Course,
) -> Hand {
    if !owed_here {
        if !course.astray {
            return hand;
        }
        count(&mut course.tally.astray);
    }
    let Shown { hand, answer: _ } = session.recheck(hand);
    hand
}

/// A worker without a token takes, one with a lease steps or lowers, one that owes a recheck rechecks.
fn act<K: GradeKind, P: Pile>(
    session: &mut Session<K, P>,
    side: Side,
    slot: Slot,
    course: &mut Course,
) -> Slot {
    let Slot { hand, side: owed } = slot;
    match &hand {
        Hand::Empty => Slot {
            hand: take_one(session, hand, course),
            side,
        },
        Hand::Holding(_) => {
            if course.random.once_in(3) {
                return Slot {
                    hand: lower_one(session, hand, course),
                    side,
                };
            }
            step_one(session, &hand, course);
            Slot { hand, side }
        }
        Hand::Owing(_) => Slot {
            hand: recheck_one(session, hand, owed == side, course),
            side: owed,
        },
    }
}

/// A run of a few steps, once in a while.
fn run_some<K: GradeKind, P: Pile>(session: &mut Session<K, P>, course: &mut Course) {
    if !course.random.once_in(12) {
        return;
    }
    let budget = course.random.below(4) as u64;
    let before = session.board.steps();
    let Ok(ran) = session.board.run(session.terms, session.pile, budget) else {
        course.expect(false);
        return;
    };
    course.expect(ran.steps <= budget && session.board.steps() == before.saturating_add(ran.steps));
    course.expect(ran.outcome != Outcome::Spent || ran.steps == budget);
}

/// One worker acts on one of the boards, and another is next.
fn turn<K: GradeKind, P: Pile, Q: Pile>(
    first: &mut Session<K, P>,
    second: &mut Session<K, Q>,
    slots: Slots,
    course: &mut Course,
) -> Slots {
    let Slots([one, two, three]) = slots;
    let after = if course.random.once_in(2) {
        run_some(first, course);
        act(first, Side::First, one, course)
    } else {
        run_some(second, course);
        act(second, Side::Second, one, course)
    };
    if course.random.once_in(2) {
        Slots([two, three, after])
    } else {
        Slots([three, after, two])
    }
}

/// The workers act for a while.
pub fn work<K: GradeKind, P: Pile, Q: Pile>(
    first: &mut Session<K, P>,
    second: &mut Session<K, Q>,
    slots: Slots,
    course: &mut Course,
) -> Slots {
    let mut now = slots;
    for _ in 0..40u8 {
        now = turn(first, second, now, course);
    }
    now
}
