//! What the workers have in their hands, and how it is spent at the end.
use grades::kind::GradeKind;
use piles::pile::Pile;
use staging::hands::{Hand, Session, Shown};
use staging::trouble::Trouble;

/// One of the two boards.
#[derive(Clone, Copy, PartialEq)]
pub enum Side {
    First,
    Second,
}

/// What one worker has in hand, and the board to which a lowered lease is owed: that on which the worker last did something else.
pub struct Slot {
    pub hand: Hand,
    pub side: Side,
}

/// The hands of three workers, of whom the first acts next.
pub struct Slots(pub [Slot; 3]);

impl Slot {
    /// A worker without anything.
    pub fn free() -> Slot {
        Slot {
            hand: Hand::Empty,
            side: Side::First,
        }
    }

    /// Spends what is owed to the board and, if the board accepts it, a lease.
    fn spend<K: GradeKind, P: Pile>(self, session: &mut Session<K, P>, side: Side) -> Slot {
        let Slot { hand, side: owed } = self;
        let Shown { hand, answer } = session.lower(hand);
        let owed = if answer.is_ok() { side } else { owed };
        if owed != side {
            return Slot { hand, side: owed };
        }
        let Shown { hand, answer: _ } = session.recheck(hand);
        Slot { hand, side }
    }
}

impl Slots {
    /// Nobody has anything.
    pub fn free() -> Slots {
        Slots([Slot::free(), Slot::free(), Slot::free()])
    }

    /// Spends at the board what it accepts and what is owed to it.
    pub fn spend<K: GradeKind, P: Pile>(self, session: &mut Session<K, P>, side: Side) -> Slots {
        let Slots([one, two, three]) = self;
        Slots([
            one.spend(session, side),
            two.spend(session, side),
            three.spend(session, side),
        ])
    }

    /// Everything is spent, or the rest is handed on.
    pub fn end(self) -> Result<(), Trouble<Slots>> {
        let Slots([one, two, three]) = self;
        match (one, two, three) {
            (
                Slot {
                    hand: Hand::Empty,
                    side: _,
                },
                Slot {
                    hand: Hand::Empty,
                    side: _,
                },
                Slot {
                    hand: Hand::Empty,
                    side: _,
                },
            ) => Ok(()),
            (one, two, three) => Err(Trouble::Kept(Slots([one, two, three]))),
        }
    }
}
