//! What the other classifier says of a sheet, and whether a closed board says the same.
use crate::history::Course;
use crate::slots::Slots;
use crate::trial::CONCEPTS;
use board::board::ClosedBoard;
use grades::kind::GradeKind;
use reference::{AtPoint, Kind, Room, Table, Vocabulary, saturate};
use rejections::Rejection;
use staging::trouble::Trouble;
use std::alloc::Global;
use terms::terms::Terms;

/// The concepts and inclusions that the other classifier has room for.
const ROOM: Room = Room {
    concepts: 1024,
    inclusions: 4096,
};

/// What the other classifier says of a sheet, and the library's terms of it.
#[derive(Drop)]
pub struct Truth<'t> {
    heap: Global,
    pub terms: &'t Terms<'t>,
    vocabulary: Vocabulary,
    table: Table,
    kind: Kind,
}

/// The answer is the count of the expected numbers, with which the list begins.
fn check_list(
    answer: Result<usize, Rejection>,
    list: &[u16],
    expected: &[u16],
    wrong: &'static str,
) -> Result<(), Trouble<Slots>> {
    if answer != Ok(expected.len()) || !list.starts_with(expected) {
        return Err(Trouble::Differs(wrong));
    }
    Ok(())
}

impl<'t> Truth<'t> {
    /// What it says of the text, of which these are the terms.
    pub fn of(
        heap: Global,
        text: &[u8],
        terms: &'t Terms<'t>,
        kind: Kind,
    ) -> Result<Truth<'t>, Trouble<Slots>> {
        let vocabulary = reference::read(heap, text, ROOM)?;
        let table = saturate(heap, &vocabulary, kind)?;
        Ok(Truth {
            heap,
            terms,
            vocabulary,
            table,
            kind,
        })
    }

    /// The code of "a under d".
    pub fn under(&self, a: u16, d: u16) -> Option<u16> {
        self.kind
            .code(self.table.under(usize::from(a), usize::from(d)))
    }

    /// Whether so many steps are possible: with one point there is one step for each derivable job, else there may be fewer.
    pub fn allows(&self, steps: u64) -> bool {
        let most = self.table.job_points(&self.vocabulary);
        match self.kind {
            Kind::Plain => steps == most,
            Kind::Releases | Kind::Views => steps <= most,
        }
    }

    /// The mates and the parents of a concept at a point are those that the board answers.
    fn check_lists<K: GradeKind>(
        &self,
        board: &ClosedBoard<K>,
        a: u16,
        point: u8,
    ) -> Result<(), Trouble<Slots>> {
        let place = usize::from(a);
        let at = AtPoint {
            table: &self.table,
            vocabulary: &self.vocabulary,
            point: usize::from(point),
        };
        let mut list = [u16::MAX; CONCEPTS];
        let mated = board.mates(self.terms, a, point, &mut list);
        let expected = at.mates(self.heap, place)?;
        check_list(mated, &list, &expected, "other mates")?;
        let above = board.parents(self.terms, a, point, &mut list);
        let expected = at.parents(self.heap, place)?;
        check_list(above, &list, &expected, "other parents")
    }

    /// Whether the other classifier has a named concept there.
    pub fn is_named(&self, a: u16) -> bool {
        self.vocabulary.is_atomic(usize::from(a))
    }

    /// The grades of a named concept are those that the board answers, and so are its mates and parents at a random point.
    fn check_row<K: GradeKind>(
        &self,
        board: &ClosedBoard<K>,
        a: u16,
        point: u8,
    ) -> Result<(), Trouble<Slots>> {
        for d in (0..CONCEPTS as u16).take(self.vocabulary.concepts.len()) {
            if board.under(self.terms, a, d).ok() != self.under(a, d) {
                return Err(Trouble::Differs("another grade"));
            }
        }
        self.check_lists(board, a, point)
    }

    /// The board says all that the other classifier says.
    pub fn check_board<K: GradeKind>(
        &self,
        board: &ClosedBoard<K>,
        course: &mut Course,
    ) -> Result<(), Trouble<Slots>> {
        if !self.allows(board.steps()) {
            return Err(Trouble::Differs("another count of steps"));
        }
        for a in (0..CONCEPTS as u16).filter(|a| self.is_named(*a)) {
            let point = course.random.below(usize::from(K::points())).min(63) as u8;
            self.check_row(board, a, point)?;
        }
        Ok(())
    }
}
