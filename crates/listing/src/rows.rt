//! The rows of a listing, written into a page.
ghost use Rattle.std.specs.Prelude.{◌≡◌, ◌+◌, ◌*◌, ◌≤◌, length};
ghost use Rattle.terms.specs.Views.{terms_of};
ghost use Rattle.board.specs.Views.{view};
ghost use Rattle.board.specs.Questions.{Settled};
ghost use Rattle.listing.specs.Pages.{RowsAt};
ghost use Rattle.listing.specs.Rows.{rows_up_to, all_rows, code_to_list};

use crate::page::{Page, Row};
use board::board::ClosedBoard;
use grades::kind::GradeKind;
use terms::terms::Terms;

/// A board that can be asked about the terms.
#[derive(Drop)]
pub(crate) struct SettledBoard<'b, 'w, 't, 'l, K: GradeKind> {
    board: &'b ClosedBoard<'w, K>,
    terms: &'t Terms<'l>,
    ghost settled: { Settled (terms_of terms.now) (view board.now) },
}

impl<'b, 'w, 't, 'l, K: GradeKind> SettledBoard<'b, 'w, 't, 'l, K> {
    /// The answers of a board about the terms.
    pub(crate) fn new(board: &'b ClosedBoard<'w, K>, terms: &'t Terms<'l>) -> Self
        requires { Settled (terms_of terms.now) (view board.now) }
        ensures board { result.board.now ≡ board.now }
        ensures terms { result.terms.now ≡ terms.now }
    {
        SettledBoard { board, terms }
    }

    /// The code to list for two concepts, if there is one: they are different named concepts, and the grade is not "none".
    fn listed(&self, a: u16, d: u16) -> Option<u16>
        ensures { result ≡ code_to_list (terms_of self.now.terms.now) K.kind
            (view self.now.board.now) a d }
    {
        if a == d || !self.terms.is_named(a) || !self.terms.is_named(d) {
            return None;
        }
        let code = self.board.under(self.terms, a, d).ok()?;
        (code != K::none()).then_some(code)
    }

    /// Writes the rows of the concept `a` and those below `concepts`.
    fn write_rows(&self, a: u16, concepts: u16, page: &mut Page)
        requires { page.old.filled + 19 * concepts ≤ length page.old.bytes.now }
        ensures printed { let code = code_to_list (terms_of self.now.terms.now) K.kind
            (view self.now.board.now) in
            RowsAt (rows_up_to code a concepts) page.old.filled page.new.filled (19 * concepts)
            page.old.bytes.now page.new.bytes.now }
        ensures lent { page.new.bytes.ghost_name ≡ page.old.bytes.ghost_name }
    {
        for d in 0..concepts {
            if let Some(code) = self.listed(a, d) {
                page.push(Row {
                    sub: a,
                    sup: d,
                    code,
                });
            }
        }
    }

    /// Writes the rows of all concepts to the front of the page, and says how many bytes they take.
    pub(crate) fn write_all(&self, concepts: u16, bytes: &mut [u8]) -> usize
        requires { 19 * concepts * concepts ≤ length bytes.old }
        ensures { let code = code_to_list (terms_of self.now.terms.now) K.kind
            (view self.now.board.now) in
            RowsAt (all_rows code concepts concepts) 0 result (19 * concepts * concepts)
            bytes.old bytes.new }
    {
        let mut page = Page::new(bytes);
        for a in 0..concepts {
            self.write_rows(a, concepts, &mut page);
        }
        page.filled()
    }
}
