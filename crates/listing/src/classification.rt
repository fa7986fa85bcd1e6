//! From a text to the listing of its classification, in memory of a fixed size.
ghost use Rattle.std.specs.Prelude.{◌≤◌, length, IfOk};
ghost use Rattle.terms.specs.Views.{terms_of};
ghost use Rattle.saturation.specs.Histories.{Led};
ghost use Rattle.board.specs.Views.{view};
ghost use Rattle.board.specs.Rejections.{InOrder};
ghost use Rattle.board.specs.Questions.{Settled};
ghost use Rattle.listing.specs.Stories.{ListedOr, Told};

use crate::rows::SettledBoard;
use crate::trouble::Trouble;
use board::board::{ClosedBoard, OpenBoard};
use board::checking::check;
use grades::kind::GradeKind;
use grades::releases::Releases;
use piles::pile::Pile;
use piles::ring::Ring;
use rejections::Rejection;
use sheet::fault::{Fault, Layer};
use sheet::read;
use terms::records::{Concept, Inclusion};
use terms::terms::Terms;

/// How many bytes a page has: room for a row of each two of 40 concepts.
pub const PAGE: usize = 30400;

/// Makes a board and runs it until no job waits.
fn classify<'a, K: GradeKind, P: Pile>(
    terms: &Terms,
    words: &'a mut [u16],
    pile: &mut P,
    kind: K,
) -> ClosedBoard<'a, K>
    requires { InOrder (terms_of terms.now) K.kind (length words.old) (P.shape.numbers pile.old) }
    ensures settled { Settled (terms_of terms.now) (view result) }
    ensures led { Led (terms_of terms.now) K.kind (view result) }
{
    let mut board = OpenBoard::make(terms, words, pile, kind);
    let _ = board.run(terms, pile, u64::MAX);
    board.close()
}

/// Lists the classification of terms of at most 40 concepts.
fn list_terms<K: GradeKind>(terms: &Terms, page: &mut [u8], kind: K) -> Result<usize, Rejection>
    requires few { length (terms_of terms.now).concepts ≤ 40 }
    requires room { 30400 ≤ length page.old }
    ensures listed { ListedOr (terms_of terms.now) K.kind page.old page.new result }
    ensures fits { IfOk result (λ size. size ≤ 30400) }
{
    let mut slots = [0; 40];
    let mut ring = Ring::new(&mut slots);
    let mut words = [0; 17640];
    check(terms, &words, &ring, kind)?;
    let board = classify(terms, &mut words, &mut ring, kind);
    let settled = SettledBoard::new(&board, terms);
    Ok(settled.write_all(terms.concepts().len() as u16, page))
}

/// Reads a text and writes the listing of its classification to the front of the page, and says how many bytes it takes.
pub fn list(text: &[u8], page: &mut [u8; PAGE]) -> Result<usize, Trouble>
    ensures told { Told text.now page.old page.new result }
    ensures fits { IfOk result (λ size. size ≤ 30400) }
{
    if text.len() > 4000 {
        return Err(Trouble::Reading(Fault {
            layer: Layer::Sheet,
            rejection: Rejection::BeyondLimit,
            line: 201,
            column: 1,
        }));
    }
    let mut concepts = [Concept::Atomic; 40];
    let mut inclusions = [Inclusion::default(); 200];
    let mut terms = Terms::empty(&mut concepts, &mut inclusions);
    read(text, &mut terms)?;
    Ok(list_terms(&terms, page, Releases)?)
}
