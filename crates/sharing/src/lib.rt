//! Workers on one board, any number of them: callers that show how the contracts of the board's calls lead, entry by entry, to a history,
//! and the theorem over histories to the meaning of the answer, which does not depend on how many workers there were; and how a call's contract
//! over any pile leads to what it makes of a ring's order, of the list under a table of marks, or of a log's record.
#![tactic(auto)]

ghost use Rattle.std.specs.Prelude.{◌≡◌, OnErr};
ghost use Rattle.terms.specs.Views.{terms_of};
ghost use Rattle.piles.specs.Lists.{RestKept};
ghost use Rattle.piles.specs.Orders.{order, ring_shape};
ghost use Rattle.piles.specs.Tables.{marks_shape};
ghost use Rattle.board.specs.Views.{view, moment, lent, LiesOver, SameList};
ghost use Rattle.board.specs.Rejections.{IsHeld, Ready};
ghost use Rattle.board.specs.Calls.{Taken, Stepped, RanBy};
ghost use Rattle.sharing.specs.Sharing.{GaveBack, TookTurns, SharedBy, TookFirst, ComesBehind};
ghost use Rattle.sharing.specs.Asking.{AskedOr};

/// Boards whose pile is a log.
pub mod logs;

use board::board::running::Ran;
use board::board::{ClosedBoard, OpenBoard};
use board::checking::check;
use board::tokens::Lease;
use grades::kind::GradeKind;
use piles::marks::Marks;
use piles::pile::Pile;
use piles::ring::Ring;
use reasoning::Job;
use rejections::Rejection;
use terms::terms::Terms;

/// Gives a lease of a held concept back, and looks at the concept once more.
fn give_back<K: GradeKind, P: Pile>(
    board: &mut OpenBoard<K>,
    terms: &Terms,
    pile: &mut P,
    lease: Lease,
)
    requires ready { Ready (terms_of terms.now) P.shape (moment board.old pile.old) }
    requires held { IsHeld (view board.old) lease.concept }
    ensures list { SameList board.old board.new }
    ensures back { GaveBack (terms_of terms.now) K.kind P.shape lease.concept
        (moment board.old pile.old) (moment board.new pile.new) }
{
    let lowered = board.lower(lease).unwrap();
    board.recheck(terms, pile, lowered).unwrap();
}

/// Lets so many workers share the board, as far as there are concepts to take: each takes one and holds it while those after it work, then does a
/// job there, if one still waits, and gives the concept back.
fn work<K: GradeKind, P: Pile>(board: &mut OpenBoard<K>, terms: &Terms, pile: &mut P, workers: u16)
    requires { Ready (terms_of terms.now) P.shape (moment board.old pile.old) }
    ensures list { SameList board.old board.new }
    ensures turns { TookTurns (terms_of terms.now) K.kind P.shape (moment board.old pile.old)
        (moment board.new pile.new) }
{
    if workers == 0 {
        return;
    }
    if let Ok(lease) = board.take(pile) {
        work(board, terms, pile, workers - 1);
        let _ = board.step(terms, pile, &lease);
        give_back(board, terms, pile, lease);
    }
}

/// Makes a board, lets so many workers share it, runs it and closes it. Whatever the number of workers: all the work is done, the pile is
/// empty again, and each grade of a named concept holds a point exactly when every finite model there says so. Where `check` rejects, the board
/// has no concepts or roles, and nothing is touched.
pub fn share<'a, K: GradeKind, P: Pile>(
    terms: &Terms,
    words: &'a mut [u16],
    pile: &mut P,
    kind: K,
    workers: u16,
) -> ClosedBoard<'a, K>
    ensures list { LiesOver words.entry result }
    ensures shared { SharedBy (terms_of terms.now) K.kind P.shape words.old pile.old
        (moment result pile.new) (lent result).now }
{
    if check(terms, words, pile, kind).is_err() {
        return OpenBoard::make(terms, words, pile, kind).close();
    }
    let mut board = OpenBoard::make(terms, words, pile, kind);
    work(&mut board, terms, pile, workers);
    let _ = board.run(terms, pile, u64::MAX);
    board.close()
}

/// A board that was shared, and what it answers.
#[derive(Drop)]
pub struct Shared<'a, K: GradeKind> {
    pub board: ClosedBoard<'a, K>,
    pub answer: Result<u16, Rejection>,
}

/// Has so many workers share a board, as `share` does, and asks it for "a under d". Whatever the number of workers, the answer is what every
/// finite model says. Where `check` rejects, so does this.
pub fn share_and_ask<'a, K: GradeKind, P: Pile>(
    terms: &Terms,
    words: &'a mut [u16],
    pile: &mut P,
    kind: K,
    workers: u16,
    a: u16,
    d: u16,
) -> Shared<'a, K>
    ensures list { LiesOver words.entry result.board }
    ensures asked { AskedOr (terms_of terms.now) K.kind P.shape a d words.old pile.old
        (moment result.board pile.new) (lent result.board).now result.answer }
{
    let checked = check(terms, words, pile, kind);
    let board = share(terms, words, pile, kind, workers);
    let answer = match checked {
        Ok(()) => board.under(terms, a, d),
        Err(rejection) => Err(rejection),
    };
    Shared { board, answer }
}

/// Takes from a board whose pile is a ring: what is leased was held longest, and the other numbers keep their order. Rejections are those of
/// `OpenBoard::take`: 12 and 13, which leave the ring as it was, and 14, after which what was held longest is behind the others.
pub fn take_first<K: GradeKind>(
    board: &mut OpenBoard<K>,
    ring: &mut Ring,
) -> Result<Lease, Rejection>
    ensures list { SameList board.old board.new }
    ensures taken { Taken ring_shape (moment board.old ring.old) (moment board.new ring.new)
        result }
    ensures order { TookFirst (order ring.old) (order ring.new) result }
    ensures rejected { OnErr result (board.new ≡ board.old) }
{
    board.take(ring)
}

/// Steps at a board whose pile is a ring: the numbers that it held stay in their order, and the concepts that the step queues come behind them.
/// Rejections are those of `OpenBoard::step`, 11, 12, 15 and 16, and leave all as it was.
pub fn step_before<K: GradeKind>(
    board: &mut OpenBoard<K>,
    terms: &Terms,
    ring: &mut Ring,
    lease: &Lease,
) -> Result<Job, Rejection>
    ensures list { SameList board.old board.new }
    ensures stepped { Stepped (terms_of terms.now) K.kind ring_shape lease.now
        (moment board.old ring.old) (moment board.new ring.new) result }
    ensures order { ComesBehind (order ring.old) (order ring.new) }
    ensures rejected { OnErr result (board.new ≡ board.old) }
{
    board.step(terms, ring, lease)
}

/// Runs a board whose pile is a table of marks, with a budget of 0 to 2^64 - 1 steps: what the table's list has beyond its first 1,024 entries
/// stays as it is. Rejections are those of `OpenBoard::run`, 11 and 12, and leave all as it was.
pub fn run_over<K: GradeKind>(
    board: &mut OpenBoard<K>,
    terms: &Terms,
    marks: &mut Marks,
    budget: u64,
) -> Result<Ran, Rejection>
    ensures list { SameList board.old board.new }
    ensures ran { RanBy (terms_of terms.now) K.kind marks_shape budget (moment board.old marks.old)
        (moment board.new marks.new) result }
    ensures rest { RestKept marks.old.list marks.new.list }
    ensures rejected { OnErr result (board.new ≡ board.old) }
{
    board.run(terms, marks, budget)
}
