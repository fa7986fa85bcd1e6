//! Boards whose pile is a log: what calls note there, and the theorem over all lists of calls for such boards.
ghost use Rattle.std.specs.Prelude.{◌≡◌, OnErr};
ghost use Rattle.terms.specs.Views.{terms_of};
ghost use Rattle.piles.specs.Records.{blank};
ghost use Rattle.piles.specs.Logs.{pile_of, record_of, logged};
ghost use Rattle.saturation.specs.AnyOrder.{AnyOrder};
ghost use Rattle.board.specs.Views.{moment, lent, LiesOver, SameList};
ghost use Rattle.board.specs.Calls.{Taken, RanBy};
ghost use Rattle.sharing.specs.Sharing.{SharedBy};
ghost use Rattle.sharing.specs.Noting.{TakeNoted, RunNoted, BothNoted};

use crate::share;
use board::board::running::Ran;
use board::board::{ClosedBoard, OpenBoard};
use board::tokens::Lease;
use grades::kind::GradeKind;
use piles::log::Log;
use piles::pile::Pile;
use rejections::Rejection;
use saturation::any_order_gives_one_answer;
use terms::terms::Terms;

/// The theorem over all lists of calls, for boards whose pile is a log and for boards whose pile is a log over a log.
pub fn any_order_over_logs<P: Pile, Q: Pile>()
    ensures logs { AnyOrder (logged P.shape) (logged (logged Q.shape)) }
    ensures logs_over_logs { AnyOrder (logged (logged Q.shape)) (logged P.shape) }
{
    any_order_gives_one_answer::<Log<P>, Log<Log<Q>>>();
    any_order_gives_one_answer::<Log<Log<Q>>, Log<P>>();
}

/// Takes from a board whose pile is a log: what is leased is noted, and what is put back (14) is noted too. Rejections are those of
/// `OpenBoard::take`; 12 and 13 leave the record as it was.
pub fn take_noted<K: GradeKind, P: Pile>(
    board: &mut OpenBoard<K>,
    log: &mut Log<P>,
) -> Result<Lease, Rejection>
    ensures list { SameList board.old board.new }
    ensures taken { Taken (logged P.shape) (moment board.old log.old) (moment board.new log.new)
        result }
    ensures noted { TakeNoted (P.shape.front (pile_of log.old)) (record_of log.old)
        (record_of log.new) result }
    ensures rejected { OnErr result (board.new ≡ board.old) }
{
    board.take(log)
}

/// Runs a board whose pile is a log, with a budget of 0 to 2^64 - 1 steps. The log notes, in order, the numbers that the takes inside the run drew, and
/// last, where it ends as left by a number that is not queued, that number. It is a run over the pile below, too. Rejections are those of
/// `OpenBoard::run`, 11 and 12, and leave all as it was.
pub fn run_noted<K: GradeKind, P: Pile>(
    board: &mut OpenBoard<K>,
    terms: &Terms,
    log: &mut Log<P>,
    budget: u64,
) -> Result<Ran, Rejection>
    ensures list { SameList board.old board.new }
    ensures noted { RunNoted (terms_of terms.now) K.kind (logged P.shape) budget
        (moment board.old log.old) (moment board.new log.new) (record_of log.old)
        (record_of log.new) result }
    ensures below { RanBy (terms_of terms.now) K.kind P.shape budget
        (moment board.old (pile_of log.old)) (moment board.new (pile_of log.new)) result }
    ensures rejected { OnErr result (board.new ≡ board.old) }
{
    board.run(terms, log, budget)
}

/// A run over a pile that was lent, and the log over that pile.
#[derive(Drop)]
pub struct Watched<'p, P> {
    pub log: Log<&'p mut P>,
    pub ran: Result<Ran, Rejection>,
}

/// Makes a log over a pile that is lent, and runs over it with a budget of 0 to 2^64 - 1 steps: a log over a borrowed pile works as one over the pile.
/// Rejections are those of `OpenBoard::run`, 11 and 12; the log has then nothing noted, and the board and the pile are as they were.
pub fn run_watched<'p, K: GradeKind, P: Pile>(
    board: &mut OpenBoard<K>,
    terms: &Terms,
    pile: &'p mut P,
    budget: u64,
) -> Watched<'p, P>
    ensures list { SameList board.old board.new }
    ensures lent { (pile_of result.log).ghost_name ≡ pile.entry.ghost_name }
    ensures noted { RunNoted (terms_of terms.now) K.kind P.shape budget (moment board.old pile.old)
        (moment board.new (pile_of result.log).now) blank (record_of result.log) result.ran }
    ensures rejected { OnErr result.ran (board.new ≡ board.old) }
{
    let mut log = Log::new(pile);
    let ran = board.run(terms, &mut log, budget);
    Watched { log, ran }
}

/// Has so many workers share a board, as `share` does, whose pile is a log over a log. All that `share` promises holds, and the same draws are
/// added to both records.
pub fn share_noted<'a, K: GradeKind, P: Pile>(
    terms: &Terms,
    words: &'a mut [u16],
    log: &mut Log<Log<P>>,
    kind: K,
    workers: u16,
) -> ClosedBoard<'a, K>
    ensures list { LiesOver words.entry result }
    ensures shared { SharedBy (terms_of terms.now) K.kind (logged (logged P.shape)) words.old
        log.old (moment result log.new) (lent result).now }
    ensures noted { BothNoted P.shape log.old log.new }
{
    share(terms, words, log, kind, workers)
}
