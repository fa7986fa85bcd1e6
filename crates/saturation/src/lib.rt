//! Saturation by shared work: what a board says, what each call does to it, and what holds after any list of calls. A board is the
//! shared state of one saturation. The functions here do nothing; each carries a theorem in its contract.
#![tactic(auto)]

ghost use Rattle.piles.specs.Shapes.{any_pile};
ghost use Rattle.saturation.specs.Answers.{QuietAnswersTrue};
ghost use Rattle.saturation.specs.AnyOrder.{AnyOrder, CallsSeen, FreshRunFinishes, HistoriesSeen, QueuedWaits, RunsFinish, RunsLead};

use piles::pile::Pile;

/// How a concept stands on a board.
#[derive(Clone, Copy, PartialEq, Eq, Debug)]
pub enum State {
    /// Nobody works at it, and it is not in line.
    Idle,
    /// Its number is in the pile.
    Queued,
    /// A worker has a lease of it.
    Held,
}

/// How a run ended.
#[derive(Clone, Copy, PartialEq, Eq, Debug)]
pub enum Outcome {
    /// No job waits.
    Finished,
    /// The budget is used, and a job waits.
    Spent,
    /// A job waits, and there is nothing to take.
    Left,
}

/// Whatever the pile, the number of workers and the order of calls: leases add up, no waiting job is out of sight, a quiet board says what
/// every finite model says, its steps are bounded by the derivable pairs of job and point, and any two quiet boards, even over different
/// piles, found the same grades. That holds too where no more is known of a pile than every pile shows.
pub fn any_order_gives_one_answer<P: Pile, Q: Pile>()
    ensures piles { AnyOrder P.shape Q.shape }
    ensures seen { AnyOrder any_pile any_pile }
{}

/// Every list of calls over a pile is one over what is seen of the pile, of which questions speak, since they name no pile; and so is each
/// part of it, and a run. So calls over one pile and then over another that holds the same numbers are one list over what is seen of both.
pub fn histories_are_seen<P: Pile>()
    ensures histories { HistoriesSeen P.shape }
    ensures calls { CallsSeen P.shape }
{}

/// Whatever was called, in whatever order: under, mates and parents on a board on which no job waits are those of all finite models. That
/// holds too where no more is known of a pile than every pile shows.
pub fn quiet_answers_are_true<P: Pile>()
    ensures piles { QuietAnswersTrue P.shape }
    ensures seen { QuietAnswersTrue any_pile }
{}

/// A run is a chain of the effects of the takes, steps, lowerings and rechecks inside it. That holds too where no more is known of a pile
/// than every pile shows.
pub fn runs_are_chains_of_effects<P: Pile>()
    ensures piles { RunsLead P.shape }
    ensures seen { RunsLead any_pile }
{}

/// A fresh board and one run with a budget of at least the possible pairs of job and point end as finished. That holds too where no more is
/// known of a pile than every pile shows.
pub fn fresh_runs_finish<P: Pile>()
    ensures piles { FreshRunFinishes P.shape }
    ensures seen { FreshRunFinishes any_pile }
{}

/// After any list of calls, no queued concept is quiet. That holds too where no more is known of a pile than every pile shows.
pub fn queued_concepts_have_work<P: Pile>()
    ensures piles { QueuedWaits P.shape }
    ensures seen { QueuedWaits any_pile }
{}

/// A fresh board is at rest, and whatever led to a board at rest, one run with a budget of at least the possible pairs of job and point ends
/// as finished, with every concept idle and nothing in the pile. That holds too where no more is known of a pile than every pile shows.
pub fn runs_finish<P: Pile>()
    ensures piles { RunsFinish P.shape }
    ensures seen { RunsFinish any_pile }
{}
