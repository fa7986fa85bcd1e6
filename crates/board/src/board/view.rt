//! What a board says, read at either stage.
ghost use Rattle.std.specs.Prelude.{◌≡◌, ◌<◌, MatchBool};
ghost use Rattle.terms.specs.Views.{terms_of};
ghost use Rattle.reasoning.specs.Derivations.{fact_of};
ghost use Rattle.saturation.specs.Boards.{GoesWith, On};
ghost use Rattle.board.specs.Words.{is_idle};
ghost use Rattle.board.specs.Views.{view};

use super::Board;
use grades::kind::GradeKind;
use reasoning::{Fact, Job};
use saturation::State;
use terms::terms::Terms;

/// The fact of a job.
pub(crate) fn fact_of(job: Job) -> Fact
    ensures { result ≡ fact_of job }
{
    match job {
        Job::Own(c, d) | Job::Link(c, d) => Fact::Under(c, d),
        Job::Imply(s, c, e) => Fact::Implies(s, c, e),
    }
}

impl<'a, K: GradeKind, S> Board<'a, K, S> {
    /// How many steps were done since the board was made, up to the greatest number of 64 bits.
    pub fn steps(&self) -> u64
        ensures { result ≡ (view self.now).steps }
    {
        self.steps
    }

    /// The found grade of a fact.
    pub(crate) fn found(&self, fact: Fact) -> u16
        requires { On (view self.now) fact }
        ensures { result ≡ (view self.now).found fact }
    {
        self.words[self.counts.spot(fact)]
    }

    /// The done grade of a job.
    pub(crate) fn done(&self, job: Job) -> u16
        requires { On (view self.now) (fact_of job) }
        ensures { result ≡ (view self.now).done job }
    {
        self.words[self.counts.mark(job)]
    }

    /// The state of a concept.
    pub(crate) fn state(&self, c: u16) -> State
        requires { c < (view self.now).concepts }
        ensures { result ≡ (view self.now).state c }
    {
        match self.words[c as usize] {
            0 => State::Idle,
            1 => State::Queued,
            _ => State::Held,
        }
    }

    /// Whether a concept is idle.
    pub(crate) fn is_idle(&self, c: u16) -> bool
        requires { c < (view self.now).concepts }
        ensures { result ≡ is_idle ((view self.now).state c) }
    {
        self.state(c) == State::Idle
    }

    /// Whether the board has the terms' concepts and roles.
    pub(crate) fn goes_with(&self, terms: &Terms) -> bool
        ensures { MatchBool result (GoesWith (terms_of terms.now) (view self.now))
            (¬ GoesWith (terms_of terms.now) (view self.now)) }
    {
        self.counts.concepts == terms.concepts().len() && self.counts.roles == terms.roles()
    }
}
