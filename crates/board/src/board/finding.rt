//! Finding the first job that waits at a concept.
ghost use Rattle.std.specs.Prelude.{◌≡◌, ℕ, ◌+◌, ◌<◌, ◌≤◌, length, IsTrue, MatchBool, MatchOption};
ghost use Rattle.terms.specs.Views.{terms_of};
ghost use Rattle.reasoning.specs.declared.Job.TheVariants.{Imply as imply};
ghost use Rattle.reasoning.specs.Derivations.{Fits, fact_of};
ghost use Rattle.saturation.specs.Boards.{GoesWith, Rests, Waits, FirstOrNone, Quiet};
ghost use Rattle.board.specs.Layout.{words_needed};
ghost use Rattle.board.specs.Words.{view_of};
ghost use Rattle.board.specs.Views.{view};
ghost use Rattle.board.specs.Searches.{job_of, InRange, NoneBelow, FirstBelow, BestLink, NoImplications, FirstImplication, QuietWhere};

use super::Board;
use super::view::fact_of;
use crate::counts::Counts;
use crate::lookup::concept_at;
use grades::kind::GradeKind;
use reasoning::Job;
use terms::records::Concept;
use terms::terms::Terms;

/// A link job, by its concepts.
#[derive(Clone, Copy)]
struct LinkJob {
    left: u16,
    right: u16,
}

/// Jobs that go by the numbers of concepts.
// An enum and no closure, since the contracts name it.
#[derive(Clone, Copy)]
pub(crate) enum Series {
    /// The own jobs of a concept, by their right concepts.
    Owns(u16),
    /// The link jobs by a concept, by their left concepts.
    Links(u16),
    /// The implication jobs by a role (first) of a concept (second), by their right concepts.
    Implications(u16, u16),
}

impl Series {
    /// The job with the number `i`.
    pub(crate) fn job(self, i: u16) -> Job
        ensures { result ≡ job_of self i }
    {
        match self {
            Series::Owns(c) => Job::Own(c, i),
            Series::Links(x) => Job::Link(i, x),
            Series::Implications(s, c) => Job::Imply(s, c, i),
        }
    }
}

/// Whether the job of a series with the number `i` waits on a board of these counts over these words.
// Of a board's words and counts, so that a search reads them once, and not at each job.
fn waits(words: &[u16], counts: Counts, series: Series, i: u16) -> bool
    requires fits { words_needed counts.concepts counts.roles ≤ length words.now }
    requires on { Fits counts.concepts counts.roles (fact_of (job_of series i)) }
    ensures { let b = view_of words.now counts.concepts counts.roles 0 in
        MatchBool result (Waits b (job_of series i)) (Rests b (job_of series i)) }
{
    let job = series.job(i);
    words[counts.mark(job)] != words[counts.spot(fact_of(job))]
}

/// True only where the done grades of a series are a row that is the row of its found grades; then none of its jobs waits.
// Rows of a dozen words and more are compared in a fraction of the time that a test at each job takes. Link jobs lie apart.
fn row_rests(words: &[u16], counts: Counts, series: Series) -> bool
    requires fits { words_needed counts.concepts counts.roles ≤ length words.now }
    requires range { InRange (view_of words.now counts.concepts counts.roles 0) series }
    ensures { IsTrue result →
        NoneBelow (view_of words.now counts.concepts counts.roles 0) series counts.concepts }
{
    if counts.concepts == 0 || matches!(series, Series::Links(_)) {
        return false;
    }
    let (first, last) = (series.job(0), series.job((counts.concepts - 1) as u16));
    let done = &words[counts.mark(first)..counts.mark(last) + 1];
    let found = &words[counts.spot(fact_of(first))..counts.spot(fact_of(last)) + 1];
    done == found
}

impl<'a, K: GradeKind, S> Board<'a, K, S> {
    /// The number of the first job of a series that waits, of those below `end`.
    fn first_in(&self, series: Series, end: u16) -> Option<u16>
        requires range { InRange (view self.now) series }
        requires end { end ≤ (view self.now).concepts }
        ensures { MatchOption result (NoneBelow (view self.now) series end)
            (FirstBelow (view self.now) series end) }
    {
        let (words, counts) = (&*self.words, self.counts);
        (0..end).find(|i| waits(words, counts, series, *i))
    }

    /// The first job of a series that waits.
    fn first_on(&self, series: Series) -> Option<Job>
        requires { InRange (view self.now) series }
        ensures { let b = view self.now in
            MatchOption result (NoneBelow b series b.concepts)
            (λ j. (i : ℕ) × (j ≡ job_of series i) × FirstBelow b series b.concepts i) }
    {
        if row_rests(&*self.words, self.counts, series) {
            return None;
        }
        self.first_in(series, self.counts.concepts as u16)
            .map(|i| series.job(i))
    }

    /// The first link job that waits at `c`, where `best` is the first of those by concepts below `x`, and those by `x` come in too.
    fn better_link(&self, terms: &Terms, c: u16, x: u16, best: Option<LinkJob>) -> Option<LinkJob>
        requires goes { GoesWith (terms_of terms.now) (view self.now) }
        requires by { x < (view self.now).concepts }
        requires best { BestLink (terms_of terms.now) (view self.now) c x best }
        ensures { BestLink (terms_of terms.now) (view self.now) c (x + 1) result }
    {
        let Concept::Restriction(_, b) = concept_at(terms, x) else {
            return best;
        };
        if b != c {
            return best;
        }
        let end = best.map_or(self.counts.concepts as u16, |link| link.left);
        self.first_in(Series::Links(x), end)
            .map(|left| LinkJob { left, right: x })
            .or(best)
    }

    /// The first link job that waits at `c`.
    fn first_link(&self, terms: &Terms, c: u16) -> Option<LinkJob>
        requires { GoesWith (terms_of terms.now) (view self.now) }
        ensures { BestLink (terms_of terms.now) (view self.now) c (view self.now).concepts result }
    {
        // A `fold` is no plainer: it hands on the same best, and owes at each call what the invariant says once.
        let mut best = None;
        for x in 0..self.counts.concepts as u16 {
            best = self.better_link(terms, c, x, best);
        }
        best
    }

    /// The first implication job that waits at `c`.
    fn first_implication(&self, c: u16) -> Option<Job>
        requires { c < (view self.now).concepts }
        ensures { let b = view self.now in
            MatchOption result (NoImplications b c b.roles)
            (λ j. (s : ℕ) × (e : ℕ) × (j ≡ imply s c e) × FirstImplication b c s e) }
    {
        (0..self.counts.roles as u16).find_map(|s| self.first_on(Series::Implications(s, c)))
    }

    /// The first job that waits at `c`, on a board that goes with the terms: own jobs come first, then link jobs, then implication jobs.
    // That `c` is one of the board's concepts stays a clause: a type for such a number would have to name the board.
    pub(crate) fn first(&self, terms: &Terms, c: u16) -> Option<Job>
        requires goes { GoesWith (terms_of terms.now) (view self.now) }
        requires within { c < (view self.now).concepts }
        ensures { FirstOrNone (terms_of terms.now) (view self.now) c result }
    {
        if let Some(job) = self.first_on(Series::Owns(c)) {
            return Some(job);
        }
        if let Some(link) = self.first_link(terms, c) {
            return Some(Job::Link(link.left, link.right));
        }
        self.first_implication(c)
    }

    /// Whether a job waits at a concept that is idle, or at one that is not, as asked.
    fn any_waits_where(&self, terms: &Terms, idle: bool) -> bool
        requires { GoesWith (terms_of terms.now) (view self.now) }
        ensures { let b = view self.now in
            MatchBool result (¬ Quiet (terms_of terms.now) b)
            (QuietWhere (terms_of terms.now) b idle b.concepts) }
    {
        (0..self.counts.concepts as u16).any(
            |c|
                requires { GoesWith (terms_of terms.now) (view self.now) ×
                    (c < (view self.now).concepts) }
            { self.is_idle(c) == idle && self.first(terms, c).is_some() },
        )
    }

    /// Whether a job waits anywhere, on a board that goes with the terms. Concepts that are not idle come first, since jobs wait mostly there.
    pub(crate) fn any_waits(&self, terms: &Terms) -> bool
        requires { GoesWith (terms_of terms.now) (view self.now) }
        ensures { MatchBool result (¬ Quiet (terms_of terms.now) (view self.now))
            (Quiet (terms_of terms.now) (view self.now)) }
    {
        self.any_waits_where(terms, false) || self.any_waits_where(terms, true)
    }
}
