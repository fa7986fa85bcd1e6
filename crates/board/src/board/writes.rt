//! Writing one grade.
ghost use Rattle.std.specs.Prelude.{◌≡◌, ◌+◌, ◌-◌, ◌^◌, min};
ghost use Rattle.reasoning.specs.Derivations.{fact_of};
ghost use Rattle.saturation.specs.Boards.{On};
ghost use Rattle.board.specs.Views.{view, SameList};
ghost use Rattle.board.specs.Moves.{Above, Wrote, Marked};

use super::OpenBoard;
use super::view::fact_of;
use grades::kind::GradeKind;
use reasoning::{Fact, Job};

impl<'a, K: GradeKind> OpenBoard<'a, K> {
    /// Makes `g`, which holds the points found before, the found grade of a fact.
    pub(crate) fn write_found(&mut self, fact: Fact, g: u16)
        requires on { On (view self.old) fact }
        requires above { Above K.kind ((view self.old).found fact) g }
        ensures list { SameList self.old self.new }
        ensures wrote { Wrote fact g (view self.old) (view self.new) }
    {
        let at = self.counts.spot(fact);
        self.words[at] = g;
    }

    /// Makes the found grade of the job's fact its done grade.
    pub(crate) fn mark_done(&mut self, job: Job)
        requires { On (view self.old) (fact_of job) }
        ensures list { SameList self.old self.new }
        ensures marked { Marked job (view self.old) (view self.new) }
    {
        let g = self.found(fact_of(job));
        let at = self.counts.mark(job);
        self.words[at] = g;
    }

    /// Counts a step.
    pub(crate) fn count(&mut self)
        ensures list { SameList self.old self.new }
        ensures counted { view self.new ≡ record (view self.old)
            { steps = min ((view self.old).steps + 1) (2 ^ 64 - 1) } }
    {
        self.steps = self.steps.saturating_add(1);
    }
}
