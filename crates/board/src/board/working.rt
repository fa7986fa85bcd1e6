//! Doing a job.
ghost use Rattle.std.specs.Prelude.{◌≡◌, IfNone};
ghost use Rattle.terms.specs.Views.{terms_of};
ghost use Rattle.reasoning.specs.Derivations.{fact_of};
ghost use Rattle.saturation.specs.Boards.{On};
ghost use Rattle.board.specs.Views.{view, moment, SameList};
ghost use Rattle.board.specs.Rejections.{IsHeld, Ready};
ghost use Rattle.board.specs.JoinDraws.{ByJob};
ghost use Rattle.board.specs.Sessions.{at, SameSession, SessionDrawn};
ghost use Rattle.board.specs.Running.{WorkedOrNone};

use super::OpenBoard;
use super::joins::{Implication, Link};
use super::own::Known;
use super::session::Session;
use super::view::fact_of;
use crate::lookup::concept_at;
use grades::kind::GradeKind;
use piles::pile::Pile;
use reasoning::Job;
use terms::records::Concept;
use terms::terms::Terms;

impl<'w, 'a, 't, K: GradeKind, P: Pile> Session<'w, 'a, 't, K, P> {
    /// Draws all that a job draws, at the points of a grade.
    fn draw(&mut self, job: Job, grade: u16)
        requires { On (view self.old.board.now) (fact_of job) }
        ensures { SessionDrawn (ByJob job grade) self.old self.new }
    {
        match job {
            Job::Own(left, right) => self.draw_own(Known { left, right, grade }),
            Job::Link(left, right) => {
                if let Concept::Restriction(role, filler) = concept_at(self.terms, right) {
                    self.draw_link(Link {
                        left,
                        role,
                        filler,
                        grade,
                    });
                }
            }
            Job::Imply(role, left, right) => self.draw_implication(Implication {
                role,
                left,
                right,
                grade,
            }),
        }
    }

    /// Does the first job that waits at `c`, which is held. The job is marked done before anything is drawn: a conjunction of a
    /// concept with itself has it as both premises.
    pub(super) fn work(&mut self, c: u16) -> Option<Job>
        requires { IsHeld (view self.old.board.now) c }
        ensures same { SameSession self.old self.new }
        ensures work { WorkedOrNone (terms_of self.old.terms.now) K.kind P.shape c (at self.old)
            (at self.new) result }
        ensures unmoved { IfNone result (self.new.board.now ≡ self.old.board.now) }
    {
        let job = self.board.first(self.terms, c)?;
        let grade = self.board.found(fact_of(job));
        self.board.mark_done(job);
        self.draw(job, grade);
        self.board.count();
        Some(job)
    }
}

impl<'a, K: GradeKind> OpenBoard<'a, K> {
    /// Does the first job that waits at `c`, which is held.
    // A door into a session: see `Session`.
    pub(crate) fn work<'w, P: Pile>(
        &'w mut self,
        terms: &'w Terms,
        pile: &'w mut P,
        c: u16,
    ) -> Option<Job>
        requires ready { Ready (terms_of terms.now) P.shape (moment self.old pile.old) }
        requires held { IsHeld (view self.old) c }
        ensures list { SameList self.old self.new }
        ensures work { WorkedOrNone (terms_of terms.now) K.kind P.shape c
            (moment self.old pile.old) (moment self.new pile.new) result }
        ensures unmoved { IfNone result (self.new ≡ self.old) }
    {
        let mut session = Session {
            board: self,
            terms,
            pile,
        };
        session.work(c)
    }
}
