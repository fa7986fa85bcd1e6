//! What the two joining rules draw: they have a link job and an implication job as premises, of one concept.
ghost use Rattle.std.specs.Prelude.{◌≡◌, ◌<◌};
ghost use Rattle.terms.specs.Views.{terms_of};
ghost use Rattle.board.specs.Views.{view};
ghost use Rattle.board.specs.Sessions.{SessionDrawn};
ghost use Rattle.board.specs.OwnDraws.{AnyBelow};
ghost use Rattle.board.specs.JoinDraws.{series_of, partner, conclusion, Placed, Heads, ByPartner, ByPartners, BySpreads, ByJoin, ByLink, ByLinksAt, ByImplication};

use super::finding::Series;
use super::session::Session;
use crate::lookup::concept_at;
use grades::kind::GradeKind;
use piles::pile::Pile;
use reasoning::{Fact, Job};
use terms::records::Concept;

/// The jobs that can be the other premise, where one premise is given. Each goes by the number of a concept.
// An enum and no closure, since the contracts name it; that its numbers are `Placed` stays a clause, since it has no terms to name.
#[derive(Clone, Copy)]
pub(crate) enum Partners {
    /// Given a link from `left`: the implications by `role` at `filler`, by their right concepts.
    Implications { left: u16, role: u16, filler: u16 },
    /// Given an implication of `right`: the links by the restriction `by`, by their left concepts.
    Links { by: u16, right: u16 },
}

/// Which of the two joining rules is used, follows or spreads.
// An enum and no closure, since the contracts name it.
#[derive(Clone, Copy)]
pub(crate) enum Head {
    /// The left concept is under the right one.
    Follows,
    /// The left concept implies the right one through a transitive role.
    Spreads(u16),
}

/// The roles of a link and of an implication, and the grade of the premise that is given.
#[derive(Clone, Copy)]
pub(crate) struct Join {
    pub(crate) link: u16,
    pub(crate) implication: u16,
    pub(crate) grade: u16,
}

/// What a link job brings: `left` is under a restriction of `role` to `filler`, at the points of a grade.
#[derive(Clone, Copy)]
pub(crate) struct Link {
    pub(crate) left: u16,
    pub(crate) role: u16,
    pub(crate) filler: u16,
    pub(crate) grade: u16,
}

/// What an implication job brings: `left` implies `right` through `role`, at the points of a grade.
#[derive(Clone, Copy)]
pub(crate) struct Implication {
    pub(crate) role: u16,
    pub(crate) left: u16,
    pub(crate) right: u16,
    pub(crate) grade: u16,
}

impl Partners {
    /// The series that they are on.
    fn series(self) -> Series
        ensures { result ≡ series_of self }
    {
        match self {
            Partners::Implications {
                left: _,
                role,
                filler,
            } => Series::Implications(role, filler),
            Partners::Links { by, right: _ } => Series::Links(by),
        }
    }

    /// The partner with the number `i`.
    fn job(self, i: u16) -> Job
        ensures { result ≡ partner self i }
    {
        self.series().job(i)
    }

    /// What it leads to.
    fn fact(self, head: Head, i: u16) -> Fact
        ensures { result ≡ conclusion self head i }
    {
        match (self, head) {
            (
                Partners::Implications {
                    left,
                    role: _,
                    filler: _,
                },
                Head::Follows,
            ) => Fact::Under(left, i),
            (
                Partners::Implications {
                    left,
                    role: _,
                    filler: _,
                },
                Head::Spreads(t),
            ) => Fact::Implies(t, left, i),
            (Partners::Links { by: _, right }, Head::Follows) => Fact::Under(i, right),
            (Partners::Links { by: _, right }, Head::Spreads(t)) => Fact::Implies(t, i, right),
        }
    }
}

impl<'w, 'a, 't, K: GradeKind, P: Pile> Session<'w, 'a, 't, K, P> {
    /// Draws by the partner with the number `i`.
    fn draw_partner(&mut self, partners: Partners, head: Head, grade: u16, i: u16)
        requires placed { Placed (terms_of self.old.terms.now) partners }
        requires heads { Heads (terms_of self.old.terms.now) head }
        requires number { i < (view self.old.board.now).concepts }
        ensures { SessionDrawn (ByPartner partners head grade i) self.old self.new }
    {
        let met = K::meet(grade, self.board.done(partners.job(i)));
        if met != K::none() {
            self.raise(partners.fact(head, i), met);
        }
    }

    /// Draws by every partner.
    fn draw_partners(&mut self, partners: Partners, head: Head, grade: u16)
        requires placed { Placed (terms_of self.old.terms.now) partners }
        requires heads { Heads (terms_of self.old.terms.now) head }
        ensures { SessionDrawn (ByPartners partners head grade) self.old self.new }
    {
        // By number, as the concepts of `draw_concepts`.
        for i in 0..self.terms.concepts().len() {
            self.draw_partner(partners, head, grade, i as u16);
        }
    }

    /// Draws through the transitive roles between the two: the rule spreads.
    fn draw_spreads(&mut self, partners: Partners, join: Join)
        requires { Placed (terms_of self.old.terms.now) partners }
        ensures { SessionDrawn (AnyBelow (λ v. v.roles) (BySpreads partners join)) self.old
            self.new }
    {
        let terms = self.terms;
        // By `as`: with `usize::from` the goals speak of the conversion's answer, and the answers to them fail.
        for t in 0..terms.roles() {
            if terms.is_below(join.link as usize, t)
                && terms.is_below(t, join.implication as usize)
                && terms.is_transitive(t)
            {
                self.draw_partners(partners, Head::Spreads(t as u16), join.grade);
            }
        }
    }

    /// Draws all that the joining rules draw with the given premise and its partners. Unless the link's role lies below the
    /// implication's, there is nothing.
    fn draw_join(&mut self, partners: Partners, join: Join)
        requires { Placed (terms_of self.old.terms.now) partners }
        ensures { SessionDrawn (ByJoin partners join) self.old self.new }
    {
        if self
            .terms
            .is_below(join.link as usize, join.implication as usize)
        {
            self.draw_partners(partners, Head::Follows, join.grade);
            self.draw_spreads(partners, join);
        }
    }

    /// Draws all that a link job draws.
    pub(super) fn draw_link(&mut self, link: Link)
        requires left { link.left < (view self.old.board.now).concepts }
        requires filler { link.filler < (view self.old.board.now).concepts }
        ensures { SessionDrawn (ByLink link) self.old self.new }
    {
        for s in 0..self.terms.roles() {
            let role = s as u16;
            let partners = Partners::Implications {
                left: link.left,
                role,
                filler: link.filler,
            };
            self.draw_join(
                partners,
                Join {
                    link: link.role,
                    implication: role,
                    grade: link.grade,
                },
            );
        }
    }

    /// Draws what an implication job draws with the links by the concept `x`, where that restricts a role to the job's left concept.
    fn draw_links(&mut self, implication: Implication, x: u16)
        requires right { implication.right < (view self.old.board.now).concepts }
        requires by { x < (view self.old.board.now).concepts }
        ensures { SessionDrawn (ByLinksAt implication x) self.old self.new }
    {
        if let Concept::Restriction(r, b) = concept_at(self.terms, x) {
            if b == implication.left {
                let partners = Partners::Links {
                    by: x,
                    right: implication.right,
                };
                self.draw_join(
                    partners,
                    Join {
                        link: r,
                        implication: implication.role,
                        grade: implication.grade,
                    },
                );
            }
        }
    }

    /// Draws all that an implication job draws.
    pub(super) fn draw_implication(&mut self, implication: Implication)
        requires { implication.right < (view self.old.board.now).concepts }
        ensures { SessionDrawn (ByImplication implication) self.old self.new }
    {
        // By number, as the concepts of `draw_concepts`.
        for x in 0..self.terms.concepts().len() {
            self.draw_links(implication, x as u16);
        }
    }
}
