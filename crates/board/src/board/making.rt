//! Making a board.
ghost use Rattle.std.specs.Prelude.{◌<◌, ◌≤◌, length};
ghost use Rattle.terms.specs.Views.{terms_of};
ghost use Rattle.saturation.specs.Boards.{Wide};
ghost use Rattle.board.specs.Layout.{needed_for};
ghost use Rattle.board.specs.Views.{view, moment, lent, LiesOver, SameList};
ghost use Rattle.board.specs.Making.{FilledWords, Blank, Started};
ghost use Rattle.board.specs.Calls.{MadeBy};

use super::OpenBoard;
use super::states::Change;
use crate::checking::check;
use crate::counts::Counts;
use grades::kind::GradeKind;
use piles::pile::Pile;
use reasoning::Fact;
use std::marker::PhantomData;
use terms::terms::Terms;

/// Writes `g` to the words from `low` up to `high`.
// A function of its own, since `FilledWords` says once, for both uses, what the slice's `fill` leaves.
fn fill(words: &mut [u16], low: usize, high: usize, g: u16)
    requires { (low ≤ high) × (high ≤ length words.old) }
    ensures { FilledWords low high g words.old words.new }
{
    words[low..high].fill(g);
}

impl<'a, K: GradeKind> OpenBoard<'a, K> {
    /// A board on which nothing is found.
    fn blank(terms: &Terms, words: &'a mut [u16], _kind: K) -> Self
        requires { needed_for (terms_of terms.now) ≤ length words.old }
        ensures list { LiesOver words.entry result }
        ensures blank { Blank (terms_of terms.now) K.kind (view result) }
    {
        let counts = Counts::of(terms);
        fill(words, 0, counts.concepts, 0);
        fill(words, counts.concepts, counts.words(), K::none());
        OpenBoard {
            words,
            counts,
            steps: 0,
            kind: PhantomData,
            stage: PhantomData,
        }
    }

    /// Finds the start fact of `a`, where that is named, and queues it.
    fn start<P: Pile>(&mut self, terms: &Terms, pile: &mut P, a: u16)
        requires wide { Wide P.shape (moment self.old pile.old) }
        requires within { a < (view self.old).concepts }
        ensures list { SameList self.old self.new }
        ensures started { Started (terms_of terms.now) K.kind P.shape a (moment self.old pile.old)
            (moment self.new pile.new) }
    {
        if terms.is_named(a) {
            self.write_found(Fact::Under(a, a), K::all());
            self.queue(pile, a, Change::Raise);
        }
    }

    /// An open board without steps, for the terms, over the words and the pile. Where `check` rejects, it has no concepts or roles, and
    /// nothing is touched.
    pub fn make<P: Pile>(terms: &Terms, words: &'a mut [u16], pile: &mut P, kind: K) -> Self
        ensures list { LiesOver words.entry result }
        ensures made { MadeBy (terms_of terms.now) K.kind P.shape words.old pile.old
            (moment result pile.new) (lent result).now }
    {
        if let Err(_) = check(terms, words, pile, kind) {
            return OpenBoard {
                words,
                counts: Counts {
                    concepts: 0,
                    roles: 0,
                },
                steps: 0,
                kind: PhantomData,
                stage: PhantomData,
            };
        }
        let mut board = OpenBoard::blank(terms, words, kind);
        for a in 0..terms.concepts().len() {
            board.start(terms, pile, a as u16);
        }
        board
    }
}
