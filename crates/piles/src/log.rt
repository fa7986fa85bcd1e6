//! A log over a pile: the pile, and a record of what was drawn from it last.
ghost use Rattle.std.specs.Prelude.{◌≡◌, ◌≤◌, None, slice_get};
ghost use Rattle.piles.specs.Records.{blank};
ghost use Rattle.piles.specs.Logs.{pile_of, record_of, logged};

mod record;

use crate::pile::Pile;
use record::Record;
use rejections::Rejection;

/// A pile, and what was drawn from it last. It does all that the pile below does, and notes each number drawn.
#[derive(Drop)]
pub struct Log<P> {
    pile: P,
    kept: Record,
}

impl<P> Log<P> {
    /// A log over the pile that has nothing noted yet, whatever the pile holds.
    pub fn new(pile: P) -> Log<P>
        ensures pile { pile_of result ≡ pile }
        ensures blank { record_of result ≡ blank }
    {
        Log {
            pile,
            kept: Record::blank(),
        }
    }

    /// The number kept `i` places before the latest (0: the latest), or `None` where none is kept there: from 64 on, always.
    pub fn drawn(&self, i: usize) -> Option<u16>
        ensures kept { result ≡ slice_get (record_of self.now).latest i }
        ensures beyond { 64 ≤ i → result ≡ None }
    {
        self.kept.drawn(i)
    }

    /// How many draws answered a number since the making of the log, up to 2^64 - 1, where the count stays.
    pub fn draws(&self) -> u64
        ensures { result ≡ (record_of self.now).draws }
    {
        self.kept.draws()
    }

    /// The pile below.
    pub fn pile(&self) -> &P
        ensures { result.now ≡ pile_of self.now }
    {
        &self.pile
    }

    /// The pile below, had back. The record is gone.
    pub fn into_pile(self) -> P
        ensures { result ≡ pile_of self }
    {
        self.pile
    }
}

impl<P: Pile> Pile for Log<P> {
    ghost shape = { logged P.Pile.shape };

    fn size(&self) -> usize {
        self.pile.size()
    }

    fn count(&self) -> usize {
        self.pile.count()
    }

    fn holds(&self, x: u16) -> bool {
        self.pile.holds(x)
    }

    fn put(&mut self, x: u16) -> Result<(), Rejection> {
        self.pile.put(x)
    }

    fn draw(&mut self) -> Option<u16> {
        let x = self.pile.draw()?;
        self.kept.note(x);
        Some(x)
    }
}
