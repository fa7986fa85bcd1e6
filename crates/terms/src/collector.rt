//! Taking entries one after another.
ghost use Rattle.std.specs.Prelude.{◌≡◌, MatchResult};
ghost use Rattle.terms.specs.declared.entry.Entry.{Entry as Stated};
ghost use Rattle.terms.specs.declared.tally.Tally.{Tally as Counts};
ghost use Rattle.terms.specs.Counting.{verdict_of, counted};
ghost use Rattle.terms.specs.Lent.{tally_of, Added};

use crate::entry::{Blame, Entry};
use crate::tally::Tally;
use crate::terms::Terms;

/// A collector takes entries one after another: terms do, and a tally, which only counts them.
pub trait Collector {
    /// How many of each sort it has taken, and how many it may take.
    ghost counts: { Self → Counts };

    /// What one entry more makes of it.
    ghost grows: { Stated → Self → Self → Type 0 };

    /// Takes an entry, or says what is to blame, and then nothing is altered.
    fn add(&mut self, entry: Entry) -> Result<(), Blame>
        ensures result { result ≡ verdict_of (counts self.old) entry }
        ensures state { MatchResult result
            (λ _. grows entry self.old self.new
            × (counts self.new ≡ counted entry (counts self.old)))
            (λ _. self.new ≡ self.old) };
}

impl Collector for Tally {
    ghost counts = { λ t. t };

    ghost grows = { λ e t u. u ≡ counted e t };

    fn add(&mut self, entry: Entry) -> Result<(), Blame> {
        self.check(entry)?;
        match entry {
            Entry::Concept(_) => self.concepts += 1,
            Entry::Role => self.roles += 1,
            Entry::Inclusion(_) => self.inclusions += 1,
            Entry::Order(_, _) | Entry::Transitive(_) => {}
        }
        Ok(())
    }
}

impl<'a> Collector for Terms<'a> {
    ghost counts = { tally_of };

    ghost grows = { Added };

    fn add(&mut self, entry: Entry) -> Result<(), Blame> {
        self.tally().check(entry)?;
        self.put(entry);
        Ok(())
    }
}
