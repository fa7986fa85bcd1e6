//! What a log keeps: the numbers drawn last, and how many draws there were.
ghost use Rattle.std.specs.Prelude.{◌≡◌, ◌≤◌, None, slice_get};
ghost use Rattle.piles.specs.Records.{blank, noted};

use std::marker::Model;

/// How many numbers are kept.
const MOST: usize = 64;

/// The latest numbers drawn, at most 64 of them, and the count of draws.
// The table turns: the latest number stands at `first`, and the one before it one place further on, past the end at the start again. `first` is a
// field of its own, since the count of draws ends at its greatest value.
#[derive(Drop)]
pub(crate) struct Record {
    table: [u16; MOST],
    first: usize,
    len: usize,
    draws: u64,
}

impl Model for Record {
    ghost use Rattle.std.specs.Prelude.{◌<◌, ◌≤◌};
    ghost use Rattle.piles.specs.Records.{Record as Kept, window};

    ghost Value = { Kept };

    ghost view = { λ r. record { latest = window r.first r.len r.table; draws = r.draws } };

    ghost invariant = { λ r. (r.first < 64) × (r.len ≤ 64) };
}

impl Record {
    /// Nothing is noted.
    pub fn blank() -> Record
        ensures { result ≡ blank }
    {
        Record {
            table: [0; MOST],
            first: 0,
            len: 0,
            draws: 0,
        }
    }

    /// Notes that `x` was drawn.
    #[tactic(auto, using(crate::proofs::Windows::window_noted))]
    pub fn note(&mut self, x: u16)
        ensures { self.new ≡ noted x self.old }
    {
        self.first = (self.first + MOST - 1) % MOST;
        self.table[self.first] = x;
        self.len = (self.len + 1).min(MOST);
        self.draws = self.draws.saturating_add(1);
    }

    /// The number noted `i` places before the latest.
    pub fn drawn(&self, i: usize) -> Option<u16>
        ensures kept { result ≡ slice_get self.now.latest i }
        ensures beyond { 64 ≤ i → result ≡ None }
    {
        (i < self.len).then(|| self.table[(self.first + i) % MOST])
    }

    /// How many numbers were noted, up to 2^64 - 1.
    pub fn draws(&self) -> u64
        ensures { result ≡ self.now.draws }
    {
        self.draws
    }
}
