//! Classification by rounds.
use crate::kinds::Kind;
use crate::lines::{Concept, Inclusion};
use crate::vocabularies::{Vocabulary, has};
use std::alloc::{AllocError, Global};

/// What can be derivable at a point.
#[derive(Clone, Copy)]
enum Fact {
    /// The first concept lies under the second.
    Under(usize, usize),
    /// Through the role, the first concept implies the second.
    Implies(usize, usize, usize),
}

/// At which points each fact is derivable: bit p of a fact's mask is point p.
#[derive(Drop)]
pub struct Table {
    pub concepts: usize,
    pub roles: usize,
    // One list, and `place` is all that reckons in it: a map would ask for memory at every fact.
    masks: Vec<u64>,
}

impl Table {
    /// The table of a vocabulary, in which nothing is derivable yet.
    fn empty(heap: Global, vocabulary: &Vocabulary) -> Result<Table, AllocError> {
        let concepts = vocabulary.concepts.len();
        let roles = vocabulary.above.len();
        let relations = roles.saturating_add(1);
        let facts = relations.saturating_mul(concepts).saturating_mul(concepts);
        Ok(Table {
            concepts,
            roles,
            masks: vec![in heap; 0; facts]?,
        })
    }

    /// The place of the fact's mask, if there is such a fact: "left under right" come first, then "left s-implies right" for each role s.
    fn place(&self, fact: Fact) -> Option<usize> {
        let (relation, left, right) = match fact {
            Fact::Under(left, right) => (0, left, right),
            Fact::Implies(role, left, right) => (role.checked_add(1)?, left, right),
        };
        if left >= self.concepts || right >= self.concepts {
            return None;
        }
        let row = relation.checked_mul(self.concepts)?.checked_add(left)?;
        row.checked_mul(self.concepts)?.checked_add(right)
    }

    /// The points of a fact.
    fn points(&self, fact: Fact) -> u64 {
        self.place(fact)
            .and_then(|place| self.masks.get(place))
            .copied()
            .unwrap_or(0)
    }

    /// Adds points to a fact.
    fn derive(&mut self, fact: Fact, points: u64) {
        if let Some(place) = self.place(fact)
            && let Some(mask) = self.masks.get_mut(place)
        {
            *mask |= points;
        }
    }

    /// The points at which "left under right" is derivable.
    pub fn under(&self, left: usize, right: usize) -> u64 {
        self.points(Fact::Under(left, right))
    }

    /// The points at which "left role-implies right" is derivable.
    pub fn implies(&self, role: usize, left: usize, right: usize) -> u64 {
        self.points(Fact::Implies(role, left, right))
    }

    /// How many points all facts have together.
    fn fact_points(&self) -> u64 {
        self.masks
            .iter()
            .fold(0, |sum, mask| with_points(sum, *mask))
    }

    /// How many points all jobs have together, a job being a fact at a concept where its rules fire: "c under d" at c, once more at the
    /// filler where d is a restriction, and "c s-implies e" at c. No saturation takes more steps, and with one point it takes as many.
    pub fn job_points(&self, vocabulary: &Vocabulary) -> u64 {
        let mut sum = self.fact_points();
        for (d, concept) in vocabulary.concepts.iter().enumerate() {
            if let Concept::Restriction(_, _) = *concept {
                sum = (0..self.concepts)
                    .map(|c| self.under(c, d))
                    .fold(sum, with_points);
            }
        }
        sum
    }
}

/// The sum and how many points the mask has.
fn with_points(sum: u64, mask: u64) -> u64 {
    sum.saturating_add(u64::from(mask.count_ones()))
}

/// A saturation under way.
#[derive(Drop)]
struct Saturation<'a> {
    vocabulary: &'a Vocabulary,
    kind: Kind,
    table: Table,
}

impl Saturation<'_> {
    /// What lies under the left of an inclusion lies under its right.
    fn include(&mut self, inclusion: Inclusion) {
        let holds = self.kind.mask(inclusion.code);
        for c in 0..self.table.concepts {
            let points = self.table.under(c, inclusion.left) & holds;
            self.table.derive(Fact::Under(c, inclusion.right), points);
        }
    }

    /// What one concept gives to another, c, by what it is: an atomic one lies under itself; what lies under itself lies under a top; what
    /// lies under a conjunction lies under both parts, and the other way round; a restriction's filler lies under itself once anything lies
    /// under the restriction, and what lies under the filler implies the restriction.
    fn give(&mut self, number: usize, concept: Concept, c: usize) {
        let whole = self.table.under(c, number);
        match concept {
            Concept::Atomic => {
                self.table
                    .derive(Fact::Under(number, number), self.kind.points());
            }
            Concept::Top => {
                let itself = self.table.under(c, c);
                self.table.derive(Fact::Under(c, number), itself);
            }
            Concept::Conjunction(first, second) => {
                self.table.derive(Fact::Under(c, first), whole);
                self.table.derive(Fact::Under(c, second), whole);
                let both = self.table.under(c, first) & self.table.under(c, second);
                self.table.derive(Fact::Under(c, number), both);
            }
            Concept::Restriction(role, filler) => {
                self.table.derive(Fact::Under(filler, filler), whole);
                let part = self.table.under(c, filler);
                self.table.derive(Fact::Implies(role, c, number), part);
            }
        }
    }

    /// The points at which the left concept implies the right one through a role above the role.
    fn implied(&self, role: usize, left: usize, right: usize) -> u64 {
        let above = self.vocabulary.above(role);
        (0..self.table.roles)
            .filter(|s| has(above, *s))
            .fold(0, |points, s| points | self.table.implies(s, left, right))
    }

    /// Gives each concept under the restriction what its filler implies through a role above the given one, as a fact of the two.
    fn pass<F: Fn(usize, usize) -> Fact>(
        &mut self,
        restriction: usize,
        filler: usize,
        role: usize,
        fact: F,
    )
        requires { F.IsAlwaysCallable fact }
    {
        for e in 0..self.table.concepts {
            let implied = self.implied(role, filler, e);
            for d in 0..self.table.concepts {
                let points = self.table.under(d, restriction) & implied;
                self.table.derive(fact(d, e), points);
            }
        }
    }

    /// What comes along a restriction of the role. What its filler implies through a role above that one lies above what is under the
    /// restriction; what it implies through a role above a transitive one between, this implies through the transitive one.
    fn along(&mut self, restriction: usize, filler: usize, role: usize) {
        self.pass(restriction, filler, role, Fact::Under);
        let transitive = self.vocabulary.above(role) & self.vocabulary.transitive;
        for t in (0..self.table.roles).filter(|t| has(transitive, *t)) {
            self.pass(restriction, filler, t, |d, e| Fact::Implies(t, d, e));
        }
    }

    /// What one concept gives to all, by what it is.
    fn give_all(&mut self, number: usize, concept: Concept) {
        for c in 0..self.table.concepts {
            self.give(number, concept, c);
        }
        if let Concept::Restriction(role, filler) = concept {
            self.along(number, filler, role);
        }
    }

    /// Every rule over every fact, once.
    fn round(&mut self) {
        let vocabulary = self.vocabulary;
        for inclusion in vocabulary.inclusions.iter() {
            self.include(*inclusion);
        }
        for (number, concept) in vocabulary.concepts.iter().enumerate() {
            self.give_all(number, *concept);
        }
    }
}

/// All that is derivable: rounds until one derives nothing more.
pub fn saturate(heap: Global, vocabulary: &Vocabulary, kind: Kind) -> Result<Table, AllocError> {
    let mut saturation = Saturation {
        vocabulary,
        kind,
        table: Table::empty(heap, vocabulary)?,
    };
    let mut points = 0;
    loop {
        saturation.round();
        let derived = saturation.table.fact_points();
        if derived <= points {
            break;
        }
        points = derived;
    }
    Ok(saturation.table)
}
