//! Random numbers from a seed, and random sheets.
ghost use Rattle.std.specs.Prelude.{◌<◌, length, Contains};

use reference::{WIDTH, push_line};
use std::alloc::{AllocError, Global};

/// A sequence of numbers that looks random and is the same for the same seed.
#[derive(Clone, Copy)]
pub struct Random {
    state: u64,
}

impl Random {
    /// The sequence of the seed.
    pub fn seeded(seed: u64) -> Random {
        Random { state: seed }
    }

    /// The next number.
    pub fn next(&mut self) -> u64 {
        self.state = self.state.wrapping_add(0x9e37_79b9_7f4a_7c15);
        let mut mixed = self.state;
        mixed = (mixed ^ (mixed >> 30)).wrapping_mul(0xbf58_476d_1ce4_e5b9);
        mixed = (mixed ^ (mixed >> 27)).wrapping_mul(0x94d0_49bb_1331_11eb);
        mixed ^ (mixed >> 31)
    }

    /// The next number below the bound, or 0 if the bound is 0.
    pub fn below(&mut self, bound: usize) -> usize
        ensures { 0 < bound → result < bound }
    {
        if bound == 0 {
            return 0;
        }
        (self.next() % bound as u64) as usize
    }

    /// True once in so many times.
    pub fn once_in(&mut self, times: usize) -> bool {
        self.below(times) == 0
    }

    /// Some member of the list.
    pub(crate) fn pick<T: Copy>(&mut self, list: &[T]) -> T
        requires { 0 < length list.now }
        ensures { Contains list.now result }
    {
        list[self.below(list.len())]
    }
}

/// How large a random sheet is at most. Besides there are up to thrice as many I and P lines as roles.
#[derive(Clone, Copy)]
pub struct Size {
    pub concepts: usize,
    pub roles: usize,
    pub inclusions: usize,
    pub most_code: u16,
}

/// The letters of the lines that add a concept.
const CONCEPTS: &[u8] = b"ATNE";

/// A sheet that is being written, with the numbers that it is drawn by.
#[derive(Drop)]
struct Draft {
    text: Vec<u8>,
    random: Random,
    size: Size,
}

impl Draft {
    /// How many lines have one of the letters.
    fn count(&self, letters: &[u8]) -> usize {
        self.text
            .chunks(WIDTH)
            .filter(|line| begins(line, letters))
            .count()
    }

    /// How many concepts there are.
    fn concepts(&self) -> usize {
        self.count(CONCEPTS)
    }

    /// How many roles there are.
    fn roles(&self) -> usize {
        self.count(b"R")
    }

    /// How many inclusions may still be added.
    fn places(&self) -> usize {
        self.size.inclusions.saturating_sub(self.count(b"S"))
    }

    /// How many concepts may still be added.
    fn room(&self) -> usize {
        self.size.concepts.saturating_sub(self.concepts())
    }

    /// Whether the concept's line has the letter.
    fn is_made_by(&self, concept: usize, letter: u8) -> bool {
        self.text
            .chunks(WIDTH)
            .filter(|line| begins(line, CONCEPTS))
            .nth(concept)
            .is_some_and(|line| begins(line, &[letter]))
    }

    /// Adds a line.
    fn push(&mut self, letter: &[u8], numbers: &[usize]) -> Result<(), AllocError> {
        push_line(&mut self.text, letter, numbers)
    }

    /// Some concept.
    fn some_concept(&mut self) -> usize {
        let concepts = self.concepts();
        self.random.below(concepts)
    }

    /// Some role.
    fn some_role(&mut self) -> usize {
        let roles = self.roles();
        self.random.below(roles)
    }

    /// Some concept, rather one with this letter.
    fn like(&mut self, letter: u8) -> usize {
        for _ in 0..8u8 {
            let concept = self.some_concept();
            if self.is_made_by(concept, letter) {
                return concept;
            }
        }
        self.some_concept()
    }

    /// Adds a role, if there may be one more.
    fn add_role(&mut self) -> Result<(), AllocError> {
        if self.roles() < self.size.roles {
            self.push(b"R", &[])?;
        }
        Ok(())
    }

    /// Adds a role's transitivity, or a pair of the order, mostly from the lower number to the higher, if there are not too many of these.
    fn add_role_order(&mut self) -> Result<(), AllocError> {
        if self.count(b"IP") / 3 >= self.roles() {
            return Ok(());
        }
        let r = self.some_role();
        let s = self.some_role();
        match self.random.below(8) {
            0..=3 => self.push(b"P", &[r]),
            4 => self.push(b"I", &[r, s]),
            _ => self.push(b"I", &[r.min(s), r.max(s)]),
        }
    }

    /// Adds a concept, if there may be one more: atomic or top, or made of earlier ones, once in a while of one concept twice.
    fn add_concept(&mut self) -> Result<(), AllocError> {
        if self.room() == 0 {
            return Ok(());
        }
        let earlier = self.concepts();
        let x = self.random.below(earlier);
        let y = if self.random.once_in(4) {
            x
        } else {
            self.random.below(earlier)
        };
        match self.random.below(20) {
            0 => self.push(b"T", &[]),
            1..=4 if earlier > 0 => self.push(b"N", &[x, y]),
            5..=9 if earlier > 0 && self.roles() > 0 => {
                let role = self.some_role();
                self.push(b"E", &[role, y])
            }
            _ => self.push(b"A", &[]),
        }
    }

    /// Adds an inclusion with some code: once in a while a low one or the greatest.
    fn include(&mut self, left: usize, right: usize) -> Result<(), AllocError> {
        let most = usize::from(self.size.most_code);
        let code = match self.random.below(8) {
            0..=2 => self.random.below(4).min(most),
            3 => most,
            _ => self.random.below(most + 1),
        };
        self.push(b"S", &[left, right, code])
    }

    /// Adds an inclusion, if there may be one more: into or out of a restriction, out of a conjunction or of any concept; once in a while with
    /// one that leads back.
    fn add_inclusion(&mut self) -> Result<(), AllocError> {
        let places = self.places();
        if self.concepts() == 0 || places == 0 {
            return Ok(());
        }
        let leads_back = places > 1 && self.random.once_in(10);
        let atomic = self.like(b'A');
        let restriction = self.like(b'E');
        let any = self.some_concept();
        let (left, right) = match self.random.below(12) {
            0..=3 => (atomic, restriction),
            4..=7 => (restriction, atomic),
            8..=9 => (self.like(b'N'), any),
            _ => (any, self.some_concept()),
        };
        if leads_back {
            self.include(right, left)?;
        }
        self.include(left, right)
    }

    /// Adds an atomic concept and a restriction to the given one, and answers their numbers.
    fn add_link(&mut self, filler: usize) -> Result<(usize, usize), AllocError> {
        let atomic = self.concepts();
        let role = self.some_role();
        self.push(b"A", &[])?;
        self.push(b"E", &[role, filler])?;
        Ok((atomic, atomic.saturating_add(1)))
    }

    /// Adds a chain, if there may be one: a few concepts, each inside a restriction to the one before, and a restriction to the first inside
    /// another concept, which shows what comes along the chain.
    fn add_chain(&mut self) -> Result<(), AllocError> {
        if self.concepts() == 0 || self.roles() == 0 || self.room() < 8 || self.places() < 4 {
            return Ok(());
        }
        let first = self.some_concept();
        let mut reached = first;
        for _ in 0..=self.random.below(3) {
            let (atomic, restriction) = self.add_link(reached)?;
            self.include(atomic, restriction)?;
            reached = atomic;
        }
        let (atomic, restriction) = self.add_link(first)?;
        self.include(restriction, atomic)
    }

    /// Adds something.
    fn add_something(&mut self) -> Result<(), AllocError> {
        match self.random.below(12) {
            0..=1 => self.add_role(),
            2..=3 => self.add_role_order(),
            4..=7 => self.add_concept(),
            8 => self.add_chain(),
            _ => self.add_inclusion(),
        }
    }

    /// Does the step so many times.
    fn repeat<F: Fn(&mut Draft) -> Result<(), AllocError>>(
        &mut self,
        times: usize,
        step: F,
    ) -> Result<(), AllocError>
        requires { F.IsAlwaysCallable step }
    {
        for _ in 0..times {
            step(self)?;
        }
        Ok(())
    }

    /// Writes roles, their order, concepts, a chain and inclusions; half of the sheets begin with all this in any order.
    fn fill(&mut self) -> Result<(), AllocError> {
        let size = self.size;
        if self.random.once_in(2) {
            let times = self.random.below(size.concepts);
            self.repeat(times, Draft::add_something)?;
        }
        let order = self.random.below(size.roles.saturating_mul(3));
        self.repeat(size.roles, Draft::add_role)?;
        self.repeat(order.saturating_add(1), Draft::add_role_order)?;
        self.repeat(size.concepts / 2, Draft::add_concept)?;
        self.add_chain()?;
        self.repeat(size.concepts / 2, Draft::add_concept)?;
        self.repeat(size.inclusions, Draft::add_inclusion)
    }
}

/// Whether the line begins with one of the letters.
fn begins(line: &[u8], letters: &[u8]) -> bool {
    line.first().is_some_and(|letter| letters.contains(letter))
}

/// A random sheet of at most the size, without a fault where the size keeps the limits.
pub fn random_sheet(heap: Global, random: &mut Random, size: Size) -> Result<Vec<u8>, AllocError> {
    let mut draft = Draft {
        text: Vec::new(heap),
        random: *random,
        size,
    };
    draft.fill()?;
    *random = draft.random;
    Ok(draft.text)
}
