//! What every pile does. A pile is a worklist, known by its shape: the numbers that wait in it, its front, and what puts and draws make of it.
ghost use Rattle.std.specs.Prelude.{◌≡◌};
ghost use Rattle.piles.specs.Sets.{count_of};
ghost use Rattle.piles.specs.Shapes.{Shape, PutBy, DrewBy, borrowed};

use rejections::Rejection;

/// A set of numbers below a size that never changes.
pub trait Pile {
    // What the pile shows: its set and size, its front, and what a put and a draw make of it.
    ghost shape: { Shape Self };

    /// The size, at most 1,024: every number that is held is below it.
    fn size(&self) -> usize
        ensures { result ≡ (shape.numbers self.now).size };

    /// How many numbers are held.
    fn count(&self) -> usize
        ensures { result ≡ count_of (shape.numbers self.now) };

    /// Whether `x` is held.
    fn holds(&self, x: u16) -> bool
        ensures { result ≡ (shape.numbers self.now).holds x };

    /// Holds `x` from now on. One that is held already changes nothing, and one that is not below the size is rejected.
    fn put(&mut self, x: u16) -> Result<(), Rejection>
        ensures { PutBy shape x self.old self.new result };

    /// Takes out a number of the pile's choice; `None` says that none is held.
    fn draw(&mut self) -> Option<u16>
        ensures { DrewBy shape self.old self.new result };
}

/// A borrowed pile is a pile.
impl<'a, P: Pile> Pile for &'a mut P {
    ghost shape = { borrowed P.Pile.shape };

    fn size(&self) -> usize {
        (**self).size()
    }

    fn count(&self) -> usize {
        (**self).count()
    }

    fn holds(&self, x: u16) -> bool {
        (**self).holds(x)
    }

    fn put(&mut self, x: u16) -> Result<(), Rejection> {
        (**self).put(x)
    }

    fn draw(&mut self) -> Option<u16> {
        (**self).draw()
    }
}
