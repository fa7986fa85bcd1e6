//! From one pile to another.
ghost use Rattle.piles.specs.Shapes.{Acted};
ghost use Rattle.piles.specs.Moves.{Transferred};

use crate::pile::Pile;

/// Draws every number of `a` and puts it into `b`; the answer is how many of them `b` refuses, which are then in neither. Nothing but draws
/// and puts is done to either pile, so the rest of a list under it stays.
#[tactic(auto, using(crate::proofs::Turns::drawn_fewer))]
pub fn move_all<P: Pile, Q: Pile>(a: &mut P, b: &mut Q) -> usize
    ensures sets { Transferred (P.shape.numbers a.old) (Q.shape.numbers b.old)
        (P.shape.numbers a.new) (Q.shape.numbers b.new) result }
    ensures acts { Acted P.shape a.old a.new × Acted Q.shape b.old b.new }
{
    // Counted by hand: a `count` over draws would act on both piles inside an iterator.
    let mut refused = 0;
    while let Some(x) = a.draw() {
        if b.put(x).is_err() {
            refused += 1;
        }
    }
    refused
}
