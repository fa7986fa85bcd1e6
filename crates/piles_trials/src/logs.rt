//! Logs over both piles, over a borrowed pile and over a log: random calls on a log and on a pile of the same sort beside it, with a list of the
//! numbers drawn that is kept by hand.
ghost use Rattle.piles.specs.Shapes.{DrewBy};

use piles::log::Log;
use piles::marks::Marks;
use piles::pile::Pile;
use piles::ring::Ring;
use random_sheets::Random;
use std::alloc::{AllocError, Global};
use std::process::Abort;
use std::test::Fail;

/// The size of the piles.
const SIZE: usize = 12;

/// How many calls a trial makes.
const CALLS: usize = 3000;

// What a log over a borrowed pile draws is drawn from the pile that was lent.
fn drawn_through<P: Pile>(pile: &mut P) -> Option<u16>
    ensures { DrewBy P.shape pile.old pile.new result }
{
    Log::new(pile).draw()
}

/// The log keeps the 64 latest of the numbers drawn, and has counted all.
fn check_record<P>(rt: &impl Abort, log: &Log<P>, drawn: &[u16]) {
    for i in 0..64 {
        assert_eq!(rt; log.drawn(i), drawn.iter().rev().nth(i).copied());
    }
    assert_eq!(rt; (log.drawn(64), log.drawn(usize::MAX)), (None, None));
    assert_eq!(rt; log.draws(), drawn.len() as u64);
}

/// One random call on a log, and on a pile of the same sort that was made as the pile below it: the number that it drew, if it drew one.
fn call_at_random<P: Pile, Q: Pile>(
    rt: &impl Abort,
    random: &mut Random,
    log: &mut Log<P>,
    twin: &mut Q,
) -> Option<u16> {
    let x = random.below(SIZE + 2) as u16;
    match random.below(5) {
        0 | 1 => assert_eq!(rt; log.put(x), twin.put(x)),
        2 | 3 => {
            let answer = log.draw();
            assert_eq!(rt; answer, twin.draw());
            return answer;
        }
        _ => {
            assert_eq!(rt; log.holds(x), twin.holds(x));
            assert_eq!(rt; (log.size(), log.count()), (twin.size(), twin.count()));
        }
    }
    None
}

/// Such calls, and what they drew.
fn drawn_at_random<P: Pile, Q: Pile>(
    rt: &impl Abort,
    heap: Global,
    random: &mut Random,
    log: &mut Log<P>,
    twin: &mut Q,
) -> Result<Vec<u16>, AllocError> {
    let mut drawn = Vec::new(heap);
    for _ in 0..CALLS {
        if let Some(x) = call_at_random(rt, random, log, twin) {
            drawn.push(x)?;
        }
        check_record(rt, log, &drawn);
    }
    assert!(rt; drawn.len() > 640);
    Ok(drawn)
}

#[test]
fn a_log_over_a_ring(rt: HostRuntime) -> Result<(), Fail> {
    let mut random = Random::seeded(1);
    let (mut list, mut other) = ([9; SIZE], [9; SIZE]);
    let mut twin = Ring::new(&mut other);
    let mut log = Log::new(Ring::new(&mut list));
    drawn_at_random(&rt, rt.alloc(), &mut random, &mut log, &mut twin)?;
    assert_eq!(rt; log.pile().count(), twin.count());
    let mut ring = log.into_pile();
    assert_eq!(rt; ring.draw(), twin.draw());
    Ok(())
}

#[test]
fn a_log_over_borrowed_marks(rt: HostRuntime) -> Result<(), Fail> {
    let mut random = Random::seeded(2);
    let (mut list, mut other) = ([9; SIZE], [9; SIZE]);
    let mut twin = Marks::new(&mut other);
    let mut marks = Marks::new(&mut list);
    let mut log = Log::new(&mut marks);
    drawn_at_random(&rt, rt.alloc(), &mut random, &mut log, &mut twin)?;
    assert_eq!(rt; marks.draw(), twin.draw());
    Ok(())
}

#[test]
fn a_log_over_a_log(rt: HostRuntime) -> Result<(), Fail> {
    let heap = rt.alloc();
    let mut random = Random::seeded(3);
    let (mut list, mut other) = ([9; SIZE], [9; SIZE]);
    let mut twin = Ring::new(&mut other);
    let mut lower = Log::new(Ring::new(&mut list));
    let mut drawn = drawn_at_random(&rt, heap, &mut random, &mut lower, &mut twin)?;
    let mut upper = Log::new(lower);
    let mut since = Vec::new(heap);
    for _ in 0..CALLS {
        if let Some(x) = call_at_random(&rt, &mut random, &mut upper, &mut twin) {
            drawn.push(x)?;
            since.push(x)?;
        }
        check_record(&rt, &upper, &since);
        check_record(&rt, upper.pile(), &drawn);
    }
    assert!(rt; since.len() > 640);
    Ok(())
}

#[test]
fn a_log_begins_with_nothing_noted(rt: HostRuntime) {
    let mut list = [9; SIZE];
    let mut ring = Ring::new(&mut list);
    assert_eq!(rt; (ring.put(3), ring.put(5)), (Ok(()), Ok(())));
    let mut log = Log::new(&mut ring);
    check_record(&rt, &log, &[]);
    assert_eq!(rt; (log.count(), log.draw()), (2, Some(3)));
    check_record(&rt, &log, &[3]);
    assert_eq!(rt; drawn_through(&mut ring), Some(5));
    assert_eq!(rt; ring.count(), 0);
}
