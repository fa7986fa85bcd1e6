//! Piles at work: both piles on small examples, what a caller then knows of its list, and logs over them.
#![tactic(auto)]

ghost use Rattle.std.specs.Prelude.{◌≡◌};
ghost use Rattle.piles.specs.Lists.{rest};

#[cfg(test)]
mod logs;

#[cfg(test)]
mod tests {
    use piles::marks::Marks;
    use piles::moving::move_all;
    use piles::pile::Pile;
    use piles::ring::Ring;
    use rejections::Rejection;
    use std::test::Fail;

    // A number goes through a pile of marks over the caller's list, and the list's rest stays.
    fn through_marks(list: &mut [u16], x: u16) -> Option<u16>
        ensures { rest list.new ≡ rest list.old }
    {
        let mut marks = Marks::new(list);
        let _ = marks.put(x);
        marks.draw()
    }

    // The same by a ring: one function for every pile could not promise this, since only the two piles have a list to speak of.
    fn through_ring(list: &mut [u16], x: u16) -> Option<u16>
        ensures { rest list.new ≡ rest list.old }
    {
        let mut ring = Ring::new(list);
        let _ = ring.put(x);
        ring.draw()
    }

    fn put_all<P: Pile>(pile: &mut P, numbers: &[u16]) -> Result<(), Rejection> {
        for x in numbers {
            pile.put(*x)?;
        }
        Ok(())
    }

    fn four_draws<P: Pile>(pile: &mut P) -> [Option<u16>; 4] {
        [pile.draw(), pile.draw(), pile.draw(), pile.draw()]
    }

    fn one_draw<P: Pile + Drop>(mut pile: P) -> Option<u16> {
        pile.draw()
    }

    #[test]
    fn marks_give_the_smallest(rt: HostRuntime) -> Result<(), Fail> {
        let mut list = [9; 8];
        let mut marks = Marks::new(&mut list);
        put_all(&mut marks, &[7, 5, 0, 5])?;
        assert_eq!(rt; marks.count(), 3);
        assert_eq!(rt; four_draws(&mut marks), [Some(0), Some(5), Some(7), None]);
        Ok(())
    }

    #[test]
    fn a_ring_gives_the_longest_held(rt: HostRuntime) -> Result<(), Fail> {
        let mut list = [9; 8];
        let mut ring = Ring::new(&mut list);
        put_all(&mut ring, &[7, 5, 0, 5])?;
        assert_eq!(rt; one_draw(&mut ring), Some(7));
        put_all(&mut ring, &[7, 5])?;
        assert_eq!(rt; four_draws(&mut ring), [Some(5), Some(0), Some(7), None]);
        Ok(())
    }

    #[test]
    fn a_number_at_the_size_is_rejected(rt: HostRuntime) {
        let mut list = [9; 4];
        let mut marks = Marks::new(&mut list);
        assert_eq!(rt; marks.put(4), Err(Rejection::NotBelowSize));
        let mut long = [9; 1030];
        let mut ring = Ring::new(&mut long);
        assert_eq!(rt; ring.put(1024), Err(Rejection::NotBelowSize));
        assert_eq!(rt; (ring.size(), ring.count()), (1024, 0));
    }

    #[test]
    fn what_lies_beyond_1024_stays(rt: HostRuntime) {
        let mut list = [9; 1030];
        assert_eq!(rt; through_marks(&mut list, 1023), Some(1023));
        assert_eq!(rt; through_ring(&mut list, 1023), Some(1023));
        assert_eq!(rt; (list[0], list[1024]), (0, 9));
    }

    #[test]
    fn a_move_leaves_out_what_does_not_fit(rt: HostRuntime) -> Result<(), Fail> {
        let mut list = [9; 8];
        let mut ring = Ring::new(&mut list);
        put_all(&mut ring, &[6, 2, 1])?;
        let mut short = [9; 4];
        let mut marks = Marks::new(&mut short);
        assert_eq!(rt; move_all(&mut ring, &mut marks), 1);
        assert_eq!(rt; ring.count(), 0);
        assert_eq!(rt; four_draws(&mut marks), [Some(1), Some(2), None, None]);
        Ok(())
    }
}
