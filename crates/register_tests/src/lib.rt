//! The register in use, at the three kinds.
#![tactic(auto)]

#[cfg(test)]
mod tests {
    use buckets::Ends;
    use kinds::{
        CoursePlace, CourseRegion, KindFault, PlaceKind, PlanePlace, PlaneRegion, Span, WaterPlace,
    };
    use register::{Register, RegisterFault, unused_slot};
    use std::process::Abort;
    use std::test::Fail;
    use tree::Node;

    // What a bucket's ends are, or why there is none.
    fn ends_of<P: PlaceKind>(
        register: &Register<'_, P>,
        set: u16,
        size: u16,
    ) -> Result<Ends, RegisterFault> {
        Ok(register.bucket(set, size)?.ends)
    }

    fn ends(first: u16, last: u16) -> Result<Ends, RegisterFault> {
        Ok(Ends { first, last })
    }

    fn square(low: u16, high: u16) -> PlaneRegion {
        let side = Span { low, high };
        PlaneRegion { x: side, y: side }
    }

    #[test]
    fn worked_example(rt: HostRuntime) -> Result<(), Fail> {
        let mut slots = [unused_slot(PlanePlace::new(0, 0)); 8];
        let mut register = Register::new(&mut slots);
        let cells = [(0, 0), (1, 0), (1, 1), (0, 1), (0, 3), (3, 3), (3, 0)];
        for (set, (x, y)) in (1..8u16).zip(cells) {
            register.enter(set, PlanePlace::new(x, y))?;
        }
        for set in 1..4u16 {
            assert_eq!(rt; ends_of(&register, set, 3), ends(0, 2));
            assert_eq!(rt; register.bucket(set, 3)?.region, square(0, 1));
        }
        for set in 4..8u16 {
            assert_eq!(rt; ends_of(&register, set, 3), ends(3, 6));
            assert_eq!(rt; register.bucket(set, 3)?.region, square(0, 3));
        }
        assert_eq!(rt; ends_of(&register, 1, 8), Err(RegisterFault::TooFew));
        Ok(())
    }

    // One set more, on the next reach of the course.
    fn enter_next(register: &mut Register<'_, CoursePlace>, set: u16) -> Result<(), RegisterFault> {
        register.enter(
            set,
            CoursePlace {
                reach: set,
                offset: 0,
            },
        )
    }

    // One set too few, the size, one less than twice, and twice the size.
    fn edges_of(
        rt: &impl Abort,
        slots: &mut [Node<CoursePlace, CourseRegion>],
        size: u16,
    ) -> Result<(), Fail> {
        let double = size.saturating_mul(2);
        let mut register = Register::new(slots);
        for set in 1..size {
            enter_next(&mut register, set)?;
        }
        assert_eq!(rt; ends_of(&register, 1, size), Err(RegisterFault::TooFew));
        enter_next(&mut register, size)?;
        assert_eq!(rt;
            ends_of(&register, 1, size),
            ends(0, size.saturating_sub(1))
        );
        for set in size.saturating_add(1)..double {
            enter_next(&mut register, set)?;
        }
        assert_eq!(rt;
            ends_of(&register, 1, size),
            ends(0, double.saturating_sub(2))
        );
        enter_next(&mut register, double)?;
        assert_eq!(rt;
            ends_of(&register, 1, size),
            ends(0, size.saturating_sub(1))
        );
        assert_eq!(rt;
            ends_of(&register, double, size),
            ends(size, double.saturating_sub(1))
        );
        Ok(())
    }

    #[test]
    fn edges_of_each_size(rt: HostRuntime) -> Result<(), Fail> {
        let place = CoursePlace {
            reach: 1,
            offset: 0,
        };
        let mut slots = vec![in rt.alloc(); unused_slot(place); 129]?;
        for size in 2..65u16 {
            edges_of(&rt, slots.as_mut_slice(), size)?;
        }
        Ok(())
    }

    #[test]
    fn refusals_in_their_order(rt: HostRuntime) -> Result<(), Fail> {
        let good = PlanePlace::new(4095, 4095);
        let bad = PlanePlace::new(4096, 0);
        let not_admitted = Err(RegisterFault::Kind(KindFault::NotAdmitted));
        let mut slots = [unused_slot(good); 3];
        let mut register = Register::new(&mut slots);
        assert_eq!(rt; register.enter(0, bad), Err(RegisterFault::NoSuchSet));
        assert_eq!(rt; register.enter(3, good), Err(RegisterFault::NoSuchSet));
        assert_eq!(rt; register.enter(1, bad), not_admitted);
        assert_eq!(rt; register.relocate(1, bad), not_admitted);
        assert_eq!(rt; register.relocate(1, good), Err(RegisterFault::NotPresent));
        assert_eq!(rt; register.leave(1), Err(RegisterFault::NotPresent));
        assert_eq!(rt; ends_of(&register, 3, 1), Err(RegisterFault::NoSuchSet));
        assert_eq!(rt; ends_of(&register, 2, 1), Err(RegisterFault::Size));
        assert_eq!(rt; ends_of(&register, 2, 65), Err(RegisterFault::Size));
        assert_eq!(rt; ends_of(&register, 2, 2), Err(RegisterFault::NotPresent));
        register.enter(2, good)?;
        assert_eq!(rt; register.enter(2, bad), not_admitted);
        assert_eq!(rt; register.enter(2, good), Err(RegisterFault::AlreadyPresent));
        assert_eq!(rt; ends_of(&register, 2, 2), Err(RegisterFault::TooFew));
        assert_eq!(rt; register.relocate(2, good), Ok(()));
        assert_eq!(rt; register.leave(2), Ok(()));
        assert_eq!(rt; register.leave(2), Err(RegisterFault::NotPresent));
        Ok(())
    }

    // The capacity over so many slots, and whether slot 0 and slots above 4,095 are as they were when the register is full.
    fn full_over(rt: &(impl Abort + AllocGlobal), count: usize, capacity: u16) -> Result<(), Fail> {
        let end = capacity.saturating_add(1);
        let mut marked = unused_slot(PlanePlace::new(0, 0));
        marked.count = 9;
        let mut slots = vec![in rt.alloc(); marked; count]?;
        {
            let mut register = Register::new(slots.as_mut_slice());
            assert_eq!(rt; register.capacity(), capacity);
            for set in 1..end {
                register.enter(set, PlanePlace::new(set % 4096, 7))?;
            }
            assert_eq!(rt; register.count(), capacity);
            assert_eq!(rt;
                register.enter(end, PlanePlace::new(0, 0)),
                Err(RegisterFault::NoSuchSet)
            );
            assert!(rt; register.height() <= 16);
        }
        let mut unused = slots.iter().take(1).chain(slots.iter().skip(4096));
        assert!(rt; unused.all(|slot| slot.count == 9));
        Ok(())
    }

    #[test]
    fn capacities(rt: HostRuntime) -> Result<(), Fail> {
        full_over(&rt, 0, 0)?;
        full_over(&rt, 1, 0)?;
        full_over(&rt, 2, 1)?;
        full_over(&rt, 256, 255)?;
        full_over(&rt, 4096, 4095)?;
        full_over(&rt, 5000, 4095)
    }

    // A place on one of three waters; many sets share one.
    fn mooring(set: u16) -> WaterPlace<PlanePlace> {
        let water = set % 3;
        let below = PlanePlace::new(set % 2, 0);
        WaterPlace { water, below }
    }

    #[test]
    fn many_sets_in_one_cell(rt: HostRuntime) -> Result<(), Fail> {
        let mut slots = vec![in rt.alloc(); unused_slot(mooring(0)); 4096]?;
        let mut register = Register::new(slots.as_mut_slice());
        for set in 1..4096u16 {
            register.enter(set, mooring(0))?;
        }
        assert_eq!(rt; ends_of(&register, 1, 64), ends(0, 63));
        assert_eq!(rt; ends_of(&register, 64, 64), ends(0, 63));
        assert_eq!(rt; ends_of(&register, 65, 64), ends(64, 127));
        assert_eq!(rt; ends_of(&register, 4095, 64), ends(3968, 4094));
        let region = register.bucket(2000, 10)?.region;
        assert_eq!(rt; (region.water.low, region.water.high), (0, 0));
        assert_eq!(rt; region.below, square(0, 0));
        for set in 1..4096u16 {
            register.relocate(set, mooring(set))?;
        }
        assert_eq!(rt; register.count(), 4095);
        assert!(rt; register.height() <= 16);
        let two_waters = register.bucket(4095, 64)?.region;
        assert_eq!(rt; (two_waters.water.low, two_waters.water.high), (0, 1));
        let last = register.bucket(4091, 64)?.region;
        assert_eq!(rt; (last.water.low, last.water.high), (2, 2));
        Ok(())
    }

    // Three orders of the sets 1 to 4,095, by the set of step i: rising, falling, and by a stride that shares no factor.
    fn rising(i: u16) -> u16 {
        i
    }

    fn falling(i: u16) -> u16 {
        4096u16.saturating_sub(i)
    }

    fn striding(i: u16) -> u16 {
        1 + (u32::from(i) * 1_234 % 4_095) as u16
    }

    // Enters all sets in one order, and lets them leave in another.
    fn fill_and_empty<C: Fn(u16) -> u16, G: Fn(u16) -> u16>(
        rt: &impl Abort,
        slots: &mut [Node<CoursePlace, CourseRegion>],
        come: C,
        go: G,
    ) -> Result<(), Fail>
        requires come { C.IsAlwaysCallable come }
        requires go { G.IsAlwaysCallable go }
    {
        let mut register = Register::new(slots);
        for i in 1..4096u16 {
            let set = come(i);
            let place = CoursePlace {
                reach: 1 + set / 5,
                offset: set % 5,
            };
            register.enter(set, place)?;
        }
        assert_eq!(rt; register.count(), 4095);
        assert!(rt; register.height() <= 16);
        assert_eq!(rt; ends_of(&register, 4095, 64), ends(3968, 4094));
        for i in 1..4096u16 {
            register.leave(go(i))?;
        }
        assert_eq!(rt; register.count(), 0);
        assert_eq!(rt; register.height(), 0);
        Ok(())
    }

    // Enters all sets in one order, and lets them leave in each of the three.
    fn fill_and_empty_in_each<C: Fn(u16) -> u16>(
        rt: &impl Abort,
        slots: &mut [Node<CoursePlace, CourseRegion>],
        come: C,
    ) -> Result<(), Fail>
        requires { C.IsAlwaysCallable come }
    {
        fill_and_empty(rt, slots, &come, rising)?;
        fill_and_empty(rt, slots, &come, falling)?;
        fill_and_empty(rt, slots, &come, striding)
    }

    #[test]
    fn full_in_three_orders(rt: HostRuntime) -> Result<(), Fail> {
        let place = CoursePlace {
            reach: 1,
            offset: 0,
        };
        let mut slots = vec![in rt.alloc(); unused_slot(place); 4096]?;
        fill_and_empty_in_each(&rt, slots.as_mut_slice(), rising)?;
        fill_and_empty_in_each(&rt, slots.as_mut_slice(), falling)?;
        fill_and_empty_in_each(&rt, slots.as_mut_slice(), striding)
    }
}
